//! Commands of small texts, as a reader of the Tcl rules splits them by hand.
//! A word is shown by its parts: a text in `'`, a variable after `$`, a script in brackets.

use sdc_base::{At, List, NoMemory, Stop};
use source_types::{Command, Next, Part, Word};
use std::alloc::Global;
use std::test::Fail;
use tcl_words::{next_command, split};

/// A word by its parts, after a blank.
fn show_word(shown: &mut String, word: &Word) -> Result<(), NoMemory> {
    shown.push_str(" ")?;
    for part in word.parts.iter() {
        let (before, text, after) = match part {
            Part::Text(text) => ("'", text, "'"),
            Part::Variable(name) => ("$", name, ""),
            Part::Script(script) => ("[", script, "]"),
        };
        shown.push_str(before)?;
        shown.push_str(text.as_str())?;
        shown.push_str(after)?;
    }
    Ok(())
}

/// Each command with its line before it and a bar after it.
fn show_commands(alloc: Global, commands: &List<Command>) -> Result<String, NoMemory> {
    let mut shown = String::new(alloc);
    for command in commands.iter() {
        let line = format!(in alloc; "{}", command.line)?;
        shown.push_str(line.as_str())?;
        for word in command.words.iter() {
            show_word(&mut shown, word)?;
        }
        shown.push_str("|")?;
    }
    Ok(shown)
}

/// The commands of a text, or the line of its fault after the kind.
fn show_split(alloc: Global, text: &str) -> Result<String, NoMemory> {
    match split(alloc, text) {
        Ok(commands) => show_commands(alloc, &commands),
        Err(Stop::Refused(At { line, kind })) => Ok(format!(in alloc; "{kind:?} {line}")?),
        Err(Stop::NoMemory) => Err(NoMemory),
    }
}

/// The texts whose commands are others than those beside them, with what they are.
pub fn unlike(alloc: Global, rows: &[(&str, &str)]) -> Result<String, NoMemory> {
    let mut all = String::new(alloc);
    for (text, wanted) in rows.iter() {
        let shown = show_split(alloc, text)?;
        if shown.as_str() != *wanted {
            let row = format!(in alloc; "{text:?} gives {shown:?}\n")?;
            all.push_str(row.as_str())?;
        }
    }
    Ok(all)
}

/// The lines of the next command and after it, and where it ends.
fn lines_and_end(found: &Option<Next>) -> Option<(u32, u32, usize)> {
    match found {
        None => None,
        Some(next) => Some((next.command.line, next.line, next.end)),
    }
}

#[test]
fn one_command_after_the_other(rt: HostRuntime) -> Result<(), Fail> {
    let text = " a;\n\n b {c\n} \nd";
    let first = next_command(rt.alloc(), text, 0, 1)?;
    assert_eq!(rt; lines_and_end(&first), Some((1, 1, 2)));
    let Some(first) = first else { return Ok(()) };
    let second = next_command(rt.alloc(), text, first.end, first.line)?;
    assert_eq!(rt; lines_and_end(&second), Some((3, 4, 13)));
    let Some(second) = second else { return Ok(()) };
    let third = next_command(rt.alloc(), text, second.end, second.line)?;
    assert_eq!(rt; lines_and_end(&third), Some((5, 5, 15)));
    let Some(third) = third else { return Ok(()) };
    let last = next_command(rt.alloc(), text, third.end, third.line)?;
    assert_eq!(rt; lines_and_end(&last), None);
    Ok(())
}

#[test]
fn the_last_line_stays(rt: HostRuntime) -> Result<(), Fail> {
    let found = next_command(rt.alloc(), "\n\na", 0, u32::MAX - 1)?;
    assert_eq!(rt; lines_and_end(&found), Some((u32::MAX, u32::MAX, 3)));
    Ok(())
}
