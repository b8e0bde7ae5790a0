//! The first command of a text, and all of them.

ghost use Rattle.std.specs.Prelude.{◌≡◌, ◌<◌, ◌≤◌, true, length, drop, IfOk, IfSome};
ghost use Rattle.std.specs.Str.{IsCharBoundary};
ghost use Rattle.sdc_base.specs.Gives.{Meets};
ghost use Rattle.tcl_model.specs.Commands.{FirstFrom, Splits};
ghost use Rattle.tcl_words.specs.Reads.{starts, WordsFrom};

use crate::between::{command_start, gap_end};
use crate::scan::command_ends;
use crate::spelled::{Spelled, word_at};
use sdc_base::{At, List, Stop};
use source_types::{Command, Next, TclKind, Word};
use std::alloc::Global;
use text_lines::line_at;

/// The words of a command, and where it ends in bytes.
#[derive(Drop)]
pub struct Words {
    pub words: List<Word>,
    pub end: usize,
}

/// The words from a place, where one begins, to the end of the command there. Refused as `word_at` refuses.
#[tactic(auto, using(crate::proofs::CommandFacts::words_none, crate::proofs::CommandFacts::words_more, crate::proofs::CommandFacts::words_end, crate::proofs::CommandFacts::words_error, crate::proofs::CommandFacts::begins_word, crate::proofs::CommandFacts::starts_long))]
pub fn command_words(alloc: Global, text: &str, from: usize) -> Result<Words, Stop<TclKind>>
    requires within { from ≤ length text.now }
    requires begins { starts (drop from text.now) ≡ true }
    requires boundary { IsCharBoundary text.now from }
    ensures { Meets result (WordsFrom text.now from) }
{
    let bytes = text.as_bytes();
    let mut words = List::new(alloc);
    let mut at = from;
    loop {
        let begin = gap_end(bytes, at);
        if command_ends(bytes, begin) {
            return Ok(Words { words, end: begin });
        }
        let Spelled { word, end } = word_at(alloc, text, begin)?;
        words.push(word)?;
        at = end;
    }
}

/// The first command at or after a place of a text (Tcl), with the place and the line where it ends; `None`
/// where only spaces, newlines, `;` and comments are left. `line` is that of the place.
/// Refused with the line where the command begins, by the first word that cannot be read: `Unclosed`,
/// `ExtraAfterBrace` or `BadWord`, as `word_at` says.
/// The end of a command is after `from` and cuts no character, so that this can be called again there.
#[tactic(auto, using(crate::proofs::CommandFacts::first_none, crate::proofs::CommandFacts::first_found, crate::proofs::CommandFacts::first_error, crate::proofs::CommandFacts::begins_command, crate::proofs::CommandFacts::starts_long))]
pub fn next_command(
    alloc: Global,
    text: &str,
    from: usize,
    line: u32,
) -> Result<Option<Next>, Stop<At<TclKind>>>
    requires within { from ≤ length text.now }
    requires boundary { IsCharBoundary text.now from }
    ensures outcome { Meets result (FirstFrom text.now from line) }
    ensures boundary { IfOk result (λ o. IfSome o (λ next. IsCharBoundary text.now next.end)) }
    ensures forward { IfOk result (λ o. IfSome o (λ next. from < next.end)) }
{
    let bytes = text.as_bytes();
    let begin = command_start(bytes, from);
    if begin == bytes.len() {
        return Ok(None);
    }
    let line = line_at(bytes, from, begin, line);
    let Words { words, end } = match command_words(alloc, text, begin) {
        Ok(words) => words,
        Err(Stop::Refused(kind)) => return Err(Stop::Refused(At { line, kind })),
        Err(Stop::NoMemory) => return Err(Stop::NoMemory),
    };
    let after = line_at(bytes, begin, end, line);
    let command = Command { line, words };
    Ok(Some(Next {
        command,
        end,
        line: after,
    }))
}

/// The commands of a text, in order (Tcl). Refused as `next_command` refuses, at the first command that cannot
/// be read.
pub fn split(alloc: Global, text: &str) -> Result<List<Command>, Stop<At<TclKind>>>
    ensures { Meets result (Splits text.now) }
{
    let mut commands = List::new(alloc);
    let mut at = 0;
    let mut line = 1;
    while let Some(next) = next_command(alloc, text, at, line)? {
        commands.push(next.command)?;
        at = next.end;
        line = next.line;
    }
    Ok(commands)
}
