//! Items of lists, as a reader of the Tcl rules parts them by hand, and the texts of lists.
//! An item is shown in `'` and `'`.

use sdc_base::{List, NoMemory, Stop, Text};
use std::alloc::Global;
use std::test::Fail;
use tcl_words::{list_items, list_text};

/// The items of a list, one after the other.
fn show_items(alloc: Global, items: &List<Text>) -> Result<String, NoMemory> {
    let mut shown = String::new(alloc);
    for item in items.iter() {
        shown.push_str("'")?;
        shown.push_str(item.as_str())?;
        shown.push_str("'")?;
    }
    Ok(shown)
}

/// The items of a text, or the kind of its fault.
fn show_list(alloc: Global, text: &str) -> Result<String, NoMemory> {
    match list_items(alloc, text) {
        Ok(items) => show_items(alloc, &items),
        Err(Stop::Refused(kind)) => Ok(format!(in alloc; "{kind:?}")?),
        Err(Stop::NoMemory) => Err(NoMemory),
    }
}

/// The text of a list of the items, and whether it reads back as they are.
fn show_made(alloc: Global, texts: &[&str]) -> Result<String, NoMemory> {
    let mut items = List::new(alloc);
    for text in texts {
        items.push(Text::from_str(alloc, text)?)?;
    }
    let made = list_text(alloc, &items)?;
    let back = show_list(alloc, made.as_str())?;
    let given = show_items(alloc, &items)?;
    if back.as_str() == given.as_str() {
        return Ok(String::from_str(alloc, made.as_str())?);
    }
    Ok(format!(in alloc; "{} reads back as {back}", made.as_str())?)
}

/// The texts whose items are others than those beside them, with what they are.
fn unlike(alloc: Global, rows: &[(&str, &str)]) -> Result<String, NoMemory> {
    let mut all = String::new(alloc);
    for (text, wanted) in rows.iter() {
        let shown = show_list(alloc, text)?;
        if shown.as_str() != *wanted {
            let row = format!(in alloc; "{text:?} gives {shown:?}\n")?;
            all.push_str(row.as_str())?;
        }
    }
    Ok(all)
}

/// The lists whose texts are others than those beside them, with what they are.
fn unlike_made(alloc: Global, rows: &[(&[&str], &str)]) -> Result<String, NoMemory> {
    let mut all = String::new(alloc);
    for (items, wanted) in rows.iter() {
        let made = show_made(alloc, items)?;
        if made.as_str() != *wanted {
            let row = format!(in alloc; "{items:?} gives {made:?}\n")?;
            all.push_str(row.as_str())?;
        }
    }
    Ok(all)
}

static LISTS: [(&str, &str); 19] = [
    ("", ""),
    (" \t\r\n", ""),
    ("a {b c} d", "'a''b c''d'"),
    (" a\tb\rc\nd\r\n", "'a''b''c''d'"),
    // what stands for itself
    (
        "a;b c; #d [e $f $g(1) ${h [i]",
        "'a;b''c;''#d''[e''$f''$g(1)''${h''[i]'",
    ),
    ("\"$a [b\" \"[c \"", "'$a [b''[c '"),
    ("a{b a}b a\"b ]", "'a{b''a}b''a\"b'']'"),
    // braces and quotes
    (
        "{} \"\" {a {b} c} {\\}} {a;$b[c\"}",
        "'''''a {b} c''\\}''a;$b[c\"'",
    ),
    ("\"a b\" \"\\\"\" \"a{\" \"a\nb\"", "'a b''\"''a{''a\nb'"),
    ("{a}\n{b}\t\"c\"\r{d}", "'a''b''c''d'"),
    // backslashes
    (
        "a\\nb \\t \\x41 \\a \\\\ \\{ a\\ b \\;",
        "'a\nb''\t''x41''a''\\''{''a b'';'",
    ),
    ("{a\\nb} {\\\\} a\\", "'a\\nb''\\\\''a\\'"),
    ("\\", "'\\'"),
    // continued lines part items, and are one blank inside braces and quotes
    ("a\\\nb", "'a''b'"),
    ("a\\\r\n\tb \\\n", "'a''b'"),
    ("{a\\\nb} {a\\\n\tb} {a\\\r\n \r\tb}", "'a b''a b''a b'"),
    ("\"a\\\n  b\" {a}\\\n\"b\"\\\r\n{c}", "'a b''a''b''c'"),
    ("{a\\\\\nb}", "'a\\\\\nb'"),
    // no other byte parts items
    (
        "a\u{a0}b\u{b}c\u{c}d é {é ü} \\é",
        "'a\u{a0}b\u{b}c\u{c}d''é''é ü''é'",
    ),
];

#[test]
fn items_of_lists(rt: HostRuntime) -> Result<(), Fail> {
    let unlike = unlike(rt.alloc(), &LISTS)?;
    assert_eq!(rt; unlike.as_str(), "");
    Ok(())
}

#[test]
fn faults_of_lists(rt: HostRuntime) -> Result<(), Fail> {
    let unlike = unlike(
        rt.alloc(),
        &[
            ("a {b", "Unclosed"),
            ("{", "Unclosed"),
            ("{a\\}", "Unclosed"),
            ("{a {b}", "Unclosed"),
            ("\"", "Unclosed"),
            ("a \"b\\\"", "Unclosed"),
            ("{a};", "ExtraAfterBrace"),
            ("{a}{b}", "ExtraAfterBrace"),
            ("{a}]", "ExtraAfterBrace"),
            ("\"a\"b", "ExtraAfterBrace"),
            ("\"a\";", "ExtraAfterBrace"),
            ("\"[a \"b\"]\"", "ExtraAfterBrace"),
            ("{a}\\b", "ExtraAfterBrace"),
            ("{a}\\", "ExtraAfterBrace"),
            ("{a}\\\rb", "ExtraAfterBrace"),
            // the first in the text
            ("{a}b {c", "ExtraAfterBrace"),
            ("a {b c} {d {e}f", "Unclosed"),
        ],
    )?;
    assert_eq!(rt; unlike.as_str(), "");
    Ok(())
}

#[test]
fn texts_of_lists(rt: HostRuntime) -> Result<(), Fail> {
    let unlike = unlike_made(
        rt.alloc(),
        &[
            (&[], ""),
            (&["a", "b c", "d"], "a {b c} d"),
            (&["", ""], "{} {}"),
            (
                &["a#b", "din[1]", "a]", "$a", "a;b"],
                "{a#b} {din[1]} {a]} {$a} {a;b}",
            ),
            (
                &["a\tb", "a\rb", "a\nb", "\r\n"],
                "{a\tb} {a\rb} {a\nb} {\r\n}",
            ),
            (
                &["a\"$b", "{", "}", "\\", "\"a"],
                "a\\\"$b \\{ \\} \\\\ \\\"a",
            ),
            (
                &["{ \t\r\n[;#", "{\r\n", "\\\n"],
                "\\{\\ \\t\\\r\\n[;# \\{\\\r\\n \\\\\\n",
            ),
            (
                &["é", "é ü", "é{ü", "a{", "{n t}"],
                "é {é ü} é\\{ü a\\{ \\{n\\ t\\}",
            ),
        ],
    )?;
    assert_eq!(rt; unlike.as_str(), "");
    Ok(())
}
