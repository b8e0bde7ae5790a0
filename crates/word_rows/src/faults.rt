//! Texts that cannot be read, and the line of their fault.

use crate::commands::unlike;
use std::test::Fail;

#[test]
fn what_has_no_end(rt: HostRuntime) -> Result<(), Fail> {
    let unlike = unlike(
        rt.alloc(),
        &[
            ("set a {1", "Unclosed 1"),
            ("{", "Unclosed 1"),
            ("a\nb {c\n\nd", "Unclosed 2"),
            ("{a\\}", "Unclosed 1"),
            ("{a{}", "Unclosed 1"),
            ("{\\", "Unclosed 1"),
            ("\"", "Unclosed 1"),
            ("a;b\n\nc \"d\ne", "Unclosed 3"),
            ("\"a\\\"", "Unclosed 1"),
            ("\"a[b\"", "Unclosed 1"),
            ("[", "Unclosed 1"),
            ("a\n[b\n", "Unclosed 2"),
            ("[a [b]", "Unclosed 1"),
            ("[a \"]\" {]} \\]", "Unclosed 1"),
            ("[# \"x ]", "Unclosed 1"),
            ("[\\", "Unclosed 1"),
            ("${a", "Unclosed 1"),
            ("\\\n\"${a\"", "Unclosed 2"),
            ("# a\n\n{b", "Unclosed 3"),
        ],
    )?;
    assert_eq!(rt; unlike.as_str(), "");
    Ok(())
}

#[test]
fn text_after_a_closed_word(rt: HostRuntime) -> Result<(), Fail> {
    let unlike = unlike(
        rt.alloc(),
        &[
            ("set a {1}2", "ExtraAfterBrace 1"),
            ("{*}a", "ExtraAfterBrace 1"),
            ("{}}", "ExtraAfterBrace 1"),
            ("a\nb {c}{d}", "ExtraAfterBrace 2"),
            ("a {b\n}c", "ExtraAfterBrace 1"),
            ("{a}\\ b", "ExtraAfterBrace 1"),
            ("{a}\\", "ExtraAfterBrace 1"),
            ("{a}é", "ExtraAfterBrace 1"),
            ("{a}\x0c", "ExtraAfterBrace 1"),
            ("\"a\"b", "ExtraAfterBrace 1"),
            ("\"a\"\"b\"", "ExtraAfterBrace 1"),
            ("\"[a \"b\" c\"]\"d", "ExtraAfterBrace 1"),
            ("a\n\"b\"$c", "ExtraAfterBrace 2"),
        ],
    )?;
    assert_eq!(rt; unlike.as_str(), "");
    Ok(())
}

#[test]
fn elements_of_arrays(rt: HostRuntime) -> Result<(), Fail> {
    let unlike = unlike(
        rt.alloc(),
        &[
            ("set a $b(1)", "BadWord 1"),
            ("a\nb \"$c(\"", "BadWord 2"),
            ("x$a(", "BadWord 1"),
            // the first fault of the text
            ("a $b(\n{", "BadWord 1"),
            ("{a}b\n$c(", "ExtraAfterBrace 1"),
            ("set a $b(1) {", "BadWord 1"),
            ("set a [x $b(1)", "Unclosed 1"),
        ],
    )?;
    assert_eq!(rt; unlike.as_str(), "");
    Ok(())
}
