//! What parts words and commands, and the lines of commands.

use crate::commands::unlike;
use std::test::Fail;

#[test]
fn what_parts_words_and_commands(rt: HostRuntime) -> Result<(), Fail> {
    let unlike = unlike(
        rt.alloc(),
        &[
            // nothing, and what parts alone
            ("", ""),
            (" \t\r", ""),
            ("\n;\n", ""),
            ("; ;\t;; \n\n", ""),
            ("\\\n", ""),
            (" \\\r\n \t", ""),
            // ends of commands
            ("a", "1 'a'|"),
            ("a\n", "1 'a'|"),
            ("a;", "1 'a'|"),
            ("a;b", "1 'a'|1 'b'|"),
            ("a b ; c;d\te\n", "1 'a' 'b'|1 'c'|1 'd' 'e'|"),
            ("a;;;b", "1 'a'|1 'b'|"),
            // spaces
            (" \t a \t b\t\n", "1 'a' 'b'|"),
            ("a\tb\rc\r\nd\r\n", "1 'a' 'b' 'c'|2 'd'|"),
            // no spaces: form feed, vertical tab, a blank of no ASCII, a byte order mark
            ("a\x0cb", "1 'a\x0cb'|"),
            ("a\x0bb", "1 'a\x0bb'|"),
            ("a\u{a0}b\u{2003}c", "1 'a\u{a0}b\u{2003}c'|"),
            ("\u{feff}a", "1 '\u{feff}a'|"),
            // lines
            ("a\nb\nc", "1 'a'|2 'b'|3 'c'|"),
            ("\n\n a b", "3 'a' 'b'|"),
            ("a\n\n;\n \t\nb\n", "1 'a'|5 'b'|"),
            ("a;b\nc;d", "1 'a'|1 'b'|2 'c'|2 'd'|"),
            ("a {b\n\nc};d\ne", "1 'a' 'b\n\nc'|3 'd'|4 'e'|"),
            ("a \"\n\" [\n]\nb", "1 'a' '\n' [\n]|4 'b'|"),
            ("a\rb", "1 'a' 'b'|"),
        ],
    )?;
    assert_eq!(rt; unlike.as_str(), "");
    Ok(())
}

#[test]
fn continued_lines(rt: HostRuntime) -> Result<(), Fail> {
    let unlike = unlike(
        rt.alloc(),
        &[
            ("a \\\nb", "1 'a' 'b'|"),
            ("a\\\nb", "1 'a' 'b'|"),
            ("a\\\r\nb", "1 'a' 'b'|"),
            ("a \\\r\n  b\nc", "1 'a' 'b'|3 'c'|"),
            ("a\\\n\\\n b", "1 'a' 'b'|"),
            ("\\\na", "2 'a'|"),
            ("set a b\\\nc", "1 'set' 'a' 'b' 'c'|"),
            ("a {b}\\\nc", "1 'a' 'b' 'c'|"),
            ("a \"b\"\\\r\nc", "1 'a' 'b' 'c'|"),
            ("a\\\n;b", "1 'a'|2 'b'|"),
            ("a\\\n\nb", "1 'a'|3 'b'|"),
            // in braces and quotes: one blank with the blanks after it
            ("{a\\\n \t\rb}", "1 'a b'|"),
            ("{a\\\r\nb}", "1 'a b'|"),
            ("\"a\\\n  b\"", "1 'a b'|"),
            ("\"\\\n\"", "1 ' '|"),
            ("{a\\\n\\\n b}", "1 'a  b'|"),
            // two backslashes are a pair
            ("{a\\\\\nb}", "1 'a\\\\\nb'|"),
            ("\"a\\\\\nb\"", "1 'a\\\nb'|"),
            ("a\\\\\nb", "1 'a\\'|2 'b'|"),
            // a carriage return alone
            ("a \\\rb", "1 'a' '\rb'|"),
        ],
    )?;
    assert_eq!(rt; unlike.as_str(), "");
    Ok(())
}

#[test]
fn comments(rt: HostRuntime) -> Result<(), Fail> {
    let unlike = unlike(
        rt.alloc(),
        &[
            ("#", ""),
            ("# a {", ""),
            ("# a\nb", "2 'b'|"),
            ("a;# b\nc", "1 'a'|2 'c'|"),
            ("a # b", "1 'a' '#' 'b'|"),
            ("a#b #c", "1 'a#b' '#c'|"),
            (" \t#a;b\nc", "2 'c'|"),
            ("# a \\\nb\nc", "3 'c'|"),
            ("# a \\\r\nb\nc", "3 'c'|"),
            ("# a\r\nb", "2 'b'|"),
            // two backslashes are a pair
            ("# a \\\\\nb", "2 'b'|"),
            ("# a \\\\\\\nb\nc", "3 'c'|"),
            // at the end of the text
            ("# a \\", ""),
            ("#\\\n", ""),
            ("\\\n# a\nb", "3 'b'|"),
        ],
    )?;
    assert_eq!(rt; unlike.as_str(), "");
    Ok(())
}
