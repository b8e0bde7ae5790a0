//! Words of each form, and their parts.

use crate::commands::unlike;
use std::test::Fail;

#[test]
fn bare_words(rt: HostRuntime) -> Result<(), Fail> {
    let unlike = unlike(
        rt.alloc(),
        &[
            (
                "azAZ09_.+-/:,=@!%^&*()|<>?~`'",
                "1 'azAZ09_.+-/:,=@!%^&*()|<>?~`''|",
            ),
            ("a\"b a{b a}b a]b }", "1 'a\"b' 'a{b' 'a}b' 'a]b' '}'|"),
            ("é 中b", "1 'é' '中b'|"),
            // backslashes
            ("a\\nb \\t a\\ b", "1 'a\nb' '\t' 'a b'|"),
            ("\\x41 \\a \\\\ \\{ \\é", "1 'x41' 'a' '\\' '{' 'é'|"),
            ("\\;a \\#b \\$c \\[d \\\"e", "1 ';a' '#b' '$c' '[d' '\"e'|"),
            ("a\\", "1 'a\\'|"),
            ("\\", "1 '\\'|"),
            // variables
            ("$a $a_1 ${a} ${a b;\nc} ${}", "1 $a $a_1 $a $a b;\nc $|"),
            ("$a.b x$a-$b$c", "1 $a'.b' 'x'$a'-'$b$c|"),
            ("$ a$ $. $(", "1 '$' 'a$' '$.' '$('|"),
            ("$äb $a::b ${a}(1)", "1 '$äb' $a'::b' $a'(1)'|"),
            ("${a\\} $\\a", "1 $a\\ '$a'|"),
            // scripts
            ("[a] a[b]c [a][b]", "1 [a] 'a'[b]'c' [a][b]|"),
            ("[] [ 3] [a b;c\nd]", "1 [] [ 3] [a b;c\nd]|"),
            ("data[3] [1:0] a[?]b", "1 'data'[3] [1:0] 'a'[?]'b'|"),
            ("$a[3]", "1 $a[3]|"),
        ],
    )?;
    assert_eq!(rt; unlike.as_str(), "");
    Ok(())
}

#[test]
fn braced_words(rt: HostRuntime) -> Result<(), Fail> {
    let unlike = unlike(
        rt.alloc(),
        &[
            ("{} { } {a b} {a;b\nc}", "1 '' ' ' 'a b' 'a;b\nc'|"),
            ("{a {b {}} c} {{}}", "1 'a {b {}} c' '{}'|"),
            ("{$a [b] \"c #d}", "1 '$a [b] \"c #d'|"),
            // a backslash takes the next character out, and stays
            ("{a\\}b} {a\\{b} {\\\\}", "1 'a\\}b' 'a\\{b' '\\\\'|"),
            ("{\\n\\t\\é}", "1 '\\n\\t\\é'|"),
            // what may follow
            ("{a}\tb {c};{d}\n{e}\r\n", "1 'a' 'b' 'c'|1 'd'|2 'e'|"),
        ],
    )?;
    assert_eq!(rt; unlike.as_str(), "");
    Ok(())
}

#[test]
fn quoted_words(rt: HostRuntime) -> Result<(), Fail> {
    let unlike = unlike(
        rt.alloc(),
        &[
            ("\"\" \" \" \"a b\" \"a;b\nc\"", "1 '' ' ' 'a b' 'a;b\nc'|"),
            ("\"a{b\" \"a}\" \"a]b\" \"#a\"", "1 'a{b' 'a}' 'a]b' '#a'|"),
            (
                "\"a\\\"b\" \"\\\\\" \"\\n\\t\\x\"",
                "1 'a\"b' '\\' '\n\tx'|",
            ),
            (
                "\"$a\" \" $a\" \"a$b c\" \"$\"",
                "1 $a ' '$a 'a'$b' c' '$'|",
            ),
            ("\"${a\"b}\" \"${a]}\"", "1 $a\"b $a]|"),
            (
                "\"[a]\" \"a [b c] d\" \"[3]\" \"d[*]\"",
                "1 [a] 'a '[b c]' d' [3] 'd'[*]|",
            ),
            // a quote inside brackets does not end the word
            (
                "\"[a \"b\"]\" \"[a \"b c\" d] e\"",
                "1 [a \"b\"] [a \"b c\" d]' e'|",
            ),
            ("\"[a b\"c]\"", "1 [a b\"c]|"),
            ("\"a\";\"b\"\n\"c\"\r\n", "1 'a'|1 'b'|2 'c'|"),
        ],
    )?;
    assert_eq!(rt; unlike.as_str(), "");
    Ok(())
}

#[test]
fn brackets_are_passed_over_whole(rt: HostRuntime) -> Result<(), Fail> {
    let unlike = unlike(
        rt.alloc(),
        &[
            ("[a [b [c]] d]", "1 [a [b [c]] d]|"),
            (
                "[a {]} b] [a \"]\" b] [a \\] b]",
                "1 [a {]} b] [a \"]\" b] [a \\] b]|",
            ),
            // braces and quotes count only where a word begins
            ("[a b{ c] [a b\" c]", "1 [a b{ c] [a b\" c]|"),
            ("[{]}] [\"]\"]", "1 [{]}] [\"]\"]|"),
            (
                "[a;{]}] [a\n{]}] [a\t{]}] [a\r{]}] [a\\\n{]}]",
                "1 [a;{]}] [a\n{]}] [a\t{]}] [a\r{]}] [a\\\n{]}]|",
            ),
            ("[set a \\ {b]", "1 [set a \\ {b]|"),
            ("[a {]}{]", "1 [a {]}{]|"),
            ("[a \"]\"{] [a [b]{]", "1 [a \"]\"{] [a [b]{]|"),
            // quotes in brackets in quotes
            ("[a \"b [c \"d]\"] ]\"]", "1 [a \"b [c \"d]\"] ]\"]|"),
            ("[a \"{\" \"[b {]\"}]\"]", "1 [a \"{\" \"[b {]\"}]\"]|"),
            // `${` hides nothing
            ("[set x ${a]b}", "1 [set x ${a]'b}'|"),
            ("[a \"${b\"c]", "1 [a \"${b\"c]|"),
            // faults inside come when the script is run
            ("[a {b}c] [a $b(1)]", "1 [a {b}c] [a $b(1)]|"),
            ("[a # \\\n b]", "1 [a # \\\n b]|"),
        ],
    )?;
    assert_eq!(rt; unlike.as_str(), "");
    Ok(())
}
