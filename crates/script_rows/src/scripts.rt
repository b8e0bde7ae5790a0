//! Runs of small scripts over a host that shows its calls: order, lines, values, and the first fault.

use crate::recording::show_run;
use sdc_base::NoMemory;
use std::alloc::Global;
use std::test::Fail;

/// Scripts with the calls that the host got, and the fault after them.
#[test]
fn calls_with_their_lines_and_values(rt: HostRuntime) -> Result<(), Fail> {
    for (script, wanted) in [
        // order and lines
        ("a\nb; c\n", "1:a() 2:b() 2:c()"),
        ("\n\nfoo [\nbar]", "3:bar() 3:foo(<>)"),
        (
            "foreach i {1 2} {\n  a $i\n  b\n}\nc",
            "1:a(1) 1:b() 1:a(2) 1:b() 5:c()",
        ),
        ("a [b; c x]", "1:b() 1:c(x) 1:a(<x>)"),
        ("a \"x[b]y\"", "1:b() 1:a(x<>y)"),
        // variables
        ("set v 5; a $v ${v}x \"$v $v\"", "1:a(5, 5x, 5 5)"),
        ("set v 1\nset v 2\na $v [set v]", "3:a(2, 2)"),
        ("set v [b 7]; a $v", "1:b(7) 1:a(<7>)"),
        ("set v 1; set v [set w $v]; a $v$w", "1:a(11)"),
        ("set n a; $n 1; [list set] m 2; a $m", "1:a(1) 1:a(2)"),
        // objects stay objects in a word that is one substitution, and are names beside a text
        (
            "set c [clocks]; a $c; a x$c",
            "1:clocks() 1:a(@2) 1:a(xp q)",
        ),
        (
            "a [list [clocks] [clocks]]",
            "1:clocks() 1:clocks() 1:a(@4)",
        ),
        ("a [list [clocks] x]", "1:clocks() 1:a({p q} x)"),
        ("a [concat [clocks] [none]]", "1:clocks() 1:none() 1:a(@2)"),
        (
            "a [lindex [clocks] 1] [llength [clocks]]",
            "1:clocks() 1:clocks() 1:a(@1, 2)",
        ),
        ("foreach c [clocks] {a $c}", "1:clocks() 1:a(@1) 1:a(@1)"),
    ] {
        let shown = show_run(rt.alloc(), script)?;
        assert_eq!(rt; (script, shown.as_str()), (script, wanted));
    }
    Ok(())
}

/// Scripts with built-in commands, whose values stand in the calls that the host got.
#[test]
fn built_in_commands_with_their_values(rt: HostRuntime) -> Result<(), Fail> {
    for (script, wanted) in [
        // lists
        (
            "a [list] [list b {c d}] [concat {b  c} { d }]",
            "1:a(, b {c d}, b c d)",
        ),
        (
            "a [lindex {b c} 0] [lindex {b c} 2] [lindex {b c} -1]",
            "1:a(b, , )",
        ),
        ("a [llength {b {c d} e}] [llength {}]", "1:a(3, 0)"),
        // expressions
        (
            "set v 3; a [expr $v * 2 + 1] [expr {$v > 2}] [expr 1.50]",
            "1:a(7, 1, 1.5)",
        ),
        (
            "a [expr {0 && [b]}] [expr {1 || [c]}] [expr {1 && [number]}]",
            "1:number() 1:a(0, 1, 0)",
        ),
        ("a [expr {[b] eq \"<>\"}]", "1:b() 1:a(1)"),
        // if
        (
            "if 0 a b; if 1 then a else b; if {0} a elseif 1 b",
            "1:b() 1:a() 1:b()",
        ),
        (
            "a [if 0 {b}] [if 1 {c 9}] [foreach i {} {}]",
            "1:c(9) 1:a(, <9>, )",
        ),
        // an index stands for itself
        ("a data[3] \"d[*]\" [1:0]", "1:a(data[3], d[*], [1:0])"),
    ] {
        let shown = show_run(rt.alloc(), script)?;
        assert_eq!(rt; (script, shown.as_str()), (script, wanted));
    }
    Ok(())
}

static FIRST_FAULTS: [(&str, &str); 28] = [
    ("set a $x\nset b {", "1 Tcl(UnknownVariable)"),
    ("set", "1 Tcl(WrongArgs)"),
    ("expr x + 1", "1 Tcl(BadExpr)"),
    ("a\nset a {1", "1:a() 2 Tcl(Unclosed)"),
    ("a\n\nset a {1}2", "1:a() 3 Tcl(ExtraAfterBrace)"),
    ("set a $b(1)", "1 Tcl(BadWord)"),
    ("a [b; c {x}y]", "1:b() 1 Tcl(ExtraAfterBrace)"),
    ("a [b {x}y]", "1 Tcl(ExtraAfterBrace)"),
    (
        "\nforeach i {1 2} {\n\n a $i\n refuse\n}",
        "2:a(1) 2 Sdc(OutOfProfile)",
    ),
    ("a [refuse] [b]", "1 Sdc(OutOfProfile)"),
    // a failed `set` leaves the variable as it was
    ("set v 1; set v [refuse]", "1 Sdc(OutOfProfile)"),
    // words are counted before conditions
    ("if $nope {a} else", "1 Tcl(UnknownVariable)"),
    ("if {[a]} b else", "1 Tcl(WrongArgs)"),
    ("if 1 then", "1 Tcl(WrongArgs)"),
    ("if abc {a}", "1 Tcl(BadExpr)"),
    ("if {\"1e20\"} {a}", "1 Tcl(Number(NumberRange))"),
    ("foreach i {a", "1 Tcl(Unclosed)"),
    ("foreach i \"{a\" {}", "1 Tcl(Unclosed)"),
    ("foreach {} {}", "1 Tcl(WrongArgs)"),
    ("lindex \"{a\" x", "1 Tcl(Unclosed)"),
    ("lindex {a} x", "1 Tcl(BadExpr)"),
    ("lindex {a} 1.0", "1 Tcl(BadExpr)"),
    (
        "lindex {a} 99999999999999999999",
        "1 Tcl(Number(NumberRange))",
    ),
    ("llength", "1 Tcl(WrongArgs)"),
    ("expr", "1 Tcl(BadExpr)"),
    ("expr 1 / 0", "1 Tcl(Number(DivideByZero))"),
    ("expr {\"a\" + [b]}", "1:b() 1 Tcl(BadExpr)"),
    ("expr {\"a\" && [b]}", "1 Tcl(BadExpr)"),
];

/// Scripts with their first fault in order of execution; the calls before it stand.
#[test]
fn first_faults(rt: HostRuntime) -> Result<(), Fail> {
    for (script, wanted) in FIRST_FAULTS.iter() {
        let shown = show_run(rt.alloc(), script)?;
        assert_eq!(rt; (*script, shown.as_str()), (*script, *wanted));
    }
    Ok(())
}

/// A script of a command in so many brackets, or an expression in so many parentheses.
fn nested(
    alloc: Global,
    before: &str,
    open: &str,
    inner: &str,
    close: &str,
    levels: usize,
) -> Result<String, NoMemory> {
    let mut script = String::from_str(alloc, before)?;
    for _ in 0..levels {
        script.push_str(open)?;
    }
    script.push_str(inner)?;
    for _ in 0..levels {
        script.push_str(close)?;
    }
    Ok(script)
}

/// A hundred levels are read and one more is too deep, in brackets and in parentheses; an index is a level, too.
#[test]
fn levels(rt: HostRuntime) -> Result<(), Fail> {
    let alloc = rt.alloc();
    for (open, inner, close, levels, wanted) in [
        ("[set a ", "1", "]", 100, "1:a(1)"),
        ("[set a ", "1", "]", 101, "1 Tcl(TooDeep)"),
        ("[set a ", "[1]", "]", 99, "1:a([1])"),
        ("[set a ", "[1]", "]", 100, "1 Tcl(TooDeep)"),
    ] {
        let script = nested(alloc, "a ", open, inner, close, levels)?;
        let shown = show_run(alloc, script.as_str())?;
        assert_eq!(rt; (levels, shown.as_str()), (levels, wanted));
    }
    for (inner, levels, wanted) in [
        ("1", 100, ""),
        ("1", 101, "1 Tcl(TooDeep)"),
        ("[b]", 99, "1:b()"),
        ("[b]", 100, "1 Tcl(TooDeep)"),
    ] {
        let mut script = nested(alloc, "expr {", "(", inner, ")", levels)?;
        script.push_str("}")?;
        let shown = show_run(alloc, script.as_str())?;
        assert_eq!(rt; (levels, shown.as_str()), (levels, wanted));
    }
    Ok(())
}
