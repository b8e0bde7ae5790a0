//! Functions as they stand in libraries, with the expressions that a reader of Liberty's rules groups by hand.

use bool_lanes::parse;
use pin_types::Expr;
use sdc_base::{List, NoMemory, Stop, Text};
use std::alloc::Global;
use std::process::Abort;
use std::test::Fail;

/// An expression with a letter for each operator before its parts, and each pin by its place.
fn show_expr(alloc: Global, shown: &mut String, expr: &Expr) -> Result<(), NoMemory> {
    match expr {
        Expr::Zero => shown.push_str("zero")?,
        Expr::One => shown.push_str("one")?,
        Expr::Pin(pin) => {
            let pin = format!(in alloc; "{pin}")?;
            shown.push_str(pin.as_str())?;
        }
        Expr::Not(inner) => {
            shown.push_str("not ")?;
            show_expr(alloc, shown, inner.get())?;
        }
        Expr::And(left, right) => {
            shown.push_str("and ")?;
            show_expr(alloc, shown, left.get())?;
            shown.push_str(" ")?;
            show_expr(alloc, shown, right.get())?;
        }
        Expr::Or(left, right) => {
            shown.push_str("or ")?;
            show_expr(alloc, shown, left.get())?;
            shown.push_str(" ")?;
            show_expr(alloc, shown, right.get())?;
        }
        Expr::Xor(left, right) => {
            shown.push_str("xor ")?;
            show_expr(alloc, shown, left.get())?;
            shown.push_str(" ")?;
            show_expr(alloc, shown, right.get())?;
        }
    }
    Ok(())
}

/// Names that are parted by commas.
fn names_of(alloc: Global, names: &str) -> Result<List<Text>, NoMemory> {
    let mut list = List::new(alloc);
    for name in names.split(',') {
        list.push(Text::from_str(alloc, name)?)?;
    }
    Ok(list)
}

/// What a function's text means among names.
fn show_parse(alloc: Global, text: &str, names: &str) -> Result<String, NoMemory> {
    let names = names_of(alloc, names)?;
    let mut shown = String::new(alloc);
    if names.len() > 60_001 {
        return Ok(shown);
    }
    match parse(alloc, text, &names) {
        Ok(Some(expr)) => show_expr(alloc, &mut shown, &expr)?,
        Ok(None) => shown.push_str("none")?,
        Err(Stop::Refused(kind)) => {
            let kind = format!(in alloc; "{kind:?}")?;
            shown.push_str(kind.as_str())?;
        }
        Err(Stop::NoMemory) => return Err(NoMemory),
    }
    Ok(shown)
}

/// Sees that a text means this among names.
fn means(
    rt: &impl Abort,
    alloc: Global,
    text: &str,
    names: &str,
    wanted: &str,
) -> Result<(), NoMemory> {
    let shown = show_parse(alloc, text, names)?;
    assert!(rt; shown.as_str() == wanted, "{text}: {shown}");
    Ok(())
}

static FUNCTIONS: [(&str, &str, &str); 34] = [
    // the order of binding
    ("A ^ B C", "A,B,C", "and xor 0 1 2"),
    ("A B ^ C", "A,B,C", "and 0 xor 1 2"),
    ("A + B C", "A,B,C", "or 0 and 1 2"),
    ("A*B|C&D", "A,B,C,D", "or and 0 1 and 2 3"),
    ("(A + B) * C", "A,B,C", "and or 0 1 2"),
    // operators of one kind group to the left
    ("A B C", "A,B,C", "and and 0 1 2"),
    ("A+B|C", "A,B,C", "or or 0 1 2"),
    ("A^B^C", "A,B,C", "xor xor 0 1 2"),
    // negations
    ("!A", "A", "not 0"),
    ("A'", "A", "not 0"),
    ("!A'", "A", "not not 0"),
    ("A''", "A", "not not 0"),
    ("!! A '", "A", "not not not 0"),
    ("!A ^ B'", "A,B", "xor not 0 not 1"),
    ("(A S') + (B S)", "A,B,S", "or and 0 not 2 and 1 2"),
    ("!(A + B)'", "A,B", "not not or 0 1"),
    // blanks
    ("  A\t", "A", "0"),
    ("( A )", "A", "0"),
    ("A\nB", "A,B", "and 0 1"),
    ("A \r\n * B", "A,B", "and 0 1"),
    ("A !B", "A,B", "and 0 not 1"),
    ("A (B)", "A,B", "and 0 1"),
    ("A' B", "A,B", "and not 0 1"),
    ("A +B", "A,B", "or 0 1"),
    // words
    ("0", "A", "zero"),
    ("1 + A", "A", "or one 0"),
    ("0A", "A,0A", "1"),
    ("A[0]", "A[0]", "0"),
    ("\u{e9}", "\u{e9}", "0"),
    ("A", "A,A", "0"),
    // names that are no inputs
    ("IQ", "A,,IQ", "none"),
    ("A IQ", "A,,IQ", "none"),
    ("A", "A,,A", "none"),
    ("A", ",A", "none"),
];

#[test]
fn functions_of_texts(rt: HostRuntime) -> Result<(), Fail> {
    for (text, names, wanted) in FUNCTIONS.iter() {
        means(&rt, rt.alloc(), text, names, wanted)?;
    }
    Ok(())
}

const ELEVEN: &str = "A,B,C,D,E,F,G,H,I,J,K";

static REFUSED: [(&str, &str, &str); 20] = [
    // no function
    ("", "A", "FunctionForm"),
    (" ", "A", "FunctionForm"),
    ("A +", "A", "FunctionForm"),
    ("+ A", "A", "FunctionForm"),
    ("A + * A", "A", "FunctionForm"),
    ("()", "A", "FunctionForm"),
    ("(A", "A", "FunctionForm"),
    ("A)", "A", "FunctionForm"),
    ("!", "A", "FunctionForm"),
    ("'A", "A", "FunctionForm"),
    ("A(B)", "A,B", "FunctionForm"),
    ("A'B", "A,B", "FunctionForm"),
    ("(A)(B)", "A,B", "FunctionForm"),
    ("A!B", "A,B", "FunctionForm"),
    // this before an unknown name
    ("X +", "A", "FunctionForm"),
    // an unknown name before too many inputs and before a name that is no input
    ("X", "A", "UnknownPin"),
    ("A X IQ", "A,,IQ", "UnknownPin"),
    ("A B C D E F G H I J K X", ELEVEN, "UnknownPin"),
    // too many inputs, also before a name that is no input
    ("A B C D E F G H I J K", ELEVEN, "FunctionWide"),
    (
        "A B C D E F G H I J K Q",
        "A,B,C,D,E,F,G,H,I,J,K,,Q",
        "FunctionWide",
    ),
];

#[test]
fn texts_that_are_refused(rt: HostRuntime) -> Result<(), Fail> {
    for (text, names, wanted) in REFUSED.iter() {
        means(&rt, rt.alloc(), text, names, wanted)?;
    }
    Ok(())
}

/// So many times a text, before another text and so many times a third one.
fn wrapped(
    alloc: Global,
    times: usize,
    before: &str,
    inner: &str,
    after: &str,
) -> Result<String, NoMemory> {
    let mut text = String::new(alloc);
    for _ in 0..times {
        text.push_str(before)?;
    }
    text.push_str(inner)?;
    for _ in 0..times {
        text.push_str(after)?;
    }
    Ok(text)
}

#[test]
fn long_and_deep_texts(rt: HostRuntime) -> Result<(), Fail> {
    let alloc = rt.alloc();
    let deep = wrapped(alloc, 511, "(", "A", ")")?;
    assert_eq!(rt; show_parse(alloc, deep.as_str(), "A")?.as_str(), "0");
    let negated = wrapped(alloc, 1023, "!", "0", "")?;
    assert_eq!(rt;
        show_parse(alloc, negated.as_str(), "A")?.len(),
        1023 * 4 + 4
    );
    let primed = wrapped(alloc, 1023, "", "1", "'")?;
    assert_eq!(rt;
        show_parse(alloc, primed.as_str(), "A")?.len(),
        1023 * 4 + 3
    );
    let longer = wrapped(alloc, 1023, " ", "A", "")?;
    assert_eq!(rt; show_parse(alloc, longer.as_str(), "A")?.as_str(), "0");
    let too_long = wrapped(alloc, 1024, " ", "A", "")?;
    assert_eq!(rt;
        show_parse(alloc, too_long.as_str(), "A")?.as_str(),
        "FunctionForm"
    );
    let ten = show_parse(alloc, "A B C D E F G H I J A B", "A,B,C,D,E,F,G,H,I,J,K")?;
    assert_eq!(rt; ten.len(), 11 * 4 + 12 * 2 - 1);
    Ok(())
}
