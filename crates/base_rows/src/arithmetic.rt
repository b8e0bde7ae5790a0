//! Sums, differences and products whose values come from outside: Python's decimal module computed them.
use sdc_base::{Fixed, NoMemory, NumberError, Text};
use std::alloc::Global;
use std::process::Abort;
use std::test::Fail;

/// Which call a table is about.
#[derive(Clone, Copy)]
pub enum Operator {
    Add,
    Sub,
    Mul,
    Div,
    Rem,
}

/// Two numbers and the text of what they give, or why they give nothing.
pub type Row = (&'static str, &'static str, &'static str);

static SUMS: [Row; 20] = [
    ("1", "2", "3"),
    ("-1", "1", "0"),
    ("1.5", "2", "3.5"),
    ("1", "2.0", "3.0"),
    ("-0.0", "0", "0.0"),
    ("-0.5", "0.5", "0.0"),
    ("0.000000001", "0.000000001", "0.000000002"),
    ("-0.000000001", "0.000000001", "0.0"),
    ("999999999999999", "1", "out of range"),
    ("999999999999999", "0", "999999999999999"),
    ("999999999999999", "-1", "999999999999998"),
    ("-999999999999999", "-1", "out of range"),
    (
        "-999999999999999",
        "0.999999999",
        "-999999999999998.000000001",
    ),
    (
        "-999999999999999",
        "-0.999999999",
        "-999999999999999.999999999",
    ),
    ("999999999999999.999999999", "0.000000001", "out of range"),
    (
        "999999999999999",
        "0.999999999",
        "999999999999999.999999999",
    ),
    ("999999999999999.5", "0.5", "out of range"),
    ("999999999999999", "999999999999999", "out of range"),
    ("-999999999999999", "-999999999999999", "out of range"),
    ("999999999999999", "-999999999999999", "0"),
];

static DIFFERENCES: [Row; 15] = [
    ("1", "2", "-1"),
    ("-1", "-1", "0"),
    ("1.5", "2", "-0.5"),
    ("0", "0", "0"),
    ("0.0", "0", "0.0"),
    ("0.1", "0.3", "-0.2"),
    ("-999999999999999", "1", "out of range"),
    ("-999999999999999", "0", "-999999999999999"),
    ("999999999999999", "-1", "out of range"),
    (
        "999999999999999",
        "-0.999999999",
        "999999999999999.999999999",
    ),
    ("999999999999999.999999999", "-0.000000001", "out of range"),
    ("-999999999999999.999999999", "0.000000001", "out of range"),
    (
        "-999999999999999.999999999",
        "-0.000000001",
        "-999999999999999.999999998",
    ),
    ("999999999999999", "999999999999999", "0"),
    ("-999999999999999", "999999999999999", "out of range"),
];

static PRODUCTS: [Row; 37] = [
    ("2", "3", "6"),
    ("-2", "3", "-6"),
    ("-2", "-3", "6"),
    ("10", "0.3", "3.0"),
    ("0", "-5", "0"),
    ("0.0", "-5", "0.0"),
    ("-5", "0.0", "0.0"),
    ("0.5", "0.000000001", "0.000000001"),
    ("-0.5", "0.000000001", "-0.000000001"),
    ("0.499999999", "0.000000001", "0.0"),
    ("-0.499999999", "0.000000001", "0.0"),
    ("1.5", "0.000000001", "0.000000002"),
    ("-1.5", "0.000000001", "-0.000000002"),
    ("0.5", "0.000000003", "0.000000002"),
    ("-0.5", "0.000000003", "-0.000000002"),
    ("0.000000001", "0.000000001", "0.0"),
    ("0.00003", "-0.00005", "-0.000000002"),
    (
        "123456789.123456789",
        "1000000.000001",
        "123456789123580.245789123",
    ),
    ("31622776", "31622776", "999999961946176"),
    ("31622777", "31622777", "out of range"),
    ("-31622777", "31622777", "out of range"),
    (
        "31622776.601683793",
        "31622776.601683793",
        "999999999999999.979762123",
    ),
    ("31622776.601683794", "31622776.601683794", "out of range"),
    ("-31622776.601683793", "31622776.601683794", "out of range"),
    ("999999999999999", "1", "999999999999999"),
    ("999999999999999", "-1", "-999999999999999"),
    ("999999999999999", "2", "out of range"),
    (
        "999999999999999.999999999",
        "1.000000000",
        "999999999999999.999999999",
    ),
    ("999999999999999.999999999", "1.000000001", "out of range"),
    (
        "999999999999999.999999999",
        "0.999999999",
        "999999998999999.999999999",
    ),
    (
        "999999999999999.999999999",
        "999999999999999.999999999",
        "out of range",
    ),
    (
        "-999999999999999.999999999",
        "999999999999999.999999999",
        "out of range",
    ),
    ("999999999999999", "999999999999999", "out of range"),
    ("500000000000000", "2", "out of range"),
    (
        "500000000000000.000000001",
        "1.999999999",
        "999999999500000.000000002",
    ),
    ("999999999999999.999999999", "0.5", "500000000000000.0"),
    ("-999999999999999.999999999", "0.5", "-500000000000000.0"),
];

/// The remainder, where both numbers are whole.
fn remainder(left: Fixed, right: Fixed) -> Result<Fixed, NumberError> {
    if !left.whole {
        return Err(NumberError::NumberForm);
    }
    if !right.whole {
        return Err(NumberError::NumberForm);
    }
    left.rem(right)
}

fn applied(operator: Operator, left: Fixed, right: Fixed) -> Result<Fixed, NumberError> {
    match operator {
        Operator::Add => left.add(right),
        Operator::Sub => left.sub(right),
        Operator::Mul => left.mul(right),
        Operator::Div => left.div(right),
        Operator::Rem => remainder(left, right),
    }
}

fn answer(operator: Operator, left: &str, right: &str) -> Result<Fixed, NumberError> {
    applied(operator, Fixed::read(left)?, Fixed::read(right)?)
}

/// The text of a number, or of why there is none.
pub fn shown(alloc: Global, answer: Result<Fixed, NumberError>) -> Result<Text, NoMemory> {
    match answer {
        Ok(number) => number.text(alloc),
        Err(NumberError::NumberForm) => Text::from_str(alloc, "no number"),
        Err(NumberError::NumberRange) => Text::from_str(alloc, "out of range"),
        Err(NumberError::DivideByZero) => Text::from_str(alloc, "divided by zero"),
    }
}

/// Sees that an operator gives this text.
pub fn gives(
    rt: &impl Abort,
    alloc: Global,
    operator: Operator,
    left: &str,
    right: &str,
    want: &str,
) -> Result<(), NoMemory> {
    let text = shown(alloc, answer(operator, left, right))?;
    assert!(rt; text.as_str() == want, "{left} and {right}");
    Ok(())
}

#[test]
fn sums_of_numbers(rt: HostRuntime) -> Result<(), Fail> {
    for (left, right, want) in SUMS.iter() {
        gives(&rt, rt.alloc(), Operator::Add, left, right, want)?;
    }
    Ok(())
}

#[test]
fn differences_of_numbers(rt: HostRuntime) -> Result<(), Fail> {
    for (left, right, want) in DIFFERENCES.iter() {
        gives(&rt, rt.alloc(), Operator::Sub, left, right, want)?;
    }
    Ok(())
}

#[test]
fn products_of_numbers(rt: HostRuntime) -> Result<(), Fail> {
    for (left, right, want) in PRODUCTS.iter() {
        gives(&rt, rt.alloc(), Operator::Mul, left, right, want)?;
    }
    Ok(())
}
