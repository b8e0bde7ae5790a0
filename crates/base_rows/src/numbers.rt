//! Numbers and times whose values come from outside: Python's decimal module computed them.
use sdc_base::{Fixed, NoMemory, NumberError, Text, TimeBuffer, time_text};
use std::alloc::Global;
use std::process::Abort;
use std::test::Fail;

static READ: [(&str, i128, bool); 40] = [
    ("0", 0, true),
    ("5", 5_000_000_000, true),
    ("-5", -5_000_000_000, true),
    ("+5", 5_000_000_000, true),
    ("007", 7_000_000_000, true),
    ("5.", 5_000_000_000, false),
    ("-.5", -500_000_000, false),
    (".5", 500_000_000, false),
    ("+.5", 500_000_000, false),
    ("1e5", 100_000_000_000_000, false),
    ("1E5", 100_000_000_000_000, false),
    ("1e+5", 100_000_000_000_000, false),
    ("1e-5", 10000, false),
    ("1.", 1_000_000_000, false),
    ("-0.0", 0, false),
    ("1.50", 1_500_000_000, false),
    ("1e-30", 0, false),
    ("0e30", 0, false),
    ("1e0000000000000000001", 10_000_000_000, false),
    ("1e-9", 1, false),
    ("5e-10", 1, false),
    ("4e-10", 0, false),
    ("-5e-10", -1, false),
    ("-4e-10", 0, false),
    ("0.0000000005", 1, false),
    ("0.00000000049999999999999999999", 0, false),
    ("-0.0000000005", -1, false),
    ("-0.00000000049999999999999999999", 0, false),
    ("0.0000000015", 2, false),
    ("2.0000000025", 2_000_000_003, false),
    ("999999999999999", 999_999_999_999_999_000_000_000, true),
    ("-999999999999999", -999_999_999_999_999_000_000_000, true),
    (
        "999999999999999.9999999994",
        999_999_999_999_999_999_999_999,
        false,
    ),
    (
        "-999999999999999.9999999994",
        -999_999_999_999_999_999_999_999,
        false,
    ),
    ("000000000000000000000000000000", 0, true),
    ("000000000000000000000000000001", 1_000_000_000, true),
    ("0.00000000000000000000000000001", 0, false),
    ("0.0000000000000000000000000001e28", 1_000_000_000, false),
    (
        "123456789012345.678901234567890e-2",
        1_234_567_890_123_456_789_012,
        false,
    ),
    ("100000000000000000000000000000e-30", 100_000_000, false),
];

// No point, sign or blank too many, 31 digits, an exponent above 30, digits that are not ASCII's.
static NO_NUMBER: [&str; 34] = [
    "",
    ".",
    "-.",
    "-",
    "+",
    "--1",
    "+-1",
    "e5",
    "1e",
    "1e+",
    "1e-",
    "1e31",
    "1e-31",
    "0e31",
    "1E0031",
    "1e5.0",
    "1e5e5",
    "1..2",
    "1.2.3",
    ".e1",
    "1 ",
    " 1",
    "1_000",
    "１",
    "1\u{0}",
    "0x1",
    "1e 5",
    "0000000000000000000000000000000",
    "1.000000000000000000000000000000",
    "0000000000000000000000000000001e31",
    "1e99999999999999999999999999999999",
    "99999999999999999999999999999999.e1",
    "inf",
    "1f",
];

static TOO_GREAT: [&str; 10] = [
    "1000000000000000",
    "-1000000000000000",
    "999999999999999.9999999995",
    "-999999999999999.9999999995",
    "1e15",
    "1e30",
    "9e29",
    "999999999999999999999999999999",
    "999999999999999999999999999999e30",
    ".1e16",
];

// A number, a unit in picoseconds, and the time in femtoseconds, or None where it is too long.
static TIMES: [(&str, u32, Option<i64>); 29] = [
    ("2.5", 1000, Some(2_500_000)),
    ("-2.5", 1, Some(-2500)),
    ("0.0000015", 1000, Some(2)),
    ("0.00000149", 1000, Some(1)),
    ("-0.0000015", 1000, Some(-2)),
    ("-0.00000149", 1000, Some(-1)),
    ("0.0005", 1, Some(1)),
    ("-0.0005", 1, Some(-1)),
    ("0.000499999", 1, Some(0)),
    ("0.00005", 10, Some(1)),
    ("0.0000499", 10, Some(0)),
    ("-0.00005", 10, Some(-1)),
    ("0.000005", 100, Some(1)),
    ("0.000004999", 100, Some(0)),
    ("-0.000005", 100, Some(-1)),
    ("10000000000", 1000, Some(10_000_000_000_000_000)),
    ("-10000000000", 1000, Some(-10_000_000_000_000_000)),
    ("10000000000.0000004", 1000, Some(10_000_000_000_000_000)),
    ("10000000000.000001", 1000, None),
    ("-10000000000.0000005", 1000, None),
    ("10000000000000", 1, Some(10_000_000_000_000_000)),
    ("10000000000000.0005", 1, None),
    ("1000000000000", 10, Some(10_000_000_000_000_000)),
    ("1000000000000.0001", 10, None),
    ("100000000000", 100, Some(10_000_000_000_000_000)),
    ("100000000001", 100, None),
    ("999999999999999", 1, None),
    ("0", 1, Some(0)),
    ("4", 1000, Some(4_000_000)),
];

// A time in femtoseconds, a unit in picoseconds, and the text.
static TEXTS: [(i64, u32, &str); 24] = [
    (2_500_000, 1000, "2.5"),
    (-7_500_000, 1000, "-7.5"),
    (0, 1000, "0"),
    (0, 1, "0"),
    (1, 1000, "0.000001"),
    (-1, 1000, "-0.000001"),
    (1, 1, "0.001"),
    (1, 10, "0.0001"),
    (1, 100, "0.00001"),
    (10, 1000, "0.00001"),
    (1_000_000, 1000, "1"),
    (1_000_001, 1000, "1.000001"),
    (100_000_000, 1000, "100"),
    (10_000_000_000_000_000, 1, "10000000000000"),
    (-10_000_000_000_000_000, 1000, "-10000000000"),
    (i64::MAX, 1, "9223372036854775.807"),
    (i64::MIN, 1, "-9223372036854775.808"),
    (i64::MIN, 1000, "-9223372036854.775808"),
    (i64::MAX, 1000, "9223372036854.775807"),
    (120, 1, "0.12"),
    (-999, 1, "-0.999"),
    (123_456, 10, "12.3456"),
    (123_450, 10, "12.345"),
    (500_000, 100, "5"),
];

fn time_in(number: Fixed, picoseconds: u32) -> Result<i64, NumberError> {
    match picoseconds {
        10 => number.to_time(10_000),
        100 => number.to_time(100_000),
        1000 => number.to_time(1_000_000),
        _ => number.to_time(1_000),
    }
}

fn text_in(alloc: Global, fs: i64, picoseconds: u32) -> Result<Text, NoMemory> {
    match picoseconds {
        10 => time_text(alloc, fs, 10_000),
        100 => time_text(alloc, fs, 100_000),
        1000 => time_text(alloc, fs, 1_000_000),
        _ => time_text(alloc, fs, 1_000),
    }
}

fn bytes_in(buffer: &mut TimeBuffer, fs: i64, picoseconds: u32) -> &[u8] {
    match picoseconds {
        10 => buffer.format(fs, 10_000),
        100 => buffer.format(fs, 100_000),
        1000 => buffer.format(fs, 1_000_000),
        _ => buffer.format(fs, 1_000),
    }
}

/// Sees that a text is this number.
fn is_number(rt: &impl Abort, text: &str, scaled: i128, whole: bool) {
    let number = Fixed::read(text);
    assert!(rt; number.is_ok(), "{text} is a number");
    if let Ok(number) = number {
        assert!(rt; number.scaled == scaled, "at {text}");
        assert!(rt; number.whole == whole, "at {text}");
    }
}

/// Sees that a text is refused so.
fn is_refused(rt: &impl Abort, text: &str, error: NumberError) {
    assert!(rt; Fixed::read(text) == Err(error), "at {text}");
}

/// Sees that a number of units has this time, or none.
fn has_time(rt: &impl Abort, text: &str, unit: u32, want: Option<i64>) {
    let time = match Fixed::read(text) {
        Ok(number) => time_in(number, unit).ok(),
        Err(_) => None,
    };
    assert!(rt; time == want, "{text} units of {unit} ps");
}

/// Sees that a time has this text.
fn has_text(
    rt: &impl Abort,
    alloc: Global,
    fs: i64,
    unit: u32,
    want: &str,
) -> Result<(), NoMemory> {
    let text = text_in(alloc, fs, unit)?;
    assert!(rt; text.as_str() == want, "{fs} fs in units of {unit} ps");
    Ok(())
}

/// Sees that a time has these bytes, in a buffer that was used before.
fn has_bytes(rt: &impl Abort, buffer: &mut TimeBuffer, fs: i64, unit: u32, want: &str) {
    let bytes = bytes_in(buffer, fs, unit);
    assert!(rt; bytes == want.as_bytes(), "{fs} fs in units of {unit} ps");
}

#[test]
fn texts_of_numbers(rt: HostRuntime) {
    for (text, scaled, whole) in READ.iter() {
        is_number(&rt, text, *scaled, *whole);
    }
}

#[test]
fn texts_of_no_number(rt: HostRuntime) {
    for text in NO_NUMBER.iter() {
        is_refused(&rt, text, NumberError::NumberForm);
    }
    for text in TOO_GREAT.iter() {
        is_refused(&rt, text, NumberError::NumberRange);
    }
}

#[test]
fn times_of_numbers(rt: HostRuntime) {
    for (text, unit, want) in TIMES.iter() {
        has_time(&rt, text, *unit, *want);
    }
}

#[test]
fn texts_of_times(rt: HostRuntime) -> Result<(), Fail> {
    for (fs, unit, want) in TEXTS.iter() {
        has_text(&rt, rt.alloc(), *fs, *unit, want)?;
    }
    Ok(())
}

#[test]
fn bytes_of_times_in_one_buffer(rt: HostRuntime) {
    let mut buffer = TimeBuffer::new();
    for (fs, unit, want) in TEXTS.iter() {
        has_bytes(&rt, &mut buffer, *fs, *unit, want);
    }
}
