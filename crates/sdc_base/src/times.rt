//! How a time is written: as its number of units, with no more decimals than it needs.

ghost use Rattle.std.specs.Prelude.{◌≡◌, ◌+◌, ◌++◌, ◌∷◌, [], ◌<◌, ◌≤◌, ◌^◌, length, take, decimal, IfOk};
ghost use Rattle.sdc_base.specs.Time.{IsUnit, minus_text, places, decimals_text, time_text_of};

use crate::memory::NoMemory;
use crate::texts::Text;
use itoa::write_digits;
use std::alloc::Global;
use std::str;

/// The most decimals that a whole number of femtoseconds has in any unit.
const MOST_PLACES: usize = 6;

/// Where the whole part of a number ends, after room for a sign and 20 digits.
const WHOLE_END: usize = 21;

/// The room for a whole part, a point and the decimals.
const ROOM: usize = 28;

/// A time in femtoseconds as the text of its number of units, `unit` being a unit in femtoseconds:
/// `2.5`, `-7.5`, `0`, `0.000001`. The one error is want of memory.
pub fn time_text(alloc: Global, fs: i64, unit: i64) -> Result<Text, NoMemory>
    requires { IsUnit unit }
    ensures { IfOk result (λ text. text ≡ time_text_of fs unit) }
{
    let mut buffer = TimeBuffer::new();
    match str::from_utf8(buffer.format(fs, unit)) {
        Ok(text) => Text::from_str(alloc, text),
        Err(_) => unreachable!(),
    }
}

/// Room for the text of one time, so that writing a time takes no memory.
#[derive(Clone, Copy)]
pub struct TimeBuffer {
    bytes: [u8; ROOM],
}

impl TimeBuffer {
    /// A buffer for the text of any time in any unit.
    pub fn new() -> TimeBuffer {
        TimeBuffer { bytes: [0; ROOM] }
    }

    /// The bytes of a time's text, as `time_text` gives it, in the buffer.
    #[inline]
    pub fn format(&mut self, fs: i64, unit: i64) -> &[u8]
        requires { IsUnit unit }
        ensures { result.now ≡ time_text_of fs unit }
    {
        let magnitude = fs.unsigned_abs();
        let unit = unit.unsigned_abs();
        let start = write_whole(&mut self.bytes, fs < 0, magnitude / unit);
        let end = write_decimals(&mut self.bytes, magnitude % unit, unit);
        &self.bytes[start..end]
    }
}

/// Writes a sign where it is negative, and a whole number, in front of the place of the point. Returns the start.
#[inline]
fn write_whole(bytes: &mut [u8; ROOM], negative: bool, count: u64) -> usize
    ensures within { result ≤ 21 }
    ensures text { take 21 bytes.new ≡ take result bytes.new ++ (minus_text negative ++ decimal count) }
{
    let start = write_digits(count, bytes, WHOLE_END);
    if negative {
        bytes[start - 1] = b'-';
        return start - 1;
    }
    start
}

/// Writes a point and the decimals of `rest / unit`, where there are any. Returns the end.
#[inline]
fn write_decimals(bytes: &mut [u8; ROOM], rest: u64, unit: u64) -> usize
    requires less { rest < unit }
    requires short { unit ≤ 10 ^ 6 }
    ensures within { (21 ≤ result) × (result ≤ 28) }
    ensures text { take result bytes.new ≡ take 21 bytes.old ++ decimals_text rest unit }
{
    if rest == 0 {
        return WHOLE_END;
    }
    bytes[WHOLE_END] = b'.';
    write_places(bytes, rest, unit)
}

/// Writes the digits of `rest / unit` after the point, by long division. Returns the end.
#[inline]
fn write_places(bytes: &mut [u8; ROOM], rest: u64, unit: u64) -> usize
    requires less { rest < unit }
    requires short { unit ≤ 10 ^ 6 }
    ensures within { (21 ≤ result) × (result ≤ 28) }
    ensures text { take result bytes.new ≡ take 22 bytes.old ++ places 6 rest unit }
{
    let mut left = rest;
    for place in 0..MOST_PLACES {
        if left == 0 {
            return WHOLE_END + 1 + place;
        }
        bytes[WHOLE_END + 1 + place] = b'0' + (left * 10 / unit) as u8;
        left = left * 10 % unit;
    }
    WHOLE_END + 1 + MOST_PLACES
}
