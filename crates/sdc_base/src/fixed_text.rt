//! How a number is written: in decimal, with at least one decimal where it is not whole.

ghost use Rattle.std.specs.Prelude.{◌≡◌, ◌++◌, ◌<◌, ◌^◌, IfOk, OnOk};
ghost use Rattle.sdc_base.specs.Time.{minus_text, places};
ghost use Rattle.sdc_base.specs.WrittenNumber.{decimals_of, fraction_text, number_text_of};

use crate::fixed::{Fixed, SCALE};
use crate::memory::NoMemory;
use crate::rounding::PLACES;
use crate::texts::Text;
use itoa::Buffer;
use std::alloc::Global;

/// What the decimals are parts of.
const UNIT: u64 = SCALE as u64;

impl Fixed {
    /// The number as a text: a whole number in decimal, another with its decimals, of which there is at
    /// least one, and no zero at their end but the first. The one error is want of memory.
    pub fn text(self, alloc: Global) -> Result<Text, NoMemory>
        ensures { IfOk result (λ text. text ≡ number_text_of self) }
    {
        let magnitude = self.scaled.unsigned_abs();
        let mut text = Text::new(alloc);
        let mut buffer = Buffer::new();
        push_sign(&mut text, self.scaled < 0)?;
        text.push_str(buffer.format((magnitude / SCALE) as u64))?;
        push_fraction(&mut text, self.whole, (magnitude % SCALE) as u64)?;
        Ok(text)
    }
}

/// Adds a minus where the number is negative.
fn push_sign(text: &mut Text, negative: bool) -> Result<(), NoMemory>
    ensures { OnOk result (text.new ≡ text.old ++ minus_text negative) }
{
    if negative {
        text.push_str("-")?;
    }
    Ok(())
}

/// Adds a point and the decimals of `rest / 10^9`, where the number is not whole.
fn push_fraction(text: &mut Text, whole: bool, rest: u64) -> Result<(), NoMemory>
    requires { rest < 10 ^ 9 }
    ensures { OnOk result (text.new ≡ text.old ++ fraction_text whole rest) }
{
    if whole {
        return Ok(());
    }
    text.push_str(".")?;
    push_decimals(text, rest)?;
    Ok(())
}

/// Adds the decimals of `rest / 10^9`: at least one, and no zero at their end but the first.
fn push_decimals(text: &mut Text, rest: u64) -> Result<(), NoMemory>
    requires { rest < 10 ^ 9 }
    ensures { OnOk result (text.new ≡ text.old ++ decimals_of rest) }
{
    if rest == 0 {
        text.push_str("0")?;
        return Ok(());
    }
    push_places(text, rest)?;
    Ok(())
}

/// Adds the digits of `rest / 10^9` by long division, which ends where nothing is left.
fn push_places(text: &mut Text, rest: u64) -> Result<(), NoMemory>
    requires { rest < 10 ^ 9 }
    ensures { OnOk result (text.new ≡ text.old ++ places 9 rest (10 ^ 9)) }
{
    let mut buffer = Buffer::new();
    let mut left = rest;
    for _place in 0..PLACES {
        if left == 0 {
            return Ok(());
        }
        text.push_str(buffer.format(left * 10 / UNIT))?;
        left = left * 10 % UNIT;
    }
    Ok(())
}
