//! Rounding to the nearest whole number, ties away from zero, on magnitudes.

ghost use Rattle.std.specs.Prelude.{◌≡◌, ◌*◌, ◌+◌, ◌^◌, ◌<◌, ◌≤◌, min};
ghost use Rattle.sdc_base.specs.Number.{nearest, with_sign};
ghost use Rattle.sdc_base.specs.NumberText.{magnitude_of};

use crate::fixed::NumberError;
use crate::number_text::Power;

/// One above the greatest magnitude of a number, in units of 10^-9.
pub(crate) const LIMIT: u128 = 1_000_000_000_000_000_000_000_000;

/// The number of decimals that a number keeps.
pub(crate) const PLACES: u32 = 9;

/// `numerator / divisor`, to nearest, ties up.
pub(crate) fn nearest(numerator: u128, divisor: u128) -> u128
    requires positive { 0 < divisor }
    requires numerator { numerator < 10 ^ 37 }
    requires divisor { divisor < 10 ^ 37 }
    ensures { result ≡ nearest numerator divisor }
{
    (2 * numerator + divisor) / (2 * divisor)
}

/// `value * 10^count`, or the limit of numbers where that is less.
fn grown(value: u128, count: u32) -> u128
    ensures { result ≡ min (value * 10 ^ count) (10 ^ 24) }
{
    let mut grown = value.min(LIMIT);
    for _step in 0..count {
        grown = (grown * 10).min(LIMIT);
    }
    grown
}

/// `value / 10^count`, to nearest, ties up.
fn shrunk(value: u128, count: u32) -> u128
    requires { value < 10 ^ 30 }
    ensures { result ≡ nearest value (10 ^ count) }
{
    if count > 31 {
        return 0;
    }
    nearest(value, 10_u128.pow(count))
}

/// The magnitude, in units of 10^-9, of a number with these digits, the last `decimals` of them after the
/// point, and an exponent that does `power`.
pub(crate) fn scale(digits: u128, decimals: usize, power: Power) -> Result<u128, NumberError>
    requires digits { digits < 10 ^ 30 }
    requires decimals { decimals ≤ 30 }
    requires raised { power.raised ≤ 30 }
    requires lowered { power.lowered ≤ 30 }
    ensures { result ≡ magnitude_of digits decimals power }
{
    let raised = PLACES + power.raised;
    let lowered = decimals as u32 + power.lowered;
    let magnitude = if lowered <= raised {
        grown(digits, raised - lowered)
    } else {
        shrunk(digits, lowered - raised)
    };
    if magnitude < LIMIT {
        Ok(magnitude)
    } else {
        Err(NumberError::NumberRange)
    }
}

/// The number of this sign and magnitude.
pub(crate) fn with_sign(negative: bool, magnitude: u128) -> i128
    requires { magnitude < 2 ^ 127 }
    ensures { result ≡ with_sign negative magnitude }
{
    if negative {
        -(magnitude as i128)
    } else {
        magnitude as i128
    }
}
