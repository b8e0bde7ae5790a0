//! Decimal numbers of nine places, as the constraint files write them, and their times.
//!
//! The form of a number's text is Tcl's, with this project's own limits. No call here takes memory.

ghost use Rattle.std.specs.Prelude.{◌≡◌};
ghost use Rattle.sdc_base.specs.Number.{read_number};
ghost use Rattle.sdc_base.specs.Time.{IsUnit, time_of};

use crate::duplicate::Duplicate;
use crate::memory::NoMemory;
use crate::number_text::{
    digits_value, exponent_in, is_count, split_decimals, split_digits, split_sign,
};
use crate::rounding::{nearest, scale, with_sign};
use std::alloc::Global;
use std::marker::Model;
use thiserror::Error;

/// What `scaled` is a multiple of where a number is whole.
pub(crate) const SCALE: u128 = 1_000_000_000;

/// The greatest magnitude of a time, in femtoseconds.
const LONGEST: u128 = 10_000_000_000_000_000;

/// Why a number could not be read or computed.
#[derive(Debug, Clone, Copy, PartialEq, Eq, Error)]
pub enum NumberError {
    /// The text has not the form of a number.
    #[error("not a number")]
    NumberForm,
    /// The number or the time is too great.
    #[error("number out of range")]
    NumberRange,
    /// The divisor is 0.
    #[error("division by zero")]
    DivideByZero,
}

/// The number `scaled / 10^9`, of magnitude below 10^15. `whole` says that it was written or computed as
/// a whole number, and then it has no decimals.
#[derive(Debug, Clone, Copy, PartialEq, Eq)]
pub struct Fixed {
    /// The number in units of 10^-9.
    pub scaled: i128,
    /// Whether it is a whole number by its form, as `5` is and `5.0` is not.
    pub whole: bool,
}

impl Model for Fixed {
    ghost use Rattle.sdc_base.specs.Number.{Number, IsNumber};

    ghost Value = { Number };

    ghost view = { λ a. record { scaled = a.scaled; whole = a.whole } };

    ghost invariant = { λ a. IsNumber (record { scaled = a.scaled; whole = a.whole }) };

    ghost inverse = { λ n. record { scaled = n.scaled; whole = n.whole } };
}

impl Duplicate for NumberError {
    fn copy(&self, _alloc: Global) -> Result<NumberError, NoMemory> {
        Ok(*self)
    }
}

impl Duplicate for Fixed {
    fn copy(&self, _alloc: Global) -> Result<Fixed, NoMemory> {
        Ok(*self)
    }
}

impl Fixed {
    /// The number that a text means: an optional sign, digits with at most one point, an optional exponent.
    /// Decimals past the ninth are rounded to nearest, ties away from zero.
    ///
    /// `NumberForm` where the text has not this form, has more than 30 digits before the exponent, or an
    /// exponent above 30; else `NumberRange` where the rounded magnitude is 10^15 or more.
    pub fn read(text: &str) -> Result<Fixed, NumberError>
        ensures { result ≡ read_number text.now }
    {
        let (negative, unsigned) = split_sign(text.as_bytes());
        let (before, rest) = split_digits(unsigned);
        let (fraction, last) = split_decimals(rest);
        let Some(power) = exponent_in(last) else {
            return Err(NumberError::NumberForm);
        };
        if !is_count(before, fraction) {
            return Err(NumberError::NumberForm);
        }
        let magnitude = scale(digits_value(before, fraction), fraction.len(), power)?;
        Ok(Fixed {
            scaled: with_sign(negative, magnitude),
            whole: rest.is_empty(),
        })
    }

    /// This number of units in femtoseconds, to nearest, ties away from zero. `unit` is in femtoseconds.
    ///
    /// `NumberRange` where the magnitude exceeds 10^16.
    pub fn to_time(self, unit: i64) -> Result<i64, NumberError>
        requires { IsUnit unit }
        ensures { result ≡ time_of self unit }
    {
        let product = self.scaled.unsigned_abs() * u128::from(unit.unsigned_abs());
        let magnitude = nearest(product, SCALE);
        if magnitude > LONGEST {
            return Err(NumberError::NumberRange);
        }
        Ok(with_sign(self.scaled < 0, magnitude) as i64)
    }
}
