//! Sums, products, quotients and remainders of decimal numbers.
//!
//! Whole numbers are divided as in Tcl, towards minus infinity. What is not whole is rounded to nine
//! decimals, to nearest, ties away from zero. No call here takes memory.

ghost use Rattle.std.specs.Prelude.{◌≡◌, ◌*◌, ◌%◌, ◌^◌, ◌<◌, IsTrue, min, true, unsigned_abs};
ghost use Rattle.sdc_base.specs.Number.{nearest};
ghost use Rattle.sdc_base.specs.Arithmetic.{signs_differ, floored, number_in, sum_of, difference_of, product_of, quotient_of, remainder_of};

use crate::fixed::{Fixed, NumberError, SCALE};
use crate::rounding::{LIMIT, nearest, with_sign};

impl Fixed {
    /// The sum, which is whole where both numbers are.
    ///
    /// `NumberRange` where its magnitude is 10^15 or more.
    pub fn add(self, other: Fixed) -> Result<Fixed, NumberError>
        ensures { result ≡ sum_of self other }
    {
        let whole = self.whole && other.whole;
        number_in(whole, self.scaled + other.scaled)
    }

    /// The difference, which is whole where both numbers are.
    ///
    /// `NumberRange` where its magnitude is 10^15 or more.
    pub fn sub(self, other: Fixed) -> Result<Fixed, NumberError>
        ensures { result ≡ difference_of self other }
    {
        let whole = self.whole && other.whole;
        number_in(whole, self.scaled - other.scaled)
    }

    /// The product: whole and exact where both numbers are whole, else rounded to nine decimals.
    ///
    /// `NumberRange` where its rounded magnitude is 10^15 or more.
    pub fn mul(self, other: Fixed) -> Result<Fixed, NumberError>
        ensures { result ≡ product_of self other }
    {
        let magnitude = product(self.scaled.unsigned_abs(), other.scaled.unsigned_abs());
        let negative = signs_differ(self.scaled, other.scaled);
        let whole = self.whole && other.whole;
        number_in(whole, with_sign(negative, magnitude))
    }

    /// The quotient: of whole numbers whole and rounded towards minus infinity, else rounded to nine
    /// decimals.
    ///
    /// `DivideByZero` where the divisor is 0; else `NumberRange` where the rounded magnitude is 10^15 or more.
    pub fn div(self, other: Fixed) -> Result<Fixed, NumberError>
        ensures { result ≡ quotient_of self other }
    {
        let divisor = other.scaled.unsigned_abs();
        if divisor == 0 {
            return Err(NumberError::DivideByZero);
        }
        if self.whole && other.whole {
            return number_in(true, floored(self.scaled, other.scaled) * SCALE as i128);
        }
        let magnitude = nearest(self.scaled.unsigned_abs() * SCALE, divisor);
        let negative = signs_differ(self.scaled, other.scaled);
        number_in(false, with_sign(negative, magnitude))
    }

    /// What the quotient of two whole numbers leaves of the first. It has the sign of the divisor.
    ///
    /// `DivideByZero` where the divisor is 0.
    pub fn rem(self, other: Fixed) -> Result<Fixed, NumberError>
        requires dividend { IsTrue self.whole }
        requires divisor { IsTrue other.whole }
        ensures { result ≡ remainder_of self other }
    {
        if other.scaled == 0 {
            return Err(NumberError::DivideByZero);
        }
        let quotient = floored(self.scaled, other.scaled);
        Ok(Fixed {
            scaled: self.scaled - quotient * other.scaled,
            whole: true,
        })
    }
}

/// The number of so many units of 10^-9, where its magnitude is below 10^15.
fn number_in(whole: bool, scaled: i128) -> Result<Fixed, NumberError>
    requires { whole ≡ true → unsigned_abs scaled % 10 ^ 9 ≡ 0 }
    ensures { result ≡ number_in whole scaled }
{
    let magnitude = scaled.unsigned_abs();
    if magnitude < LIMIT {
        Ok(Fixed { scaled, whole })
    } else {
        Err(NumberError::NumberRange)
    }
}

/// Whether one of the two is negative, and the other is not.
fn signs_differ(left: i128, right: i128) -> bool
    ensures { result ≡ signs_differ left right }
{
    (left < 0) != (right < 0)
}

/// `left * right / 10^9`, to nearest, ties up, or the limit of numbers where that is less.
fn product(left: u128, right: u128) -> u128
    requires left { left < 10 ^ 24 }
    requires right { right < 10 ^ 24 }
    ensures { result ≡ min (nearest (left * right) (10 ^ 9)) (10 ^ 24) }
{
    let whole = (left / SCALE).saturating_mul(right);
    let decimals = nearest(left % SCALE * right, SCALE);
    whole.saturating_add(decimals).min(LIMIT)
}

/// `numerator / divisor`, rounded towards minus infinity.
fn floored(numerator: i128, divisor: i128) -> i128
    requires numerator { unsigned_abs numerator < 10 ^ 24 }
    requires divisor { 0 < unsigned_abs divisor }
    ensures { result ≡ floored numerator divisor }
{
    let (dividend, part) = (numerator.unsigned_abs(), divisor.unsigned_abs());
    if signs_differ(numerator, divisor) {
        with_sign(true, dividend.div_ceil(part))
    } else {
        with_sign(false, dividend / part)
    }
}
