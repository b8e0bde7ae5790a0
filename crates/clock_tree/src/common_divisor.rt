//! The greatest common divisor of two periods.
ghost use Rattle.std.specs.Int.{IsGcd};

/// The greatest common divisor, by Euclid's algorithm. That of 0 and `n` is `n`.
pub fn greatest_common_divisor(first: u64, second: u64) -> u64
    ensures { IsGcd first second result }
{
    let mut divisor = first;
    let mut rest = second;
    while rest != 0 {
        (divisor, rest) = (rest, divisor % rest);
    }
    divisor
}
