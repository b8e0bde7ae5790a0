//! Counts of calls and of faults, and the calls that are to fail.

ghost use Rattle.std.specs.Prelude.{◌≡◌};
ghost use Rattle.sdc_base.specs.Counting.{is_listed, next_count};

use crate::lists::List;

/// The count after one more; it stands at its last value, 2^64 - 1. This project's own rule.
pub fn next_count(count: u64) -> u64
    ensures { result ≡ next_count count }
{
    count.saturating_add(1)
}

/// Whether a number stands in a list.
pub(crate) fn contains(numbers: &List<u64>, number: u64) -> bool
    ensures { result ≡ is_listed numbers.now number }
{
    numbers.as_slice().contains(&number)
}
