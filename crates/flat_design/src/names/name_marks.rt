//! What is wrong with the names of a list: which stand before in it, and which cannot be printed and read again.

ghost use Rattle.std.specs.Prelude.{◌≤◌, ◌+◌, IfOk, false, length, true};
ghost use Rattle.flat_design.specs.NamedFaults.{AreMarks, HasMark, Tells};

use crate::items::item_at;
use crate::names::repeated::{good_names, repeated};
use sdc_base::{List, NoMemory, Text};
use std::alloc::Global;

/// Of each name of a list, whether an earlier one is the same, and whether it can be printed and read again.
#[derive(Drop)]
pub(crate) struct NameMarks {
    pub(crate) repeats: List<bool>,
    pub(crate) good: List<bool>,
}

/// The marks of names.
pub(crate) fn name_marks(alloc: Global, names: &[Text]) -> Result<NameMarks, NoMemory>
    ensures { IfOk result (AreMarks names.now) }
{
    let repeats = repeated(alloc, names)?;
    let good = good_names(alloc, names)?;
    Ok(NameMarks { repeats, good })
}

/// Whether one of so many marks from a place on is set.
pub(crate) fn has_set(marks: &[bool], first: usize, count: usize) -> bool
    requires { first + count ≤ length marks.now }
    ensures { Tells result (HasMark marks.now first count true) }
{
    for at in 0..count {
        if *item_at(marks, first + at) {
            return true;
        }
    }
    false
}

/// Whether one of so many marks from a place on is not set.
pub(crate) fn has_unset(marks: &[bool], first: usize, count: usize) -> bool
    requires { first + count ≤ length marks.now }
    ensures { Tells result (HasMark marks.now first count false) }
{
    for at in 0..count {
        if !*item_at(marks, first + at) {
            return true;
        }
    }
    false
}
