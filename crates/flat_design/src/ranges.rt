//! The bits of ranges (IEEE 1364-2005, vectors).

ghost use Rattle.std.specs.Prelude.{◌≡◌, ◌<◌, slice_get, Some};
ghost use Rattle.netlist_model.specs.Ranges.{from_to, indices, span, width};

use source_types::Range;

/// The number of bits of a net or a port.
pub(crate) fn width(range: Option<Range>) -> u64
    ensures { result ≡ width range }
{
    match range {
        Some(range) => span(range.left, range.right),
        None => 1,
    }
}

/// The number of bits from one index to another, both counted.
fn span(left: u32, right: u32) -> u64
    ensures { result ≡ span left right }
{
    if left <= right {
        u64::from(right - left) + 1
    } else {
        u64::from(left - right) + 1
    }
}

/// The index of the bit at a place, counted from the leftmost on; a scalar's bit has none.
pub(crate) fn index_at(range: Option<Range>, place: u64) -> Option<u32>
    requires { place < width range }
    ensures { slice_get (indices range) place ≡ Some result }
{
    match range {
        Some(range) => Some(index_between(range.left, range.right, place)),
        None => None,
    }
}

/// The index at a place between two others.
fn index_between(left: u32, right: u32, place: u64) -> u32
    requires { place < span left right }
    ensures { slice_get (from_to left right) place ≡ Some result }
{
    if left <= right {
        left + place as u32
    } else {
        left - place as u32
    }
}
