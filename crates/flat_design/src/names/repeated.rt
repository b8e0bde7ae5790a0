//! Which names of a list stand before in it, and which cannot be printed and read again.

ghost use Rattle.std.specs.Prelude.{◌≡◌, IfOk, List, Some, map, slice_get, take, ℕ};
ghost use Rattle.flat_model.specs.FlatFaults.{is_among};
ghost use Rattle.text_model.specs.Names.{is_good_name};
ghost use Rattle.flat_design.specs.Names.{IsTable};
ghost use Rattle.flat_design.specs.Repeats.{AreRepeats};

use crate::names::full_names::is_good_name;
use crate::names::named::{place, stands_first, table};
use indexmap::IndexMap;
use sdc_base::{List, NoMemory, Text};
use std::alloc::Global;

/// Of each name, whether an earlier one is the same.
pub(crate) fn repeated(alloc: Global, names: &[Text]) -> Result<List<bool>, NoMemory>
    ensures { IfOk result (AreRepeats names.now) }
{
    let places = table(alloc, names)?;
    let mut repeats = List::new(alloc);
    for (at, name) in names.iter().enumerate() {
        repeats.push(is_repeated(&places, name, at))?;
    }
    Ok(repeats)
}

/// Whether the name at a place is the same as an earlier one, by the table of all names.
fn is_repeated(places: &IndexMap<&str, usize>, name: &Text, at: usize) -> bool
    ensures { (names : List (List ℕ)) → IsTable places.now names → slice_get names at ≡ Some name.now
        → result ≡ is_among (take at names) name.now }
{
    !stands_first(place(places, name.as_str()), at)
}

/// Of each name, whether it can be printed and read again.
pub(crate) fn good_names(alloc: Global, names: &[Text]) -> Result<List<bool>, NoMemory>
    ensures { IfOk result (λ good. good ≡ map is_good_name names.now) }
{
    let mut good = List::new(alloc);
    for name in names {
        good.push(is_good_name(name.as_str().as_bytes()))?;
    }
    Ok(good)
}
