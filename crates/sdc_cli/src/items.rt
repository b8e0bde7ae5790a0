//! Lists that stand in a mode file (Tcl).

ghost use Rattle.std.specs.Prelude.{◌≡◌, IfOk};
ghost use Rattle.tcl_model.specs.ListReading.{items_of};

use sdc_base::{List, NoMemory, Stop, Text};
use std::alloc::Global;
use tcl_words::list_items;

/// The items of a text as a list (Tcl); `None` where it is no list. The one error is want of memory.
#[tactic(auto, using(crate::proofs::ItemSteps::items_are))]
pub fn items_of(alloc: Global, text: &str) -> Result<Option<List<Text>>, NoMemory>
    ensures { IfOk result (λ items. items ≡ items_of text.now) }
{
    match list_items(alloc, text) {
        Ok(items) => Ok(Some(items)),
        Err(Stop::Refused(_)) => Ok(None),
        Err(Stop::NoMemory) => Err(NoMemory),
    }
}
