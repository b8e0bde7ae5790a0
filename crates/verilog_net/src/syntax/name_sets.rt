//! Sets of names.

ghost use Rattle.std.specs.Prelude.{◌≡◌, ◌∷◌, [], List, ℕ, OnOk};
ghost use Rattle.text_model.specs.Words.{is_among};
ghost use Rattle.verilog_net.specs.Contexts.{HasNames};

use indexmap::IndexSet;
use sdc_base::NoMemory;
use std::alloc::Global;

/// Names, each found by its text.
pub type NameSet = IndexSet<String>;

/// No names.
pub fn no_names(alloc: Global) -> NameSet
    ensures { HasNames result [] }
{
    IndexSet::new(alloc)
}

/// Whether a name is in a set.
pub fn has_name(names: &NameSet, name: &str) -> bool
    ensures { (listed : List (List ℕ)) → HasNames names.now listed → result ≡ is_among listed name.now }
{
    names.contains(name)
}

/// Adds a name to a set. The one error is want of memory.
pub fn add_name(alloc: Global, names: &mut NameSet, name: &str) -> Result<(), NoMemory>
    ensures { OnOk result ((listed : List (List ℕ)) → HasNames names.old listed → HasNames names.new (name.now ∷ listed)) }
{
    let key = String::from_str(alloc, name)?;
    names.insert(key)?;
    Ok(())
}
