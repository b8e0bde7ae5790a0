//! The variables of a script, each found by its name.

ghost use Rattle.std.specs.Prelude.{◌≡◌, [], OnOk};
ghost use Rattle.std.specs.Option.{option_copied};
ghost use Rattle.tcl_model.specs.Variables.{variable_in, with_variable};

use indexmap::IndexMap;
use sdc_base::NoMemory;
use std::alloc::Global;
use std::marker::Model;
use timing_types::Value;

/// The variables of a script. Contracts see the list of them, in the order in which they were first set.
#[derive(Drop)]
pub struct Variables {
    values: IndexMap<String, Value>,
}

impl Model for Variables {
    ghost use Rattle.std.specs.Prelude.{List};
    ghost use Rattle.tcl_model.specs.Variables.{Variable};
    ghost use Rattle.tcl_eval.specs.VariableMaps.{variables_of};

    ghost Value = { List Variable };

    ghost view = { λ it. variables_of it.values.entries };
}

impl Variables {
    /// No variable.
    pub fn new(alloc: Global) -> Variables
        ensures { result ≡ [] }
    {
        Variables {
            values: IndexMap::new(alloc),
        }
    }

    /// What a variable has, if it is set.
    #[tactic(auto, using(crate::proofs::VariableFacts::found))]
    pub fn get(&self, name: &str) -> Option<&Value>
        ensures { option_copied result ≡ variable_in self.now name.now }
    {
        self.values.get(name)
    }

    /// Sets a variable. The one error is want of memory.
    #[tactic(auto, using(crate::proofs::VariableFacts::set))]
    pub fn set(&mut self, alloc: Global, name: &str, value: Value) -> Result<(), NoMemory>
        ensures { OnOk result (self.new ≡ with_variable self.old name.now value) }
    {
        let name = String::from_str(alloc, name)?;
        self.values.insert(name, value)?;
        Ok(())
    }
}
