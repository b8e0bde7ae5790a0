//! The clocks of a mode file so far, each found by its name.

ghost use Rattle.std.specs.Prelude.{◌≡◌, ◌++◌, ◌∷◌, ◌≤◌, ◌^◌, [], false, length, IfOk, OnErr};
ghost use Rattle.mode_model.specs.ClockFile.{is_taken};
ghost use Rattle.mode_model.specs.ClockGroups.{place_from};

use sdc_base::{List, NoMemory};
use std::alloc::Global;
use std::collections::BTreeMap;
use std::marker::Model;
use timing_types::Clock;

/// The clocks of a mode file so far, in order. Contracts see the list of the clocks.
#[derive(Drop)]
pub struct NamedClocks {
    clocks: List<Clock>,
    places: BTreeMap<String, u32>,
}

impl Model for NamedClocks {
    ghost use Rattle.std.specs.Prelude.{List};
    ghost use Rattle.timing_types.specs.declared.clocks.Clock.{Clock};
    ghost use Rattle.sdc_cli.specs.Places.{HasPlaces};

    ghost Value = { List Clock };

    ghost view = { λ named. named.clocks };

    ghost invariant = { λ named. HasPlaces named.places named.clocks };
}

impl NamedClocks {
    /// No clocks.
    pub fn new(alloc: Global) -> NamedClocks
        ensures { result ≡ [] }
    {
        NamedClocks {
            clocks: List::new(alloc),
            places: BTreeMap::new(alloc),
        }
    }

    /// The place of the clock of a name, counted from 0.
    pub fn place(&self, name: &str) -> Option<u32>
        ensures { result ≡ place_from 0 self.now name.now }
    {
        self.places.get(name).copied()
    }

    /// Whether a clock has the name.
    pub fn is_taken(&self, name: &str) -> bool
        ensures { result ≡ is_taken name.now self.now }
    {
        self.place(name).is_some()
    }

    /// The number of the clocks. One of more than 32 bits counts as want of memory, and no other does.
    pub fn count(&self) -> Result<u32, NoMemory>
        ensures count { IfOk result (λ count. count ≡ length self.now) }
        ensures limit { OnErr result (2 ^ 32 ≤ length self.now) }
    {
        u32::try_from(self.clocks.len()).map_err(|_| NoMemory)
    }

    /// These clocks and one more, whose name is new. The one error is want of memory.
    pub fn with(self, alloc: Global, clock: Clock) -> Result<NamedClocks, NoMemory>
        requires { is_taken clock.name self ≡ false }
        ensures { IfOk result (λ more. more ≡ self ++ clock ∷ []) }
    {
        let place = self.count()?;
        let NamedClocks {
            mut clocks,
            mut places,
        } = self;
        let name = String::from_str(alloc, clock.name.as_str())?;
        places.insert(name, place)?;
        clocks.push(clock)?;
        Ok(NamedClocks { clocks, places })
    }

    /// The clocks in order.
    pub fn as_slice(&self) -> &[Clock]
        ensures { result.now ≡ self.now }
    {
        self.clocks.as_slice()
    }

    /// The clocks as a list.
    pub fn into_list(self) -> List<Clock>
        ensures { result ≡ self }
    {
        let NamedClocks { clocks, .. } = self;
        clocks
    }
}
