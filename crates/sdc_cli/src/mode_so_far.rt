//! What the commands of a mode file made so far.

ghost use Rattle.std.specs.Prelude.{◌≡◌, ◌++◌, ◌∷◌, [], false, length, IfOk};
ghost use Rattle.std.specs.List.{list_all};
ghost use Rattle.text_model.specs.Bytes.{is_name_byte};
ghost use Rattle.mode_model.specs.ClockFile.{virtual_clock, clock_mode, is_name, is_taken, nothing};
ghost use Rattle.sdc_cli.specs.Exclusive.{AllBelow};

use crate::group_pairs::pairs_of_groups;
use crate::named_clocks::NamedClocks;
use sdc_base::{List, NoMemory, Text};
use std::alloc::Global;
use std::marker::Model;
use timing_types::{Clock, Early, Form, Latency, Mode, Wave};

/// The clocks of a mode file so far, and the groups of each command that has some, by the places of their clocks.
/// Contracts see `SoFar`.
#[derive(Drop)]
pub struct ModeSoFar {
    clocks: NamedClocks,
    groups: List<List<List<u32>>>,
}

impl Model for ModeSoFar {
    ghost use Rattle.std.specs.Prelude.{length};
    ghost use Rattle.mode_model.specs.ClockFile.{SoFar};
    ghost use Rattle.sdc_cli.specs.Exclusive.{CommandsBelow};

    ghost Value = { SoFar };

    ghost view = { λ made. record { clocks = made.clocks; groups = made.groups } };

    ghost invariant = { λ made. CommandsBelow (length made.clocks) made.groups };
}

impl ModeSoFar {
    /// Nothing yet.
    pub fn new(alloc: Global) -> ModeSoFar
        ensures { result ≡ nothing }
    {
        ModeSoFar {
            clocks: NamedClocks::new(alloc),
            groups: List::new(alloc),
        }
    }

    /// This and one more clock, whose name is new. The one error is want of memory.
    pub fn with_clock(self, alloc: Global, clock: Clock) -> Result<ModeSoFar, NoMemory>
        requires { is_taken clock.name self.clocks ≡ false }
        ensures { IfOk result (λ next. next ≡ record self { clocks = self.clocks ++ clock ∷ [] }) }
    {
        let ModeSoFar { clocks, groups } = self;
        let clocks = clocks.with(alloc, clock)?;
        Ok(ModeSoFar { clocks, groups })
    }

    /// This and the groups of one more command, whose clocks are these. The one error is want of memory.
    pub fn with_groups(self, more: List<List<u32>>) -> Result<ModeSoFar, NoMemory>
        requires { AllBelow (length self.clocks) more }
        ensures { IfOk result (λ next. next ≡ record self { groups = self.groups ++ more ∷ [] }) }
    {
        let ModeSoFar { clocks, mut groups } = self;
        groups.push(more)?;
        Ok(ModeSoFar { clocks, groups })
    }

    /// The clocks so far, found by their names.
    pub fn named(&self) -> &NamedClocks
        ensures { result.now ≡ self.now.clocks }
    {
        &self.clocks
    }

    /// The clocks so far, in order.
    pub fn clocks(&self) -> &[Clock]
        ensures { result.now ≡ self.now.clocks }
    {
        self.clocks.as_slice()
    }

    /// The mode of these clocks and of the exclusive pairs of these groups alone. The one error is want of
    /// memory.
    pub fn into_mode(self, alloc: Global) -> Result<Mode, NoMemory>
        ensures { IfOk result (λ mode. mode ≡ clock_mode self) }
    {
        let ModeSoFar { clocks, groups } = self;
        let count = clocks.count()?;
        let exclusive = pairs_of_groups(alloc, groups.as_slice(), count)?;
        Ok(Mode {
            clocks: clocks.into_list(),
            exclusive,
            cases: List::new(alloc),
            disabled: List::new(alloc),
            delays: List::new(alloc),
            exceptions: List::new(alloc),
            kept: List::new(alloc),
            notes: List::new(alloc),
        })
    }
}

/// A clock without sources, latency and uncertainty.
pub fn virtual_clock(alloc: Global, line: u32, name: Text, wave: Wave) -> Clock
    ensures { result ≡ virtual_clock line name wave }
{
    let none = Early { rise: 0, fall: 0 };
    Clock {
        line,
        name,
        sources: List::new(alloc),
        form: Form::Primary { wave },
        latency: Latency {
            source_early: none,
            source_late: none,
            network_early: none,
            network_late: none,
        },
        setup_uncertainty: 0,
        hold_uncertainty: 0,
        propagated: false,
    }
}

/// Whether a text is a name: letters, digits and `_`, at least one.
pub fn is_name(text: &[u8]) -> bool
    ensures { result ≡ is_name text.now }
{
    !text.is_empty() && are_name_bytes(text)
}

/// Whether all bytes may stand in a name.
fn are_name_bytes(text: &[u8]) -> bool
    ensures { result ≡ list_all is_name_byte text.now }
{
    text.iter().all(|byte| is_name_byte(*byte))
}

/// Whether a byte may stand in a name.
fn is_name_byte(byte: u8) -> bool
    ensures { result ≡ is_name_byte byte }
{
    byte.is_ascii_alphanumeric() || byte == b'_'
}
