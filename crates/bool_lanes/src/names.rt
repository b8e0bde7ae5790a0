//! Names of a cell's pins and state variables, found in its functions.

ghost use Rattle.std.specs.Prelude.{◌≡◌, ◌≤◌, ◌+◌, drop, length, IfOk, OnOk};
ghost use Rattle.indexmap.specs.IndexSet.{contains_text};
ghost use Rattle.function_model.specs.FunctionMeaning.{inputs_in, is_other, is_unknown};
ghost use Rattle.function_model.specs.FunctionText.{place_in};
ghost use Rattle.bool_lanes.specs.KnownNames.{AddsName, HasNames};

use crate::numbers::{Numbers, places_of};
use indexmap::IndexSet;
use sdc_base::{List, NoMemory, Text};
use std::alloc::Global;
use std::marker::Model;

/// The names of a cell, as `parse_prepared` asks for them: the inputs in order, then an empty text, then the state variables and
/// the other pins; without an empty text all are inputs. Each is found without going through all of them. Contracts see
/// the list of the names.
#[derive(Drop)]
pub struct Names {
    names: List<Text>,
    inputs: usize,
    places: Numbers,
    others: IndexSet<String>,
}

impl Model for Names {
    ghost use Rattle.std.specs.Prelude.{ℕ, List};
    ghost use Rattle.bool_lanes.specs.KnownNames.{AreKnown};

    ghost Value = { List (List ℕ) };

    ghost view = { λ known. known.names };

    ghost invariant = { λ known. AreKnown known.names known.inputs known.places known.others };
}

impl Names {
    /// The names of a cell. The one error is want of memory.
    #[tactic(auto, using(crate::proofs::NameFacts::known))]
    pub fn new(alloc: Global, names: List<Text>) -> Result<Names, NoMemory>
        ensures { IfOk result (λ known. known ≡ names) }
    {
        let inputs = count_inputs(names.as_slice());
        let places = places_of(alloc, names.as_slice())?;
        let others = set_of(alloc, after(names.as_slice(), inputs))?;
        Ok(Names {
            names,
            inputs,
            places,
            others,
        })
    }

    /// The place of a word among the names, or their number where it is none of them.
    #[tactic(auto, using(crate::proofs::NameFacts::place_found, crate::proofs::NameFacts::place_few, crate::proofs::NameFacts::place_none))]
    pub(crate) fn place_of(&self, word: &List<u8>) -> u16
        requires { length self.now ≤ 60001 }
        ensures { result ≡ place_in self.now word.now }
    {
        match self.places.get(word) {
            Some(place) => short(place),
            None => short(self.names.len()),
        }
    }

    /// The number of inputs: of the names before the first empty one.
    pub(crate) fn inputs(&self) -> usize
        ensures { result ≡ inputs_in self.now }
    {
        self.inputs
    }

    /// Whether a place is after all names.
    pub(crate) fn is_unknown(&self, pin: u16) -> bool
        ensures { result ≡ is_unknown self.now pin }
    {
        self.names.len() <= usize::from(pin)
    }

    /// Whether a place has the name of a state variable or of a pin that is no input.
    #[tactic(auto, using(crate::proofs::NameFacts::other_after, crate::proofs::NameFacts::other_among))]
    pub(crate) fn is_other(&self, pin: u16) -> bool
        ensures { result ≡ is_other self.now pin }
    {
        let place = usize::from(pin);
        if self.inputs <= place {
            return true;
        }
        has_name(&self.others, &self.names.as_slice()[place])
    }
}

/// Whether a set has a name.
fn has_name(set: &IndexSet<String>, name: &Text) -> bool
    ensures { result ≡ contains_text set.now name.now }
{
    set.contains(name.as_str())
}

/// The place of a name, of as many as a cell may have.
fn short(place: usize) -> u16
    requires { place ≤ 60001 }
    ensures { result ≡ place }
{
    place as u16
}

/// The number of inputs among names: those before the first empty name.
fn count_inputs(names: &[Text]) -> usize
    ensures count { result ≡ inputs_in names.now }
    ensures within { result ≤ length names.now }
{
    names.iter().take_while(|name| name.len() > 0).count()
}

/// The names after one that stands after so many others.
fn after(names: &[Text], others: usize) -> &[Text]
    ensures { result.now ≡ drop (others + 1) names.now }
{
    if others < names.len() {
        let (_, after) = names.split_at(others + 1);
        after
    } else {
        &[]
    }
}

/// Adds a name. The one error is want of memory.
#[tactic(auto, using(crate::proofs::NameFacts::added))]
fn add_name(alloc: Global, set: &mut IndexSet<String>, name: &Text) -> Result<(), NoMemory>
    ensures { OnOk result (AddsName set.old set.new name.now) }
{
    let name = String::from_str(alloc, name.as_str())?;
    set.insert(name)?;
    Ok(())
}

/// The set of names. The one error is want of memory.
#[tactic(auto, using(crate::proofs::NameFacts::set_none, crate::proofs::NameFacts::set_more, crate::proofs::NameFacts::set_all))]
fn set_of(alloc: Global, names: &[Text]) -> Result<IndexSet<String>, NoMemory>
    ensures { IfOk result (λ set. HasNames set names.now) }
{
    let mut set = IndexSet::new(alloc);
    for name in names {
        add_name(alloc, &mut set, name)?;
    }
    Ok(set)
}
