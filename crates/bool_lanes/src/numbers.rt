//! Numbers that are found by names.

ghost use Rattle.std.specs.Prelude.{◌≡◌, ℕ, List, IfOk, OnOk, None, Some};
ghost use Rattle.bool_lanes.specs.NamedNumbers.{HasPlaces, least, number_at, number_if};

use indexmap::IndexMap;
use sdc_base::{List, NoMemory, Text};
use std::alloc::Global;

/// Numbers of things that have names: of several things of one name the least number.
#[derive(Drop)]
pub struct Numbers {
    least: IndexMap<Vec<u8>, usize>,
}

impl Numbers {
    /// None.
    pub fn new(alloc: Global) -> Numbers
        ensures { (name : List ℕ) → number_at result name ≡ None }
    {
        Numbers {
            least: IndexMap::new(alloc),
        }
    }

    /// The number of a name.
    pub fn get(&self, name: &List<u8>) -> Option<usize>
        ensures { result ≡ number_at self.now name.now }
    {
        self.least.get(name.as_slice()).copied()
    }

    /// Adds a thing of a name. The one error is want of memory.
    pub fn add(&mut self, alloc: Global, name: &Text, number: usize) -> Result<(), NoMemory>
        ensures { OnOk result ((other : List ℕ) → number_at self.new other ≡ least (number_if name.now number other) (number_at self.old other)) }
    {
        let kept = lesser(number, self.number_of(name));
        let key = Vec::from_slice(alloc, name.as_bytes())?;
        self.least.insert(key, kept)?;
        Ok(())
    }

    /// The number of a text.
    fn number_of(&self, name: &Text) -> Option<usize>
        ensures { result ≡ number_at self.now name.now }
    {
        self.least.get(name.as_bytes()).copied()
    }
}

/// The lesser of a number and another, if there is another.
fn lesser(number: usize, other: Option<usize>) -> usize
    ensures { Some result ≡ least (Some number) other }
{
    match other {
        None => number,
        Some(other) => number.min(other),
    }
}

/// The places of names, counted from 0. The one error is want of memory.
#[tactic(auto, using(crate::proofs::NumberFacts::places_none, crate::proofs::NumberFacts::place_more, crate::proofs::NumberFacts::places_all))]
pub fn places_of(alloc: Global, names: &[Text]) -> Result<Numbers, NoMemory>
    ensures { IfOk result (λ numbers. HasPlaces numbers names.now) }
{
    let mut numbers = Numbers::new(alloc);
    for (place, name) in names.iter().enumerate() {
        numbers.add(alloc, name, place)?;
    }
    Ok(numbers)
}
