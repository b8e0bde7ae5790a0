//! Names that stand twice (IEEE 1364-2005, scope rules).
//!
//! Each function here that may fail has want of memory as its one error.

ghost use Rattle.std.specs.Prelude.{◌≡◌, ◌++◌, ◌∷◌, ◌&&◌, ◌||◌, [], List, ℕ, IfOk, OnOk, if◌then◌else◌};
ghost use Rattle.std.specs.List.{filter};
ghost use Rattle.std.specs.Option.{option_map};
ghost use Rattle.indexmap.specs.IndexMap.{get_by_text};
ghost use Rattle.netlist_model.specs.Ranges as ranges;
ghost use Rattle.netlist_model.specs.Verilog as spec;
ghost use Rattle.netlist_model.specs.VerilogNets as nets;
ghost use Rattle.netlist_model.specs.VerilogSyntax as syntax;
ghost use Rattle.text_model.specs.Words.{is_among};
ghost use Rattle.verilog_net.specs.Contexts.{HasNames};
ghost use Rattle.verilog_net.specs.Faults.{HasEarlier, earlier_seen, is_second_of, one_later};
ghost use Rattle.verilog_net.specs.Seen.{token_seen, tokens_seen};
ghost use Rattle.verilog_net.specs.Syntax.{declared_seen, declareds_seen};

use crate::checking::names::is_port;
use crate::lexing::tokens::Token;
use crate::parsing::declarations::{Declared, Role};
use crate::syntax::name_sets::{NameSet, add_name, has_name, no_names};
use indexmap::IndexMap;
use sdc_base::NoMemory;
use source_types::Range;
use std::alloc::Global;

/// Adds a name, if it is in a set.
fn add_repeated<'a>(
    before: &NameSet,
    name: &Token<'a>,
    found: &mut Vec<Token<'a>>,
) -> Result<(), NoMemory>
    ensures { OnOk result ((listed : List (List ℕ)) → HasNames before.now listed → tokens_seen found.new.items ≡ tokens_seen found.old.items ++ (if is_among listed name.now.text.now then token_seen name.now ∷ [] else [])) }
{
    if !has_name(before, name.text) {
        return Ok(());
    }
    found.push(*name)?;
    Ok(())
}

/// Each of some names that stands after the same name.
#[tactic(auto, using(crate::proofs::RepeatFacts::none_repeated, crate::proofs::RepeatFacts::all_repeated))]
pub fn repeated<'a>(alloc: Global, names: &[Token<'a>]) -> Result<Vec<Token<'a>>, NoMemory>
    ensures { IfOk result (λ found. tokens_seen found.items ≡ spec.repeated [] (tokens_seen names.now)) }
{
    let mut before = no_names(alloc);
    let mut found = Vec::new(alloc);
    for name in names {
        add_repeated(&before, name, &mut found)?;
        add_name(alloc, &mut before, name.text)?;
    }
    Ok(found)
}

/// The first declaration of a name, and whether there are more.
#[derive(Clone, Copy)]
pub struct Earlier<'a> {
    pub first: Declared<'a>,
    pub more: bool,
}

/// Whether a declaration is one of a wire.
fn is_wire(declared: &Declared<'_>) -> bool
    ensures { result ≡ spec.is_wire (declared_seen declared.now) }
{
    match declared.role {
        Role::Port(_) => false,
        Role::Wire => true,
        Role::Tied(_) => false,
    }
}

/// The number of bits of a range, or of a scalar.
pub fn width(range: Option<Range>) -> u64
    ensures { result ≡ ranges.width range }
{
    match range {
        Some(range) => span(range.left, range.right),
        None => 1,
    }
}

/// The number of bits from one number to another.
pub fn span(left: u32, right: u32) -> u64
    ensures { result ≡ ranges.span left right }
{
    if left <= right {
        u64::from(right - left) + 1
    } else {
        u64::from(left - right) + 1
    }
}

/// Whether a declaration is of a port, and another one of a wire.
fn are_port_and_wire(port: &Declared<'_>, wire: &Declared<'_>) -> bool
    ensures { result ≡ (nets.is_port (declared_seen port.now) && spec.is_wire (declared_seen wire.now)) }
{
    is_port(port) && is_wire(wire)
}

/// The same with the wire before the port.
fn are_wire_and_port(wire: &Declared<'_>, port: &Declared<'_>) -> bool
    ensures { result ≡ (spec.is_wire (declared_seen wire.now) && nets.is_port (declared_seen port.now)) }
{
    is_wire(wire) && is_port(port)
}

/// Whether one declaration is of a port, and the other of a wire.
fn are_of_both(first: &Declared<'_>, second: &Declared<'_>) -> bool
    ensures { result ≡ ((nets.is_port (declared_seen first.now) && spec.is_wire (declared_seen second.now)) || (spec.is_wire (declared_seen first.now) && nets.is_port (declared_seen second.now))) }
{
    are_port_and_wire(first, second) || are_wire_and_port(first, second)
}

/// Whether two declarations of one name are allowed: a port and a wire of one width.
fn are_one(first: &Declared<'_>, second: &Declared<'_>) -> bool
    ensures { result ≡ spec.are_one (declared_seen first.now) (declared_seen second.now) }
{
    are_of_both(first, second) && width(first.range) == width(second.range)
}

/// Whether a declaration is a second one after those that are known of its name.
fn is_second(known: Option<Earlier<'_>>, declared: &Declared<'_>) -> bool
    ensures { result ≡ is_second_of (option_map earlier_seen known.entry) (declared_seen declared.now) }
{
    match known {
        Some(known) => known.more || !are_one(&known.first, declared),
        None => false,
    }
}

/// What is known of a name after one more declaration.
fn one_later<'a>(known: Option<Earlier<'a>>, declared: &Declared<'a>) -> Earlier<'a>
    ensures { earlier_seen result ≡ one_later (option_map earlier_seen known.entry) (declared_seen declared.now) }
{
    match known {
        Some(known) => Earlier {
            first: known.first,
            more: true,
        },
        None => Earlier {
            first: *declared,
            more: false,
        },
    }
}

/// What is known of a name.
fn known_of<'a>(known: &IndexMap<String, Earlier<'a>>, name: &str) -> Option<Earlier<'a>>
    ensures { result ≡ get_by_text known.now name.now }
{
    known.get(name).copied()
}

/// Adds a name, if something holds.
fn add_if<'a>(holds: bool, name: &Token<'a>, found: &mut Vec<Token<'a>>) -> Result<(), NoMemory>
    ensures { OnOk result (tokens_seen found.new.items ≡ tokens_seen found.old.items ++ (if holds then token_seen name.now ∷ [] else [])) }
{
    if !holds {
        return Ok(());
    }
    found.push(*name)?;
    Ok(())
}

/// Adds the name of a declaration, if it is a second one.
fn add_second<'a>(
    known: &IndexMap<String, Earlier<'a>>,
    declared: &Declared<'a>,
    found: &mut Vec<Token<'a>>,
) -> Result<(), NoMemory>
    ensures { OnOk result ((before : List syntax.Declared) → HasEarlier known.now before → tokens_seen found.new.items ≡ tokens_seen found.old.items ++ (if spec.is_second (filter (nets.is_of declared.now.name.text.now) before) (declared_seen declared.now) then token_seen declared.now.name ∷ [] else [])) }
{
    let earlier = known_of(known, declared.name.text);
    let second = is_second(earlier, declared);
    add_if(second, &declared.name, found)?;
    Ok(())
}

/// Adds a declaration to what is known.
fn add_known<'a>(
    alloc: Global,
    known: &mut IndexMap<String, Earlier<'a>>,
    declared: &Declared<'a>,
) -> Result<(), NoMemory>
    ensures { OnOk result ((before : List syntax.Declared) → HasEarlier known.old before → HasEarlier known.new (before ++ declared_seen declared.now ∷ [])) }
{
    let earlier = known_of(known, declared.name.text);
    let later = one_later(earlier, declared);
    let key = String::from_str(alloc, declared.name.text)?;
    known.insert(key, later)?;
    Ok(())
}

/// The names that are declared a second time.
#[tactic(auto, using(crate::proofs::RepeatFacts::no_seconds, crate::proofs::RepeatFacts::all_seconds))]
pub fn seconds<'a>(alloc: Global, declared: &[Declared<'a>]) -> Result<Vec<Token<'a>>, NoMemory>
    ensures { IfOk result (λ found. tokens_seen found.items ≡ spec.seconds [] (declareds_seen declared.now)) }
{
    let mut known = IndexMap::new(alloc);
    let mut found = Vec::new(alloc);
    for one in declared {
        add_second(&known, one, &mut found)?;
        add_known(alloc, &mut known, one)?;
    }
    Ok(found)
}
