//! The declarations of a module, each name's found by it.

ghost use Rattle.std.specs.Prelude.{◌≡◌, List, ℕ, None, IfOk, OnOk};
ghost use Rattle.std.specs.List.{find};
ghost use Rattle.std.specs.Option.{option_map};
ghost use Rattle.indexmap.specs.IndexMap.{get_by_text};
ghost use Rattle.netlist_model.specs.VerilogNets as nets;
ghost use Rattle.netlist_model.specs.VerilogStatements.{declarations};
ghost use Rattle.verilog_net.specs.Modules.{written_seen};
ghost use Rattle.verilog_net.specs.Names.{IsTied, better, declarations_of, entry_seen, ports_only, with_entries, with_entry};
ghost use Rattle.verilog_net.specs.Syntax.{declared_seen, declareds_seen};

use crate::parsing::declarations::{Declared, Role};
use crate::parsing::written::{Written, declarations};
use indexmap::IndexMap;
use sdc_base::NoMemory;
use source_types::Range;
use std::alloc::Global;

/// All that a module declares, and of each name the declaration that gives it its range.
#[derive(Drop)]
pub struct Names<'a> {
    pub declared: Vec<Declared<'a>>,
    pub entries: IndexMap<String, Declared<'a>>,
}

/// Whether a declaration is one of a port.
pub fn is_port(declared: &Declared<'_>) -> bool
    ensures { result ≡ nets.is_port (declared_seen declared.now) }
{
    match declared.role {
        Role::Port(_) => true,
        Role::Wire => false,
        Role::Tied(_) => false,
    }
}

/// Of the declaration that is known of a name and one more, the one that gives the name its range: the first port, or
/// else the first.
fn better<'a>(known: Option<Declared<'a>>, declared: &Declared<'a>) -> Declared<'a>
    ensures { declared_seen result ≡ better (option_map declared_seen known.entry) (declared_seen declared.now) }
{
    let Some(known) = known else {
        return *declared;
    };
    if is_port(declared) && !is_port(&known) {
        return *declared;
    }
    known
}

/// The declaration that is known of a name.
fn known_of<'a>(entries: &IndexMap<String, Declared<'a>>, name: &str) -> Option<Declared<'a>>
    ensures { result ≡ get_by_text entries.now name.now }
{
    entries.get(name).copied()
}

/// Adds a declaration. The one error is want of memory.
fn add_entry<'a>(
    alloc: Global,
    entries: &mut IndexMap<String, Declared<'a>>,
    declared: &Declared<'a>,
) -> Result<(), NoMemory>
    ensures { OnOk result ((name : List ℕ) → entry_seen entries.new name ≡ with_entry (declared_seen declared.now) name (entry_seen entries.old name)) }
{
    let known = known_of(entries, declared.name.text);
    let kept = better(known, declared);
    let key = String::from_str(alloc, declared.name.text)?;
    entries.insert(key, kept)?;
    Ok(())
}

/// No declarations.
fn no_entries<'a>(alloc: Global) -> IndexMap<String, Declared<'a>>
    ensures { (name : List ℕ) → get_by_text result name ≡ None }
{
    IndexMap::new(alloc)
}

/// Adds declarations. The one error is want of memory.
#[tactic(auto, using(crate::proofs::TableFacts::one_entry, crate::proofs::TableFacts::all_entries))]
fn add_entries<'a>(
    alloc: Global,
    entries: &mut IndexMap<String, Declared<'a>>,
    declared: &[Declared<'a>],
) -> Result<(), NoMemory>
    ensures { OnOk result ((name : List ℕ) → entry_seen entries.new name ≡ with_entries (declareds_seen declared.now) name (entry_seen entries.old name)) }
{
    for one in declared {
        add_entry(alloc, entries, one)?;
    }
    Ok(())
}

/// The declarations of a module, found by their names. The one error is want of memory.
pub fn names_of<'a>(alloc: Global, written: &Written<'a>) -> Result<Names<'a>, NoMemory>
    ensures tied { IfOk result IsTied }
    ensures all { IfOk result (λ names. declarations_of names ≡ declarations (written_seen written.now)) }
{
    let declared = declarations(alloc, written)?;
    let mut entries = no_entries(alloc);
    add_entries(alloc, &mut entries, declared.as_slice())?;
    Ok(Names { declared, entries })
}

/// A declaration, if it is one of a port.
fn port_only<'a>(declared: Option<Declared<'a>>) -> Option<Declared<'a>>
    ensures { option_map declared_seen result ≡ ports_only (option_map declared_seen declared.entry) }
{
    let Some(declared) = declared else {
        return None;
    };
    if is_port(&declared) {
        return Some(declared);
    }
    None
}

impl<'a> Names<'a> {
    /// The declaration that gives a name its range.
    pub fn get(&self, name: &str) -> Option<Declared<'a>>
        requires { IsTied self.now }
        ensures { option_map declared_seen result ≡ nets.declaration_of (declarations_of self.now) name.now }
    {
        known_of(&self.entries, name)
    }

    /// The range of a name; a name that is declared nowhere is a scalar.
    pub fn range(&self, name: &str) -> Option<Range>
        requires { IsTied self.now }
        ensures { result ≡ nets.range_named (declarations_of self.now) name.now }
    {
        match self.get(name) {
            Some(declared) => declared.range,
            None => None,
        }
    }

    /// The declaration of a name as a port.
    #[tactic(auto, using(crate::proofs::TableFacts::ports_are))]
    pub fn port(&self, name: &str) -> Option<Declared<'a>>
        requires { IsTied self.now }
        ensures { option_map declared_seen result ≡ find (nets.is_port_of name.now) (declarations_of self.now) }
    {
        port_only(self.get(name))
    }
}

/// A module with its declarations, found by their names.
#[derive(Drop)]
pub struct Named<'a> {
    pub written: Written<'a>,
    pub names: Names<'a>,
}
