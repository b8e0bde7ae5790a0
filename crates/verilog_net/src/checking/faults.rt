//! The faults of modules that are of the grammar: at which tokens they stand, and the first of them (IEEE 1364-2005).
//! The order of the faults is this project's own.
//!
//! Each function here that may fail has want of memory as its one error.

ghost use Rattle.std.specs.Prelude.{◌≡◌, ◌++◌, [], map, All, IfOk, OnOk};
ghost use Rattle.std.specs.List.{flat_map};
ghost use Rattle.std.specs.Option.{option_map};
ghost use Rattle.netlist_model.specs.Verilog as spec;
ghost use Rattle.netlist_model.specs.VerilogNets.{pieces_in};
ghost use Rattle.netlist_model.specs.VerilogStatements as grammar;
ghost use Rattle.verilog_net.specs.Faults.{kept_wrong, wrong_seen, wrongs_seen};
ghost use Rattle.verilog_net.specs.Modules.{written_seen};
ghost use Rattle.verilog_net.specs.Names.{IsNamed, IsTied, declarations_of, named_modules};
ghost use Rattle.verilog_net.specs.Seen.{tokens_seen};
ghost use Rattle.verilog_net.specs.Syntax.{parts_seen, pieces_seen};

use crate::checking::names::{Named, Names};
use crate::checking::repeats::{repeated, seconds};
use crate::checking::uses::{add_uneven, add_unknown, undeclared};
use crate::lexing::tokens::Token;
use crate::parsing::pieces::Piece;
use crate::parsing::statements::add_pieces_in;
use crate::parsing::written::Written;
use sdc_base::NoMemory;
use source_types::VerilogKind;
use std::alloc::Global;

/// A fault at a token.
#[derive(Clone, Copy)]
pub struct Wrong<'a> {
    pub token: Token<'a>,
    pub kind: VerilogKind,
}

/// Adds a fault at each of some tokens.
fn add_wrongs<'a>(
    kind: VerilogKind,
    tokens: &[Token<'a>],
    found: &mut Vec<Wrong<'a>>,
) -> Result<(), NoMemory>
    ensures { OnOk result (wrongs_seen found.new.items ≡ wrongs_seen found.old.items ++ map (spec.wrong_at kind) (tokens_seen tokens.now)) }
{
    for token in tokens {
        found.push(Wrong {
            token: *token,
            kind,
        })?;
    }
    Ok(())
}

/// The names that are declared a second time.
fn double_names<'a>(
    alloc: Global,
    written: &Written<'a>,
    names: &Names<'a>,
) -> Result<Vec<Token<'a>>, NoMemory>
    ensures { IfOk result (λ found. tokens_seen found.items ≡ spec.repeated [] (tokens_seen written.now.listed.items) ++ spec.seconds [] (declarations_of names.now)) }
{
    let mut found = repeated(alloc, written.listed.as_slice())?;
    let more = seconds(alloc, names.declared.as_slice())?;
    found.extend_from_slice(more.as_slice())?;
    Ok(found)
}

/// The pieces that statements use.
fn pieces_of_all<'a>(
    alloc: Global,
    statements: &[&'a [Token<'a>]],
) -> Result<Vec<Piece<'a>>, NoMemory>
    ensures { IfOk result (λ pieces. pieces_seen pieces.items ≡ flat_map pieces_in (map grammar.statement_of (parts_seen statements.now))) }
{
    let mut pieces = Vec::new(alloc);
    for statement in statements {
        add_pieces_in(alloc, statement, &mut pieces)?;
    }
    Ok(pieces)
}

/// The names that are no nets of their module, or select what is not there.
fn unknown_names<'a>(
    alloc: Global,
    written: &Written<'a>,
    names: &Names<'a>,
) -> Result<Vec<Token<'a>>, NoMemory>
    requires { IsTied names.now }
    ensures { IfOk result (λ found. tokens_seen found.items ≡ spec.undeclared (declarations_of names.now) (tokens_seen written.now.listed.items) ++ flat_map (spec.unknown_in (declarations_of names.now)) (flat_map pieces_in (map grammar.statement_of (parts_seen written.now.statements.items)))) }
{
    let mut found = undeclared(alloc, names, written.listed.as_slice())?;
    let pieces = pieces_of_all(alloc, written.statements.as_slice())?;
    add_unknown(names, pieces.as_slice(), &mut found)?;
    Ok(found)
}

/// The keywords of assignments whose sides have different widths.
fn uneven_assignments<'a>(
    alloc: Global,
    statements: &[&'a [Token<'a>]],
    names: &Names<'a>,
) -> Result<Vec<Token<'a>>, NoMemory>
    requires { IsTied names.now }
    ensures { IfOk result (λ found. tokens_seen found.items ≡ flat_map (spec.uneven (declarations_of names.now)) (map grammar.statement_of (parts_seen statements.now))) }
{
    let mut found = Vec::new(alloc);
    for statement in statements {
        add_uneven(alloc, names, statement, &mut found)?;
    }
    Ok(found)
}

/// Adds the faults of a module.
fn add_module_wrongs<'a>(
    alloc: Global,
    named: &Named<'a>,
    found: &mut Vec<Wrong<'a>>,
) -> Result<(), NoMemory>
    requires { IsNamed named.now }
    ensures { OnOk result (wrongs_seen found.new.items ≡ wrongs_seen found.old.items ++ spec.module_wrongs (written_seen named.now.written)) }
{
    let written = &named.written;
    let names = &named.names;
    add_wrongs(VerilogKind::InoutPort, written.inouts.as_slice(), found)?;
    let doubles = double_names(alloc, written, names)?;
    add_wrongs(VerilogKind::DoubleName, doubles.as_slice(), found)?;
    let uneven = uneven_assignments(alloc, written.statements.as_slice(), names)?;
    add_wrongs(VerilogKind::WidthMismatch, uneven.as_slice(), found)?;
    let unknown = unknown_names(alloc, written, names)?;
    add_wrongs(VerilogKind::UnknownNet, unknown.as_slice(), found)?;
    Ok(())
}

/// The names of modules.
fn module_names<'a>(alloc: Global, modules: &[Named<'a>]) -> Result<Vec<Token<'a>>, NoMemory>
    ensures { IfOk result (λ names. tokens_seen names.items ≡ map (λ (m : grammar.Written). m.name) (named_modules modules.now)) }
{
    let mut names = Vec::new(alloc);
    for named in modules {
        names.push(named.written.name)?;
    }
    Ok(names)
}

/// Adds the faults of each of some modules.
fn add_all_wrongs<'a>(
    alloc: Global,
    modules: &[Named<'a>],
    found: &mut Vec<Wrong<'a>>,
) -> Result<(), NoMemory>
    requires { All IsNamed modules.now }
    ensures { OnOk result (wrongs_seen found.new.items ≡ wrongs_seen found.old.items ++ flat_map spec.module_wrongs (named_modules modules.now)) }
{
    for named in modules {
        add_module_wrongs(alloc, named, found)?;
    }
    Ok(())
}

/// The faults of modules, a second module of one name among them.
fn wrongs<'a>(alloc: Global, modules: &[Named<'a>]) -> Result<Vec<Wrong<'a>>, NoMemory>
    requires { All IsNamed modules.now }
    ensures { IfOk result (λ found. wrongs_seen found.items ≡ spec.wrongs (named_modules modules.now)) }
{
    let names = module_names(alloc, modules)?;
    let doubles = repeated(alloc, names.as_slice())?;
    let mut found = Vec::new(alloc);
    add_wrongs(VerilogKind::DoubleName, doubles.as_slice(), &mut found)?;
    add_all_wrongs(alloc, modules, &mut found)?;
    Ok(found)
}

/// Of the first fault that is known, if one is, and one more, the earlier one.
fn earlier<'a>(known: Option<Wrong<'a>>, wrong: &Wrong<'a>) -> Wrong<'a>
    ensures { wrong_seen result ≡ kept_wrong (option_map wrong_seen known.entry) (wrong_seen wrong.now) }
{
    let Some(known) = known else {
        return *wrong;
    };
    if known.token.at <= wrong.token.at {
        return known;
    }
    *wrong
}

/// The first of some faults.
#[tactic(auto, using(crate::proofs::FaultFacts::wrong_more))]
fn first_of<'a>(wrongs: &[Wrong<'a>]) -> Option<Wrong<'a>>
    ensures { option_map wrong_seen result ≡ spec.first_wrong (wrongs_seen wrongs.now) }
{
    let mut first = None;
    for wrong in wrongs {
        first = Some(earlier(first, wrong));
    }
    first
}

/// The first fault of modules, if they have one.
pub fn first_fault<'a>(alloc: Global, modules: &[Named<'a>]) -> Result<Option<Wrong<'a>>, NoMemory>
    requires { All IsNamed modules.now }
    ensures { IfOk result (λ first. option_map wrong_seen first ≡ spec.first_wrong (spec.wrongs (named_modules modules.now))) }
{
    let all = wrongs(alloc, modules)?;
    Ok(first_of(all.as_slice()))
}
