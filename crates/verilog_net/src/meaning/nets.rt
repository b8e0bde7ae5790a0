//! The nets of a module (IEEE 1364-2005, declarations and implicit declarations).
//!
//! Each function here that may fail has want of memory as its one error.

ghost use Rattle.std.specs.Prelude.{◌≡◌, ◌++◌, ◌∷◌, [], List, ℕ, map, IfOk, OnOk};
ghost use Rattle.std.specs.List.{filter_map, flat_map};
ghost use Rattle.std.specs.Option.{option_map, option_to_list};
ghost use Rattle.netlist_model.specs.VerilogNets as spec;
ghost use Rattle.netlist_model.specs.VerilogStatements as grammar;
ghost use Rattle.netlist_model.specs.VerilogSyntax as syntax;
ghost use Rattle.netlist_model.specs.WellFormedNetlist.{net_of_port};
ghost use Rattle.verilog_net.specs.Contexts.{HasNames};
ghost use Rattle.verilog_net.specs.Names.{IsTied, declarations_of};
ghost use Rattle.verilog_net.specs.Seen.{token_seen, tokens_seen};
ghost use Rattle.verilog_net.specs.Syntax.{declared_seen, declareds_seen, parts_seen, piece_seen, pieces_seen};
ghost use Rattle.verilog_net.specs.Wires.{AddsWire, candidate_seen, candidates_seen, texts};

use crate::checking::names::Names;
use crate::lexing::tokens::Token;
use crate::parsing::declarations::{Declared, Role, add_statement_declares};
use crate::parsing::pieces::Piece;
use crate::parsing::statements::add_pieces_in;
use crate::syntax::name_sets::{NameSet, add_name, has_name, no_names};
use sdc_base::{Duplicate, List, NoMemory, Text};
use source_types::{Port, Range, VerilogToken, Wire};
use std::alloc::Global;

/// A net that is declared or used, by its name.
#[derive(Clone, Copy)]
pub struct Candidate<'a> {
    pub name: &'a str,
    pub range: Option<Range>,
    pub tie: Option<bool>,
}

/// The value that a net is tied to.
fn tie_of(declared: &Declared<'_>) -> Option<bool>
    ensures { result ≡ spec.tie_of (declared_seen declared.now).role }
{
    match declared.role {
        Role::Port(_) => None,
        Role::Wire => None,
        Role::Tied(value) => Some(value),
    }
}

/// Adds the nets that are declared.
fn add_declared<'a>(
    names: &Names<'a>,
    declared: &[Declared<'a>],
    found: &mut Vec<Candidate<'a>>,
) -> Result<(), NoMemory>
    requires { IsTied names.now }
    ensures { OnOk result (candidates_seen found.new.items ≡ candidates_seen found.old.items ++ map (spec.declared_wire (declarations_of names.now)) (declareds_seen declared.now)) }
{
    for one in declared {
        let range = names.range(one.name.text);
        found.push(Candidate {
            name: one.name.text,
            range,
            tie: tie_of(one),
        })?;
    }
    Ok(())
}

/// The scalar of a name, if that is declared nowhere.
fn implicit<'a>(names: &Names<'a>, name: &Token<'a>) -> Option<Candidate<'a>>
    requires { IsTied names.now }
    ensures { option_map candidate_seen result ≡ spec.used_wire (declarations_of names.now) (syntax.whole (token_seen name.now)) }
{
    match names.get(name.text) {
        Some(_) => None,
        None => Some(Candidate {
            name: name.text,
            range: None,
            tie: None,
        }),
    }
}

/// The net that a use makes, where its name is declared nowhere.
fn used<'a>(names: &Names<'a>, piece: &Piece<'a>) -> Option<Candidate<'a>>
    requires { IsTied names.now }
    ensures { option_map candidate_seen result ≡ spec.used_wire (declarations_of names.now) (piece_seen piece.now) }
{
    match piece {
        Piece::Whole(name) => implicit(names, name),
        Piece::Bit(_, _) => None,
        Piece::Part(_, _, _) => None,
        Piece::Constant(_, _, _) => None,
    }
}

/// Adds a net, if there is one.
fn add<'a>(net: Option<Candidate<'a>>, found: &mut Vec<Candidate<'a>>) -> Result<(), NoMemory>
    ensures { OnOk result (candidates_seen found.new.items ≡ candidates_seen found.old.items ++ option_to_list (option_map candidate_seen net.entry)) }
{
    let Some(net) = net else {
        return Ok(());
    };
    found.push(net)?;
    Ok(())
}

/// Adds the nets that uses make.
#[tactic(auto, using(crate::proofs::WireFacts::used_more))]
fn add_used<'a>(
    names: &Names<'a>,
    pieces: &[Piece<'a>],
    found: &mut Vec<Candidate<'a>>,
) -> Result<(), NoMemory>
    requires { IsTied names.now }
    ensures { OnOk result (candidates_seen found.new.items ≡ candidates_seen found.old.items ++ filter_map (spec.used_wire (declarations_of names.now)) (pieces_seen pieces.now)) }
{
    for piece in pieces {
        add(used(names, piece), found)?;
    }
    Ok(())
}

/// Adds the nets that the uses of a statement make.
fn add_used_in<'a>(
    alloc: Global,
    names: &Names<'a>,
    statement: &'a [Token<'a>],
    found: &mut Vec<Candidate<'a>>,
) -> Result<(), NoMemory>
    requires { IsTied names.now }
    ensures { OnOk result (candidates_seen found.new.items ≡ candidates_seen found.old.items ++ filter_map (spec.used_wire (declarations_of names.now)) (spec.pieces_in (grammar.statement_of (tokens_seen statement.now)))) }
{
    let mut pieces = Vec::new(alloc);
    add_pieces_in(alloc, statement, &mut pieces)?;
    add_used(names, pieces.as_slice(), found)
}

/// Adds the nets that a declaration declares.
fn add_declared_in<'a>(
    alloc: Global,
    names: &Names<'a>,
    statement: &'a [Token<'a>],
    found: &mut Vec<Candidate<'a>>,
) -> Result<(), NoMemory>
    requires { IsTied names.now }
    ensures { OnOk result (candidates_seen found.new.items ≡ candidates_seen found.old.items ++ map (spec.declared_wire (declarations_of names.now)) (syntax.statement_declares (tokens_seen statement.now))) }
{
    let mut declared = Vec::new(alloc);
    add_statement_declares(statement, &mut declared)?;
    add_declared(names, declared.as_slice(), found)
}

/// Adds the nets that a statement declares or makes.
fn add_nets_in<'a>(
    alloc: Global,
    names: &Names<'a>,
    statement: &'a [Token<'a>],
    found: &mut Vec<Candidate<'a>>,
) -> Result<(), NoMemory>
    requires { IsTied names.now }
    ensures { OnOk result (candidates_seen found.new.items ≡ candidates_seen found.old.items ++ spec.wires_in (declarations_of names.now) (grammar.statement_of (tokens_seen statement.now))) }
{
    let [first, ..] = statement else {
        return Ok(());
    };
    match first.kind {
        VerilogToken::Assign => add_used_in(alloc, names, statement, found),
        VerilogToken::Name => add_used_in(alloc, names, statement, found),
        _ => add_declared_in(alloc, names, statement, found),
    }
}

/// The nets that statements declare or make.
fn all_nets<'a>(
    alloc: Global,
    names: &Names<'a>,
    statements: &[&'a [Token<'a>]],
) -> Result<Vec<Candidate<'a>>, NoMemory>
    requires { IsTied names.now }
    ensures { IfOk result (λ found. candidates_seen found.items ≡ flat_map (spec.wires_in (declarations_of names.now)) (map grammar.statement_of (parts_seen statements.now))) }
{
    let mut found = Vec::new(alloc);
    for statement in statements {
        add_nets_in(alloc, names, statement, &mut found)?;
    }
    Ok(found)
}

/// The set of some names.
#[tactic(auto, using(crate::proofs::WireFacts::no_names, crate::proofs::WireFacts::all_names))]
fn name_set(alloc: Global, names: &[Token<'_>]) -> Result<NameSet, NoMemory>
    ensures { IfOk result (λ set. HasNames set (texts (tokens_seen names.now))) }
{
    let mut set = no_names(alloc);
    for name in names {
        add_name(alloc, &mut set, name.text)?;
    }
    Ok(set)
}

/// Adds a net, unless its name is taken.
fn add_new(
    alloc: Global,
    taken: &mut NameSet,
    net: &Candidate<'_>,
    nets: &mut List<Wire>,
) -> Result<(), NoMemory>
    ensures { OnOk result ((names : List (List ℕ)) → HasNames taken.old names → AddsWire taken.new names (candidate_seen net.now) nets.old nets.new) }
{
    if has_name(taken, net.name) {
        return Ok(());
    }
    let name = Text::from_str(alloc, net.name)?;
    nets.push(Wire {
        name,
        range: net.range,
        tie: net.tie,
    })?;
    add_name(alloc, taken, net.name)
}

/// Adds each net whose name is not taken yet, where its name comes first.
fn add_all_new(
    alloc: Global,
    taken: &mut NameSet,
    found: &[Candidate<'_>],
    nets: &mut List<Wire>,
) -> Result<(), NoMemory>
    ensures { OnOk result ((names : List (List ℕ)) → HasNames taken.old names → nets.new ≡ nets.old ++ spec.new_wires names (candidates_seen found.now)) }
{
    for net in found {
        add_new(alloc, taken, net, nets)?;
    }
    Ok(())
}

/// Adds the nets of ports.
fn add_port_nets(alloc: Global, ports: &[Port], nets: &mut List<Wire>) -> Result<(), NoMemory>
    ensures { OnOk result (nets.new ≡ nets.old ++ map net_of_port ports.now) }
{
    for port in ports {
        let name = port.name.copy(alloc)?;
        nets.push(Wire {
            name,
            range: port.range,
            tie: None,
        })?;
    }
    Ok(())
}

/// The nets of a module: its ports, and then the others, each where it is declared or first used.
pub fn nets_of<'a>(
    alloc: Global,
    names: &Names<'a>,
    port_names: &[Token<'a>],
    ports: &[Port],
    statements: &[&'a [Token<'a>]],
) -> Result<List<Wire>, NoMemory>
    requires { IsTied names.now }
    ensures { IfOk result (λ nets. nets ≡ map net_of_port ports.now ++ spec.new_wires (texts (tokens_seen port_names.now)) (flat_map (spec.wires_in (declarations_of names.now)) (map grammar.statement_of (parts_seen statements.now)))) }
{
    let mut nets = List::new(alloc);
    add_port_nets(alloc, ports, &mut nets)?;
    let mut taken = name_set(alloc, port_names)?;
    let found = all_nets(alloc, names, statements)?;
    add_all_new(alloc, &mut taken, found.as_slice(), &mut nets)?;
    Ok(nets)
}
