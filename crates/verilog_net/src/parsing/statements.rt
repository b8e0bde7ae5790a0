//! What the statements of a module connect and assign, before names are looked up (IEEE 1364-2005, module instances and
//! continuous assignments).
//!
//! Each function here has want of memory as its one error.

ghost use Rattle.std.specs.Prelude.{◌≡◌, ◌++◌, ◌∷◌, ◌-◌, [], length, map, take, IfOk, OnOk, List};
ghost use Rattle.std.specs.List.{flat_map};
ghost use Rattle.netlist_model.specs.VerilogNets as nets;
ghost use Rattle.netlist_model.specs.VerilogStatements as grammar;
ghost use Rattle.netlist_model.specs.VerilogSyntax as syntax;
ghost use Rattle.netlist_model.specs.VerilogTokens as lexical;
ghost use Rattle.verilog_net.specs.Seen.{token_seen, tokens_seen};
ghost use Rattle.verilog_net.specs.Syntax.{declareds_seen, parts_seen, pieces_seen};

use crate::lexing::tokens::Token;
use crate::parsing::declarations::{Declared, add_statement_declares, is};
use crate::parsing::parts::{after, before, parts_of};
use crate::parsing::pieces::{Piece, add_net_pieces, add_pieces};
use sdc_base::NoMemory;
use source_types::VerilogToken;
use std::alloc::Global;

/// Adds what a statement declares.
pub fn add_declared_by<'a>(
    statement: &'a [Token<'a>],
    found: &mut Vec<Declared<'a>>,
) -> Result<(), NoMemory>
    ensures { OnOk result (declareds_seen found.new.items ≡ declareds_seen found.old.items ++ grammar.declared_by (grammar.statement_of (tokens_seen statement.now))) }
{
    let [first, ..] = statement else {
        return Ok(());
    };
    match first.kind {
        VerilogToken::Assign => Ok(()),
        VerilogToken::Name => Ok(()),
        _ => add_statement_declares(statement, found),
    }
}

/// Adds the pieces of both sides of an assignment.
fn add_sides<'a>(part: &'a [Token<'a>], pieces: &mut Vec<Piece<'a>>) -> Result<(), NoMemory>
    ensures { OnOk result (pieces_seen pieces.new.items ≡ pieces_seen pieces.old.items ++ ((grammar.sides_of (tokens_seen part.now)).left ++ (grammar.sides_of (tokens_seen part.now)).right)) }
{
    add_net_pieces(before(VerilogToken::Equals, part), pieces)?;
    add_pieces(after(VerilogToken::Equals, part), pieces)?;
    Ok(())
}

/// Adds the pieces of assignments.
fn add_assignments<'a>(
    parts: &[&'a [Token<'a>]],
    pieces: &mut Vec<Piece<'a>>,
) -> Result<(), NoMemory>
    ensures { OnOk result (pieces_seen pieces.new.items ≡ pieces_seen pieces.old.items ++ flat_map (λ (sides : grammar.Sides). sides.left ++ sides.right) (map grammar.sides_of (parts_seen parts.now))) }
{
    for part in parts {
        add_sides(part, pieces)?;
    }
    Ok(())
}

/// Adds the pieces of ordered connections.
fn add_ordered<'a>(parts: &[&'a [Token<'a>]], pieces: &mut Vec<Piece<'a>>) -> Result<(), NoMemory>
    ensures { OnOk result (pieces_seen pieces.new.items ≡ pieces_seen pieces.old.items ++ flat_map (λ (all : List syntax.Piece). all) (map syntax.pieces_of (parts_seen parts.now))) }
{
    for part in parts {
        add_pieces(part, pieces)?;
    }
    Ok(())
}

/// Adds the pieces of a named connection.
fn add_link<'a>(part: &'a [Token<'a>], pieces: &mut Vec<Piece<'a>>) -> Result<(), NoMemory>
    ensures { OnOk result (pieces_seen pieces.new.items ≡ pieces_seen pieces.old.items ++ flat_map (λ (link : lexical.Token × List syntax.Piece). link.1) (grammar.named_one (tokens_seen part.now))) }
{
    match part {
        [_, _, rest @ ..] => add_pieces(rest, pieces),
        _ => Ok(()),
    }
}

/// Adds the pieces of named connections.
#[tactic(auto, using(crate::proofs::StatementFacts::link_more))]
fn add_named<'a>(parts: &[&'a [Token<'a>]], pieces: &mut Vec<Piece<'a>>) -> Result<(), NoMemory>
    ensures { OnOk result (pieces_seen pieces.new.items ≡ pieces_seen pieces.old.items ++ flat_map (λ (link : lexical.Token × List syntax.Piece). link.1) (flat_map grammar.named_one (parts_seen parts.now))) }
{
    for part in parts {
        add_link(part, pieces)?;
    }
    Ok(())
}

/// Adds the pieces that an instance connects, given the tokens in its parentheses.
fn add_connected<'a>(
    alloc: Global,
    tokens: &'a [Token<'a>],
    pieces: &mut Vec<Piece<'a>>,
) -> Result<(), NoMemory>
    ensures { OnOk result (pieces_seen pieces.new.items ≡ pieces_seen pieces.old.items ++ nets.connected (grammar.connections_of (tokens_seen tokens.now))) }
{
    let [first, ..] = tokens else {
        return Ok(());
    };
    let parts = parts_of(alloc, tokens)?;
    if is(VerilogToken::Dot, first) {
        add_named(parts.as_slice(), pieces)
    } else {
        add_ordered(parts.as_slice(), pieces)
    }
}

/// The tokens before the last one: those in parentheses, given those after the opening one.
#[tactic(auto, using(crate::proofs::SliceFacts::inner_taken))]
pub fn inner<'a>(tokens: &'a [Token<'a>]) -> &'a [Token<'a>]
    ensures { tokens_seen result.now ≡ take (length (tokens_seen tokens.now) - 1) (tokens_seen tokens.now) }
{
    &tokens[..tokens.len().saturating_sub(1)]
}

/// Adds the pieces of an instance, given its kind and the tokens after that.
fn add_placed<'a>(
    alloc: Global,
    kind: &Token<'a>,
    part: &'a [Token<'a>],
    pieces: &mut Vec<Piece<'a>>,
) -> Result<(), NoMemory>
    ensures { OnOk result (pieces_seen pieces.new.items ≡ pieces_seen pieces.old.items ++ flat_map (λ (placed : grammar.Placed). nets.connected placed.connections) (grammar.instance_of (token_seen kind.now) (tokens_seen part.now))) }
{
    match part {
        [_, _, rest @ ..] => add_connected(alloc, inner(rest), pieces),
        _ => Ok(()),
    }
}

/// Adds the pieces of instances of a kind.
#[tactic(auto, using(crate::proofs::StatementFacts::placed_more))]
fn add_instances<'a>(
    alloc: Global,
    kind: &Token<'a>,
    parts: &[&'a [Token<'a>]],
    pieces: &mut Vec<Piece<'a>>,
) -> Result<(), NoMemory>
    ensures { OnOk result (pieces_seen pieces.new.items ≡ pieces_seen pieces.old.items ++ flat_map (λ (placed : grammar.Placed). nets.connected placed.connections) (flat_map (grammar.instance_of (token_seen kind.now)) (parts_seen parts.now))) }
{
    for part in parts {
        add_placed(alloc, kind, part, pieces)?;
    }
    Ok(())
}

/// Adds the pieces that a statement uses, in the order of the text.
pub fn add_pieces_in<'a>(
    alloc: Global,
    statement: &'a [Token<'a>],
    pieces: &mut Vec<Piece<'a>>,
) -> Result<(), NoMemory>
    ensures { OnOk result (pieces_seen pieces.new.items ≡ pieces_seen pieces.old.items ++ nets.pieces_in (grammar.statement_of (tokens_seen statement.now))) }
{
    let [first, rest @ ..] = statement else {
        return Ok(());
    };
    match first.kind {
        VerilogToken::Assign => {
            let parts = parts_of(alloc, rest)?;
            add_assignments(parts.as_slice(), pieces)
        }
        VerilogToken::Name => {
            let parts = parts_of(alloc, rest)?;
            add_instances(alloc, first, parts.as_slice(), pieces)
        }
        _ => Ok(()),
    }
}
