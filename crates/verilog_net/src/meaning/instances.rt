//! The instances and assignments of a module (IEEE 1364-2005, module instances and continuous assignments).
//!
//! Each function here has want of memory as its one error.

ghost use Rattle.std.specs.Prelude.{◌≡◌, ◌++◌, ◌∷◌, [], List, map, IfOk, OnOk};
ghost use Rattle.std.specs.List.{flat_map};
ghost use Rattle.netlist_model.specs.VerilogNets as nets;
ghost use Rattle.netlist_model.specs.VerilogStatements as grammar;
ghost use Rattle.netlist_model.specs.VerilogSyntax as syntax;
ghost use Rattle.verilog_net.specs.Links.{link_from};
ghost use Rattle.verilog_net.specs.Names.{IsTied, declarations_of};
ghost use Rattle.verilog_net.specs.Seen.{token_seen, tokens_seen};
ghost use Rattle.verilog_net.specs.Syntax.{parts_seen};

use crate::checking::names::Names;
use crate::lexing::tokens::Token;
use crate::meaning::bits::{bits_of, connected_bits};
use crate::parsing::declarations::is;
use crate::parsing::parts::{after, before, parts_of};
use crate::parsing::pieces::add_net_pieces;
use crate::parsing::statements::inner;
use sdc_base::{List, NoMemory, Text};
use source_types::{Assign, Bit, Instance, Link, Links, VerilogToken};
use std::alloc::Global;

/// The bits of each ordered connection.
fn ordered_links<'a>(
    alloc: Global,
    names: &Names<'a>,
    parts: &[&'a [Token<'a>]],
) -> Result<List<List<Bit>>, NoMemory>
    requires { IsTied names.now }
    ensures { IfOk result (λ all. all ≡ map (nets.bits_of (declarations_of names.now)) (map syntax.pieces_of (parts_seen parts.now))) }
{
    let mut all = List::new(alloc);
    for part in parts {
        let bits = connected_bits(alloc, names, part)?;
        all.push(bits)?;
    }
    Ok(all)
}

/// Adds a named connection.
fn add_link<'a>(
    alloc: Global,
    names: &Names<'a>,
    part: &'a [Token<'a>],
    links: &mut List<Link>,
) -> Result<(), NoMemory>
    requires { IsTied names.now }
    ensures { OnOk result (links.new ≡ links.old ++ map (link_from (declarations_of names.now)) (grammar.named_one (tokens_seen part.now))) }
{
    match part {
        [_, port, rest @ ..] => {
            let port = Text::from_str(alloc, port.text)?;
            let bits = connected_bits(alloc, names, rest)?;
            links.push(Link { port, bits })?;
            Ok(())
        }
        _ => Ok(()),
    }
}

/// The named connections of parts.
#[tactic(auto, using(crate::proofs::LinkFacts::links_more))]
fn named_links<'a>(
    alloc: Global,
    names: &Names<'a>,
    parts: &[&'a [Token<'a>]],
) -> Result<List<Link>, NoMemory>
    requires { IsTied names.now }
    ensures { IfOk result (λ links. links ≡ map (link_from (declarations_of names.now)) (flat_map grammar.named_one (parts_seen parts.now))) }
{
    let mut links = List::new(alloc);
    for part in parts {
        add_link(alloc, names, part, &mut links)?;
    }
    Ok(links)
}

/// The connections of an instance, given the tokens in its parentheses.
fn links_of<'a>(
    alloc: Global,
    names: &Names<'a>,
    tokens: &'a [Token<'a>],
) -> Result<Links, NoMemory>
    requires { IsTied names.now }
    ensures { IfOk result (λ links. links ≡ nets.links_of (declarations_of names.now) (grammar.connections_of (tokens_seen tokens.now))) }
{
    let [first, ..] = tokens else {
        return Ok(Links::Ordered(List::new(alloc)));
    };
    let parts = parts_of(alloc, tokens)?;
    if is(VerilogToken::Dot, first) {
        let all = named_links(alloc, names, parts.as_slice())?;
        return Ok(Links::Named(all));
    }
    let all = ordered_links(alloc, names, parts.as_slice())?;
    Ok(Links::Ordered(all))
}

/// Adds an instance, given its kind and the tokens after that.
fn add_instance<'a>(
    alloc: Global,
    names: &Names<'a>,
    kind: &Token<'a>,
    part: &'a [Token<'a>],
    found: &mut List<Instance>,
) -> Result<(), NoMemory>
    requires { IsTied names.now }
    ensures { OnOk result (found.new ≡ found.old ++ map (nets.instance_from (declarations_of names.now)) (grammar.instance_of (token_seen kind.now) (tokens_seen part.now))) }
{
    match part {
        [name, _, rest @ ..] => {
            let links = links_of(alloc, names, inner(rest))?;
            let kind = Text::from_str(alloc, kind.text)?;
            let line = name.line;
            let name = Text::from_str(alloc, name.text)?;
            found.push(Instance {
                line,
                kind,
                name,
                links,
            })?;
            Ok(())
        }
        _ => Ok(()),
    }
}

/// Adds instances of a kind.
#[tactic(auto, using(crate::proofs::LinkFacts::instances_more))]
fn add_instances<'a>(
    alloc: Global,
    names: &Names<'a>,
    kind: &Token<'a>,
    parts: &[&'a [Token<'a>]],
    found: &mut List<Instance>,
) -> Result<(), NoMemory>
    requires { IsTied names.now }
    ensures { OnOk result (found.new ≡ found.old ++ map (nets.instance_from (declarations_of names.now)) (flat_map (grammar.instance_of (token_seen kind.now)) (parts_seen parts.now))) }
{
    for part in parts {
        add_instance(alloc, names, kind, part, found)?;
    }
    Ok(())
}

/// Adds the instances of a statement, if it has some.
fn add_instances_in<'a>(
    alloc: Global,
    names: &Names<'a>,
    statement: &'a [Token<'a>],
    found: &mut List<Instance>,
) -> Result<(), NoMemory>
    requires { IsTied names.now }
    ensures { OnOk result (found.new ≡ found.old ++ nets.instances_in (declarations_of names.now) (grammar.statement_of (tokens_seen statement.now))) }
{
    let [first, rest @ ..] = statement else {
        return Ok(());
    };
    match first.kind {
        VerilogToken::Name => {
            let parts = parts_of(alloc, rest)?;
            add_instances(alloc, names, first, parts.as_slice(), found)
        }
        VerilogToken::Assign => Ok(()),
        _ => Ok(()),
    }
}

/// The instances of statements.
pub fn instances_of<'a>(
    alloc: Global,
    names: &Names<'a>,
    statements: &[&'a [Token<'a>]],
) -> Result<List<Instance>, NoMemory>
    requires { IsTied names.now }
    ensures { IfOk result (λ found. found ≡ flat_map (nets.instances_in (declarations_of names.now)) (map grammar.statement_of (parts_seen statements.now))) }
{
    let mut found = List::new(alloc);
    for statement in statements {
        add_instances_in(alloc, names, statement, &mut found)?;
    }
    Ok(found)
}

/// An assignment.
fn assign_of<'a>(
    alloc: Global,
    names: &Names<'a>,
    part: &'a [Token<'a>],
) -> Result<Assign, NoMemory>
    requires { IsTied names.now }
    ensures { IfOk result (λ assign. assign ≡ nets.assign_from (declarations_of names.now) (grammar.sides_of (tokens_seen part.now))) }
{
    let mut pieces = Vec::new(alloc);
    add_net_pieces(before(VerilogToken::Equals, part), &mut pieces)?;
    let left = bits_of(alloc, names, pieces.as_slice())?;
    let right = connected_bits(alloc, names, after(VerilogToken::Equals, part))?;
    Ok(Assign { left, right })
}

/// Adds assignments.
fn add_assigns<'a>(
    alloc: Global,
    names: &Names<'a>,
    parts: &[&'a [Token<'a>]],
    found: &mut List<Assign>,
) -> Result<(), NoMemory>
    requires { IsTied names.now }
    ensures { OnOk result (found.new ≡ found.old ++ map (nets.assign_from (declarations_of names.now)) (map grammar.sides_of (parts_seen parts.now))) }
{
    for part in parts {
        let one = assign_of(alloc, names, part)?;
        found.push(one)?;
    }
    Ok(())
}

/// Adds the assignments of a statement, if it has some.
fn add_assigns_in<'a>(
    alloc: Global,
    names: &Names<'a>,
    statement: &'a [Token<'a>],
    found: &mut List<Assign>,
) -> Result<(), NoMemory>
    requires { IsTied names.now }
    ensures { OnOk result (found.new ≡ found.old ++ nets.assigns_in (declarations_of names.now) (grammar.statement_of (tokens_seen statement.now))) }
{
    let [first, rest @ ..] = statement else {
        return Ok(());
    };
    match first.kind {
        VerilogToken::Assign => {
            let parts = parts_of(alloc, rest)?;
            add_assigns(alloc, names, parts.as_slice(), found)
        }
        VerilogToken::Name => Ok(()),
        _ => Ok(()),
    }
}

/// The assignments of statements.
pub fn assigns_of<'a>(
    alloc: Global,
    names: &Names<'a>,
    statements: &[&'a [Token<'a>]],
) -> Result<List<Assign>, NoMemory>
    requires { IsTied names.now }
    ensures { IfOk result (λ found. found ≡ flat_map (nets.assigns_in (declarations_of names.now)) (map grammar.statement_of (parts_seen statements.now))) }
{
    let mut found = List::new(alloc);
    for statement in statements {
        add_assigns_in(alloc, names, statement, &mut found)?;
    }
    Ok(found)
}
