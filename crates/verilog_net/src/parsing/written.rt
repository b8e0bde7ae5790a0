//! Modules as they are written, before names are looked up (IEEE 1364-2005, module declarations).
//!
//! Each function here has want of memory as its one error.

ghost use Rattle.std.specs.Prelude.{◌≡◌, ◌++◌, ◌∷◌, [], map, IfOk, OnOk};
ghost use Rattle.std.specs.List.{flat_map};
ghost use Rattle.netlist_model.specs.VerilogStatements as grammar;
ghost use Rattle.verilog_net.specs.Modules.{written_seen};
ghost use Rattle.verilog_net.specs.Seen.{token_seen, tokens_seen};
ghost use Rattle.verilog_net.specs.Syntax.{declareds_seen, parts_seen};

use crate::lexing::tokens::Token;
use crate::parsing::declarations::{Declared, add_header_declares, add_header_lists, add_kind};
use crate::parsing::statements::add_declared_by;
use sdc_base::NoMemory;
use source_types::VerilogToken;
use std::alloc::Global;

/// A module as it is written: its name, the ports that its header declares and those that it only lists, the tokens of
/// each statement, and each `inout`.
#[derive(Drop)]
pub struct Written<'a> {
    pub name: Token<'a>,
    pub header: Vec<Declared<'a>>,
    pub listed: Vec<Token<'a>>,
    pub statements: Vec<&'a [Token<'a>]>,
    pub inouts: Vec<Token<'a>>,
}

/// The module of a name, given the tokens of its header, those of each statement, and all of its tokens.
pub fn module_after<'a>(
    alloc: Global,
    name: &Token<'a>,
    header: &'a [Token<'a>],
    statements: &[&'a [Token<'a>]],
    tokens: &'a [Token<'a>],
) -> Result<Written<'a>, NoMemory>
    ensures { IfOk result (λ m. written_seen m ∷ [] ≡ grammar.written_by ((token_seen name.now ∷ tokens_seen header.now) ∷ parts_seen statements.now) (tokens_seen tokens.now)) }
{
    let mut declared = Vec::new(alloc);
    add_header_declares(header, &mut declared)?;
    let mut listed = Vec::new(alloc);
    add_header_lists(header, &mut listed)?;
    let mut inouts = Vec::new(alloc);
    add_kind(VerilogToken::Inout, tokens, &mut inouts)?;
    let statements = Vec::from_slice(alloc, statements)?;
    Ok(Written {
        name: *name,
        header: declared,
        listed,
        statements,
        inouts,
    })
}

/// Adds what statements declare.
fn add_declarations<'a>(
    statements: &[&'a [Token<'a>]],
    found: &mut Vec<Declared<'a>>,
) -> Result<(), NoMemory>
    ensures { OnOk result (declareds_seen found.new.items ≡ declareds_seen found.old.items ++ flat_map grammar.declared_by (map grammar.statement_of (parts_seen statements.now))) }
{
    for statement in statements {
        add_declared_by(statement, found)?;
    }
    Ok(())
}

/// All that a module declares, in the order of the text.
pub fn declarations<'a>(alloc: Global, written: &Written<'a>) -> Result<Vec<Declared<'a>>, NoMemory>
    ensures { IfOk result (λ found. declareds_seen found.items ≡ grammar.declarations (written_seen written.now)) }
{
    let mut found = Vec::from_slice(alloc, written.header.as_slice())?;
    add_declarations(written.statements.as_slice(), &mut found)?;
    Ok(found)
}
