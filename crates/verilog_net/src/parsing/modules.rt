//! The modules of a netlist's tokens (IEEE 1364-2005, source text), each with its declarations found by their names.
//!
//! Each function here has want of memory as its one error.

ghost use Rattle.std.specs.Prelude.{◌≡◌, ◌++◌, [], All, IfOk, OnOk, if◌then◌else◌};
ghost use Rattle.std.specs.List.{AllByRecursion, before_first};
ghost use Rattle.source_types.specs.declared.verilog_tokens.VerilogToken.TheVariants as kind;
ghost use Rattle.netlist_model.specs.VerilogStatements as grammar;
ghost use Rattle.netlist_model.specs.VerilogSyntax as syntax;
ghost use Rattle.verilog_net.specs.Names.{IsNamed, named_modules};
ghost use Rattle.verilog_net.specs.Seen.{token_seen, tokens_seen};

use crate::checking::names::{Named, names_of};
use crate::lexing::tokens::Token;
use crate::parsing::declarations::is;
use crate::parsing::parts::{before, cut};
use crate::parsing::written::module_after;
use sdc_base::NoMemory;
use source_types::VerilogToken;
use std::alloc::Global;

/// Adds the module that a token begins with those after it, if it is the keyword of one.
#[tactic(auto, using(crate::proofs::ModuleFacts::one_named))]
fn add_module<'a>(
    alloc: Global,
    keyword: &Token<'a>,
    rest: &'a [Token<'a>],
    found: &mut Vec<Named<'a>>,
) -> Result<(), NoMemory>
    ensures modules { OnOk result (named_modules found.new.items ≡ named_modules found.old.items ++ (if syntax.is kind.Module (token_seen keyword.now) then grammar.module_of (before_first (syntax.is kind.Module) (tokens_seen rest.now)) else [])) }
    ensures named { OnOk result (AllByRecursion IsNamed found.old.items → AllByRecursion IsNamed found.new.items) }
{
    if !is(VerilogToken::Module, keyword) {
        return Ok(());
    }
    let tokens = before(VerilogToken::Module, rest);
    let parts = cut(alloc, VerilogToken::Semicolon, tokens)?;
    let [front, statements @ ..] = parts.as_slice() else {
        return Ok(());
    };
    let [name, header @ ..] = front else {
        return Ok(());
    };
    let written = module_after(alloc, name, header, statements, tokens)?;
    let names = names_of(alloc, &written)?;
    found.push(Named { written, names })?;
    Ok(())
}

/// The modules of a netlist's tokens.
#[tactic(auto, using(crate::proofs::ModuleFacts::none_named, crate::proofs::ModuleFacts::all_named, crate::proofs::ModuleFacts::modules_are))]
pub fn modules_of<'a>(alloc: Global, tokens: &'a [Token<'a>]) -> Result<Vec<Named<'a>>, NoMemory>
    ensures modules { IfOk result (λ found. named_modules found.items ≡ grammar.modules_of (tokens_seen tokens.now)) }
    ensures named { IfOk result (λ found. All IsNamed found.items) }
{
    let mut found = Vec::new(alloc);
    for (at, token) in tokens.iter().enumerate() {
        add_module(alloc, token, &tokens[at + 1..], &mut found)?;
    }
    Ok(found)
}
