//! The bytes of a netlist, read.

ghost use Rattle.std.specs.Prelude.{◌≡◌, All};
ghost use Rattle.sdc_base.specs.Gives.{Gives, Meets};
ghost use Rattle.netlist_model.specs.Verilog.{ReadsVerilog, meant};
ghost use Rattle.netlist_model.specs.VerilogStatements as grammar;
ghost use Rattle.verilog_net.specs.Names.{IsNamed, named_modules};
ghost use Rattle.verilog_net.specs.Seen.{tokens_seen};

use crate::checking::faults::first_fault;
use crate::checking::names::Named;
use crate::lexing::netlist_text::netlist_tokens;
use crate::lexing::tokens::Token;
use crate::meaning::meant::meant_modules;
use crate::parsing::modules::modules_of;
use sdc_base::{At, List, Stop};
use source_types::{Module, VerilogKind};
use std::alloc::Global;

/// The modules of a file's bytes (IEEE 1364-2005, in the part of the language that is read here).
///
/// Refused as `NotText` with the line of the first byte that is no UTF-8; as `VerilogForm` with the line of the first
/// token that no netlist has after those before it, or of the last byte where the text ends too early; else with the
/// first of the other faults by their places in the text, on its line. What is read and what is refused is this
/// project's own rule.
#[tactic(auto, using(crate::proofs::ReadFacts::netlist_read))]
pub fn read_verilog(alloc: Global, bytes: &[u8]) -> Result<List<Module>, Stop<At<VerilogKind>>>
    ensures { Meets result (ReadsVerilog bytes.now) }
{
    let tokens = netlist_tokens(alloc, bytes)?;
    read_tokens(alloc, tokens.as_slice())
}

/// The modules of tokens that are a netlist of the grammar, or their first fault.
fn read_tokens<'a>(
    alloc: Global,
    tokens: &'a [Token<'a>],
) -> Result<List<Module>, Stop<At<VerilogKind>>>
    ensures { Gives result (meant (grammar.modules_of (tokens_seen tokens.now))) }
{
    let modules = modules_of(alloc, tokens)?;
    read_modules(alloc, modules.as_slice())
}

/// What modules mean, or their first fault.
#[tactic(auto, using(crate::proofs::ReadFacts::fault_meant, crate::proofs::ReadFacts::modules_meant))]
fn read_modules(alloc: Global, modules: &[Named<'_>]) -> Result<List<Module>, Stop<At<VerilogKind>>>
    requires { All IsNamed modules.now }
    ensures { Gives result (meant (named_modules modules.now)) }
{
    if let Some(wrong) = first_fault(alloc, modules)? {
        let line = wrong.token.line;
        let kind = wrong.kind;
        return Err(Stop::Refused(At { line, kind }));
    }
    let found = meant_modules(alloc, modules)?;
    Ok(found)
}
