//! What tokens are by what stands before them.

ghost use Rattle.std.specs.Prelude.{◌≡◌, ◌<◌, ◌≤◌, ◌+◌, [], List, ℕ, IfOk, OnOk};
ghost use Rattle.netlist_model.specs.VerilogKinds as grammar;
ghost use Rattle.verilog_net.specs.Contexts.{HasNames, part_seen};
ghost use Rattle.verilog_net.specs.Seen.{tokens_seen};

use crate::lexing::tokens::Token;
use crate::syntax::name_sets::{NameSet, add_name, has_name, no_names};
use sdc_base::NoMemory;
use source_types::VerilogToken;
use std::alloc::Global;

/// The part of a module that a token stands in.
#[derive(Clone, Copy)]
pub enum Part {
    /// After `module`.
    Naming,
    /// In the header, after the module's name.
    Header,
    /// In or between statements.
    Statement,
    /// In a declaration of ports.
    Declaring,
}

/// The part after a name.
fn after_name(part: Part) -> Part
    ensures { part_seen result ≡ grammar.after_name (part_seen part) }
{
    match part {
        Part::Naming => Part::Header,
        Part::Header => Part::Header,
        Part::Statement => Part::Statement,
        Part::Declaring => Part::Declaring,
    }
}

/// The part after a semicolon.
fn after_semicolon(part: Part) -> Part
    ensures { part_seen result ≡ grammar.after_semicolon (part_seen part) }
{
    match part {
        Part::Naming => Part::Naming,
        Part::Header => Part::Statement,
        Part::Statement => Part::Statement,
        Part::Declaring => Part::Statement,
    }
}

/// The part after a direction.
fn after_direction(part: Part) -> Part
    ensures { part_seen result ≡ grammar.after_direction (part_seen part) }
{
    match part {
        Part::Naming => Part::Naming,
        Part::Header => Part::Header,
        Part::Statement => Part::Declaring,
        Part::Declaring => Part::Declaring,
    }
}

/// The part of a module after a kind of token.
fn part_after(part: Part, kind: VerilogToken) -> Part
    ensures { part_seen result ≡ grammar.part_after (part_seen part) kind }
{
    match kind {
        VerilogToken::Module => Part::Naming,
        VerilogToken::Name => after_name(part),
        VerilogToken::Semicolon => after_semicolon(part),
        VerilogToken::Input => after_direction(part),
        VerilogToken::Output => after_direction(part),
        VerilogToken::Inout => after_direction(part),
        _ => part,
    }
}

/// The names of a header after one more name, where it stands there. The one error is want of memory.
fn listed_name(alloc: Global, names: &mut NameSet, part: Part, name: &str) -> Result<(), NoMemory>
    ensures { OnOk result ((listed : List (List ℕ)) → HasNames names.old listed → HasNames names.new (grammar.with_name (part_seen part) listed name.now)) }
{
    match part {
        Part::Header => add_name(alloc, names, name),
        Part::Naming => Ok(()),
        Part::Statement => Ok(()),
        Part::Declaring => Ok(()),
    }
}

/// The names of a header after a kind of token with its text. The one error is want of memory.
///
/// A new set begins with each module: emptying one takes as long as it was ever large.
fn names_after(
    alloc: Global,
    names: &mut NameSet,
    part: Part,
    text: &str,
    kind: VerilogToken,
) -> Result<(), NoMemory>
    ensures { OnOk result ((listed : List (List ℕ)) → HasNames names.old listed → HasNames names.new (grammar.listed_after (part_seen part) listed text.now kind)) }
{
    match kind {
        VerilogToken::Module => {
            *names = no_names(alloc);
            Ok(())
        }
        VerilogToken::Name => listed_name(alloc, names, part, text),
        _ => Ok(()),
    }
}

/// The number of open braces after a kind of token.
fn braces_after(braces: usize, kind: VerilogToken) -> usize
    requires { braces < 18446744073709551615 }
    ensures is { result ≡ grammar.braces_after braces kind }
    ensures few { result ≤ braces + 1 }
{
    match kind {
        VerilogToken::OpenBrace => braces + 1,
        VerilogToken::CloseBrace => braces.saturating_sub(1),
        _ => braces,
    }
}

/// The kind of a name: in a declaration of ports, whether the header lists it.
fn name_kind(part: Part, names: &NameSet, name: &str) -> VerilogToken
    ensures { (listed : List (List ℕ)) → HasNames names.now listed → result ≡ grammar.name_kind (part_seen part) listed name.now }
{
    match part {
        Part::Declaring => declared_kind(names, name),
        Part::Naming => VerilogToken::Name,
        Part::Header => VerilogToken::Name,
        Part::Statement => VerilogToken::Name,
    }
}

/// The kind of a name in a declaration of ports.
fn declared_kind(names: &NameSet, name: &str) -> VerilogToken
    ensures { (listed : List (List ℕ)) → HasNames names.now listed → result ≡ grammar.name_kind grammar.declaring listed name.now }
{
    if has_name(names, name) {
        VerilogToken::Name
    } else {
        VerilogToken::UnlistedName
    }
}

/// The kind of an opening brace after so many that are open.
fn brace_kind(braces: usize) -> VerilogToken
    ensures { result ≡ grammar.brace_kind braces }
{
    if braces < 100 {
        VerilogToken::OpenBrace
    } else {
        VerilogToken::DeepBrace
    }
}

/// A kind of token with its text, by what stands before it.
fn kind_in(
    part: Part,
    names: &NameSet,
    braces: usize,
    text: &str,
    kind: VerilogToken,
) -> VerilogToken
    ensures { (listed : List (List ℕ)) → HasNames names.now listed → result ≡ grammar.kind_in (record { part = part_seen part; listed = listed; braces = braces }) text.now kind }
{
    match kind {
        VerilogToken::Name => name_kind(part, names, text),
        VerilogToken::OpenBrace => brace_kind(braces),
        _ => kind,
    }
}

/// The kinds of tokens in a row. The one error is want of memory.
#[tactic(auto, using(crate::proofs::KindFacts::no_kinds, crate::proofs::KindFacts::one_kind, crate::proofs::KindFacts::all_kinds))]
pub fn kinds_of(alloc: Global, tokens: &[Token<'_>]) -> Result<Vec<VerilogToken>, NoMemory>
    ensures { IfOk result (λ kinds. kinds.items ≡ grammar.kinds_of (tokens_seen tokens.now)) }
{
    let mut kinds = Vec::new(alloc);
    let mut part = Part::Statement;
    let mut names = no_names(alloc);
    let mut braces = 0;
    for token in tokens.iter() {
        kinds.push(kind_in(part, &names, braces, token.text, token.kind))?;
        names_after(alloc, &mut names, part, token.text, token.kind)?;
        part = part_after(part, token.kind);
        braces = braces_after(braces, token.kind);
    }
    Ok(kinds)
}
