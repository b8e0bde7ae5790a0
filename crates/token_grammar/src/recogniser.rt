//! The first syntax error in a text of tokens.

ghost use Rattle.std.specs.Prelude.{◌≡◌, IfOk};
ghost use Rattle.token_grammar.specs.Machine.{error_of};
ghost use Rattle.token_grammar.specs.Texts.{ErrorIs};

use crate::grammar::{Grammar, SyntaxError};
use crate::stack::{advance, may_end};
use sdc_base::NoMemory;
use std::alloc::Global;

/// What the stack machine finds in tokens that are to be a text of a symbol.
fn machine_error<G: Grammar>(
    alloc: Global,
    start: G::Symbol,
    kinds: &[G::Kind],
) -> Result<Option<SyntaxError>, NoMemory>
    ensures { IfOk result (λ found. found ≡ error_of G.table start kinds.now) }
{
    let mut stack = Vec::new(alloc);
    stack.push(start)?;
    for (place, kind) in kinds.iter().enumerate() {
        if !advance::<G>(&mut stack, *kind)? {
            return Ok(Some(SyntaxError::Token(place)));
        }
    }
    if may_end::<G>(&stack) {
        Ok(None)
    } else {
        Ok(Some(SyntaxError::End))
    }
}

/// The first syntax error in tokens that are to be a text of a symbol, or nothing where they are one.
///
/// It is one pass over the tokens, and takes memory for the symbols that are to come alone.
#[tactic(auto, using(crate::proofs::Ends::found_error))]
pub fn first_error<G: Grammar>(
    alloc: Global,
    start: G::Symbol,
    kinds: &[G::Kind],
) -> Result<Option<SyntaxError>, NoMemory>
    ensures error_is { IfOk result (ErrorIs G.table start kinds.now) }
    ensures is { IfOk result (λ found. found ≡ error_of G.table start kinds.now) }
{
    machine_error::<G>(alloc, start, kinds)
}
