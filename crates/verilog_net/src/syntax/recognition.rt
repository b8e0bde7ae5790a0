//! Whether tokens are a netlist, and else on which line their first syntax error is.

ghost use Rattle.std.specs.Prelude.{◌≡◌, IfOk, slice_get};
ghost use Rattle.netlist_model.specs.Verilog.{line_of};
ghost use Rattle.verilog_net.specs.Recognition.{ErrorIsOn};
ghost use Rattle.verilog_net.specs.Seen.{tokens_seen};

use crate::lexing::tokens::Token;
use crate::syntax::contexts::kinds_of;
use crate::syntax::grammar::Netlists;
use sdc_base::NoMemory;
use source_types::VerilogSymbol;
use std::alloc::Global;
use text_lines::last_line;
use token_grammar::{SyntaxError, first_error};

/// The line of the token at a place, and 1 where none stands there.
#[tactic(auto, using(crate::proofs::TokenFacts::seen_at))]
fn token_line(tokens: &[Token<'_>], place: usize) -> u32
    ensures { result ≡ line_of (slice_get (tokens_seen tokens.now) place) }
{
    match tokens.get(place) {
        Some(token) => token.line,
        None => 1,
    }
}

/// The line of the first syntax error in the tokens of a text, or `None` where they are a netlist: that of the
/// first token that no
/// netlist has after those before it, or of the last byte where the text ends too early. The one error is want of
/// memory.
#[tactic(auto, using(crate::proofs::ErrorFacts::error_is_on))]
pub fn broken_line(alloc: Global, text: &str, tokens: &[Token<'_>]) -> Result<Option<u32>, NoMemory>
    ensures { IfOk result (ErrorIsOn text.now (tokens_seen tokens.now)) }
{
    let kinds = kinds_of(alloc, tokens)?;
    match first_error::<Netlists>(alloc, VerilogSymbol::Source, kinds.as_slice())? {
        None => Ok(None),
        Some(SyntaxError::Token(place)) => Ok(Some(token_line(tokens, place))),
        Some(SyntaxError::End) => Ok(Some(last_line(text.as_bytes()))),
    }
}
