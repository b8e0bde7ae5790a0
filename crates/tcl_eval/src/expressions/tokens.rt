//! The tokens of an expression (Tcl).

ghost use Rattle.std.specs.Prelude.{◌≡◌, ◌<◌, ◌≤◌, ◌+◌, length, drop, slice_index};
ghost use Rattle.std.specs.Str.{IsCharBoundary};
ghost use Rattle.sdc_base.specs.Gives.{Meets};
ghost use Rattle.tcl_model.specs.ExpressionTokens as grammar;
ghost use Rattle.tcl_words.specs.Spans.{LeadsTo};
ghost use Rattle.tcl_eval.specs.Lexing.{word_token, LexedAt, TokenFrom};

use crate::expressions::lexed::Lexed;
use crate::expressions::numbers::number_at;
use crate::expressions::operators::operator_at;
use sdc_base::Stop;
use source_types::{ExpressionToken, TclKind};
use std::alloc::Global;
use tcl_words::{
    Spelled, braced_operand, continues, is_space, quoted_operand, script_operand, variable_operand,
};

/// Whether what stands at a place is passed over before a token: a blank, a newline, or the backslash of a continued
/// line.
fn is_passed(bytes: &[u8], at: usize) -> bool
    requires { at < length bytes.now }
    ensures { result ≡ grammar.is_passed (slice_index bytes.now at) (drop (at + 1) bytes.now) }
{
    let byte = bytes[at];
    is_space(byte) || byte == b'\n' || (byte == b'\\' && continues(bytes, at + 1))
}

/// The place where the first token at or after a place begins, or the end of the text.
#[tactic(auto, using(crate::proofs::TokenFacts::passed_none, crate::proofs::TokenFacts::passed_more, crate::proofs::TokenFacts::passed_token, crate::proofs::TokenFacts::passed_all))]
fn token_start(bytes: &[u8], from: usize) -> usize
    requires { from ≤ length bytes.now }
    ensures { LeadsTo bytes.now from result (grammar.from_token (drop from bytes.now)) }
{
    let mut at = from;
    while at < bytes.len() && is_passed(bytes, at) {
        at += 1;
    }
    at
}

/// The first token at or after a place of an expression, and where it ends; `None` at the end of the text. Refused as
/// `BadExpr` where no token stands.
#[tactic(auto, using(crate::proofs::TokenFacts::token_end, crate::proofs::TokenFacts::token_found))]
pub fn token_at(alloc: Global, text: &str, from: usize) -> Result<Option<Lexed>, Stop<TclKind>>
    requires within { from ≤ length text.now }
    requires boundary { IsCharBoundary text.now from }
    ensures { Meets result (TokenFrom text.now from) }
{
    let at = token_start(text.as_bytes(), from);
    if at == text.len() {
        return Ok(None);
    }
    let lexed = begun_at(alloc, text, at)?;
    Ok(Some(lexed))
}

/// The token that begins at a place. Refused as `BadExpr` where none does.
#[tactic(auto, using(crate::proofs::TokenFacts::brace_begins, crate::proofs::TokenFacts::quote_begins, crate::proofs::TokenFacts::dollar_begins, crate::proofs::TokenFacts::bracket_begins, crate::proofs::TokenFacts::number_begins, crate::proofs::TokenFacts::other_begins))]
fn begun_at(alloc: Global, text: &str, at: usize) -> Result<Lexed, Stop<TclKind>>
    requires within { at < length text.now }
    requires boundary { IsCharBoundary text.now at }
    ensures { Meets result (LexedAt (grammar.IsTokenOf (grammar.lexeme (drop at text.now)) (drop at text.now)) text.now at) }
{
    let byte = text.as_bytes()[at];
    if byte == b'{' {
        return word(braced_operand(alloc, text, at));
    }
    if byte == b'"' {
        return word(quoted_operand(alloc, text, at));
    }
    if byte == b'$' {
        return word(variable_operand(alloc, text, at));
    }
    if byte == b'[' {
        return word(script_operand(alloc, text, at));
    }
    if byte.is_ascii_digit() || byte == b'.' {
        return number_at(text, at).map_err(Stop::Refused);
    }
    operator_at(text.as_bytes(), at).map_err(Stop::Refused)
}

/// The token of a word.
fn word(operand: Result<Spelled, Stop<TclKind>>) -> Result<Lexed, Stop<TclKind>>
    ensures { result ≡ word_token operand }
{
    match operand {
        Ok(Spelled { word, end }) => Ok(Lexed {
            token: ExpressionToken::Word(word),
            end,
        }),
        Err(stop) => Err(stop),
    }
}
