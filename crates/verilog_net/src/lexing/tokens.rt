//! The tokens of a text in a row.

ghost use Rattle.std.specs.Prelude.{◌≡◌, ◌<◌, ◌≤◌, Some, drop, length, IfOk, IfSome};
ghost use Rattle.netlist_model.specs.VerilogTokens as grammar;
ghost use Rattle.verilog_net.specs.Seen.{front_seen, place_seen, tokens_seen};

use crate::lexing::gaps::gap_end;
use crate::lexing::lexed::token_after;
use sdc_base::NoMemory;
use source_types::VerilogToken;
use std::alloc::Global;
use text_lines::line_at;

/// A token: the place of its first byte, its line, counted from 1, its kind, and its text: of an escaped name without
/// the backslash, of a base its letter.
#[derive(Clone, Copy)]
pub struct Token<'a> {
    pub at: usize,
    pub line: u32,
    pub kind: VerilogToken,
    pub text: &'a str,
}

/// A place between tokens, its line, and the small letter of a base right before it.
#[derive(Clone, Copy)]
pub struct Place {
    pub at: usize,
    pub line: u32,
    pub base: Option<u8>,
}

/// A comment or an attribute that has no end, after a place: a token on the line of the last byte.
#[tactic(auto, using(crate::proofs::TokenFacts::unclosed_front))]
fn unclosed(text: &str, place: Place) -> (Token<'_>, Place)
    requires within { place.at < length text.now }
    ensures is { front_seen text.now (Some result) ≡ grammar.unclosed (place_seen text.now place) }
    ensures end { result.1.at ≡ length text.now }
{
    let bytes = text.as_bytes();
    let token = Token {
        at: place.at,
        line: line_at(bytes, place.at, bytes.len() - 1, place.line),
        kind: VerilogToken::Other,
        text: "",
    };
    let after = Place {
        at: bytes.len(),
        line: line_at(bytes, place.at, bytes.len(), place.line),
        base: None,
    };
    (token, after)
}

/// The token that begins at a place after another one.
#[tactic(auto, using(crate::proofs::TokenFacts::token_front, crate::proofs::TokenFacts::lexed_within, crate::proofs::TokenFacts::lexed_further))]
fn token_at(text: &str, place: Place, begin: usize) -> (Token<'_>, Place)
    requires forward { place.at ≤ begin }
    requires within { begin < length text.now }
    ensures is { front_seen text.now (Some result) ≡ grammar.front_after (place_seen text.now place) (Some (drop begin text.now)) }
    ensures further { place.at < result.1.at }
    ensures within { result.1.at ≤ length text.now }
{
    let bytes = text.as_bytes();
    let line = line_at(bytes, place.at, begin, place.line);
    let lexed = token_after(text, begin, place.base);
    let token = Token {
        at: begin,
        line,
        kind: lexed.kind,
        text: lexed.text,
    };
    let after = Place {
        at: lexed.next,
        line: line_at(bytes, begin, lexed.next, line),
        base: lexed.base,
    };
    (token, after)
}

/// The first token at or after a place with the place after it, or `None` at the end of the text. A comment or an
/// attribute that has no end counts as a token that no netlist has.
#[tactic(auto, using(crate::proofs::TokenFacts::no_front, crate::proofs::TokenFacts::unclosed_within, crate::proofs::TokenFacts::found_front, crate::proofs::TokenFacts::unclosed_found))]
fn next_token(text: &str, place: Place) -> Option<(Token<'_>, Place)>
    requires { place.at ≤ length text.now }
    ensures is { front_seen text.now result ≡ grammar.token_at (place_seen text.now place) }
    ensures further { IfSome result (λ step. place.at < step.1.at) }
    ensures within { IfSome result (λ step. step.1.at ≤ length text.now) }
{
    let Some(begin) = gap_end(text.as_bytes(), place.at) else {
        return Some(unclosed(text, place));
    };
    if begin == text.len() {
        return None;
    }
    Some(token_at(text, place, begin))
}

/// The tokens of a text, in order. The one error is want of memory.
#[tactic(auto, using(crate::proofs::TokenFacts::first_read, crate::proofs::TokenFacts::one_more, crate::proofs::TokenFacts::all_read))]
pub fn tokens_of(alloc: Global, text: &str) -> Result<Vec<Token<'_>>, NoMemory>
    ensures { IfOk result (λ tokens. grammar.AreTokens text.now (tokens_seen tokens.items)) }
{
    let mut tokens = Vec::new(alloc);
    let mut place = Place {
        at: 0,
        line: 1,
        base: None,
    };
    while let Some((token, next)) = next_token(text, place) {
        tokens.push(token)?;
        place = next;
    }
    Ok(tokens)
}
