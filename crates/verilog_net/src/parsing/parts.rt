//! Tokens cut at marks.
//!
//! Each function here that may fail has want of memory as its one error.

ghost use Rattle.std.specs.Prelude.{◌≡◌, ◌≤◌, ◌<◌, ◌+◌, ◌-◌, ◌==◌, ◌&&◌, length, drop, take, IfOk};
ghost use Rattle.std.specs.List.{after_first, before_first, slice_split};
ghost use Rattle.source_types.specs.declared.verilog_tokens.VerilogToken.TheVariants as kind;
ghost use Rattle.netlist_model.specs.VerilogSyntax as grammar;
ghost use Rattle.verilog_net.specs.Seen.{token_seen, tokens_seen};
ghost use Rattle.verilog_net.specs.Syntax.{others_len, parts_seen};

use crate::lexing::tokens::Token;
use crate::parsing::declarations::is;
use sdc_base::NoMemory;
use source_types::VerilogToken;
use std::alloc::Global;

/// The number of tokens before the first one of a kind.
fn other_len(kind: VerilogToken, tokens: &[Token<'_>]) -> usize
    ensures count { result ≡ others_len kind tokens.now }
    ensures fits { result ≤ length tokens.now }
{
    tokens.iter().take_while(|token| !is(kind, token)).count()
}

/// The tokens before the first one of a kind, or all where there is none.
#[tactic(auto, using(crate::proofs::SliceFacts::before_taken))]
pub fn before<'a>(kind: VerilogToken, tokens: &'a [Token<'a>]) -> &'a [Token<'a>]
    ensures { tokens_seen result.now ≡ before_first (grammar.is kind) (tokens_seen tokens.now) }
{
    let len = other_len(kind, tokens);
    &tokens[..len]
}

/// The tokens after the first one of a kind, or none where there is none.
#[tactic(auto, using(crate::proofs::SliceFacts::after_taken, crate::proofs::SliceFacts::after_none))]
pub fn after<'a>(kind: VerilogToken, tokens: &'a [Token<'a>]) -> &'a [Token<'a>]
    ensures { tokens_seen result.now ≡ after_first (grammar.is kind) (tokens_seen tokens.now) }
{
    let len = other_len(kind, tokens);
    if len == tokens.len() {
        return &tokens[len..];
    }
    &tokens[len + 1..]
}

/// The tokens between two places.
fn between<'a>(tokens: &'a [Token<'a>], from: usize, to: usize) -> &'a [Token<'a>]
    requires forward { from ≤ to }
    requires within { to ≤ length tokens.now }
    ensures { result.now ≡ take (to - from) (drop from tokens.now) }
{
    &tokens[from..to]
}

/// What the tokens of a kind part.
#[tactic(auto, using(crate::proofs::CutFacts::cut_none, crate::proofs::CutFacts::cut_here, crate::proofs::CutFacts::cut_not_here, crate::proofs::CutFacts::cut_all))]
pub fn cut<'a>(
    alloc: Global,
    kind: VerilogToken,
    tokens: &'a [Token<'a>],
) -> Result<Vec<&'a [Token<'a>]>, NoMemory>
    ensures { IfOk result (λ parts. parts_seen parts.items ≡ slice_split (grammar.is kind) (tokens_seen tokens.now)) }
{
    let mut parts = Vec::new(alloc);
    let mut from = 0;
    for (at, token) in tokens.iter().enumerate() {
        if !is(kind, token) {
            continue;
        }
        parts.push(between(tokens, from, at))?;
        from = at + 1;
    }
    parts.push(between(tokens, from, tokens.len()))?;
    Ok(parts)
}

/// The depth of brackets after a token that stands at a depth.
fn depth_after(depth: usize, kind: VerilogToken) -> usize
    requires { depth < 18446744073709551615 }
    ensures is { result ≡ grammar.depth_after depth kind }
    ensures few { result ≤ depth + 1 }
{
    match kind {
        VerilogToken::Open => depth + 1,
        VerilogToken::OpenBrace => depth + 1,
        VerilogToken::Close => depth.saturating_sub(1),
        VerilogToken::CloseBrace => depth.saturating_sub(1),
        _ => depth,
    }
}

/// Whether a token at a depth of brackets is a comma outside all of them.
fn is_outer_comma(depth: usize, token: &Token<'_>) -> bool
    ensures { result ≡ (depth == 0 && grammar.is kind.Comma (token_seen token.now)) }
{
    depth == 0 && is(VerilogToken::Comma, token)
}

/// What commas outside all brackets part.
#[tactic(auto, using(crate::proofs::CutFacts::parts_none, crate::proofs::CutFacts::parts_here, crate::proofs::CutFacts::parts_not_here, crate::proofs::CutFacts::parts_all))]
pub fn parts_of<'a>(
    alloc: Global,
    tokens: &'a [Token<'a>],
) -> Result<Vec<&'a [Token<'a>]>, NoMemory>
    ensures { IfOk result (λ parts. parts_seen parts.items ≡ grammar.parts_of (tokens_seen tokens.now)) }
{
    let mut parts = Vec::new(alloc);
    let mut from = 0;
    let mut depth = 0;
    for (at, token) in tokens.iter().enumerate() {
        if is_outer_comma(depth, token) {
            parts.push(between(tokens, from, at))?;
            from = at + 1;
            continue;
        }
        depth = depth_after(depth, token.kind);
    }
    parts.push(between(tokens, from, tokens.len()))?;
    Ok(parts)
}
