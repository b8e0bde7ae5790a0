//! The kinds of tokens, as the grammar tells them apart.

ghost use Rattle.std.specs.Prelude.{◌≡◌, ◌≤◌, ◌-◌, ◌^◌, IfOk};
ghost use Rattle.library_model.specs.LibertyGrammar.{bare_kind as kind_of_bare, gap_of as gap_kind, kind_of_form, kinds as kinds_from, level_after as depth_after, sign_kind as kind_of_sign};
ghost use Rattle.source_types.specs.declared.liberty_tokens.Gap.TheVariants as gap;
ghost use Rattle.lib_cells.specs.Seen.{form_seen, token_seen, tokens_seen};

use crate::scanning::tokens::{Form, Token, ends_line};
use sdc_base::NoMemory;
use source_types::{Gap, LibertyToken};
use std::alloc::Global;

/// The most groups that stand in one another.
const MOST_LEVELS: usize = 100;

/// What parts a token from the one before it, given the text that does.
#[tactic(auto, using(crate::proofs::KindFacts::gap_blanks, crate::proofs::KindFacts::gap_line, crate::proofs::KindFacts::gap_nothing))]
fn gap_of(gap: &str) -> Gap
    ensures { result ≡ gap_kind gap.now }
{
    if ends_line(gap) {
        return Gap::LineEnd;
    }
    if gap.len() == 0 {
        return Gap::Nothing;
    }
    Gap::Blanks
}

/// The kind of a sign by its byte, after which so many groups are open.
fn sign_kind(level: usize, gap: Gap, byte: u8) -> LibertyToken
    ensures { result ≡ kind_of_sign level gap byte }
{
    match byte {
        b'(' => LibertyToken::Open(gap),
        b')' => LibertyToken::Close,
        b'{' => begin_kind(level),
        b'}' => LibertyToken::End,
        b';' => LibertyToken::Semicolon,
        b',' => LibertyToken::Comma,
        _ => LibertyToken::Colon,
    }
}

/// The kind of `{` in so many groups.
fn begin_kind(level: usize) -> LibertyToken
    ensures { result ≡ kind_of_sign level gap.Nothing 123 }
{
    if level < MOST_LEVELS {
        return LibertyToken::Begin;
    }
    LibertyToken::TooDeep
}

/// The kind of a name or number.
fn bare_kind(gap: Gap, text: &str) -> LibertyToken
    ensures { result ≡ kind_of_bare gap text.now }
{
    if text == "library" {
        return LibertyToken::Library(gap);
    }
    LibertyToken::Word(gap)
}

/// The kind of a token in so many groups.
fn kind_of(level: usize, token: &Token<'_>) -> LibertyToken
    ensures { result ≡ kind_of_form (form_seen token.now.form) level (gap_kind token.now.gap.now) token.now.text.now }
{
    let gap = gap_of(token.gap);
    match token.form {
        Form::Bare => bare_kind(gap, token.text),
        Form::Quoted => LibertyToken::Quoted(gap),
        Form::Sign => sign_kind(level, gap, token.sign()),
    }
}

/// The number of groups that are open after a token.
pub fn level_after(token: &Token<'_>, level: usize) -> usize
    requires { level ≤ 2 ^ 64 - 2 }
    ensures { result ≡ depth_after (token_seen token.now) level }
{
    match token.sign() {
        b'{' => level + 1,
        b'}' => level.saturating_sub(1),
        _ => level,
    }
}

/// The kinds of tokens. The one error is want of memory.
#[tactic(auto, using(crate::proofs::KindFacts::kinds_none, crate::proofs::KindFacts::kinds_more, crate::proofs::KindFacts::kinds_all))]
pub fn kinds(alloc: Global, tokens: &[Token<'_>]) -> Result<Vec<LibertyToken>, NoMemory>
    ensures { IfOk result (λ found. found.items ≡ kinds_from 0 (tokens_seen tokens.now)) }
{
    let mut found = Vec::new(alloc);
    let mut level = 0;
    for token in tokens {
        found.push(kind_of(level, token))?;
        level = level_after(token, level);
    }
    Ok(found)
}
