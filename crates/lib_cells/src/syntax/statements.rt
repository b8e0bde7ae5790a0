//! The groups and attributes of a library's text, in the order of the text.

ghost use Rattle.std.specs.Prelude.{◌≡◌, ◌<◌, ◌≤◌, ◌+◌, ◌-◌, ◌^◌, IfOk, length};
ghost use Rattle.library_model.specs.LibertyStatements.{begins as begins_at, first_place, parentheses_after as depth_after, place_after, statements_of};
ghost use Rattle.lib_cells.specs.Seen.{statements_seen, token_seen, tokens_seen};
ghost use Rattle.lib_cells.specs.Starts.{IsFew, IsStart, place_seen};

use crate::scanning::tokens::{Form, Token};
use crate::syntax::kinds::level_after;
use sdc_base::NoMemory;
use std::alloc::Global;

/// A group or an attribute: the number of groups around it, its number in the text, counted from 0, its name, and the
/// tokens after the name up to the next group or attribute.
#[derive(Clone, Copy)]
pub struct Statement<'a> {
    pub level: usize,
    pub number: usize,
    pub name: Token<'a>,
    pub rest: &'a [Token<'a>],
}

/// Where a token stands: after which sign, if it is one, in how many parentheses and groups, and after how many
/// statements.
#[derive(Clone, Copy)]
pub struct Place {
    pub sign: u8,
    pub parentheses: usize,
    pub level: usize,
    pub number: usize,
}

impl Place {
    /// Where the first token of a text stands.
    fn first() -> Place
        ensures { place_seen result ≡ first_place }
    {
        Place {
            sign: b';',
            parentheses: 0,
            level: 0,
            number: 0,
        }
    }

    /// Whether a token begins a group or an attribute here.
    fn begins(self, token: &Token<'_>) -> bool
        ensures { result ≡ begins_at (place_seen self) (token_seen token.now) }
    {
        token.form == Form::Bare
            && (self.sign == b';'
                || self.sign == b'{'
                || self.sign == b'}'
                || (token.is_first_on_line() && self.parentheses == 0 && self.sign != b':'))
    }

    /// Where the token after one stands.
    fn after(self, token: &Token<'_>) -> Place
        requires parentheses { self.parentheses ≤ 2 ^ 64 - 2 }
        requires level { self.level ≤ 2 ^ 64 - 2 }
        requires number { self.number ≤ 2 ^ 64 - 2 }
        ensures { place_seen result ≡ place_after (place_seen self) (token_seen token.now) }
    {
        Place {
            sign: token.sign(),
            parentheses: parentheses_after(token, self.parentheses),
            level: level_after(token, self.level),
            number: number_after(self, token),
        }
    }
}

/// The number of parentheses that are open after a token.
fn parentheses_after(token: &Token<'_>, parentheses: usize) -> usize
    requires { parentheses ≤ 2 ^ 64 - 2 }
    ensures { result ≡ depth_after (token_seen token.now) parentheses }
{
    match token.sign() {
        b'(' => parentheses + 1,
        b')' => parentheses.saturating_sub(1),
        _ => parentheses,
    }
}

/// The number of statements that begin before the token after one.
fn number_after(place: Place, token: &Token<'_>) -> usize
    requires { place.number ≤ 2 ^ 64 - 2 }
    ensures { result ≡ (place_after (place_seen place) (token_seen token.now)).number }
{
    if place.begins(token) {
        return place.number + 1;
    }
    place.number
}

/// Where a statement begins: the place of its name among the tokens, counted from 0, or their number where none
/// begins.
#[derive(Clone, Copy)]
pub struct Start {
    pub at: usize,
    pub place: Place,
}

/// The first statement that begins at a place among tokens or after it.
#[tactic(auto, using(crate::proofs::StartFacts::start_none, crate::proofs::StartFacts::start_found, crate::proofs::StartFacts::start_all))]
fn next_start(tokens: &[Token<'_>], from: usize, place: Place) -> Start
    requires within { from ≤ length tokens.now }
    requires few { IsFew (place_seen place) from }
    ensures { IsStart tokens.now from (place_seen place) result }
{
    let mut start = Start { at: from, place };
    while start.at < tokens.len() {
        let token = &tokens[start.at];
        if start.place.begins(token) {
            return start;
        }
        start = Start {
            at: start.at + 1,
            place: start.place.after(token),
        };
    }
    start
}

/// The groups and attributes of tokens, in order. The one error is want of memory.
#[tactic(auto, using(crate::proofs::StatementFacts::statements_none, crate::proofs::StatementFacts::statements_more, crate::proofs::StatementFacts::statements_all))]
pub fn statements<'a>(
    alloc: Global,
    tokens: &'a [Token<'a>],
) -> Result<Vec<Statement<'a>>, NoMemory>
    ensures { IfOk result (λ found. statements_seen found.items ≡ statements_of (tokens_seen tokens.now)) }
{
    let mut found = Vec::new(alloc);
    let mut start = next_start(tokens, 0, Place::first());
    while start.at < tokens.len() {
        let name = tokens[start.at];
        let next = next_start(tokens, start.at + 1, start.place.after(&name));
        let rest = &tokens[start.at + 1..next.at];
        found.push(Statement {
            level: start.place.level,
            number: start.place.number,
            name,
            rest,
        })?;
        start = next;
    }
    Ok(found)
}
