//! The tokens of characters, one after the other.

ghost use Rattle.std.specs.Prelude.{◌≡◌, ◌<◌, ◌+◌, IfOk, length, get_or, drop};
ghost use Rattle.lib_cells.specs.Lexing.{AreLexed, AfterAt, QuotedAt, TokenAt};

use crate::scanning::rest::Rest;
use crate::scanning::scan::{bare_len, gap_len, is_bare_byte, quote_len};
use crate::scanning::tokens::{Form, Token};
use sdc_base::NoMemory;
use std::alloc::Global;

/// What stands at the front of characters: a token, with what is left after it; a quoted text that has no end; or the
/// end.
#[derive(Clone, Copy)]
pub enum Step<'a> {
    Found(Token<'a>, Rest<'a>),
    InQuotes(Token<'a>),
    End,
}

/// The quoted text whose first quote stands before some characters, given what parts it from the token before it and
/// the line of the quote.
#[tactic(auto, using(crate::proofs::LexFacts::quoted_ends, crate::proofs::LexFacts::quoted_found, crate::proofs::ScanFacts::quote_cuts, crate::proofs::ScanFacts::quote_end_cuts))]
fn quoted<'a>(gap: &'a str, line: u32, rest: Rest<'a>) -> Step<'a>
    ensures { QuotedAt gap.now line rest.entry.text.now rest.entry.lines.now result }
{
    let len = quote_len(rest.text.as_bytes());
    if len == rest.text.len() {
        let text = rest.text;
        return Step::InQuotes(Token {
            gap,
            line,
            form: Form::Quoted,
            text,
        });
    }
    let (text, _) = rest.split_at(len);
    let (_, after) = rest.split_at(len + 1);
    let token = Token {
        gap,
        line,
        form: Form::Quoted,
        text,
    };
    Step::Found(token, after)
}

/// The token that begins with the first of some characters, given what parts it from the one before it.
#[tactic(auto, using(crate::proofs::LexFacts::after_end, crate::proofs::LexFacts::after_quoted))]
fn token_after<'a>(gap: &'a str, rest: Rest<'a>) -> Step<'a>
    ensures { AfterAt gap.now rest.entry.text.now rest.entry.lines.now result }
{
    let line = rest.line();
    let [byte, ..] = rest.text.as_bytes() else {
        return Step::End;
    };
    if *byte == b'"' {
        let (_, after) = rest.split_at(1);
        return quoted(gap, line, after);
    }
    if is_bare_byte(0, *byte) {
        let (text, after) = rest.split_at(bare_len(rest.text.as_bytes()));
        let form = Form::Bare;
        return Step::Found(
            Token {
                gap,
                line,
                form,
                text,
            },
            after,
        );
    }
    let (text, after) = rest.split_at(1);
    let form = Form::Sign;
    Step::Found(
        Token {
            gap,
            line,
            form,
            text,
        },
        after,
    )
}

/// The token at the front of some characters.
#[tactic(auto, using(crate::proofs::ScanFacts::gap_cuts, crate::proofs::LexFacts::token_stands))]
fn token_at<'a>(rest: Rest<'a>) -> Step<'a>
    ensures { TokenAt rest.entry.text.now rest.entry.lines.now result }
{
    let (gap, after) = rest.split_at(gap_len(rest.text.as_bytes()));
    token_after(gap, after)
}

/// The tokens of a text, with one whose quotes have no end, and whether there is such a one.
#[derive(Drop)]
pub struct Lexed<'a> {
    pub tokens: Vec<Token<'a>>,
    pub unfinished: bool,
}

/// The tokens of characters, given as their bytes and the line of each. The one error is want of memory.
#[tactic(auto, using(crate::proofs::TokenRows::tokens_none, crate::proofs::TokenRows::tokens_more, crate::proofs::TokenRows::tokens_end, crate::proofs::TokenRows::tokens_in_quotes))]
pub fn lex<'a>(alloc: Global, text: &'a str, lines: &'a [u32]) -> Result<Lexed<'a>, NoMemory>
    ensures { IfOk result (λ lexed. AreLexed text.now lines.now lexed) }
{
    let mut tokens = Vec::new(alloc);
    let mut rest = Rest { text, lines };
    loop {
        match token_at(rest) {
            Step::Found(token, after) => {
                tokens.push(token)?;
                rest = after;
            }
            Step::InQuotes(token) => {
                tokens.push(token)?;
                return Ok(Lexed {
                    tokens,
                    unfinished: true,
                });
            }
            Step::End => {
                return Ok(Lexed {
                    tokens,
                    unfinished: false,
                });
            }
        }
    }
}
