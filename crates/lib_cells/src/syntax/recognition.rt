//! Whether tokens are a library's text, and else the line of their first syntax error.

ghost use Rattle.std.specs.Prelude.{◌≡◌, IfOk};
ghost use Rattle.library_model.specs.LibertyGrammar.{formed, line_at as line_of_token};
ghost use Rattle.lib_cells.specs.Recognition.{HasError, outcome_of};
ghost use Rattle.lib_cells.specs.Seen.{tokens_seen};

use crate::scanning::tokens::Token;
use crate::syntax::grammar::Liberty;
use crate::syntax::kinds::kinds;
use sdc_base::NoMemory;
use source_types::LibertySymbol;
use std::alloc::Global;
use text_lines::last_line;
use token_grammar::{SyntaxError, first_error};

/// The line of the token at a place, and 1 where there is none.
fn line_at(tokens: &[Token<'_>], place: usize) -> u32
    ensures { result ≡ line_of_token (tokens_seen tokens.now) place }
{
    if place < tokens.len() {
        return tokens[place].line;
    }
    1
}

/// The line of the first syntax error of a text, given its tokens, whether one of them or a comment has no end, and where
/// that error is.
fn line_of_error(
    text: &[u8],
    tokens: &[Token<'_>],
    unfinished: bool,
    place: Option<SyntaxError>,
) -> Option<u32>
    ensures { outcome_of (tokens_seen tokens.now) result ≡ formed text.now (tokens_seen tokens.now) unfinished place }
{
    match place {
        Some(SyntaxError::Token(place)) => Some(line_at(tokens, place)),
        Some(SyntaxError::End) => Some(last_line(text)),
        None => {
            if unfinished {
                return Some(last_line(text));
            }
            None
        }
    }
}

/// The line of the first syntax error of a text, or nothing where it is one of the grammar, given its tokens, and
/// whether one of them
/// or a comment has no end. The one error is want of memory.
#[tactic(auto, using(crate::proofs::RecognitionFacts::has_error))]
pub fn broken_line(
    alloc: Global,
    text: &[u8],
    tokens: &[Token<'_>],
    unfinished: bool,
) -> Result<Option<u32>, NoMemory>
    ensures { IfOk result (λ line. HasError text.now (tokens_seen tokens.now) unfinished line) }
{
    let kinds = kinds(alloc, tokens)?;
    let place = first_error::<Liberty>(alloc, LibertySymbol::Libraries, kinds.as_slice())?;
    Ok(line_of_error(text, tokens, unfinished, place))
}
