//! What a group or an attribute of a library's text says by its own tokens (Liberty).

ghost use Rattle.std.specs.Prelude.{◌≡◌, ◌≤◌, ◌==◌, ◌||◌, length, not, IfOk};
ghost use Rattle.std.specs.List.{list_any, prefix_len};
ghost use Rattle.library_model.specs.LibertyGrammar.{sign_of};
ghost use Rattle.library_model.specs.LibertyStatements as liberty;
ghost use Rattle.lib_cells.specs.Said.{has_brace as is_brace_among, plain_texts};
ghost use Rattle.lib_cells.specs.Seen.{statement_seen, tokens_seen};
ghost use Rattle.lib_cells.specs.Spans.{goes_on, is_brace, stays_open};

use crate::scanning::tokens::Token;
use crate::syntax::statements::Statement;
use sdc_base::{List, NoMemory, Text};
use std::alloc::Global;

/// Whether it is a group of a name.
pub fn is_group(name: &str, statement: &Statement<'_>) -> bool
    ensures { result ≡ liberty.is_group name.now (statement_seen statement.now) }
{
    has_brace(statement.rest) && statement.name.text == name
}

/// Whether a `{` is among tokens.
#[tactic(auto, using(crate::proofs::SpanFacts::brace_seen))]
fn has_brace(tokens: &[Token<'_>]) -> bool
    ensures { result ≡ is_brace_among (tokens_seen tokens.now) }
{
    any_brace(tokens)
}

/// Whether a token is a `{`.
fn any_brace(tokens: &[Token<'_>]) -> bool
    ensures { result ≡ list_any is_brace tokens.now }
{
    tokens.iter().any(|token| token.sign() == b'{')
}

/// The number of tokens before the end of a value, `;` or `}`.
fn end_len(tokens: &[Token<'_>]) -> usize
    ensures count { result ≡ prefix_len goes_on tokens.now }
    ensures fits { result ≤ length tokens.now }
{
    tokens
        .iter()
        .take_while(|token| !ends_value(token.sign()))
        .count()
}

/// The tokens before the end of a value, `;` or `}`.
#[tactic(auto, using(crate::proofs::SpanFacts::end_taken))]
fn before_end<'a>(tokens: &'a [Token<'a>]) -> &'a [Token<'a>]
    ensures { tokens_seen result.now ≡ liberty.front_of (λ u. not (sign_of u == 59 || sign_of u == 125)) (tokens_seen tokens.now) }
{
    let len = end_len(tokens);
    &tokens[..len]
}

/// Whether a sign ends a value.
fn ends_value(sign: u8) -> bool
    ensures { result ≡ (sign == 59 || sign == 125) }
{
    sign == b';' || sign == b'}'
}

/// Whether a sign is `)`.
fn closes(sign: u8) -> bool
    ensures { result ≡ (sign == 41) }
{
    sign == b')'
}

/// The number of tokens before `)`.
fn parenthesis_len(tokens: &[Token<'_>]) -> usize
    ensures count { result ≡ prefix_len stays_open tokens.now }
    ensures fits { result ≤ length tokens.now }
{
    tokens
        .iter()
        .take_while(|token| !closes(token.sign()))
        .count()
}

/// The tokens before `)`.
#[tactic(auto, using(crate::proofs::SpanFacts::parenthesis_taken))]
fn before_parenthesis<'a>(tokens: &'a [Token<'a>]) -> &'a [Token<'a>]
    ensures { tokens_seen result.now ≡ liberty.front_of (λ t. not (sign_of t == 41)) (tokens_seen tokens.now) }
{
    let len = parenthesis_len(tokens);
    &tokens[..len]
}

/// The text of a value: of its tokens, with what stands between them. The one error is want of memory.
fn value_text(alloc: Global, tokens: &[Token<'_>]) -> Result<Text, NoMemory>
    ensures { IfOk result (λ text. text ≡ liberty.value_text (tokens_seen tokens.now)) }
{
    let mut text = Text::new(alloc);
    let [first, more @ ..] = tokens else {
        return Ok(text);
    };
    text.push_str(first.text)?;
    for token in more {
        text.push_str(token.gap)?;
        text.push_str(token.text)?;
    }
    Ok(text)
}

/// The value of a simple attribute, given the tokens after its name. The one error is want of memory.
fn value_in(alloc: Global, tokens: &[Token<'_>]) -> Result<Option<Text>, NoMemory>
    ensures { IfOk result (λ value. value ≡ liberty.value_in (tokens_seen tokens.now)) }
{
    let [colon, value @ ..] = tokens else {
        return Ok(None);
    };
    if colon.sign() != b':' {
        return Ok(None);
    }
    let text = value_text(alloc, before_end(value))?;
    Ok(Some(text))
}

/// The value of a simple attribute of a name. The one error is want of memory.
pub fn value_named(
    alloc: Global,
    name: &str,
    statement: &Statement<'_>,
) -> Result<Option<Text>, NoMemory>
    ensures { IfOk result (λ value. value ≡ liberty.value_named name.now (statement_seen statement.now)) }
{
    if statement.name.text == name {
        return value_in(alloc, statement.rest);
    }
    Ok(None)
}

/// The arguments of a group or of a complex attribute. The one error is want of memory.
pub fn arguments(alloc: Global, statement: &Statement<'_>) -> Result<List<Text>, NoMemory>
    ensures { IfOk result (λ texts. texts ≡ liberty.arguments (statement_seen statement.now)) }
{
    arguments_in(alloc, before_parenthesis(statement.rest))
}

/// The texts of the tokens that are no signs. The one error is want of memory.
fn arguments_in(alloc: Global, tokens: &[Token<'_>]) -> Result<List<Text>, NoMemory>
    ensures { IfOk result (λ texts. texts ≡ plain_texts (tokens_seen tokens.now)) }
{
    let mut texts = List::new(alloc);
    for token in tokens {
        if token.sign() == 0 {
            let text = Text::from_str(alloc, token.text)?;
            texts.push(text)?;
        }
    }
    Ok(texts)
}
