//! What tokens declare, before names are looked up (IEEE 1364-2005, declarations of ports and nets).
//!
//! Each function here that may fail has want of memory as its one error.

ghost use Rattle.std.specs.Prelude.{◌≡◌, ◌≤◌, ◌++◌, ◌∷◌, [], length, map, true, IfOk, OnErr, OnOk, if◌then◌else◌};
ghost use Rattle.std.specs.List.{before_first, filter, list_any, prefix_len};
ghost use Rattle.std.specs.Option.{option_map};
ghost use Rattle.source_types.specs.declared.verilog_tokens.VerilogToken.TheVariants as kind;
ghost use Rattle.netlist_model.specs.VerilogConstants as digits;
ghost use Rattle.netlist_model.specs.VerilogSyntax as grammar;
ghost use Rattle.netlist_model.specs.VerilogTokens as lexical;
ghost use Rattle.verilog_net.specs.Seen.{token_seen, tokens_seen};
ghost use Rattle.verilog_net.specs.Syntax.{declareds_seen, directions_len, is_direction_seen, is_long, is_long_bound, role_seen};

use crate::lexing::numbers::number_of;
use crate::lexing::tokens::Token;
use crate::syntax::kind_numbers::same_kind;
use pin_types::Direction;
use sdc_base::NoMemory;
use source_types::{Range, VerilogToken};

/// What a name is declared as.
#[derive(Clone, Copy)]
pub enum Role {
    /// A port of a direction.
    Port(Direction),
    Wire,
    /// A net that is tied to a value.
    Tied(bool),
}

/// A name that is declared, by its token.
#[derive(Clone, Copy)]
pub struct Declared<'a> {
    pub name: Token<'a>,
    pub role: Role,
    pub range: Option<Range>,
}

/// The role that a keyword begins.
fn role_of(kind: VerilogToken) -> Option<Role>
    ensures { option_map role_seen result ≡ grammar.role_of kind }
{
    match kind {
        VerilogToken::Input => Some(Role::Port(Direction::Input)),
        VerilogToken::Output => Some(Role::Port(Direction::Output)),
        VerilogToken::Inout => Some(Role::Port(Direction::Other)),
        VerilogToken::Wire => Some(Role::Wire),
        VerilogToken::Tri => Some(Role::Wire),
        VerilogToken::Supply0 => Some(Role::Tied(false)),
        VerilogToken::Supply1 => Some(Role::Tied(true)),
        _ => None,
    }
}

/// Whether a token is of a kind.
pub fn is(kind: VerilogToken, token: &Token<'_>) -> bool
    ensures { result ≡ grammar.is kind (token_seen token.now) }
{
    same_kind(kind, token.kind)
}

/// Whether a token is a direction.
pub fn is_direction(token: &Token<'_>) -> bool
    ensures { result ≡ grammar.is_direction (token_seen token.now) }
{
    is(VerilogToken::Input, token)
        || is(VerilogToken::Output, token)
        || is(VerilogToken::Inout, token)
}

/// Whether a token is a number that a range may have.
fn is_bound(token: &Token<'_>) -> bool
    ensures { result ≡ grammar.is_bound (token_seen token.now) }
{
    is(VerilogToken::Size, token) || is(VerilogToken::Number, token)
}

/// The number that a token spells.
///
/// The grammar has none above 999,999 where this is asked for, so that 32 bits hold it. No memory is taken: the one
/// error, want of memory, is the answer where the number passes them, and nowhere else.
#[tactic(auto, using(crate::proofs::NumberFacts::long_number))]
pub fn number(token: &Token<'_>) -> Result<u32, NoMemory>
    ensures is { IfOk result (λ number. number ≡ digits.number_of token.now.text.now) }
    ensures limit { OnErr result (is_long token.now ≡ true) }
{
    match number_of(token.text.as_bytes()) {
        Some(number) => Ok(number),
        None => Err(NoMemory),
    }
}

/// The range of a declaration: its first two numbers, or `None` where there are none. The one error is the answer
/// where a number passes 32 bits.
#[tactic(auto, using(crate::proofs::NumberFacts::long_bound_at))]
fn range_of(tokens: &[Token<'_>]) -> Result<Option<Range>, NoMemory>
    ensures is { IfOk result (λ range. range ≡ grammar.range_of (filter grammar.is_bound (tokens_seen tokens.now))) }
    ensures limit { OnErr result (list_any is_long_bound tokens.now ≡ true) }
{
    let mut left = None;
    for token in tokens {
        if !is_bound(token) {
            continue;
        }
        let bound = number(token)?;
        if let Some(left) = left {
            return Ok(Some(Range { left, right: bound }));
        }
        left = Some(bound);
    }
    Ok(None)
}

/// Adds the names among tokens as declared in a role with a range.
fn add_names<'a>(
    role: Role,
    range: Option<Range>,
    tokens: &'a [Token<'a>],
    found: &mut Vec<Declared<'a>>,
) -> Result<(), NoMemory>
    ensures { OnOk result (declareds_seen found.new.items ≡ declareds_seen found.old.items ++ map (λ (name : lexical.Token). record { name = name; role = role_seen role; range = range }) (filter (grammar.is kind.Name) (tokens_seen tokens.now))) }
{
    for name in tokens {
        if is(VerilogToken::Name, name) {
            found.push(Declared {
                name: *name,
                role,
                range,
            })?;
        }
    }
    Ok(())
}

/// Adds what tokens declare after a keyword: each of their names, with their range.
fn add_declared<'a>(
    role: Role,
    tokens: &'a [Token<'a>],
    found: &mut Vec<Declared<'a>>,
) -> Result<(), NoMemory>
    ensures { OnOk result (declareds_seen found.new.items ≡ declareds_seen found.old.items ++ grammar.declared_as (role_seen role) (tokens_seen tokens.now)) }
{
    let range = range_of(tokens)?;
    add_names(role, range, tokens, found)
}

/// Adds what tokens declare after a keyword, if it is one that declares.
fn add_after<'a>(
    keyword: &Token<'a>,
    tokens: &'a [Token<'a>],
    found: &mut Vec<Declared<'a>>,
) -> Result<(), NoMemory>
    ensures { OnOk result (declareds_seen found.new.items ≡ declareds_seen found.old.items ++ grammar.statement_declares (token_seen keyword.now ∷ tokens_seen tokens.now)) }
{
    match role_of(keyword.kind) {
        Some(role) => add_declared(role, tokens, found),
        None => Ok(()),
    }
}

/// Adds what a statement declares.
pub fn add_statement_declares<'a>(
    tokens: &'a [Token<'a>],
    found: &mut Vec<Declared<'a>>,
) -> Result<(), NoMemory>
    ensures { OnOk result (declareds_seen found.new.items ≡ declareds_seen found.old.items ++ grammar.statement_declares (tokens_seen tokens.now)) }
{
    match tokens {
        [keyword, rest @ ..] => add_after(keyword, rest, found),
        [] => Ok(()),
    }
}

/// The number of tokens before the first direction.
fn direction_len(tokens: &[Token<'_>]) -> usize
    ensures count { result ≡ directions_len tokens.now }
    ensures fits { result ≤ length tokens.now }
{
    tokens
        .iter()
        .take_while(|token| !is_direction(token))
        .count()
}

/// The tokens before the first direction.
#[tactic(auto, using(crate::proofs::SliceFacts::direction_taken))]
fn before_direction<'a>(tokens: &'a [Token<'a>]) -> &'a [Token<'a>]
    ensures { tokens_seen result.now ≡ before_first grammar.is_direction (tokens_seen tokens.now) }
{
    let len = direction_len(tokens);
    &tokens[..len]
}

/// Adds what a token and those after it declare in a header, if the token is a direction.
fn add_port<'a>(
    token: &Token<'a>,
    rest: &'a [Token<'a>],
    found: &mut Vec<Declared<'a>>,
) -> Result<(), NoMemory>
    ensures { OnOk result (declareds_seen found.new.items ≡ declareds_seen found.old.items ++ (if grammar.is_direction (token_seen token.now) then grammar.statement_declares (token_seen token.now ∷ before_first grammar.is_direction (tokens_seen rest.now)) else [])) }
{
    if !is_direction(token) {
        return Ok(());
    }
    add_after(token, before_direction(rest), found)
}

/// Adds what a header declares.
pub fn add_header_declares<'a>(
    tokens: &'a [Token<'a>],
    found: &mut Vec<Declared<'a>>,
) -> Result<(), NoMemory>
    ensures { OnOk result (declareds_seen found.new.items ≡ declareds_seen found.old.items ++ grammar.header_declares (tokens_seen tokens.now)) }
{
    for (at, token) in tokens.iter().enumerate() {
        add_port(token, &tokens[at + 1..], found)?;
    }
    Ok(())
}

/// Adds the tokens of a kind.
pub fn add_kind<'a>(
    kind: VerilogToken,
    tokens: &'a [Token<'a>],
    found: &mut Vec<Token<'a>>,
) -> Result<(), NoMemory>
    ensures { OnOk result (tokens_seen found.new.items ≡ tokens_seen found.old.items ++ filter (grammar.is kind) (tokens_seen tokens.now)) }
{
    for token in tokens {
        if is(kind, token) {
            found.push(*token)?;
        }
    }
    Ok(())
}

/// Whether one of some tokens is a direction.
fn any_direction(tokens: &[Token<'_>]) -> bool
    ensures { result ≡ list_any is_direction_seen tokens.now }
{
    tokens.iter().any(|token| is_direction(token))
}

/// Whether a direction is among tokens.
#[tactic(auto, using(crate::proofs::SliceFacts::any_direction))]
fn has_direction(tokens: &[Token<'_>]) -> bool
    ensures { result ≡ list_any grammar.is_direction (tokens_seen tokens.now) }
{
    any_direction(tokens)
}

/// Adds the names that a header only lists.
pub fn add_header_lists<'a>(
    tokens: &'a [Token<'a>],
    found: &mut Vec<Token<'a>>,
) -> Result<(), NoMemory>
    ensures { OnOk result (tokens_seen found.new.items ≡ tokens_seen found.old.items ++ grammar.header_lists (tokens_seen tokens.now)) }
{
    if has_direction(tokens) {
        return Ok(());
    }
    add_kind(VerilogToken::Name, tokens, found)
}
