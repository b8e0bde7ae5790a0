//! The grammar of a library's text (Liberty), as its table.

ghost use Rattle.std.specs.Prelude.{◌≡◌};
ghost use Rattle.std.specs.Option.{option_map};
ghost use Rattle.library_model.specs.LibertyGrammar.{after, liberty};
ghost use Rattle.source_types.specs.declared.liberty_tokens.LibertySymbol.TheVariants as part;
ghost use Rattle.library_model.proofs.LibertyDecides.{decides, follow};

use source_types::{Gap, LibertySymbol, LibertyToken};
use token_grammar::Grammar;

/// The table's row of a whole text, or further `library` groups.
fn libraries(kind: LibertyToken) -> Option<&'static [LibertySymbol]>
    ensures { option_map (λ symbols. symbols.now) result ≡ after part.Libraries kind }
{
    match kind {
        LibertyToken::Library(_) => Some(&[
            LibertySymbol::Parenthesis,
            LibertySymbol::Arguments,
            LibertySymbol::Brace,
            LibertySymbol::Statements,
            LibertySymbol::GroupEnd,
            LibertySymbol::MoreLibraries,
        ]),
        _ => None,
    }
}

/// The table's row of `(`.
fn parenthesis(kind: LibertyToken) -> Option<&'static [LibertySymbol]>
    ensures { option_map (λ symbols. symbols.now) result ≡ after part.Parenthesis kind }
{
    match kind {
        LibertyToken::Open(_) => Some(&[]),
        _ => None,
    }
}

/// The table's row of `{`.
fn brace(kind: LibertyToken) -> Option<&'static [LibertySymbol]>
    ensures { option_map (λ symbols. symbols.now) result ≡ after part.Brace kind }
{
    match kind {
        LibertyToken::Begin => Some(&[]),
        _ => None,
    }
}

/// The table's row of `}`.
fn group_end(kind: LibertyToken) -> Option<&'static [LibertySymbol]>
    ensures { option_map (λ symbols. symbols.now) result ≡ after part.GroupEnd kind }
{
    match kind {
        LibertyToken::End => Some(&[]),
        _ => None,
    }
}

/// The table's row of arguments and their `)`: names, numbers and quoted texts.
fn arguments(kind: LibertyToken) -> Option<&'static [LibertySymbol]>
    ensures { option_map (λ symbols. symbols.now) result ≡ after part.Arguments kind }
{
    match kind {
        LibertyToken::Library(_) | LibertyToken::Word(_) | LibertyToken::Quoted(_) => Some(&[
            LibertySymbol::MoreArguments,
        ]),
        LibertyToken::Close => Some(&[]),
        _ => None,
    }
}

/// The table's row of an argument after a comma, and those after it.
fn argument(kind: LibertyToken) -> Option<&'static [LibertySymbol]>
    ensures { option_map (λ symbols. symbols.now) result ≡ after part.Argument kind }
{
    match kind {
        LibertyToken::Library(_) | LibertyToken::Word(_) | LibertyToken::Quoted(_) => Some(&[
            LibertySymbol::MoreArguments,
        ]),
        _ => None,
    }
}

/// The table's row of further arguments, parted by commas or blanks, and their `)`.
fn more_arguments(kind: LibertyToken) -> Option<&'static [LibertySymbol]>
    ensures { option_map (λ symbols. symbols.now) result ≡ after part.MoreArguments kind }
{
    match kind {
        LibertyToken::Comma => Some(&[LibertySymbol::Argument]),
        LibertyToken::Close => Some(&[]),
        LibertyToken::Library(Gap::Nothing)
        | LibertyToken::Word(Gap::Nothing)
        | LibertyToken::Quoted(Gap::Nothing) => None,
        LibertyToken::Library(_) | LibertyToken::Word(_) | LibertyToken::Quoted(_) => Some(&[
            LibertySymbol::MoreArguments,
        ]),
        _ => None,
    }
}

/// The table's row of groups and attributes.
fn in_group(kind: LibertyToken) -> Option<&'static [LibertySymbol]>
    ensures { option_map (λ symbols. symbols.now) result ≡ after part.Statements kind }
{
    match kind {
        LibertyToken::Library(_) | LibertyToken::Word(_) => Some(&[LibertySymbol::AfterName]),
        _ => None,
    }
}

/// The table's row of what follows the name of a group or attribute.
fn after_name(kind: LibertyToken) -> Option<&'static [LibertySymbol]>
    ensures { option_map (λ symbols. symbols.now) result ≡ after part.AfterName kind }
{
    match kind {
        LibertyToken::Colon => Some(&[LibertySymbol::Value]),
        LibertyToken::Open(_) => Some(&[LibertySymbol::Arguments, LibertySymbol::AfterArguments]),
        _ => None,
    }
}

/// The table's row of what follows the arguments of a group or attribute.
fn after_arguments(kind: LibertyToken) -> Option<&'static [LibertySymbol]>
    ensures { option_map (λ symbols. symbols.now) result ≡ after part.AfterArguments kind }
{
    match kind {
        LibertyToken::Begin => Some(&[
            LibertySymbol::Statements,
            LibertySymbol::GroupEnd,
            LibertySymbol::Statements,
        ]),
        LibertyToken::Semicolon => Some(&[LibertySymbol::Statements]),
        LibertyToken::Library(Gap::LineEnd) | LibertyToken::Word(Gap::LineEnd) => Some(&[
            LibertySymbol::AfterName,
        ]),
        _ => None,
    }
}

/// The table's row of the end of a simple attribute.
fn attribute_end(kind: LibertyToken) -> Option<&'static [LibertySymbol]>
    ensures { option_map (λ symbols. symbols.now) result ≡ after part.AttributeEnd kind }
{
    match kind {
        LibertyToken::Semicolon => Some(&[LibertySymbol::Statements]),
        LibertyToken::Library(Gap::LineEnd) | LibertyToken::Word(Gap::LineEnd) => Some(&[
            LibertySymbol::AfterName,
        ]),
        _ => None,
    }
}

/// The table's row of a value: a quoted text, or names, numbers and parentheses on one line.
fn value(kind: LibertyToken) -> Option<&'static [LibertySymbol]>
    ensures { option_map (λ symbols. symbols.now) result ≡ after part.Value kind }
{
    match kind {
        LibertyToken::Quoted(_) => Some(&[LibertySymbol::AttributeEnd]),
        LibertyToken::Library(_) | LibertyToken::Word(_) => Some(&[
            LibertySymbol::Operands,
            LibertySymbol::AttributeEnd,
        ]),
        LibertyToken::Open(_) => Some(&[
            LibertySymbol::Enclosed,
            LibertySymbol::Operands,
            LibertySymbol::AttributeEnd,
        ]),
        _ => None,
    }
}

/// The table's row of more of an expression, on its line.
fn operands(kind: LibertyToken) -> Option<&'static [LibertySymbol]>
    ensures { option_map (λ symbols. symbols.now) result ≡ after part.Operands kind }
{
    match kind {
        LibertyToken::Library(Gap::LineEnd)
        | LibertyToken::Word(Gap::LineEnd)
        | LibertyToken::Open(Gap::LineEnd) => None,
        LibertyToken::Library(_) | LibertyToken::Word(_) => Some(&[LibertySymbol::Operands]),
        LibertyToken::Open(_) => Some(&[LibertySymbol::Enclosed, LibertySymbol::Operands]),
        _ => None,
    }
}

/// The table's row of what stands in parentheses of an expression.
fn enclosed(kind: LibertyToken) -> Option<&'static [LibertySymbol]>
    ensures { option_map (λ symbols. symbols.now) result ≡ after part.Enclosed kind }
{
    match kind {
        LibertyToken::Library(_) | LibertyToken::Word(_) => Some(&[LibertySymbol::Enclosed]),
        LibertyToken::Open(_) => Some(&[LibertySymbol::Enclosed, LibertySymbol::Enclosed]),
        LibertyToken::Close => Some(&[]),
        _ => None,
    }
}

/// The grammar of libraries.
pub struct Liberty;

impl Grammar for Liberty {
    type Symbol = LibertySymbol;

    type Kind = LibertyToken;

    ghost table = { liberty };

    ghost follow = { follow };

    fn next(symbol: LibertySymbol, kind: LibertyToken) -> Option<&'static [LibertySymbol]> {
        match symbol {
            LibertySymbol::Libraries => libraries(kind),
            LibertySymbol::MoreLibraries => libraries(kind),
            LibertySymbol::Parenthesis => parenthesis(kind),
            LibertySymbol::Arguments => arguments(kind),
            LibertySymbol::Argument => argument(kind),
            LibertySymbol::MoreArguments => more_arguments(kind),
            LibertySymbol::Brace => brace(kind),
            LibertySymbol::Statements => in_group(kind),
            LibertySymbol::AfterName => after_name(kind),
            LibertySymbol::AfterArguments => after_arguments(kind),
            LibertySymbol::Value => value(kind),
            LibertySymbol::Operands => operands(kind),
            LibertySymbol::Enclosed => enclosed(kind),
            LibertySymbol::AttributeEnd => attribute_end(kind),
            LibertySymbol::GroupEnd => group_end(kind),
        }
    }

    fn is_nullable(symbol: LibertySymbol) -> bool {
        matches!(
            symbol,
            LibertySymbol::MoreLibraries
                | LibertySymbol::Statements
                | LibertySymbol::AfterArguments
                | LibertySymbol::AttributeEnd
                | LibertySymbol::Operands
        )
    }

    ghost decides = { decides };
}
