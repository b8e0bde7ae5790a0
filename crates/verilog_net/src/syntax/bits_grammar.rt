//! The grammar of what is assigned and connected (IEEE 1364-2005): what stands after a token that each part begins
//! with.

ghost use Rattle.std.specs.Prelude.{◌≡◌};
ghost use Rattle.std.specs.Option.{option_map};
ghost use Rattle.netlist_model.specs.VerilogBits as spec;

use crate::syntax::grammar::After;
use source_types::{VerilogSymbol as Symbol, VerilogToken as Kind};

/// A bound of a range.
pub fn bound(kind: Kind) -> After
    ensures { option_map (λ after. after.now) result ≡ spec.bound kind }
{
    match kind {
        Kind::Size | Kind::Number => Some(&[]),
        _ => None,
    }
}

/// More assignments of an `assign`.
pub fn assignments(kind: Kind) -> After
    ensures { option_map (λ after. after.now) result ≡ spec.assignments kind }
{
    match kind {
        Kind::Comma => Some(&[
            Symbol::Left,
            Symbol::Token(Kind::Equals),
            Symbol::Bits,
            Symbol::Assignments,
        ]),
        Kind::Semicolon => Some(&[]),
        _ => None,
    }
}

/// The left side of an assignment.
pub fn left(kind: Kind) -> After
    ensures { option_map (λ after. after.now) result ≡ spec.left kind }
{
    match kind {
        Kind::Name => Some(&[Symbol::Select]),
        Kind::OpenBrace => Some(&[Symbol::Left, Symbol::LeftParts]),
        _ => None,
    }
}

/// More parts of a concatenation on the left.
pub fn left_parts(kind: Kind) -> After
    ensures { option_map (λ after. after.now) result ≡ spec.left_parts kind }
{
    match kind {
        Kind::Comma => Some(&[Symbol::Left, Symbol::LeftParts]),
        Kind::CloseBrace => Some(&[]),
        _ => None,
    }
}

/// The bits of a net that are selected.
pub fn select(kind: Kind) -> After
    ensures { option_map (λ after. after.now) result ≡ spec.select kind }
{
    match kind {
        Kind::OpenBracket => Some(&[Symbol::Index, Symbol::SelectEnd]),
        _ => None,
    }
}

/// The second bound of a select, or its end.
pub fn select_end(kind: Kind) -> After
    ensures { option_map (λ after. after.now) result ≡ spec.select_end kind }
{
    match kind {
        Kind::Colon => Some(&[Symbol::Index, Symbol::Token(Kind::CloseBracket)]),
        Kind::CloseBracket => Some(&[]),
        _ => None,
    }
}

/// The index of a bit.
pub fn index(kind: Kind) -> After
    ensures { option_map (λ after. after.now) result ≡ spec.index kind }
{
    match kind {
        Kind::LargeNumber => Some(&[]),
        _ => bound(kind),
    }
}

/// A net, a constant or a concatenation.
pub fn bits(kind: Kind) -> After
    ensures { option_map (λ after. after.now) result ≡ spec.bits kind }
{
    match kind {
        Kind::Name => Some(&[Symbol::Select]),
        Kind::Size => Some(&[Symbol::Token(Kind::Base), Symbol::Token(Kind::Digits)]),
        Kind::OpenBrace => Some(&[Symbol::Bits, Symbol::Parts]),
        _ => None,
    }
}

/// More parts of a concatenation.
pub fn parts(kind: Kind) -> After
    ensures { option_map (λ after. after.now) result ≡ spec.parts kind }
{
    match kind {
        Kind::Comma => Some(&[Symbol::Bits, Symbol::Parts]),
        Kind::CloseBrace => Some(&[]),
        _ => None,
    }
}

/// More instances of a statement.
pub fn instances(kind: Kind) -> After
    ensures { option_map (λ after. after.now) result ≡ spec.instances kind }
{
    match kind {
        Kind::Comma => Some(&[
            Symbol::Token(Kind::Name),
            Symbol::Token(Kind::Open),
            Symbol::Connections,
            Symbol::Instances,
        ]),
        Kind::Semicolon => Some(&[]),
        _ => None,
    }
}

/// The connections of an instance: none, named ones, or ordered ones.
pub fn connections(kind: Kind) -> After
    ensures { option_map (λ after. after.now) result ≡ spec.connections kind }
{
    match kind {
        Kind::Close => Some(&[]),
        Kind::Dot => Some(&[
            Symbol::Token(Kind::Name),
            Symbol::Token(Kind::Open),
            Symbol::Connected,
            Symbol::Token(Kind::Close),
            Symbol::NamedConnections,
        ]),
        Kind::Comma => Some(&[Symbol::Connected, Symbol::OrderedConnections]),
        Kind::Name => Some(&[Symbol::Select, Symbol::OrderedConnections]),
        Kind::Size => Some(&[
            Symbol::Token(Kind::Base),
            Symbol::Token(Kind::Digits),
            Symbol::OrderedConnections,
        ]),
        Kind::OpenBrace => Some(&[Symbol::Bits, Symbol::Parts, Symbol::OrderedConnections]),
        _ => None,
    }
}

/// More ordered connections.
pub fn ordered_connections(kind: Kind) -> After
    ensures { option_map (λ after. after.now) result ≡ spec.ordered_connections kind }
{
    match kind {
        Kind::Comma => Some(&[Symbol::Connected, Symbol::OrderedConnections]),
        Kind::Close => Some(&[]),
        _ => None,
    }
}

/// More named connections.
pub fn named_connections(kind: Kind) -> After
    ensures { option_map (λ after. after.now) result ≡ spec.named_connections kind }
{
    match kind {
        Kind::Comma => Some(&[
            Symbol::Token(Kind::Dot),
            Symbol::Token(Kind::Name),
            Symbol::Token(Kind::Open),
            Symbol::Connected,
            Symbol::Token(Kind::Close),
            Symbol::NamedConnections,
        ]),
        Kind::Close => Some(&[]),
        _ => None,
    }
}
