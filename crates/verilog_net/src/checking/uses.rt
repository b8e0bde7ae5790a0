//! What is used of nets: whether it is there, and how wide it is (IEEE 1364-2005, bit-selects and part-selects).
//!
//! Each function here that may fail has want of memory as its one error.

ghost use Rattle.std.specs.Prelude.{◌≡◌, ◌≤◌, ◌++◌, ◌==◌, ◌&&◌, ◌+◌, ◌^◌, ◌⊎◌, ◌∷◌, [], length, map, not, nat_le, true, IfOk, OnErr, OnOk, if◌then◌else◌};
ghost use Rattle.std.specs.List.{flat_map, list_any};
ghost use Rattle.std.specs.Option.{option_to_list};
ghost use Rattle.netlist_model.specs.VerilogConstants as constants;
ghost use Rattle.netlist_model.specs.Verilog as spec;
ghost use Rattle.netlist_model.specs.VerilogNets as nets;
ghost use Rattle.netlist_model.specs.VerilogStatements as grammar;
ghost use Rattle.netlist_model.specs.VerilogSyntax.{parts_of as parts_of_tokens};
ghost use Rattle.verilog_net.specs.Names.{AreOverlong, IsTied, declarations_of, has_long, len_of};
ghost use Rattle.verilog_net.specs.Seen.{token_seen, tokens_seen};
ghost use Rattle.verilog_net.specs.Syntax.{parts_seen, piece_seen, pieces_seen};

use crate::checking::names::Names;
use crate::checking::repeats::{span, width};
use crate::lexing::numbers::number_of;
use crate::lexing::tokens::Token;
use crate::parsing::declarations::number;
use crate::parsing::parts::{after, before, parts_of};
use crate::parsing::pieces::{Piece, add_net_pieces, add_pieces};
use sdc_base::NoMemory;
use source_types::{Range, VerilogToken};
use std::alloc::Global;

/// Whether an index is in a range.
fn is_within(range: Range, index: u32) -> bool
    ensures { result ≡ spec.is_within range index }
{
    is_between(range.left, index, range.right) || is_between(range.right, index, range.left)
}

/// Whether a number is not below one and not above another.
fn is_between(first: u32, number: u32, last: u32) -> bool
    ensures { result ≡ (nat_le first number && nat_le number last) }
{
    first <= number && number <= last
}

/// Whether the number of a token is an index of a net of a range.
#[tactic(auto, using(crate::proofs::UseFacts::within_is, crate::proofs::UseFacts::too_large_index))]
fn has_index(range: Option<Range>, index: &Token<'_>) -> bool
    ensures { result ≡ spec.has_index range (constants.number_of index.now.text.now) }
{
    let Some(range) = range else {
        return false;
    };
    match number_of(index.text.as_bytes()) {
        Some(number) => is_within(range, number),
        None => false,
    }
}

/// The name of a piece that selects what is not there.
fn unknown<'a>(names: &Names<'a>, piece: &Piece<'a>) -> Option<Token<'a>>
    requires { IsTied names.now }
    ensures { tokens_seen (option_to_list result) ≡ spec.unknown_in (declarations_of names.now) (piece_seen piece.now) }
{
    match piece {
        Piece::Whole(_) => None,
        Piece::Bit(name, index) => unless(has_index(names.range(name.text), index), name),
        Piece::Part(name, left, right) => {
            let range = names.range(name.text);
            unless(has_both(range, left, right), name)
        }
        Piece::Constant(_, _, _) => None,
    }
}

/// Whether two numbers are indices of a net of a range.
fn has_both(range: Option<Range>, left: &Token<'_>, right: &Token<'_>) -> bool
    ensures { result ≡ (spec.has_index range (constants.number_of left.now.text.now) && spec.has_index range (constants.number_of right.now.text.now)) }
{
    has_index(range, left) && has_index(range, right)
}

/// A name, unless something holds.
fn unless<'a>(holds: bool, name: &Token<'a>) -> Option<Token<'a>>
    ensures { tokens_seen (option_to_list result) ≡ (if holds then [] else token_seen name.now ∷ []) }
{
    if holds {
        return None;
    }
    Some(*name)
}

/// Adds a token, if there is one.
fn add<'a>(token: Option<Token<'a>>, found: &mut Vec<Token<'a>>) -> Result<(), NoMemory>
    ensures { OnOk result (tokens_seen found.new.items ≡ tokens_seen found.old.items ++ tokens_seen (option_to_list token.entry)) }
{
    let Some(token) = token else {
        return Ok(());
    };
    found.push(token)?;
    Ok(())
}

/// Adds the names of pieces that select what is not there.
pub fn add_unknown<'a>(
    names: &Names<'a>,
    pieces: &[Piece<'a>],
    found: &mut Vec<Token<'a>>,
) -> Result<(), NoMemory>
    requires { IsTied names.now }
    ensures { OnOk result (tokens_seen found.new.items ≡ tokens_seen found.old.items ++ flat_map (spec.unknown_in (declarations_of names.now)) (pieces_seen pieces.now)) }
{
    for piece in pieces {
        add(unknown(names, piece), found)?;
    }
    Ok(())
}

/// Whether all pieces select only what is there.
#[tactic(auto, using(crate::proofs::UseFacts::known_more, crate::proofs::UseFacts::unknown_stops))]
fn all_known<'a>(names: &Names<'a>, pieces: &[Piece<'a>]) -> bool
    requires { IsTied names.now }
    ensures { result ≡ spec.is_empty (flat_map (spec.unknown_in (declarations_of names.now)) (pieces_seen pieces.now)) }
{
    for piece in pieces {
        if unknown(names, piece).is_some() {
            return false;
        }
    }
    true
}

/// Whether a name is declared as a port.
#[tactic(auto, using(crate::proofs::TableFacts::port_declared))]
fn is_declared(names: &Names<'_>, name: &Token<'_>) -> bool
    requires { IsTied names.now }
    ensures { result ≡ list_any (nets.is_port_of name.now.text.now) (declarations_of names.now) }
{
    names.port(name.text).is_some()
}

/// The listed ports that no direction declares.
pub fn undeclared<'a>(
    alloc: Global,
    names: &Names<'a>,
    listed: &[Token<'a>],
) -> Result<Vec<Token<'a>>, NoMemory>
    requires { IsTied names.now }
    ensures { IfOk result (λ found. tokens_seen found.items ≡ spec.undeclared (declarations_of names.now) (tokens_seen listed.now)) }
{
    let mut found = Vec::new(alloc);
    for name in listed {
        add(unless(is_declared(names, name), name), &mut found)?;
    }
    Ok(found)
}

/// The number of bits of a piece. The one error is the answer where a number of the piece passes 32 bits.
fn piece_len<'a>(names: &Names<'a>, piece: &Piece<'a>) -> Result<u64, NoMemory>
    requires { IsTied names.now }
    ensures is { IfOk result (λ len. len ≡ len_of names.now piece.now) }
    ensures limit { OnErr result (has_long piece.now ≡ true) }
{
    match piece {
        Piece::Whole(name) => Ok(width(names.range(name.text))),
        Piece::Bit(_, _) => Ok(1),
        Piece::Part(_, left, right) => {
            let left = number(left)?;
            let right = number(right)?;
            Ok(span(left, right))
        }
        Piece::Constant(size, _, _) => {
            let size = number(size)?;
            Ok(u64::from(size))
        }
    }
}

/// The sum of two numbers of bits. The one error is the answer where it passes 64 bits.
fn sum(first: u64, second: u64) -> Result<u64, NoMemory>
    ensures is { IfOk result (λ sum. sum ≡ first + second) }
    ensures limit { OnErr result (2 ^ 64 ≤ first + second) }
{
    match first.checked_add(second) {
        Some(sum) => Ok(sum),
        None => Err(NoMemory),
    }
}

/// The number of bits of pieces. The one error is the answer where a number of a piece passes 32 bits, or the number
/// of bits 64.
#[tactic(auto, using(crate::proofs::UseFacts::len_all, crate::proofs::UseFacts::long_piece_at))]
fn bits_len<'a>(names: &Names<'a>, pieces: &[Piece<'a>]) -> Result<u64, NoMemory>
    requires { IsTied names.now }
    ensures is { IfOk result (λ len. len ≡ length (nets.bits_of (declarations_of names.now) (pieces_seen pieces.now))) }
    ensures limit { OnErr result (AreOverlong names.now pieces.now) }
{
    let mut len = 0;
    for piece in pieces {
        let more = piece_len(names, piece)?;
        let longer = sum(len, more)?;
        len = longer;
    }
    Ok(len)
}

/// Whether both sides of an assignment are of known nets and of different widths.
fn is_uneven<'a>(alloc: Global, names: &Names<'a>, part: &'a [Token<'a>]) -> Result<bool, NoMemory>
    requires { IsTied names.now }
    ensures { IfOk result (λ uneven. uneven ≡ spec.is_uneven (declarations_of names.now) (grammar.sides_of (tokens_seen part.now))) }
{
    let mut left = Vec::new(alloc);
    add_net_pieces(before(VerilogToken::Equals, part), &mut left)?;
    let mut right = Vec::new(alloc);
    add_pieces(after(VerilogToken::Equals, part), &mut right)?;
    are_uneven(names, left.as_slice(), right.as_slice())
}

/// Whether pieces of two sides are of known nets and of different widths. The one error is the answer where the
/// number of bits of a side is not told.
#[tactic(auto, using(crate::proofs::UseFacts::overlong_left, crate::proofs::UseFacts::overlong_right))]
fn are_uneven<'a>(
    names: &Names<'a>,
    left: &[Piece<'a>],
    right: &[Piece<'a>],
) -> Result<bool, NoMemory>
    requires { IsTied names.now }
    ensures is { IfOk result (λ uneven. uneven ≡ (spec.is_empty (flat_map (spec.unknown_in (declarations_of names.now)) (pieces_seen left.now ++ pieces_seen right.now)) && not (length (nets.bits_of (declarations_of names.now) (pieces_seen left.now)) == length (nets.bits_of (declarations_of names.now) (pieces_seen right.now))))) }
    ensures limit { OnErr result (AreOverlong names.now left.now ⊎ AreOverlong names.now right.now) }
{
    if !are_known(names, left, right) {
        return Ok(false);
    }
    let left_len = bits_len(names, left)?;
    let right_len = bits_len(names, right)?;
    Ok(left_len != right_len)
}

/// Whether pieces of two sides are of known nets.
#[tactic(auto, using(crate::proofs::UseFacts::both_known))]
fn are_known<'a>(names: &Names<'a>, left: &[Piece<'a>], right: &[Piece<'a>]) -> bool
    requires { IsTied names.now }
    ensures { result ≡ spec.is_empty (flat_map (spec.unknown_in (declarations_of names.now)) (pieces_seen left.now ++ pieces_seen right.now)) }
{
    all_known(names, left) && all_known(names, right)
}

/// Whether one of some assignments is of known nets and has sides of different widths.
fn any_uneven<'a>(
    alloc: Global,
    names: &Names<'a>,
    parts: &[&'a [Token<'a>]],
) -> Result<bool, NoMemory>
    requires { IsTied names.now }
    ensures { IfOk result (λ uneven. uneven ≡ list_any (spec.is_uneven (declarations_of names.now)) (map grammar.sides_of (parts_seen parts.now))) }
{
    for part in parts {
        if is_uneven(alloc, names, part)? {
            return Ok(true);
        }
    }
    Ok(false)
}

/// Adds the keyword of an assignment of known nets that has sides of different widths.
fn add_if_uneven<'a>(
    alloc: Global,
    names: &Names<'a>,
    keyword: &Token<'a>,
    rest: &'a [Token<'a>],
    found: &mut Vec<Token<'a>>,
) -> Result<(), NoMemory>
    requires { IsTied names.now }
    ensures { OnOk result (tokens_seen found.new.items ≡ tokens_seen found.old.items ++ (if list_any (spec.is_uneven (declarations_of names.now)) (map grammar.sides_of (parts_of_tokens (tokens_seen rest.now))) then token_seen keyword.now ∷ [] else [])) }
{
    let parts = parts_of(alloc, rest)?;
    if !any_uneven(alloc, names, parts.as_slice())? {
        return Ok(());
    }
    found.push(*keyword)?;
    Ok(())
}

/// Adds the keyword of a statement, if it is an assignment of known nets that has sides of different widths.
pub fn add_uneven<'a>(
    alloc: Global,
    names: &Names<'a>,
    statement: &'a [Token<'a>],
    found: &mut Vec<Token<'a>>,
) -> Result<(), NoMemory>
    requires { IsTied names.now }
    ensures { OnOk result (tokens_seen found.new.items ≡ tokens_seen found.old.items ++ spec.uneven (declarations_of names.now) (grammar.statement_of (tokens_seen statement.now))) }
{
    let [first, rest @ ..] = statement else {
        return Ok(());
    };
    match first.kind {
        VerilogToken::Assign => add_if_uneven(alloc, names, first, rest, found),
        VerilogToken::Name => Ok(()),
        _ => Ok(()),
    }
}
