//! The bits of what is connected and assigned (IEEE 1364-2005, bit-selects, part-selects and concatenations).
//!
//! Each function here that may fail has want of memory as its one error.

ghost use Rattle.std.specs.Prelude.{◌≡◌, ◌≤◌, ◌<◌, ◌++◌, ◌+◌, ◌-◌, ◌∷◌, [], map, nat_lt, IfOk, OnErr, OnOk, Some, if◌then◌else◌};
ghost use Rattle.source_types.specs.declared.netlists.Bit.TheVariants as variants;
ghost use Rattle.netlist_model.specs.Ranges as ranges;
ghost use Rattle.netlist_model.specs.VerilogConstants as constants;
ghost use Rattle.netlist_model.specs.VerilogNets as nets;
ghost use Rattle.netlist_model.specs.VerilogSyntax as syntax;
ghost use Rattle.verilog_net.specs.Names.{IsTied, declarations_of};
ghost use Rattle.verilog_net.specs.Seen.{tokens_seen};
ghost use Rattle.verilog_net.specs.Syntax.{piece_seen, pieces_seen};

use crate::checking::names::Names;
use crate::lexing::tokens::Token;
use crate::meaning::constants::{constant_bits, letter_of};
use crate::parsing::declarations::number;
use crate::parsing::pieces::{Piece, add_pieces};
use sdc_base::{List, NoMemory, Text};
use source_types::{Bit, Range};
use std::alloc::Global;

/// Adds the bit of a net at an index, or of a scalar.
fn add_bit(
    alloc: Global,
    name: &str,
    index: Option<u32>,
    bits: &mut List<Bit>,
) -> Result<(), NoMemory>
    ensures { OnOk result (bits.new ≡ bits.old ++ nets.net_bit name.now index ∷ []) }
{
    let name = Text::from_str(alloc, name)?;
    bits.push(Bit::Net { name, index })?;
    Ok(())
}

/// The number next to one that is not another, on the way to that.
fn next_towards(number: u32, last: u32) -> u32
    requires { number ≡ last → ⊥ }
    ensures { result ≡ (if nat_lt number last then number + 1 else number - 1) }
{
    if number < last {
        number + 1
    } else {
        number.saturating_sub(1)
    }
}

/// Adds the bits of a net from one index to another.
#[tactic(auto, using(crate::proofs::RangeFacts::from_to_same, crate::proofs::RangeFacts::nearer))]
fn add_range(
    alloc: Global,
    name: &str,
    left: u32,
    right: u32,
    bits: &mut List<Bit>,
) -> Result<(), NoMemory>
    ensures { OnOk result (bits.new ≡ bits.old ++ map (λ i. nets.net_bit name.now (Some i)) (ranges.from_to left right)) }
{
    let mut index = left;
    while index != right {
        add_bit(alloc, name, Some(index), bits)?;
        index = next_towards(index, right);
    }
    add_bit(alloc, name, Some(right), bits)?;
    Ok(())
}

/// Adds the bits of a net of a range.
#[tactic(auto, using(crate::proofs::RangeFacts::range_bits))]
fn add_net(
    alloc: Global,
    name: &str,
    range: Option<Range>,
    bits: &mut List<Bit>,
) -> Result<(), NoMemory>
    ensures { OnOk result (bits.new ≡ bits.old ++ map (nets.net_bit name.now) (ranges.indices range)) }
{
    match range {
        Some(range) => add_range(alloc, name, range.left, range.right, bits),
        None => add_bit(alloc, name, None, bits),
    }
}

/// Adds constant bits.
fn add_values(values: &[Option<bool>], bits: &mut List<Bit>) -> Result<(), NoMemory>
    ensures { OnOk result (bits.new ≡ bits.old ++ map variants.Constant values.now) }
{
    for value in values {
        bits.push(Bit::Constant(*value))?;
    }
    Ok(())
}

/// The size of a constant, at most 64, as the token of it spells it.
///
/// No memory is taken: the one error, want of memory, is the answer where the number passes 64, and nowhere else. No
/// text of the grammar has such a size.
#[tactic(auto, using(crate::proofs::NumberFacts::long_size))]
fn size_of(token: &Token<'_>) -> Result<u32, NoMemory>
    ensures is { IfOk result (λ size. size ≡ constants.number_of token.now.text.now) }
    ensures small { IfOk result (λ size. size ≤ 64) }
    ensures limit { OnErr result (64 < constants.number_of token.now.text.now) }
{
    let size = number(token)?;
    if size > 64 {
        return Err(NoMemory);
    }
    Ok(size)
}

/// Adds the bits of a constant.
fn add_constant(
    alloc: Global,
    size: &Token<'_>,
    base: &Token<'_>,
    digits: &Token<'_>,
    bits: &mut List<Bit>,
) -> Result<(), NoMemory>
    ensures { OnOk result (bits.new ≡ bits.old ++ map variants.Constant (constants.constant_bits (constants.number_of size.now.text.now) (syntax.letter_of base.now.text.now) digits.now.text.now)) }
{
    let size = size_of(size)?;
    let letter = letter_of(base.text.as_bytes());
    let values = constant_bits(alloc, size, letter, digits.text.as_bytes())?;
    add_values(values.as_slice(), bits)
}

/// Adds the bits of a piece, from the leftmost on.
fn add_piece_bits(
    alloc: Global,
    names: &Names<'_>,
    piece: &Piece<'_>,
    bits: &mut List<Bit>,
) -> Result<(), NoMemory>
    requires { IsTied names.now }
    ensures { OnOk result (bits.new ≡ bits.old ++ nets.piece_bits (declarations_of names.now) (piece_seen piece.now)) }
{
    match piece {
        Piece::Whole(name) => add_net(alloc, name.text, names.range(name.text), bits),
        Piece::Bit(name, index) => {
            let index = number(index)?;
            add_bit(alloc, name.text, Some(index), bits)
        }
        Piece::Part(name, left, right) => {
            let left = number(left)?;
            let right = number(right)?;
            add_range(alloc, name.text, left, right, bits)
        }
        Piece::Constant(size, base, digits) => add_constant(alloc, size, base, digits, bits),
    }
}

/// The bits of pieces, from the leftmost on.
pub fn bits_of(
    alloc: Global,
    names: &Names<'_>,
    pieces: &[Piece<'_>],
) -> Result<List<Bit>, NoMemory>
    requires { IsTied names.now }
    ensures { IfOk result (λ bits. bits ≡ nets.bits_of (declarations_of names.now) (pieces_seen pieces.now)) }
{
    let mut bits = List::new(alloc);
    for piece in pieces {
        add_piece_bits(alloc, names, piece, &mut bits)?;
    }
    Ok(bits)
}

/// The bits of what is connected.
pub fn connected_bits<'a>(
    alloc: Global,
    names: &Names<'a>,
    tokens: &'a [Token<'a>],
) -> Result<List<Bit>, NoMemory>
    requires { IsTied names.now }
    ensures { IfOk result (λ bits. bits ≡ nets.bits_of (declarations_of names.now) (syntax.pieces_of (tokens_seen tokens.now))) }
{
    let mut pieces = Vec::new(alloc);
    add_pieces(tokens, &mut pieces)?;
    bits_of(alloc, names, pieces.as_slice())
}
