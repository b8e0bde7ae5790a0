//! What is connected and assigned, before names are looked up (IEEE 1364-2005, operands).
//!
//! Each function here that may fail has want of memory as its one error.

ghost use Rattle.std.specs.Prelude.{◌≡◌, ◌++◌, ◌∷◌, [], OnOk, if◌then◌else◌};
ghost use Rattle.std.specs.Option.{option_to_list};
ghost use Rattle.source_types.specs.declared.verilog_tokens.VerilogToken.TheVariants as kind;
ghost use Rattle.netlist_model.specs.VerilogConstants as constants;
ghost use Rattle.netlist_model.specs.VerilogSyntax as grammar;
ghost use Rattle.verilog_net.specs.Seen.{token_seen, tokens_seen};
ghost use Rattle.verilog_net.specs.Syntax.{piece_seen, pieces_seen};

use crate::lexing::tokens::Token;
use crate::parsing::declarations::is;
use sdc_base::NoMemory;
use source_types::VerilogToken;

/// A part of what is connected or assigned, by its tokens, whose numbers are read where they are used.
#[derive(Clone, Copy)]
pub enum Piece<'a> {
    /// A net, by its name.
    Whole(Token<'a>),
    /// The bit of a net at an index.
    Bit(Token<'a>, Token<'a>),
    /// The bits of a net between two indices.
    Part(Token<'a>, Token<'a>, Token<'a>),
    /// A constant: its size, its base and its digits.
    Constant(Token<'a>, Token<'a>, Token<'a>),
}

/// The bit or the part of a net that is selected, given the tokens after the first index.
fn selected<'a>(name: &Token<'a>, left: &Token<'a>, rest: &'a [Token<'a>]) -> Piece<'a>
    ensures { piece_seen result ≡ grammar.selected (token_seen name.now) (constants.number_of left.now.text.now) (tokens_seen rest.now) }
{
    match rest {
        [mark, right, ..] => {
            if is(VerilogToken::Colon, mark) {
                Piece::Part(*name, *left, *right)
            } else {
                Piece::Bit(*name, *left)
            }
        }
        _ => Piece::Bit(*name, *left),
    }
}

/// A net, by its name and the tokens after it.
fn net_piece<'a>(name: &Token<'a>, rest: &'a [Token<'a>]) -> Piece<'a>
    ensures { piece_seen result ≡ grammar.net_piece (token_seen name.now) (tokens_seen rest.now) }
{
    match rest {
        [mark, left, more @ ..] => {
            if is(VerilogToken::OpenBracket, mark) {
                selected(name, left, more)
            } else {
                Piece::Whole(*name)
            }
        }
        _ => Piece::Whole(*name),
    }
}

/// A constant, by its size and the tokens after it; a number before no base is an index.
fn constant_piece<'a>(size: &Token<'a>, rest: &'a [Token<'a>]) -> Option<Piece<'a>>
    ensures { pieces_seen (option_to_list result) ≡ grammar.constant_piece (token_seen size.now) (tokens_seen rest.now) }
{
    match rest {
        [base, digits, ..] => {
            if is(VerilogToken::Base, base) {
                Some(Piece::Constant(*size, *base, *digits))
            } else {
                None
            }
        }
        _ => None,
    }
}

/// The piece that begins with a token, if one does.
fn piece_at<'a>(token: &Token<'a>, rest: &'a [Token<'a>]) -> Option<Piece<'a>>
    ensures { pieces_seen (option_to_list result) ≡ grammar.piece_at token.now.kind (token_seen token.now) (tokens_seen rest.now) }
{
    match token.kind {
        VerilogToken::Name => Some(net_piece(token, rest)),
        VerilogToken::Size => constant_piece(token, rest),
        _ => None,
    }
}

/// Adds a piece, if there is one.
fn add<'a>(piece: Option<Piece<'a>>, pieces: &mut Vec<Piece<'a>>) -> Result<(), NoMemory>
    ensures { OnOk result (pieces_seen pieces.new.items ≡ pieces_seen pieces.old.items ++ pieces_seen (option_to_list piece.entry)) }
{
    if let Some(piece) = piece {
        pieces.push(piece)?;
    }
    Ok(())
}

/// Adds the pieces of what is connected, from the leftmost on.
pub fn add_pieces<'a>(tokens: &'a [Token<'a>], pieces: &mut Vec<Piece<'a>>) -> Result<(), NoMemory>
    ensures { OnOk result (pieces_seen pieces.new.items ≡ pieces_seen pieces.old.items ++ grammar.pieces_of (tokens_seen tokens.now)) }
{
    for (at, token) in tokens.iter().enumerate() {
        add(piece_at(token, &tokens[at + 1..]), pieces)?;
    }
    Ok(())
}

/// The net that begins with a token, if one does.
fn net_at<'a>(token: &Token<'a>, rest: &'a [Token<'a>]) -> Option<Piece<'a>>
    ensures { pieces_seen (option_to_list result) ≡ (if grammar.is kind.Name (token_seen token.now) then grammar.net_piece (token_seen token.now) (tokens_seen rest.now) ∷ [] else []) }
{
    if !is(VerilogToken::Name, token) {
        return None;
    }
    Some(net_piece(token, rest))
}

/// Adds the nets alone, from the leftmost on: those on the left side of an assignment.
pub fn add_net_pieces<'a>(
    tokens: &'a [Token<'a>],
    pieces: &mut Vec<Piece<'a>>,
) -> Result<(), NoMemory>
    ensures { OnOk result (pieces_seen pieces.new.items ≡ pieces_seen pieces.old.items ++ grammar.net_pieces (tokens_seen tokens.now)) }
{
    for (at, token) in tokens.iter().enumerate() {
        add(net_at(token, &tokens[at + 1..]), pieces)?;
    }
    Ok(())
}
