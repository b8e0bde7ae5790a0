//! Operands of expressions that are words: variables, scripts, and quoted and braced texts.

ghost use Rattle.std.specs.Prelude.{◌≡◌, ◌<◌, ◌≤◌, ◌+◌, length, drop, slice_index};
ghost use Rattle.std.specs.Str.{IsCharBoundary};
ghost use Rattle.sdc_base.specs.Gives.{Meets};
ghost use Rattle.text_model.specs.Enclosed.{after_brace};
ghost use Rattle.tcl_model.specs.ExpressionTokens.{script_token, variable_token, IsBracedToken, IsQuotedToken};
ghost use Rattle.tcl_model.specs.Pieces.{substituted};
ghost use Rattle.tcl_words.specs.Operands.{as_malformed, IsFront, IsOnePiece, OperandAt};

use crate::enclosed::{Open, closing};
use crate::gathered::Gathered;
use crate::pieces::{Kind, Piece, Step, piece_at};
use crate::runs::Form;
use crate::spelled::{Spelled, inner_pieces, pieces_at};
use sdc_base::Stop;
use source_types::TclKind;
use std::alloc::Global;

/// The braced text whose opening brace stands at a place, as an operand. Refused as `BadExpr` where it has no end.
#[tactic(auto, using(crate::proofs::OperandFacts::braced_open, crate::proofs::OperandFacts::braced_found))]
pub fn braced_operand(alloc: Global, text: &str, from: usize) -> Result<Spelled, Stop<TclKind>>
    requires within { from < length text.now }
    requires opens { slice_index text.now from ≡ 123 }
    ensures { Meets result (OperandAt (IsBracedToken (drop (from + 1) text.now) (after_brace (drop (from + 1) text.now))) text.now from) }
{
    let Some(end) = closing(alloc, text.as_bytes(), from + 1, Open::Brace)? else {
        return Err(Stop::Refused(TclKind::BadExpr));
    };
    let Spelled { word, .. } = inner_pieces(alloc, &text[from + 1..end - 1])?;
    Ok(Spelled { word, end })
}

/// The quoted text whose opening quote stands at a place, as an operand. Refused as `BadExpr` where it has no end, or
/// what it substitutes cannot be read.
#[tactic(auto, using(crate::proofs::OperandFacts::quoted_found, crate::proofs::OperandFacts::quoted_stop))]
pub fn quoted_operand(alloc: Global, text: &str, from: usize) -> Result<Spelled, Stop<TclKind>>
    requires within { from < length text.now }
    requires opens { slice_index text.now from ≡ 34 }
    ensures { Meets result (OperandAt (IsQuotedToken (drop (from + 1) text.now)) text.now from) }
{
    match pieces_at(alloc, text, from + 1, Form::Quoted) {
        Ok(spelled) => Ok(spelled),
        Err(stop) => Err(malformed(stop)),
    }
}

/// The fault of an expression in which something cannot be read.
fn malformed(stop: Stop<TclKind>) -> Stop<TclKind>
    ensures { result ≡ as_malformed stop }
{
    match stop {
        Stop::Refused(_) => Stop::Refused(TclKind::BadExpr),
        Stop::NoMemory => Stop::NoMemory,
    }
}

/// The variable whose `$` stands at a place, as an operand. Refused as `BadExpr` where `$` opens no name, or the name
/// is that of an element of an array, or its brace has no end.
#[tactic(auto, using(crate::proofs::OperandFacts::variable_found, crate::proofs::OperandFacts::variable_text, crate::proofs::OperandFacts::variable_ends, crate::proofs::OperandFacts::variable_stop))]
pub fn variable_operand(alloc: Global, text: &str, from: usize) -> Result<Spelled, Stop<TclKind>>
    requires within { from < length text.now }
    requires opens { slice_index text.now from ≡ 36 }
    ensures { Meets result (OperandAt (IsFront (variable_token (substituted 36 (drop (from + 1) text.now)))) text.now from) }
{
    match piece_at(alloc, text.as_bytes(), from, Form::Bare) {
        Ok(Step::Found(piece)) => match piece.kind {
            Kind::Variable | Kind::Script => one_piece(alloc, text, piece),
            Kind::Text | Kind::Newline | Kind::Tab | Kind::Blank => {
                Err(Stop::Refused(TclKind::BadExpr))
            }
        },
        Ok(Step::Ends(_)) => Err(Stop::Refused(TclKind::BadExpr)),
        Err(stop) => Err(malformed(stop)),
    }
}

/// The script whose `[` stands at a place, as an operand. Refused as `BadExpr` where the bracket has no end.
#[tactic(auto, using(crate::proofs::OperandFacts::script_found, crate::proofs::OperandFacts::script_ends, crate::proofs::OperandFacts::script_stop))]
pub fn script_operand(alloc: Global, text: &str, from: usize) -> Result<Spelled, Stop<TclKind>>
    requires within { from < length text.now }
    requires opens { slice_index text.now from ≡ 91 }
    ensures { Meets result (OperandAt (IsFront (script_token (substituted 91 (drop (from + 1) text.now)))) text.now from) }
{
    match piece_at(alloc, text.as_bytes(), from, Form::Bare) {
        Ok(Step::Found(piece)) => one_piece(alloc, text, piece),
        Ok(Step::Ends(_)) => Err(Stop::Refused(TclKind::BadExpr)),
        Err(stop) => Err(malformed(stop)),
    }
}

/// The word of one piece of a text, and the place after it.
fn one_piece(alloc: Global, text: &str, piece: Piece) -> Result<Spelled, Stop<TclKind>>
    requires order { piece.from ≤ piece.to }
    requires inside { piece.to ≤ length text.now }
    requires from_boundary { IsCharBoundary text.now piece.from }
    requires to_boundary { IsCharBoundary text.now piece.to }
    ensures { Meets result (IsOnePiece text.now piece) }
{
    let mut gathered = Gathered::new(alloc);
    gathered.add(alloc, text, piece)?;
    let word = gathered.into_word()?;
    Ok(Spelled {
        word,
        end: piece.next,
    })
}
