//! One word of a text.

ghost use Rattle.std.specs.Prelude.{◌≡◌, ◌<◌, ◌≤◌, true, length, drop, slice_index};
ghost use Rattle.std.specs.Str.{IsCharBoundary};
ghost use Rattle.sdc_base.specs.Gives.{Meets};
ghost use Rattle.tcl_words.specs.declared.runs.Form.TheVariants as form;
ghost use Rattle.tcl_words.specs.Reads.{starts, PiecesFrom, WordFrom};

use crate::enclosed::{Open, closing};
use crate::gathered::Gathered;
use crate::pieces::{Step, piece_at};
use crate::runs::Form;
use crate::scan::may_follow;
use sdc_base::Stop;
use source_types::{TclKind, Word};
use std::alloc::Global;

/// A word of a text, and where its spelling ends in bytes.
#[derive(Drop)]
pub struct Spelled {
    pub word: Word,
    pub end: usize,
}

/// The word that stands at a place. Refused as `Unclosed` where a brace, a quote or a bracket has no end, as
/// `ExtraAfterBrace` where text stands right after a closing brace or quote, as `BadWord` where a variable is an
/// element of an array.
pub fn word_at(alloc: Global, text: &str, from: usize) -> Result<Spelled, Stop<TclKind>>
    requires within { from < length text.now }
    requires begins { starts (drop from text.now) ≡ true }
    requires boundary { IsCharBoundary text.now from }
    ensures { Meets result (WordFrom text.now from) }
{
    let byte = text.as_bytes()[from];
    if byte == b'{' {
        return braced_at(alloc, text, from);
    }
    if byte == b'"' {
        return quoted_at(alloc, text, from);
    }
    bare_at(alloc, text, from)
}

/// The braced word whose opening brace stands at a place.
#[tactic(auto, using(crate::proofs::WordFacts::braced_unclosed, crate::proofs::WordFacts::braced_word, crate::proofs::WordFacts::braced_extra, crate::proofs::WordFacts::braced_whole))]
fn braced_at(alloc: Global, text: &str, from: usize) -> Result<Spelled, Stop<TclKind>>
    requires within { from < length text.now }
    requires opens { slice_index text.now from ≡ 123 }
    ensures { Meets result (WordFrom text.now from) }
{
    let bytes = text.as_bytes();
    let Some(end) = closing(alloc, bytes, from + 1, Open::Brace)? else {
        return Err(Stop::Refused(TclKind::Unclosed));
    };
    let Spelled { word, .. } = inner_pieces(alloc, &text[from + 1..end - 1])?;
    if !may_follow(bytes, end) {
        return Err(Stop::Refused(TclKind::ExtraAfterBrace));
    }
    Ok(Spelled { word, end })
}

/// The word of the pieces of a text that stands in braces.
pub fn inner_pieces(alloc: Global, inner: &str) -> Result<Spelled, Stop<TclKind>>
    ensures { Meets result (PiecesFrom form.Braced inner.now 0) }
{
    pieces_at(alloc, inner, 0, Form::Braced)
}

/// The quoted word whose opening quote stands at a place.
#[tactic(auto, using(crate::proofs::WordFacts::quoted_word, crate::proofs::WordFacts::quoted_extra, crate::proofs::WordFacts::quoted_error))]
fn quoted_at(alloc: Global, text: &str, from: usize) -> Result<Spelled, Stop<TclKind>>
    requires within { from < length text.now }
    requires opens { slice_index text.now from ≡ 34 }
    ensures { Meets result (WordFrom text.now from) }
{
    let spelled = pieces_at(alloc, text, from + 1, Form::Quoted)?;
    if !may_follow(text.as_bytes(), spelled.end) {
        return Err(Stop::Refused(TclKind::ExtraAfterBrace));
    }
    Ok(spelled)
}

/// The bare word whose first byte stands at a place.
#[tactic(auto, using(crate::proofs::WordFacts::bare_word, crate::proofs::WordFacts::bare_error))]
fn bare_at(alloc: Global, text: &str, from: usize) -> Result<Spelled, Stop<TclKind>>
    requires within { from < length text.now }
    requires begins { starts (drop from text.now) ≡ true }
    requires no_brace { slice_index text.now from ≡ 123 → ⊥ }
    requires no_quote { slice_index text.now from ≡ 34 → ⊥ }
    requires boundary { IsCharBoundary text.now from }
    ensures { Meets result (WordFrom text.now from) }
{
    let spelled = pieces_at(alloc, text, from, Form::Bare)?;
    Ok(spelled)
}

/// The word of the pieces that stand from a place on.
#[tactic(auto, using(crate::proofs::PieceRows::pieces_none, crate::proofs::PieceRows::pieces_more, crate::proofs::PieceRows::pieces_end, crate::proofs::PieceRows::pieces_error))]
pub fn pieces_at(
    alloc: Global,
    text: &str,
    from: usize,
    form: Form,
) -> Result<Spelled, Stop<TclKind>>
    requires within { from ≤ length text.now }
    requires boundary { IsCharBoundary text.now from }
    ensures { Meets result (PiecesFrom form text.now from) }
{
    let bytes = text.as_bytes();
    let mut gathered = Gathered::new(alloc);
    let mut at = from;
    loop {
        match piece_at(alloc, bytes, at, form)? {
            Step::Ends(end) => {
                let word = gathered.into_word()?;
                return Ok(Spelled { word, end });
            }
            Step::Found(piece) => {
                gathered.add(alloc, text, piece)?;
                at = piece.next;
            }
        }
    }
}
