//! The pieces that an item of a list is made of.

ghost use Rattle.std.specs.Prelude.{◌≡◌, ◌≤◌, ◌++◌, length, drop, OnOk};
ghost use Rattle.std.specs.Str.{IsCharBoundary};
ghost use Rattle.tcl_model.specs.ListItems as grammar;
ghost use Rattle.tcl_words.specs.Forms.{form_of};
ghost use Rattle.tcl_words.specs.Steps.{piece_of, StepAt};

use crate::item_gaps::parts_items;
use crate::pieces::{Kind, Piece, Step, after_backslash, itself, text_end, word_end};
use crate::runs::{Form, Run, run_end};
use sdc_base::{NoMemory, Text};
use source_types::TclKind;

/// Whether a byte ends an item of a form.
fn ends_item(form: Form, byte: u8) -> bool
    ensures { result ≡ grammar.ends_item (form_of form) byte }
{
    match form {
        Form::Braced => false,
        Form::Quoted => byte == b'"',
        Form::Bare => parts_items(byte),
    }
}

/// What stands at a place of an item of a form. Refused as `Unclosed` where a quote has no end.
#[tactic(auto, using(crate::proofs::ItemPieces::at_none, crate::proofs::ItemPieces::at_end, crate::proofs::ItemPieces::at_backslash, crate::proofs::ItemPieces::at_run))]
pub fn item_piece_at(bytes: &[u8], at: usize, form: Form) -> Result<Step, TclKind>
    requires { at ≤ length bytes.now }
    ensures { StepAt (grammar.item_piece_at (form_of form) (drop at bytes.now)) bytes.now at result }
{
    if at == bytes.len() {
        return text_end(bytes, at, form);
    }
    let byte = bytes[at];
    if ends_item(form, byte) {
        return Ok(Step::Ends(word_end(at, form)));
    }
    if byte == b'\\' {
        return Ok(after_backslash(bytes, at, form));
    }
    Ok(itself(at, run_end(bytes, at + 1, Run::Plain(form))))
}

/// Adds the text of a piece to an item. The one error is want of memory.
pub fn add_piece(item: &mut Text, text: &str, piece: Piece) -> Result<(), NoMemory>
    requires order { piece.from ≤ piece.to }
    requires inside { piece.to ≤ length text.now }
    requires from_boundary { IsCharBoundary text.now piece.from }
    requires to_boundary { IsCharBoundary text.now piece.to }
    ensures { OnOk result (item.new ≡ item.old ++ grammar.bytes_of (piece_of text.now piece)) }
{
    let bytes = &text[piece.from..piece.to];
    match piece.kind {
        Kind::Text => item.push_str(bytes)?,
        Kind::Newline => item.push_str("\n")?,
        Kind::Tab => item.push_str("\t")?,
        Kind::Blank => item.push_str(" ")?,
        Kind::Variable | Kind::Script => {}
    }
    Ok(())
}
