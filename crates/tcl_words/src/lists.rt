//! The items of a list.

ghost use Rattle.std.specs.Prelude.{◌≡◌, ◌<◌, ◌≤◌, true, length, drop, slice_index};
ghost use Rattle.std.specs.Str.{IsCharBoundary};
ghost use Rattle.sdc_base.specs.Gives.{Meets};
ghost use Rattle.tcl_model.specs.ListItems.{Lists};
ghost use Rattle.tcl_words.specs.declared.runs.Form.TheVariants as form;
ghost use Rattle.tcl_words.specs.ItemReads.{ItemFrom, ItemPiecesFrom, starts_item};

use crate::enclosed::{Open, closing};
use crate::item_gaps::{item_start, may_end_item};
use crate::item_pieces::{add_piece, item_piece_at};
use crate::pieces::Step;
use crate::runs::Form;
use sdc_base::{List, Stop, Text};
use source_types::TclKind;
use std::alloc::Global;

/// An item of a list, and where its spelling ends in bytes.
#[derive(Drop)]
pub struct Item {
    pub text: Text,
    pub end: usize,
}

/// The item of the pieces that stand from a place on.
#[tactic(auto, using(crate::proofs::ItemRows::pieces_none, crate::proofs::ItemRows::pieces_more, crate::proofs::ItemRows::pieces_end, crate::proofs::ItemRows::pieces_error))]
fn pieces_at(alloc: Global, text: &str, from: usize, form: Form) -> Result<Item, Stop<TclKind>>
    requires within { from ≤ length text.now }
    requires boundary { IsCharBoundary text.now from }
    ensures { Meets result (ItemPiecesFrom form text.now from) }
{
    let bytes = text.as_bytes();
    let mut item = Text::new(alloc);
    let mut at = from;
    loop {
        match item_piece_at(bytes, at, form).map_err(Stop::Refused)? {
            Step::Ends(end) => return Ok(Item { text: item, end }),
            Step::Found(piece) => {
                add_piece(&mut item, text, piece)?;
                at = piece.next;
            }
        }
    }
}

/// The braced item whose opening brace stands at a place.
#[tactic(auto, using(crate::proofs::ItemFacts::braced_unclosed, crate::proofs::ItemFacts::braced_item, crate::proofs::ItemFacts::braced_extra, crate::proofs::ItemFacts::braced_whole))]
fn braced_at(alloc: Global, text: &str, from: usize) -> Result<Item, Stop<TclKind>>
    requires within { from < length text.now }
    requires opens { slice_index text.now from ≡ 123 }
    ensures { Meets result (ItemFrom text.now from) }
{
    let bytes = text.as_bytes();
    let Some(end) = closing(alloc, bytes, from + 1, Open::Brace)? else {
        return Err(Stop::Refused(TclKind::Unclosed));
    };
    let Item { text: item, .. } = inner_pieces(alloc, &text[from + 1..end - 1])?;
    if !may_end_item(bytes, end) {
        return Err(Stop::Refused(TclKind::ExtraAfterBrace));
    }
    Ok(Item { text: item, end })
}

/// The item of the pieces of a text that stands in braces.
fn inner_pieces(alloc: Global, inner: &str) -> Result<Item, Stop<TclKind>>
    ensures { Meets result (ItemPiecesFrom form.Braced inner.now 0) }
{
    pieces_at(alloc, inner, 0, Form::Braced)
}

/// The quoted item whose opening quote stands at a place.
#[tactic(auto, using(crate::proofs::ItemFacts::quoted_item, crate::proofs::ItemFacts::quoted_extra, crate::proofs::ItemFacts::quoted_error))]
fn quoted_at(alloc: Global, text: &str, from: usize) -> Result<Item, Stop<TclKind>>
    requires within { from < length text.now }
    requires opens { slice_index text.now from ≡ 34 }
    ensures { Meets result (ItemFrom text.now from) }
{
    let item = pieces_at(alloc, text, from + 1, Form::Quoted)?;
    if !may_end_item(text.as_bytes(), item.end) {
        return Err(Stop::Refused(TclKind::ExtraAfterBrace));
    }
    Ok(item)
}

/// The bare item whose first byte stands at a place.
#[tactic(auto, using(crate::proofs::ItemFacts::bare_item, crate::proofs::ItemFacts::bare_error))]
fn bare_at(alloc: Global, text: &str, from: usize) -> Result<Item, Stop<TclKind>>
    requires within { from < length text.now }
    requires begins { starts_item (drop from text.now) ≡ true }
    requires no_brace { slice_index text.now from ≡ 123 → ⊥ }
    requires no_quote { slice_index text.now from ≡ 34 → ⊥ }
    requires boundary { IsCharBoundary text.now from }
    ensures { Meets result (ItemFrom text.now from) }
{
    let item = pieces_at(alloc, text, from, Form::Bare)?;
    Ok(item)
}

/// The item that begins at a place. Refused as `Unclosed` where a brace or a quote has no end, as
/// `ExtraAfterBrace` where text stands right after a closing one.
fn item_at(alloc: Global, text: &str, from: usize) -> Result<Item, Stop<TclKind>>
    requires within { from < length text.now }
    requires begins { starts_item (drop from text.now) ≡ true }
    requires boundary { IsCharBoundary text.now from }
    ensures { Meets result (ItemFrom text.now from) }
{
    let byte = text.as_bytes()[from];
    if byte == b'{' {
        return braced_at(alloc, text, from);
    }
    if byte == b'"' {
        return quoted_at(alloc, text, from);
    }
    bare_at(alloc, text, from)
}

/// The items of a list (Tcl), in order. They are parted by blanks, tabs, carriage returns, newlines and continued
/// lines; braces, quotes and backslashes act in them as in words, and every other byte stands for itself.
/// Refused as `Unclosed` where a brace or a quote has no end, as `ExtraAfterBrace` where text stands right after a
/// closing one, whichever stands first.
#[tactic(auto, using(crate::proofs::ListFacts::items_none, crate::proofs::ListFacts::items_more, crate::proofs::ListFacts::items_all, crate::proofs::ListFacts::items_error, crate::proofs::ItemGaps::begins_item))]
pub fn list_items(alloc: Global, text: &str) -> Result<List<Text>, Stop<TclKind>>
    ensures { Meets result (Lists text.now) }
{
    let bytes = text.as_bytes();
    let mut items = List::new(alloc);
    let mut at = 0;
    loop {
        let begin = item_start(bytes, at);
        if begin == bytes.len() {
            return Ok(items);
        }
        let Item { text: item, end } = item_at(alloc, text, begin)?;
        items.push(item)?;
        at = end;
    }
}
