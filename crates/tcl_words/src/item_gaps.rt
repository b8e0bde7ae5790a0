//! What stands between the items of a list.

ghost use Rattle.std.specs.Prelude.{◌≡◌, ◌<◌, ◌≤◌, length, drop};
ghost use Rattle.tcl_model.specs.ListItems as grammar;
ghost use Rattle.tcl_words.specs.Spans.{LeadsTo, StepsTo};

use crate::scan::{continues, is_space};

/// Whether a byte parts items: a space, a tab, a carriage return or a newline.
pub fn parts_items(byte: u8) -> bool
    ensures { result ≡ grammar.parts_items byte }
{
    is_space(byte) || byte == b'\n'
}

/// Whether an item that a brace or quote closes may end before a place.
pub fn may_end_item(bytes: &[u8], at: usize) -> bool
    requires { at ≤ length bytes.now }
    ensures { result ≡ grammar.may_end_item (drop at bytes.now) }
{
    if at == bytes.len() {
        return true;
    }
    parts_items(bytes[at]) || (bytes[at] == b'\\' && continues(bytes, at + 1))
}

/// The place after a byte that parts items, or after the backslash of a continued line; the place itself where
/// neither stands there.
#[tactic(auto, using(crate::proofs::ItemGaps::steps_byte, crate::proofs::ItemGaps::steps_continued, crate::proofs::ItemGaps::steps_none))]
fn parting_step(bytes: &[u8], at: usize) -> usize
    requires { at < length bytes.now }
    ensures { StepsTo grammar.after_parting bytes.now at result }
{
    if parts_items(bytes[at]) {
        return at + 1;
    }
    if bytes[at] == b'\\' && continues(bytes, at + 1) {
        return at + 1;
    }
    at
}

/// The place where the first item at or after a place begins, or the end of the text.
#[tactic(auto, using(crate::proofs::GapFacts::reached_none, crate::proofs::GapFacts::reached_more, crate::proofs::GapFacts::reached_stays, crate::proofs::GapFacts::reached_end, crate::proofs::ItemGaps::parting_nil))]
pub fn item_start(bytes: &[u8], from: usize) -> usize
    requires { from ≤ length bytes.now }
    ensures { LeadsTo bytes.now from result (grammar.after_parting (drop from bytes.now)) }
{
    let mut at = from;
    while at < bytes.len() {
        let next = parting_step(bytes, at);
        if next == at {
            return at;
        }
        at = next;
    }
    at
}
