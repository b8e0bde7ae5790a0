//! The text that a list is made of.

ghost use Rattle.std.specs.Prelude.{◌≡◌, ◌<◌, ◌≤◌, ◌++◌, ◌∷◌, [], true, length, IfOk, OnOk};
ghost use Rattle.std.specs.Str.{IsCharBoundary};
ghost use Rattle.std.specs.List.{list_any};
ghost use Rattle.tcl_model.specs.ListText as rule;
ghost use Rattle.tcl_words.specs.Taken.{IsPushed, UntakenTo, is_bare, untaken};

use crate::scan::is_space;
use sdc_base::{List, NoMemory, Text};
use std::alloc::Global;

/// Whether an item with a byte needs braces.
fn needs_braces(byte: u8) -> bool
    ensures { result ≡ rule.needs_braces byte }
{
    is_space(byte) || matches!(byte, b'\n' | b'[' | b']' | b'$' | b';' | b'#')
}

/// Whether an item with a byte needs backslashes.
fn needs_backslashes(byte: u8) -> bool
    ensures { result ≡ rule.needs_backslashes byte }
{
    matches!(byte, b'{' | b'}' | b'"' | b'\\')
}

/// Whether a byte has a backslash in an item with backslashes.
fn is_taken(byte: u8) -> bool
    ensures { result ≡ rule.is_taken byte }
{
    needs_backslashes(byte) || is_space(byte) || byte == b'\n'
}

/// Whether a byte has no backslash in an item with backslashes.
fn is_untaken(byte: u8) -> bool
    ensures { result ≡ untaken byte }
{
    !is_taken(byte)
}

/// A byte that has a backslash, with it.
fn taken(byte: u8) -> &'static str
    requires { rule.is_taken byte ≡ true }
    ensures { result.now ≡ 92 ∷ (rule.taken_as byte ∷ []) }
{
    match byte {
        b'\n' => "\\n",
        b'\t' => "\\t",
        b'\r' => "\\\r",
        b' ' => "\\ ",
        b'{' => "\\{",
        b'}' => "\\}",
        b'"' => "\\\"",
        _ => "\\\\",
    }
}

/// The place of the first byte at or after a place that has a backslash, or the end of the text.
fn untaken_end(bytes: &[u8], from: usize) -> usize
    requires { from ≤ length bytes.now }
    ensures { UntakenTo bytes.now from result }
{
    let mut at = from;
    while at < bytes.len() && is_untaken(bytes[at]) {
        at += 1;
    }
    at
}

/// Adds the bytes of an item from a place on up to the first that has a backslash, and this one with it; gives the
/// place after it. The one error is want of memory.
#[tactic(auto, using(crate::proofs::TakenFacts::pushed_end, crate::proofs::TakenFacts::pushed_taken))]
fn push_run(made: &mut Text, item: &str, from: usize) -> Result<usize, NoMemory>
    requires within { from < length item.now }
    requires boundary { IsCharBoundary item.now from }
    ensures { IfOk result (λ next. IsPushed made.old item.now from made.new next) }
{
    let bytes = item.as_bytes();
    let end = untaken_end(bytes, from);
    made.push_str(&item[from..end])?;
    if end == bytes.len() {
        return Ok(end);
    }
    made.push_str(taken(bytes[end]))?;
    Ok(end + 1)
}

/// Adds an item with backslashes to a text. The one error is want of memory.
#[tactic(auto, using(crate::proofs::TakenFacts::written_none, crate::proofs::TakenFacts::written_more, crate::proofs::TakenFacts::written_all))]
fn push_taken(made: &mut Text, item: &str) -> Result<(), NoMemory>
    ensures { OnOk result (made.new ≡ made.old ++ rule.with_backslashes item.now) }
{
    let mut at = 0;
    while at < item.len() {
        at = push_run(made, item, at)?;
    }
    Ok(())
}

/// Whether an item without a brace, a quote or a backslash needs no braces.
#[tactic(auto, using(crate::proofs::TakenFacts::bare_none, crate::proofs::TakenFacts::bare_some))]
fn stands_bare(item: &[u8]) -> bool
    ensures { result ≡ is_bare item.now }
{
    if item.len() == 0 {
        return false;
    }
    !has_enclosed(item)
}

/// Whether an item has a byte for which it needs braces.
fn has_enclosed(item: &[u8]) -> bool
    ensures { result ≡ list_any rule.needs_braces item.now }
{
    item.iter().any(|byte| needs_braces(*byte))
}

/// Whether an item needs backslashes.
fn has_taken(item: &[u8]) -> bool
    ensures { result ≡ list_any rule.needs_backslashes item.now }
{
    item.iter().any(|byte| needs_backslashes(*byte))
}

/// Adds an item that needs no backslashes to a text. The one error is want of memory.
#[tactic(auto, using(crate::proofs::TakenFacts::plain_bare, crate::proofs::TakenFacts::plain_braced))]
fn push_plain(made: &mut Text, item: &str) -> Result<(), NoMemory>
    ensures { OnOk result (made.new ≡ made.old ++ rule.plain_item item.now) }
{
    if stands_bare(item.as_bytes()) {
        made.push_str(item)?;
        return Ok(());
    }
    made.push_str("{")?;
    made.push_str(item)?;
    made.push_str("}")?;
    Ok(())
}

/// Adds an item of a list to a text. The one error is want of memory.
#[tactic(auto, using(crate::proofs::TakenFacts::item_taken, crate::proofs::TakenFacts::item_plain))]
fn push_item(made: &mut Text, item: &str) -> Result<(), NoMemory>
    ensures { OnOk result (made.new ≡ made.old ++ rule.item_text item.now) }
{
    if has_taken(item.as_bytes()) {
        push_taken(made, item)?;
        return Ok(());
    }
    push_plain(made, item)?;
    Ok(())
}

/// The text of a list of items (Tcl): `list_items` gives the items back. An item that is empty or has a space, a
/// newline, `[`, `]`, `$`, `;` or `#` stands in braces; one with a brace, a quote or a backslash has backslashes
/// instead. The one error is want of memory.
pub fn list_text(alloc: Global, items: &List<Text>) -> Result<Text, NoMemory>
    ensures { IfOk result (λ made. made ≡ rule.list_text items.now) }
{
    let mut made = Text::new(alloc);
    let Some((first, others)) = items.as_slice().split_first() else {
        return Ok(made);
    };
    push_item(&mut made, first.as_str())?;
    for item in others.iter() {
        made.push_str(" ")?;
        push_item(&mut made, item.as_str())?;
    }
    Ok(made)
}
