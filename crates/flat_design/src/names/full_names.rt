//! Names in the design: an instance's name and `/` stand in front of the names of what is in it.

ghost use Rattle.std.specs.Prelude.{◌≡◌, ◌++◌, IfOk, Some, codes};
ghost use Rattle.flat_model.specs.FlatNets.{bit_name};
ghost use Rattle.text_model.specs.Names.{begins_with_dash, is_bad_byte, is_good_name};
ghost use Rattle.flat_design.specs.Names.{no_bad_byte};

use itoa::Buffer;
use sdc_base::{NoMemory, Text};
use std::alloc::Global;

/// A name that begins with two texts, in a block with room for so many bytes more and no others.
fn begun_name(alloc: Global, first: &str, second: &str, more: usize) -> Result<Text, NoMemory>
    ensures { IfOk result (λ begun. begun ≡ first.now ++ second.now) }
{
    let length = first
        .len()
        .saturating_add(second.len())
        .saturating_add(more);
    let room = String::with_capacity(alloc, length)?;
    let mut begun = Text::from(room);
    begun.push_str(first)?;
    begun.push_str(second)?;
    Ok(begun)
}

/// The name of an instance, or of the scalar net of a name, in a module with a prefix.
pub(crate) fn full_name(alloc: Global, prefix: &str, name: &str) -> Result<Text, NoMemory>
    ensures { IfOk result (λ full. full ≡ prefix.now ++ name.now) }
{
    begun_name(alloc, prefix, name, 0)
}

/// The prefix of what stands in an instance of a name.
pub(crate) fn inner_prefix(alloc: Global, full: &str) -> Result<Text, NoMemory>
    ensures { IfOk result (λ prefix. prefix ≡ full.now ++ codes "/") }
{
    full_name(alloc, full, "/")
}

/// The name of a bit of a net in a module with a prefix.
pub(crate) fn bit_name(
    alloc: Global,
    prefix: &str,
    name: &str,
    index: Option<u32>,
) -> Result<Text, NoMemory>
    ensures { IfOk result (λ full. full ≡ prefix.now ++ bit_name name.now index) }
{
    match index {
        None => full_name(alloc, prefix, name),
        Some(index) => indexed_name(alloc, prefix, name, index),
    }
}

/// The name of a bit of a vector in a module with a prefix: its index stands in brackets.
fn indexed_name(alloc: Global, prefix: &str, name: &str, index: u32) -> Result<Text, NoMemory>
    ensures { IfOk result (λ full. full ≡ prefix.now ++ bit_name name.now (Some index)) }
{
    let mut buffer = Buffer::new();
    let digits = buffer.format(index);
    let mut full = begun_name(alloc, prefix, name, digits.len().saturating_add(2))?;
    full.push_str("[")?;
    full.push_str(digits)?;
    full.push_str("]")?;
    Ok(full)
}

/// The name of a pin of a cell.
pub(crate) fn pin_name(alloc: Global, cell: &str, pin: &str) -> Result<Text, NoMemory>
    ensures { IfOk result (λ full. full ≡ cell.now ++ (codes "/" ++ pin.now)) }
{
    let mut full = begun_name(alloc, cell, "/", pin.len())?;
    full.push_str(pin)?;
    Ok(full)
}

/// Whether a name can be printed in a list and read again: not empty, without a byte that parts or groups words, and
/// without `-` first.
pub(crate) fn is_good_name(name: &[u8]) -> bool
    ensures { result ≡ is_good_name name.now }
{
    !name.is_empty() && has_no_bad_byte(name) && !begins_with_dash(name)
}

/// Whether no byte of a name is one that names do not have.
fn has_no_bad_byte(name: &[u8]) -> bool
    ensures { result ≡ no_bad_byte name.now }
{
    name.iter().all(|byte| !is_bad_byte(*byte))
}

/// Whether a byte is one that names do not have.
fn is_bad_byte(byte: u8) -> bool
    ensures { result ≡ is_bad_byte byte }
{
    matches!(
        byte,
        b'*' | b'?' | b'{' | b'}' | b'"' | b'\\' | b' ' | b'\t' | b'\r' | b'\n'
    )
}

/// Whether a name has `-` first.
fn begins_with_dash(name: &[u8]) -> bool
    ensures { result ≡ begins_with_dash name.now }
{
    match name {
        [first, ..] => *first == b'-',
        [] => false,
    }
}
