//! Brackets that stand for themselves.

ghost use Rattle.std.specs.Prelude.{◌≡◌, ◌++◌, ◌∷◌, [], IfOk};
ghost use Rattle.std.specs.List.{list_all};
ghost use Rattle.text_model.specs.Bytes as bytes;
ghost use Rattle.sdc_base.specs.Gives.{Gives};
ghost use Rattle.timing_types.specs.declared.objects.Value.TheVariants as value;
ghost use Rattle.tcl_eval.specs.Worlds.{index_outcome};

use crate::commands::faults::refuse;
use sdc_base::{NoMemory, Stop, Text};
use source_types::{Kind, TclKind};
use std::alloc::Global;
use timing_types::Value;

/// Whether a byte is a part of an index.
fn is_index_byte(byte: u8) -> bool
    ensures { result ≡ bytes.is_index_byte byte }
{
    byte.is_ascii_digit() || matches!(byte, b'*' | b'?' | b':')
}

/// Whether all bytes are parts of an index.
fn are_index(script: &[u8]) -> bool
    ensures { result ≡ list_all bytes.is_index_byte script.now }
{
    script.iter().all(|byte| is_index_byte(*byte))
}

/// Whether a script is an index: digits, `*`, `?` and `:`, at least one.
pub fn is_index(script: &[u8]) -> bool
    ensures { result ≡ bytes.is_index script.now }
{
    !script.is_empty() && are_index(script)
}

/// An index in its brackets. The one error is want of memory.
fn bracketed(alloc: Global, index: &str) -> Result<Value, NoMemory>
    ensures { IfOk result (λ made. made ≡ value.Text (91 ∷ (index.now ++ 93 ∷ []))) }
{
    let mut text = Text::new(alloc);
    text.push_str("[")?;
    text.push_str(index)?;
    text.push_str("]")?;
    Ok(Value::Text(text))
}

/// What an index gives inside so many parentheses, where so many levels are left: itself in its brackets. Refused as
/// `TooDeep` where no level is left inside the parentheses.
#[tactic(auto, using(crate::proofs::IndexFacts::index_within, crate::proofs::IndexFacts::index_too_deep))]
pub fn index_value(
    alloc: Global,
    left: usize,
    inside: usize,
    index: &str,
) -> Result<Value, Stop<Kind>>
    ensures { Gives result (index_outcome left inside index.now) }
{
    if left <= inside {
        return Err(refuse(TclKind::TooDeep));
    }
    let value = bracketed(alloc, index)?;
    Ok(value)
}
