//! Words of a printed line.

ghost use Rattle.std.specs.Prelude.{◌≡◌, OnOk, OnErr};
ghost use Rattle.std.specs.List.{list_all};
ghost use Rattle.sdc_base.specs.Time.{IsUnit, time_text_of};
ghost use Rattle.mode_model.specs.PrintedLine.{is_bare_byte, is_bare_text, spelled, name_word};
ghost use Rattle.sdc_print.specs.Added.{added, Overflows};

use crate::sinks::Sink;
use sdc_base::{NoMemory, TimeBuffer};

/// Adds a name that stands outside a list: bare where it may stand so, else in braces.
pub fn push_name(out: &mut Sink, name: &[u8]) -> Result<(), NoMemory>
    ensures adds { OnOk result (out.new ≡ added out.old (spelled (name_word name.now))) }
    ensures limit { OnErr result (Overflows (added out.old (spelled (name_word name.now)))) }
{
    if is_bare(name) {
        return out.push(name);
    }
    out.push(b"{")?;
    out.push(name)?;
    out.push(b"}")?;
    Ok(())
}

/// Whether a text may stand bare.
fn is_bare(text: &[u8]) -> bool
    ensures { result ≡ is_bare_text text.now }
{
    !text.is_empty() && are_bare(text)
}

/// Whether all bytes of a text may stand in a bare word.
fn are_bare(text: &[u8]) -> bool
    ensures { result ≡ list_all is_bare_byte text.now }
{
    text.iter().all(|byte| may_stand_bare(*byte))
}

/// Whether a byte may stand in a bare word.
fn may_stand_bare(byte: u8) -> bool
    ensures { result ≡ is_bare_byte byte }
{
    matches!(
        byte,
        b'A'..=b'Z' | b'a'..=b'z' | b'0'..=b'9' | b'_' | b'.' | b'/' | b'+' | b'-' | b':' | b',' | b'='
    )
}

/// Adds a time in femtoseconds as its number of units, `unit` being a unit in femtoseconds.
pub fn push_time(out: &mut Sink, unit: i64, time: i64) -> Result<(), NoMemory>
    requires { IsUnit unit }
    ensures adds { OnOk result (out.new ≡ added out.old (time_text_of time unit)) }
    ensures limit { OnErr result (Overflows (added out.old (time_text_of time unit))) }
{
    let mut buffer = TimeBuffer::new();
    out.push(buffer.format(time, unit))?;
    Ok(())
}
