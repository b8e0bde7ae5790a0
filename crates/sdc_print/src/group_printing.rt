//! The lines of exclusive clocks.

ghost use Rattle.std.specs.Prelude.{◌≡◌, ◌^◌, ◌≤◌, IfOk, OnOk, OnErr, length, slice_get};
ghost use Rattle.mode_model.specs.PrintedFile.{name_of};
ghost use Rattle.constraint_model.specs.ExclusivePairs.{ArePairs};
ghost use Rattle.sdc_print.specs.Added.{added, Overflows};
ghost use Rattle.sdc_print.specs.Runs.{run_length, group_text, groups_text, second_names};

use crate::sinks::{Sink, sum};
use sdc_base::{List, NoMemory};
use timing_types::{Clock, Pair};

/// Adds the line of each clock with later exclusive clocks: the clock, and all of these. The pairs are in order.
pub fn push_groups(out: &mut Sink, clocks: &List<Clock>, pairs: &List<Pair>) -> Result<(), NoMemory>
    requires { ArePairs (length clocks.now) pairs.now }
    ensures adds { OnOk result (out.new ≡ added out.old (groups_text clocks.now pairs.now)) }
    ensures limit { OnErr result (Overflows (added out.old (groups_text clocks.now pairs.now))) }
{
    let mut rest = pairs.as_slice();
    for (place, clock) in clocks.as_slice().iter().enumerate() {
        let (group, others) = rest.split_at(group_size(rest, place));
        push_group(out, clock.name.as_bytes(), clocks, group)?;
        rest = others;
    }
    Ok(())
}

/// How many pairs from the front on have the clock at a place as their first.
fn group_size(pairs: &[Pair], place: usize) -> usize
    ensures size { result ≡ run_length place pairs.now }
    ensures within { result ≤ length pairs.now }
{
    for (size, pair) in pairs.iter().enumerate() {
        if pair.first as usize != place {
            return size;
        }
    }
    pairs.len()
}

/// Adds the line that makes a clock and the second ones of some pairs exclusive, where there are any.
pub fn push_group(
    out: &mut Sink,
    name: &[u8],
    clocks: &List<Clock>,
    pairs: &[Pair],
) -> Result<(), NoMemory>
    ensures adds { OnOk result (out.new ≡ added out.old (group_text name.now clocks.now pairs.now)) }
    ensures limit { OnErr result (Overflows (added out.old (group_text name.now clocks.now pairs.now))) }
{
    if pairs.is_empty() {
        return Ok(());
    }
    out.push(b"set_clock_groups -asynchronous -group [get_clocks {")?;
    out.push(name)?;
    out.push(b"}] -group [get_clocks {")?;
    push_second_names(out, clocks, pairs)?;
    out.push(b"}]\n")?;
    Ok(())
}

/// Adds the names of the second clocks of pairs, with a blank between each two.
#[tactic(auto, unfolding(crate::specs::Added::added, crate::specs::Added::Overflows))]
fn push_second_names(out: &mut Sink, clocks: &List<Clock>, pairs: &[Pair]) -> Result<(), NoMemory>
    ensures adds { OnOk result (out.new ≡ added out.old (second_names clocks.now pairs.now)) }
    ensures limit { OnErr result (Overflows (added out.old (second_names clocks.now pairs.now))) }
{
    match out {
        Sink::Bytes(_) => write_second_names(out, clocks, pairs)?,
        Sink::Count(count) => *count = sum(*count, second_names_length(clocks, pairs)?)?,
    }
    Ok(())
}

/// The number of bytes of these names with their blanks. The one error is the answer where it passes 64 bits.
fn second_names_length(clocks: &List<Clock>, pairs: &[Pair]) -> Result<u64, NoMemory>
    ensures counts { IfOk result (λ bytes. bytes ≡ length (second_names clocks.now pairs.now)) }
    ensures limit { OnErr result (2 ^ 64 ≤ length (second_names clocks.now pairs.now)) }
{
    let mut bytes = 0;
    for (place, pair) in pairs.iter().enumerate() {
        let with_blank = sum(bytes, place.min(1) as u64)?;
        bytes = sum(with_blank, clock_name_length(clocks, pair.second))?;
    }
    Ok(bytes)
}

/// The number of bytes of the name of the clock at a place.
fn clock_name_length(clocks: &List<Clock>, place: u32) -> u64
    ensures { result ≡ length (name_of (slice_get clocks.now place)) }
{
    match clocks.get(place as usize) {
        Some(clock) => clock.name.as_bytes().len() as u64,
        None => 0,
    }
}

/// Adds the names one by one.
fn write_second_names(out: &mut Sink, clocks: &List<Clock>, pairs: &[Pair]) -> Result<(), NoMemory>
    ensures adds { OnOk result (out.new ≡ added out.old (second_names clocks.now pairs.now)) }
    ensures limit { OnErr result (Overflows (added out.old (second_names clocks.now pairs.now))) }
{
    for (place, pair) in pairs.iter().enumerate() {
        if place > 0 {
            out.push(b" ")?;
        }
        push_clock_name(out, clocks, pair.second)?;
    }
    Ok(())
}

/// Adds the name of the clock at a place.
fn push_clock_name(out: &mut Sink, clocks: &List<Clock>, place: u32) -> Result<(), NoMemory>
    ensures adds { OnOk result (out.new ≡ added out.old (name_of (slice_get clocks.now place))) }
    ensures limit { OnErr result (Overflows (added out.old (name_of (slice_get clocks.now place)))) }
{
    match clocks.get(place as usize) {
        Some(clock) => out.push(clock.name.as_bytes()),
        None => Ok(()),
    }
}
