//! The printed file.

ghost use Rattle.std.specs.Prelude.{◌≡◌, ◌+◌, ◌^◌, ◌≤◌, IfOk, OnOk, OnErr, length};
ghost use Rattle.sdc_base.specs.Time.{IsUnit};
ghost use Rattle.mode_model.specs.PrintedLine.{lines_text};
ghost use Rattle.mode_model.specs.PrintedFile.{IsPrintable, header_lines, printed_file, unit_text};
ghost use Rattle.sdc_print.specs.Added.{added, Overflows};
ghost use Rattle.sdc_print.specs.Runs.{group_text};

use crate::clock_printing::push_clocks;
use crate::group_printing::{push_group, push_groups};
use crate::sinks::Sink;
use sdc_base::{List, NoMemory};
use std::alloc::Global;
use timing_types::{Clock, Design, Mode, Pair};

/// The constraint file (SDC 2.1) that gives a mode over a design, with times in the design's unit: the header, the
/// clocks in order, and the groups of exclusive clocks. The one error is want of memory.
pub fn print(alloc: Global, design: &Design, mode: &Mode) -> Result<List<u8>, NoMemory>
    requires { IsPrintable design.now mode.now }
    ensures { IfOk result (λ text. text ≡ printed_file design.now mode.now) }
{
    let mut out = Sink::Bytes(List::new(alloc));
    push_file(&mut out, design, mode)?;
    match out {
        Sink::Bytes(bytes) => Ok(bytes),
        Sink::Count(_) => unreachable!(),
    }
}

/// The number of bytes of that file, which is not made. No memory is taken: the one error, want of memory, is the
/// answer where the number passes 64 bits, and nowhere else.
pub fn printed_length(design: &Design, mode: &Mode) -> Result<u64, NoMemory>
    requires { IsPrintable design.now mode.now }
    ensures counts { IfOk result (λ count. count ≡ length (printed_file design.now mode.now)) }
    ensures limit { OnErr result (2 ^ 64 ≤ length (printed_file design.now mode.now)) }
{
    let mut out = Sink::Count(0);
    push_file(&mut out, design, mode)?;
    match out {
        Sink::Count(count) => Ok(count),
        Sink::Bytes(_) => unreachable!(),
    }
}

/// The number of bytes of a front, and of the line after it that makes a clock and the second ones of some pairs
/// exclusive. The line is not made, and there is none where there are no pairs. The file of a mode is that of its
/// clocks alone, then such a line for each clock, with the pairs of which it is the first. No memory is taken: the
/// one error, want of memory, is the answer where the number passes 64 bits, and nowhere else.
pub fn length_with_group(
    front: u64,
    clock: &Clock,
    clocks: &List<Clock>,
    pairs: &List<Pair>,
) -> Result<u64, NoMemory>
    ensures counts { IfOk result
        (λ count. count ≡ front + length (group_text clock.now.name clocks.now pairs.now)) }
    ensures limit { OnErr result
        (2 ^ 64 ≤ front + length (group_text clock.now.name clocks.now pairs.now)) }
{
    let mut out = Sink::Count(front);
    push_group(&mut out, clock.name.as_bytes(), clocks, pairs.as_slice())?;
    match out {
        Sink::Count(count) => Ok(count),
        Sink::Bytes(_) => unreachable!(),
    }
}

/// Adds the file.
fn push_file(out: &mut Sink, design: &Design, mode: &Mode) -> Result<(), NoMemory>
    requires { IsPrintable design.now mode.now }
    ensures adds { OnOk result (out.new ≡ added out.old (printed_file design.now mode.now)) }
    ensures limit { OnErr result (Overflows (added out.old (printed_file design.now mode.now))) }
{
    push_header(out, design.unit)?;
    push_clocks(out, design.unit, &mode.clocks)?;
    push_groups(out, &mode.clocks, &mode.exclusive)?;
    Ok(())
}

/// Adds the version of SDC and the time unit.
fn push_header(out: &mut Sink, unit: i64) -> Result<(), NoMemory>
    ensures adds { OnOk result (out.new ≡ added out.old (lines_text (header_lines unit))) }
    ensures limit { OnErr result (Overflows (added out.old (lines_text (header_lines unit)))) }
{
    out.push(b"set sdc_version 2.1\nset_units -time ")?;
    out.push(unit_name(unit).as_bytes())?;
    out.push(b"\n")?;
    Ok(())
}

/// A unit in femtoseconds as SDC names it.
#[tactic(auto, unfolding(mode_model::specs::PrintedFile::unit_text))]
fn unit_name(unit: i64) -> &'static str
    ensures { result.now ≡ unit_text unit }
{
    match unit.unsigned_abs() {
        1_000 => "1ps",
        10_000 => "10ps",
        100_000 => "100ps",
        _ => "1ns",
    }
}
