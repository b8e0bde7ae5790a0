//! The report of a merge: which clocks of the modes each merged clock is.

ghost use Rattle.std.specs.Prelude.{◌≡◌, ◌++◌, ◌+◌, ◌<◌, ◌≤◌, ◌^◌, ℕ, List, length, IfOk, OnOk};
ghost use Rattle.std.specs.List.{AllZip};
ghost use Rattle.sdc_cli.specs.MergeRows.{IsNumbered, row_if_numbered, file_clocks, mode_clocks, clock_rows, report_of};

use crate::reports::{ClockRow, MergeReport, ModeClock};
use sdc_base::{Duplicate, List, NoMemory, Text};
use std::alloc::Global;
use timing_types::{Clock, ClockMap, Mode};

/// The report of a merge of modes, whose files have these names, into these clocks. Over the empty design no path
/// is timed and no command is left. The one error is want of memory.
pub fn report_of(
    alloc: Global,
    files: &[Text],
    modes: &[Mode],
    merged: &ClockMap,
) -> Result<MergeReport, NoMemory>
    requires each { length files.now ≡ length modes.now }
    requires maps { AllZip IsNumbered modes.now merged.now.maps }
    ensures { IfOk result (λ report. report ≡ report_of files.now modes.now merged.now) }
{
    let clocks = clock_rows(alloc, files, modes, merged)?;
    Ok(MergeReport {
        clocks,
        listed: List::new(alloc),
        not_carried: List::new(alloc),
    })
}

/// A row for each merged clock, in order.
fn clock_rows(
    alloc: Global,
    files: &[Text],
    modes: &[Mode],
    merged: &ClockMap,
) -> Result<List<ClockRow>, NoMemory>
    requires each { length files.now ≡ length modes.now }
    requires maps { AllZip IsNumbered modes.now merged.now.maps }
    ensures { IfOk result
        (λ rows. rows ≡ clock_rows 0 files.now modes.now merged.now.maps merged.now.clocks) }
{
    let mut rows = List::new(alloc);
    for (number, clock) in merged.clocks.as_slice().iter().enumerate() {
        let modes = mode_clocks(alloc, number, files, modes, merged.maps.as_slice())?;
        let name = clock.name.copy(alloc)?;
        rows.push(ClockRow { name, modes })?;
    }
    Ok(rows)
}

/// The clocks of the modes that are the merged clock of a number.
fn mode_clocks(
    alloc: Global,
    merged: usize,
    files: &[Text],
    modes: &[Mode],
    maps: &[List<u32>],
) -> Result<List<ModeClock>, NoMemory>
    requires each { length files.now ≡ length modes.now }
    requires maps { AllZip IsNumbered modes.now maps.now }
    ensures { IfOk result (λ clocks. clocks ≡ mode_clocks merged files.now modes.now maps.now) }
{
    let mut clocks = List::new(alloc);
    for (at, file) in files.iter().enumerate() {
        let numbers = maps[at].as_slice();
        push_file_clocks(
            alloc,
            &mut clocks,
            merged,
            file,
            modes[at].clocks.as_slice(),
            numbers,
        )?;
    }
    Ok(clocks)
}

/// Adds those of one file.
fn push_file_clocks(
    alloc: Global,
    out: &mut List<ModeClock>,
    merged: usize,
    file: &Text,
    clocks: &[Clock],
    numbers: &[u32],
) -> Result<(), NoMemory>
    requires { length numbers.now ≡ length clocks.now }
    ensures { OnOk result (out.new ≡ out.old ++ file_clocks merged file.now clocks.now numbers.now) }
{
    for (at, clock) in clocks.iter().enumerate() {
        push_clock(alloc, out, merged, file, clock, numbers[at])?;
    }
    Ok(())
}

/// Adds a clock with this number, where that is the merged clock's.
fn push_clock(
    alloc: Global,
    out: &mut List<ModeClock>,
    merged: usize,
    file: &Text,
    clock: &Clock,
    number: u32,
) -> Result<(), NoMemory>
    ensures { OnOk result (out.new ≡ out.old ++ row_if_numbered merged file.now clock.now number) }
{
    if number as usize == merged {
        let name = clock.name.copy(alloc)?;
        let file = file.copy(alloc)?;
        out.push(ModeClock { file, name })?;
    }
    Ok(())
}
