//! The merge of modes of clocks and clock groups, over the empty design.

ghost use Rattle.std.specs.Prelude.{◌≡◌, ◌+◌, ◌++◌, ◌≤◌, ◌^◌, length, IfOk, IfErr, OnOk};
ghost use Rattle.sdc_base.specs.declared.memory.Stop.TheVariants as stop;
ghost use Rattle.merge_model.specs.MergedMode.{IsMergeOf};
ghost use Rattle.merge_model.specs.PlainViews.{own_wave, own_waves, view_of, views_of, clocks_in};
ghost use Rattle.constraint_model.specs.ModeLines.{IsOfClocks};
ghost use Rattle.mode_model.specs.PrintedFile.{ModesArePrintable};
ghost use Rattle.sdc_print.specs.Runs.{groups_text};
ghost use Rattle.flat_design.specs.EmptyDesign.{empty_design};
ghost use Rattle.sdc_cli.specs.MergeOutput.{IsMergedLength};

use clock_map::{ExclusiveRows, exclusive_pairs, map_clocks};
use sdc_base::{Duplicate, List, NoMemory, Stop};
use sdc_print::{length_with_group, printed_length};
use std::alloc::Global;
use timing_types::{Arrivals, Clock, Design, Form, MergeStop, Merged, Mode, Pair, View, Wave};

/// The merged mode of modes of clocks and clock groups, over a design without a pin. There no path is timed, so
/// nothing is listed, nothing is left, and no step of the budget is taken. The one stop is want of memory.
pub fn merge(
    alloc: Global,
    _design: &Design,
    modes: &List<Mode>,
    _budget: u64,
) -> Result<Merged, Stop<MergeStop>>
    requires printable { ModesArePrintable modes.now }
    requires few { clocks_in modes.now ≤ 16384 }
    ensures merged { IfOk result (IsMergeOf modes.now) }
    ensures few { IfOk result (λ merged. length merged.mode.clocks ≤ clocks_in modes.now) }
    ensures stops { IfErr result (λ cause. cause ≡ stop.NoMemory) }
{
    let views = views_of(alloc, modes.as_slice())?;
    let clocks = map_clocks(alloc, &views)?;
    let count = clocks.clocks.len() as u32;
    let exclusive = exclusive_pairs(alloc, &views, &clocks.maps, count)?;
    let mode = clock_mode(alloc, clocks.clocks.copy(alloc)?, exclusive);
    Ok(Merged {
        mode,
        clocks,
        listed: List::new(alloc),
        left: List::new(alloc),
    })
}

/// The number of bytes of the merged mode's printed file, over the empty design. Neither the file nor the exclusive
/// pairs are made: of these there are at most those of one first clock at a time. The one error is want of memory.
pub fn merged_length(alloc: Global, design: &Design, modes: &List<Mode>) -> Result<u64, NoMemory>
    requires empty { design.now ≡ empty_design }
    requires printable { ModesArePrintable modes.now }
    requires few { clocks_in modes.now ≤ 16384 }
    ensures { IfOk result (IsMergedLength modes.now) }
{
    let views = views_of(alloc, modes.as_slice())?;
    let map = map_clocks(alloc, &views)?;
    let count = map.clocks.len() as u32;
    let rows = ExclusiveRows::new(alloc, &views, &map.maps, count)?;
    let mode = clock_mode(alloc, map.clocks.copy(alloc)?, List::new(alloc));
    let front = printed_length(design, &mode)?;
    let bytes = length_with_groups(alloc, front, &mode.clocks, &rows)?;
    Ok(bytes)
}

/// The number of bytes of a front and of the lines of groups after it, by the pairs of each first clock.
fn length_with_groups(
    alloc: Global,
    front: u64,
    clocks: &List<Clock>,
    rows: &ExclusiveRows,
) -> Result<u64, NoMemory>
    requires { length clocks.now ≤ 16384 }
    ensures { IfOk result (λ bytes. bytes ≡ front + length (groups_text clocks.now rows.now)) }
{
    let mut bytes = front;
    for (first, clock) in clocks.as_slice().iter().enumerate() {
        let mut pairs = List::new(alloc);
        rows.push_row(alloc, &mut pairs, first as u32)?;
        bytes = length_with_group(bytes, clock, clocks, &pairs)?;
    }
    Ok(bytes)
}

/// Modes as an analysis over no pin sees them: each clock with its own waveform.
fn views_of(alloc: Global, modes: &[Mode]) -> Result<List<View>, NoMemory>
    ensures { IfOk result (λ views. views ≡ views_of modes.now) }
{
    let mut views = List::new(alloc);
    for mode in modes {
        views.push(view_of(alloc, mode)?)?;
    }
    Ok(views)
}

/// A mode as an analysis over no pin sees it.
fn view_of(alloc: Global, mode: &Mode) -> Result<View, NoMemory>
    ensures { IfOk result (λ view. view ≡ view_of mode.now) }
{
    let waves = own_waves(alloc, mode.clocks.as_slice())?;
    let mode = mode.copy(alloc)?;
    Ok(View {
        mode,
        waves,
        arrivals: Arrivals {
            at: List::new(alloc),
        },
        clock_map: List::new(alloc),
    })
}

/// The waveforms that clocks have of their own, in order.
fn own_waves(alloc: Global, clocks: &[Clock]) -> Result<List<Wave>, NoMemory>
    ensures { IfOk result (λ waves. waves ≡ own_waves clocks.now) }
{
    let mut waves = List::new(alloc);
    for clock in clocks {
        push_own_wave(&mut waves, &clock.form)?;
    }
    Ok(waves)
}

/// Adds the waveform of a clock, where it has one of its own.
fn push_own_wave(waves: &mut List<Wave>, form: &Form) -> Result<(), NoMemory>
    ensures { OnOk result (waves.new ≡ waves.old ++ own_wave form.now) }
{
    match form {
        Form::Primary { wave } => waves.push(*wave),
        Form::Generated { .. } => Ok(()),
    }
}

/// A mode of clocks and exclusive pairs alone.
fn clock_mode(alloc: Global, clocks: List<Clock>, exclusive: List<Pair>) -> Mode
    ensures clocks { result.clocks ≡ clocks }
    ensures exclusive { result.exclusive ≡ exclusive }
    ensures alone { IsOfClocks result }
{
    Mode {
        clocks,
        exclusive,
        cases: List::new(alloc),
        disabled: List::new(alloc),
        delays: List::new(alloc),
        exceptions: List::new(alloc),
        kept: List::new(alloc),
        notes: List::new(alloc),
    }
}
