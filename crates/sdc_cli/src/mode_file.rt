//! What the bytes of a mode file say: they are run as a script (Tcl) over the host of mode files.

ghost use Rattle.std.specs.Prelude.{◌≡◌, Ok, slice_get};
ghost use Rattle.std.specs.Option.{option_map};
ghost use Rattle.sdc_base.specs.Gives.{Gives, Meets};
ghost use Rattle.timing_types.specs.declared.clocks.Clock.{Clock};
ghost use Rattle.mode_model.specs.ClockFile.{clock_mode};
ghost use Rattle.sdc_model.specs.ModeFiles.{within_limit};
ghost use Rattle.mode_model.specs.ModeMeaning.{SaysMode, SaysText};
ghost use Rattle.constraint_model.specs.RunLimits.{line_beyond};
ghost use Rattle.sdc_cli.specs.ModeBytes.{SaysAtMost, made_mode};

use crate::mode_host::ModeHost;
use crate::mode_so_far::ModeSoFar;
use sdc_base::{At, Stop};
use source_types::{Kind, SdcKind};
use std::alloc::Global;
use tcl_eval::eval;
use text_lines::no_text_line;
use timing_types::{Clock, Mode};

/// The mode that the bytes of a file say, or its first fault; `TooMany` where it has more clocks than `most`, with
/// the line of the first clock beyond them. The clocks are counted before their exclusive pairs are made, which may
/// be as many as their square.
pub fn read_mode(alloc: Global, bytes: &[u8], most: usize) -> Result<Mode, Stop<At<Kind>>>
    ensures { Meets result (SaysAtMost most bytes.now) }
{
    let made = run_file(alloc, bytes)?;
    mode_within(alloc, made, most)
}

/// The mode of what a file made, where its clocks are not more than `most`.
fn mode_within(alloc: Global, made: ModeSoFar, most: usize) -> Result<Mode, Stop<At<Kind>>>
    ensures { Gives result (within_limit most 0 (Ok (clock_mode made))) }
{
    if let Some(line) = line_beyond(made.clocks(), most) {
        let kind = Kind::Sdc(SdcKind::TooMany);
        return Err(Stop::Refused(At { line, kind }));
    }
    let mode = made.into_mode(alloc)?;
    Ok(mode)
}

/// The line of the first clock beyond so many, where there is one.
fn line_beyond(clocks: &[Clock], most: usize) -> Option<u32>
    ensures { result ≡ line_beyond (λ (clock : Clock). clock.line) (λ clock. 1) most 0 clocks.now }
{
    line_of_clock(clocks, most)
}

/// The line of the clock at a place, where there is one.
fn line_of_clock(clocks: &[Clock], place: usize) -> Option<u32>
    ensures { result ≡ option_map (λ (clock : Clock). clock.line) (slice_get clocks.now place) }
{
    match clocks.get(place) {
        Some(clock) => Some(clock.line),
        None => None,
    }
}

/// What the commands of a file make, or the first fault of its bytes.
fn run_file(alloc: Global, bytes: &[u8]) -> Result<ModeSoFar, Stop<At<Kind>>>
    ensures { Meets (made_mode result) (SaysMode bytes.now) }
{
    match str::from_utf8(bytes) {
        Ok(text) => run_text(alloc, text),
        Err(error) => Err(Stop::Refused(At {
            line: no_text_line(bytes, error.valid_up_to()),
            kind: Kind::NotText,
        })),
    }
}

/// What the commands of a text make, or its first fault.
fn run_text(alloc: Global, text: &str) -> Result<ModeSoFar, Stop<At<Kind>>>
    ensures { Meets (made_mode result) (SaysText text.now) }
{
    let mut host = ModeHost::new(alloc);
    eval(alloc, text, &mut host)?;
    Ok(host.into_so_far())
}

#[cfg(test)]
mod tests;
