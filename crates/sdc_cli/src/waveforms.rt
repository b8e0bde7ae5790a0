//! The waveform of a clock from the numbers of its command (SDC 2.1, `create_clock`), all times in whole
//! femtoseconds.

ghost use Rattle.std.specs.Prelude.{◌≡◌, ◌≤◌, ◌<◌, ◌+◌, ◌^◌, IfSome, IfOk};
ghost use Rattle.std.specs.Option.{option_copied};
ghost use Rattle.mode_model.specs.ClockFile.{wave_given};
ghost use Rattle.constraint_model.specs.ClockWaves.{plain_wave, wave_within, moved_down};
ghost use Rattle.mode_model.specs.Waveform.{period_of, time_from, limited_time, wave_of, waveform_of};
ghost use Rattle.sdc_cli.specs.Waves.{IsPeriod};

use crate::items::items_of;
use sdc_base::{Fixed, NoMemory, Text};
use std::alloc::Global;
use timing_types::Wave;

/// Femtoseconds in a nanosecond, the unit of a mode file and of the report of `edges`.
pub(crate) const NANOSECOND: i64 = 1_000_000;

/// The shortest period.
const SHORTEST_PERIOD: u64 = 2;

/// The longest time of a clock: of its period, and of an edge as it is given.
const LONGEST_TIME: u64 = 1_000_000_000_000;

/// The waveform of a period's text and of a waveform's text, where there is one; without a waveform a clock
/// rises at 0 and falls at half its period, rounded down. The one error is want of memory.
pub fn wave_given(
    alloc: Global,
    period: &str,
    waveform: Option<&str>,
) -> Result<Option<Wave>, NoMemory>
    ensures { IfOk result (λ wave. wave ≡ wave_given period.now (option_copied waveform.entry)) }
{
    let Some(period) = period_of(period) else {
        return Ok(None);
    };
    match waveform {
        None => Ok(Some(plain_wave(period))),
        Some(waveform) => waveform_of(alloc, period, waveform),
    }
}

/// The period that a text gives in nanoseconds.
fn period_of(text: &str) -> Option<u64>
    ensures period { result ≡ period_of text.now }
    ensures within { IfSome result IsPeriod }
{
    time_from(SHORTEST_PERIOD, text)
}

/// The time that a text gives in nanoseconds, from a least one to the longest.
fn time_from(least: u64, text: &str) -> Option<u64>
    ensures time { result ≡ time_from least text.now }
    ensures least { IfSome result (λ time. least ≤ time) }
    ensures most { IfSome result (λ time. time ≤ 10 ^ 12) }
{
    let time = Fixed::read(text).ok()?.to_time(NANOSECOND).ok()?;
    limited_time(least, time)
}

/// A time, where it is from a least one to the longest.
fn limited_time(least: u64, time: i64) -> Option<u64>
    ensures time { result ≡ limited_time least time }
    ensures least { IfSome result (λ time. least ≤ time) }
    ensures most { IfSome result (λ time. time ≤ 10 ^ 12) }
{
    if time < 0 {
        return None;
    }
    let time = time as u64;
    if least <= time && time <= LONGEST_TIME {
        Some(time)
    } else {
        None
    }
}

/// The waveform of a clock whose period alone is given.
fn plain_wave(period: u64) -> Wave
    requires { IsPeriod period }
    ensures { result ≡ plain_wave period }
{
    Wave {
        period: period as i64,
        rise: 0,
        fall: (period / 2) as i64,
    }
}

/// The waveform of a text that is a list (Tcl) of two times in nanoseconds, of the rise and of the fall. The one error
/// is want of memory.
fn waveform_of(alloc: Global, period: u64, text: &str) -> Result<Option<Wave>, NoMemory>
    requires { IsPeriod period }
    ensures { IfOk result (λ wave. wave ≡ waveform_of period text.now) }
{
    let Some(times) = items_of(alloc, text)? else {
        return Ok(None);
    };
    Ok(wave_of(period, times.as_slice()))
}

/// The waveform of two times in nanoseconds, of the rise and of the fall.
fn wave_of(period: u64, times: &[Text]) -> Option<Wave>
    requires { IsPeriod period }
    ensures { result ≡ wave_of period times.now }
{
    let [rise, fall] = times else {
        return None;
    };
    let rise = time_from(0, rise.as_str())?;
    let fall = time_from(0, fall.as_str())?;
    wave_within(period, rise, fall)
}

/// The waveform of these edges, where the fall is after the rise and before the next rise: both edges moved
/// down by whole periods until the rise is below the period.
fn wave_within(period: u64, rise: u64, fall: u64) -> Option<Wave>
    requires period { IsPeriod period }
    requires rise { rise ≤ 10 ^ 12 }
    ensures { result ≡ wave_within period rise fall }
{
    if rise < fall && fall < rise + period {
        Some(moved_down(period, rise, fall))
    } else {
        None
    }
}

/// The waveform of these edges, both moved down by whole periods until the rise is below the period.
fn moved_down(period: u64, rise: u64, fall: u64) -> Wave
    requires period { IsPeriod period }
    requires rise { rise ≤ 10 ^ 12 }
    requires after { rise < fall }
    requires before_next { fall < rise + period }
    ensures { result ≡ moved_down period rise fall }
{
    let first_rise = rise % period;
    let periods = rise - first_rise;
    Wave {
        period: period as i64,
        rise: first_rise as i64,
        fall: (fall - periods) as i64,
    }
}
