//! The clock that `create_clock` makes (SDC 2.1), by the words after its name.

ghost use Rattle.std.specs.Prelude.{◌≡◌, false, List, IfOk};
ghost use Rattle.std.specs.Option.{option_copied};
ghost use Rattle.sdc_base.specs.Gives.{Gives};
ghost use Rattle.mode_model.specs.ClockCommands.{clock_by, clock_given, clock_of, clock_options, clock_waved, new_clock, no_options, value_text, value_texts, with_clock_word, with_option};
ghost use Rattle.mode_model.specs.ClockFile.{is_taken};

use crate::mode_so_far::{is_name, virtual_clock};
use crate::named_clocks::NamedClocks;
use crate::object_names::value_text;
use crate::waveforms::wave_given;
use sdc_base::{NoMemory, Stop, Text};
use source_types::SdcKind;
use std::alloc::Global;
use std::marker::Model;
use timing_types::{Clock, Value, Wave};

/// The most clocks of a file, and of all modes of a merge.
pub(crate) const MOST_CLOCKS: usize = 16384;

/// The options of a clock that are given, and the option whose value is the next word. Contracts see `ClockOptions`.
#[derive(Drop)]
struct GivenOptions {
    name: Option<Text>,
    period: Option<Text>,
    waveform: Option<Text>,
    pending: Option<Text>,
}

impl Model for GivenOptions {
    ghost use Rattle.mode_model.specs.ClockCommands.{ClockOptions};

    ghost Value = { ClockOptions };

    ghost view = { λ it. record { name = it.name; period = it.period; waveform = it.waveform; pending = it.pending } };
}

impl GivenOptions {
    /// No option.
    fn none() -> GivenOptions
        ensures { result ≡ no_options }
    {
        GivenOptions {
            name: None,
            period: None,
            waveform: None,
            pending: None,
        }
    }

    /// These and one more option with its value, where it is one that is not given yet.
    fn with(self, option: &str, value: Text) -> Option<GivenOptions>
        ensures { result ≡ with_option self option.now value }
    {
        let GivenOptions {
            name,
            period,
            waveform,
            pending,
        } = self;
        if option == "-name" && name.is_none() {
            return Some(GivenOptions {
                name: Some(value),
                period,
                waveform,
                pending,
            });
        }
        if option == "-period" && period.is_none() {
            return Some(GivenOptions {
                name,
                period: Some(value),
                waveform,
                pending,
            });
        }
        if option == "-waveform" && waveform.is_none() {
            return Some(GivenOptions {
                name,
                period,
                waveform: Some(value),
                pending,
            });
        }
        None
    }

    /// These and one more word: the value of the option before it, or else an option.
    fn with_word(self, word: Text) -> Option<GivenOptions>
        ensures { result ≡ with_clock_word self word }
    {
        let GivenOptions {
            name,
            period,
            waveform,
            pending,
        } = self;
        match pending {
            Some(option) => {
                let given = GivenOptions {
                    name,
                    period,
                    waveform,
                    pending: None,
                };
                given.with(option.as_str(), word)
            }
            None => Some(GivenOptions {
                name,
                period,
                waveform,
                pending: Some(word),
            }),
        }
    }
}

/// These options and one more word of a command. The one error is want of memory.
fn with_word(
    alloc: Global,
    clocks: &[Clock],
    given: GivenOptions,
    word: &Value,
) -> Result<Option<GivenOptions>, NoMemory>
    ensures { IfOk result (λ next. next ≡ with_clock_word given (value_text clocks.now word.now)) }
{
    let word = value_text(alloc, clocks, word)?;
    Ok(given.with_word(word))
}

/// The options of these words, each with its value after it. The one error is want of memory.
fn options_of(
    alloc: Global,
    clocks: &[Clock],
    words: &[Value],
) -> Result<Option<GivenOptions>, NoMemory>
    ensures { IfOk result (λ given. given ≡ clock_options no_options (value_texts clocks.now words.now)) }
{
    let mut given = GivenOptions::none();
    for word in words {
        let Some(next) = with_word(alloc, clocks, given, word)? else {
            return Ok(None);
        };
        given = next;
    }
    if given.pending.is_none() {
        Ok(Some(given))
    } else {
        Ok(None)
    }
}

/// The clock of a command on a line, by the words after its name. `OutOfProfile` where an option or a value is not
/// read here, or the name is taken; else `TooMany` where the file has 16,384 clocks.
pub fn clock_of(
    alloc: Global,
    clocks: &NamedClocks,
    line: u32,
    words: &[Value],
) -> Result<Clock, Stop<SdcKind>>
    ensures gives { Gives result (clock_of clocks.now line words.now) }
    ensures free { IfOk result (λ clock. is_taken clock.name clocks.now ≡ false) }
{
    let given = options_of(alloc, clocks.as_slice(), words)?;
    clock_by(alloc, clocks, line, given)
}

/// The clock of the options that are given, where they are read.
fn clock_by(
    alloc: Global,
    clocks: &NamedClocks,
    line: u32,
    given: Option<GivenOptions>,
) -> Result<Clock, Stop<SdcKind>>
    ensures gives { Gives result (clock_by clocks.now line given) }
    ensures free { IfOk result (λ clock. is_taken clock.name clocks.now ≡ false) }
{
    let Some(given) = given else {
        return Err(Stop::Refused(SdcKind::OutOfProfile));
    };
    clock_given(alloc, clocks, line, given)
}

/// The clock of these options: it needs a name and a period.
fn clock_given(
    alloc: Global,
    clocks: &NamedClocks,
    line: u32,
    given: GivenOptions,
) -> Result<Clock, Stop<SdcKind>>
    ensures gives { Gives result (clock_given clocks.now line given.name given.period given.waveform) }
    ensures free { IfOk result (λ clock. is_taken clock.name clocks.now ≡ false) }
{
    let GivenOptions {
        name,
        period,
        waveform,
        ..
    } = given;
    let Some(name) = name else {
        return Err(Stop::Refused(SdcKind::OutOfProfile));
    };
    let Some(period) = period else {
        return Err(Stop::Refused(SdcKind::OutOfProfile));
    };
    let wave = match waveform {
        Some(waveform) => wave_given(alloc, period.as_str(), Some(waveform.as_str()))?,
        None => wave_given(alloc, period.as_str(), None)?,
    };
    clock_waved(alloc, clocks, line, name, wave)
}

/// The clock of a name and a waveform, where there is one.
fn clock_waved(
    alloc: Global,
    clocks: &NamedClocks,
    line: u32,
    name: Text,
    wave: Option<Wave>,
) -> Result<Clock, Stop<SdcKind>>
    ensures gives { Gives result (clock_waved clocks.now line name wave) }
    ensures free { IfOk result (λ clock. is_taken clock.name clocks.now ≡ false) }
{
    let Some(wave) = wave else {
        return Err(Stop::Refused(SdcKind::OutOfProfile));
    };
    if !is_name(name.as_bytes()) || clocks.is_taken(name.as_str()) {
        return Err(Stop::Refused(SdcKind::OutOfProfile));
    }
    if clocks.as_slice().len() >= MOST_CLOCKS {
        return Err(Stop::Refused(SdcKind::TooMany));
    }
    Ok(virtual_clock(alloc, line, name, wave))
}
