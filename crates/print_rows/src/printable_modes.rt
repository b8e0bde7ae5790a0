//! Modes for the tests of this crate, made of tables, and tested to be printable.

ghost use Rattle.std.specs.Prelude.{◌≡◌, ℤ, false, IfOk, IfSome, IsTrue, [], length};
ghost use Rattle.std.specs.List.{list_all};
ghost use Rattle.sdc_base.specs.Time.{IsUnit};
ghost use Rattle.text_model.specs.Bytes.{is_name_byte};
ghost use Rattle.mode_model.specs.ClockFile.{is_name, is_taken, virtual_clock};
ghost use Rattle.constraint_model.specs.ExclusivePairs.{ArePairs, IsAfter};
ghost use Rattle.mode_model.specs.PrintedFile.{ArePrintableClocks, IsPrintable};
ghost use Rattle.constraint_model.specs.ModeLines.{IsOfClocks};
ghost use Rattle.constraint_model.specs.ClockWaves.{IsPrintableWave};

use sdc_base::{List, NoMemory, Text};
use std::alloc::Global;
use timing_types::{Clock, Design, Early, Form, Latency, Mode, Pair, Wave};

/// A clock by its name, period, rise and fall, in femtoseconds.
pub type Row = (&'static str, i64, i64, i64);

/// A design and a mode.
#[derive(Drop)]
pub struct Case {
    pub design: Design,
    pub mode: Mode,
}

/// The empty design of a unit with a mode of these clocks and exclusive pairs, where the mode can be printed.
pub fn printable(
    alloc: Global,
    unit: i64,
    rows: &[Row],
    pairs: &[(u32, u32)],
) -> Result<Option<Case>, NoMemory>
    ensures { IfOk result (λ found. IfSome found (λ case. IsPrintable case.design case.mode)) }
{
    let Some(clocks) = clocks_of(alloc, rows)? else {
        return Ok(None);
    };
    let exclusive = pairs_of(alloc, pairs)?;
    if !is_unit(unit) || !are_pairs(clocks.len(), exclusive.as_slice()) {
        return Ok(None);
    }
    let design = empty_design(alloc, unit);
    let mode = mode_of(alloc, clocks, exclusive);
    Ok(Some(Case { design, mode }))
}

fn is_unit(unit: i64) -> bool
    ensures { IsTrue result → IsUnit unit }
{
    unit == 1_000 || unit == 10_000 || unit == 100_000 || unit == 1_000_000
}

fn empty_design(alloc: Global, unit: i64) -> Design
    ensures { result.unit ≡ unit }
{
    Design {
        top: Text::new(alloc),
        unit,
        pins: List::new(alloc),
        cells: List::new(alloc),
        nets: List::new(alloc),
        kinds: List::new(alloc),
    }
}

fn mode_of(alloc: Global, clocks: List<Clock>, exclusive: List<Pair>) -> Mode
    ensures clocks { result.clocks ≡ clocks }
    ensures exclusive { result.exclusive ≡ exclusive }
    ensures alone { IsOfClocks result }
{
    Mode {
        clocks,
        exclusive,
        cases: List::new(alloc),
        disabled: List::new(alloc),
        delays: List::new(alloc),
        exceptions: List::new(alloc),
        kept: List::new(alloc),
        notes: List::new(alloc),
    }
}

fn clocks_of(alloc: Global, rows: &[Row]) -> Result<Option<List<Clock>>, NoMemory>
    ensures { IfOk result (λ found. IfSome found (ArePrintableClocks [])) }
{
    let mut clocks = List::new(alloc);
    for (name, period, rise, fall) in rows.iter().copied() {
        let wave = Wave { period, rise, fall };
        if !is_wave(&wave) || !is_plain_name(name) || is_held(&clocks, name) {
            return Ok(None);
        }
        let clock = clock_of(alloc, name, wave)?;
        clocks.push(clock)?;
    }
    Ok(Some(clocks))
}

fn clock_of(alloc: Global, name: &str, wave: Wave) -> Result<Clock, NoMemory>
    ensures { IfOk result (λ clock. clock ≡ virtual_clock 0 name.now wave) }
{
    let none = Early { rise: 0, fall: 0 };
    let name = Text::from_str(alloc, name)?;
    Ok(Clock {
        line: 0,
        name,
        sources: List::new(alloc),
        form: Form::Primary { wave },
        latency: Latency {
            source_early: none,
            source_late: none,
            network_early: none,
            network_late: none,
        },
        setup_uncertainty: 0,
        hold_uncertainty: 0,
        propagated: false,
    })
}

fn is_wave(wave: &Wave) -> bool
    ensures { IsTrue result → IsPrintableWave wave.now }
{
    let Wave { period, rise, fall } = *wave;
    let most = 1_000_000_000_000;
    if period < 2 || period > most || rise < 0 || rise >= period || fall <= rise || fall > most {
        return false;
    }
    fall < rise + period
}

fn is_plain_name(name: &str) -> bool
    ensures { IsTrue result → IsTrue (is_name name.now) }
{
    !name.is_empty() && are_name_bytes(name.as_bytes())
}

fn are_name_bytes(bytes: &[u8]) -> bool
    ensures { result ≡ list_all is_name_byte bytes.now }
{
    bytes.iter().all(|byte| matches!(*byte, b'A'..=b'Z' | b'a'..=b'z' | b'0'..=b'9' | b'_'))
}

fn is_held(clocks: &List<Clock>, name: &str) -> bool
    ensures { result ≡ is_taken name.now clocks.now }
{
    clocks
        .as_slice()
        .iter()
        .any(|clock| clock.name.as_str() == name)
}

/// Pairs of places, the lesser one first.
pub fn pairs_of(alloc: Global, pairs: &[(u32, u32)]) -> Result<List<Pair>, NoMemory> {
    let mut list = List::new(alloc);
    for (first, second) in pairs.iter().copied() {
        list.push(Pair { first, second })?;
    }
    Ok(list)
}

fn are_pairs(count: usize, pairs: &[Pair]) -> bool
    ensures { IsTrue result → ArePairs count pairs.now }
{
    match pairs {
        [] => true,
        [pair, rest @ ..] => {
            pair.first < pair.second
                && (pair.second as usize) < count
                && is_after(pair, rest)
                && are_pairs(count, rest)
        }
    }
}

fn is_after(pair: &Pair, rest: &[Pair]) -> bool
    ensures { IsTrue result → IsAfter pair.now rest.now }
{
    match rest {
        [] => true,
        [next, ..] => pair.first < next.first
            || (pair.first == next.first && pair.second < next.second),
    }
}
