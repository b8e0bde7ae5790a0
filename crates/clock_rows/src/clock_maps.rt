//! Clock maps whose values were worked out by hand.
use clock_map::{ExclusiveRows, are_plain, exclusive_pairs, map_clocks};
use sdc_base::{List, NoMemory, Text};
use std::alloc::Global;
use std::process::Abort;
use std::test::Fail;
use timing_types::{Arrivals, Clock, ClockMap, Early, Form, Latency, Mode, Pair, View, Wave};

const NONE: Early = Early { rise: 0, fall: 0 };

const NO_LATENCY: Latency = Latency {
    source_early: NONE,
    source_late: NONE,
    network_early: NONE,
    network_late: NONE,
};

fn clock(alloc: Global, name: &str, period: i64) -> Result<Clock, NoMemory> {
    Ok(Clock {
        line: 7,
        name: Text::from_str(alloc, name)?,
        sources: List::new(alloc),
        form: Form::Primary { wave: wave(period) },
        latency: NO_LATENCY,
        setup_uncertainty: 0,
        hold_uncertainty: 0,
        propagated: false,
    })
}

fn wave(period: i64) -> Wave {
    Wave {
        period,
        rise: 0,
        fall: period / 2,
    }
}

fn view(alloc: Global, named: &[(&str, i64)], exclusive: &[(u32, u32)]) -> Result<View, NoMemory> {
    let mut clocks = List::new(alloc);
    let mut waves = List::new(alloc);
    for (name, period) in named {
        clocks.push(clock(alloc, name, *period)?)?;
        waves.push(wave(*period))?;
    }
    let mut pairs = List::new(alloc);
    for (first, second) in exclusive {
        pairs.push(Pair {
            first: *first,
            second: *second,
        })?;
    }
    Ok(View {
        mode: Mode {
            clocks,
            exclusive: pairs,
            cases: List::new(alloc),
            disabled: List::new(alloc),
            delays: List::new(alloc),
            exceptions: List::new(alloc),
            kept: List::new(alloc),
            notes: List::new(alloc),
        },
        waves,
        arrivals: Arrivals {
            at: List::new(alloc),
        },
        clock_map: List::new(alloc),
    })
}

/// The names and periods of merged clocks in order, then the numbers of each mode's clocks.
fn shown(alloc: Global, map: &ClockMap) -> Result<String, NoMemory> {
    let mut text = String::new(alloc);
    for (clock, wave) in map.clocks.iter().zip(map.waves.iter()) {
        let line = format!(in alloc; "{} {}, ", clock.name.as_str(), wave.period)?;
        text.push_str(line.as_str())?;
    }
    for numbers in map.maps.iter() {
        text.push_str("|")?;
        for number in numbers.iter() {
            let word = format!(in alloc; " {number}")?;
            text.push_str(word.as_str())?;
        }
    }
    Ok(text)
}

fn views(alloc: Global, modes: &[&[(&str, i64)]]) -> Result<List<View>, NoMemory> {
    let mut views = List::new(alloc);
    for named in modes {
        views.push(view(alloc, named, &[])?)?;
    }
    Ok(views)
}

/// The clocks of modes by their names and periods, and their clock map as it is shown.
static MAPS: [(&[&[(&str, i64)]], &str); 9] = [
    (&[], ""),
    (&[&[]], "|"),
    // ranks are by name in byte order
    (
        &[&[("b", 10), ("a", 10)], &[("Z", 10), ("y", 10)]],
        "b 10, a 10, | 0 1| 1 0",
    ),
    // three modes with two equal clocks each
    (
        &[
            &[("p", 4), ("q", 4)],
            &[("z", 4), ("a", 4)],
            &[("b", 4), ("B", 4)],
        ],
        "p 4, q 4, | 0 1| 1 0| 1 0",
    ),
    // a later mode has a clock c_1
    (
        &[&[("c", 10)], &[("c", 8), ("c_1", 5)]],
        "c 10, c_2 8, c_1 5, | 0| 1 2",
    ),
    (
        &[&[("A", 10), ("B", 15)], &[("A", 10), ("C", 15)]],
        "A 10, B 15, | 0 1| 0 1",
    ),
    (
        &[&[("A", 10)], &[("A", 20)], &[("A", 20), ("x", 10)]],
        "A 10, A_1 20, | 0| 1| 1 0",
    ),
    (
        &[&[("c_1", 1)], &[("c", 2)], &[("c", 3)], &[("c_1", 4)]],
        "c_1 1, c 2, c_2 3, c_1_1 4, | 0| 1| 2| 3",
    ),
    (
        &[&[("a", 10), ("b", 10), ("c", 10)], &[("x", 10)]],
        "a 10, b 10, c 10, | 0 1 2| 0",
    ),
];

/// Sees that the clock map of these modes is shown as this text.
fn check_map(rt: &impl Abort, alloc: Global, views: &List<View>, wanted: &str) -> Result<(), Fail> {
    assert!(rt; are_plain(views));
    let map = map_clocks(alloc, views)?;
    let text = shown(alloc, &map)?;
    assert_eq!(rt; text.as_str(), wanted);
    Ok(())
}

#[test]
fn clocks_of_modes(rt: HostRuntime) -> Result<(), Fail> {
    for (modes, wanted) in MAPS.iter() {
        let views = views(rt.alloc(), modes)?;
        check_map(&rt, rt.alloc(), &views, wanted)?;
    }
    Ok(())
}

#[test]
fn sixteen_different_clocks_of_one_name(rt: HostRuntime) -> Result<(), Fail> {
    let alloc = rt.alloc();
    let mut modes = List::new(alloc);
    for period in 2..18 {
        modes.push(view(alloc, &[("clk", period)], &[])?)?;
    }
    check_map(
        &rt,
        alloc,
        &modes,
        "clk 2, clk_1 3, clk_2 4, clk_3 5, clk_4 6, clk_5 7, clk_6 8, clk_7 9, clk_8 10, clk_9 11, clk_10 12, clk_11 13, clk_12 14, clk_13 15, clk_14 16, clk_15 17, | 0| 1| 2| 3| 4| 5| 6| 7| 8| 9| 10| 11| 12| 13| 14| 15",
    )
}

/// The exclusive pairs of the merged clocks of modes, each with its clocks and its exclusive pairs.
fn exclusive(
    rt: &impl Abort,
    alloc: Global,
    modes: &[(&[(&str, i64)], &[(u32, u32)])],
) -> Result<String, Fail> {
    let mut views = List::new(alloc);
    for (named, pairs) in modes {
        views.push(view(alloc, named, pairs)?)?;
    }
    assert!(rt; are_plain(&views));
    let map = map_clocks(alloc, &views)?;
    let count = u32::try_from(map.clocks.len())?;
    let pairs = exclusive_pairs(alloc, &views, &map.maps, count)?;
    let rows = ExclusiveRows::new(alloc, &views, &map.maps, count)?;
    let mut put_together = List::new(alloc);
    for first in 0..=count {
        rows.push_row(alloc, &mut put_together, first)?;
    }
    assert!(rt; put_together.as_slice() == pairs.as_slice());
    Ok(shown_pairs(alloc, &pairs)?)
}

/// Pairs of places, each in parentheses.
fn shown_pairs(alloc: Global, pairs: &List<Pair>) -> Result<String, NoMemory> {
    let mut text = String::new(alloc);
    for pair in pairs.iter() {
        let word = format!(in alloc; "({} {})", pair.first, pair.second)?;
        text.push_str(word.as_str())?;
    }
    Ok(text)
}

const A_AND_B: &[(&str, i64)] = &[("A", 10), ("B", 15)];

const B_AND_A: &[(&str, i64)] = &[("B", 15), ("A", 10)];

const A_AND_C: &[(&str, i64)] = &[("A", 10), ("C", 15)];

/// Modes with their clocks and their exclusive pairs, and the exclusive merged clocks.
static EXCLUSIVE: [(&[(&[(&str, i64)], &[(u32, u32)])], &str); 5] = [
    // the second mode has both and lets them be timed
    (&[(A_AND_B, &[(0, 1)]), (A_AND_C, &[])], ""),
    // the one mode that has both excludes them
    (&[(A_AND_B, &[(0, 1)]), (&[("A", 10)], &[])], "(0 1)"),
    // no mode has both
    (
        &[
            (&[("A", 10)], &[]),
            (&[("A", 20)], &[]),
            (&[("A", 30)], &[]),
        ],
        "(0 1)(0 2)(1 2)",
    ),
    // the clocks of the second mode stand the other way round
    (&[(A_AND_B, &[(0, 1)]), (B_AND_A, &[(0, 1)])], "(0 1)"),
    (&[(A_AND_B, &[(0, 1)]), (B_AND_A, &[])], ""),
];

#[test]
fn exclusive_merged_clocks(rt: HostRuntime) -> Result<(), Fail> {
    for (modes, wanted) in EXCLUSIVE.iter() {
        let text = exclusive(&rt, rt.alloc(), modes)?;
        assert_eq!(rt; text.as_str(), *wanted);
    }
    Ok(())
}
