//! The ends of following sources, where no net has two.

ghost use Rattle.std.specs.Prelude.{◌≡◌, ◌<◌, IfOk, length, map, replicate};
ghost use Rattle.flat_design.specs.Ends.{AreEnds, AreSettled, WalksFrom, end_of, mark_of, next_at, next_by, next_of, value_end};
ghost use Rattle.flat_design.specs.Sources.{AreWithin, HaveOne, IsDriverWithin, driven_by};
ghost use Rattle.flat_design.specs.SourceTable.{IsLinked};
ghost use Rattle.flat_design.specs.declared.drivers.ends.Mark.TheVariants as mark;

use crate::drivers::driver_edges::Driver;
use crate::drivers::source_table::{SourceTable, only_source};
use pin_types::Pin;
use sdc_base::{List, NoMemory};
use std::alloc::Global;
use std::collections::VecDeque;
use timing_types::Source;

/// How far sources were followed from a net.
#[derive(Clone, Copy)]
enum Mark {
    New,
    Open,
    Done(Source),
}

/// What is next for a net from which sources are being followed.
#[derive(Clone, Copy)]
enum Next {
    /// Its source is a net that is being followed.
    Back,
    /// Its source is a net that was not followed yet.
    Follow(usize),
    /// Its end is known.
    End(Source),
}

/// The ends of following sources from each net, where no net has two sources; none where they come back to some net.
pub(crate) fn ends_of(
    alloc: Global,
    table: &SourceTable<'_>,
) -> Result<Option<List<Source>>, NoMemory>
    requires table { IsLinked table.now }
    requires within { AreWithin (length table.now.last) 4294967295 table.now.rows.now }
    requires one { HaveOne table.now.rows.now }
    ensures { IfOk result (AreEnds table.now.rows.now (length table.now.last)) }
{
    let nets = table.last.len();
    let mut marks = new_marks(alloc, nets)?;
    for net in 0..nets {
        if !settle(alloc, table, &mut marks, net)? {
            return Ok(None);
        }
    }
    Ok(Some(ends(alloc, &marks)?))
}

/// As many nets from which sources were not followed yet.
fn new_marks(alloc: Global, nets: usize) -> Result<Vec<Mark>, NoMemory>
    ensures { IfOk result (λ marks. marks.items ≡ replicate nets mark.New) }
{
    Ok(vec![in alloc; Mark::New; nets]?)
}

/// The ends of nets that are done.
fn ends(alloc: Global, marks: &[Mark]) -> Result<List<Source>, NoMemory>
    ensures { IfOk result (λ all. all ≡ map end_of marks.now) }
{
    let mut all = List::new(alloc);
    for mark in marks {
        all.push(end_of(*mark))?;
    }
    Ok(all)
}

/// The end of a net that is done.
fn end_of(mark: Mark) -> Source
    ensures { result ≡ end_of mark }
{
    match mark {
        Mark::Done(end) => end,
        Mark::New | Mark::Open => Source::Nothing,
    }
}

/// Settles the end of a net, where this was not done yet; whether it has one, since sources do not come back.
fn settle(
    alloc: Global,
    table: &SourceTable<'_>,
    marks: &mut Vec<Mark>,
    net: usize,
) -> Result<bool, NoMemory>
    requires table { IsLinked table.now }
    requires within { AreWithin (length table.now.last) 4294967295 table.now.rows.now }
    requires one { HaveOne table.now.rows.now }
    requires net { net < length table.now.last }
    requires marks { AreSettled table.now.rows.now (length table.now.last) marks.old.items }
    ensures { IfOk result (WalksFrom table.now.rows.now (length table.now.last) net marks.old.items marks.new.items) }
{
    match marks[net] {
        Mark::New => follow(alloc, table, marks, net),
        _ => Ok(true),
    }
}

/// Follows sources from a net, and settles the ends of all nets on the way; false where they come back.
fn follow(
    alloc: Global,
    table: &SourceTable<'_>,
    marks: &mut Vec<Mark>,
    net: usize,
) -> Result<bool, NoMemory>
    requires table { IsLinked table.now }
    requires within { AreWithin (length table.now.last) 4294967295 table.now.rows.now }
    requires one { HaveOne table.now.rows.now }
    requires net { net < length table.now.last }
    requires marks { AreSettled table.now.rows.now (length table.now.last) marks.old.items }
    requires new { mark_of marks.old.items net ≡ mark.New }
    ensures { IfOk result (WalksFrom table.now.rows.now (length table.now.last) net marks.old.items marks.new.items) }
{
    let mut path = VecDeque::new(alloc);
    marks[net] = Mark::Open;
    path.push_front(net)?;
    while let Some(at) = path.pop_front() {
        match next_of(table, marks, at) {
            Next::Back => return Ok(false),
            Next::Follow(from) => {
                path.push_front(at)?;
                path.push_front(from)?;
                marks[from] = Mark::Open;
            }
            Next::End(end) => marks[at] = Mark::Done(end),
        }
    }
    Ok(true)
}

/// What is next for a net from which sources are being followed.
fn next_of(table: &SourceTable<'_>, marks: &[Mark], net: usize) -> Next
    requires table { IsLinked table.now }
    requires within { AreWithin (length table.now.last) 4294967295 table.now.rows.now }
    requires one { HaveOne table.now.rows.now }
    requires count { length marks.now ≡ length table.now.last }
    requires net { net < length table.now.last }
    ensures { result ≡ next_of marks.now (driven_by table.now.rows.now net) }
{
    match only_source(table, net) {
        Some(source) => next_by(marks, source),
        None => Next::End(Source::Nothing),
    }
}

/// What is next for a net by its one source.
fn next_by(marks: &[Mark], source: Driver) -> Next
    requires { IsDriverWithin (length marks.now) 4294967295 source }
    ensures { result ≡ next_by marks.now source }
{
    match source {
        Driver::Net(from) => next_at(from as usize, marks[from as usize]),
        Driver::Value(value) => Next::End(value_end(value)),
        Driver::Pin(pin) => Next::End(Source::Pin(Pin(pin as u32))),
    }
}

/// What is next for a net whose source is a net of a mark.
fn next_at(from: usize, mark: Mark) -> Next
    ensures { result ≡ next_at from mark }
{
    match mark {
        Mark::New => Next::Follow(from),
        Mark::Open => Next::Back,
        Mark::Done(end) => Next::End(end),
    }
}

/// The end of a net that a value drives.
fn value_end(value: bool) -> Source
    ensures { result ≡ value_end value }
{
    if value { Source::One } else { Source::Zero }
}
