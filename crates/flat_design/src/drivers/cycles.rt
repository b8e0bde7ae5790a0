//! Nets to which following sources may come back, found in one walk over all nets.
//!
//! The walk numbers the nets by strongly connected components: two nets are of one component where sources lead from
//! each of them to the other. What is told of the nets rests on no more than a comparison of their numbers along all
//! rows: where no source has a lower number than the net that it drives, a way that comes back keeps to one number.

ghost use Rattle.std.specs.Prelude.{◌≡◌, ◌+◌, ◌<◌, ◌≤◌, ◌||◌, IfOk, OnOk, false, get_or, length, ℕ};
ghost use Rattle.std.specs.List.{All, list_any};
ghost use Rattle.flat_design.specs.Cycles.{AreCompared, AreComponentsOf, AreReturning, Keeps, falls, is_below, is_level, is_level_at, to_follow};
ghost use Rattle.flat_design.specs.SourceTable.{AreNetRows, IsLinked, IsNetRow, IsNetWithin};

use crate::drivers::driver_edges::{Driver, DriverEdge};
use crate::drivers::source_table::SourceTable;
use crate::items::item_at;
use sdc_base::{List, NoMemory};
use std::alloc::Global;

/// The strongly connected components of nets as the walk finds them. A component is whole when the walk leaves the one
/// of its nets that was reached first. Its number is below those of the components that were whole before, so that no
/// source has a lower number than the net that it drives.
#[derive(Drop)]
struct Components {
    /// The number of each net: that of its component where this is whole; 0 where the net was not reached; else the
    /// place, counted from 1, of the first net among those that wait to which sources are known to lead from it.
    numbers: Vec<usize>,
    /// The last row of each net that was not followed, counted from 1.
    last: Vec<usize>,
    /// The nets that are being followed, each a source of the one before it.
    path: Vec<usize>,
    /// The nets of components that are not whole, in the order in which they were reached.
    waiting: Vec<usize>,
    /// The number of the last component that is whole.
    number: usize,
}

/// Marks of the nets to which following sources may come back. It comes back to no other net.
pub(crate) fn may_return(alloc: Global, table: &SourceTable<'_>) -> Result<List<bool>, NoMemory>
    requires { IsLinked table.now }
    ensures { IfOk result (AreReturning table.now.rows.now (length table.now.last)) }
{
    let components = components_of(alloc, table)?;
    let marks = marks_of(alloc, table.rows, components.numbers.as_slice())?;
    Ok(List::from(marks))
}

/// The components of all nets.
fn components_of(alloc: Global, table: &SourceTable<'_>) -> Result<Components, NoMemory>
    requires { IsLinked table.now }
    ensures { IfOk result (AreComponentsOf table.now) }
{
    let mut components = Components::new(alloc, table)?;
    for net in 0..table.last.len() {
        components.visit(table, net)?;
    }
    Ok(components)
}

impl Components {
    /// No components yet of the nets of a table.
    fn new(alloc: Global, table: &SourceTable<'_>) -> Result<Components, NoMemory>
        requires { IsLinked table.now }
        ensures { IfOk result (AreComponentsOf table.now) }
    {
        let nets = table.last.len();
        Ok(Components {
            numbers: vec![in alloc; 0; nets]?,
            last: copied(alloc, table.last.as_slice())?,
            path: Vec::with_capacity(alloc, nets)?,
            waiting: Vec::with_capacity(alloc, nets)?,
            number: usize::MAX,
        })
    }

    /// Follows sources from a net and from all nets that are reached so, where the net was not reached before.
    fn visit(&mut self, table: &SourceTable<'_>, net: usize) -> Result<(), NoMemory>
        requires table { IsLinked table.now }
        requires net { net < length table.now.last }
        requires components { AreComponentsOf table.now self.old }
        ensures { OnOk result (AreComponentsOf table.now self.new) }
    {
        if self.numbers[net] > 0 {
            return Ok(());
        }
        self.enter(net)?;
        while let Some(at) = self.path.pop() {
            self.step(table, at)?;
        }
        Ok(())
    }

    /// Reaches a net, which waits for its component to be whole.
    fn enter(&mut self, net: usize) -> Result<(), NoMemory>
        requires { net < length self.old.numbers.items }
        ensures keeps { OnOk result (Keeps self.old self.new) }
        ensures more { OnOk result (to_follow self.new ≡ to_follow self.old + 1) }
    {
        self.waiting.push(net)?;
        self.numbers[net] = self.waiting.len();
        self.path.push(net)?;
        Ok(())
    }

    /// Follows one more row of a net, or leaves the net where no more are left.
    fn step(&mut self, table: &SourceTable<'_>, net: usize) -> Result<(), NoMemory>
        requires table { IsLinked table.now }
        requires net { net < length table.now.last }
        requires components { AreComponentsOf table.now self.old }
        ensures components { OnOk result (AreComponentsOf table.now self.new) }
        ensures falls { OnOk result (to_follow self.new ≤ to_follow self.old) }
    {
        let last = self.last[net];
        if last > 0 {
            self.path.push(net)?;
            self.follow(table, net, last - 1)?;
        } else {
            self.close(net);
            self.pass_back(net);
        }
        Ok(())
    }

    /// Follows a row, the last one that is left of its net.
    fn follow(&mut self, table: &SourceTable<'_>, net: usize, place: usize) -> Result<(), NoMemory>
        requires table { IsLinked table.now }
        requires net { net < length table.now.last }
        requires components { AreComponentsOf table.now self.old }
        requires last { get_or self.old.last.items net 0 ≡ place + 1 }
        ensures components { OnOk result (AreComponentsOf table.now self.new) }
        ensures falls { OnOk result (to_follow self.new < to_follow self.old) }
    {
        self.last[net] = *item_at(table.earlier.as_slice(), place);
        self.reach(net, item_at(table.rows, place).from)?;
        Ok(())
    }

    /// Reaches a source of a net, where that is a net.
    fn reach(&mut self, net: usize, source: Driver) -> Result<(), NoMemory>
        requires net { net < length self.old.numbers.items }
        requires source { IsNetWithin (length self.old.numbers.items) source }
        ensures keeps { OnOk result (Keeps self.old self.new) }
        ensures more { OnOk result (to_follow self.new ≤ to_follow self.old + 1) }
    {
        match source {
            Driver::Net(source) => self.reach_net(net, source as usize)?,
            Driver::Value(_) | Driver::Pin(_) => {}
        }
        Ok(())
    }

    /// Reaches a net, which is a source of another one.
    fn reach_net(&mut self, net: usize, source: usize) -> Result<(), NoMemory>
        requires net { net < length self.old.numbers.items }
        requires source { source < length self.old.numbers.items }
        ensures keeps { OnOk result (Keeps self.old self.new) }
        ensures more { OnOk result (to_follow self.new ≤ to_follow self.old + 1) }
    {
        if self.numbers[source] == 0 {
            self.enter(source)?;
        } else {
            self.lower(net, source);
        }
        Ok(())
    }

    /// Gives a net the number of a source, where it is lower.
    fn lower(&mut self, net: usize, source: usize)
        requires net { net < length self.old.numbers.items }
        requires source { source < length self.old.numbers.items }
        ensures keeps { Keeps self.old self.new }
        ensures same { to_follow self.new ≡ to_follow self.old }
    {
        self.numbers[net] = self.numbers[net].min(self.numbers[source]);
    }

    /// Gives the nets of a whole component its number, where the net that is left is the first one of them.
    fn close(&mut self, first: usize)
        requires first { first < length self.old.numbers.items }
        requires waiting { All (λ net. net < length self.old.numbers.items) self.old.waiting.items }
        ensures keeps { Keeps self.old self.new }
        ensures same { to_follow self.new ≡ to_follow self.old }
    {
        if !self.is_first(first) {
            return;
        }
        self.number = self.number.saturating_sub(1);
        while let Some(net) = self.waiting.pop() {
            self.numbers[net] = self.number;
            if net == first {
                return;
            }
        }
    }

    /// Whether a net is the first one of its component, so that the component is whole when the net is left.
    fn is_first(&self, net: usize) -> bool
        requires { net < length self.now.numbers.items }
    {
        let place = self.numbers[net];
        place > 0 && place <= self.waiting.len() && self.waiting[place - 1] == net
    }

    /// Gives the net before one that is left the number of that, where it is lower.
    fn pass_back(&mut self, net: usize)
        requires net { net < length self.old.numbers.items }
        requires path { All (λ net. net < length self.old.numbers.items) self.old.path.items }
        ensures keeps { Keeps self.old self.new }
        ensures same { to_follow self.new ≡ to_follow self.old }
    {
        let Some(before) = self.path.last().copied() else {
            return;
        };
        self.lower(before, net);
    }
}

/// A copy of numbers, in memory for no more of them.
fn copied(alloc: Global, numbers: &[usize]) -> Result<Vec<usize>, NoMemory>
    ensures { IfOk result (λ all. all.items ≡ numbers.now) }
{
    let mut all = Vec::with_capacity(alloc, numbers.len())?;
    all.extend_from_slice(numbers)?;
    Ok(all)
}

/// Marks each net that has one number with a source of its own; and all nets where a source has a lower number than a
/// net that it drives.
fn marks_of(alloc: Global, rows: &[DriverEdge], numbers: &[usize]) -> Result<Vec<bool>, NoMemory>
    requires { AreNetRows (length numbers.now) rows.now }
    ensures { IfOk result (λ marks. AreCompared numbers.now rows.now marks.items) }
{
    let mut marks = vec![in alloc; any_falls(rows, numbers); numbers.len()]?;
    for row in rows {
        mark(&mut marks, numbers, row);
    }
    Ok(marks)
}

/// Marks the net of a row where it has one number with its source.
fn mark(marks: &mut [bool], numbers: &[usize], row: &DriverEdge)
    requires row { IsNetRow (length numbers.now) row.now }
    requires count { length marks.old ≡ length numbers.now }
    ensures count { length marks.new ≡ length marks.old }
    ensures marks { (net : ℕ) → get_or marks.new net false
        ≡ (get_or marks.old net false || is_level_at numbers.now net row.now) }
{
    if is_level(numbers, row.to as usize, row.from) {
        marks[row.to as usize] = true;
    }
}

/// Whether a source has a lower number than a net that it drives.
fn any_falls(rows: &[DriverEdge], numbers: &[usize]) -> bool
    requires { AreNetRows (length numbers.now) rows.now }
    ensures { result ≡ list_any (falls numbers.now) rows.now }
{
    for row in rows {
        if is_below(numbers, row.to as usize, row.from) {
            return true;
        }
    }
    false
}

/// Whether a source is a net with a lower number than another one.
fn is_below(numbers: &[usize], net: usize, source: Driver) -> bool
    requires net { net < length numbers.now }
    requires source { IsNetWithin (length numbers.now) source }
    ensures { result ≡ is_below numbers.now net source }
{
    match source {
        Driver::Net(source) => numbers[source as usize] < numbers[net],
        Driver::Value(_) | Driver::Pin(_) => false,
    }
}

/// Whether a source is a net with the number of another one.
fn is_level(numbers: &[usize], net: usize, source: Driver) -> bool
    requires net { net < length numbers.now }
    requires source { IsNetWithin (length numbers.now) source }
    ensures { result ≡ is_level numbers.now net source }
{
    match source {
        Driver::Net(source) => numbers[source as usize] == numbers[net],
        Driver::Value(_) | Driver::Pin(_) => false,
    }
}
