//! Reports as JSON (RFC 8259): the value, and its bytes.

ghost use Rattle.std.specs.Prelude.{◌≡◌, IfOk, OnOk, false};
ghost use Rattle.serde_json.specs.Data.{Data, number, string, unsigned, put as with_member};
ghost use Rattle.serde_json.specs.Find.{of_integer};
ghost use Rattle.serde_json.specs.View.{view, members_view};
ghost use Rattle.serde_json.specs.Written.{has_float};
ghost use Rattle.sdc_cli.specs.ReportTree.{array_of, time_tree, mode_clock_tree, clock_row_tree, listed_row_tree, left_row_tree, merge_tree, tree_of, report_bytes};

use crate::reports::{ClockRow, LeftRow, ListedRow, MergeReport, ModeClock, Report};
use sdc_base::{List, NoMemory, Text};
use serde_json::{Map, Value, json, put};
use std::alloc::Global;

/// The bytes of a report: its JSON value without a space, and a newline. The one error is want of memory.
pub fn report_bytes(alloc: Global, report: &Report) -> Result<List<u8>, NoMemory>
    ensures { IfOk result (λ bytes. bytes ≡ report_bytes report.now) }
{
    let mut bytes = tree(alloc, report)?.to_vec(alloc)?;
    bytes.push(b'\n')?;
    Ok(List::from(bytes))
}

/// A report as a JSON value, objects with their keys in the order of their bytes. The one error is want of
/// memory.
fn tree(alloc: Global, report: &Report) -> Result<Value, NoMemory>
    ensures value { IfOk result (λ value. view value ≡ tree_of report.now) }
    ensures no_float { IfOk result (λ value. has_float (view value) ≡ false) }
{
    report.part(alloc)
}

/// A part of a report.
trait Part {
    /// The part's value in JSON.
    ghost tree: { Self → Data };

    /// The part as a JSON value. The one error is want of memory.
    fn part(&self, alloc: Global) -> Result<Value, NoMemory>
        ensures { IfOk result (λ value. view value ≡ tree self.now) };
}

/// Adds a part to an object, under a key.
fn add<P: Part>(
    object: &mut Map<String, Value>,
    alloc: Global,
    key: &str,
    part: &P,
) -> Result<(), NoMemory>
    ensures { OnOk result (members_view object.new.entries
        ≡ with_member key.now (P.tree part.now) (members_view object.old.entries)) }
{
    let value = part.part(alloc)?;
    put(object, alloc, key, value)?;
    Ok(())
}

impl Part for Text {
    ghost tree = { string };

    fn part(&self, alloc: Global) -> Result<Value, NoMemory> {
        Ok(Value::try_from_str(alloc, self.as_str())?)
    }
}

impl Part for u32 {
    ghost tree = { λ count. number (unsigned count) };

    fn part(&self, _alloc: Global) -> Result<Value, NoMemory> {
        Ok(Value::from(*self))
    }
}

impl Part for i64 {
    ghost tree = { λ time. number (of_integer time) };

    fn part(&self, _alloc: Global) -> Result<Value, NoMemory> {
        Ok(Value::from(*self))
    }
}

impl Part for Option<i64> {
    ghost tree = { time_tree };

    fn part(&self, alloc: Global) -> Result<Value, NoMemory> {
        match self {
            Some(time) => time.part(alloc),
            None => Ok(Value::Null),
        }
    }
}

impl<P: Part> Part for List<P> {
    ghost tree = { array_of P.tree };

    fn part(&self, alloc: Global) -> Result<Value, NoMemory> {
        let mut values = Vec::new(alloc);
        for part in self.as_slice() {
            values.push(part.part(alloc)?)?;
        }
        Ok(Value::Array(values))
    }
}

impl Part for Report {
    ghost tree = { tree_of };

    fn part(&self, alloc: Global) -> Result<Value, NoMemory> {
        match self {
            Report::Merge(report) => report.part(alloc),
        }
    }
}

impl Part for MergeReport {
    ghost tree = { merge_tree };

    fn part(&self, alloc: Global) -> Result<Value, NoMemory> {
        let mut object = Map::new(alloc);
        add(&mut object, alloc, "clocks", &self.clocks)?;
        add(&mut object, alloc, "listed", &self.listed)?;
        add(&mut object, alloc, "not_carried", &self.not_carried)?;
        Ok(Value::Object(object))
    }
}

impl Part for ClockRow {
    ghost tree = { clock_row_tree };

    fn part(&self, alloc: Global) -> Result<Value, NoMemory> {
        let mut object = Map::new(alloc);
        add(&mut object, alloc, "modes", &self.modes)?;
        add(&mut object, alloc, "name", &self.name)?;
        Ok(Value::Object(object))
    }
}

impl Part for ModeClock {
    ghost tree = { mode_clock_tree };

    fn part(&self, alloc: Global) -> Result<Value, NoMemory> {
        Ok(json!(in alloc; [self.file.as_str(), self.name.as_str()])?)
    }
}

impl Part for ListedRow {
    ghost tree = { listed_row_tree };

    fn part(&self, alloc: Global) -> Result<Value, NoMemory> {
        let mut object = Map::new(alloc);
        add(&mut object, alloc, "capture", &self.capture)?;
        add(&mut object, alloc, "end", &self.end)?;
        add(&mut object, alloc, "launch", &self.launch)?;
        add(&mut object, alloc, "merged", &self.merged)?;
        add(&mut object, alloc, "path", &self.path)?;
        add(&mut object, alloc, "required", &self.required)?;
        add(&mut object, alloc, "side", &self.side)?;
        Ok(Value::Object(object))
    }
}

impl Part for LeftRow {
    ghost tree = { left_row_tree };

    fn part(&self, alloc: Global) -> Result<Value, NoMemory> {
        let mut object = Map::new(alloc);
        add(&mut object, alloc, "command", &self.command)?;
        add(&mut object, alloc, "file", &self.file)?;
        add(&mut object, alloc, "line", &self.line)?;
        Ok(Value::Object(object))
    }
}
