//! Tests of whole reads and whole writes, and of the four forms in memory below them.

ghost use Rattle.std.specs.Prelude.{◌<◌};

use sdc_base::{
    Channel, Inputs, List, MemInputs, MemOutputs, NamedBytes, NoMemory, Outputs, ReadStop, Refusal,
    SureInputs, SureOutputs, Text, read_all, write_all,
};
use std::alloc::Global;
use std::test::Fail;

/// A text of 26 bytes.
const CLOCK: &str = "create_clock -period 10 a\n";

fn named(alloc: Global, name: &str, text: &str) -> Result<NamedBytes, NoMemory> {
    let name = Text::from_str(alloc, name)?;
    let mut bytes = List::new(alloc);
    bytes.extend_from_slice(text.as_bytes())?;
    Ok(NamedBytes { name, bytes })
}

/// A file with a clock, an empty file, and one more under the name of the first.
fn some_files(alloc: Global) -> Result<List<NamedBytes>, NoMemory> {
    let mut files = List::new(alloc);
    files.push(named(alloc, "a.sdc", CLOCK)?)?;
    files.push(named(alloc, "empty.sdc", "")?)?;
    files.push(named(alloc, "a.sdc", "another file\n")?)?;
    Ok(files)
}

fn one_number(alloc: Global, number: u64) -> Result<List<u64>, NoMemory> {
    let mut numbers = List::new(alloc);
    numbers.push(number)?;
    Ok(numbers)
}

fn mem_inputs(alloc: Global, most: usize, fail: u64) -> Result<MemInputs, NoMemory>
    requires { 0 < most }
{
    Ok(MemInputs {
        files: some_files(alloc)?,
        fail: one_number(alloc, fail)?,
        most,
        calls: 0,
        faults: 0,
        name: Text::new(alloc),
        place: 0,
        begun: false,
    })
}

fn sure_inputs(alloc: Global) -> Result<SureInputs, NoMemory> {
    Ok(SureInputs {
        files: some_files(alloc)?,
        name: Text::new(alloc),
        place: 0,
    })
}

fn mem_outputs(alloc: Global, most: usize, fail: u64) -> Result<MemOutputs, NoMemory>
    requires { 0 < most }
{
    Ok(MemOutputs {
        report: List::new(alloc),
        faults_text: List::new(alloc),
        merged: List::new(alloc),
        name: Text::from_str(alloc, "old.sdc")?,
        fail: one_number(alloc, fail)?,
        most,
        calls: 0,
        faults: 0,
    })
}

fn sure_outputs(alloc: Global) -> Result<SureOutputs, NoMemory> {
    let mut merged = List::new(alloc);
    merged.extend_from_slice("old text".as_bytes())?;
    Ok(SureOutputs {
        report: List::new(alloc),
        faults_text: List::new(alloc),
        merged,
        name: Text::from_str(alloc, "old.sdc")?,
    })
}

#[test]
fn a_file_is_read_to_its_end(rt: HostRuntime) -> Result<(), Fail> {
    let alloc = rt.alloc();
    for (most, calls) in [(1, 28), (16, 4), (100_000, 3)] {
        let mut inputs = mem_inputs(alloc, most, 0)?;
        let bytes = read_all(alloc, &mut inputs, "a.sdc")?;
        assert_eq!(rt; bytes.as_slice(), CLOCK.as_bytes());
        assert_eq!(rt; (inputs.calls, inputs.faults, inputs.place), (calls, 0, 26));
        let bytes = read_all(alloc, &mut inputs, "empty.sdc")?;
        assert_eq!(rt; bytes.len(), 0);
        assert_eq!(rt; inputs.name.as_str(), "empty.sdc");
    }
    let mut inputs = sure_inputs(alloc)?;
    let bytes = read_all(alloc, &mut inputs, "a.sdc")?;
    assert_eq!(rt; bytes.as_slice(), CLOCK.as_bytes());
    Ok(())
}

#[test]
fn each_failing_read_is_told(rt: HostRuntime) -> Result<(), Fail> {
    let alloc = rt.alloc();
    for (fail, place, begun) in [(1, 0, false), (2, 0, true), (3, 16, true), (4, 26, true)] {
        let mut inputs = mem_inputs(alloc, 16, fail)?;
        let answer = read_all(alloc, &mut inputs, "a.sdc");
        assert!(rt; matches!(answer, Err(ReadStop::Failed)), "call {fail}");
        assert_eq!(rt; (inputs.calls, inputs.faults), (fail, 1));
        assert_eq!(rt; (inputs.place, inputs.begun), (place, begun));
    }
    Ok(())
}

#[test]
fn a_missing_name_fails_or_is_an_empty_file(rt: HostRuntime) -> Result<(), Fail> {
    let alloc = rt.alloc();
    let mut buffer = [0; 4];
    let mut inputs = mem_inputs(alloc, 16, 0)?;
    assert_eq!(rt; inputs.read(&mut buffer), Err(Refusal::Failed));
    inputs.begin("a.sdc")?;
    assert_eq!(rt; inputs.read(&mut buffer), Ok(4));
    assert_eq!(rt; buffer.as_slice(), b"crea".as_slice());
    assert_eq!(rt; inputs.begin("none.sdc"), Err(Refusal::Failed));
    assert_eq!(rt; (inputs.name.as_str(), inputs.place), ("a.sdc", 4));
    assert_eq!(rt; (inputs.calls, inputs.faults), (4, 2));
    let mut inputs = sure_inputs(alloc)?;
    let bytes = read_all(alloc, &mut inputs, "none.sdc")?;
    assert_eq!(rt; bytes.len(), 0);
    assert_eq!(rt; inputs.name.as_str(), "none.sdc");
    Ok(())
}

#[test]
fn all_bytes_are_written(rt: HostRuntime) -> Result<(), Fail> {
    let alloc = rt.alloc();
    for (most, calls) in [(1, 26), (16, 2)] {
        let mut outputs = mem_outputs(alloc, most, 0)?;
        outputs.create("merged.sdc")?;
        write_all(&mut outputs, Channel::Merged, CLOCK.as_bytes())?;
        assert_eq!(rt; outputs.merged.as_slice(), CLOCK.as_bytes());
        assert_eq!(rt; outputs.name.as_str(), "merged.sdc");
        assert_eq!(rt; (outputs.calls, outputs.faults), (calls + 1, 0));
        write_all(&mut outputs, Channel::Report, b"report".as_slice())?;
        write_all(&mut outputs, Channel::Faults, b"faults".as_slice())?;
        assert_eq!(rt; outputs.report.as_slice(), b"report".as_slice());
        assert_eq!(rt; outputs.faults_text.as_slice(), b"faults".as_slice());
    }
    let mut outputs = sure_outputs(alloc)?;
    outputs.create("merged.sdc")?;
    write_all(&mut outputs, Channel::Merged, CLOCK.as_bytes())?;
    write_all(&mut outputs, Channel::Merged, b"more".as_slice())?;
    write_all(&mut outputs, Channel::Report, b"report".as_slice())?;
    write_all(&mut outputs, Channel::Faults, b"".as_slice())?;
    assert_eq!(rt;
        outputs.merged.as_slice(),
        b"create_clock -period 10 a\nmore".as_slice()
    );
    assert_eq!(rt; (outputs.report.len(), outputs.faults_text.len()), (6, 0));
    assert_eq!(rt; outputs.name.as_str(), "merged.sdc");
    Ok(())
}

#[test]
fn each_failing_write_leaves_a_front(rt: HostRuntime) -> Result<(), Fail> {
    let alloc = rt.alloc();
    for (fail, front) in [(1, ""), (2, "create_clock -pe")] {
        let mut outputs = mem_outputs(alloc, 16, fail)?;
        let answer = write_all(&mut outputs, Channel::Merged, CLOCK.as_bytes());
        assert_eq!(rt; answer, Err(Refusal::Failed));
        assert_eq!(rt; outputs.merged.as_slice(), front.as_bytes());
        assert_eq!(rt; (outputs.calls, outputs.faults), (fail, 1));
        assert_eq!(rt; (outputs.report.len(), outputs.faults_text.len()), (0, 0));
    }
    let mut outputs = mem_outputs(alloc, 16, 2)?;
    write_all(&mut outputs, Channel::Merged, b"kept".as_slice())?;
    assert_eq!(rt; outputs.create("merged.sdc"), Err(Refusal::Failed));
    assert_eq!(rt; outputs.merged.as_slice(), b"kept".as_slice());
    assert_eq!(rt; outputs.name.as_str(), "old.sdc");
    Ok(())
}

#[test]
fn counts_stand_at_their_last_value(rt: HostRuntime) -> Result<(), Fail> {
    let alloc = rt.alloc();
    let mut inputs = mem_inputs(alloc, 16, u64::MAX)?;
    inputs.calls = u64::MAX - 1;
    inputs.faults = u64::MAX - 1;
    assert_eq!(rt; inputs.begin("a.sdc"), Err(Refusal::Failed));
    assert_eq!(rt; (inputs.calls, inputs.faults), (u64::MAX, u64::MAX));
    assert_eq!(rt; inputs.begin("a.sdc"), Err(Refusal::Failed));
    assert_eq!(rt; (inputs.calls, inputs.faults), (u64::MAX, u64::MAX));
    let mut outputs = mem_outputs(alloc, 16, 7)?;
    outputs.calls = u64::MAX;
    write_all(&mut outputs, Channel::Report, b"report".as_slice())?;
    assert_eq!(rt; (outputs.calls, outputs.faults), (u64::MAX, 0));
    Ok(())
}
