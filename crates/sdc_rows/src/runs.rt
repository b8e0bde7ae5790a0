//! Runs over forms in memory.

ghost use Rattle.std.specs.Prelude.{◌<◌};

use sdc_base::{List, MemInputs, MemOutputs, NamedBytes, NoMemory, Text};
use sdc_cli::{Status, run};
use std::alloc::Global;

/// What a run answered: its status, how often it called the inputs and the outputs, the name of the merged file, and
/// what was written.
#[derive(Debug, Drop)]
pub struct Outcome {
    pub status: Status,
    pub reads: u64,
    pub writes: u64,
    pub name: String,
    pub merged: String,
    pub report: String,
    pub refusals: String,
}

/// The calls of the inputs and of the outputs that fail, counted from 1; 0 is none.
#[derive(Clone, Copy, Debug)]
pub struct Fails {
    pub read: u64,
    pub write: u64,
}

pub const NO_FAILS: Fails = Fails { read: 0, write: 0 };

/// A run of these words, parted by single spaces, over these files, at most `most` bytes a call.
pub fn outcome_of(
    alloc: Global,
    words: &str,
    files: &[(&str, &str)],
    most: usize,
    fails: Fails,
) -> Result<Outcome, NoMemory>
    requires { 0 < most }
{
    let words = strings(alloc, words)?;
    let mut inputs = MemInputs {
        files: named_bytes(alloc, files)?,
        fail: one(alloc, fails.read)?,
        most,
        calls: 0,
        faults: 0,
        name: Text::new(alloc),
        place: 0,
        begun: false,
    };
    let mut outputs = MemOutputs {
        report: List::new(alloc),
        faults_text: List::new(alloc),
        merged: List::new(alloc),
        name: Text::new(alloc),
        fail: one(alloc, fails.write)?,
        most,
        calls: 0,
        faults: 0,
    };
    let status = run(alloc, words.as_slice(), &mut inputs, &mut outputs);
    left_by(alloc, status, &inputs, &outputs)
}

/// What a run with this answer left.
fn left_by(
    alloc: Global,
    status: Status,
    inputs: &MemInputs,
    outputs: &MemOutputs,
) -> Result<Outcome, NoMemory> {
    let name = String::from_str(alloc, outputs.name.as_str())?;
    let merged = written(alloc, &outputs.merged)?;
    let report = written(alloc, &outputs.report)?;
    let refusals = written(alloc, &outputs.faults_text)?;
    Ok(Outcome {
        status,
        reads: inputs.calls,
        writes: outputs.calls,
        name,
        merged,
        report,
        refusals,
    })
}

/// Bytes that were written, as a text.
fn written(alloc: Global, bytes: &List<u8>) -> Result<String, NoMemory> {
    match str::from_utf8(bytes.as_slice()) {
        Ok(text) => Ok(String::from_str(alloc, text)?),
        Err(_) => Ok(String::from_str(alloc, "no UTF-8")?),
    }
}

/// A file of so many clocks of one period.
pub fn equal_clocks(alloc: Global, count: u32) -> Result<String, NoMemory> {
    let mut text = String::new(alloc);
    for at in 0..count {
        let line = format!(in alloc; "create_clock -name c{at} -period 10\n")?;
        text.push_str(line.as_str())?;
    }
    Ok(text)
}

fn strings(alloc: Global, words: &str) -> Result<Vec<String>, NoMemory> {
    let mut strings = Vec::new(alloc);
    if words.is_empty() {
        return Ok(strings);
    }
    for word in words.split(' ') {
        strings.push(String::from_str(alloc, word)?)?;
    }
    Ok(strings)
}

fn named_bytes(alloc: Global, files: &[(&str, &str)]) -> Result<List<NamedBytes>, NoMemory> {
    let mut named = List::new(alloc);
    for (name, text) in files {
        named.push(NamedBytes {
            name: Text::from_str(alloc, name)?,
            bytes: List::from(Vec::from_slice(alloc, text.as_bytes())?),
        })?;
    }
    Ok(named)
}

fn one(alloc: Global, number: u64) -> Result<List<u64>, NoMemory> {
    let mut list = List::new(alloc);
    list.push(number)?;
    Ok(list)
}

/// Whether a text is the beginning of another one, and not all of it.
pub fn is_proper_front(front: &str, whole: &str) -> bool {
    whole.starts_with(front) && front.len() < whole.len()
}
