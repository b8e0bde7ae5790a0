//! The mode files of a command line, read one after the other.

ghost use Rattle.std.specs.Prelude.{◌≡◌, ◌≤◌, ◌<◌, ◌^◌, ◌+◌, length, [], IfOk, IfErr, OnOk};
ghost use Rattle.sdc_model.specs.Answers.{files_of, first_place, most_clocks, OnContents};
ghost use Rattle.sdc_cli.specs.Steps.{ReadsMode, ReadsModes, StopsAt, StopsReading};
ghost use Rattle.merge_model.specs.PlainViews.{clocks_in};
ghost use Rattle.mode_model.specs.PrintedFile.{ArePrintableClocks, ModesArePrintable};

use crate::clock_options::MOST_CLOCKS;
use crate::mode_file::read_mode;
use sdc_base::{Inputs, List, ReadStop, Stop, Text, read_all};
use sdc_model::{CommandLine, Status};
use source_types::{Fault, Kind};
use std::alloc::Global;
use timing_types::Mode;

/// The modes that the files of a command line say; or the status that names what stopped the reading.
pub fn read_modes<I: Inputs>(
    alloc: Global,
    line: &CommandLine,
    inputs: &mut I,
) -> Result<List<Mode>, Status>
    requires few { length (files_of line.now) ≤ 16 }
    ensures contents { OnContents (ReadsModes line.now result) (I.contents inputs.old) (I.contents inputs.new) }
    ensures stops { IfErr result
        (StopsReading line.now (I.faults inputs.old) (I.faults inputs.new)) }
    ensures counts { I.faults inputs.old ≤ I.faults inputs.new }
    ensures quiet { OnOk result (I.faults inputs.new ≡ I.faults inputs.old) }
    ensures each { IfOk result (λ modes. length modes ≡ length (files_of line.now)) }
    ensures printable { IfOk result ModesArePrintable }
    ensures few_clocks { IfOk result (λ modes. clocks_in modes ≤ most_clocks line.now) }
{
    let most = most_clocks(line);
    let first = first_place(line);
    let mut modes = List::new(alloc);
    let mut count = 0;
    let names = files_of(line);
    for (at, name) in names.iter().enumerate() {
        let mode = read_file(alloc, most, count, first + at as u32, name.as_str(), inputs)?;
        count += mode.clocks.len();
        modes.push(mode)?;
    }
    Ok(modes)
}

/// The most clocks in the mode files of a command line.
fn most_clocks(line: &CommandLine) -> usize
    ensures { result ≡ most_clocks line.now }
{
    match line {
        CommandLine::Edges(_) => 1024,
        CommandLine::Merge(_, _) => MOST_CLOCKS,
    }
}

/// The place of the first mode file among the words of a command line.
fn first_place(line: &CommandLine) -> u32
    ensures { result ≡ first_place line.now }
{
    match line {
        CommandLine::Edges(_) => 1,
        CommandLine::Merge(_, _) => 5,
    }
}

/// The mode files of a command line.
pub fn files_of(line: &CommandLine) -> &[Text]
    ensures { result.now ≡ files_of line.now }
{
    match line {
        CommandLine::Edges(files) => files.as_slice(),
        CommandLine::Merge(_, modes) => modes.as_slice(),
    }
}

/// The mode that the file of a name says, whose word stands at this place, after so many clocks of other
/// files.
fn read_file<I: Inputs>(
    alloc: Global,
    most: usize,
    count: usize,
    place: u32,
    name: &str,
    inputs: &mut I,
) -> Result<Mode, Status>
    requires { count ≤ most }
    ensures contents { OnContents (ReadsMode most count place name.now result)
        (I.contents inputs.old) (I.contents inputs.new) }
    ensures stops { IfErr result (StopsAt place (I.faults inputs.old) (I.faults inputs.new)) }
    ensures counts { I.faults inputs.old ≤ I.faults inputs.new }
    ensures quiet { OnOk result (I.faults inputs.new ≡ I.faults inputs.old) }
    ensures within { IfOk result (λ mode. count + length mode.clocks ≤ most) }
    ensures printable { IfOk result (λ mode. ArePrintableClocks [] mode.clocks) }
{
    let bytes = match read_all(alloc, inputs, name) {
        Ok(bytes) => bytes,
        Err(ReadStop::Failed) => return Err(Status::ReadFault(place)),
        Err(ReadStop::TooLong) => return Err(fault_at(place, 0, Kind::TooLong)),
        Err(ReadStop::NoMemory) => return Err(Status::NoMemory),
    };
    let left = most - count;
    match read_mode(alloc, bytes.as_slice(), left) {
        Ok(mode) => Ok(mode),
        Err(Stop::Refused(fault)) => Err(fault_at(place, fault.line, fault.kind)),
        Err(Stop::NoMemory) => Err(Status::NoMemory),
    }
}

/// The status of a fault of the file at a place of the words.
fn fault_at(file: u32, line: u32, kind: Kind) -> Status
    ensures { result ≡ Status.Source (record { file = file; line = line; kind = kind }) }
{
    Status::Source(Fault { file, line, kind })
}
