//! The line that names what stopped a run.

ghost use Rattle.std.specs.Prelude.{◌≡◌, ◌≤◌, ◌++◌, [], Err, IfOk, OnOk, decimal, slice_get};
ghost use Rattle.std.specs.Option.{option_copied, unwrap_or};
ghost use Rattle.sdc_base.specs.Counting.{Rose};
ghost use Rattle.sdc_model.specs.Answers.{OnContents};
ghost use Rattle.sdc_model.specs.FaultLine.{budget_line, fault_line, source_line, too_large_line, unread_line, word_at, word_of};
ghost use Rattle.sdc_cli.specs.Announced.{Announces, EndsAs, NamesWriteFault, WritesLine};
ghost use Rattle.sdc_cli.specs.Steps.{QuietWhenDone};

use crate::kind_names::kind_name;
use itoa::Buffer;
use sdc_base::{Channel, NoMemory, Outputs, Refusal, Text, write_all};
use sdc_model::{CommandLine, Status};
use source_types::Fault;
use std::alloc::Global;

/// Writes the line of a status to `Channel::Faults`, and gives the status that a run ends with: the same, or `NoMemory`
/// where memory ran out while the line was made or written. No other line is begun then. A write that fails changes
/// nothing. There is a command line where the words are one.
#[tactic(auto, using(crate::proofs::Announcements::ends_same, crate::proofs::Announcements::quiet_other, crate::proofs::Announcements::announced, crate::proofs::Announcements::announced_in_part, crate::proofs::Announcements::announced_without_memory, crate::proofs::Announcements::nothing_announced, crate::proofs::Announcements::nothing_announced_of_findings, crate::proofs::WriteFaultLines::named, crate::proofs::WriteFaultLines::named_in_part, crate::proofs::WriteFaultLines::named_without_memory, crate::proofs::WriteFaultLines::nothing_named, crate::proofs::WriteFaultLines::nothing_named_of_findings))]
pub fn announce<O: Outputs>(
    alloc: Global,
    line: Option<&CommandLine>,
    status: Status,
    outputs: &mut O,
) -> Status
    ensures ends { EndsAs status result }
    ensures announces { OnContents (Announces (option_copied line.entry) status
        (Rose (O.faults outputs.old) (O.faults outputs.new)) result)
        (O.contents outputs.old) (O.contents outputs.new) }
    ensures names { OnContents (NamesWriteFault (Rose (O.faults outputs.old) (O.faults outputs.new))
        result) (O.contents outputs.old) (O.contents outputs.new) }
    ensures counts { O.faults outputs.old ≤ O.faults outputs.new }
    ensures quiet { QuietWhenDone (O.faults outputs.old) (O.faults outputs.new) status }
{
    if let Status::Done = status {
        return Status::Done;
    }
    if let Status::Findings = status {
        return Status::Findings;
    }
    match write_line(alloc, line, &status, outputs) {
        Ok(()) => status,
        Err(Refusal::Failed) => status,
        Err(Refusal::NoMemory) => Status::NoMemory,
    }
}

/// Makes the line of a status whole, and then writes it to `Channel::Faults`. The line that memory ran out is not
/// made, so that it can be written where none is left.
#[tactic(auto, using(crate::proofs::Announcements::nothing_written, crate::proofs::Announcements::same_line))]
fn write_line<O: Outputs>(
    alloc: Global,
    line: Option<&CommandLine>,
    status: &Status,
    outputs: &mut O,
) -> Result<(), Refusal>
    ensures writes { WritesLine (fault_line (option_copied line.entry) status.now) result
        (O.contents outputs.old) (O.contents outputs.new) }
    ensures counts { O.faults outputs.old ≤ O.faults outputs.new }
    ensures failed { result ≡ Err Refusal.Failed
        → Rose (O.faults outputs.old) (O.faults outputs.new) }
{
    if let Status::NoMemory = status {
        return write_all(outputs, Channel::Faults, b"out of memory\n");
    }
    match fault_line(alloc, line, status) {
        Ok(text) => write_all(outputs, Channel::Faults, text.as_slice()),
        Err(_) => Err(Refusal::NoMemory),
    }
}

/// The line of a status; none where the work is done.
fn fault_line(
    alloc: Global,
    line: Option<&CommandLine>,
    status: &Status,
) -> Result<Vec<u8>, NoMemory>
    ensures { IfOk result (λ text. text.items ≡ fault_line (option_copied line.entry) status.now) }
{
    let mut text = Vec::new(alloc);
    append_line(&mut text, line, status)?;
    Ok(text)
}

/// Appends the line of a status.
fn append_line(
    text: &mut Vec<u8>,
    line: Option<&CommandLine>,
    status: &Status,
) -> Result<(), NoMemory>
    ensures { OnOk result (text.new.items
        ≡ text.old.items ++ fault_line (option_copied line.entry) status.now) }
{
    match status {
        Status::Done => Ok(()),
        Status::Findings => Ok(()),
        Status::Usage => append(text, b"wrong command line\n"),
        Status::Source(fault) => append_source(text, word_of(line, fault.file), fault),
        Status::Loop(_) => Ok(()),
        Status::Conflict { .. } => Ok(()),
        Status::Budget(classes) => append_budget(text, *classes),
        Status::ReadFault(place) => append_unread(text, word_of(line, *place)),
        Status::WriteFault => append(text, b"cannot write\n"),
        Status::NoMemory => append(text, b"out of memory\n"),
        Status::TooLarge(bytes) => append_too_large(text, *bytes),
    }
}

/// Appends a piece of a line.
fn append(text: &mut Vec<u8>, piece: &[u8]) -> Result<(), NoMemory>
    ensures { OnOk result (text.new.items ≡ text.old.items ++ piece.now) }
{
    text.extend_from_slice(piece)?;
    Ok(())
}

/// Appends `FILE:LINE: KIND` of a fault in this file.
fn append_source(text: &mut Vec<u8>, file: &str, fault: &Fault) -> Result<(), NoMemory>
    ensures { OnOk result (text.new.items ≡ text.old.items ++ source_line file.now fault.now) }
{
    text.extend_from_slice(file.as_bytes())?;
    text.extend_from_slice(b":")?;
    append_number(text, u64::from(fault.line))?;
    text.extend_from_slice(b": ")?;
    text.extend_from_slice(kind_name(fault.kind).as_bytes())?;
    text.extend_from_slice(b"\n")?;
    Ok(())
}

/// Appends `cannot read FILE`.
fn append_unread(text: &mut Vec<u8>, file: &str) -> Result<(), NoMemory>
    ensures { OnOk result (text.new.items ≡ text.old.items ++ unread_line file.now) }
{
    append_three(text, b"cannot read ", file.as_bytes(), b"\n")
}

/// Appends `merged file would have N bytes`.
fn append_too_large(text: &mut Vec<u8>, bytes: u64) -> Result<(), NoMemory>
    ensures { OnOk result (text.new.items ≡ text.old.items ++ too_large_line bytes) }
{
    let mut number = Buffer::new();
    let number = number.format(bytes).as_bytes();
    append_three(text, b"merged file would have ", number, b" bytes\n")
}

/// Appends `budget of N classes exceeded`.
fn append_budget(text: &mut Vec<u8>, classes: u64) -> Result<(), NoMemory>
    ensures { OnOk result (text.new.items ≡ text.old.items ++ budget_line classes) }
{
    let mut number = Buffer::new();
    let number = number.format(classes).as_bytes();
    append_three(text, b"budget of ", number, b" classes exceeded\n")
}

/// Appends three pieces of a line.
fn append_three(
    text: &mut Vec<u8>,
    first: &[u8],
    second: &[u8],
    third: &[u8],
) -> Result<(), NoMemory>
    ensures { OnOk result (text.new.items
        ≡ text.old.items ++ (first.now ++ (second.now ++ third.now))) }
{
    text.extend_from_slice(first)?;
    text.extend_from_slice(second)?;
    text.extend_from_slice(third)?;
    Ok(())
}

/// Appends a number in decimal.
fn append_number(text: &mut Vec<u8>, number: u64) -> Result<(), NoMemory>
    ensures { OnOk result (text.new.items ≡ text.old.items ++ decimal number) }
{
    let mut buffer = Buffer::new();
    text.extend_from_slice(buffer.format(number).as_bytes())?;
    Ok(())
}

/// The word at a place of a command line, the empty one where there is no command line.
fn word_of(line: Option<&CommandLine>, place: u32) -> &str
    ensures { result.now ≡ word_of (option_copied line.entry) place }
{
    match line {
        Some(line) => word_at(line, place as usize),
        None => "",
    }
}

/// The word at a place of a command line, the empty one where there is none.
fn word_at(line: &CommandLine, place: usize) -> &str
    ensures { result.now ≡ word_at line.now place }
{
    match line {
        CommandLine::Edges(files) => edges_word(files.as_slice(), place),
        CommandLine::Merge(out, modes) => merge_word(out, modes.as_slice(), place),
    }
}

/// The word at a place of `edges` over these files.
fn edges_word(files: &[Text], place: usize) -> &str
    ensures { result.now ≡ word_at (CommandLine.Edges files.now) place }
{
    if place == 0 {
        "edges"
    } else {
        nth_word(files, place - 1)
    }
}

/// The word at a place of a merge of these modes into a file.
fn merge_word<'a>(out: &'a Text, modes: &'a [Text], place: usize) -> &'a str
    ensures { result.now ≡ word_at (CommandLine.Merge out.now modes.now) place }
{
    if place == 0 {
        "merge"
    } else if place <= 3 {
        "-"
    } else if place == 4 {
        out.as_str()
    } else {
        nth_word(modes, place - 5)
    }
}

/// One of these words, counted from 0; the empty one where there is none.
fn nth_word(words: &[Text], at: usize) -> &str
    ensures { result.now ≡ unwrap_or (slice_get words.now at) [] }
{
    match words.get(at) {
        Some(word) => word.as_str(),
        None => "",
    }
}
