//! The run of the tool.

ghost use Rattle.std.specs.Prelude.{◌≡◌, ◌≤◌, length, IfErr, OnOk, Some, Err};
ghost use Rattle.sdc_model.specs.CommandLine.{command_line, words_of};
ghost use Rattle.sdc_model.specs.Answers.{OnContents, OnModes, IsLineFault, UsageFits, CauseFits, TooLargeFits, ReadFaultFits, WriteFaultFits, QuietFits, LeavesReading, LeavesWritten, made_by, made_file, files_of};
ghost use Rattle.sdc_model.specs.FaultLine.{LeavesFaults, with_faults};
ghost use Rattle.sdc_cli.specs.Announced.{HasCauses, NamesWriteFault, RoseTwice};
ghost use Rattle.sdc_cli.specs.Steps.{WritesOutput, EndsWriting, WritesBoth, QuietWhenDone};
ghost use Rattle.sdc_base.specs.Counting.{Rose};
ghost use Rattle.sdc_cli.specs.Outputs.{IsOutputOf, IsTooLargeOf, ComputesLine, StopsComputing};

use crate::command_line::command_line;
use crate::fault_lines::announce;
use crate::mode_files::read_modes;
use crate::outputs::output_of;
use sdc_base::{Channel, Inputs, Outputs, Refusal, Text, write_all};
use sdc_model::{CommandLine, Output, Status};
use std::alloc::Global;

/// Runs the tool on the words after the program's name. All is computed before the first call on the
/// outputs. What stopped it is named by one line on `Channel::Faults`.
///
/// The answers are this project's own: `Usage` exactly where the words are no command line, `Source` with the
/// first fault of a file, `TooLarge` where the merged text would have more than 268,435,456 bytes, `ReadFault`
/// and `WriteFault` only where the inputs or outputs counted a fault, `Done` where all was written whole, and
/// `NoMemory` wherever memory ran out.
#[tactic(auto, using(crate::proofs::RunLeaves::usage_leaves, crate::proofs::RunLeaves::usage_names, crate::proofs::RunLeaves::memory_leaves, crate::proofs::RunLeaves::memory_names, crate::proofs::AnswerEnds::usage_ends, crate::proofs::AnswerEnds::cause_ends, crate::proofs::AnswerEnds::too_large_ends, crate::proofs::AnswerEnds::read_fault_ends, crate::proofs::AnswerEnds::write_fault_ends, crate::proofs::AnswerEnds::reads_ends, crate::proofs::WriteFaultLines::usage_no_write_fault, crate::proofs::WriteFaultLines::memory_no_write_fault))]
pub fn run<I: Inputs, O: Outputs>(
    alloc: Global,
    words: &[String],
    inputs: &mut I,
    outputs: &mut O,
) -> Status
    // Usage exactly where the words are no command line.
    ensures usage { UsageFits (command_line (words_of words.now)) result }

    // Done and WriteFault only where there is an output; Source and TooLarge only for what they name.
    ensures cause { let line = command_line (words_of words.now) in
        CauseFits (λ output. OnModes (λ l modes. IsOutputOf l modes output) (I.contents inputs.old) line)
        (IsLineFault (I.contents inputs.old) line)
        (λ bytes. OnModes (λ l modes. IsTooLargeOf l modes bytes) (I.contents inputs.old) line) result }

    // TooLarge only of a merge, and of more bytes than a file may have.
    ensures too_large { TooLargeFits (command_line (words_of words.now)) result }

    // ReadFault and WriteFault only where a count rose.
    ensures read_fault { ReadFaultFits (command_line (words_of words.now))
        (I.faults inputs.old) (I.faults inputs.new) result }
    ensures write_fault { WriteFaultFits (O.faults outputs.old) (O.faults outputs.new) result }

    // Done only where neither count rose: no failed read was taken as an end, no failed write as a whole one.
    ensures quiet { QuietFits (I.faults inputs.old) (I.faults inputs.new)
        (O.faults outputs.old) (O.faults outputs.new) result }

    // What stands in the inputs and in the outputs after it, except for the line that names what stopped it.
    ensures reads { OnContents (LeavesReading (command_line (words_of words.now)) result)
        (I.contents inputs.old) (I.contents inputs.new) }
    ensures writes { let line = command_line (words_of words.now) in
        OnContents (λ before after. LeavesWritten (made_by line)
        (λ output. OnModes (λ l modes. IsOutputOf l modes output) (I.contents inputs.old) line) result
        before (with_faults before.faults after))
        (O.contents outputs.old) (O.contents outputs.new) }

    // The line that names what stopped it, whole, or a front of it where a write failed; after want of memory a
    // front of one. That of a write fault is whole too, unless a second write failed.
    ensures names { let line = command_line (words_of words.now) in
        OnContents (λ before after. LeavesFaults line
        (HasCauses (I.contents inputs.old) (I.faults inputs.old) (I.faults inputs.new)
        (O.faults outputs.old) (O.faults outputs.new) line)
        (Rose (O.faults outputs.old) (O.faults outputs.new)) result before.faults after.faults)
        (O.contents outputs.old) (O.contents outputs.new) }
    ensures write_fault_line { OnContents (NamesWriteFault
        (RoseTwice (O.faults outputs.old) (O.faults outputs.new)) result)
        (O.contents outputs.old) (O.contents outputs.new) }
{
    match command_line(alloc, words) {
        Ok(Some(line)) => run_line(alloc, &line, inputs, outputs),
        Ok(None) => announce(alloc, None, Status::Usage, outputs),
        Err(_) => announce(alloc, None, Status::NoMemory, outputs),
    }
}

/// Runs a command line, and names what stopped it.
#[tactic(auto, using(crate::proofs::AnswerEnds::cause_ends, crate::proofs::AnswerEnds::write_fault_ends))]
fn run_line<I: Inputs, O: Outputs>(
    alloc: Global,
    line: &CommandLine,
    inputs: &mut I,
    outputs: &mut O,
) -> Status
    requires { length (files_of line.now) ≤ 16 }
    ensures usage { UsageFits (Some line.now) result }
    ensures cause { CauseFits (λ output. OnModes (λ l modes. IsOutputOf l modes output) (I.contents inputs.old) (Some line.now))
        (IsLineFault (I.contents inputs.old) (Some line.now))
        (λ bytes. OnModes (λ l modes. IsTooLargeOf l modes bytes) (I.contents inputs.old) (Some line.now)) result }
    ensures too_large { TooLargeFits (Some line.now) result }
    ensures read_fault { ReadFaultFits (Some line.now)
        (I.faults inputs.old) (I.faults inputs.new) result }
    ensures write_fault { WriteFaultFits (O.faults outputs.old) (O.faults outputs.new) result }
    ensures quiet { QuietFits (I.faults inputs.old) (I.faults inputs.new)
        (O.faults outputs.old) (O.faults outputs.new) result }
    ensures reads { OnContents (LeavesReading (Some line.now) result)
        (I.contents inputs.old) (I.contents inputs.new) }
    ensures writes { OnContents (λ before after. LeavesWritten (made_file line.now)
        (λ output. OnModes (λ l modes. IsOutputOf l modes output) (I.contents inputs.old) (Some line.now)) result
        before (with_faults before.faults after))
        (O.contents outputs.old) (O.contents outputs.new) }
    ensures names { OnContents (λ before after. LeavesFaults (Some line.now)
        (HasCauses (I.contents inputs.old) (I.faults inputs.old) (I.faults inputs.new)
        (O.faults outputs.old) (O.faults outputs.new) (Some line.now))
        (Rose (O.faults outputs.old) (O.faults outputs.new)) result before.faults after.faults)
        (O.contents outputs.old) (O.contents outputs.new) }
    ensures write_fault_line { OnContents (NamesWriteFault
        (RoseTwice (O.faults outputs.old) (O.faults outputs.new)) result)
        (O.contents outputs.old) (O.contents outputs.new) }
{
    let status = write_line_output(alloc, line, inputs, outputs);
    announce(alloc, Some(line), status, outputs)
}

/// Computes the output of a command line and writes it.
fn write_line_output<I: Inputs, O: Outputs>(
    alloc: Global,
    line: &CommandLine,
    inputs: &mut I,
    outputs: &mut O,
) -> Status
    requires { length (files_of line.now) ≤ 16 }
    ensures usage { UsageFits (Some line.now) result }
    ensures cause { CauseFits (λ output. OnModes (λ l modes. IsOutputOf l modes output) (I.contents inputs.old) (Some line.now))
        (IsLineFault (I.contents inputs.old) (Some line.now))
        (λ bytes. OnModes (λ l modes. IsTooLargeOf l modes bytes) (I.contents inputs.old) (Some line.now)) result }
    ensures too_large { TooLargeFits (Some line.now) result }
    ensures read_fault { ReadFaultFits (Some line.now)
        (I.faults inputs.old) (I.faults inputs.new) result }
    ensures write_fault { WriteFaultFits (O.faults outputs.old) (O.faults outputs.new) result }
    ensures counts { O.faults outputs.old ≤ O.faults outputs.new }
    ensures quiet { QuietFits (I.faults inputs.old) (I.faults inputs.new)
        (O.faults outputs.old) (O.faults outputs.new) result }
    ensures reads { OnContents (LeavesReading (Some line.now) result)
        (I.contents inputs.old) (I.contents inputs.new) }
    ensures writes { OnContents (LeavesWritten (made_file line.now)
        (λ output. OnModes (λ l modes. IsOutputOf l modes output) (I.contents inputs.old) (Some line.now)) result)
        (O.contents outputs.old) (O.contents outputs.new) }
{
    match line_output(alloc, line, inputs) {
        Ok(output) => write_output(line, &output, outputs),
        Err(status) => status,
    }
}

/// The output of a command line, or the status that names what stopped it.
fn line_output<I: Inputs>(
    alloc: Global,
    line: &CommandLine,
    inputs: &mut I,
) -> Result<Output, Status>
    requires { length (files_of line.now) ≤ 16 }
    ensures contents { OnContents (ComputesLine line.now result) (I.contents inputs.old) (I.contents inputs.new) }
    ensures stops { IfErr result
        (StopsComputing line.now (I.faults inputs.old) (I.faults inputs.new)) }
    ensures quiet { OnOk result (I.faults inputs.new ≡ I.faults inputs.old) }
{
    let modes = read_modes(alloc, line, inputs)?;
    output_of(alloc, line, &modes)
}

/// Writes the output of a command line, the merged file before the report.
fn write_output<O: Outputs>(line: &CommandLine, output: &Output, outputs: &mut O) -> Status
    ensures writes { OnContents (WritesOutput (made_file line.now) output.now result)
        (O.contents outputs.old) (O.contents outputs.new) }
    ensures write_fault { WriteFaultFits (O.faults outputs.old) (O.faults outputs.new) result }
    ensures counts { O.faults outputs.old ≤ O.faults outputs.new }
    ensures quiet { QuietWhenDone (O.faults outputs.old) (O.faults outputs.new) result }
    ensures ends { EndsWriting result }
{
    let written = match line {
        CommandLine::Edges(_) => write_all(outputs, Channel::Report, output.report.as_slice()),
        CommandLine::Merge(out, _) => write_both(out, output, outputs),
    };
    match written {
        Ok(()) => Status::Done,
        Err(Refusal::Failed) => Status::WriteFault,
        Err(Refusal::NoMemory) => Status::NoMemory,
    }
}

/// Makes the merged file and writes it whole, then the report.
fn write_both<O: Outputs>(out: &Text, output: &Output, outputs: &mut O) -> Result<(), Refusal>
    ensures writes { OnContents (WritesBoth out.now output.now result)
        (O.contents outputs.old) (O.contents outputs.new) }
    ensures counts { O.faults outputs.old ≤ O.faults outputs.new }
    ensures quiet { OnOk result (O.faults outputs.new ≡ O.faults outputs.old) }
    ensures failed { result ≡ Err Refusal.Failed
        → Rose (O.faults outputs.old) (O.faults outputs.new) }
{
    outputs.create(out.as_str())?;
    write_all(outputs, Channel::Merged, output.merged.as_slice())?;
    write_all(outputs, Channel::Report, output.report.as_slice())
}
