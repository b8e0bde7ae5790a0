//! What a command line writes, of the modes that its files say.

ghost use Rattle.std.specs.Prelude.{◌≡◌, ◌≤◌, length};
ghost use Rattle.sdc_model.specs.Answers.{files_of};
ghost use Rattle.merge_model.specs.PlainViews.{clocks_in};
ghost use Rattle.mode_model.specs.PrintedFile.{ModesArePrintable};
ghost use Rattle.sdc_cli.specs.Outputs.{Computes, ComputesMerge};

use crate::edges_report::report_text;
use crate::merge_rows::report_of;
use crate::merges::{merge, merged_length};
use crate::report_tree::report_bytes;
use crate::reports::Report;
use flat_design::empty;
use sdc_base::{List, MOST_BYTES, Text};
use sdc_model::{CommandLine, Output, Status};
use sdc_print::print;
use std::alloc::Global;
use timing_types::Mode;

/// The budget of a command line that names none.
const BUDGET: u64 = 2_000_000;

/// The output of a command line whose files say these modes.
pub fn output_of(alloc: Global, line: &CommandLine, modes: &List<Mode>) -> Result<Output, Status>
    requires each { length modes.now ≡ length (files_of line.now) }
    requires printable { ModesArePrintable modes.now }
    requires few { clocks_in modes.now ≤ 16384 }
    ensures { Computes line.now modes.now result }
{
    match line {
        CommandLine::Edges(files) => {
            let report = report_text(alloc, files.as_slice(), modes.as_slice())?;
            Ok(Output {
                merged: List::new(alloc),
                report: List::from(report),
            })
        }
        CommandLine::Merge(_, files) => merge_output(alloc, files.as_slice(), modes),
    }
}

/// The merged file and the report of a merge of modes, whose files have these names; `TooLarge` before the merge is
/// made, where the file has more than 268,435,456 bytes.
fn merge_output(alloc: Global, files: &[Text], modes: &List<Mode>) -> Result<Output, Status>
    requires each { length modes.now ≡ length files.now }
    requires printable { ModesArePrintable modes.now }
    requires few { clocks_in modes.now ≤ 16384 }
    ensures { ComputesMerge files.now modes.now result }
{
    let design = empty(alloc)?;
    let bytes = merged_length(alloc, &design, modes)?;
    if bytes > MOST_BYTES as u64 {
        return Err(Status::TooLarge(bytes));
    }
    let merged = match merge(alloc, &design, modes, BUDGET) {
        Ok(merged) => merged,
        // Over the empty design nothing else stops a merge.
        Err(_) => return Err(Status::NoMemory),
    };
    let text = print(alloc, &design, &merged.mode)?;
    let rows = report_of(alloc, files, modes.as_slice(), &merged.clocks)?;
    let report = report_bytes(alloc, &Report::Merge(rows))?;
    Ok(Output {
        merged: text,
        report,
    })
}
