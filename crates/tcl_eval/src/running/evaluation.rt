//! The run of a whole script over a host.

ghost use Rattle.std.specs.Prelude.{◌≡◌, ◌<◌, length, IfOk, IfSome};
ghost use Rattle.sdc_base.specs.Gives.{Meets};
ghost use Rattle.tcl_model.specs.ScriptRun.{Runs};
ghost use Rattle.tcl_eval.specs.ScriptReads.{CommandOutside, RunsOutside};
ghost use Rattle.tcl_eval.specs.Worlds.{outside_answer, world};

use crate::hosts::Commands;
use crate::running::command_reader::CommandReader;
use crate::running::progress::{Level, Progress};
use crate::running::scripts::run_command;
use sdc_base::{At, Stop};
use source_types::{Command, Kind};
use std::alloc::Global;
use timing_types::Value;

/// The next command of a script. Refused as `next_command` refuses.
fn next_outside(
    alloc: Global,
    reader: &mut CommandReader,
) -> Result<Option<Command>, Stop<At<Kind>>>
    ensures command { Meets result (λ given. CommandOutside reader.old given reader.new) }
    ensures shorter { IfOk result (λ o. IfSome o (λ command. length reader.new.text < length reader.old.text)) }
{
    match reader.next(alloc) {
        Ok(command) => Ok(command),
        Err(Stop::Refused(At { line, kind })) => Err(Stop::Refused(At {
            line,
            kind: Kind::Tcl(kind),
        })),
        Err(Stop::NoMemory) => Err(Stop::NoMemory),
    }
}

/// What is told of a script's own command: its value is let go, and its fault has its line.
fn told_outside(line: u32, answer: Result<Value, Stop<Kind>>) -> Result<(), Stop<At<Kind>>>
    ensures { result ≡ outside_answer line answer }
{
    match answer {
        Ok(_) => Ok(()),
        Err(Stop::Refused(kind)) => Err(Stop::Refused(At { line, kind })),
        Err(Stop::NoMemory) => Err(Stop::NoMemory),
    }
}

/// Runs a script's own command. Its fault has its line.
fn run_outside<H: Commands>(
    alloc: Global,
    host: &mut H,
    run: &mut Progress,
    command: &Command,
) -> Result<(), Stop<At<Kind>>>
    ensures { Meets result (λ given. RunsOutside H.host command.now (world run.old (H.state host.old)) given (world run.new (H.state host.new))) }
{
    let level = Level::outermost(command.line);
    let answer = run_command(alloc, level, host, run, command);
    told_outside(command.line, answer)
}

/// Runs a script (Tcl) over a host, which answers every command that is not built in. The host gets the run's calls in
/// order, with the line of the outermost command and the values of their words, and is left as the run leaves it.
///
/// Refused with the first fault in order of execution and the line of the outermost command: the faults of reading
/// commands; `UnknownVariable`, `BadExpr`, `WrongArgs` and `Number`; `TooDeep` exactly above 100 levels of brackets,
/// bodies and parentheses together; `TooManyCommands` exactly at command 30,000,001; and what the host refuses. After a
/// refusal the host stands as the commands before it left it; after want of memory nothing is said of it.
pub fn eval<H: Commands>(alloc: Global, script: &str, host: &mut H) -> Result<(), Stop<At<Kind>>>
    ensures { Meets result (λ given. Runs H.host script.now (H.state host.old) given (H.state host.new)) }
{
    let mut run = Progress::new(alloc);
    let mut reader = CommandReader::new(script);
    while let Some(command) = next_outside(alloc, &mut reader)? {
        run_outside(alloc, host, &mut run, &command)?;
    }
    Ok(())
}
