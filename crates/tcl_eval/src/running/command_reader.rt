//! The commands of a script, read one after the other.

ghost use Rattle.std.specs.Prelude.{◌≡◌, ◌<◌, length, IfOk, IfSome};
ghost use Rattle.sdc_base.specs.Gives.{Meets};
ghost use Rattle.tcl_eval.specs.ScriptReads.{CommandFrom, beginning};

use sdc_base::{At, Stop};
use source_types::{Command, TclKind};
use std::alloc::Global;
use std::marker::Model;
use tcl_words::next_command;

/// A place in a script, from which its commands are read. Contracts see the text from there on, and the line.
#[derive(Drop)]
pub struct CommandReader<'t> {
    script: &'t str,
    at: usize,
    line: u32,
}

impl<'t> Model for CommandReader<'t> {
    ghost use Rattle.std.specs.Prelude.{◌≤◌, drop, length};
    ghost use Rattle.std.specs.Str.{IsCharBoundary};
    ghost use Rattle.tcl_model.specs.Commands.{Place};

    ghost Value = { Place };

    ghost view = { λ it. record { text = drop it.at it.script.now; line = it.line } };

    ghost invariant = { λ it. (it.at ≤ length it.script.now) × IsCharBoundary it.script.now it.at };
}

impl<'t> CommandReader<'t> {
    /// The beginning of a script, whose lines are counted from 1.
    pub fn new(script: &'t str) -> CommandReader<'t>
        ensures { result ≡ beginning script.now }
    {
        CommandReader {
            script,
            at: 0,
            line: 1,
        }
    }

    /// The next command; `None` where no more stands. Refused as `next_command` refuses.
    pub fn next(&mut self, alloc: Global) -> Result<Option<Command>, Stop<At<TclKind>>>
        ensures command { Meets result (λ given. CommandFrom self.old given self.new) }
        ensures shorter { IfOk result (λ o. IfSome o (λ command. length self.new.text < length self.old.text)) }
    {
        let Some(next) = next_command(alloc, self.script, self.at, self.line)? else {
            return Ok(None);
        };
        self.at = next.end;
        self.line = next.line;
        Ok(Some(next.command))
    }
}
