//! How far a run is: what it changed beside its host, and at which level it is.

ghost use Rattle.std.specs.Prelude.{◌≡◌, ◌-◌, ◌<◌, [], OnOk};
ghost use Rattle.tcl_model.specs.Variables.{with_variable};
ghost use Rattle.tcl_eval.specs.Worlds.{Begins};

use crate::running::variables::Variables;
use sdc_base::{Duplicate, NoMemory};
use source_types::{Kind, TclKind};
use std::alloc::Global;
use timing_types::Value;

/// The most commands that a run begins. This project's own.
const MOST_COMMANDS: u32 = 30_000_000;

/// The most levels of brackets, bodies and parentheses that are open at one place. This project's own.
const MOST_LEVELS: usize = 100;

/// Where in a run a command stands: the line of the outermost command around it, and how many levels are left to be
/// opened inside it.
#[derive(Clone, Copy)]
pub struct Level {
    pub line: u32,
    pub left: usize,
}

impl Level {
    /// The level of an outermost command of a line.
    pub fn outermost(line: u32) -> Level
        ensures line { result.line ≡ line }
        ensures left { result.left ≡ 100 }
    {
        Level {
            line,
            left: MOST_LEVELS,
        }
    }

    /// The next level inside.
    pub fn inner(self) -> Level
        requires { 0 < self.left }
        ensures line { result.line ≡ self.line }
        ensures left { result.left ≡ self.left - 1 }
    {
        Level {
            line: self.line,
            left: self.left - 1,
        }
    }

    /// The level inside so many parentheses, at most the last one.
    pub fn after(self, inside: usize) -> Level
        ensures line { result.line ≡ self.line }
        ensures left { result.left ≡ self.left - inside }
    {
        Level {
            line: self.line,
            left: self.left.saturating_sub(inside),
        }
    }
}

/// What a run changes beside its host: the variables, and how many commands it began.
#[derive(Drop)]
pub struct Progress {
    pub variables: Variables,
    pub begun: u32,
}

impl Progress {
    /// No variable, and no command begun.
    pub fn new(alloc: Global) -> Progress
        ensures variables { result.variables ≡ [] }
        ensures begun { result.begun ≡ 0 }
    {
        Progress {
            variables: Variables::new(alloc),
            begun: 0,
        }
    }

    /// Counts a command that begins. Refused as `TooManyCommands` where as many as are taken were begun.
    pub fn begin(&mut self) -> Result<(), Kind>
        ensures { Begins self.old result self.new }
    {
        if self.begun >= MOST_COMMANDS {
            return Err(Kind::Tcl(TclKind::TooManyCommands));
        }
        self.begun += 1;
        Ok(())
    }

    /// Sets a variable to a value that stays. The one error is want of memory.
    pub fn set(&mut self, alloc: Global, name: &str, value: &Value) -> Result<(), NoMemory>
        ensures variables { OnOk result (self.new.variables ≡ with_variable self.old.variables name.now value.now) }
        ensures begun { self.new.begun ≡ self.old.begun }
    {
        let value = value.copy(alloc)?;
        self.variables.set(alloc, name, value)?;
        Ok(())
    }
}
