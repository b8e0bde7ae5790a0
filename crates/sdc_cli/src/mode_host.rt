//! The host of a mode file's script: the commands of SDC 2.1 that are read here.

ghost use Rattle.std.specs.Prelude.{◌≡◌, Ok, Err, IfOk};
ghost use Rattle.sdc_base.specs.Gives.{Meets};
ghost use Rattle.sdc_base.specs.declared.memory.Stop.TheVariants as stop;
ghost use Rattle.tcl_model.specs.BuiltIns.{no_text};
ghost use Rattle.mode_model.specs.ClockFile.{nothing};
ghost use Rattle.mode_model.specs.ClockCommands.{clock_of, clocks_named, groups_of, is_unit, object_names, value_texts};
ghost use Rattle.mode_model.specs.ModeHost.{IsAnswered, adds_clock, adds_groups, answer, gives_clocks, keeps_where, mode_host};

use crate::clock_groups::groups_of;
use crate::clock_options::clock_of;
use crate::clock_queries::clocks_named;
use crate::mode_so_far::ModeSoFar;
use crate::object_names::{object_names, value_text};
use sdc_base::{List, NoMemory, Stop, Text};
use source_types::{Kind, SdcKind};
use std::alloc::Global;
use std::mem;
use tcl_eval::Commands;
use timing_types::{Object, Value};

/// The host of a mode file, with what its commands made so far.
#[derive(Drop)]
pub struct ModeHost {
    alloc: Global,
    so_far: ModeSoFar,
}

impl Commands for ModeHost {
    ghost use Rattle.mode_model.specs.ClockFile.{SoFar};

    ghost State = { SoFar };

    ghost state = { λ it. it.so_far };

    ghost host = { mode_host };

    fn call(&mut self, line: u32, name: &Text, words: &List<Value>) -> Result<Value, Stop<Kind>> {
        self.answer(line, name.as_str(), words.as_slice())
    }

    fn names(&self, objects: &List<Object>) -> Result<Text, NoMemory> {
        object_names(self.alloc, self.so_far.clocks(), objects.as_slice())
    }
}

impl ModeHost {
    /// A host that nothing was said to yet.
    pub fn new(alloc: Global) -> ModeHost
        ensures { result.so_far ≡ nothing }
    {
        ModeHost {
            alloc,
            so_far: ModeSoFar::new(alloc),
        }
    }

    /// What the commands made.
    pub fn into_so_far(self) -> ModeSoFar
        ensures { result ≡ self.so_far }
    {
        self.so_far
    }

    /// Answers a command, by its line, its name and the values of the words after the name.
    fn answer(&mut self, line: u32, name: &str, words: &[Value]) -> Result<Value, Stop<Kind>>
        ensures { Meets result (λ given. IsAnswered
            (answer self.old.so_far line name.now words.now) self.old.so_far given self.new.so_far) }
    {
        if name == "create_clock" {
            self.create_clock(line, words)
        } else if name == "set_clock_groups" {
            self.set_clock_groups(words)
        } else if name == "set_units" {
            self.set_units(words)
        } else if name == "get_clocks" {
            self.get_clocks(words)
        } else {
            Err(out_of_profile())
        }
    }

    /// `create_clock` without sources, on a line.
    fn create_clock(&mut self, line: u32, words: &[Value]) -> Result<Value, Stop<Kind>>
        ensures { Meets result (λ given. IsAnswered
            (adds_clock self.old.so_far (clock_of self.old.so_far.clocks line words.now)) self.old.so_far given self.new.so_far) }
    {
        let clock = match clock_of(self.alloc, self.so_far.named(), line, words) {
            Ok(clock) => clock,
            Err(Stop::Refused(kind)) => return Err(Stop::Refused(Kind::Sdc(kind))),
            Err(Stop::NoMemory) => return Err(Stop::NoMemory),
        };
        let so_far = mem::replace(&mut self.so_far, ModeSoFar::new(self.alloc));
        self.so_far = so_far.with_clock(self.alloc, clock)?;
        Ok(no_text(self.alloc))
    }

    /// `set_clock_groups -asynchronous` with at least one group.
    fn set_clock_groups(&mut self, words: &[Value]) -> Result<Value, Stop<Kind>>
        ensures { Meets result (λ given. IsAnswered
            (adds_groups self.old.so_far (groups_of self.old.so_far.clocks words.now)) self.old.so_far given self.new.so_far) }
    {
        let Some(groups) = groups_of(self.alloc, self.so_far.named(), words)? else {
            return Err(out_of_profile());
        };
        let so_far = mem::replace(&mut self.so_far, ModeSoFar::new(self.alloc));
        self.so_far = so_far.with_groups(groups)?;
        Ok(no_text(self.alloc))
    }

    /// `set_units -time 1ns`, which changes nothing.
    fn set_units(&mut self, words: &[Value]) -> Result<Value, Stop<Kind>>
        ensures { Meets result (λ given. IsAnswered
            (keeps_where self.old.so_far (is_unit (value_texts self.old.so_far.clocks words.now))) self.old.so_far given self.new.so_far) }
    {
        if is_unit(self.alloc, &self.so_far, words)? {
            Ok(no_text(self.alloc))
        } else {
            Err(out_of_profile())
        }
    }

    /// `get_clocks` of names of clocks.
    fn get_clocks(&mut self, words: &[Value]) -> Result<Value, Stop<Kind>>
        ensures { Meets result (λ given. IsAnswered
            (gives_clocks self.old.so_far (clocks_named self.old.so_far.clocks words.now)) self.old.so_far given self.new.so_far) }
    {
        match clocks_named(self.alloc, self.so_far.named(), words)? {
            Some(objects) => Ok(Value::Objects(objects)),
            None => Err(out_of_profile()),
        }
    }
}

/// The refusal of what is not read here.
fn out_of_profile() -> Stop<Kind>
    ensures { result ≡ stop.Refused (Kind.Sdc SdcKind.OutOfProfile) }
{
    Stop::Refused(Kind::Sdc(SdcKind::OutOfProfile))
}

/// The empty text.
fn no_text(alloc: Global) -> Value
    ensures { result ≡ no_text }
{
    Value::Text(Text::new(alloc))
}

/// Whether words are `-time 1ns`, the one unit that is read. The one error is want of memory.
fn is_unit(alloc: Global, so_far: &ModeSoFar, words: &[Value]) -> Result<bool, NoMemory>
    ensures { IfOk result (λ read. read ≡ is_unit (value_texts so_far.now.clocks words.now)) }
{
    let [option, unit] = words else {
        return Ok(false);
    };
    let option = value_text(alloc, so_far.clocks(), option)?;
    let unit = value_text(alloc, so_far.clocks(), unit)?;
    Ok(option.as_str() == "-time" && unit.as_str() == "1ns")
}
