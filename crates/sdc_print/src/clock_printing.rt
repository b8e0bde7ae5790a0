//! The lines of clocks.

ghost use Rattle.std.specs.Prelude.{◌≡◌, OnOk, OnErr};
ghost use Rattle.sdc_base.specs.Time.{IsUnit};
ghost use Rattle.mode_model.specs.PrintedLine.{lines_text};
ghost use Rattle.mode_model.specs.PrintedFile.{clock_lines};
ghost use Rattle.sdc_print.specs.Added.{added, Overflows};
ghost use Rattle.sdc_print.specs.Pieces.{clock_text, form_text};

use crate::sinks::Sink;
use crate::word_printing::{push_name, push_time};
use sdc_base::{List, NoMemory};
use timing_types::{Clock, Form, Wave};

/// Adds the lines of clocks in order.
pub fn push_clocks(out: &mut Sink, unit: i64, clocks: &List<Clock>) -> Result<(), NoMemory>
    requires { IsUnit unit }
    ensures adds { OnOk result (out.new ≡ added out.old (lines_text (clock_lines unit clocks.now))) }
    ensures limit { OnErr result (Overflows (added out.old (lines_text (clock_lines unit clocks.now)))) }
{
    for clock in clocks.as_slice() {
        push_form(out, unit, clock.name.as_bytes(), &clock.form)?;
    }
    Ok(())
}

/// Adds the line of a clock by its form.
fn push_form(out: &mut Sink, unit: i64, name: &[u8], form: &Form) -> Result<(), NoMemory>
    requires { IsUnit unit }
    ensures adds { OnOk result (out.new ≡ added out.old (form_text unit name.now form.now)) }
    ensures limit { OnErr result (Overflows (added out.old (form_text unit name.now form.now))) }
{
    match form {
        Form::Primary { wave } => push_clock(out, unit, name, wave)?,
        Form::Generated { .. } => {}
    }
    Ok(())
}

/// Adds the line of a clock with a waveform of its own.
fn push_clock(out: &mut Sink, unit: i64, name: &[u8], wave: &Wave) -> Result<(), NoMemory>
    requires { IsUnit unit }
    ensures adds { OnOk result (out.new ≡ added out.old (clock_text unit name.now wave.now)) }
    ensures limit { OnErr result (Overflows (added out.old (clock_text unit name.now wave.now))) }
{
    out.push(b"create_clock -name ")?;
    push_name(out, name)?;
    out.push(b" -period ")?;
    push_time(out, unit, wave.period)?;
    out.push(b" -waveform {")?;
    push_time(out, unit, wave.rise)?;
    out.push(b" ")?;
    push_time(out, unit, wave.fall)?;
    out.push(b"}\n")?;
    Ok(())
}
