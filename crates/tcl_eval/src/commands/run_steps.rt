//! What the run of a script does that runs nothing further.

ghost use Rattle.std.specs.Prelude.{◌≡◌, ◌<◌, ◌∷◌, Ok, map, length, reverse, IfOk, IfSome, OnOk};
ghost use Rattle.sdc_base.specs.Gives.{Gives, Meets};
ghost use Rattle.tcl_model.specs.ExpressionValue as scalars;
ghost use Rattle.tcl_model.specs.HostCalls.{text_in};
ghost use Rattle.tcl_model.specs.NamedCommands.{spaced as spaced_of};
ghost use Rattle.source_types.specs.declared.expressions.Scalar.TheVariants as scalar;
ghost use Rattle.timing_types.specs.declared.objects.Value.TheVariants as value;
ghost use Rattle.tcl_eval.specs.ScriptReads.{CommandWithin, Parts};

use crate::commands::faults::tcl_answer;
use crate::commands::texts::{into_text, spaced, text_values};
use crate::expressions::values::text_of;
use crate::hosts::Commands;
use crate::running::command_reader::CommandReader;
use sdc_base::{At, List, NoMemory, Stop, Text};
use source_types::{Command, Kind, Scalar};
use std::alloc::Global;
use timing_types::Value;

/// The next command of a body or a bracket. Its fault has no line: it is told with the line of the outermost command.
pub fn next_within(alloc: Global, reader: &mut CommandReader) -> Result<Option<Command>, Stop<Kind>>
    ensures command { Meets result (λ given. CommandWithin reader.old given reader.new) }
    ensures shorter { IfOk result (λ o. IfSome o (λ command. length reader.new.text < length reader.old.text)) }
{
    match reader.next(alloc) {
        Ok(command) => Ok(command),
        Err(Stop::Refused(At { kind, .. })) => Err(Stop::Refused(Kind::Tcl(kind))),
        Err(Stop::NoMemory) => Err(Stop::NoMemory),
    }
}

/// The first of the values of a command's words, and the others; `None` where there is none.
pub fn split_name(values: Vec<Value>) -> Option<(Value, List<Value>)>
    ensures { Parts values.items result }
{
    let mut values = values;
    if values.is_empty() {
        return None;
    }
    let first = values.remove(0);
    Some((first, List::from(values)))
}

/// The text of the words of `expr`. The one error is want of memory.
pub fn expression_text<H: Commands>(
    alloc: Global,
    host: &H,
    arguments: &[Value],
) -> Result<Text, NoMemory>
    ensures { IfOk result (λ text. text ≡ spaced_of (map (text_in H.host (H.state host.now)) arguments.now)) }
{
    let texts = text_values(alloc, host, arguments)?;
    spaced(alloc, texts.as_slice())
}

/// What `expr` gives: the text of the value of an expression. The one error is want of memory.
pub fn as_value(alloc: Global, scalar: &Scalar) -> Result<Value, Stop<Kind>>
    ensures { Gives result (Ok (value.Text (scalars.text_of scalar.now))) }
{
    let text = text_of(alloc, scalar)?;
    Ok(Value::Text(text))
}

/// Adds the text of a word to the values of an expression. The one error is want of memory.
pub fn push_text<H: Commands>(
    host: &H,
    values: &mut Vec<Scalar>,
    word: Value,
) -> Result<(), NoMemory>
    ensures { OnOk result (reverse values.new.items ≡ scalar.Text (text_in H.host (H.state host.now) word) ∷ reverse values.old.items) }
{
    let text = into_text(host, word)?;
    values.push(Scalar::Text(text))?;
    Ok(())
}
