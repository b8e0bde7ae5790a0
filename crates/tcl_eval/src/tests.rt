//! Expressions of small texts: their steps as a reader of the Tcl rules groups them by hand, and their values.

mod steps;
mod values;

use crate::expressions::parsing::parse_expression;
use sdc_base::{Fixed, NoMemory, NumberError, Stop};
use source_types::{Expression, ExpressionStep, Part, Word};
use std::alloc::Global;

/// A number, or `out` where it is out of range.
fn show_number(
    alloc: Global,
    shown: &mut String,
    number: &Result<Fixed, NumberError>,
) -> Result<(), NoMemory> {
    match number {
        Ok(number) => {
            let text = number.text(alloc)?;
            shown.push_str(text.as_str())?;
        }
        Err(_) => shown.push_str("out")?,
    }
    Ok(())
}

/// A word by its parts: a text in `'`, a variable after `$`, a script in brackets.
fn show_word(shown: &mut String, word: &Word) -> Result<(), NoMemory> {
    for part in word.parts.iter() {
        let (before, text, after) = match part {
            Part::Text(text) => ("'", text, "'"),
            Part::Variable(name) => ("$", name, ""),
            Part::Script(script) => ("[", script, "]"),
        };
        shown.push_str(before)?;
        shown.push_str(text.as_str())?;
        shown.push_str(after)?;
    }
    Ok(())
}

/// A step: an operand, with its levels where it has some, or an operator, with `?` where it decides.
fn show_step(alloc: Global, shown: &mut String, step: &ExpressionStep) -> Result<(), NoMemory> {
    match step {
        ExpressionStep::Number(number) => show_number(alloc, shown, number)?,
        ExpressionStep::Word(word, levels) => {
            show_word(shown, word)?;
            if *levels > 0 {
                let levels = format!(in alloc; "@{levels}")?;
                shown.push_str(levels.as_str())?;
            }
        }
        ExpressionStep::Unary(operator) => {
            let operator = format!(in alloc; "{operator:?}")?;
            shown.push_str(operator.as_str())?;
        }
        ExpressionStep::Decide(operator) => {
            let operator = format!(in alloc; "{operator:?}?")?;
            shown.push_str(operator.as_str())?;
        }
        ExpressionStep::Binary(operator) => {
            let operator = format!(in alloc; "{operator:?}")?;
            shown.push_str(operator.as_str())?;
        }
    }
    Ok(())
}

/// The steps of an expression, parted by blanks.
fn show_expression(alloc: Global, expression: &Expression) -> Result<String, NoMemory> {
    let mut shown = String::new(alloc);
    for (place, step) in expression.steps.iter().enumerate() {
        if place > 0 {
            shown.push_str(" ")?;
        }
        show_step(alloc, &mut shown, step)?;
    }
    Ok(shown)
}

/// The steps of a text, or its fault.
fn show_text(alloc: Global, text: &str) -> Result<String, NoMemory> {
    match parse_expression(alloc, text) {
        Ok(expression) => show_expression(alloc, &expression),
        Err(Stop::Refused(kind)) => Ok(format!(in alloc; "{kind:?}")?),
        Err(Stop::NoMemory) => Err(NoMemory),
    }
}
