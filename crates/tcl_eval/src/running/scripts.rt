//! The run of a script: its commands one after the other, with their words, brackets, bodies and expressions. What runs
//! a body and what runs a command lead back to each other; the levels that are left bound this.

ghost use Rattle.tcl_model.specs.Branches.{branches_of};
ghost use Rattle.tcl_model.specs.HostCalls.{text_in};
ghost use Rattle.tcl_model.specs.NamedCommands as commands;
ghost use Rattle.tcl_model.specs.ScriptRun.{Enters, RunsCommand};
ghost use Rattle.tcl_model.specs.WordValues.{RunsPart, RunsWord, in_body};
ghost use Rattle.tcl_eval.specs.StepsRun.{StepsOn};
ghost use Rattle.tcl_eval.specs.Worlds.{Does, level_of, world};
ghost use Rattle.std.specs.Prelude.{◌<◌, ◌≤◌, ◌+◌, map, reverse, IfOk};
ghost use Rattle.sdc_base.specs.Gives.{Meets};

use crate::commands::branches::branches_of;
use crate::commands::built_ins::{concat, lindex, list, llength, set, variable_value};
use crate::commands::faults::{refuse, tcl_answer};
use crate::commands::indexes::{index_value, is_index};
use crate::commands::list_values::item_values;
use crate::commands::names::command_name;
use crate::commands::run_steps::{as_value, expression_text, next_within, push_text, split_name};
use crate::commands::texts::{add_text, into_text, no_text, text_value, text_values};
use crate::expressions::parsing::parse_expression;
use crate::expressions::steps::{
    last_value, passing, take_binary, take_decision, take_number, take_unary,
};
use crate::expressions::values::truth_of;
use crate::hosts::Commands;
use crate::running::command_reader::CommandReader;
use crate::running::progress::{Level, Progress};
use sdc_base::{Duplicate, List, Stop, Text};
use source_types::{
    Branch, Branches, Command, CommandName, ExpressionStep, Kind, Part, Scalar, TclKind,
};
use std::alloc::Global;
use timing_types::Value;

/// Runs a body at the next level: the value of its last command, or the empty text. Refused as `TooDeep` where no level
/// is left.
#[cycle(run)]
fn run_body<H: Commands>(
    alloc: Global,
    level: Level,
    host: &mut H,
    run: &mut Progress,
    script: &str,
) -> Result<Value, Stop<Kind>>
    ensures { Does (Enters H.host level.line level.left 0 (in_body script.now)) (world run.old (H.state host.old)) result (world run.new (H.state host.new)) }
{
    if level.left == 0 {
        return Err(refuse(TclKind::TooDeep));
    }
    let inner = level.inner();
    let mut last = no_text(alloc);
    let mut reader = CommandReader::new(script);
    while let Some(command) = next_within(alloc, &mut reader)? {
        last = run_command(alloc, inner, host, run, &command)?;
    }
    Ok(last)
}

/// Runs a command: it is counted, then its words are run, and then it is. Refused as `TooManyCommands` where as many as
/// are taken were begun, and as its words and its rule refuse.
#[cycle(run)]
pub fn run_command<H: Commands>(
    alloc: Global,
    level: Level,
    host: &mut H,
    run: &mut Progress,
    command: &Command,
) -> Result<Value, Stop<Kind>>
    ensures { Does (RunsCommand (level_of H.host level) command.now) (world run.old (H.state host.old)) result (world run.new (H.state host.new)) }
{
    run.begin().map_err(Stop::Refused)?;
    let mut values = Vec::new(alloc);
    for word in command.words.as_slice() {
        let value = run_word(alloc, level, host, run, 0, word.parts.as_slice())?;
        values.push(value)?;
    }
    let Some((first, arguments)) = split_name(values) else {
        return Ok(no_text(alloc));
    };
    let name = into_text(host, first)?;
    run_named(alloc, level, host, run, &name, &arguments)
}

/// Runs a word inside so many parentheses: a word that is one part has the value of that one, any other is the text of
/// its parts.
#[cycle(run)]
fn run_word<H: Commands>(
    alloc: Global,
    level: Level,
    host: &mut H,
    run: &mut Progress,
    inside: usize,
    parts: &[Part],
) -> Result<Value, Stop<Kind>>
    ensures { Does (RunsWord (level_of H.host level) inside parts.now) (world run.old (H.state host.old)) result (world run.new (H.state host.new)) }
{
    if let [only] = parts {
        return run_part(alloc, level, host, run, inside, only);
    }
    let mut joined = Text::new(alloc);
    for part in parts {
        let value = run_part(alloc, level, host, run, inside, part)?;
        add_text(host, &mut joined, value)?;
    }
    Ok(Value::Text(joined))
}

/// Runs a part of a word inside so many parentheses.
#[cycle(run)]
fn run_part<H: Commands>(
    alloc: Global,
    level: Level,
    host: &mut H,
    run: &mut Progress,
    inside: usize,
    part: &Part,
) -> Result<Value, Stop<Kind>>
    ensures { Does (RunsPart (level_of H.host level) inside part.now) (world run.old (H.state host.old)) result (world run.new (H.state host.new)) }
{
    match part {
        Part::Text(text) => {
            let text = text.copy(alloc)?;
            Ok(Value::Text(text))
        }
        Part::Variable(name) => tcl_answer(variable_value(alloc, run, name.as_str())),
        Part::Script(script) => {
            if is_index(script.as_bytes()) {
                return index_value(alloc, level.left, inside, script.as_str());
            }
            run_body(alloc, level.after(inside), host, run, script.as_str())
        }
    }
}

/// Runs a command of a name, by the values of the words after the name.
#[cycle(run)]
fn run_named<H: Commands>(
    alloc: Global,
    level: Level,
    host: &mut H,
    run: &mut Progress,
    name: &Text,
    arguments: &List<Value>,
) -> Result<Value, Stop<Kind>>
    ensures { Does (commands.RunsNamed (level_of H.host level) (commands.named name.now) name.now arguments.now) (world run.old (H.state host.old)) result (world run.new (H.state host.new)) }
{
    let words = arguments.as_slice();
    match command_name(name.as_str()) {
        CommandName::Set => set(alloc, host, run, words),
        CommandName::List => list(alloc, host, words),
        CommandName::Concat => tcl_answer(concat(alloc, host, words)),
        CommandName::Lindex => tcl_answer(lindex(alloc, host, words)),
        CommandName::Llength => tcl_answer(llength(alloc, words)),
        CommandName::Expr => {
            let text = expression_text(alloc, host, words)?;
            let result = evaluate(alloc, level, host, run, &text)?;
            as_value(alloc, &result)
        }
        CommandName::Foreach => repeat(alloc, level, host, run, words),
        CommandName::If => choose(alloc, level, host, run, words),
        CommandName::Other => host.call(level.line, name, arguments),
    }
}

/// `foreach name list body`: runs the body with the variable set to each item in turn.
#[cycle(run)]
fn repeat<H: Commands>(
    alloc: Global,
    level: Level,
    host: &mut H,
    run: &mut Progress,
    arguments: &[Value],
) -> Result<Value, Stop<Kind>>
    ensures { Does (commands.Repeats (level_of H.host level) arguments.now) (world run.old (H.state host.old)) result (world run.new (H.state host.new)) }
{
    let [name, list, body] = arguments else {
        return Err(refuse(TclKind::WrongArgs));
    };
    let name = text_value(alloc, host, name)?;
    let body = text_value(alloc, host, body)?;
    let items = tcl_answer(item_values(alloc, list))?;
    let name = name.as_str();
    let body = body.as_str();
    for item in items.as_slice() {
        run.set(alloc, name, item)?;
        run_body(alloc, level, host, run, body)?;
    }
    Ok(no_text(alloc))
}

/// `if`: runs the body of the first condition that holds, or the last one.
#[cycle(run)]
fn choose<H: Commands>(
    alloc: Global,
    level: Level,
    host: &mut H,
    run: &mut Progress,
    arguments: &[Value],
) -> Result<Value, Stop<Kind>>
    ensures { Does (commands.Chooses (level_of H.host level) (branches_of (map (text_in H.host (H.state host.old)) arguments.now))) (world run.old (H.state host.old)) result (world run.new (H.state host.new)) }
{
    let texts = text_values(alloc, host, arguments)?;
    let Some(said) = branches_of(alloc, texts.as_slice())? else {
        return Err(refuse(TclKind::WrongArgs));
    };
    let Branches {
        branches,
        otherwise,
    } = said;
    run_first(alloc, level, host, run, branches.as_slice(), &otherwise)
}

/// Runs the body of the first branch whose condition holds, or else the last body.
#[cycle(run)]
fn run_first<H: Commands>(
    alloc: Global,
    level: Level,
    host: &mut H,
    run: &mut Progress,
    branches: &[Branch],
    otherwise: &Option<Text>,
) -> Result<Value, Stop<Kind>>
    ensures { Does (commands.RunsFirst (level_of H.host level) branches.now otherwise.now) (world run.old (H.state host.old)) result (world run.new (H.state host.new)) }
{
    for branch in branches {
        let result = evaluate(alloc, level, host, run, &branch.condition)?;
        let holds = truth_of(&result).map_err(refuse)?;
        if holds {
            return run_body(alloc, level, host, run, branch.body.as_str());
        }
    }
    match otherwise {
        Some(body) => run_body(alloc, level, host, run, body.as_str()),
        None => Ok(no_text(alloc)),
    }
}

/// Evaluates a text as an expression. Refused as `BadExpr` where it is none, as `TooDeep` where its parentheses are too
/// many, and as its steps refuse.
#[cycle(run)]
fn evaluate<H: Commands>(
    alloc: Global,
    level: Level,
    host: &mut H,
    run: &mut Progress,
    text: &Text,
) -> Result<Scalar, Stop<Kind>>
    ensures { Does (commands.EvaluatesText (level_of H.host level) text.now) (world run.old (H.state host.old)) result (world run.new (H.state host.new)) }
{
    let expression = tcl_answer(parse_expression(alloc, text.as_str()))?;
    if level.left < expression.levels {
        return Err(refuse(TclKind::TooDeep));
    }
    let mut values = Vec::new(alloc);
    let mut passed = 0;
    for step in expression.steps.as_slice() {
        passed = run_step(alloc, level, host, run, &mut values, passed, step)?;
    }
    last_value(values).map_err(refuse)
}

/// Runs a step of an expression over the values so far, or passes over it; says of how many operators the steps are
/// still passed over.
#[cycle(run)]
fn run_step<H: Commands>(
    alloc: Global,
    level: Level,
    host: &mut H,
    run: &mut Progress,
    values: &mut Vec<Scalar>,
    passed: usize,
    step: &ExpressionStep,
) -> Result<usize, Stop<Kind>>
    requires { passed < 18446744073709551615 }
    ensures on { Meets result (λ given. StepsOn (commands.ReadsWord (level_of H.host level)) passed step.now (reverse values.old.items) (world run.old (H.state host.old)) given (reverse values.new.items) (world run.new (H.state host.new))) }
    ensures within { IfOk result (λ next. next ≤ passed + 1) }
{
    if passed > 0 {
        return Ok(passing(step, passed));
    }
    match step {
        ExpressionStep::Word(word, inside) => {
            let value = run_word(alloc, level, host, run, *inside, word.parts.as_slice())?;
            push_text(host, values, value)?;
            Ok(0)
        }
        ExpressionStep::Number(number) => tcl_answer(take_number(values, *number)),
        ExpressionStep::Unary(operator) => tcl_answer(take_unary(values, *operator)),
        ExpressionStep::Decide(operator) => tcl_answer(take_decision(values, *operator)),
        ExpressionStep::Binary(operator) => tcl_answer(take_binary(alloc, values, *operator)),
    }
}
