//! What waits for an operand of an expression that is read later.

ghost use Rattle.std.specs.Prelude.{◌≡◌, ◌++◌, reverse, OnOk};
ghost use Rattle.tcl_model.specs.ExpressionForm as form;
ghost use Rattle.tcl_eval.specs.ExpressionReading as reading;
ghost use Rattle.tcl_model.specs.ExpressionSteps as steps_of;
ghost use Rattle.tcl_eval.specs.Readings.{DoneAs, TakesDone};

use sdc_base::{List, NoMemory};
use source_types::{BinaryOperator, ExpressionStep, UnaryOperator};

/// What waits for the operand that is read.
#[derive(Clone, Copy)]
pub enum Waiting {
    /// An operator before it.
    Unary(UnaryOperator),
    /// An operator between its left side, which was read, and it.
    Binary(BinaryOperator),
    /// An open parenthesis.
    Open,
}

/// How tightly an operator binds (Tcl).
pub fn binding(operator: BinaryOperator) -> u8
    ensures { result ≡ form.binding operator }
{
    match operator {
        BinaryOperator::Or => 1,
        BinaryOperator::And => 2,
        BinaryOperator::Equal
        | BinaryOperator::NotEqual
        | BinaryOperator::TextEqual
        | BinaryOperator::TextNotEqual => 3,
        BinaryOperator::Less
        | BinaryOperator::LessEqual
        | BinaryOperator::Greater
        | BinaryOperator::GreaterEqual => 4,
        BinaryOperator::Add | BinaryOperator::Subtract => 5,
        BinaryOperator::Multiply | BinaryOperator::Divide | BinaryOperator::Remainder => 6,
    }
}

impl Waiting {
    /// The step that it becomes before an operator that binds so tightly; `None` where it waits on.
    fn done(self, next: u8) -> Option<ExpressionStep>
        ensures { DoneAs next self result }
    {
        match self {
            Waiting::Unary(operator) => Some(ExpressionStep::Unary(operator)),
            Waiting::Binary(operator) => {
                if next <= binding(operator) {
                    return Some(ExpressionStep::Binary(operator));
                }
                None
            }
            Waiting::Open => None,
        }
    }
}

/// Takes the last of what waits, where it is done before an operator that binds so tightly.
fn take_done(waits: &mut Vec<Waiting>, next: u8) -> Option<ExpressionStep>
    ensures { TakesDone next waits.old.items waits.new.items result }
{
    let last = waits.last()?;
    let step = last.done(next)?;
    waits.pop();
    Some(step)
}

/// Adds the steps of all that is done before an operator that binds so tightly. The one error is want of memory.
pub fn settle(
    steps: &mut List<ExpressionStep>,
    waits: &mut Vec<Waiting>,
    next: u8,
) -> Result<(), NoMemory>
    ensures { OnOk result (record { steps = steps.new; waits = reverse waits.new.items } ≡ reading.settled next steps.old (reverse waits.old.items)) }
{
    while let Some(step) = take_done(waits, next) {
        steps.push(step)?;
    }
    Ok(())
}

/// Adds what stands between the steps of an operator's two sides: `&&` and `||` decide there. The one error is want
/// of memory.
pub fn push_decision(
    steps: &mut List<ExpressionStep>,
    operator: BinaryOperator,
) -> Result<(), NoMemory>
    ensures { OnOk result (steps.new ≡ steps.old ++ steps_of.decision operator) }
{
    match operator {
        BinaryOperator::Or | BinaryOperator::And => steps.push(ExpressionStep::Decide(operator)),
        BinaryOperator::Equal
        | BinaryOperator::NotEqual
        | BinaryOperator::TextEqual
        | BinaryOperator::TextNotEqual
        | BinaryOperator::Less
        | BinaryOperator::LessEqual
        | BinaryOperator::Greater
        | BinaryOperator::GreaterEqual
        | BinaryOperator::Add
        | BinaryOperator::Subtract
        | BinaryOperator::Multiply
        | BinaryOperator::Divide
        | BinaryOperator::Remainder => Ok(()),
    }
}

/// The operator before one operand that an operator's spelling is there, if it is one: `+` or `-`.
pub fn sign_of(operator: BinaryOperator) -> Option<UnaryOperator>
    ensures { result ≡ reading.sign_of operator }
{
    match operator {
        BinaryOperator::Add => Some(UnaryOperator::Plus),
        BinaryOperator::Subtract => Some(UnaryOperator::Minus),
        BinaryOperator::Or
        | BinaryOperator::And
        | BinaryOperator::Equal
        | BinaryOperator::NotEqual
        | BinaryOperator::TextEqual
        | BinaryOperator::TextNotEqual
        | BinaryOperator::Less
        | BinaryOperator::LessEqual
        | BinaryOperator::Greater
        | BinaryOperator::GreaterEqual
        | BinaryOperator::Multiply
        | BinaryOperator::Divide
        | BinaryOperator::Remainder => None,
    }
}
