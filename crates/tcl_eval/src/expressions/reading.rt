//! An expression, read token by token from the left.

ghost use Rattle.std.specs.Prelude.{◌≡◌, ◌≤◌, ◌<◌, ◌+◌, IfOk, IfSome, option_map, option_and_then};
ghost use Rattle.tcl_eval.specs.ExpressionReading as spec;
ghost use Rattle.tcl_eval.specs.Readings.{seen};

use crate::expressions::waiting::{Waiting, binding, push_decision, settle, sign_of};
use sdc_base::{List, NoMemory};
use source_types::{BinaryOperator, Expression, ExpressionStep, ExpressionToken, UnaryOperator};
use std::alloc::Global;

/// What is read so far: the steps that are done, what waits, the last at the end, the parentheses that are open and
/// the most that were, and whether an operand is due.
#[derive(Drop)]
pub struct Reading {
    pub steps: List<ExpressionStep>,
    pub waits: Vec<Waiting>,
    pub levels: usize,
    pub deepest: usize,
    pub due: bool,
}

impl Reading {
    /// Nothing.
    pub fn nothing(alloc: Global) -> Reading
        ensures { seen result ≡ spec.nothing_read }
    {
        Reading {
            steps: List::new(alloc),
            waits: Vec::new(alloc),
            levels: 0,
            deepest: 0,
            due: true,
        }
    }

    /// This and the step of an operand, where one is due.
    fn with_operand(self, step: ExpressionStep) -> Result<Option<Reading>, NoMemory>
        ensures read { IfOk result (λ o. option_map seen o ≡ spec.with_operand (seen self) step) }
        ensures levels { IfOk result (λ o. IfSome o (λ next. next.levels ≤ self.levels)) }
    {
        if !self.due {
            return Ok(None);
        }
        let mut steps = self.steps;
        steps.push(step)?;
        Ok(Some(Reading {
            steps,
            waits: self.waits,
            levels: self.levels,
            deepest: self.deepest,
            due: false,
        }))
    }

    /// This and an operator before one operand, where one is due.
    fn with_unary(self, operator: UnaryOperator) -> Result<Option<Reading>, NoMemory>
        ensures read { IfOk result (λ o. option_map seen o ≡ spec.with_unary (seen self) operator) }
        ensures levels { IfOk result (λ o. IfSome o (λ next. next.levels ≤ self.levels)) }
    {
        if !self.due {
            return Ok(None);
        }
        let mut waits = self.waits;
        waits.push(Waiting::Unary(operator))?;
        Ok(Some(Reading {
            steps: self.steps,
            waits,
            levels: self.levels,
            deepest: self.deepest,
            due: true,
        }))
    }

    /// This and `(`, where an operand is due.
    fn with_open(self) -> Result<Option<Reading>, NoMemory>
        requires { self.levels < 18446744073709551615 }
        ensures read { IfOk result (λ o. option_map seen o ≡ spec.with_open (seen self)) }
        ensures levels { IfOk result (λ o. IfSome o (λ next. next.levels ≤ self.levels + 1)) }
    {
        if !self.due {
            return Ok(None);
        }
        let mut waits = self.waits;
        waits.push(Waiting::Open)?;
        let levels = self.levels + 1;
        Ok(Some(Reading {
            steps: self.steps,
            waits,
            levels,
            deepest: self.deepest.max(levels),
            due: true,
        }))
    }

    /// This and `)`, where an operand ends in parentheses.
    fn with_close(self) -> Result<Option<Reading>, NoMemory>
        ensures read { IfOk result (λ o. option_map seen o ≡ spec.with_close (seen self)) }
        ensures levels { IfOk result (λ o. IfSome o (λ next. next.levels ≤ self.levels)) }
    {
        if self.due {
            return Ok(None);
        }
        let Reading {
            mut steps,
            mut waits,
            levels,
            deepest,
            ..
        } = self;
        settle(&mut steps, &mut waits, 0)?;
        let Some(Waiting::Open) = waits.pop() else {
            return Ok(None);
        };
        Ok(Some(Reading {
            steps,
            waits,
            levels: levels.saturating_sub(1),
            deepest,
            due: false,
        }))
    }

    /// This and an operator between two operands, the left one of which was read.
    fn with_binary(self, operator: BinaryOperator) -> Result<Reading, NoMemory>
        ensures read { IfOk result (λ next. seen next ≡ spec.with_binary (seen self) operator) }
        ensures levels { IfOk result (λ next. next.levels ≤ self.levels) }
    {
        let Reading {
            mut steps,
            mut waits,
            levels,
            deepest,
            ..
        } = self;
        settle(&mut steps, &mut waits, binding(operator))?;
        push_decision(&mut steps, operator)?;
        waits.push(Waiting::Binary(operator))?;
        Ok(Reading {
            steps,
            waits,
            levels,
            deepest,
            due: true,
        })
    }

    /// This and an operator: where an operand is due, `+` or `-` before it.
    fn with_operator(self, operator: BinaryOperator) -> Result<Option<Reading>, NoMemory>
        ensures read { IfOk result (λ o. option_map seen o ≡ spec.with_operator (seen self) operator) }
        ensures levels { IfOk result (λ o. IfSome o (λ next. next.levels ≤ self.levels)) }
    {
        if !self.due {
            let next = self.with_binary(operator)?;
            return Ok(Some(next));
        }
        let Some(sign) = sign_of(operator) else {
            return Ok(None);
        };
        self.with_unary(sign)
    }

    /// This and a token more, if the expression can go on with it. The one error is want of memory.
    pub fn step(self, token: ExpressionToken) -> Result<Option<Reading>, NoMemory>
        requires { self.levels < 18446744073709551615 }
        ensures read { IfOk result (λ o. option_map seen o ≡ spec.step (seen self) token) }
        ensures levels { IfOk result (λ o. IfSome o (λ next. next.levels ≤ self.levels + 1)) }
    {
        let levels = self.levels;
        match token {
            ExpressionToken::Number(number) => self.with_operand(ExpressionStep::Number(number)),
            ExpressionToken::Word(word) => self.with_operand(ExpressionStep::Word(word, levels)),
            ExpressionToken::Open => self.with_open(),
            ExpressionToken::Close => self.with_close(),
            ExpressionToken::Not => self.with_unary(UnaryOperator::Not),
            ExpressionToken::Operator(operator) => self.with_operator(operator),
        }
    }

    /// The expression that was read, where an operand stands at its end and no parenthesis is open. The one error is
    /// want of memory.
    pub fn ended(self) -> Result<Option<Expression>, NoMemory>
        ensures { IfOk result (λ o. o ≡ spec.ended (seen self)) }
    {
        if self.due {
            return Ok(None);
        }
        let Reading {
            mut steps,
            mut waits,
            deepest,
            ..
        } = self;
        settle(&mut steps, &mut waits, 0)?;
        if !waits.is_empty() {
            return Ok(None);
        }
        Ok(Some(Expression {
            steps,
            levels: deepest,
        }))
    }
}
