//! The text of a function, read byte by byte (Liberty, `function`).

ghost use Rattle.std.specs.Prelude.{◌≡◌, ◌≤◌, [], length, reverse, IfOk, Some, option_map, option_and_then};
ghost use Rattle.bool_lanes.specs.Readings.{after_of, seen};
ghost use Rattle.function_model.specs.FunctionText as spec;

use crate::names::Names;
use crate::operands::{apart, longer, operand_in, sign_of};
use crate::pending::{after_and, after_not, after_or, after_xor, nothing_open, sum_with};
use pin_types::Expr;
use sdc_base::{List, NoMemory};
use source_types::{Operand, Pending, Sign};
use sqlite_items::Boxed;
use std::alloc::Global;

/// What is read of a text so far: the operand that stands there, what stands before it in its parentheses, and the
/// same for each pair of parentheses around these, the outer ones first.
#[derive(Drop)]
pub(crate) struct Reading {
    operand: Operand,
    pending: Pending,
    outer: Vec<Pending>,
}

/// An operator between two operands.
#[derive(Clone, Copy)]
enum Operator {
    Xor,
    And,
    Or,
}

impl Operator {
    /// What stands before the next operand after it. The one error is want of memory.
    fn after(self, alloc: Global, pending: Pending, operand: Expr) -> Result<Pending, NoMemory>
        ensures { IfOk result (λ p. p ≡ after_of self pending operand) }
    {
        match self {
            Operator::Xor => after_xor(alloc, pending, operand),
            Operator::And => after_and(alloc, pending, operand),
            Operator::Or => after_or(alloc, pending, operand),
        }
    }
}

/// A word that begins with a byte. The one error is want of memory.
fn word_from(
    alloc: Global,
    pending: Pending,
    outer: Vec<Pending>,
    byte: u8,
) -> Result<Option<Reading>, NoMemory>
    ensures { IfOk result (λ o. option_map seen o ≡ Some (record { operand = spec.word_with [] byte; pending = pending; outer = reverse outer.items })) }
{
    let operand = longer(List::new(alloc), byte)?;
    Ok(Some(Reading {
        operand,
        pending,
        outer,
    }))
}

impl Reading {
    /// Nothing.
    fn nothing(alloc: Global) -> Reading
        ensures { seen result ≡ spec.nothing_read }
    {
        Reading {
            operand: Operand::Due,
            pending: nothing_open(alloc),
            outer: Vec::new(alloc),
        }
    }

    /// This, where an operand may begin: where one is due, or after blanks, which then mean and.
    fn begins(self, alloc: Global) -> Result<Option<Reading>, NoMemory>
        ensures { IfOk result (λ o. option_map seen o ≡ spec.begins self.operand self.pending (seen self).outer) }
    {
        let Reading {
            operand,
            pending,
            outer,
        } = self;
        match operand {
            Operand::Due => Ok(Some(Reading {
                operand: Operand::Due,
                pending,
                outer,
            })),
            Operand::Apart(left) => {
                let pending = after_and(alloc, pending, left)?;
                Ok(Some(Reading {
                    operand: Operand::Due,
                    pending,
                    outer,
                }))
            }
            Operand::Word(_) | Operand::Stands(_) => Ok(None),
        }
    }

    /// This and a byte of a word, where a word may go on or begin.
    fn with_letter(self, alloc: Global, byte: u8) -> Result<Option<Reading>, NoMemory>
        ensures { IfOk result (λ o. option_map seen o ≡ spec.with_letter byte self.operand self.pending (seen self).outer) }
    {
        let Reading {
            operand,
            pending,
            outer,
        } = self;
        match operand {
            Operand::Word(word) => {
                let operand = longer(word, byte)?;
                Ok(Some(Reading {
                    operand,
                    pending,
                    outer,
                }))
            }
            Operand::Due => word_from(alloc, pending, outer, byte),
            Operand::Apart(left) => {
                let pending = after_and(alloc, pending, left)?;
                word_from(alloc, pending, outer, byte)
            }
            Operand::Stands(_) => Ok(None),
        }
    }

    /// This and a blank, before which an operand ends.
    fn with_blank(self, names: &Names) -> Reading
        requires { length names.now ≤ 60001 }
        ensures { seen result ≡ spec.with_blank names.now (seen self) }
    {
        Reading {
            operand: apart(operand_in(names, self.operand)),
            pending: self.pending,
            outer: self.outer,
        }
    }

    /// This and `(`, where an operand may begin.
    fn opened(self, alloc: Global) -> Result<Option<Reading>, NoMemory>
        ensures { IfOk result (λ o. option_map seen o ≡ option_map spec.opened (spec.begins self.operand self.pending (seen self).outer)) }
    {
        let Some(begun) = self.begins(alloc)? else {
            return Ok(None);
        };
        let mut outer = begun.outer;
        outer.push(begun.pending)?;
        Ok(Some(Reading {
            operand: Operand::Due,
            pending: nothing_open(alloc),
            outer,
        }))
    }

    /// This and `!`, where an operand may begin.
    fn denied(self, alloc: Global) -> Result<Option<Reading>, NoMemory>
        ensures { IfOk result (λ o. option_map seen o ≡ option_map spec.denied (spec.begins self.operand self.pending (seen self).outer)) }
    {
        let Some(begun) = self.begins(alloc)? else {
            return Ok(None);
        };
        Ok(Some(Reading {
            operand: Operand::Due,
            pending: after_not(begun.pending)?,
            outer: begun.outer,
        }))
    }

    /// This and `)`, where an operand ends in parentheses.
    fn closed(self, alloc: Global, names: &Names) -> Result<Option<Reading>, NoMemory>
        requires { length names.now ≤ 60001 }
        ensures { IfOk result (λ o. option_map seen o ≡ option_and_then (spec.closed self.pending (seen self).outer) (spec.operand_in names.now self.operand)) }
    {
        let Some(operand) = operand_in(names, self.operand) else {
            return Ok(None);
        };
        let mut outer = self.outer;
        let Some(around) = outer.pop() else {
            return Ok(None);
        };
        let inside = sum_with(alloc, self.pending, operand)?;
        Ok(Some(Reading {
            operand: Operand::Stands(inside),
            pending: around,
            outer,
        }))
    }

    /// This and `'`, where an operand ends.
    fn primed(self, alloc: Global, names: &Names) -> Result<Option<Reading>, NoMemory>
        requires { length names.now ≤ 60001 }
        ensures { IfOk result (λ o. option_map seen o ≡ option_map (spec.primed self.pending (seen self).outer) (spec.operand_in names.now self.operand)) }
    {
        let Some(operand) = operand_in(names, self.operand) else {
            return Ok(None);
        };
        let operand = Boxed::new(alloc, operand)?;
        Ok(Some(Reading {
            operand: Operand::Stands(Expr::Not(operand)),
            pending: self.pending,
            outer: self.outer,
        }))
    }

    /// This and an operator between two operands, where one ends.
    fn operated(
        self,
        alloc: Global,
        names: &Names,
        operator: Operator,
    ) -> Result<Option<Reading>, NoMemory>
        requires { length names.now ≤ 60001 }
        ensures { IfOk result (λ o. option_map seen o ≡ option_map (spec.after (after_of operator) self.pending (seen self).outer) (spec.operand_in names.now self.operand)) }
    {
        let Some(operand) = operand_in(names, self.operand) else {
            return Ok(None);
        };
        Ok(Some(Reading {
            operand: Operand::Due,
            pending: operator.after(alloc, self.pending, operand)?,
            outer: self.outer,
        }))
    }

    /// This and a byte more, if the text can go on with it. The one error is want of memory.
    fn step(self, alloc: Global, names: &Names, byte: u8) -> Result<Option<Reading>, NoMemory>
        requires { length names.now ≤ 60001 }
        ensures { IfOk result (λ o. option_map seen o ≡ spec.step names.now (seen self) (spec.sign_of byte) byte) }
    {
        match sign_of(byte) {
            Sign::Letter => self.with_letter(alloc, byte),
            Sign::Blank => Ok(Some(self.with_blank(names))),
            Sign::Open => self.opened(alloc),
            Sign::Not => self.denied(alloc),
            Sign::Close => self.closed(alloc, names),
            Sign::Prime => self.primed(alloc, names),
            Sign::Xor => self.operated(alloc, names, Operator::Xor),
            Sign::And => self.operated(alloc, names, Operator::And),
            Sign::Or => self.operated(alloc, names, Operator::Or),
        }
    }

    /// The expression that a whole text is, where an operand stands at its end and no parentheses are open. The one
    /// error is want of memory.
    fn ended(self, alloc: Global, names: &Names) -> Result<Option<Expr>, NoMemory>
        requires { length names.now ≤ 60001 }
        ensures { IfOk result (λ o. o ≡ spec.ended names.now (seen self)) }
    {
        let Some(operand) = operand_in(names, self.operand) else {
            return Ok(None);
        };
        if !self.outer.is_empty() {
            return Ok(None);
        }
        let whole = sum_with(alloc, self.pending, operand)?;
        Ok(Some(whole))
    }
}

/// The expression that a text is, where it is one, each word in it being `0`, `1` or a name by its place among a
/// cell's names (Liberty, `function`). The one error is want of memory.
pub(crate) fn expression(
    alloc: Global,
    names: &Names,
    text: &[u8],
) -> Result<Option<Expr>, NoMemory>
    requires { length names.now ≤ 60001 }
    ensures { IfOk result (λ o. o ≡ spec.expression names.now text.now) }
{
    let mut reading = Reading::nothing(alloc);
    for byte in text {
        let Some(next) = reading.step(alloc, names, *byte)? else {
            return Ok(None);
        };
        reading = next;
    }
    reading.ended(alloc, names)
}
