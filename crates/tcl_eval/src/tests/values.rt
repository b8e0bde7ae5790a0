//! The values of expressions without variables and scripts. Those of the tables `as_in_tclsh` are what
//! `tclsh` 8.6 gives.

use crate::expressions::operations::{changed, decided, joined};
use crate::expressions::parsing::parse_expression;
use crate::expressions::values::{computed, text_of};
use sdc_base::{Duplicate, NoMemory, Stop};
use source_types::{BinaryOperator, Expression, ExpressionStep, Part, Scalar, TclKind, Word};
use std::alloc::Global;
use std::test::Fail;

/// A refusal beside want of memory.
fn refuse(outcome: Result<Scalar, TclKind>) -> Result<Scalar, Stop<TclKind>> {
    match outcome {
        Ok(value) => Ok(value),
        Err(kind) => Err(Stop::Refused(kind)),
    }
}

/// The text of a word without variables and scripts.
fn word_value(alloc: Global, word: &Word) -> Result<Scalar, Stop<TclKind>> {
    match word.parts.as_slice() {
        [Part::Text(text)] => Ok(Scalar::Text(text.copy(alloc)?)),
        _ => Err(Stop::Refused(TclKind::UnknownVariable)),
    }
}

/// How many operators are to come after a step that is passed over.
fn passing(step: &ExpressionStep, passed: u32) -> u32 {
    match step {
        ExpressionStep::Decide(_) => passed.saturating_add(1),
        ExpressionStep::Binary(BinaryOperator::Or | BinaryOperator::And) => {
            passed.saturating_sub(1)
        }
        _ => passed,
    }
}

/// Does a step on the values so far; 1 where the right side of an operator is passed over from here on.
fn run_step(
    alloc: Global,
    values: &mut Vec<Scalar>,
    step: &ExpressionStep,
) -> Result<u32, Stop<TclKind>> {
    let next = match step {
        ExpressionStep::Number(number) => refuse(computed(*number))?,
        ExpressionStep::Word(word, _) => word_value(alloc, word)?,
        ExpressionStep::Unary(operator) => {
            let Some(value) = values.pop() else {
                return Err(Stop::NoMemory);
            };
            refuse(changed(*operator, &value))?
        }
        ExpressionStep::Decide(operator) => {
            let Some(left) = values.pop() else {
                return Err(Stop::NoMemory);
            };
            match decided(*operator, &left) {
                Some(outcome) => {
                    values.push(refuse(outcome)?)?;
                    return Ok(1);
                }
                None => left,
            }
        }
        ExpressionStep::Binary(operator) => {
            let (Some(right), Some(left)) = (values.pop(), values.pop()) else {
                return Err(Stop::NoMemory);
            };
            joined(alloc, *operator, &left, &right)?
        }
    };
    values.push(next)?;
    Ok(0)
}

/// The value of an expression.
fn value_of(alloc: Global, expression: &Expression) -> Result<Scalar, Stop<TclKind>> {
    let mut values = Vec::new(alloc);
    let mut passed = 0_u32;
    for step in expression.steps.iter() {
        if passed > 0 {
            passed = passing(step, passed);
        } else {
            passed = run_step(alloc, &mut values, step)?;
        }
    }
    match values.pop() {
        Some(value) => Ok(value),
        None => Err(Stop::NoMemory),
    }
}

/// The text of the value of an expression, or its fault.
fn show_value(alloc: Global, text: &str) -> Result<String, NoMemory> {
    let outcome = match parse_expression(alloc, text) {
        Ok(expression) => value_of(alloc, &expression),
        Err(stop) => Err(stop),
    };
    match outcome {
        Ok(value) => {
            let text = text_of(alloc, &value)?;
            Ok(format!(in alloc; "{}", text.as_str())?)
        }
        Err(Stop::Refused(kind)) => Ok(format!(in alloc; "{kind:?}")?),
        Err(Stop::NoMemory) => Err(NoMemory),
    }
}

/// The texts whose values are others than those beside them, with what they are.
fn unlike(alloc: Global, rows: &[(&str, &str)]) -> Result<String, NoMemory> {
    let mut all = String::new(alloc);
    for (text, wanted) in rows.iter() {
        let shown = show_value(alloc, text)?;
        if shown.as_str() != *wanted {
            let row = format!(in alloc; "{text:?} gives {shown:?}\n")?;
            all.push_str(row.as_str())?;
        }
    }
    Ok(all)
}

static ARITHMETIC: [(&str, &str); 38] = [
    ("1 + 2 * 3", "7"),
    ("(1 + 2) * 3", "9"),
    ("2 - 1 - 1", "0"),
    ("100 / 5 / 2", "10"),
    ("7 % 4 % 2", "1"),
    ("-7 / 2", "-4"),
    ("-7 % 2", "1"),
    ("7 / -2", "-4"),
    ("7 % -2", "-1"),
    ("-7 / -2", "3"),
    ("- 7 + 2", "-5"),
    ("1 + - 2", "-1"),
    ("5--3", "8"),
    ("5 - - 3", "8"),
    ("- - 5", "5"),
    ("-2 * -3", "6"),
    ("+4 - +1", "3"),
    ("2 * 3 % 4", "2"),
    ("1 - 2 + 3 - 4", "-2"),
    ("7.0 / 2", "3.5"),
    ("7 / 2.0", "3.5"),
    ("1.5 + 1.5", "3.0"),
    ("0.5 * 4", "2.0"),
    ("2.5 - 1", "1.5"),
    ("1e3 + 0", "1000.0"),
    (".5 + .5", "1.0"),
    ("5. - 1", "4.0"),
    ("1.25e1 * 2", "25.0"),
    ("10 % 3 * 2 + 1", "3"),
    ("((((1))))", "1"),
    ("(1)+(2)", "3"),
    ("3-(2-1)", "2"),
    ("1\t+\t2", "3"),
    ("2+3*4-5", "9"),
    ("-\"3\" + 1", "-2"),
    ("\"2\" * \"3\"", "6"),
    ("2*(3+4)*5", "70"),
    ("-(2+3)", "-5"),
];

#[test]
fn arithmetic_as_in_tclsh(rt: HostRuntime) -> Result<(), Fail> {
    let unlike = unlike(rt.alloc(), &ARITHMETIC)?;
    assert_eq!(rt; unlike.as_str(), "");
    Ok(())
}

#[test]
fn comparisons_as_in_tclsh(rt: HostRuntime) -> Result<(), Fail> {
    let unlike = unlike(
        rt.alloc(),
        &[
            ("!0", "1"),
            ("!!7", "1"),
            ("!1 == 0", "1"),
            ("! 0 + 1", "2"),
            ("1 < 2", "1"),
            ("2 <= 2", "1"),
            ("3 > 4", "0"),
            ("4 >= 5", "0"),
            ("1 < 2 == 1", "1"),
            ("3 > 2 > 1", "0"),
            ("1 == 1 != 0", "1"),
            ("1==1.0", "1"),
            ("\"a\" eq \"a\"", "1"),
            ("\"a\" ne \"a\"", "0"),
            ("\"a\"eq\"b\"", "0"),
            ("1eq1", "1"),
            ("1ne2", "1"),
            ("\"1\" == \"1.0\"", "1"),
            ("\"a\" == \"a\"", "1"),
            ("\"a\" != \"b\"", "1"),
            ("{a b} eq \"a b\"", "1"),
            ("1 == \"a\"", "0"),
            ("\"a b\" eq {a b}", "1"),
            ("!\"0\"", "1"),
            ("1 < 2 < 3", "1"),
            ("!(1==2)", "1"),
            ("1 eq \"1\"", "1"),
        ],
    )?;
    assert_eq!(rt; unlike.as_str(), "");
    Ok(())
}

#[test]
fn logic_as_in_tclsh(rt: HostRuntime) -> Result<(), Fail> {
    let unlike = unlike(
        rt.alloc(),
        &[
            ("1 + 1 == 2 && 2 * 2 == 4", "1"),
            ("0 || 1 && 0", "0"),
            ("1 || 0 && 0", "1"),
            ("(1 || 0) && 0", "0"),
            ("0 && 1 || 1", "1"),
            ("1 && 2", "1"),
            ("0 || 0", "0"),
            ("5 && 0 || 3", "1"),
            ("1<2&&2<3", "1"),
            ("1 == 2 || 3 == 3", "1"),
            ("0 && 1/0", "0"),
            ("1 || 1/0", "1"),
        ],
    )?;
    assert_eq!(rt; unlike.as_str(), "");
    Ok(())
}

static OF_THIS_TOOL: [(&str, &str); 33] = [
    ("2.0 / 3", "0.666666667"),
    ("10 * 0.3", "3.0"),
    ("1.50", "1.5"),
    ("\"1.50\"", "1.50"),
    ("+\"1.50\"", "1.5"),
    ("1.0 eq 1.00", "1"),
    ("\"1.0\" eq \"1.00\"", "0"),
    ("-0.0", "0.0"),
    ("999999999999999 + 1", "Number(NumberRange)"),
    ("1 / 0", "Number(DivideByZero)"),
    ("1 % 0", "Number(DivideByZero)"),
    ("1.0 % 1", "BadExpr"),
    ("1.5 % 0", "BadExpr"),
    ("1e20", "Number(NumberRange)"),
    ("0 && 1e20", "0"),
    ("1 && 1e20", "Number(NumberRange)"),
    ("\"1e20\" == \"1e20\"", "Number(NumberRange)"),
    ("\"1e20\" == \"a\"", "0"),
    ("\"1e20\" eq \"1e20\"", "1"),
    ("\"a\" + 1e20", "Number(NumberRange)"),
    ("\"a\" + \"1e20\"", "BadExpr"),
    ("\"1e20\" + \"a\"", "Number(NumberRange)"),
    ("\"a\" < \"b\"", "BadExpr"),
    ("!\"a\"", "BadExpr"),
    ("\"a\" && 1", "BadExpr"),
    ("\"a\" && 1e20", "BadExpr"),
    ("1 && \"a\"", "BadExpr"),
    ("0 && \"a\"", "0"),
    ("1 || \"a\"", "1"),
    ("0 || \"a\"", "BadExpr"),
    ("0 && 1 || \"a\" && 0 || 1", "BadExpr"),
    ("1 || \"a\" || \"b\"", "1"),
    ("0 && (1 || \"a\") && \"b\"", "0"),
];

#[test]
fn values_of_this_tool(rt: HostRuntime) -> Result<(), Fail> {
    let unlike = unlike(rt.alloc(), &OF_THIS_TOOL)?;
    assert_eq!(rt; unlike.as_str(), "");
    Ok(())
}
