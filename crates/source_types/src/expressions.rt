//! Expressions of a script: their operators, their tokens, and what is kept of a parsed one (Tcl).

use crate::commands::Word;
use sdc_base::{Fixed, List, NumberError, Text};

/// An operator before one operand.
#[derive(Clone, Copy, Debug)]
pub enum UnaryOperator {
    /// `+`
    Plus,
    /// `-`
    Minus,
    /// `!`
    Not,
}

/// An operator between two operands, the weakest first.
#[derive(Clone, Copy, Debug)]
pub enum BinaryOperator {
    /// `||`
    Or,
    /// `&&`
    And,
    /// `==`
    Equal,
    /// `!=`
    NotEqual,
    /// `eq`
    TextEqual,
    /// `ne`
    TextNotEqual,
    /// `<`
    Less,
    /// `<=`
    LessEqual,
    /// `>`
    Greater,
    /// `>=`
    GreaterEqual,
    /// `+`
    Add,
    /// `-`
    Subtract,
    /// `*`
    Multiply,
    /// `/`
    Divide,
    /// `%`
    Remainder,
}

/// A token of an expression.
#[derive(Drop)]
pub enum ExpressionToken {
    /// A number without a sign, or that it is out of range.
    Number(Result<Fixed, NumberError>),
    /// A variable, a script, or a quoted or braced text.
    Word(Word),
    /// `(`
    Open,
    /// `)`
    Close,
    /// `!`
    Not,
    /// An operator that may stand between two operands; `+` and `-` may stand before one too.
    Operator(BinaryOperator),
}

/// A step of a parsed expression. Each takes the last values from those so far, and gives one.
#[derive(Drop)]
pub enum ExpressionStep {
    /// A number, or the fault that it is out of range.
    Number(Result<Fixed, NumberError>),
    /// What a word stands for, inside so many parentheses.
    Word(Word, usize),
    /// An operator on the last value.
    Unary(UnaryOperator),
    /// `&&` or `||` after its left side: where the last value decides, it is the truth, and the steps of the right
    /// side are passed over, the operator with them. Else it stays.
    Decide(BinaryOperator),
    /// An operator on the last two values.
    Binary(BinaryOperator),
}

/// A parsed expression: its steps in order, each operator after its operands, and the greatest number of
/// parentheses that stand inside each other.
#[derive(Drop)]
pub struct Expression {
    pub steps: List<ExpressionStep>,
    pub levels: usize,
}

/// A value of an expression: a number, or a text, which may have the form of a number.
#[derive(Drop)]
pub enum Scalar {
    Number(Fixed),
    Text(Text),
}
