//! What is read of the text of a cell's function, from its front to a place in it (Liberty, `function`).

use pin_types::Expr;
use sdc_base::List;

/// What a byte of a function's text is.
#[derive(Clone, Copy)]
pub enum Sign {
    /// A space, a tab, a newline or a carriage return.
    Blank,
    /// `(`
    Open,
    /// `)`
    Close,
    /// `!`
    Not,
    /// `'`
    Prime,
    /// `^`
    Xor,
    /// `*` or `&`
    And,
    /// `+` or `|`
    Or,
    /// Any other: a byte of a word.
    Letter,
}

/// The operand that stands at a place of a function's text.
#[derive(Drop)]
pub enum Operand {
    /// None yet: one is due.
    Due,
    /// The bytes of a word that may go on.
    Word(List<u8>),
    /// One that ends right here.
    Stands(Expr),
    /// One, with blanks after it.
    Apart(Expr),
}

/// What stands before an operand in its pair of parentheses: the left sides of operators that still want their
/// right one, and the `!` of the operand.
#[derive(Drop)]
pub struct Pending {
    /// What an or has on its left.
    pub sum: Option<Expr>,
    /// What an and has on its left.
    pub product: Option<Expr>,
    /// What an exclusive or has on its left.
    pub chain: Option<Expr>,
    /// The `!` right before the operand.
    pub negations: List<u8>,
}
