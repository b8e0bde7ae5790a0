//! What the readers of tokens answer.

use source_types::ExpressionToken;

/// A token of an expression, and where it ends in bytes.
#[derive(Drop)]
pub struct Lexed {
    pub token: ExpressionToken,
    pub end: usize,
}
