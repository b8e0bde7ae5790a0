//! Operators and parentheses of an expression, as they are spelled (Tcl).

ghost use Rattle.std.specs.Prelude.{◌≡◌, ◌<◌, ◌≤◌, ◌+◌, length, drop, slice_index};
ghost use Rattle.tcl_model.specs.ExpressionTokens as grammar;
ghost use Rattle.tcl_words.specs.Operands.{IsFront};
ghost use Rattle.tcl_eval.specs.Lexing.{LexedAt, PairAt};

use crate::expressions::lexed::Lexed;
use source_types::{BinaryOperator, ExpressionToken, TclKind};

/// The operator that two bytes spell, if they spell one.
fn pair(first: u8, second: u8) -> Option<BinaryOperator>
    ensures { result ≡ grammar.pair first second }
{
    if first == b'|' && second == b'|' {
        Some(BinaryOperator::Or)
    } else if first == b'&' && second == b'&' {
        Some(BinaryOperator::And)
    } else if first == b'=' && second == b'=' {
        Some(BinaryOperator::Equal)
    } else if first == b'!' && second == b'=' {
        Some(BinaryOperator::NotEqual)
    } else if first == b'e' && second == b'q' {
        Some(BinaryOperator::TextEqual)
    } else if first == b'n' && second == b'e' {
        Some(BinaryOperator::TextNotEqual)
    } else if first == b'<' && second == b'=' {
        Some(BinaryOperator::LessEqual)
    } else if first == b'>' && second == b'=' {
        Some(BinaryOperator::GreaterEqual)
    } else {
        None
    }
}

/// The token that one byte spells, if it spells one.
fn single(byte: u8) -> Option<ExpressionToken>
    ensures { result ≡ grammar.single byte }
{
    match byte {
        b'(' => Some(ExpressionToken::Open),
        b')' => Some(ExpressionToken::Close),
        b'!' => Some(ExpressionToken::Not),
        b'<' => Some(ExpressionToken::Operator(BinaryOperator::Less)),
        b'>' => Some(ExpressionToken::Operator(BinaryOperator::Greater)),
        b'+' => Some(ExpressionToken::Operator(BinaryOperator::Add)),
        b'-' => Some(ExpressionToken::Operator(BinaryOperator::Subtract)),
        b'*' => Some(ExpressionToken::Operator(BinaryOperator::Multiply)),
        b'/' => Some(ExpressionToken::Operator(BinaryOperator::Divide)),
        b'%' => Some(ExpressionToken::Operator(BinaryOperator::Remainder)),
        _ => None,
    }
}

/// The operator of two bytes that stands at a place, if one does.
#[tactic(auto, using(crate::proofs::OperatorFacts::none_at_end, crate::proofs::OperatorFacts::pair_found))]
fn pair_at(bytes: &[u8], at: usize) -> Option<BinaryOperator>
    requires { at < length bytes.now }
    ensures { PairAt bytes.now at result }
{
    if at + 1 == bytes.len() {
        return None;
    }
    pair(bytes[at], bytes[at + 1])
}

/// The operator or parenthesis at a place. Refused as `BadExpr` where there is none.
#[tactic(auto, using(crate::proofs::OperatorFacts::pair_token, crate::proofs::OperatorFacts::single_token, crate::proofs::OperatorFacts::no_token))]
pub fn operator_at(bytes: &[u8], at: usize) -> Result<Lexed, TclKind>
    requires { at < length bytes.now }
    ensures { LexedAt (IsFront (grammar.operator_front (slice_index bytes.now at) (drop (at + 1) bytes.now))) bytes.now at result }
{
    if let Some(operator) = pair_at(bytes, at) {
        return Ok(Lexed {
            token: ExpressionToken::Operator(operator),
            end: at + 2,
        });
    }
    match single(bytes[at]) {
        Some(token) => Ok(Lexed { token, end: at + 1 }),
        None => Err(TclKind::BadExpr),
    }
}
