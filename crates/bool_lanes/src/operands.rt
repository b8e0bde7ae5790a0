//! The bytes and operands of a function's text (Liberty, `function`).

ghost use Rattle.std.specs.Prelude.{◌≡◌, ◌≤◌, length, IfOk};
ghost use Rattle.function_model.specs.FunctionText as spec;

use crate::names::Names;
use pin_types::Expr;
use sdc_base::{List, NoMemory};
use source_types::{Operand, Sign};

/// What a byte of a function's text is.
pub(crate) fn sign_of(byte: u8) -> Sign
    ensures { result ≡ spec.sign_of byte }
{
    match byte {
        b' ' | b'\t' | b'\n' | b'\r' => Sign::Blank,
        b'(' => Sign::Open,
        b')' => Sign::Close,
        b'!' => Sign::Not,
        b'\'' => Sign::Prime,
        b'^' => Sign::Xor,
        b'*' | b'&' => Sign::And,
        b'+' | b'|' => Sign::Or,
        _ => Sign::Letter,
    }
}

/// What a word means among a cell's names: `0`, `1`, or the pin of that name.
fn word_meaning(names: &Names, word: &List<u8>) -> Expr
    requires { length names.now ≤ 60001 }
    ensures { result ≡ spec.word_meaning names.now word.now }
{
    if word.as_slice() == b"0".as_slice() {
        Expr::Zero
    } else if word.as_slice() == b"1".as_slice() {
        Expr::One
    } else {
        Expr::Pin(names.place_of(word))
    }
}

/// The operand that ends at a place, if one does.
pub(crate) fn operand_in(names: &Names, operand: Operand) -> Option<Expr>
    requires { length names.now ≤ 60001 }
    ensures { result ≡ spec.operand_in names.now operand }
{
    match operand {
        Operand::Due => None,
        Operand::Word(word) => Some(word_meaning(names, &word)),
        Operand::Stands(operand) | Operand::Apart(operand) => Some(operand),
    }
}

/// An operand that ends before a blank.
pub(crate) fn apart(operand: Option<Expr>) -> Operand
    ensures { result ≡ spec.apart operand }
{
    match operand {
        None => Operand::Due,
        Some(operand) => Operand::Apart(operand),
    }
}

/// A word with a byte more. The one error is want of memory.
pub(crate) fn longer(word: List<u8>, byte: u8) -> Result<Operand, NoMemory>
    ensures { IfOk result (λ o. o ≡ spec.word_with word byte) }
{
    let mut word = word;
    word.push(byte)?;
    Ok(Operand::Word(word))
}
