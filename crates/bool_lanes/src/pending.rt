//! What stands before an operand, joined to it by how tightly each operator binds (Liberty, `function`).

ghost use Rattle.std.specs.Prelude.{◌≡◌, IfOk};
ghost use Rattle.function_model.specs.FunctionText as text;

use pin_types::Expr;
use sdc_base::{List, NoMemory};
use source_types::Pending;
use sqlite_items::Boxed;
use std::alloc::Global;

/// Nothing before an operand.
pub(crate) fn nothing_open(alloc: Global) -> Pending
    ensures { result ≡ text.nothing_open }
{
    Pending {
        sum: None,
        product: None,
        chain: None,
        negations: List::new(alloc),
    }
}

/// An operand with the `!` before it. The one error is want of memory.
fn negated(alloc: Global, negations: &[u8], operand: Expr) -> Result<Expr, NoMemory>
    ensures { IfOk result (λ e. e ≡ text.negated negations.now operand) }
{
    let mut inner = operand;
    for _negation in negations {
        inner = Expr::Not(Boxed::new(alloc, inner)?);
    }
    Ok(inner)
}

/// The left side of `^`, where there is one, joined to what stands on its right. The one error is want of memory.
fn joined_xor(alloc: Global, left: Option<Expr>, right: Expr) -> Result<Expr, NoMemory>
    ensures { IfOk result (λ e. e ≡ text.joined_xor left right) }
{
    let Some(left) = left else {
        return Ok(right);
    };
    let left = Boxed::new(alloc, left)?;
    let right = Boxed::new(alloc, right)?;
    Ok(Expr::Xor(left, right))
}

/// The left side of an and, where there is one, joined to what stands on its right. The one error is want of memory.
fn joined_and(alloc: Global, left: Option<Expr>, right: Expr) -> Result<Expr, NoMemory>
    ensures { IfOk result (λ e. e ≡ text.joined_and left right) }
{
    let Some(left) = left else {
        return Ok(right);
    };
    let left = Boxed::new(alloc, left)?;
    let right = Boxed::new(alloc, right)?;
    Ok(Expr::And(left, right))
}

/// The left side of an or, where there is one, joined to what stands on its right. The one error is want of memory.
fn joined_or(alloc: Global, left: Option<Expr>, right: Expr) -> Result<Expr, NoMemory>
    ensures { IfOk result (λ e. e ≡ text.joined_or left right) }
{
    let Some(left) = left else {
        return Ok(right);
    };
    let left = Boxed::new(alloc, left)?;
    let right = Boxed::new(alloc, right)?;
    Ok(Expr::Or(left, right))
}

/// The and that ends with an operand, given the left sides of `^` and of the and. The one error is want of memory.
fn product_with(
    alloc: Global,
    chain: Option<Expr>,
    product: Option<Expr>,
    operand: Expr,
) -> Result<Expr, NoMemory>
    ensures { IfOk result (λ e. e ≡ text.joined_and product (text.joined_xor chain operand)) }
{
    let right = joined_xor(alloc, chain, operand)?;
    joined_and(alloc, product, right)
}

/// What stands before the next operand after `^`. The one error is want of memory.
pub(crate) fn after_xor(alloc: Global, pending: Pending, operand: Expr) -> Result<Pending, NoMemory>
    ensures { IfOk result (λ p. p ≡ text.after_xor pending operand) }
{
    let operand = negated(alloc, pending.negations.as_slice(), operand)?;
    let chain = joined_xor(alloc, pending.chain, operand)?;
    Ok(Pending {
        sum: pending.sum,
        product: pending.product,
        chain: Some(chain),
        negations: List::new(alloc),
    })
}

/// What stands before the next operand after `*`, `&` or a blank. The one error is want of memory.
pub(crate) fn after_and(alloc: Global, pending: Pending, operand: Expr) -> Result<Pending, NoMemory>
    ensures { IfOk result (λ p. p ≡ text.after_and pending operand) }
{
    let operand = negated(alloc, pending.negations.as_slice(), operand)?;
    let product = product_with(alloc, pending.chain, pending.product, operand)?;
    Ok(Pending {
        sum: pending.sum,
        product: Some(product),
        chain: None,
        negations: List::new(alloc),
    })
}

/// What stands before the next operand after `+` or `|`. The one error is want of memory.
pub(crate) fn after_or(alloc: Global, pending: Pending, operand: Expr) -> Result<Pending, NoMemory>
    ensures { IfOk result (λ p. p ≡ text.after_or pending operand) }
{
    let sum = sum_with(alloc, pending, operand)?;
    Ok(Pending {
        sum: Some(sum),
        product: None,
        chain: None,
        negations: List::new(alloc),
    })
}

/// What ends with an operand before `)` or at the end. The one error is want of memory.
pub(crate) fn sum_with(alloc: Global, pending: Pending, operand: Expr) -> Result<Expr, NoMemory>
    ensures { IfOk result (λ e. e ≡ text.sum_with pending operand) }
{
    let operand = negated(alloc, pending.negations.as_slice(), operand)?;
    let product = product_with(alloc, pending.chain, pending.product, operand)?;
    joined_or(alloc, pending.sum, product)
}

/// What stands before an operand after one `!` more. The one error is want of memory.
pub(crate) fn after_not(pending: Pending) -> Result<Pending, NoMemory>
    ensures { IfOk result (λ p. p ≡ text.after_not pending) }
{
    let mut negations = pending.negations;
    negations.push(b'!')?;
    Ok(Pending {
        sum: pending.sum,
        product: pending.product,
        chain: pending.chain,
        negations,
    })
}
