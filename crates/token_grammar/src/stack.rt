//! The symbols that are still to come of a text, on a stack with the next one on top.

ghost use Rattle.std.specs.Prelude.{◌≡◌, ◌++◌, List, Some, None, Bool, reverse, IfOk, OnOk, if◌then◌else◌};
ghost use Rattle.std.specs.List.{list_all};
ghost use Rattle.token_grammar.specs.Machine.{advanced};

use crate::grammar::Grammar;
use sdc_base::NoMemory;

/// Puts symbols on a stack, the first of them on top.
fn push_all<T: Copy>(stack: &mut Vec<T>, symbols: &[T]) -> Result<(), NoMemory>
    ensures { OnOk result (reverse stack.new.items ≡ symbols.now ++ reverse stack.old.items) }
{
    let mut rest = symbols;
    while let [before @ .., last] = rest {
        stack.push(*last)?;
        rest = before;
    }
    Ok(())
}

/// Takes a token from what is to come, and says whether it could stand there. Where it could not, nothing is said of
/// the stack.
pub(crate) fn advance<G: Grammar>(
    stack: &mut Vec<G::Symbol>,
    kind: G::Kind,
) -> Result<bool, NoMemory>
    ensures { IfOk result (λ taken. advanced G.table (reverse stack.old.items) kind ≡ (if taken then Some (reverse stack.new.items) else None)) }
{
    while let Some(symbol) = stack.pop() {
        if let Some(after) = G::next(symbol, kind) {
            push_all(stack, after)?;
            return Ok(true);
        }
        if !G::is_nullable(symbol) {
            return Ok(false);
        }
    }
    Ok(false)
}

/// All symbols on a stack may be nothing.
pub(crate) fn may_end<G: Grammar>(stack: &[G::Symbol]) -> bool
    ensures { result ≡ list_all G.table.nullable stack.now }
{
    stack.iter().all(|symbol| G::is_nullable(*symbol))
}
