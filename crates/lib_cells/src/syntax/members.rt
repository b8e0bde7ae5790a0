//! What stands in a group of a library's text (Liberty).

ghost use Rattle.std.specs.Prelude.{◌≡◌, ◌≤◌, length, IfOk};
ghost use Rattle.library_model.specs.LibertyStatements as liberty;
ghost use Rattle.lib_cells.specs.Members.{members_seen};
ghost use Rattle.lib_cells.specs.Seen.{statements_seen};
ghost use Rattle.lib_cells.specs.Spans.{deeper_len};

use crate::syntax::said::{is_group, value_named};
use crate::syntax::statements::Statement;
use sdc_base::{NoMemory, Text};
use std::alloc::Global;

/// A group or an attribute, and the statements in it.
#[derive(Clone, Copy)]
pub struct Member<'a> {
    pub statement: &'a Statement<'a>,
    pub inside: &'a [Statement<'a>],
}

/// The number of statements at the front that stand deeper than a level.
fn within_len(level: usize, statements: &[Statement<'_>]) -> usize
    ensures count { result ≡ deeper_len level statements.now }
    ensures fits { result ≤ length statements.now }
{
    statements
        .iter()
        .take_while(|statement| level < statement.level)
        .count()
}

/// Of the statements after one of a level, those that stand in it.
#[tactic(auto, using(crate::proofs::SpanFacts::within_taken))]
fn within<'a>(level: usize, statements: &'a [Statement<'a>]) -> &'a [Statement<'a>]
    ensures { statements_seen result.now ≡ liberty.within level (statements_seen statements.now) }
{
    let len = within_len(level, statements);
    &statements[..len]
}

/// The statements that stand directly at a level, each with those in it. The one error is want of memory.
pub fn members<'a>(
    alloc: Global,
    level: usize,
    statements: &'a [Statement<'a>],
) -> Result<Vec<Member<'a>>, NoMemory>
    ensures { IfOk result (λ found. members_seen found.items ≡ liberty.members level (statements_seen statements.now)) }
{
    let mut found = Vec::new(alloc);
    for (at, statement) in statements.iter().enumerate() {
        if statement.level == level {
            let inside = within(level, &statements[at + 1..]);
            found.push(Member { statement, inside })?;
        }
    }
    Ok(found)
}

/// The groups of a name among members. The one error is want of memory.
pub fn groups<'a>(
    alloc: Global,
    name: &str,
    members: &[Member<'a>],
) -> Result<Vec<Member<'a>>, NoMemory>
    ensures { IfOk result (λ found. members_seen found.items ≡ liberty.groups name.now (members_seen members.now)) }
{
    let mut found = Vec::new(alloc);
    for member in members {
        if is_group(name, member.statement) {
            found.push(*member)?;
        }
    }
    Ok(found)
}

/// The value of the last simple attribute of a name among members. The one error is want of memory.
pub fn last_value(
    alloc: Global,
    name: &str,
    members: &[Member<'_>],
) -> Result<Option<Text>, NoMemory>
    ensures { IfOk result (λ value. value ≡ liberty.last_value name.now (members_seen members.now)) }
{
    let mut last = None;
    for member in members {
        let value = value_named(alloc, name, member.statement)?;
        if value.is_some() {
            last = value;
        }
    }
    Ok(last)
}
