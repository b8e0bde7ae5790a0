//! The words of `if`, taken apart.

ghost use Rattle.std.specs.Prelude.{◌≡◌, [], List, Some, IfOk};
ghost use Rattle.source_types.specs.declared.built_ins.Branch.{Branch};
ghost use Rattle.tcl_model.specs.Branches as spec;
ghost use Rattle.tcl_eval.specs.BranchesRead.{said_after, Steps};
ghost use Rattle.tcl_eval.specs.declared.commands.branches.Expects.TheVariants as expects;

use sdc_base::{List, NoMemory, Text};
use source_types::{Branch, Branches};
use std::alloc::Global;

/// What comes next in the words of an `if`.
#[derive(Drop)]
pub enum Expects {
    Condition,
    /// `then`, or the body of a condition.
    Then(Text),
    /// The body of a condition.
    Body(Text),
    /// What stands after a body.
    After,
    /// The last body.
    Last,
    /// Nothing more, after the last body.
    Nothing(Text),
}

/// Whether a word is `then`.
#[tactic(auto, unfolding(tcl_model::specs::Branches::is_then))]
fn is_then(word: &str) -> bool
    ensures { result ≡ spec.is_then word.now }
{
    word == "then"
}

/// Whether a word is `elseif`.
#[tactic(auto, unfolding(tcl_model::specs::Branches::is_elseif))]
fn is_elseif(word: &str) -> bool
    ensures { result ≡ spec.is_elseif word.now }
{
    word == "elseif"
}

/// Whether a word is `else`.
#[tactic(auto, unfolding(tcl_model::specs::Branches::is_else))]
fn is_else(word: &str) -> bool
    ensures { result ≡ spec.is_else word.now }
{
    word == "else"
}

/// What comes next after a word, which may end a branch; `None` where the word cannot stand there. The one error is
/// want of memory.
#[tactic(auto, using(crate::proofs::BranchFacts::condition_read, crate::proofs::BranchFacts::then_read, crate::proofs::BranchFacts::body_after_condition, crate::proofs::BranchFacts::body_read, crate::proofs::BranchFacts::last_read, crate::proofs::BranchFacts::nothing_after))]
fn step(
    alloc: Global,
    branches: &mut List<Branch>,
    expects: Expects,
    word: &str,
) -> Result<Option<Expects>, NoMemory>
    ensures { IfOk result (λ next. Steps branches.old expects word.now next branches.new) }
{
    let copy = Text::from_str(alloc, word)?;
    match expects {
        Expects::Condition => Ok(Some(Expects::Then(copy))),
        Expects::Then(condition) => {
            if is_then(word) {
                return Ok(Some(Expects::Body(condition)));
            }
            branches.push(Branch {
                condition,
                body: copy,
            })?;
            Ok(Some(Expects::After))
        }
        Expects::Body(condition) => {
            branches.push(Branch {
                condition,
                body: copy,
            })?;
            Ok(Some(Expects::After))
        }
        Expects::After => Ok(Some(after(word, copy))),
        Expects::Last => Ok(Some(Expects::Nothing(copy))),
        Expects::Nothing(_) => Ok(None),
    }
}

/// What comes next after a word that stands after a body.
#[tactic(auto, using(crate::proofs::BranchFacts::elseif_read, crate::proofs::BranchFacts::else_read, crate::proofs::BranchFacts::last_after))]
fn after(word: &str, copy: Text) -> Expects
    requires { copy ≡ word.now }
    ensures { (branches : List Branch) → Steps branches expects.After word.now (Some result) branches }
{
    if is_elseif(word) {
        return Expects::Condition;
    }
    if is_else(word) {
        return Expects::Last;
    }
    Expects::Nothing(copy)
}

/// The branches that the words after `if` say; `None` where they are too few or too many. The one error is want of
/// memory.
pub fn branches_of(alloc: Global, words: &[Text]) -> Result<Option<Branches>, NoMemory>
    ensures { IfOk result (λ said. said ≡ spec.branches_of words.now) }
{
    let mut branches = List::new(alloc);
    let mut expects = Expects::Condition;
    for word in words {
        let Some(next) = step(alloc, &mut branches, expects, word.as_str())? else {
            return Ok(None);
        };
        expects = next;
    }
    Ok(ended(branches, expects))
}

/// The branches that words say which end.
#[tactic(auto, using(crate::proofs::BranchFacts::all_after, crate::proofs::BranchFacts::all_last))]
fn ended(branches: List<Branch>, expects: Expects) -> Option<Branches>
    ensures { result ≡ said_after branches expects [] }
{
    match expects {
        Expects::After => Some(Branches {
            branches,
            otherwise: None,
        }),
        Expects::Nothing(body) => Some(Branches {
            branches,
            otherwise: Some(body),
        }),
        Expects::Condition | Expects::Then(_) | Expects::Body(_) | Expects::Last => None,
    }
}
