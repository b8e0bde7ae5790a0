//! That a text has one form as an expression, and a script one outcome, so that what the parser and a run answer is the
//! only right answer.

ghost use Rattle.std.specs.Prelude.{List, ℕ};
ghost use Rattle.tcl_eval.specs.Laws.{HasOneParse, HasOneRun, HasOneTree, HostIsOne};

use crate::hosts::Commands;

/// A text is an expression in one way: one tree that is grouped as its operators bind has its tokens.
pub fn expression_is_one()
    ensures { (text : List ℕ) → HasOneTree text }
{}

/// A text gives the steps of one expression, or `BadExpr`, and never both.
pub fn parse_is_one()
    ensures { (text : List ℕ) → HasOneParse text }
{}

/// A script over a host that gives one answer to each call has one outcome, and leaves the host in one state.
pub fn runs_have_one_outcome<H: Commands>()
    ensures { HostIsOne H.host → (script : List ℕ) → HasOneRun H.host script }
{}
