//! The substitutions that a word is made of: variables and scripts.

ghost use Rattle.std.specs.Prelude.{◌≡◌, ◌<◌, ◌+◌, true, length, drop, slice_index};
ghost use Rattle.sdc_base.specs.Gives.{Meets};
ghost use Rattle.text_model.specs.Bytes.{begins_with, after, front, is_name_byte};
ghost use Rattle.text_model.specs.Enclosed.{after_bracket};
ghost use Rattle.tcl_model.specs.Pieces as grammar;
ghost use Rattle.tcl_words.specs.Steps.{StepAt};

use crate::enclosed::{Open, closing};
use crate::pieces::{Kind, Piece, Step, itself};
use crate::runs::{Run, run_end};
use crate::scan::stands_at;
use sdc_base::Stop;
use source_types::TclKind;
use std::alloc::Global;

/// What stands at the place of a `$` or a `[`.
pub fn substituted(alloc: Global, bytes: &[u8], at: usize) -> Result<Step, Stop<TclKind>>
    requires within { at < length bytes.now }
    requires small { slice_index bytes.now at < 128 }
    ensures { Meets result (StepAt (grammar.substituted (slice_index bytes.now at) (drop (at + 1) bytes.now)) bytes.now at) }
{
    if bytes[at] == b'$' {
        return variable(bytes, at).map_err(Stop::Refused);
    }
    script(alloc, bytes, at)
}

/// What stands at the place of a `$`.
#[tactic(auto, using(crate::proofs::SubstitutionFacts::dollar_plain, crate::proofs::SubstitutionFacts::dollar_element, crate::proofs::SubstitutionFacts::dollar_named))]
fn variable(bytes: &[u8], at: usize) -> Result<Step, TclKind>
    requires within { at < length bytes.now }
    requires dollar { slice_index bytes.now at ≡ 36 }
    ensures { StepAt (grammar.after_dollar (front is_name_byte (drop (at + 1) bytes.now)) (after is_name_byte (drop (at + 1) bytes.now))) bytes.now at result }
{
    let end = run_end(bytes, at + 1, Run::Name);
    if end == at + 1 {
        return plain_dollar(bytes, at);
    }
    if stands_at(bytes, end, b'(') {
        return Err(TclKind::BadWord);
    }
    Ok(Step::Found(Piece {
        kind: Kind::Variable,
        from: at + 1,
        to: end,
        next: end,
    }))
}

/// What stands at the place of a `$` that no name follows: `{` opens one, and else `$` is itself.
#[tactic(auto, using(crate::proofs::SubstitutionFacts::plain_itself, crate::proofs::SubstitutionFacts::name_unclosed, crate::proofs::SubstitutionFacts::name_closed))]
fn plain_dollar(bytes: &[u8], at: usize) -> Result<Step, TclKind>
    requires within { at < length bytes.now }
    requires dollar { slice_index bytes.now at ≡ 36 }
    ensures { StepAt (grammar.plain_dollar (drop (at + 1) bytes.now)) bytes.now at result }
{
    if stands_at(bytes, at + 1, b'{') {
        return braced_variable(bytes, at);
    }
    Ok(itself(at, at + 1))
}

/// The variable whose name stands in braces after the place of a `$`.
#[tactic(auto, using(crate::proofs::SubstitutionFacts::name_unclosed, crate::proofs::SubstitutionFacts::brace_at))]
fn braced_variable(bytes: &[u8], at: usize) -> Result<Step, TclKind>
    requires within { at < length bytes.now }
    requires opens { begins_with 123 (drop (at + 1) bytes.now) ≡ true }
    ensures { StepAt (grammar.plain_dollar (drop (at + 1) bytes.now)) bytes.now at result }
{
    let end = run_end(bytes, at + 2, Run::BeforeBrace);
    if end == bytes.len() {
        return Err(TclKind::Unclosed);
    }
    Ok(Step::Found(Piece {
        kind: Kind::Variable,
        from: at + 2,
        to: end,
        next: end + 1,
    }))
}

/// The script at the place of a `[`.
#[tactic(auto, using(crate::proofs::SubstitutionFacts::script_unclosed))]
fn script(alloc: Global, bytes: &[u8], at: usize) -> Result<Step, Stop<TclKind>>
    requires within { at < length bytes.now }
    requires small { slice_index bytes.now at < 128 }
    ensures { Meets result (StepAt (grammar.after_opening (drop (at + 1) bytes.now) (after_bracket (drop (at + 1) bytes.now))) bytes.now at) }
{
    let Some(next) = closing(alloc, bytes, at + 1, Open::Bracket)? else {
        return Err(Stop::Refused(TclKind::Unclosed));
    };
    Ok(Step::Found(Piece {
        kind: Kind::Script,
        from: at + 1,
        to: next - 1,
        next,
    }))
}
