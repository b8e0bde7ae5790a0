//! The pieces that a word is made of.

ghost use Rattle.std.specs.Prelude.{◌≡◌, ◌<◌, ◌≤◌, ◌+◌, true, Ok, length, drop, slice_index};
ghost use Rattle.sdc_base.specs.Gives.{Meets};
ghost use Rattle.text_model.specs.Continued.{continues as goes_on};
ghost use Rattle.tcl_model.specs.Pieces as grammar;
ghost use Rattle.tcl_words.specs.Forms.{form_of};
ghost use Rattle.tcl_words.specs.declared.pieces.Kind.TheVariants as kind;
ghost use Rattle.tcl_words.specs.declared.pieces.Step.TheVariants as step;
ghost use Rattle.tcl_words.specs.Steps.{end_of, escaped_outside, StepAt};

use crate::between::continued_end;
use crate::runs::{Form, Run, run_end};
use crate::scan::continues;
use crate::substitutions::substituted;
use sdc_base::Stop;
use source_types::TclKind;
use std::alloc::Global;

/// What a piece stands for.
#[derive(Clone, Copy, Debug)]
pub enum Kind {
    /// The bytes from its `from` to its `to`
    Text,
    Newline,
    Tab,
    Blank,
    /// The variable of this name
    Variable,
    /// The value of this script
    Script,
}

/// A piece: what it stands for, where its bytes, its name or its script begin and end, and the place after it.
#[derive(Clone, Copy)]
pub struct Piece {
    pub kind: Kind,
    pub from: usize,
    pub to: usize,
    pub next: usize,
}

/// What stands at a place of a word: a piece, or the end of the word with the place after it.
#[derive(Clone, Copy)]
pub enum Step {
    Found(Piece),
    Ends(usize),
}

/// Bytes as they are, from a place to another.
pub fn itself(from: usize, to: usize) -> Step
    ensures { result ≡ step.Found (record { kind = kind.Text; from = from; to = to; next = to }) }
{
    Step::Found(Piece {
        kind: Kind::Text,
        from,
        to,
        next: to,
    })
}

/// One byte that a sequence stands for, the sequence ending before a place.
fn one(kind: Kind, next: usize) -> Step
    ensures { result ≡ step.Found (record { kind = kind; from = next; to = next; next = next }) }
{
    Step::Found(Piece {
        kind,
        from: next,
        to: next,
        next,
    })
}

/// What stands at a place of a word of a form. Refused as `Unclosed` where a quote, a bracket or the brace of a
/// name has no end, as `BadWord` where a variable is an element of an array.
#[tactic(auto, using(crate::proofs::PieceFacts::at_none, crate::proofs::PieceFacts::at_end, crate::proofs::PieceFacts::at_backslash, crate::proofs::PieceFacts::at_substituted, crate::proofs::PieceFacts::at_run, crate::proofs::PieceFacts::substitutes_small))]
pub fn piece_at(alloc: Global, bytes: &[u8], at: usize, form: Form) -> Result<Step, Stop<TclKind>>
    requires { at ≤ length bytes.now }
    ensures { Meets result (StepAt (grammar.piece_at (form_of form) (drop at bytes.now)) bytes.now at) }
{
    if at == bytes.len() {
        return text_end(bytes, at, form).map_err(Stop::Refused);
    }
    let byte = bytes[at];
    if form.ends(byte) {
        return Ok(Step::Ends(word_end(at, form)));
    }
    if byte == b'\\' {
        return Ok(after_backslash(bytes, at, form));
    }
    if form.substitutes(byte) {
        return substituted(alloc, bytes, at);
    }
    Ok(itself(at, run_end(bytes, at + 1, Run::Plain(form))))
}

/// The end of a word at the end of the text. Refused as `Unclosed` where it needs a closing quote.
#[tactic(auto, using(crate::proofs::PieceFacts::text_ends))]
pub fn text_end(bytes: &[u8], at: usize, form: Form) -> Result<Step, TclKind>
    requires { at ≡ length bytes.now }
    ensures { StepAt (grammar.at_text_end (form_of form)) bytes.now at result }
{
    match form {
        Form::Quoted => Err(TclKind::Unclosed),
        Form::Braced => Ok(Step::Ends(at)),
        Form::Bare => Ok(Step::Ends(at)),
    }
}

/// The place after a word that a byte at a place ends: a closing quote belongs to it.
pub fn word_end(at: usize, form: Form) -> usize
    requires { at < 18446744073709551615 }
    ensures { result ≡ end_of form at }
{
    match form {
        Form::Quoted => at + 1,
        Form::Braced | Form::Bare => at,
    }
}

/// What stands at the place of a backslash.
#[tactic(auto, using(crate::proofs::EscapeFacts::backslash_ends, crate::proofs::EscapeFacts::on_continued, crate::proofs::EscapeFacts::on_escaped))]
pub fn after_backslash(bytes: &[u8], at: usize, form: Form) -> Step
    requires within { at < length bytes.now }
    requires backslash { slice_index bytes.now at ≡ 92 }
    ensures { StepAt (grammar.after_backslash (form_of form) (drop (at + 1) bytes.now)) bytes.now at (Ok result) }
{
    if at + 1 == bytes.len() {
        return itself(at, at + 1);
    }
    if continues(bytes, at + 1) {
        return continued(bytes, at, form);
    }
    escaped(bytes, at, form)
}

/// A continued line, whose backslash stands at a place: one blank, and the end of a bare word.
#[tactic(auto, using(crate::proofs::EscapeFacts::continued_bare, crate::proofs::EscapeFacts::continued_braced, crate::proofs::EscapeFacts::continued_quoted))]
fn continued(bytes: &[u8], at: usize, form: Form) -> Step
    requires within { at + 1 < length bytes.now }
    requires backslash { slice_index bytes.now at ≡ 92 }
    requires continued { goes_on (drop (at + 1) bytes.now) ≡ true }
    ensures { StepAt (grammar.continued (form_of form) (drop (at + 1) bytes.now)) bytes.now at (Ok result) }
{
    match form {
        Form::Bare => Step::Ends(at),
        Form::Braced => one(Kind::Blank, continued_end(bytes, at + 1)),
        Form::Quoted => one(Kind::Blank, continued_end(bytes, at + 1)),
    }
}

/// A backslash at a place and the byte after it: a newline, a tab, or the byte itself; in braces both stay.
#[tactic(auto, using(crate::proofs::PieceFacts::kept_at))]
fn escaped(bytes: &[u8], at: usize, form: Form) -> Step
    requires within { at + 1 < length bytes.now }
    requires backslash { slice_index bytes.now at ≡ 92 }
    ensures { StepAt (grammar.escaped (form_of form) (slice_index bytes.now (at + 1)) (drop (at + 2) bytes.now)) bytes.now at (Ok result) }
{
    match form {
        Form::Braced => itself(at, run_end(bytes, at + 2, Run::Plain(form))),
        Form::Quoted => escaped_byte(bytes, at, form),
        Form::Bare => escaped_byte(bytes, at, form),
    }
}

/// The same outside braces.
#[tactic(auto, using(crate::proofs::EscapeFacts::escaped_newline, crate::proofs::EscapeFacts::escaped_tab, crate::proofs::EscapeFacts::escaped_other))]
fn escaped_byte(bytes: &[u8], at: usize, form: Form) -> Step
    requires within { at + 1 < length bytes.now }
    requires backslash { slice_index bytes.now at ≡ 92 }
    ensures { StepAt (escaped_outside (form_of form) (slice_index bytes.now (at + 1)) (drop (at + 2) bytes.now)) bytes.now at (Ok result) }
{
    if bytes[at + 1] == b'n' {
        return one(Kind::Newline, at + 2);
    }
    if bytes[at + 1] == b't' {
        return one(Kind::Tab, at + 2);
    }
    itself(at + 1, run_end(bytes, at + 2, Run::Plain(form)))
}
