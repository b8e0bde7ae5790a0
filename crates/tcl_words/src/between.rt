//! What stands between words and between commands.

ghost use Rattle.std.specs.Prelude.{◌≡◌, ◌<◌, ◌≤◌, ◌==◌, ◌||◌, true, false, length, drop, slice_index};
ghost use Rattle.text_model.specs.Bytes.{is_end as end, is_space as space};
ghost use Rattle.text_model.specs.Continued.{after_continued, after_gap, after_newline, comment, from_command, parting, taken, continues as goes_on};
ghost use Rattle.tcl_words.specs.Spans.{Keeps, LeadsTo, Moves, StepsTo};

use crate::runs::{Run, run_end};
use crate::scan::{continues, is_end, is_space, stands_at};

/// The place after the newline of a continued line, whose backslash stands right before a place.
#[tactic(auto, using(crate::proofs::GapFacts::newline_leads, crate::proofs::GapFacts::second_leads, crate::proofs::GapFacts::continues_second))]
pub fn newline_end(bytes: &[u8], at: usize) -> usize
    requires within { at < length bytes.now }
    requires continued { goes_on (drop at bytes.now) ≡ true }
    ensures leads { LeadsTo bytes.now at result (after_newline (drop at bytes.now)) }
    ensures further { at < result }
{
    if bytes[at] == b'\n' {
        return at + 1;
    }
    at + 2
}

/// The place after a continued line and the spaces that follow; its backslash stands right before a place.
#[tactic(auto, using(crate::proofs::GapFacts::continued_leads))]
pub fn continued_end(bytes: &[u8], at: usize) -> usize
    requires within { at < length bytes.now }
    requires continued { goes_on (drop at bytes.now) ≡ true }
    ensures leads { LeadsTo bytes.now at result (after_continued (drop at bytes.now)) }
    ensures further { at < result }
{
    let newline = newline_end(bytes, at);
    run_end(bytes, newline, Run::Spaces)
}

/// The place after a space or a continued line that stands at a place, or the place where neither stands there.
#[tactic(auto, using(crate::proofs::GapFacts::gap_steps_space, crate::proofs::GapFacts::gap_steps_continued, crate::proofs::GapFacts::gap_steps_none))]
fn gap_step(bytes: &[u8], at: usize) -> usize
    requires { at < length bytes.now }
    ensures { StepsTo (after_gap false) bytes.now at result }
{
    if is_space(bytes[at]) {
        return at + 1;
    }
    if bytes[at] == b'\\' && continues(bytes, at + 1) {
        return newline_end(bytes, at + 1);
    }
    at
}

/// The place after the spaces and continued lines that stand at a place.
#[tactic(auto, using(crate::proofs::GapFacts::reached_none, crate::proofs::GapFacts::reached_more, crate::proofs::GapFacts::reached_stays, crate::proofs::GapFacts::reached_end))]
pub fn gap_end(bytes: &[u8], from: usize) -> usize
    requires { from ≤ length bytes.now }
    ensures { LeadsTo bytes.now from result (after_gap false (drop from bytes.now)) }
{
    let mut at = from;
    while at < bytes.len() {
        let next = gap_step(bytes, at);
        if next == at {
            return at;
        }
        at = next;
    }
    at
}

/// The place after what a backslash right before a place takes out of a comment.
#[tactic(auto, using(crate::proofs::BetweenFacts::taken_end_moves, crate::proofs::BetweenFacts::taken_pair_moves, crate::proofs::BetweenFacts::taken_one_moves, crate::proofs::GapFacts::second_newline))]
fn taken_end(bytes: &[u8], at: usize) -> usize
    requires { at ≤ length bytes.now }
    ensures { Moves (from_command taken) (from_command comment) bytes.now at result }
{
    if at == bytes.len() {
        return at;
    }
    if bytes[at] == b'\r' && stands_at(bytes, at + 1, b'\n') {
        return at + 2;
    }
    at + 1
}

/// The place after a byte of a comment, and what it takes out where it is a backslash.
#[tactic(auto, using(crate::proofs::BetweenFacts::comment_taken_moves, crate::proofs::BetweenFacts::comment_one_moves))]
fn comment_step(bytes: &[u8], at: usize) -> usize
    requires within { at < length bytes.now }
    requires inside { (slice_index bytes.now at == 10) ≡ false }
    ensures moves { Moves (from_command comment) (from_command comment) bytes.now at result }
    ensures further { at < result }
{
    if bytes[at] == b'\\' {
        return taken_end(bytes, at + 1);
    }
    at + 1
}

/// The place of the newline that ends a comment, or of the end of the text, from a place in the comment on.
#[tactic(auto, using(crate::proofs::BetweenFacts::moves_none, crate::proofs::BetweenFacts::moves_more, crate::proofs::BetweenFacts::comment_ends, crate::proofs::BetweenFacts::comment_keeps))]
fn comment_end(bytes: &[u8], from: usize) -> usize
    requires { from ≤ length bytes.now }
    ensures moves { Moves (from_command comment) (from_command parting) bytes.now from result }
    ensures keeps { Keeps bytes.now from result }
{
    let mut at = from;
    while at < bytes.len() && bytes[at] != b'\n' {
        at = comment_step(bytes, at);
    }
    at
}

/// Whether a byte parts commands: a space or an end.
fn is_parting(byte: u8) -> bool
    ensures { result ≡ (space byte || end byte) }
{
    is_space(byte) || is_end(byte)
}

/// The place after a part of what stands between commands at a place, or the place where a command begins there.
#[tactic(auto, using(crate::proofs::BetweenFacts::parting_steps_one, crate::proofs::BetweenFacts::parting_steps_comment, crate::proofs::BetweenFacts::parting_steps_continued, crate::proofs::BetweenFacts::parting_steps_none))]
fn parting_step(bytes: &[u8], at: usize) -> usize
    requires { at < length bytes.now }
    ensures { StepsTo (from_command parting) bytes.now at result }
{
    let byte = bytes[at];
    if is_parting(byte) {
        return at + 1;
    }
    if byte == b'#' {
        return comment_end(bytes, at + 1);
    }
    if byte == b'\\' && continues(bytes, at + 1) {
        return at + 1;
    }
    at
}

/// The place where the first command at or after a place begins, or the end of the text.
#[tactic(auto, using(crate::proofs::GapFacts::reached_none, crate::proofs::GapFacts::reached_more, crate::proofs::GapFacts::reached_stays, crate::proofs::GapFacts::reached_end, crate::proofs::BetweenFacts::from_command_nil))]
pub fn command_start(bytes: &[u8], from: usize) -> usize
    requires { from ≤ length bytes.now }
    ensures { LeadsTo bytes.now from result (from_command parting (drop from bytes.now)) }
{
    let mut at = from;
    while at < bytes.len() {
        let next = parting_step(bytes, at);
        if next == at {
            return at;
        }
        at = next;
    }
    at
}
