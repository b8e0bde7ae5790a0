//! Runs of bytes of one kind in a text.

ghost use Rattle.std.specs.Prelude.{◌≡◌, ◌≤◌, ◌<◌, ◌+◌, true, drop, length, not, slice_index, take, ◌∷◌, []};
ghost use Rattle.std.specs.List.{prefix_len};
ghost use Rattle.std.specs.Str.{IsCharBoundary};
ghost use Rattle.netlist_model.specs.VerilogTokens as grammar;
ghost use Rattle.verilog_net.specs.Runs.{test_of};

use crate::lexing::bytes::{is_blank, is_digits_byte, is_number_byte, is_word_byte};

/// A kind of bytes that stand in a run, all of them ASCII.
#[derive(Clone, Copy)]
pub enum Run {
    /// A name or a keyword.
    Word,
    /// A number.
    Number,
    /// The digits after a base.
    Digits,
}

impl Run {
    /// Whether a byte is of the kind.
    pub fn has(self, byte: u8) -> bool
        ensures { result ≡ test_of self byte }
    {
        match self {
            Run::Word => is_word_byte(byte),
            Run::Number => is_number_byte(byte),
            Run::Digits => is_digits_byte(byte),
        }
    }
}

/// The bytes from a place on.
#[tactic(auto, using(crate::proofs::RunFacts::rest_is))]
fn rest(bytes: &[u8], at: usize) -> &[u8]
    requires { at ≤ length bytes.now }
    ensures { result.now ≡ drop at bytes.now }
{
    &bytes[at..]
}

/// The number of bytes of a kind that stand at a place.
#[tactic(auto, using(crate::proofs::RunFacts::run_fits))]
fn run_len(bytes: &[u8], at: usize, run: Run) -> usize
    requires { at ≤ length bytes.now }
    ensures is { result ≡ prefix_len (test_of run) (drop at bytes.now) }
    ensures within { at + result ≤ length bytes.now }
{
    rest(bytes, at)
        .iter()
        .take_while(|byte| run.has(**byte))
        .count()
}

/// The number of bytes from a place to the first blank.
#[tactic(auto, using(crate::proofs::RunFacts::name_fits))]
fn name_len(bytes: &[u8], at: usize) -> usize
    requires { at ≤ length bytes.now }
    ensures is { result ≡ prefix_len (λ b. not (grammar.is_blank b)) (drop at bytes.now) }
    ensures within { at + result ≤ length bytes.now }
{
    rest(bytes, at)
        .iter()
        .take_while(|byte| !is_blank(**byte))
        .count()
}

/// The bytes of a text from a place on, as many as said.
fn piece(text: &str, from: usize, len: usize) -> &str
    requires within { from + len ≤ length text.now }
    requires from { IsCharBoundary text.now from }
    requires to { IsCharBoundary text.now (from + len) }
    ensures is { result.now ≡ take len (drop from text.now) }
    ensures len { length result.now ≡ len }
{
    &text[from..from + len]
}

/// The bytes of a kind that stand at a place of a text, one or more.
#[tactic(auto, using(crate::proofs::RunFacts::run_begins, crate::proofs::RunFacts::run_some))]
pub fn run_at(text: &str, at: usize, run: Run) -> &str
    requires within { at < length text.now }
    requires first { test_of run (slice_index text.now at) ≡ true }
    ensures is { result.now ≡ take (prefix_len (test_of run) (drop at text.now)) (drop at text.now) }
    ensures len { length result.now ≡ prefix_len (test_of run) (drop at text.now) }
    ensures some { 0 < length result.now }
    ensures within { at + length result.now ≤ length text.now }
{
    let len = run_len(text.as_bytes(), at, run);
    piece(text, at, len)
}

/// The name that stands at a place of a text, up to a blank.
#[tactic(auto, using(crate::proofs::RunFacts::name_cuts))]
pub fn name_at(text: &str, at: usize) -> &str
    requires within { at ≤ length text.now }
    requires boundary { IsCharBoundary text.now at }
    ensures is { result.now ≡ take (prefix_len (λ b. not (grammar.is_blank b)) (drop at text.now)) (drop at text.now) }
    ensures len { length result.now ≡ prefix_len (λ b. not (grammar.is_blank b)) (drop at text.now) }
    ensures within { at + length result.now ≤ length text.now }
{
    let len = name_len(text.as_bytes(), at);
    piece(text, at, len)
}

/// One ASCII byte of a text.
#[tactic(auto, using(crate::proofs::RunFacts::ascii_begins, crate::proofs::RunFacts::one_byte))]
pub fn byte_at(text: &str, at: usize) -> &str
    requires within { at < length text.now }
    requires ascii { slice_index text.now at < 128 }
    ensures { result.now ≡ slice_index text.now at ∷ [] }
{
    piece(text, at, 1)
}
