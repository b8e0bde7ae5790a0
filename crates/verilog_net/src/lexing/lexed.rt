//! The token that begins at a place of a text.

ghost use Rattle.std.specs.Prelude.{◌≡◌, ◌<◌, ◌+◌, ◌∷◌, true, None, Some, [], drop, length, slice_index};
ghost use Rattle.text_model.specs.Bytes.{is_digit};
ghost use Rattle.netlist_model.specs.VerilogConstants.{is_digits_byte as is_digit_of_base};
ghost use Rattle.netlist_model.specs.VerilogTokens as grammar;
ghost use Rattle.verilog_net.specs.Seen.{IsLexed, has_base_letter};

use crate::lexing::bytes::{begins_word, is_base_letter, is_decimal, is_digits_byte, lower};
use crate::lexing::numbers::{are_digits, number_kind};
use crate::lexing::runs::{Run, byte_at, name_at, run_at};
use crate::lexing::words::word_kind;
use source_types::VerilogToken;

/// A token: its kind, its text, the small letter where it is a base, and the place after it.
#[derive(Clone, Copy)]
pub struct Lexed<'a> {
    pub kind: VerilogToken,
    pub text: &'a str,
    pub base: Option<u8>,
    pub next: usize,
}

/// A token of some text that is no base.
fn plain(kind: VerilogToken, text: &str, next: usize) -> Lexed<'_>
    ensures kind { result.kind ≡ kind }
    ensures text { result.text.now ≡ text.now }
    ensures base { result.base ≡ None }
    ensures next { result.next ≡ next }
{
    Lexed {
        kind,
        text,
        base: None,
        next,
    }
}

/// A name or a keyword, whose first byte stands at a place.
#[tactic(auto, using(crate::proofs::LexedFacts::word_lexed, crate::proofs::LexedFacts::word_byte))]
fn word_token(text: &str, at: usize) -> Lexed<'_>
    requires within { at < length text.now }
    requires first { grammar.begins_word (slice_index text.now at) ≡ true }
    ensures { IsLexed text.now at (grammar.word_token (slice_index text.now at ∷ drop (at + 1) text.now)) result }
{
    let word = run_at(text, at, Run::Word);
    plain(word_kind(word), word, at + word.len())
}

/// A number, whose first byte stands at a place.
#[tactic(auto, using(crate::proofs::LexedFacts::number_lexed, crate::proofs::LexedFacts::number_byte))]
fn number_token(text: &str, at: usize) -> Lexed<'_>
    requires within { at < length text.now }
    requires first { is_digit (slice_index text.now at) ≡ true }
    ensures { IsLexed text.now at (grammar.number_token (slice_index text.now at ∷ drop (at + 1) text.now)) result }
{
    let number = run_at(text, at, Run::Number);
    plain(number_kind(number.as_bytes()), number, at + number.len())
}

/// The digits after a base of a letter, whose first byte stands at a place.
#[tactic(auto, using(crate::proofs::LexedFacts::digits_lexed))]
fn digits_token(text: &str, at: usize, letter: u8) -> Lexed<'_>
    requires within { at < length text.now }
    requires first { is_digit_of_base (slice_index text.now at) ≡ true }
    ensures { IsLexed text.now at (grammar.digits_token letter (slice_index text.now at ∷ drop (at + 1) text.now)) result }
{
    let digits = run_at(text, at, Run::Digits);
    plain(
        digits_kind(letter, digits.as_bytes()),
        digits,
        at + digits.len(),
    )
}

/// The kind of digits after a base of a letter.
fn digits_kind(letter: u8, digits: &[u8]) -> VerilogToken
    ensures { result ≡ grammar.digits_kind letter digits.now }
{
    if are_digits(letter, digits) {
        VerilogToken::Digits
    } else {
        VerilogToken::Other
    }
}

/// An escaped name, whose backslash stands at a place.
#[tactic(auto, using(crate::proofs::LexedFacts::escaped_lexed, crate::proofs::LexedFacts::after_backslash))]
fn escaped_token(text: &str, at: usize) -> Lexed<'_>
    requires within { at < length text.now }
    requires first { slice_index text.now at ≡ 92 }
    ensures { IsLexed text.now at (grammar.escaped_token (drop (at + 1) text.now)) result }
{
    let name = name_at(text, at + 1);
    plain(VerilogToken::Name, name, at + 1 + name.len())
}

/// Whether the letter of a base stands at a place.
fn has_base_letter(text: &str, at: usize) -> bool
    ensures { result ≡ has_base_letter text.now at }
{
    at < text.len() && is_base_letter(text.as_bytes()[at])
}

/// A base, whose apostrophe stands at a place.
#[tactic(auto, using(crate::proofs::LexedFacts::base_lexed, crate::proofs::LexedFacts::no_base_lexed, crate::proofs::LexedFacts::base_within, crate::proofs::LexedFacts::base_ascii))]
fn base_token(text: &str, at: usize) -> Lexed<'_>
    requires within { at < length text.now }
    ensures { IsLexed text.now at (grammar.base_token (drop (at + 1) text.now)) result }
{
    if !has_base_letter(text, at + 1) {
        return plain(VerilogToken::Other, "", at + 1);
    }
    Lexed {
        kind: VerilogToken::Base,
        text: byte_at(text, at + 1),
        base: Some(lower(text.as_bytes()[at + 1])),
        next: at + 2,
    }
}

/// The kind of a mark of one byte.
fn mark_kind(byte: u8) -> VerilogToken
    ensures { result ≡ grammar.mark_kind byte }
{
    match byte {
        b'(' => VerilogToken::Open,
        b')' => VerilogToken::Close,
        b'[' => VerilogToken::OpenBracket,
        b']' => VerilogToken::CloseBracket,
        b'{' => VerilogToken::OpenBrace,
        b'}' => VerilogToken::CloseBrace,
        b',' => VerilogToken::Comma,
        b':' => VerilogToken::Colon,
        b';' => VerilogToken::Semicolon,
        b'.' => VerilogToken::Dot,
        b'=' => VerilogToken::Equals,
        _ => VerilogToken::Other,
    }
}

/// A mark of one byte at a place.
#[tactic(auto, using(crate::proofs::LexedFacts::mark_lexed))]
fn mark_token(text: &str, at: usize) -> Lexed<'_>
    requires within { at < length text.now }
    ensures { IsLexed text.now at (grammar.plain (grammar.mark_kind (slice_index text.now at)) [] (drop (at + 1) text.now)) result }
{
    plain(mark_kind(text.as_bytes()[at]), "", at + 1)
}

/// The token that begins at a place, which is not after a base.
fn plain_token(text: &str, at: usize) -> Lexed<'_>
    requires within { at < length text.now }
    ensures { IsLexed text.now at (grammar.plain_token (slice_index text.now at) (drop (at + 1) text.now)) result }
{
    let byte = text.as_bytes()[at];
    if begins_word(byte) {
        return word_token(text, at);
    }
    if is_decimal(byte) {
        return number_token(text, at);
    }
    if byte == b'\\' {
        return escaped_token(text, at);
    }
    if byte == b'\'' {
        return base_token(text, at);
    }
    mark_token(text, at)
}

/// The token that begins at a place, after a base of a letter or not.
pub fn token_after(text: &str, at: usize, base: Option<u8>) -> Lexed<'_>
    requires within { at < length text.now }
    ensures { IsLexed text.now at (grammar.token_after base (slice_index text.now at) (drop (at + 1) text.now)) result }
{
    match base {
        Some(letter) => after_base(text, at, letter),
        None => plain_token(text, at),
    }
}

/// The token that begins at a place after a base of a letter.
fn after_base(text: &str, at: usize, letter: u8) -> Lexed<'_>
    requires within { at < length text.now }
    ensures { IsLexed text.now at (grammar.token_after (Some letter) (slice_index text.now at) (drop (at + 1) text.now)) result }
{
    if is_digits_byte(text.as_bytes()[at]) {
        return digits_token(text, at, letter);
    }
    plain_token(text, at)
}
