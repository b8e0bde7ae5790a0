//! What stands between tokens: blanks, comments, attributes and directive lines.

ghost use Rattle.std.specs.Prelude.{◌≡◌, ◌≤◌, ◌<◌, drop, length, slice_index, ◌+◌, ◌==◌, IfSome, Some, if◌then◌else◌};
ghost use Rattle.std.specs.Option.{option_map};
ghost use Rattle.netlist_model.specs.VerilogTokens as grammar;
ghost use Rattle.verilog_net.specs.Seen.{gap_seen, rest_seen};

use crate::lexing::bytes::{is_blank, stands_at};

/// What is being passed over.
#[derive(Clone, Copy)]
pub enum Gap {
    /// Nothing yet.
    Between,
    /// The rest of a line.
    RestOfLine,
    /// The second byte of what opens a comment or an attribute; a star and this byte close it.
    Opens(u8),
    /// What a star and this byte close.
    Inside(u8),
    /// The last byte of what closes it.
    Closes,
}

/// The byte after a star that closes what a byte at a place and the next one open.
fn closing(bytes: &[u8], at: usize) -> Option<u8>
    requires { at < length bytes.now }
    ensures { result ≡ grammar.closing (slice_index bytes.now at) (drop (at + 1) bytes.now) }
{
    if !stands_at(bytes, at + 1, b'*') {
        return None;
    }
    match bytes[at] {
        b'/' => Some(b'/'),
        b'(' => Some(b')'),
        _ => None,
    }
}

/// Whether a byte at a place, or it and the next one, open what goes on to the end of the line.
fn opens_line(bytes: &[u8], at: usize) -> bool
    requires { at < length bytes.now }
    ensures { result ≡ grammar.opens_line (slice_index bytes.now at) (drop (at + 1) bytes.now) }
{
    bytes[at] == b'`' || (bytes[at] == b'/' && stands_at(bytes, at + 1, b'/'))
}

/// What is passed over after a byte at a place, where nothing is being passed over yet, or `None` where a token
/// begins there.
fn opened(bytes: &[u8], at: usize) -> Option<Gap>
    requires { at < length bytes.now }
    ensures { option_map gap_seen result ≡ grammar.gap_after grammar.between (slice_index bytes.now at) (drop (at + 1) bytes.now) }
{
    if is_blank(bytes[at]) {
        return Some(Gap::Between);
    }
    if opens_line(bytes, at) {
        return Some(Gap::RestOfLine);
    }
    match closing(bytes, at) {
        Some(close) => Some(Gap::Opens(close)),
        None => None,
    }
}

/// What is passed over after a byte of the rest of a line.
fn line_goes_on(byte: u8) -> Gap
    ensures { gap_seen result ≡ (if byte == 10 then grammar.between else grammar.rest_of_line) }
{
    if byte == b'\n' {
        Gap::Between
    } else {
        Gap::RestOfLine
    }
}

/// What is passed over after a byte at a place, inside what a star and another byte close.
fn inner_goes_on(bytes: &[u8], at: usize, close: u8) -> Gap
    requires { at < length bytes.now }
    ensures { option_map gap_seen (Some result) ≡ grammar.gap_after (grammar.inside close) (slice_index bytes.now at) (drop (at + 1) bytes.now) }
{
    if bytes[at] == b'*' && stands_at(bytes, at + 1, close) {
        Gap::Closes
    } else {
        Gap::Inside(close)
    }
}

/// What is passed over after a byte at a place, or `None` where a token begins there.
fn gap_after(gap: Gap, bytes: &[u8], at: usize) -> Option<Gap>
    requires { at < length bytes.now }
    ensures { option_map gap_seen result ≡ grammar.gap_after (gap_seen gap) (slice_index bytes.now at) (drop (at + 1) bytes.now) }
{
    match gap {
        Gap::Between => opened(bytes, at),
        Gap::RestOfLine => Some(line_goes_on(bytes[at])),
        Gap::Opens(close) => Some(Gap::Inside(close)),
        Gap::Inside(close) => Some(inner_goes_on(bytes, at, close)),
        Gap::Closes => Some(Gap::Between),
    }
}

/// The end of a text after a gap, or `None` in a comment or an attribute that has no end.
fn ended(gap: Gap, at: usize) -> Option<usize>
    ensures is { result ≡ option_map (λ rest. at) (grammar.ended_gap (gap_seen gap)) }
    ensures at { IfSome result (λ end. end ≡ at) }
{
    match gap {
        Gap::Between => Some(at),
        Gap::RestOfLine => Some(at),
        Gap::Opens(_) => None,
        Gap::Inside(_) => None,
        Gap::Closes => Some(at),
    }
}

/// The place where the first token at or after a place begins, or the end of the text; `None` where a comment or
/// an attribute has no end.
#[tactic(auto, using(crate::proofs::GapFacts::gap_begins, crate::proofs::GapFacts::gap_goes_on, crate::proofs::GapFacts::gap_stays, crate::proofs::GapFacts::gap_ends))]
pub fn gap_end(bytes: &[u8], from: usize) -> Option<usize>
    requires { from ≤ length bytes.now }
    ensures is { rest_seen bytes.now result ≡ grammar.after_gap grammar.between (drop from bytes.now) }
    ensures forward { IfSome result (λ at. from ≤ at) }
    ensures within { IfSome result (λ at. at ≤ length bytes.now) }
{
    let mut gap = Gap::Between;
    let mut at = from;
    while at < bytes.len() {
        let Some(next) = gap_after(gap, bytes, at) else {
            return Some(at);
        };
        gap = next;
        at += 1;
    }
    ended(gap, at)
}
