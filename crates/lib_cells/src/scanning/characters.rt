//! The characters of a library's text: its bytes with their lines, where comments and the ends of continued lines are
//! blanks.

ghost use Rattle.std.specs.Prelude.{◌≡◌, ◌++◌, ◌==◌, ◌∷◌, ◌&&◌, map, IfOk, OnOk, if◌then◌else◌};
ghost use Rattle.text_model.specs.Bytes.{begins_with};
ghost use Rattle.text_model.specs.Continued.{continues as goes_on};
ghost use Rattle.library_model.specs.LibertyTokens.{begins_comment as opens_comment, begins_continued as opens_continued, in_comment_after, is_in_comment, plain, quotes, shown, within_after};
ghost use Rattle.lib_cells.specs.Characters.{as_list, AreCharacters, IsAdded};
ghost use Rattle.lib_cells.specs.Seen.{within_seen};

use sdc_base::{List, NoMemory};
use std::alloc::Global;
use text_lines::line_past;

/// What a byte stands in.
#[derive(Clone, Copy)]
pub enum Within {
    /// None of the others.
    Plain,
    /// A quoted text.
    Quotes,
    /// A comment, at the `*` of its `/*`.
    CommentStart,
    /// A comment.
    Comment,
    /// A comment, after a `*` in it.
    CommentStar,
    /// The end of a continued line.
    Continued,
    /// The end of a continued line in a quoted text.
    ContinuedQuotes,
}

/// Whether a text begins with a byte.
fn begins(text: &[u8], byte: u8) -> bool
    ensures { result ≡ begins_with byte text.now }
{
    match text {
        [first, ..] => *first == byte,
        [] => false,
    }
}

/// Whether a text after a backslash begins as a continued line does: with a newline, or a carriage return and one.
fn continues(text: &[u8]) -> bool
    ensures { result ≡ goes_on text.now }
{
    match text {
        [first, after @ ..] => *first == b'\n' || (*first == b'\r' && begins(after, b'\n')),
        [] => false,
    }
}

/// Whether a byte and the text after it begin a comment.
fn begins_comment(byte: u8, after: &[u8]) -> bool
    ensures { result ≡ opens_comment byte after.now }
{
    byte == b'/' && begins(after, b'*')
}

/// Whether a byte and the text after it continue a line.
fn begins_continued(byte: u8, after: &[u8]) -> bool
    ensures { result ≡ opens_continued byte after.now }
{
    byte == b'\\' && continues(after)
}

/// What the text after a byte of a comment stands in, where the comment does not end with it.
fn after_comment(byte: u8) -> Within
    ensures { within_seen result ≡ in_comment_after byte }
{
    if byte == b'*' {
        return Within::CommentStar;
    }
    Within::Comment
}

impl Within {
    /// Whether this is a comment.
    pub fn is_in_comment(self) -> bool
        ensures { result ≡ is_in_comment (within_seen self) }
    {
        matches!(
            self,
            Within::CommentStart | Within::Comment | Within::CommentStar
        )
    }

    /// What a byte is as a character, if it is one, given the text after it.
    fn shown(self, byte: u8, after: &[u8]) -> Option<u8>
        ensures { as_list result ≡ shown (within_seen self) byte after.now }
    {
        match self {
            Within::Plain => {
                if begins_comment(byte, after) || begins_continued(byte, after) {
                    return Some(b' ');
                }
                Some(byte)
            }
            Within::Quotes => {
                if begins_continued(byte, after) {
                    return Some(b' ');
                }
                Some(byte)
            }
            _ => None,
        }
    }

    /// What the text after a byte stands in.
    fn after(self, byte: u8, after: &[u8]) -> Within
        ensures { within_seen result ≡ within_after (within_seen self) byte after.now }
    {
        match self {
            Within::Plain => plain_after(byte, after),
            Within::Quotes => quotes_after(byte, after),
            Within::CommentStart => Within::Comment,
            Within::Comment => after_comment(byte),
            Within::CommentStar => star_after(byte),
            Within::Continued => continued_after(byte, Within::Continued, Within::Plain),
            Within::ContinuedQuotes => {
                continued_after(byte, Within::ContinuedQuotes, Within::Quotes)
            }
        }
    }
}

/// What the text after a byte stands in that stands in nothing.
fn plain_after(byte: u8, after: &[u8]) -> Within
    ensures { within_seen result ≡ within_after plain byte after.now }
{
    if begins_comment(byte, after) {
        return Within::CommentStart;
    }
    if begins_continued(byte, after) {
        return Within::Continued;
    }
    if byte == b'"' {
        return Within::Quotes;
    }
    Within::Plain
}

/// What the text after a byte of a quoted text stands in.
fn quotes_after(byte: u8, after: &[u8]) -> Within
    ensures { within_seen result ≡ within_after quotes byte after.now }
{
    if begins_continued(byte, after) {
        return Within::ContinuedQuotes;
    }
    if byte == b'"' {
        return Within::Plain;
    }
    Within::Quotes
}

/// What the text after a byte of a comment stands in, after a `*`.
fn star_after(byte: u8) -> Within
    ensures { within_seen result ≡ (if byte == 47 then plain else in_comment_after byte) }
{
    if byte == b'/' {
        return Within::Plain;
    }
    after_comment(byte)
}

/// What the text after a byte stands in at the end of a continued line.
fn continued_after(byte: u8, continued: Within, ended: Within) -> Within
    ensures { within_seen result ≡ (if byte == 10 then within_seen ended else within_seen continued) }
{
    if byte == b'\n' {
        return ended;
    }
    continued
}

/// The characters so far of a text, each with its line, and what the text after them stands in.
#[derive(Drop)]
pub struct Characters {
    pub bytes: List<u8>,
    pub lines: List<u32>,
    pub within: Within,
}

impl Characters {
    /// Adds a byte on a line as what it is as a character, given the text after it. The one error is want of memory.
    fn add(&mut self, byte: u8, after: &[u8], line: u32) -> Result<(), NoMemory>
        ensures { OnOk result (IsAdded self.old self.new byte after.now line) }
    {
        let within = self.within;
        if let Some(shown) = within.shown(byte, after) {
            self.bytes.push(shown)?;
            self.lines.push(line)?;
        }
        self.within = within.after(byte, after);
        Ok(())
    }
}

/// The characters of a text. The one error is want of memory.
#[tactic(auto, using(crate::proofs::CharacterFacts::so_far_none, crate::proofs::CharacterFacts::so_far_more, crate::proofs::CharacterFacts::so_far_all))]
pub fn read_characters(alloc: Global, text: &[u8]) -> Result<Characters, NoMemory>
    ensures { IfOk result (λ found. AreCharacters text.now found) }
{
    let bytes: Vec<u8> = Vec::with_capacity(alloc, text.len())?;
    let lines: Vec<u32> = Vec::with_capacity(alloc, text.len())?;
    let mut found = Characters {
        bytes: List::from(bytes),
        lines: List::from(lines),
        within: Within::Plain,
    };
    let mut line = 1;
    let mut rest = text;
    while let [byte, after @ ..] = rest {
        found.add(*byte, after, line)?;
        line = line_past(*byte, line);
        rest = after;
    }
    Ok(found)
}
