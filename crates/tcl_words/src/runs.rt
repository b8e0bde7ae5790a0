//! Runs of bytes of one kind in a text.

ghost use Rattle.std.specs.Prelude.{◌≡◌, ◌≤◌, length, drop};
ghost use Rattle.text_model.specs.Bytes.{after};
ghost use Rattle.tcl_model.specs.Pieces.{ends_word, substitutes};
ghost use Rattle.tcl_words.specs.Forms.{form_of, test_of, CutsAfter};
ghost use Rattle.tcl_words.specs.Spans.{LeadsTo};

use crate::scan::{is_end, is_space};

/// The form of a word.
#[derive(Clone, Copy)]
pub enum Form {
    /// In `{` and `}`
    Braced,
    /// In quotes
    Quoted,
    /// In neither
    Bare,
}

impl Form {
    /// Whether a byte ends a word of the form.
    pub fn ends(self, byte: u8) -> bool
        ensures { result ≡ ends_word (form_of self) byte }
    {
        match self {
            Form::Braced => false,
            Form::Quoted => byte == b'"',
            Form::Bare => is_space(byte) || is_end(byte),
        }
    }

    /// Whether a byte begins a substitution in a word of the form.
    pub fn substitutes(self, byte: u8) -> bool
        ensures { result ≡ substitutes (form_of self) byte }
    {
        match self {
            Form::Braced => false,
            Form::Quoted => byte == b'$' || byte == b'[',
            Form::Bare => byte == b'$' || byte == b'[',
        }
    }
}

/// A kind of bytes that stand in a run.
#[derive(Clone, Copy)]
pub enum Run {
    /// What parts words
    Spaces,
    /// Letters, digits and `_`
    Name,
    /// All but `}`
    BeforeBrace,
    /// What stands for itself in a word of a form
    Plain(Form),
}

impl Run {
    /// Whether a byte is of the kind.
    pub fn has(self, byte: u8) -> bool
        ensures { result ≡ test_of self byte }
    {
        match self {
            Run::Spaces => is_space(byte),
            Run::Name => byte.is_ascii_alphanumeric() || byte == b'_',
            Run::BeforeBrace => byte != b'}',
            Run::Plain(form) => !(form.ends(byte) || byte == b'\\' || form.substitutes(byte)),
        }
    }
}

/// The place after the bytes of a kind that stand at a place.
pub fn run_end(bytes: &[u8], from: usize, run: Run) -> usize
    requires { from ≤ length bytes.now }
    ensures leads { LeadsTo bytes.now from result (after (test_of run) (drop from bytes.now)) }
    ensures cuts { CutsAfter run bytes.now result }
{
    let mut at = from;
    while at < bytes.len() && run.has(bytes[at]) {
        at += 1;
    }
    at
}
