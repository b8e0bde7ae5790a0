//! The tokens of a library's text.

ghost use Rattle.std.specs.Prelude.{◌≡◌, ◌==◌};
ghost use Rattle.std.specs.List.{list_any};
ghost use Rattle.library_model.specs.LibertyGrammar.{sign_of};
ghost use Rattle.library_model.specs.LibertyStatements.{is_first_on_line as first_on_line};
ghost use Rattle.lib_cells.specs.Seen.{token_seen};

/// The form of a token.
#[derive(Clone, Copy, PartialEq, Eq)]
pub enum Form {
    /// A name or a number.
    Bare,
    /// A text in quotes.
    Quoted,
    /// `(`, `)`, `{`, `}`, `:`, `;` or `,`
    Sign,
}

/// A token: what parts it from the one before it, its line, counted from 1, and its text, of a quoted one what stands
/// in the quotes. A comment and the end of a continued line are one blank in it.
#[derive(Clone, Copy)]
pub struct Token<'a> {
    pub gap: &'a str,
    pub line: u32,
    pub form: Form,
    pub text: &'a str,
}

impl Token<'_> {
    /// The byte of a sign, and 0 of any other token.
    pub fn sign(&self) -> u8
        ensures { result ≡ sign_of (token_seen self.now) }
    {
        match (self.form, self.text.as_bytes()) {
            (Form::Sign, [byte, ..]) => *byte,
            _ => 0,
        }
    }

    /// Whether the token is the first one on its line.
    pub fn is_first_on_line(&self) -> bool
        ensures { result ≡ first_on_line (token_seen self.now) }
    {
        ends_line(self.gap)
    }
}

/// Whether a line ends in a text.
pub fn ends_line(text: &str) -> bool
    ensures { result ≡ list_any (λ byte. byte == 10) text.now }
{
    text.as_bytes().iter().any(|byte| *byte == b'\n')
}
