//! What is left of a text's characters.

ghost use Rattle.std.specs.Prelude.{◌≡◌, take, drop, get_or};
ghost use Rattle.std.specs.Str.{IsCharBoundary};

/// The characters that are left of a text: their bytes, and the line of each.
#[derive(Clone, Copy)]
pub struct Rest<'a> {
    pub text: &'a str,
    pub lines: &'a [u32],
}

impl<'a> Rest<'a> {
    /// The characters at the front as a text, and those after them.
    pub fn split_at(self, len: usize) -> (&'a str, Rest<'a>)
        requires { IsCharBoundary self.text.now len }
        ensures front { result.0.now ≡ take len self.entry.text.now }
        ensures text { result.1.text.now ≡ drop len self.entry.text.now }
        ensures lines { result.1.lines.now ≡ drop len self.entry.lines.now }
    {
        let (front, text) = self.text.split_at(len);
        let lines = lines_after(self.lines, len);
        (front, Rest { text, lines })
    }

    /// The line of the first character, and 1 where there is none.
    pub fn line(self) -> u32
        ensures { result ≡ get_or self.entry.lines.now 0 1 }
    {
        match self.lines {
            [line, ..] => *line,
            [] => 1,
        }
    }
}

/// The lines after the first ones.
#[tactic(auto, using(crate::proofs::RestFacts::drop_least))]
fn lines_after(lines: &[u32], len: usize) -> &[u32]
    ensures { result.now ≡ drop len lines.now }
{
    let (_, after) = lines.split_at(len.min(lines.len()));
    after
}
