//! Kinds of bytes in a library's text, and how far bytes of one kind reach.

ghost use Rattle.std.specs.Prelude.{◌≡◌, ◌≤◌, ◌-◌, ◌^◌};
ghost use Rattle.std.specs.List.{prefix_len};
ghost use Rattle.library_model.specs.LibertyTokens.{brackets_after as depth_after, is_bare_byte as bare_byte, is_sign as sign_byte, parts as parting_byte};
ghost use Rattle.lib_cells.specs.Scan.{bare_bytes, is_no_quote};

/// Whether a byte parts tokens, and words within one: a space, a tab, a carriage return or a newline.
pub fn parts(byte: u8) -> bool
    ensures { result ≡ parting_byte byte }
{
    byte == b' ' || byte == b'\t' || byte == b'\r' || byte == b'\n'
}

/// Whether a byte is a sign wherever it stands.
fn is_sign(byte: u8) -> bool
    ensures { result ≡ sign_byte byte }
{
    byte == b'(' || byte == b')' || byte == b'{' || byte == b'}' || byte == b';' || byte == b','
}

/// Whether a name or number may have a byte, inside so many square brackets.
pub fn is_bare_byte(brackets: usize, byte: u8) -> bool
    ensures { result ≡ bare_byte brackets byte }
{
    !(parts(byte) || is_sign(byte) || byte == b'"' || (byte == b':' && brackets == 0))
}

/// The number of square brackets that are open after a byte.
fn brackets_after(byte: u8, brackets: usize) -> usize
    requires { brackets ≤ 2 ^ 64 - 2 }
    ensures { result ≡ depth_after byte brackets }
{
    if byte == b'[' {
        return brackets + 1;
    }
    if byte == b']' {
        return brackets.saturating_sub(1);
    }
    brackets
}

/// The number of bytes at the front of a text that part tokens.
pub fn gap_len(text: &[u8]) -> usize
    ensures { result ≡ prefix_len parting_byte text.now }
{
    text.iter().take_while(|byte| parts(**byte)).count()
}

/// The number of bytes at the front of a text before the first quote.
pub fn quote_len(text: &[u8]) -> usize
    ensures { result ≡ prefix_len is_no_quote text.now }
{
    text.iter().take_while(|byte| **byte != b'"').count()
}

/// The number of bytes of the name or number at the front of a text.
#[tactic(auto, using(crate::proofs::ScanFacts::bare_none, crate::proofs::ScanFacts::bare_more, crate::proofs::ScanFacts::bare_stops, crate::proofs::ScanFacts::bare_all))]
pub fn bare_len(text: &[u8]) -> usize
    ensures { result ≡ bare_bytes 0 text.now }
{
    let mut brackets = 0;
    let mut len = 0;
    while len < text.len() {
        if !is_bare_byte(brackets, text[len]) {
            return len;
        }
        brackets = brackets_after(text[len], brackets);
        len += 1;
    }
    len
}
