//! Kinds of bytes, and what stands at a place of a text.

ghost use Rattle.std.specs.Prelude.{◌≡◌, ◌≤◌, ◌||◌, length, drop};
ghost use Rattle.text_model.specs.Bytes.{is_end as end, is_space as space, leads_word as leads, begins_with};
ghost use Rattle.text_model.specs.Continued.{continues as goes_on};
ghost use Rattle.tcl_model.specs.Commands.{may_follow as follows};
ghost use Rattle.tcl_words.specs.Spans.{ends_command};

/// Whether a byte parts words: a space, a tab or a carriage return.
pub fn is_space(byte: u8) -> bool
    ensures { result ≡ space byte }
{
    byte == b' ' || byte == b'\t' || byte == b'\r'
}

/// Whether a byte ends a command: a newline or `;`.
pub fn is_end(byte: u8) -> bool
    ensures { result ≡ end byte }
{
    byte == b'\n' || byte == b';'
}

/// Whether a word may begin after a byte, inside brackets.
pub fn leads_word(byte: u8) -> bool
    ensures { result ≡ leads byte }
{
    byte == b'[' || is_space(byte) || is_end(byte)
}

/// Whether a byte stands at a place.
pub fn stands_at(bytes: &[u8], at: usize, byte: u8) -> bool
    ensures { result ≡ begins_with byte (drop at bytes.now) }
{
    at < bytes.len() && bytes[at] == byte
}

/// Whether a line is continued by a backslash before a place: a newline stands there, or a carriage return and
/// a newline.
pub fn continues(bytes: &[u8], at: usize) -> bool
    requires { at ≤ length bytes.now }
    ensures { result ≡ goes_on (drop at bytes.now) }
{
    if at == bytes.len() {
        return false;
    }
    bytes[at] == b'\n' || (bytes[at] == b'\r' && stands_at(bytes, at + 1, b'\n'))
}

/// Whether a word that a brace or quote closes may end before a place.
pub fn may_follow(bytes: &[u8], at: usize) -> bool
    requires { at ≤ length bytes.now }
    ensures { result ≡ follows (drop at bytes.now) }
{
    if at == bytes.len() {
        return true;
    }
    is_space(bytes[at]) || is_end(bytes[at]) || (bytes[at] == b'\\' && continues(bytes, at + 1))
}

/// Whether a command ends at a place, with the text or with a byte that ends it.
pub fn command_ends(bytes: &[u8], at: usize) -> bool
    requires { at ≤ length bytes.now }
    ensures { result ≡ ends_command (drop at bytes.now) }
{
    at == bytes.len() || is_end(bytes[at])
}
