//! The line after a text, and the lines of its places.

ghost use Rattle.std.specs.Prelude.{◌≡◌, ◌≤◌, ◌+◌, ◌-◌, ◌==◌, drop, length, min, take, if◌then◌else◌};
ghost use Rattle.std.specs.Str.Lossy.{utf8_valid_len};
ghost use Rattle.text_model.specs.Bytes.{last_line as greatest_line, line_after as line_after_text};
ghost use Rattle.text_model.specs.LastLine.{broken_text_line, last_line_of};

/// The line after a byte on a line. The greatest line number stays.
pub fn line_past(byte: u8, line: u32) -> u32
    ensures { result ≡ (if byte == 10 then min (line + 1) greatest_line else line) }
{
    if byte == b'\n' {
        return line.saturating_add(1);
    }
    line
}

/// The line after a text that begins on a line.
fn line_after(text: &[u8], first: u32) -> u32
    ensures { result ≡ line_after_text text.now first }
{
    let mut line = first;
    for byte in text {
        line = line_past(*byte, line);
    }
    line
}

/// The line at a place, counted from another one and its line.
pub fn line_at(bytes: &[u8], from: usize, to: usize, first: u32) -> u32
    requires forward { from ≤ to }
    requires within { to ≤ length bytes.now }
    ensures { result ≡ line_after_text (take (to - from) (drop from bytes.now)) first }
{
    line_after(&bytes[from..to], first)
}

/// The line of the last byte of a text, and 1 where it is empty. A newline belongs to the line that it ends.
pub fn last_line(text: &[u8]) -> u32
    ensures { result ≡ last_line_of text.now 1 }
{
    line_at(text, 0, text.len().saturating_sub(1), 1)
}

/// The line of the first byte that is no UTF-8, given the number of those before it.
#[tactic(auto, using(std::proofs::lemmas::Str::utf8_valid_len_le))]
pub fn no_text_line(bytes: &[u8], valid: usize) -> u32
    requires { valid ≡ utf8_valid_len bytes.now }
    ensures { result ≡ broken_text_line bytes.now }
{
    line_at(bytes, 0, valid, 1)
}
