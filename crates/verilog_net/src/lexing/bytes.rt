//! Kinds of bytes of a netlist's text (IEEE 1364-2005, lexical conventions).

ghost use Rattle.std.specs.Prelude.{◌≡◌, drop};
ghost use Rattle.text_model.specs.Bytes.{begins_with};
ghost use Rattle.netlist_model.specs.VerilogConstants as digits;
ghost use Rattle.netlist_model.specs.VerilogTokens as tokens;

/// Whether a byte parts tokens: a space, a tab, a carriage return or a newline.
pub fn is_blank(byte: u8) -> bool
    ensures { result ≡ tokens.is_blank byte }
{
    byte == b' ' || byte == b'\t' || byte == b'\r' || byte == b'\n'
}

/// Whether a byte can begin a name: a letter or `_`.
pub fn begins_word(byte: u8) -> bool
    ensures { result ≡ tokens.begins_word byte }
{
    byte.is_ascii_alphabetic() || byte == b'_'
}

/// Whether a byte can stand in a name: a letter, a digit, `_` or `$`.
pub fn is_word_byte(byte: u8) -> bool
    ensures { result ≡ tokens.is_word_byte byte }
{
    byte.is_ascii_alphanumeric() || byte == b'_' || byte == b'$'
}

/// Whether a byte is a digit or `_`.
pub fn is_number_byte(byte: u8) -> bool
    ensures { result ≡ digits.is_number_byte byte }
{
    byte.is_ascii_digit() || byte == b'_'
}

/// Whether a byte belongs to the digits after a base: a letter, a digit, `_` or `?`.
pub fn is_digits_byte(byte: u8) -> bool
    ensures { result ≡ digits.is_digits_byte byte }
{
    byte.is_ascii_alphabetic() || is_number_byte(byte) || byte == b'?'
}

/// The small letter of a letter, and any other byte itself.
pub fn lower(byte: u8) -> u8
    ensures { result ≡ digits.lower byte }
{
    if byte.is_ascii_uppercase() {
        byte + 32
    } else {
        byte
    }
}

/// Whether a byte is the letter of a base: `b`, `d` or `h`, of either case.
pub fn is_base_letter(byte: u8) -> bool
    ensures { result ≡ digits.is_base_letter byte }
{
    let letter = lower(byte);
    letter == b'b' || letter == b'd' || letter == b'h'
}

/// Whether a digit means no source: `x`, `z` or `?`.
pub fn is_open_digit(byte: u8) -> bool
    ensures { result ≡ digits.is_open_digit byte }
{
    let letter = lower(byte);
    letter == b'x' || letter == b'z' || byte == b'?'
}

/// Whether a byte stands at a place.
pub fn stands_at(bytes: &[u8], at: usize, byte: u8) -> bool
    ensures { result ≡ begins_with byte (drop at bytes.now) }
{
    at < bytes.len() && bytes[at] == byte
}

/// Whether a byte is a binary digit, or one that means no source.
pub fn is_binary(byte: u8) -> bool
    ensures { result ≡ digits.is_binary byte }
{
    byte == b'0' || byte == b'1' || is_open_digit(byte)
}

/// Whether a byte is a decimal digit.
pub fn is_decimal(byte: u8) -> bool
    ensures { result ≡ digits.is_decimal byte }
{
    byte.is_ascii_digit()
}

/// Whether a letter is one of `a` to `f`, of either case.
fn is_hexadecimal_letter(byte: u8) -> bool
    ensures { result ≡ digits.is_hexadecimal_letter byte }
{
    let letter = lower(byte);
    b'a' <= letter && letter <= b'f'
}

/// Whether a byte is a hexadecimal digit, or one that means no source.
pub fn is_hexadecimal(byte: u8) -> bool
    ensures { result ≡ digits.is_hexadecimal byte }
{
    is_decimal(byte) || is_hexadecimal_letter(byte) || is_open_digit(byte)
}
