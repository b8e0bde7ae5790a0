//! Lines worked out by hand.
use text_lines::{last_line, line_at, no_text_line};

/// The line at a place of a text, counted from another one and its line, where neither is after the end.
fn line_within(text: &str, from: usize, to: usize, first: u32) -> Option<u32> {
    if from > to || to > text.len() {
        return None;
    }
    Some(line_at(text.as_bytes(), from, to, first))
}

/// The line of the first byte that is no UTF-8, where there is one.
fn broken_line(bytes: &[u8]) -> Option<u32> {
    match str::from_utf8(bytes) {
        Ok(_) => None,
        Err(error) => Some(no_text_line(bytes, error.valid_up_to())),
    }
}

#[test]
fn lines_of_places(rt: HostRuntime) {
    for (text, from, to, first, line) in [
        ("", 0, 0, 1, 1),
        ("a\nb\n", 0, 0, 7, 7),
        ("a\nb\n", 0, 1, 1, 1),
        ("a\nb\n", 0, 2, 1, 2),
        ("a\nb\n", 0, 4, 1, 3),
        ("a\nb\n", 2, 4, 2, 3),
        ("\r\n\r\n", 0, 3, 1, 2),
        ("\n\n\n", 1, 3, 5, 7),
        // the greatest number of a line stays
        ("\n\n\n", 0, 3, u32::MAX - 1, u32::MAX),
        ("a\n", 0, 1, u32::MAX, u32::MAX),
    ] {
        let found = line_within(text, from, to, first);
        assert_eq!(rt; found, Some(line), "{text:?} from {from} to {to}");
    }
}

#[test]
fn lines_of_last_bytes(rt: HostRuntime) {
    for (text, line) in [
        ("", 1),
        ("a", 1),
        ("\n", 1),
        ("a\n", 1),
        ("a\nb", 2),
        ("\n\n", 2),
        ("a\r\nb\r\n", 2),
        ("\n\n\n ", 4),
    ] {
        assert_eq!(rt; last_line(text.as_bytes()), line, "{text:?}");
    }
}

#[test]
fn lines_of_bytes_that_are_no_text(rt: HostRuntime) {
    for (bytes, line) in [
        (b"\xff\n\n\n", Some(1)),
        (b"\n\n\xc3\n", Some(3)),
        (b"a\n\xc3\xa9", None),
        (b"\n\xc3\xa9\x80", Some(2)),
    ] {
        assert_eq!(rt; broken_line(bytes), line, "{bytes:?}");
    }
}
