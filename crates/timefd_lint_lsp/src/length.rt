//! The length of a content, as said by the head before it.

ghost use Rattle.std.specs.Prelude.{◌≡◌, ◌<◌, length, IsTrue};
ghost use Rattle.timefd_lint_lsp.specs.Lengths as spec;

// The name of the line with the length, and the colon that ends the name.
const NAME: &[u8] = b"content-length:";

// A number that is at least this long takes no further digit.
const MOST_READ: u64 = 1 << 40;

/// How many bytes the content has: the number in the head's first line with the name `Content-Length`, in
/// upper or lower case. White space around the number doesn't count. `None` if there is no such line, or no
/// such number.
pub fn length_in(head: &[u8]) -> Option<u64>
    ensures { result ≡ spec.length_in head.now }
{
    let mut begins_line = true;
    let mut rest = head;
    'bytes: while let [byte, after @ ..] = rest {
        if begins_line && is_named(rest) {
            return value_of(rest);
        }
        begins_line = *byte == b'\n';
        rest = after;
    }
    None
}

// Whether the bytes begin with the name.
fn is_named(bytes: &[u8]) -> bool
    ensures { result ≡ spec.is_named bytes.now }
{
    let mut name = NAME;
    let mut rest = bytes;
    'letters: while let [letter, letters @ ..] = name {
        if !begins_with(rest, *letter) {
            return false;
        }
        rest = &rest[1..];
        name = letters;
    }
    true
}

// Whether the bytes begin with this lower-case letter, or with its upper-case form.
fn begins_with(bytes: &[u8], letter: u8) -> bool
    ensures value { result ≡ spec.begins_with_letter bytes.now letter }
    ensures some { IsTrue result → 0 < length bytes.now }
{
    match bytes {
        [byte, ..] => byte.to_ascii_lowercase() == letter,
        [] => false,
    }
}

// The number after the first colon.
fn value_of(bytes: &[u8]) -> Option<u64>
    ensures { result ≡ spec.value_of bytes.now }
{
    let mut rest = bytes;
    'bytes: while let [byte, after @ ..] = rest {
        if *byte == b':' {
            return after_white(after);
        }
        rest = after;
    }
    None
}

// The number after leading white space.
fn after_white(bytes: &[u8]) -> Option<u64>
    ensures { result ≡ spec.after_white bytes.now }
{
    let mut rest = bytes;
    'white: while let [byte, after @ ..] = rest {
        if !is_white(*byte) {
            return number(rest);
        }
        rest = after;
    }
    number(rest)
}

// The number whose digits come next, up to white space or the end of the line.
fn number(bytes: &[u8]) -> Option<u64>
    ensures { result ≡ spec.number bytes.now }
{
    let mut value = None;
    let mut rest = bytes;
    'digits: while let [byte, after @ ..] = rest {
        let more = with_digit(value, *byte);
        if more.is_none() {
            return if ends_line(rest) { value } else { None };
        }
        value = more;
        rest = after;
    }
    None
}

// Whether nothing but white space comes before the end of the line.
fn ends_line(bytes: &[u8]) -> bool
    ensures { result ≡ spec.ends_line bytes.now }
{
    let mut rest = bytes;
    'white: while let [byte, after @ ..] = rest {
        if !is_white(*byte) {
            return *byte == b'\r';
        }
        rest = after;
    }
    false
}

// Whether a byte is a space or a tab.
fn is_white(byte: u8) -> bool
    ensures { result ≡ spec.is_white byte }
{
    byte == b' ' || byte == b'\t'
}

// The number with one more digit. `None` if the byte isn't a digit, or the number takes no more.
fn with_digit(value: Option<u64>, byte: u8) -> Option<u64>
    ensures { result ≡ spec.with_digit value byte }
{
    let value = value.unwrap_or(0);
    if byte < b'0' || b'9' < byte || MOST_READ <= value {
        return None;
    }
    Some(value * 10 + (byte - b'0') as u64)
}
