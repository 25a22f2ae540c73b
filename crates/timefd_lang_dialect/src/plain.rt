//! Bytes that are literal wherever they occur.

ghost use Rattle.std.specs.Prelude.{◌≡◌, ◌≤◌, length};
ghost use Rattle.std.specs.List.{prefix_len};
ghost use Rattle.std.specs.Str.{IsUtf8};
ghost use Rattle.timefd_lang_dialect.specs.Asked.{are_plain};
ghost use Rattle.timefd_lang_dialect.specs.Plain as spec;
ghost use Rattle.timefd_language.specs.Bytes.{is_special};
ghost use Rattle.timefd_language.specs.Cut.{IsCut};

use crate::dialect::Dialect;

/// The longest run of literal bytes at the front, and the rest.
pub fn cut_plain(dialect: Dialect, text: &str) -> (&str, &str)
    ensures parts { IsCut (spec.is_plain dialect) text.now result.0.now result.1.now }
    ensures utf8 { IsUtf8 result.1.now }
{
    text.split_at(plain_len(dialect, text.as_bytes()))
}

/// How many bytes at the front are literal.
fn plain_len(dialect: Dialect, bytes: &[u8]) -> usize
    ensures len { result ≡ prefix_len (spec.is_plain dialect) bytes.now }
    ensures within { result ≤ length bytes.now }
{
    for (at, byte) in bytes.iter().enumerate() {
        if !is_plain(dialect, *byte) {
            return at;
        }
    }
    bytes.len()
}

/// Whether each byte is literal wherever it occurs.
pub fn are_plain(dialect: Dialect, bytes: &[u8]) -> bool
    ensures { result ≡ are_plain dialect bytes.now }
{
    let mut rest = bytes;
    'bytes: while let [byte, after @ ..] = rest {
        if !is_plain(dialect, *byte) {
            return false;
        }
        rest = after;
    }
    true
}

fn is_plain(dialect: Dialect, byte: u8) -> bool
    ensures { result ≡ spec.is_plain dialect byte }
{
    !is_special(byte) && !may_begin(dialect, byte)
}

/// Whether version 3 wants a backslash in front of the byte.
fn is_special(byte: u8) -> bool
    ensures { result ≡ is_special byte }
{
    byte == b'[' || byte == b']' || byte == b'\\'
}

/// Whether a row or a quote can begin with the byte.
fn may_begin(dialect: Dialect, byte: u8) -> bool
    ensures { result ≡ spec.may_begin dialect byte }
{
    match dialect {
        Dialect::Python
        | Dialect::C
        | Dialect::Gnu
        | Dialect::Chrono
        | Dialect::Jiff
        | Dialect::Ruby => byte == b'%',
        Dialect::Java => is_letter(byte) || is_java_mark(byte),
        Dialect::Go => is_go_mark(byte) || is_go_letter(byte),
        Dialect::Moment => is_letter(byte) || is_line_end(byte),
    }
}

fn is_letter(byte: u8) -> bool
    ensures { result ≡ spec.is_letter byte }
{
    b'A' <= byte && byte <= b'Z' || b'a' <= byte && byte <= b'z'
}

/// Whether the byte is an apostrophe or one that Java reserves.
fn is_java_mark(byte: u8) -> bool
    ensures { result ≡ spec.is_java_mark byte }
{
    byte == b'#' || byte == b'\'' || byte == b'{' || byte == b'}'
}

fn is_go_mark(byte: u8) -> bool
    ensures { result ≡ spec.is_go_mark byte }
{
    b',' <= byte && byte <= b'.' || b'0' <= byte && byte <= b'6'
}

fn is_go_letter(byte: u8) -> bool
    ensures { result ≡ spec.is_go_letter byte }
{
    byte == b'J' || byte == b'M' || byte == b'P' || byte == b'Z' || (byte == b'_' || byte == b'p')
}

/// Whether a character that ends a line can begin with the byte.
fn is_line_end(byte: u8) -> bool
    ensures { result ≡ spec.is_line_end byte }
{
    byte == b'\n' || byte == b'\r' || byte == 226
}
