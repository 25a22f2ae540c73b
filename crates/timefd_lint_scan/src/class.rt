//! Classes of bytes, and the longest run of a class.

ghost use Rattle.std.specs.Prelude.{◌≡◌, ◌≤◌, length};
ghost use Rattle.timefd_lint_scan.specs.Bytes as spec;
ghost use Rattle.timefd_lint_scan.specs.Bytes.{class_test};
ghost use Rattle.timefd_lint_scan.specs.After.{after_run};

/// A set of bytes.
#[derive(Clone, Copy)]
pub enum ByteSet {
    /// White bytes.
    White,
    /// Blanks and line ends: the white bytes that a backslash at the end of a line skips.
    Skipped,
    /// A space or a tab.
    Blank,
    /// Bytes of a word: letters, digits, `_`, and everything that isn't ASCII.
    Word,
    /// Bytes of a TOML key without quotes.
    Bare,
    /// Bytes that may be between the value of a key and a comment after it: blanks, quotes, commas, and
    /// what closes a list or a table.
    Aside,
    /// Bytes of a line, without its end.
    Line,
    /// `#`.
    Hash,
    /// Bytes of a character after its first.
    Continuation,
    /// Bytes before a string's opening quote.
    Unquoted,
    /// Bytes that may follow the first byte of an escape in a character literal.
    Quoted,
}

/// Whether a byte is a space or a tab.
pub fn is_blank(byte: u8) -> bool
    ensures { result ≡ spec.is_blank byte }
{
    byte == b' ' || byte == b'\t'
}

/// Whether a byte is a line feed or a carriage return.
pub fn is_line_end(byte: u8) -> bool
    ensures { result ≡ spec.is_line_end byte }
{
    byte == b'\n' || byte == b'\r'
}

fn is_skipped(byte: u8) -> bool
    ensures { result ≡ spec.is_skipped byte }
{
    is_blank(byte) || is_line_end(byte)
}

/// Whether a byte is a blank, a line end, a vertical tab or a form feed.
pub fn is_white(byte: u8) -> bool
    ensures { result ≡ spec.is_white byte }
{
    is_skipped(byte) || byte == 11 || byte == 12
}

/// Whether a byte is a letter, a digit, `_`, or not ASCII.
pub fn is_word(byte: u8) -> bool
    ensures { result ≡ spec.is_word byte }
{
    (b'a' <= byte && byte <= b'z')
        || (b'A' <= byte && byte <= b'Z')
        || (b'0' <= byte && byte <= b'9')
        || byte == b'_'
        || byte >= 128
}

fn is_bare(byte: u8) -> bool
    ensures { result ≡ spec.is_bare byte }
{
    byte.is_ascii_alphanumeric() || byte == b'_' || byte == b'-'
}

fn is_aside(byte: u8) -> bool
    ensures { result ≡ spec.is_aside byte }
{
    is_blank(byte) || byte == b'"' || byte == b'\'' || byte == b',' || byte == b']' || byte == b'}'
}

/// Whether a byte belongs to a character after its first byte.
pub fn is_continuation(byte: u8) -> bool
    ensures { result ≡ spec.is_continuation byte }
{
    128 <= byte && byte <= 191
}

fn is_in(class: ByteSet, byte: u8) -> bool
    ensures { result ≡ class_test class byte }
{
    match class {
        ByteSet::White => is_white(byte),
        ByteSet::Skipped => is_skipped(byte),
        ByteSet::Blank => is_blank(byte),
        ByteSet::Word => is_word(byte),
        ByteSet::Bare => is_bare(byte),
        ByteSet::Aside => is_aside(byte),
        ByteSet::Line => byte != b'\n',
        ByteSet::Hash => byte == b'#',
        ByteSet::Continuation => is_continuation(byte),
        ByteSet::Unquoted => byte != b'"',
        ByteSet::Quoted => !(byte == b'\'' || byte == b'\n'),
    }
}

/// What follows the longest run of the class at the front.
pub fn after_run(class: ByteSet, text: &[u8]) -> &[u8]
    ensures rest { result.now ≡ after_run (class_test class) text.now }
    ensures within { length result.now ≤ length text.now }
{
    let mut rest = text;
    'bytes: while let [byte, after @ ..] = rest {
        if !is_in(class, *byte) {
            return rest;
        }
        rest = after;
    }
    rest
}
