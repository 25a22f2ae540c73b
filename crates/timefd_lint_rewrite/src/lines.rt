//! A line of a file, and what it ends with.

ghost use Rattle.std.specs.Prelude.{◌≡◌};
ghost use Rattle.std.specs.Io.BufRead.{ends_with_byte, strip_last};
ghost use Rattle.timefd_lint_rewrite.specs.Lines as spec;

/// Whether a line is passed over: it is empty, or begins with the mark of a comment.
pub fn is_passed_over(comment: Option<&str>, line: &[u8]) -> bool
    ensures { result ≡ spec.is_passed_over comment.entry line.now }
{
    match comment {
        Some(mark) => line.is_empty() || line.starts_with(mark.as_bytes()),
        None => line.is_empty(),
    }
}

/// Whether a line ends with a byte.
pub fn ends_with(line: &[u8], byte: u8) -> bool
    ensures { result ≡ ends_with_byte byte line.now }
{
    match line {
        [.., last] => *last == byte,
        [] => false,
    }
}

// The line without its last byte, if that is `byte`.
fn without_last(line: &[u8], byte: u8) -> &[u8]
    ensures { result.now ≡ strip_last byte line.now }
{
    if ends_with(line, byte) {
        &line[..line.len() - 1]
    } else {
        line
    }
}

/// The line without its newline, and without a carriage return in front of it.
pub fn without_newline(line: &[u8]) -> &[u8]
    ensures { result.now ≡ spec.without_newline line.now }
{
    if ends_with(line, b'\n') {
        without_last(without_last(line, b'\n'), b'\r')
    } else {
        line
    }
}

/// Whether a text has a newline, and so is more than a line.
pub fn has_newline(text: &[u8]) -> bool
    ensures { result ≡ spec.has_newline text.now }
{
    text.contains(&b'\n')
}
