//! Lines of a source.

ghost use Rattle.std.specs.Prelude.{◌≡◌, ◌≤◌, drop, length};
ghost use Rattle.timefd_lint_scan.specs.Lines as spec;

use crate::class::{ByteSet, after_run};

/// Where the line of the position `to` begins. `known` is where the line of the earlier position
/// `from` begins.
pub fn line_start(source: &[u8], known: usize, from: usize, to: usize) -> usize
    requires known { known ≡ spec.line_start source.now from }
    requires ordered { from ≤ to }
    requires within { to ≤ length source.now }
    ensures start { result ≡ spec.line_start source.now to }
    ensures within { result ≤ to }
{
    let mut start = to;
    'bytes: while start > from {
        if source[start - 1] == b'\n' {
            return start;
        }
        start -= 1;
    }
    known
}

/// The bytes of a text from an index on.
pub fn from(text: &[u8], at: usize) -> &[u8]
    ensures { result.now ≡ drop at text.now }
{
    text.get(at..).unwrap_or(&[])
}

/// Where the next line ends, after the one that ends at a position.
pub fn next_line_end(source: &[u8], at: usize) -> usize
    ensures { result ≡ spec.next_line_end source.now at }
{
    match from(source, at) {
        [_, next @ ..] => source.len() - after_run(ByteSet::Line, next).len(),
        [] => source.len(),
    }
}
