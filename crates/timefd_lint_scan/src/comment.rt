//! Where comments end.

ghost use Rattle.std.specs.Prelude.{◌≡◌, ◌≤◌, length, MatchOption, ⊤};
ghost use Rattle.timefd_lint_scan.specs.Bytes.{seen};
ghost use Rattle.timefd_lint_scan.specs.After as spec;

/// What follows a block comment. The text begins after its `/*`. `None` if the comment isn't
/// closed.
pub fn after_comment(text: &[u8]) -> Option<&[u8]>
    ensures rest { seen result ≡ spec.after_comment 0 0 text.now }
    ensures within { MatchOption result ⊤ (λ rest. length rest.now ≤ length text.now) }
{
    let mut depth: usize = 0;
    let mut before = 0;
    let mut rest = text;
    'bytes: while let [byte, after @ ..] = rest {
        if before == b'/' && *byte == b'*' {
            depth += 1;
            before = 0;
        } else if before == b'*' && *byte == b'/' {
            if depth == 0 {
                return Some(after);
            }
            depth -= 1;
            before = 0;
        } else {
            before = *byte;
        }
        rest = after;
    }
    None
}
