//! Blanks at the front of a text.

ghost use Rattle.std.specs.Prelude.{◌≡◌, ◌≤◌, length};
ghost use Rattle.timefd_lint_scan.specs.Keys.Styles as spec;
ghost use Rattle.timefd_lint_scan.specs.After.{after_run};
ghost use Rattle.timefd_lint_scan.specs.Bytes.{is_blank};

use crate::class::{ByteSet, after_run};

/// What follows the blanks at the front.
pub fn after_blanks(text: &[u8]) -> &[u8]
    ensures rest { result.now ≡ after_run is_blank text.now }
    ensures within { length result.now ≤ length text.now }
{
    after_run(ByteSet::Blank, text)
}

/// Whether a text is empty or begins with a space or a control character.
pub fn begins_space(text: &[u8]) -> bool
    ensures { result ≡ spec.begins_space text.now }
{
    match text {
        [] => true,
        [byte, ..] => *byte <= b' ',
    }
}
