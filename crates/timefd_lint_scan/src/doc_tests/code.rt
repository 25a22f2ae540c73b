//! The code of a line of an example.

ghost use Rattle.std.specs.Prelude.{◌≡◌, ◌++◌, OnOk};
ghost use Rattle.timefd_lint_scan.specs.DocTests as spec;

use crate::class::{ByteSet, after_run, is_white};
use crate::marks::in_front;
use std::alloc::AllocError;

// The code of a line whose first byte that isn't white begins this text: the sign of a hidden line is a space, and so is the first
// of two signs, which rustdoc leaves out.
fn push_shown(code: &mut Vec<u8>, text: &[u8]) -> Result<(), AllocError>
    ensures { OnOk result (code.new.items ≡ code.old.items ++ spec.shown text.now) }
{
    match text {
        [b'#'] => Ok(code.push(b' ')?),
        [b'#', next, ..] if *next == b'#' || is_white(*next) => {
            code.push(b' ')?;
            code.extend_from_slice(&text[1..])
        }
        _ => code.extend_from_slice(text),
    }
}

/// Adds the code of a line, which has as many bytes as what stands after the sign of its comment.
pub fn push_code(code: &mut Vec<u8>, text: &[u8]) -> Result<(), AllocError>
    ensures { OnOk result (code.new.items ≡ code.old.items ++ spec.code_of text.now) }
{
    let shown = after_run(ByteSet::White, text);
    code.extend_from_slice(in_front(text, shown))?;
    push_shown(code, shown)
}
