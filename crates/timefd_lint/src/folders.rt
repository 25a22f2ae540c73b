//! Folders that can't be walked, in words.

ghost use Rattle.std.specs.Prelude.{◌≡◌, IfOk, string_bytes};
ghost use Rattle.timefd_lint.specs.Folders as spec;

use std::alloc::{AllocError, Global};
use std::io::ErrorKind;
use timefd_lint_drawing::shown::safe;
use timefd_lint_files::WalkReason;

/// Why the sources below a folder aren't known, in a sentence that names this folder, or this file in it. An
/// `Err` says that memory ran out.
pub fn sentence(alloc: Global, path: &str, reason: WalkReason) -> Result<String, AllocError>
    ensures { IfOk result (λ text. string_bytes text ≡ spec.sentence path.now reason) }
{
    let path = safe(alloc, path)?;
    match reason {
        WalkReason::Unread(kind) => {
            let cause = cause(kind);
            format!(in alloc; "`{path}` can't be read{cause}")
        }
        WalkReason::TooDeep => format!(in alloc; "`{path}` is more than 255 folders deep"),
    }
}

fn cause(kind: ErrorKind) -> &'static str
    ensures { result.now ≡ spec.cause kind }
{
    match kind {
        ErrorKind::NotFound => ": no such file",
        ErrorKind::PermissionDenied => ": permission denied",
        _ => "",
    }
}
