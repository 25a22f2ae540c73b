//! Why a walk ends early.

ghost use Rattle.timefd_lint_files.specs.Errors.{IsFailureOf, IsUnreadOf};

use crate::system::FileError;
use std::alloc::{AllocError, Global};
use std::io::ErrorKind;

/// Why the sources below a folder aren't known.
#[derive(Clone, Copy, Debug, PartialEq, Eq)]
pub enum WalkReason {
    /// The folder, or a file with patterns in it, can't be read.
    Unread(ErrorKind),
    /// The folder is inside too many others.
    TooDeep,
}

/// Why a walk ends early.
#[derive(Debug, Drop)]
pub enum WalkError {
    /// Memory ran out.
    Memory,
    /// A folder or a file fails, for this reason.
    Failed { path: String, reason: WalkReason },
}

impl From<AllocError> for WalkError {
    ghost use Rattle.std.specs.Prelude.{◌≡◌};
    ghost use Rattle.timefd_lint_files.specs.declared.walk_error.WalkError.{WalkError};

    ghost from_gives = { λ _ e. e ≡ WalkError.Memory };

    fn from(_: AllocError) -> Self {
        WalkError::Memory
    }
}

/// The error that a folder or a file fails for this reason. `Memory` if there is no memory for its name.
pub fn failed(alloc: Global, path: &str, reason: WalkReason) -> WalkError
    ensures { IsFailureOf path.now reason result }
{
    match String::from_str(alloc, path) {
        Ok(path) => WalkError::Failed { path, reason },
        Err(AllocError) => WalkError::Memory,
    }
}

/// The error for a folder or a file that can't be read.
pub fn unread(alloc: Global, path: &str, error: FileError) -> WalkError
    ensures { IsUnreadOf path.now error result }
{
    match error {
        FileError::Memory => WalkError::Memory,
        FileError::Failed(kind) => failed(alloc, path, WalkReason::Unread(kind)),
    }
}
