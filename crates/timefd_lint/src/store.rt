//! Where files are read whole and replaced.

ghost use Rattle.std.specs.Prelude.{Option, IfOk, IfErr, OnOk, ⊤};
ghost use Rattle.timefd_parse.specs.Tree.{Text};
ghost use Rattle.timefd_lint.specs.declared.fix.FixError.{FixError};
ghost use Rattle.timefd_lint.specs.declared.identity.Identity.{Identity};

use crate::fix::{FixError, Original};
use crate::identity::Identity;
use std::alloc::Global;
use std::fs;
use std::os::unix::fs::MetadataExt;
use std::rt::Files;

/// Reads files by their names, and replaces them.
pub trait Store {
    /// A file that is open.
    type File: Drop;

    // The name may lead to this file, or to none.
    ghost leads: { Self → Text → Option Identity → Type 0 };

    // These may be the bytes of the file with this name.
    ghost holds: { Self → Text → Text → Type 0 };

    // Reading the file with this name may fail for this reason.
    ghost fails: { Self → Text → FixError → Type 0 };

    // This may be the store once the file with this name was replaced by these bytes.
    ghost replaces: { Self → Text → Text → Self → Type 0 };

    // Replacing the file with this name by these bytes may fail for this reason, and leave this store.
    ghost refuses: { Self → Text → Text → FixError → Self → Type 0 };

    /// The file that a name leads to. `None` if there is none.
    fn identity(&self, name: &str) -> Option<Identity>
        ensures { leads self.now name.now result };

    /// Reads a file. An `Err` says why that failed.
    fn read(&self, alloc: Global, name: &str) -> Result<Original<Self::File>, FixError>
        ensures read { IfOk result (λ old. holds self.now name.now old.bytes.items) }
        ensures failed { IfErr result (fails self.now name.now) };

    /// Replaces a file that was read by one with these bytes. An `Err` says why it stays.
    fn replace(
        &mut self,
        alloc: Global,
        name: &str,
        old: &Original<Self::File>,
        bytes: &[u8],
    ) -> Result<(), FixError>
        ensures replaced { OnOk result (replaces self.old name.now bytes.now self.new) }
        ensures refused { IfErr result (λ error. refuses self.old name.now bytes.now error self.new) };
}

// The file of the system that a name leads to.
fn identity_of<R: Files>(rt: &R, name: &str) -> Option<Identity> {
    let metadata = fs::metadata(rt, name).ok()?;
    Some(Identity {
        device: metadata.dev(),
        inode: metadata.ino(),
    })
}

// The files of the system. Nothing is known about what they hold.
impl<R: Files> Store for &R {
    type File = R::File;

    ghost leads = { λ _ _ _. ⊤ };

    ghost holds = { λ _ _ _. ⊤ };

    ghost fails = { λ _ _ _. ⊤ };

    ghost replaces = { λ _ _ _ _. ⊤ };

    ghost refuses = { λ _ _ _ _ _. ⊤ };

    fn identity(&self, name: &str) -> Option<Identity> {
        identity_of(*self, name)
    }

    fn read(&self, alloc: Global, name: &str) -> Result<Original<R::File>, FixError> {
        Original::read(*self, alloc, name)
    }

    fn replace(
        &mut self,
        alloc: Global,
        name: &str,
        old: &Original<R::File>,
        bytes: &[u8],
    ) -> Result<(), FixError> {
        old.replace(*self, alloc, name, bytes)
    }
}
