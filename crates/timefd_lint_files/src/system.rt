//! Systems with files and folders.

ghost use Rattle.std.specs.Fs.{IsDir, IsFile};
ghost use Rattle.std.specs.Prelude.{◌≡◌, ◌↔◌, List, Bool, IfOk, ⊤};
ghost use Rattle.std.specs.Result.{IfErr};
ghost use Rattle.std.specs.declared.io.ErrorKind.{ErrorKind};
ghost use Rattle.timefd_lint_files.specs.Errors.{IsReadError};
ghost use Rattle.timefd_lint_files.specs.Matching.{Text};
ghost use Rattle.timefd_lint_files.specs.declared.entry.FolderEntry.{FolderEntry};

use crate::entry::{EntryKind, FolderEntry};
use std::alloc::{AllocError, Global};
use std::fs;
use std::fs::{DirEntry, FileType};
use std::io::ErrorKind;
use std::rt::Files;

/// Why a folder or a file can't be read.
#[derive(Clone, Copy, Debug, PartialEq, Eq)]
pub enum FileError {
    /// Memory ran out.
    Memory,
    /// The system reports this kind of error.
    Failed(ErrorKind),
}

/// A system with files and folders.
pub trait FileSystem {
    // These may be the entries of a folder.
    ghost lists: { Self → Text → List FolderEntry → Type 0 };

    // This may be the text of a file.
    ghost holds: { Self → Text → Text → Type 0 };

    // Reading a folder or a file may fail for this reason.
    ghost fails: { Self → Text → ErrorKind → Type 0 };

    // A name may lead to a folder (`true`), or not.
    ghost folders: { Self → Text → Bool → Type 0 };

    /// The entries of a folder, in any order. An `Err` says why it can't be read.
    fn entries(&self, alloc: Global, folder: &str) -> Result<Vec<FolderEntry>, FileError>
        ensures listed { IfOk result (λ entries. lists self.now folder.now entries.items) }
        ensures error { IfErr result (IsReadError (fails self.now folder.now)) };

    /// All bytes of a file. An `Err` says why it can't be read.
    fn text(&self, alloc: Global, file: &str) -> Result<Vec<u8>, FileError>
        ensures text { IfOk result (λ text. holds self.now file.now text.items) }
        ensures error { IfErr result (IsReadError (fails self.now file.now)) };

    /// Whether a name leads to a folder, also through links.
    fn is_folder(&self, name: &str) -> bool
        ensures { folders self.now name.now result };
}

impl From<AllocError> for FileError {
    fn from(_: AllocError) -> Self {
        FileError::Memory
    }
}

impl From<std::io::Error> for FileError {
    fn from(error: std::io::Error) -> Self {
        match error.kind() {
            ErrorKind::OutOfMemory => FileError::Memory,
            kind => FileError::Failed(kind),
        }
    }
}

fn kind_of(file_type: FileType) -> EntryKind
    ensures file { result ≡ EntryKind.File ↔ IsFile file_type }
    ensures folder { result ≡ EntryKind.Folder ↔ IsDir file_type }
{
    if file_type.is_dir() {
        EntryKind::Folder
    } else if file_type.is_file() {
        EntryKind::File
    } else {
        EntryKind::Other
    }
}

fn entry_of<R: Files>(
    alloc: Global,
    entry: &DirEntry<R, Global>,
) -> Result<FolderEntry, FileError> {
    Ok(FolderEntry {
        name: String::from_str(alloc, entry.file_name())?,
        kind: kind_of(entry.file_type()?),
    })
}

// Nothing is known about what the system's files hold.
impl<R: Files + AllocGlobal + Clone + Drop> FileSystem for R {
    ghost lists = { λ _ _ _. ⊤ };

    ghost holds = { λ _ _ _. ⊤ };

    ghost fails = { λ _ _ _. ⊤ };

    ghost folders = { λ _ _ _. ⊤ };

    fn entries(&self, alloc: Global, folder: &str) -> Result<Vec<FolderEntry>, FileError> {
        let mut entries = Vec::new(alloc);
        for entry in fs::read_dir(self, folder)? {
            let entry = entry_of(alloc, &entry?)?;
            entries.push(entry).map_err(AllocError::from)?;
        }
        Ok(entries)
    }

    fn text(&self, _: Global, file: &str) -> Result<Vec<u8>, FileError> {
        Ok(fs::read(self, file)?)
    }

    fn is_folder(&self, name: &str) -> bool {
        match fs::metadata(self, name) {
            Ok(metadata) => metadata.is_dir(),
            Err(_) => false,
        }
    }
}
