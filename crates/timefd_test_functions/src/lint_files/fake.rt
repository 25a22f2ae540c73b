//! A file system of a few folders.

ghost use Rattle.std.specs.Prelude.{⊤};

use std::alloc::{AllocError, Global};
use std::io::ErrorKind;
use timefd_lint_files::{EntryKind, FileError, FileSystem, FolderEntry};

/// A few folders. One of them, `deep`, holds a folder with its own name, and so on. Three of them,
/// `made`, `young` and `linked`, are folders of repositories.
pub struct Fake;

fn push(
    alloc: Global,
    entries: &mut Vec<FolderEntry>,
    name: &str,
    kind: EntryKind,
) -> Result<(), AllocError> {
    let name = String::from_str(alloc, name)?;
    entries
        .push(FolderEntry { name, kind })
        .map_err(AllocError::from)
}

/// The entries of `src/`, not in order.
fn src(alloc: Global) -> Result<Vec<FolderEntry>, AllocError> {
    let mut entries = Vec::new(alloc);
    push(alloc, &mut entries, "z.rs", EntryKind::File)?;
    push(alloc, &mut entries, "a", EntryKind::Folder)?;
    push(alloc, &mut entries, "a.rs", EntryKind::File)?;
    push(alloc, &mut entries, "notes.txt", EntryKind::File)?;
    push(alloc, &mut entries, "generated.rs", EntryKind::File)?;
    push(alloc, &mut entries, "target", EntryKind::Folder)?;
    push(alloc, &mut entries, ".hidden", EntryKind::Folder)?;
    push(alloc, &mut entries, ".hidden.rs", EntryKind::File)?;
    push(alloc, &mut entries, "link.rs", EntryKind::Other)?;
    push(alloc, &mut entries, ".gitignore", EntryKind::File)?;
    Ok(entries)
}

/// The entries of `src/a/`.
fn below_src(alloc: Global) -> Result<Vec<FolderEntry>, AllocError> {
    let mut entries = Vec::new(alloc);
    push(alloc, &mut entries, "target", EntryKind::File)?;
    push(alloc, &mut entries, "generated.rs", EntryKind::File)?;
    push(alloc, &mut entries, "kept.rs", EntryKind::File)?;
    push(alloc, &mut entries, "old.rs", EntryKind::File)?;
    push(alloc, &mut entries, ".gitignore", EntryKind::File)?;
    Ok(entries)
}

/// The entries of the folder of a repository, which is a folder or a file.
fn repository(alloc: Global, kind: EntryKind) -> Result<Vec<FolderEntry>, AllocError> {
    let mut entries = Vec::new(alloc);
    push(alloc, &mut entries, ".git", kind)?;
    push(alloc, &mut entries, ".gitignore", EntryKind::File)?;
    push(alloc, &mut entries, "a.rs", EntryKind::File)?;
    push(alloc, &mut entries, "b.rs", EntryKind::File)?;
    push(alloc, &mut entries, "c.rs", EntryKind::File)?;
    Ok(entries)
}

fn one(alloc: Global, name: &str, kind: EntryKind) -> Result<Vec<FolderEntry>, AllocError> {
    let mut entries = Vec::new(alloc);
    push(alloc, &mut entries, name, kind)?;
    Ok(entries)
}

/// The entries of a repository's folder, or of a folder in it.
fn of_repository(alloc: Global, folder: &str) -> Result<Vec<FolderEntry>, FileError> {
    if folder == "made/" || folder == "young/" {
        return Ok(repository(alloc, EntryKind::Folder)?);
    }
    if folder == "linked/" {
        return Ok(repository(alloc, EntryKind::File)?);
    }
    if folder == "made/.git/" {
        return Ok(one(alloc, "info", EntryKind::Folder)?);
    }
    if folder == "young/.git/" {
        return Ok(one(alloc, "HEAD", EntryKind::File)?);
    }
    if folder == "made/.git/info/" {
        return Ok(one(alloc, "exclude", EntryKind::File)?);
    }
    Err(FileError::Failed(ErrorKind::PermissionDenied))
}

impl FileSystem for Fake {
    ghost lists = { λ _ _ _. ⊤ };

    ghost holds = { λ _ _ _. ⊤ };

    ghost fails = { λ _ _ _. ⊤ };

    ghost folders = { λ _ _ _. ⊤ };

    fn entries(&self, alloc: Global, folder: &str) -> Result<Vec<FolderEntry>, FileError> {
        if folder == "src/" {
            return Ok(src(alloc)?);
        }
        if folder == "src/a/" {
            return Ok(below_src(alloc)?);
        }
        if folder.ends_with("deep/") {
            return Ok(one(alloc, "deep", EntryKind::Folder)?);
        }
        of_repository(alloc, folder)
    }

    fn text(&self, alloc: Global, file: &str) -> Result<Vec<u8>, FileError> {
        if file == "src/.gitignore" {
            return Ok(b"generated.rs\ntarget/\n".to_vec(alloc)?);
        }
        if file == "src/a/.gitignore" {
            return Ok(b"/old.rs\n!generated.rs\n".to_vec(alloc)?);
        }
        if file == "made/.git/info/exclude" {
            return Ok(b"a.rs\nb.rs\n".to_vec(alloc)?);
        }
        if file.ends_with("/.gitignore") {
            return Ok(b"!b.rs\n".to_vec(alloc)?);
        }
        Err(FileError::Failed(ErrorKind::NotFound))
    }

    fn is_folder(&self, name: &str) -> bool {
        name == "src"
            || name == "src/"
            || name == "deep"
            || name == "closed"
            || name == "made"
            || name == "young"
            || name == "linked"
            || (name.starts_with("made/.git/info/") && name.ends_with("/."))
    }
}
