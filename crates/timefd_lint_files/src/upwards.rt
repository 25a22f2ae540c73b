//! A file that is sought from a folder upwards.

ghost use Rattle.std.specs.Prelude.{◌≡◌, ◌++◌, IfOk, codes};
ghost use Rattle.std.specs.Result.{IfErr};
ghost use Rattle.timefd_lint_files.specs.Around.{IsUnreadUpwards};
ghost use Rattle.timefd_lint_files.specs.Upwards as spec;
ghost use Rattle.timefd_lint_files.specs.Upwards.{IsNearest, IsThereOr, IsTextOr, items_any, seen_any};

use crate::around::around;
use crate::entry::joined;
use crate::system::{FileError, FileSystem};
use crate::walk_error::{WalkError, unread};
use std::alloc::{AllocError, Global};
use std::io::ErrorKind;

/// A file that was found in a folder, or in one around it.
#[derive(Drop)]
pub struct Nearest {
    /// The path of its folder, each name with `/` at its end: `../` once for each folder from the working directory up
    /// to it, if it is that one or around it.
    pub folder: String,
    /// How many folders are around that folder.
    pub above: usize,
    /// All bytes of the file.
    pub text: Vec<u8>,
}

/// Whether a file is absent, if the system reports this kind of error.
fn is_absent(kind: ErrorKind) -> bool
    ensures { result ≡ spec.is_absent kind }
{
    match kind {
        ErrorKind::NotFound => true,
        _ => false,
    }
}

/// Reads a file of a folder. `None` if it is absent.
#[tactic(auto, using(crate::proofs::UpwardLemmas::unread_here))]
fn text_any<S: FileSystem>(
    system: &S,
    alloc: Global,
    folder: &str,
    name: &str,
) -> Result<Option<Vec<u8>>, WalkError>
    ensures text { IfOk result (λ text.
        IsTextOr (S.holds system.now) (S.fails system.now) (folder.now ++ name.now) (items_any text)) }
    ensures error { IfErr result (IsUnreadUpwards (S.fails system.now) name.now 0 folder.now) }
{
    let path = joined(alloc, folder, name)?;
    match system.text(alloc, &path) {
        Ok(text) => Ok(Some(text)),
        Err(FileError::Failed(kind)) if is_absent(kind) => Ok(None),
        Err(error) => Err(unread(alloc, &path, error)),
    }
}

/// Whether a name isn't absent, whatever it leads to.
fn is_there<S: FileSystem>(system: &S, alloc: Global, path: &str) -> Result<bool, AllocError>
    ensures { IfOk result (λ there. IsThereOr (S.holds system.now) (S.fails system.now) path.now there) }
{
    match system.text(alloc, path) {
        Ok(_text) => Ok(true),
        Err(FileError::Failed(kind)) => Ok(!is_absent(kind)),
        Err(FileError::Memory) => Err(AllocError),
    }
}

/// Whether a folder has `.git`.
fn has_repository<S: FileSystem>(
    system: &S,
    alloc: Global,
    folder: &str,
) -> Result<bool, AllocError>
    ensures { IfOk result (λ has.
        IsThereOr (S.holds system.now) (S.fails system.now) (folder.now ++ codes ".git") has) }
{
    let path = joined(alloc, folder, ".git")?;
    is_there(system, alloc, &path)
}

/// Whether names in a folder can be looked up.
pub fn is_open<S: FileSystem>(system: &S, alloc: Global, folder: &str) -> Result<bool, AllocError>
    ensures { IfOk result (λ answer. S.folders system.now (folder.now ++ codes ".") answer) }
{
    let path = joined(alloc, folder, ".")?;
    Ok(system.is_folder(&path))
}

/// The file of this name in a folder, or else in the nearest of the folders around it that has one. `above` is
/// how many these are. The search ends at the first folder that has `.git`, and before one in which no name can
/// be looked up.
///
/// # Errors
///
/// An `Err` says that memory ran out, or names a file that is there and can't be read.
#[tactic(auto, using(crate::proofs::UpwardLemmas::at_top, crate::proofs::UpwardLemmas::in_repository, crate::proofs::UpwardLemmas::at_closed, crate::proofs::UpwardLemmas::above_it, crate::proofs::UpwardLemmas::unread_at_all, crate::proofs::UpwardLemmas::unread_above))]
pub fn first_upwards<S: FileSystem>(
    system: &S,
    alloc: Global,
    name: &str,
    folder: &str,
    above: usize,
) -> Result<Option<Nearest>, WalkError>
    ensures found { IfOk result (λ found. IsNearest (S.holds system.now) (S.fails system.now) (S.folders system.now)
        name.now above folder.now (seen_any found)) }
    ensures error { IfErr result (IsUnreadUpwards (S.fails system.now) name.now above folder.now) }
{
    if let Some(text) = text_any(system, alloc, folder, name)? {
        let folder = String::from_str(alloc, folder)?;
        return Ok(Some(Nearest {
            folder,
            above,
            text,
        }));
    }
    if above == 0 {
        return Ok(None);
    }
    if has_repository(system, alloc, folder)? {
        return Ok(None);
    }
    let outer = around(alloc, folder)?;
    if !is_open(system, alloc, &outer)? {
        return Ok(None);
    }
    first_upwards(system, alloc, name, &outer, above - 1)
}
