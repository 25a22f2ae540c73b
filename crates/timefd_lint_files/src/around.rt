//! Paths of folders, each name with `/` at its end, and of the folders around them.

ghost use Rattle.std.specs.Prelude.{◌≡◌, IfOk, string_bytes};
ghost use Rattle.timefd_lint_files.specs.Around as spec;

use crate::entry::joined;
use crate::last_name::file_name;
use std::alloc::{AllocError, Global};

/// What comes before the last `/` of a path; nothing if it has none.
#[tactic(auto, using(crate::proofs::AroundLemmas::before_last, crate::proofs::AroundLemmas::nothing_before))]
fn before_slash(path: &str) -> &str
    ensures { result.now ≡ spec.before_slash path.now }
{
    match path.rsplit_once('/') {
        Some((front, _)) => front,
        None => "",
    }
}

/// The folder of a path's last name; the working directory, which is empty, if the path has no `/`.
#[tactic(auto, using(crate::proofs::AroundLemmas::folder_before, crate::proofs::AroundLemmas::no_folder))]
pub fn folder_of(alloc: Global, path: &str) -> Result<String, AllocError>
    ensures { IfOk result (λ folder. string_bytes folder ≡ spec.folder_of path.now) }
{
    match path.rsplit_once('/') {
        Some((front, _)) => joined(alloc, front, "/"),
        None => Ok(String::new(alloc)),
    }
}

/// Whether a path, without the `/` at its end, is that of the working directory or of the root, or ends in `..`.
fn is_upward(path: &str) -> bool
    ensures { result ≡ spec.is_upward path.now }
{
    path.is_empty() || file_name(path.as_bytes()) == b"..".as_slice()
}

/// The folder around a folder. An `Err` says that memory ran out.
pub fn around(alloc: Global, folder: &str) -> Result<String, AllocError>
    ensures { IfOk result (λ outer. string_bytes outer ≡ spec.around folder.now) }
{
    let inner = before_slash(folder);
    if is_upward(inner) {
        return joined(alloc, folder, "../");
    }
    folder_of(alloc, inner)
}
