//! The names of the command line, with each folder replaced by the sources below it.

ghost use Rattle.std.specs.Prelude.{◌≡◌, ◌++◌, ◌∷◌, [], List, string_bytes, IfOk, OnOk};
ghost use Rattle.std.specs.Result.{IfErr};
ghost use Rattle.timefd_lint_files.specs.Errors.{IsBelow, IsBelowAny, IsWalkError};
ghost use Rattle.timefd_lint_files.specs.Matching.{Text};
ghost use Rattle.timefd_lint_files.specs.Walks as spec;
ghost use Rattle.timefd_lint_files.specs.declared.walk_error.WalkError.TheVariants as errors;
ghost use Rattle.timefd_lint_files.specs.Walks.{AreExcluded, AreExpanded, IsAlone, IsExpanded, IsKept, IsWalkBut, texts};

use crate::ignore_file::IgnoreFile;
use crate::rules::is_ignored;
use crate::start::{Excluded, path_below, start_below};
use crate::system::FileSystem;
use crate::walk::{Choice, DEPTH_LIMIT, FolderWalk, walk_folder};
use crate::walk_error::WalkError;
use std::alloc::{AllocError, Global};

/// Which files below a folder are taken.
#[derive(Clone, Copy)]
pub struct SoughtFiles<'a> {
    /// The endings of the names of sources, as `.rs`.
    pub endings: &'a [&'a str],
    /// What is passed over.
    pub excluded: Excluded<'a>,
}

/// Whether a name means the standard input.
pub fn is_input(name: &str) -> bool
    ensures { result ≡ spec.is_input name.now }
{
    name == "-"
}

/// The name of a folder, with a `/` at its end.
pub fn as_folder(alloc: Global, name: &str) -> Result<String, AllocError>
    ensures { IfOk result (λ folder. string_bytes folder ≡ spec.as_folder name.now) }
{
    let mut folder = String::from_str(alloc, name)?;
    match name.as_bytes() {
        [.., b'/'] => Ok(folder),
        _ => {
            folder.push('/')?;
            Ok(folder)
        }
    }
}

/// Adds a name as it is.
fn push_name(alloc: Global, walk: &mut FolderWalk, name: &str) -> Result<(), WalkError>
    ensures names { OnOk result (texts walk.new.names.items
        ≡ texts walk.old.names.items ++ name.now ∷ []) }
    ensures ignores { walk.new.ignores.items ≡ walk.old.ignores.items }
    ensures error { IfErr result (λ e. e ≡ errors.Memory) }
{
    let name = String::from_str(alloc, name)?;
    match walk.names.push(name) {
        Ok(()) => Ok(()),
        Err(_) => Err(WalkError::Memory),
    }
}

/// A single file, read from a text. Its patterns match what follows the first `folder_len` bytes of a path, with
/// `front` before it.
#[tactic(auto, using(crate::proofs::NameLemmas::alone))]
fn alone(
    alloc: Global,
    front: &[u8],
    folder_len: usize,
    text: &str,
) -> Result<Vec<IgnoreFile>, AllocError>
    ensures { IfOk result (λ files. IsAlone front.now folder_len text.now files.items) }
{
    let file = IgnoreFile::of_text_from(alloc, front, folder_len, text.as_bytes())?;
    let mut files = Vec::new(alloc);
    files.push(file).map_err(AllocError::from)?;
    Ok(files)
}

/// The single file that holds the patterns of what is excluded below a folder.
#[tactic(auto, using(crate::proofs::NameLemmas::alone_below))]
fn excluded_below(
    alloc: Global,
    excluded: Excluded<'_>,
    folder: &str,
) -> Result<Vec<IgnoreFile>, AllocError>
    ensures { IfOk result (λ files. AreExcluded excluded.entry folder.now files.items) }
{
    let start = start_below(excluded, folder);
    let cut = folder.len().saturating_sub(start.rest.len());
    let files = alone(alloc, start.front, cut, excluded.patterns)?;
    Ok(files)
}

/// Adds the names of the sources below a folder.
fn expand_folder<S: FileSystem>(
    system: &S,
    alloc: Global,
    sought: SoughtFiles<'_>,
    walk: &mut FolderWalk,
    folder: &str,
) -> Result<(), WalkError>
    requires { walk.old.ignores.items ≡ [] }
    ensures names { OnOk result ((names : List Text)
        × (texts walk.new.names.items ≡ texts walk.old.names.items ++ names)
        × IsWalkBut sought.entry.endings.now sought.entry.excluded (S.lists system.now) (S.holds system.now)
        folder.now names) }
    ensures ignores { OnOk result (walk.new.ignores.items ≡ []) }
    ensures error { IfErr result (IsWalkError (S.fails system.now) (IsBelow folder.now) 255) }
{
    let excluded = excluded_below(alloc, sought.excluded, folder)?;
    let choice = Choice {
        endings: sought.endings,
        excluded: &excluded,
    };
    walk_folder(system, alloc, choice, walk, folder, DEPTH_LIMIT)
}

/// Whether a folder that ends before this byte of a name is excluded.
fn is_out_here(
    excluded: &[IgnoreFile],
    front: &[u8],
    byte: u8,
    row: &mut Vec<bool>,
) -> Result<bool, AllocError>
    ensures { IfOk result (λ out. out ≡ spec.is_out_here excluded.now front.now byte) }
{
    if byte == b'/' && !front.is_empty() {
        return is_ignored(excluded, front, true, row);
    }
    Ok(false)
}

/// Whether a file is excluded, or a folder that it is in.
#[tactic(auto, using(crate::proofs::OutLemmas::goes_on, crate::proofs::OutLemmas::is_found, crate::proofs::OutLemmas::at_last))]
fn is_out(excluded: &[IgnoreFile], path: &[u8], row: &mut Vec<bool>) -> Result<bool, AllocError>
    ensures { IfOk result (λ out. out ≡ spec.is_out excluded.now path.now) }
{
    let mut rest = path;
    'bytes: while let [byte, after @ ..] = rest {
        let front = &path[..path.len().saturating_sub(rest.len())];
        if is_out_here(excluded, front, *byte, row)? {
            return Ok(true);
        }
        rest = after;
    }
    is_ignored(excluded, path, false, row)
}

/// Adds the name of a file, unless it is excluded.
#[tactic(auto, using(crate::proofs::OutLemmas::kept, crate::proofs::OutLemmas::out))]
fn expand_file(
    alloc: Global,
    sought: SoughtFiles<'_>,
    walk: &mut FolderWalk,
    name: &str,
) -> Result<(), WalkError>
    ensures names { OnOk result ((names : List Text)
        × (texts walk.new.names.items ≡ texts walk.old.names.items ++ names)
        × IsKept sought.entry.excluded name.now names) }
    ensures ignores { walk.new.ignores.items ≡ walk.old.ignores.items }
    ensures error { IfErr result (λ e. e ≡ errors.Memory) }
{
    let excluded = alone(alloc, &[], 0, sought.excluded.patterns)?;
    let path = path_below(alloc, sought.excluded, name)?;
    if is_out(&excluded, &path, &mut walk.row)? {
        return Ok(());
    }
    push_name(alloc, walk, name)
}

/// Adds a name, or the names of the sources below it if it is a folder.
#[tactic(auto, using(crate::proofs::NameLemmas::as_input, crate::proofs::NameLemmas::as_file, crate::proofs::NameLemmas::as_walked))]
fn expand<S: FileSystem>(
    system: &S,
    alloc: Global,
    sought: SoughtFiles<'_>,
    walk: &mut FolderWalk,
    name: &str,
) -> Result<(), WalkError>
    requires { walk.old.ignores.items ≡ [] }
    ensures names { OnOk result ((names : List Text)
        × (texts walk.new.names.items ≡ texts walk.old.names.items ++ names)
        × IsExpanded (IsWalkBut sought.entry.endings.now sought.entry.excluded (S.lists system.now)
        (S.holds system.now)) (IsKept sought.entry.excluded) (S.folders system.now) name.entry names) }
    ensures ignores { OnOk result (walk.new.ignores.items ≡ []) }
    ensures error { IfErr result
        (IsWalkError (S.fails system.now) (IsBelow (spec.as_folder name.entry.now)) 255) }
{
    if is_input(name) {
        return push_name(alloc, walk, name);
    }
    if !system.is_folder(name) {
        return expand_file(alloc, sought, walk, name);
    }
    let folder = as_folder(alloc, name)?;
    expand_folder(system, alloc, sought, walk, &folder)
}

/// The names of the files to check. The name of a folder is replaced by the names of the sources below it, in
/// the byte order of the entries' names. `-` stays as it is, and so does any other name, unless the file or a
/// folder that it is in is excluded.
///
/// A source is a regular file whose name has one of the endings. Passed over are hidden entries, links, what
/// is excluded, and what is ignored by `.gitignore` files in these folders or by `.git/info/exclude`. The
/// `.gitignore` files of folders above a named one aren't read. A pattern with a named class, as
/// `[[:alpha:]]`, ignores nothing.
///
/// # Errors
///
/// An `Err` says that memory ran out, or names a folder or a file with patterns that can't be read, or a
/// folder inside more than 255 others.
#[tactic(auto, using(crate::proofs::NameLemmas::at_first))]
pub fn expanded<S: FileSystem>(
    system: &S,
    alloc: Global,
    sought: SoughtFiles<'_>,
    names: &[&str],
) -> Result<Vec<String>, WalkError>
    ensures all { IfOk result (λ all. AreExpanded (IsWalkBut sought.entry.endings.now sought.entry.excluded
        (S.lists system.now) (S.holds system.now)) (IsKept sought.entry.excluded) (S.folders system.now) names.now
        (texts all.items)) }

    // The path of what isn't read begins with one of the names. If the depth is the reason, at least 255
    // slashes follow that name.
    ensures error { IfErr result (IsWalkError (S.fails system.now) (IsBelowAny names.now) 255) }
{
    let mut walk = FolderWalk::new(alloc);
    for name in names {
        expand(system, alloc, sought, &mut walk, name)?;
    }
    Ok(walk.into_names())
}
