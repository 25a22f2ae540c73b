//! The files with patterns that a folder has: `.gitignore`, and the exclude file of its repository.

ghost use Rattle.std.specs.Prelude.{IfOk, OnOk};
ghost use Rattle.std.specs.Result.{IfErr};
ghost use Rattle.timefd_lint_files.specs.Errors.{IsUnread};
ghost use Rattle.timefd_lint_files.specs.Walks.{HasExclude, HasOwn, HasOwnIf, IsOwn, FolderHas};

use crate::entry::{EntryKind, FolderEntry, has_entry, joined};
use crate::ignore_file::IgnoreFile;
use crate::system::FileSystem;
use crate::walk_error::{WalkError, unread};
use std::alloc::Global;

/// Whether a folder has an entry of this kind and name.
#[tactic(auto, using(crate::proofs::ErrorLemmas::unread_at))]
fn folder_has<S: FileSystem>(
    system: &S,
    alloc: Global,
    folder: &str,
    kind: EntryKind,
    name: &str,
) -> Result<bool, WalkError>
    ensures reported { IfOk result (λ has. FolderHas (S.lists system.now) folder.now kind name.now has) }
    ensures error { IfErr result (IsUnread (S.fails system.now) folder.now) }
{
    match system.entries(alloc, folder) {
        Ok(entries) => Ok(has_entry(&entries, kind, name)),
        Err(error) => Err(unread(alloc, folder, error)),
    }
}

/// Whether a folder with these entries has a repository with an exclude file.
#[tactic(auto, using(crate::proofs::ErrorLemmas::unread_below))]
fn has_exclude<S: FileSystem>(
    system: &S,
    alloc: Global,
    folder: &str,
    entries: &[FolderEntry],
) -> Result<bool, WalkError>
    ensures reported { IfOk result (λ has. HasExclude (S.lists system.now) folder.now entries.now has) }
    ensures error { IfErr result (IsUnread (S.fails system.now) folder.now) }
{
    if !has_entry(entries, EntryKind::Folder, ".git") {
        return Ok(false);
    }
    let repository = joined(alloc, folder, ".git/")?;
    if !folder_has(system, alloc, &repository, EntryKind::Folder, "info")? {
        return Ok(false);
    }
    let info = joined(alloc, folder, ".git/info/")?;
    folder_has(system, alloc, &info, EntryKind::File, "exclude")
}

/// Reads the file of this name, whose patterns apply in a folder.
#[tactic(auto, using(crate::proofs::ErrorLemmas::unread_in))]
fn file_of<S: FileSystem>(
    system: &S,
    alloc: Global,
    folder: &str,
    name: &str,
) -> Result<IgnoreFile, WalkError>
    ensures read { IfOk result (λ file. IsOwn (S.holds system.now) folder.now name.now file) }
    ensures error { IfErr result (IsUnread (S.fails system.now) folder.now) }
{
    let path = joined(alloc, folder, name)?;
    match system.text(alloc, &path) {
        Ok(text) => Ok(IgnoreFile::of_text(alloc, folder.len(), &text)?),
        Err(error) => Err(unread(alloc, &path, error)),
    }
}

/// Adds the file of this name, if there is one.
#[tactic(auto, using(crate::proofs::WalkLemmas::with_own))]
fn add_if<S: FileSystem>(
    system: &S,
    alloc: Global,
    folder: &str,
    name: &str,
    is: bool,
    ignores: &mut Vec<IgnoreFile>,
) -> Result<(), WalkError>
    ensures added { OnOk result (HasOwnIf is (S.holds system.now) folder.now name.now
        ignores.old.items ignores.new.items) }
    ensures error { IfErr result (IsUnread (S.fails system.now) folder.now) }
{
    if !is {
        return Ok(());
    }
    let file = file_of(system, alloc, folder, name)?;
    match ignores.push(file) {
        Ok(()) => Ok(()),
        Err(_) => Err(WalkError::Memory),
    }
}

/// Adds the files with patterns of a folder with these entries: first the exclude file, then `.gitignore`,
/// which overrules it.
#[tactic(auto, using(crate::proofs::WalkLemmas::with_both))]
pub fn add_own<S: FileSystem>(
    system: &S,
    alloc: Global,
    folder: &str,
    entries: &[FolderEntry],
    ignores: &mut Vec<IgnoreFile>,
) -> Result<(), WalkError>
    ensures added { OnOk result (HasOwn (S.lists system.now) (S.holds system.now) folder.now entries.now
        ignores.old.items ignores.new.items) }
    ensures error { IfErr result (IsUnread (S.fails system.now) folder.now) }
{
    let excludes = has_exclude(system, alloc, folder, entries)?;
    let has_own = has_entry(entries, EntryKind::File, ".gitignore");
    add_if(
        system,
        alloc,
        folder,
        ".git/info/exclude",
        excludes,
        ignores,
    )?;
    add_if(system, alloc, folder, ".gitignore", has_own, ignores)?;
    Ok(())
}
