//! The sources below a folder.

ghost use Rattle.std.specs.Prelude.{◌≡◌, ◌++◌, [], List, length, string_bytes, IfOk, OnOk};
ghost use Rattle.std.specs.Result.{IfErr};
ghost use Rattle.timefd_lint_files.specs.Errors.{IsBelow, IsUnread, IsWalkError};
ghost use Rattle.timefd_lint_files.specs.Matching.{Text};
ghost use Rattle.timefd_lint_files.specs.Walks.{AreListed, IsLookedAt, IsWalk, text_any, texts};

use crate::entry::{EntryRole, FolderEntry, joined};
use crate::ignore_file::IgnoreFile;
use crate::own::add_own;
use crate::rules::is_passed_over;
use crate::system::FileSystem;
use crate::walk_error::{WalkError, WalkReason, failed, unread};
use std::alloc::{AllocError, Global};

/// How many folders may be nested in one another.
pub const DEPTH_LIMIT: usize = 255;

/// What a walk takes.
#[derive(Clone, Copy)]
pub struct Choice<'a> {
    /// The endings of the names of sources.
    pub endings: &'a [&'a str],
    /// What is passed over, whatever other files with patterns say.
    pub excluded: &'a [IgnoreFile],
}

/// Where a walk is, and what it has found so far.
#[derive(Drop)]
pub struct FolderWalk {
    /// The files with patterns of the folders around the current position, from the top.
    pub ignores: Vec<IgnoreFile>,
    /// Working space.
    pub row: Vec<bool>,
    /// The names of the sources so far.
    pub names: Vec<String>,
}

impl FolderWalk {
    pub fn new(alloc: Global) -> FolderWalk
        ensures ignores { result.ignores.items ≡ [] }
        ensures names { result.names.items ≡ [] }
    {
        FolderWalk {
            ignores: Vec::new(alloc),
            row: Vec::new(alloc),
            names: Vec::new(alloc),
        }
    }

    pub fn into_names(self) -> Vec<String>
        ensures { result ≡ self.names }
    {
        let FolderWalk { names, .. } = self;
        names
    }
}

/// The entries of a folder, sorted by name.
#[tactic(auto, using(crate::proofs::ErrorLemmas::unread_at))]
fn sorted_entries<S: FileSystem>(
    system: &S,
    alloc: Global,
    folder: &str,
) -> Result<Vec<FolderEntry>, WalkError>
    ensures listed { IfOk result (λ entries. AreListed (S.lists system.now folder.now) entries.items) }
    ensures error { IfErr result (IsUnread (S.fails system.now) folder.now) }
{
    match system.entries(alloc, folder) {
        Ok(mut entries) => {
            entries.sort_unstable();
            Ok(entries)
        }
        Err(error) => Err(unread(alloc, folder, error)),
    }
}

/// Adds the name of an entry that is a source, or returns the name of a folder to go into. Passes over what
/// is excluded or ignored.
fn look_at(
    alloc: Global,
    choice: Choice<'_>,
    walk: &mut FolderWalk,
    folder: &str,
    entry: &FolderEntry,
) -> Result<Option<String>, AllocError>
    ensures looked { IfOk result (λ below. IsLookedAt choice.entry.endings.now choice.entry.excluded.now
        walk.old.ignores.items folder.now entry.now
        (texts walk.old.names.items) (texts walk.new.names.items) (text_any below)) }
    ensures ignores { walk.new.ignores.items ≡ walk.old.ignores.items }
{
    let role = entry.role(choice.endings);
    if role == EntryRole::None {
        return Ok(None);
    }
    let mut path = joined(alloc, folder, &entry.name)?;
    let is_folder = role == EntryRole::Folder;
    let bytes = path.as_bytes();
    if is_passed_over(
        choice.excluded,
        &walk.ignores,
        bytes,
        is_folder,
        &mut walk.row,
    )? {
        return Ok(None);
    }
    if is_folder {
        path.push('/')?;
        return Ok(Some(path));
    }
    walk.names.push(path).map_err(AllocError::from)?;
    Ok(None)
}

/// Adds the names of the sources below a folder, whose name ends in `/` or is empty. Folders may be nested in
/// one another up to this depth. An `Err` says why the walk ends early.
pub fn walk_folder<S: FileSystem>(
    system: &S,
    alloc: Global,
    choice: Choice<'_>,
    walk: &mut FolderWalk,
    folder: &str,
    depth: usize,
) -> Result<(), WalkError>
    ensures found { OnOk result ((names : List Text)
        × (texts walk.new.names.items ≡ texts walk.old.names.items ++ names)
        × IsWalk choice.entry.endings.now choice.entry.excluded.now (S.lists system.now) (S.holds system.now)
        depth walk.old.ignores.items folder.now names) }
    ensures ignores { OnOk result (walk.new.ignores.items ≡ walk.old.ignores.items) }
    ensures error { IfErr result (IsWalkError (S.fails system.now) (IsBelow folder.now) depth) }
{
    if depth == 0 {
        return Err(failed(alloc, folder, WalkReason::TooDeep));
    }
    let entries = sorted_entries(system, alloc, folder)?;
    let outer = walk.ignores.len();
    add_own(system, alloc, folder, &entries, &mut walk.ignores)?;
    'entries: for at in 0..entries.len() {
        let Some(below) = look_at(alloc, choice, walk, folder, &entries[at])? else {
            continue;
        };
        walk_folder(system, alloc, choice, walk, &below, depth - 1)?;
    }
    walk.ignores.truncate(outer);
    Ok(())
}
