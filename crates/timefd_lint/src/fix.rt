//! Files whose lines are rewritten: the whole file is read, and a new one replaces it.

ghost use Rattle.std.specs.Prelude.{◌≡◌, ◌↔◌, IfOk, OnOk, None, Some, bit_and, true, vec_len};
ghost use Rattle.std.specs.Fs.{IsDir, IsFile, asks_create_new, asks_write, file_type, metadata_len, metadata_mode};
ghost use Rattle.std.specs.Io.KnownBytes.{Appends};
ghost use Rattle.timefd_lint.specs.declared.failure.Failure.TheVariants as failures;

use crate::failure::{Failure, unread};
use crate::stamp::{Stamp, may_be_replaced};
use std::alloc::{AllocError, Global};
use std::fs::{self, File, Metadata, OpenFile, OpenOptions};
use std::io::{Error, ErrorKind, Read, Write};
use std::os::unix::fs::{MetadataExt, OpenOptionsExt};
use std::rt::Files;

// Appended to the old file's name to get the new file's.
const BESIDE: &str = ".timefd_lint";

/// Why a file is left as it was.
#[derive(Clone, Copy)]
pub enum FixError {
    /// Memory ran out.
    Memory,
    /// The file fails for this reason.
    Failed(Failure),
}

impl From<AllocError> for FixError {
    fn from(_: AllocError) -> FixError {
        FixError::Memory
    }
}

// The error for a file that can't be read.
fn unreadable(error: Error) -> FixError {
    match error.kind() {
        ErrorKind::OutOfMemory => FixError::Memory,
        kind => FixError::Failed(unread(kind)),
    }
}

// The error for a new file that can't be written.
fn unwritable(error: Error) -> FixError {
    match error.kind() {
        ErrorKind::OutOfMemory => FixError::Memory,
        _ => FixError::Failed(Failure::Unwritten),
    }
}

fn changed() -> FixError {
    FixError::Failed(Failure::Changed)
}

/// A file that was read whole, and what the system knew about it at that time.
#[derive(Drop)]
pub struct Original<F: Drop> {
    pub bytes: Vec<u8>,
    file: F,
    found: Metadata,
}

impl<F: Read + OpenFile + Drop> Original<F> {
    /// Reads a regular file. An `Err` says why that failed.
    pub fn read<R: Files<File = F>>(
        rt: &R,
        alloc: Global,
        name: &str,
    ) -> Result<Original<F>, FixError>
        ensures { IfOk result (λ old. vec_len old.bytes ≡ metadata_len old.found) }
    {
        let mut file = opened(rt, name)?;
        let found = file.metadata().map_err(unreadable)?;
        let bytes = read_all(alloc, &mut file, &found)?;
        Ok(Original { bytes, file, found })
    }

    /// Replaces this file with a new one. It must still be as it was read. The new file is written next to it
    /// and takes its name once it is complete. If the name is a link, the file that it leads to is replaced.
    /// If anything fails, the old file stays as it was.
    pub fn replace<R: Files<File = F>>(
        &self,
        rt: &R,
        alloc: Global,
        name: &str,
        bytes: &[u8],
    ) -> Result<(), FixError>
        ensures { OnOk result (IsFile (file_type self.now.found)
            × (bit_and (metadata_mode self.now.found) 0o7000 ≡ 0)) }
    {
        if !may_be_replaced(&self.found) {
            return Err(FixError::Failed(Failure::Special));
        }
        let named = fs::symlink_metadata(rt, name).map_err(unwritable)?;
        if named.is_symlink() {
            let target = rt.canonicalize(alloc, name).map_err(unwritable)?;
            replace_at(rt, alloc, target.as_str(), &self.file, &self.found, bytes)
        } else {
            replace_at(rt, alloc, name, &self.file, &self.found, bytes)
        }
    }
}

// Opens a regular file. Anything else is refused before it is opened, as opening a pipe that nobody writes to
// would block.
fn opened<R: Files>(rt: &R, name: &str) -> Result<R::File, FixError> {
    let found = fs::metadata(rt, name).map_err(unreadable)?;
    match not_opened(&found) {
        Some(failure) => Err(FixError::Failed(failure)),
        None => File::open(rt, name).map_err(unreadable),
    }
}

// Why a file with this metadata isn't opened. `None` for a regular file.
fn not_opened(found: &Metadata) -> Option<Failure>
    ensures regular { result ≡ None ↔ IsFile (file_type found.now) }
    ensures folder { result ≡ Some failures.Folder → IsDir (file_type found.now) }
{
    if found.is_file() {
        None
    } else if found.is_dir() {
        Some(Failure::Folder)
    } else {
        Some(Failure::NotRegular)
    }
}

// All bytes of a file. It must have as many as when it was found.
fn read_all<F: Read>(alloc: Global, file: &mut F, found: &Metadata) -> Result<Vec<u8>, FixError>
    ensures { IfOk result (λ bytes. vec_len bytes ≡ metadata_len found.now) }
{
    let mut bytes = Vec::new(alloc);
    let most = found.len().saturating_add(1);
    file.by_ref()
        .take(most)
        .read_to_end(&mut bytes)
        .map_err(unreadable)?;
    if bytes.len() as u64 == found.len() {
        Ok(bytes)
    } else {
        Err(changed())
    }
}

// Replaces an old file with a new one, under a name that isn't a link.
fn replace_at<R: Files>(
    rt: &R,
    alloc: Global,
    name: &str,
    old: &R::File,
    found: &Metadata,
    bytes: &[u8],
) -> Result<(), FixError> {
    let beside = format!(in alloc; "{name}{BESIDE}")?;
    let new = created(rt, &beside)?;
    let replaced = match written(new, found, bytes) {
        Ok(()) => renamed(rt, name, &beside, old, found),
        Err(error) => Err(error),
    };
    if replaced.is_err() {
        // The first error is reported, this one is not.
        let _ = fs::remove_file(rt, beside.as_str());
    }
    replaced
}

// How a new file is opened: never in place of an existing one, and so that nobody else can read it while it is
// written.
fn new_options() -> OpenOptions
    ensures new { asks_create_new result ≡ true }
    ensures written { asks_write result ≡ true }
{
    let mut options = OpenOptions::new();
    options.mode(0o600);
    options.write(true);
    options.create_new(true);
    options
}

// Creates a new file that nobody else can read while it is written.
fn created<R: Files>(rt: &R, name: &str) -> Result<R::File, FixError> {
    match new_options().open(rt, name) {
        Ok(file) => Ok(file),
        Err(error) if error.kind() == ErrorKind::AlreadyExists => {
            Err(FixError::Failed(Failure::Occupied))
        }
        Err(error) => Err(unwritable(error)),
    }
}

// Writes all bytes into a new file, and closes it.
fn written<F: Write + OpenFile + Drop>(
    new: F,
    found: &Metadata,
    bytes: &[u8],
) -> Result<(), FixError> {
    let mut new = new;
    fill(&mut new, found, bytes)
}

// Writes all bytes into a new file, gives it the old one's owner, group and permissions, and syncs it to the
// disk.
fn fill<F: Write + OpenFile>(new: &mut F, found: &Metadata, bytes: &[u8]) -> Result<(), FixError>
    ensures content { IfOk result (λ _. Appends (F.contents new.old) (F.contents new.new)
        bytes.now) }
{
    let made = new.metadata().map_err(unwritable)?;
    if made.uid() != found.uid() || made.gid() != found.gid() {
        return Err(FixError::Failed(Failure::Foreign));
    }
    new.write_all(bytes).map_err(unwritable)?;
    new.flush().map_err(unwritable)?;
    new.set_permissions(found.permissions())
        .map_err(unwritable)?;
    new.sync_all().map_err(unwritable)
}

// Renames the new file to the old one's name and syncs the folder to the disk. Fails if the old file has
// changed in the meantime or its name leads to another file.
fn renamed<R: Files>(
    rt: &R,
    name: &str,
    beside: &str,
    old: &R::File,
    found: &Metadata,
) -> Result<(), FixError> {
    let stamp = Stamp::of(found);
    let opened = old.metadata().map_err(unwritable)?;
    let named = fs::metadata(rt, name).map_err(unwritable)?;
    if !stamp.is(Stamp::of(&opened)) || !stamp.is(Stamp::of(&named)) {
        return Err(changed());
    }
    fs::rename(rt, beside, name).map_err(unwritable)?;
    let folder = match name.rsplit_once('/') {
        Some(("", _)) => "/",
        Some((folder, _)) => folder,
        None => ".",
    };
    // The new file already has its name. If the folder can't be synced, a crash leaves either the old or the
    // new file, and either is complete.
    if let Ok(folder) = File::open(rt, folder) {
        let _ = folder.sync_all();
    }
    Ok(())
}
