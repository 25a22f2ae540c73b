//! The entries of a folder, and which of them a walk takes.

ghost use Rattle.std.specs.Prelude.{◌≡◌, ◌++◌, string_bytes, IfOk};
ghost use Rattle.timefd_lint_files.specs.Entries as spec;

use std::alloc::{AllocError, Global};

/// What kind of thing a name leads to.
#[derive(Clone, Copy, Debug, PartialEq, Eq, PartialOrd, Ord)]
pub enum EntryKind {
    /// A regular file.
    File,
    /// A folder.
    Folder,
    /// A link, a device, a pipe, a socket.
    Other,
}

/// An entry of a folder.
#[derive(PartialEq, Eq, PartialOrd, Ord, Drop)]
pub struct FolderEntry {
    /// The entry's name in its folder.
    pub name: String,
    pub kind: EntryKind,
}

/// What a walk does with an entry.
#[derive(Clone, Copy, Debug, PartialEq, Eq)]
pub enum EntryRole {
    /// The walk passes over it.
    None,
    /// The walk takes its name, unless it is ignored.
    Source,
    /// The walk goes into it, unless it is ignored.
    Folder,
}

impl FolderEntry {
    /// What a walk does with the entry. It passes over links, hidden entries, and files whose names have none
    /// of these endings.
    pub fn role(&self, endings: &[&str]) -> EntryRole
        ensures { result ≡ spec.role endings.now self.now }
    {
        let name = self.name.as_str().as_bytes();
        match self.kind {
            EntryKind::Folder if !is_hidden(name) => EntryRole::Folder,
            EntryKind::File if !is_hidden(name) && ends_in_any(name, endings) => EntryRole::Source,
            EntryKind::Folder | EntryKind::File | EntryKind::Other => EntryRole::None,
        }
    }

    /// Whether the entry has this kind and this name.
    fn is(&self, kind: EntryKind, name: &str) -> bool
        ensures { result ≡ spec.is_entry kind name.now self.now }
    {
        self.kind == kind && self.name.as_str() == name
    }
}

/// Whether one of the entries has this kind and this name.
pub fn has_entry(entries: &[FolderEntry], kind: EntryKind, name: &str) -> bool
    ensures { result ≡ spec.has_entry kind name.now entries.now }
{
    for entry in entries {
        if entry.is(kind, name) {
            return true;
        }
    }
    false
}

/// The path of the entry with this name in a folder, whose name ends in `/` or is empty. An `Err` says that
/// memory ran out.
pub fn joined(alloc: Global, folder: &str, name: &str) -> Result<String, AllocError>
    ensures { IfOk result (λ path. string_bytes path ≡ folder.now ++ name.now) }
{
    let mut path = String::from_str(alloc, folder)?;
    path.push_str(name)?;
    Ok(path)
}

/// Whether a name has one of these endings.
fn ends_in_any(name: &[u8], endings: &[&str]) -> bool
    ensures { result ≡ spec.is_source endings.now name.now }
{
    for ending in endings {
        if name.ends_with(ending.as_bytes()) {
            return true;
        }
    }
    false
}

/// Whether a name begins with a dot.
fn is_hidden(name: &[u8]) -> bool
    ensures { result ≡ spec.is_hidden name.now }
{
    name.starts_with(b".")
}
