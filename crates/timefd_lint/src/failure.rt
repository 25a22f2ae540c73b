//! Why a file can't be read or replaced, in words.

ghost use Rattle.std.specs.Prelude.{◌≡◌};
ghost use Rattle.timefd_lint.specs.Failures as spec;

use std::io::ErrorKind;

/// Why a file can't be read or replaced.
#[derive(Clone, Copy)]
pub enum Failure {
    /// No file has this name.
    Absent,
    /// The name is a folder's.
    Folder,
    /// The system doesn't permit to read it.
    Forbidden,
    /// It can't be read for another reason.
    Unread,
    /// It isn't a regular file but a device or a pipe, and lines can't be rewritten in it.
    NotRegular,
    /// It has setuid, setgid or sticky set, and a new file wouldn't have them.
    Special,
    /// A new file would belong to another user or group.
    Foreign,
    /// The name that the new file would have until it is complete is taken.
    Occupied,
    /// The file has changed since it was read.
    Changed,
    /// It can't be written back for another reason.
    Unwritten,
}

/// Why a file isn't opened.
#[derive(Clone, Copy)]
pub enum OpenError {
    /// Memory ran out.
    Memory,
    /// The file fails for this reason.
    Failed(Failure),
}

/// The failure for an error of the system that occurred while reading.
pub fn unread(kind: ErrorKind) -> Failure
    ensures { result ≡ spec.unread kind }
{
    match kind {
        ErrorKind::NotFound => Failure::Absent,
        ErrorKind::IsADirectory => Failure::Folder,
        ErrorKind::PermissionDenied => Failure::Forbidden,
        _ => Failure::Unread,
    }
}

impl Failure {
    /// The failure's code, as reports show it.
    pub fn code(self) -> &'static str
        ensures { result.now ≡ spec.code self }
    {
        match self {
            Failure::Absent | Failure::Folder | Failure::Forbidden | Failure::Unread => {
                "unreadable"
            }
            Failure::NotRegular
            | Failure::Special
            | Failure::Foreign
            | Failure::Occupied
            | Failure::Changed
            | Failure::Unwritten => "unwritable",
        }
    }

    /// The failure as a sentence.
    pub fn sentence(self) -> &'static str
        ensures { result.now ≡ spec.sentence self }
    {
        match self {
            Failure::Absent => "the file can't be read: no such file",
            Failure::Folder => "the file can't be read: it is a folder",
            Failure::Forbidden => "the file can't be read: permission denied",
            Failure::Unread => "the file can't be read",
            Failure::NotRegular => "the file can't be rewritten: it isn't a regular file",
            Failure::Special => {
                "the file can't be written back: it has setuid, setgid or sticky set"
            }
            Failure::Foreign => {
                "the file can't be written back: it is another user's or another group's"
            }
            Failure::Occupied => {
                "the file can't be written back: there is one of its name and .timefd_lint"
            }
            Failure::Changed => "the file can't be rewritten: it has changed meanwhile",
            Failure::Unwritten => "the file can't be written back",
        }
    }
}
