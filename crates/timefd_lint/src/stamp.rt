//! A file as the system knows it: whether it may be replaced, and whether it has changed.

ghost use Rattle.std.specs.Prelude.{◌≡◌, ◌↔◌, IsTrue, bit_and};
ghost use Rattle.std.specs.Fs.{IsFile, file_type, metadata_len, metadata_mode};

use std::fs::Metadata;
use std::os::unix::fs::MetadataExt;

// The bits of a mode for setuid, setgid and sticky.
const SPECIAL: u32 = 0o7000;

/// A file at one point in time.
#[derive(Clone, Copy)]
pub struct Stamp {
    pub device: u64,
    pub inode: u64,
    pub size: u64,
    /// When it last changed, its names and its mode included: seconds, and nanoseconds.
    pub changed: i64,
    pub changed_nanoseconds: i64,
}

impl Stamp {
    /// The stamp of a file with this metadata.
    pub fn of(metadata: &Metadata) -> Stamp
        ensures { result.size ≡ metadata_len metadata.now }
    {
        Stamp {
            device: metadata.dev(),
            inode: metadata.ino(),
            size: metadata.size(),
            changed: metadata.ctime(),
            changed_nanoseconds: metadata.ctime_nsec(),
        }
    }

    /// Whether nothing has changed between the two.
    pub fn is(self, other: Stamp) -> bool
        ensures { IsTrue result ↔ self ≡ other }
    {
        self.device == other.device
            && self.inode == other.inode
            && self.size == other.size
            && self.changed == other.changed
            && self.changed_nanoseconds == other.changed_nanoseconds
    }
}

/// Whether a file may be replaced by another: it is regular, without setuid, setgid and sticky.
pub fn may_be_replaced(metadata: &Metadata) -> bool
    ensures { IsTrue result ↔ (IsFile (file_type metadata.now)
        × (bit_and (metadata_mode metadata.now) 0o7000 ≡ 0)) }
{
    metadata.is_file() && metadata.mode() & SPECIAL == 0
}
