//! Lists the sources below folders, except those that are excluded or that `.gitignore` files ignore.
#![tactic(auto)]

mod around;
mod class;
mod ends;
mod entry;
mod front;
mod groups;
mod ignore_file;
mod last_name;
mod line;
mod matching;
mod names;
mod own;
mod pattern;
mod ranges;
mod reading;
mod rules;
mod start;
mod system;
mod token;
mod tokens;
mod upwards;
mod walk;
mod walk_error;

pub use class::{ByteClass, ByteRange};
pub use entry::{EntryKind, EntryRole, FolderEntry};
pub use front::{folders_above, folders_around, front_below};
pub use groups::{NameGroup, found_for, grouped};
pub use ignore_file::IgnoreFile;
pub use matching::matches;
pub use names::{SoughtFiles, expanded};
pub use pattern::Pattern;
pub use reading::pattern_of;
pub use rules::{PatternVerdict, is_ignored, is_passed_over};
pub use start::Excluded;
pub use system::{FileError, FileSystem};
pub use token::PatternToken;
pub use upwards::{Nearest, first_upwards};
pub use walk_error::{WalkError, WalkReason};
