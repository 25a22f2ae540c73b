//! Why there is no report on a text.

ghost use Rattle.std.specs.Prelude.{◌≡◌};
ghost use Rattle.timefd_web.specs.Answers.{status_of};

use crate::answer::{NO_LANGUAGE, NO_MEMORY, NOT_UTF8, OUT_OF_RANGE};

/// Why there is no report on a text.
#[derive(Debug, Clone, Copy, PartialEq, Eq)]
pub enum Silence {
    /// The bytes aren't UTF-8.
    NotUtf8,
    /// Memory ran out.
    NoMemory,
    /// No language has the number.
    NoLanguage,
    /// A number of the moment is out of its range.
    OutOfRange,
}

impl Silence {
    /// The status for the reason.
    pub fn status(self) -> u32
        ensures { result ≡ status_of self }
    {
        match self {
            Silence::NotUtf8 => NOT_UTF8,
            Silence::NoMemory => NO_MEMORY,
            Silence::NoLanguage => NO_LANGUAGE,
            Silence::OutOfRange => OUT_OF_RANGE,
        }
    }
}
