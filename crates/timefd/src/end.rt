//! How a run ends, and the exit status that reports it.

ghost use Rattle.std.specs.Prelude.{◌≡◌};
ghost use Rattle.timefd.specs.Status.{status};

/// How a run ends.
#[derive(Debug, Clone, Copy, PartialEq, Eq)]
pub enum RunEnd {
    /// The text is a description, and the line says how much it holds.
    Accepted,
    /// The text isn't a description, and the line says why.
    Refused,
    /// Memory ran out, and nothing is written.
    Memory,
    /// The reader failed, and nothing is written.
    ReadFailed,
    /// The writer failed, and part of the line may be out.
    WriteFailed,
    /// The bytes aren't UTF-8, and nothing is written.
    NotUtf8,
}

impl RunEnd {
    /// The exit status of the program.
    pub fn status(self) -> u8
        ensures { result ≡ status self }
    {
        match self {
            RunEnd::Accepted => 0,
            RunEnd::Refused => 1,
            RunEnd::Memory => 3,
            RunEnd::ReadFailed | RunEnd::WriteFailed => 4,
            RunEnd::NotUtf8 => 5,
        }
    }
}
