//! Where a run gets its files from.

ghost use Rattle.std.specs.Prelude.{Option, IfOk, IfErr, ⊤};
ghost use Rattle.timefd_parse.specs.Tree.{Text};
ghost use Rattle.timefd_lint.specs.declared.failure.OpenError.{OpenError};

use crate::failure::{OpenError, unread};
use std::alloc::Global;
use std::fs::File;
use std::io::BufReader;
use std::rt::Files;
use timefd_bin_streams::{BufferedSource, FromBufReader};

/// How many bytes are read at once.
pub const BUFFER: usize = 65_536;

/// Opens files by their names.
pub trait FileOpener {
    /// An opened file.
    type Opened: BufferedSource + Drop;

    // These may be the bytes of the file with this name, as far as they are known.
    ghost opens: { Self → Text → Option Text → Type 0 };

    // Opening the file with this name may fail for this reason.
    ghost fails: { Self → Text → OpenError → Type 0 };

    /// Opens the file with this name. An `Err` says why it isn't opened.
    fn open(&self, alloc: Global, name: &str) -> Result<Self::Opened, OpenError>
        ensures opened { IfOk result (λ file.
            opens self.now name.now (Self.Opened.remaining file)) }
        ensures unopened { IfErr result (fails self.now name.now) };
}

// The files of the system. Nothing is known about what they hold.
impl<R: Files> FileOpener for R {
    type Opened = FromBufReader<R::File>;

    ghost opens = { λ _ _ _. ⊤ };

    ghost fails = { λ _ _ _. ⊤ };

    fn open(&self, alloc: Global, name: &str) -> Result<FromBufReader<R::File>, OpenError> {
        match File::open(self, name) {
            Ok(file) => match BufReader::with_capacity(alloc, BUFFER, file) {
                Ok(reader) => Ok(FromBufReader::new(reader)),
                Err(_) => Err(OpenError::Memory),
            },
            Err(error) => Err(OpenError::Failed(unread(error.kind()))),
        }
    }
}
