//! Bytes in memory, as a source of lines.

ghost use Rattle.std.specs.Prelude.{◌≡◌, ◌<◌, Some, IfErr, OnOk, false};
ghost use Rattle.timefd_bin_streams.specs.declared.buffered.BufferedError.TheVariants as errors;

use crate::buffered::{BufferedError, BufferedSource};
use std::io::{BufRead, Read};

/// Bytes in memory as a buffered source. It never fails: only memory for what it appends can run out.
#[derive(Drop)]
pub struct InMemory<'a> {
    bytes: &'a [u8],
    calls_left: u64,
}

impl<'a> InMemory<'a> {
    /// The source of these bytes.
    pub fn new(bytes: &'a [u8]) -> Self
        ensures { ⟦<InMemory<'a> as BufferedSource>⟧.remaining result ≡ Some bytes.now }
    {
        InMemory {
            bytes,
            calls_left: u64::MAX,
        }
    }

    // Counts one more call. No bytes in memory take as many calls as there can be, if each but the last takes some.
    fn begin_call(&mut self) -> Result<(), BufferedError>
        ensures calls { OnOk result (self.new.calls_left < self.old.calls_left) }
        ensures bytes { self.new.bytes ≡ self.old.bytes }
        ensures memory { IfErr result (λ e. e ≡ errors.Memory) }
    {
        match self.calls_left.checked_sub(1) {
            Some(left) => {
                self.calls_left = left;
                Ok(())
            }
            None => Err(BufferedError::Memory),
        }
    }
}

impl BufferedSource for InMemory<'_> {
    ghost use Rattle.std.specs.Prelude.{Some, false};

    ghost remaining = { λ source. Some source.bytes.now };

    ghost buffered = { λ source. source.bytes.now };

    ghost has_failed = { λ _. false };

    ghost calls_left = { λ source. source.calls_left };

    fn fill(&mut self) -> Result<(), BufferedError> {
        self.begin_call()
    }

    fn buffer(&self) -> &[u8] {
        self.bytes
    }

    fn consume(&mut self, amount: usize) {
        self.bytes.consume(amount);
    }

    fn read_until(&mut self, byte: u8, bytes: &mut Vec<u8>) -> Result<usize, BufferedError> {
        self.begin_call()?;
        match self.bytes.read_until(byte, bytes) {
            Ok(count) => Ok(count),
            Err(_) => Err(BufferedError::Memory),
        }
    }

    fn read_to_end(&mut self, bytes: &mut Vec<u8>) -> Result<usize, BufferedError> {
        self.begin_call()?;
        match self.bytes.read_to_end(bytes) {
            Ok(count) => Ok(count),
            Err(_) => Err(BufferedError::Memory),
        }
    }
}
