//! Readers with a buffer, whose bytes are taken line by line or many at once.

ghost use Rattle.std.specs.Prelude.{◌≡◌, ◌≤◌, ◌<◌, ◌+◌, ◌++◌, ℕ, [], Bool, List, Option, take, vec_len, IfOk, IfErr, IfSome, OnOk, IsTrue, IsFalse};
ghost use Rattle.std.specs.Io.{StartsWith};
ghost use Rattle.std.specs.Io.BufRead.{DropsThrough, take_through};
ghost use Rattle.std.specs.Io.Buffered.{reader_buffer, reader_remaining};
ghost use Rattle.std.specs.Io.KnownBytes.{Consumes, IsAtEnd, Keeps};
ghost use Rattle.timefd_bin_streams.specs.Buffered.{FailsOnlyIf};

use crate::condition::Condition;
use std::io::{BufRead, BufReader, ErrorKind, Read};

/// Why a buffered source wasn't read.
#[derive(Debug, Clone, Copy, PartialEq, Eq)]
pub enum BufferedError {
    /// Memory ran out.
    Memory,
    /// The source has failed, by an error of this kind.
    Failed(ErrorKind),
}

/// Where lines come from: a source with a buffer. Once it has failed, every later call fails too.
pub trait BufferedSource {
    /// The bytes that are left, if the source reports them.
    ghost remaining: { Self → Option (List ℕ) };

    /// The bytes in the buffer.
    ghost buffered: { Self → List ℕ };

    /// Whether a call has failed.
    ghost has_failed: { Self → Bool };

    /// How many more calls there can be before one fails. So a loop over the lines of a source ends.
    ghost calls_left: { Self → ℕ };

    /// Reads bytes into the buffer if it is empty. After that it is empty only at the end.
    fn fill(&mut self) -> Result<(), BufferedError>
        ensures bytes { Keeps (remaining self.old) (remaining self.new) }
        ensures at_end { OnOk result (buffered self.new ≡ [] → IsAtEnd (remaining self.old)) }
        ensures calls { OnOk result (calls_left self.new < calls_left self.old) }
        ensures works { OnOk result (IsFalse (has_failed self.new)) }
        ensures fails { IfErr result (FailsOnlyIf (has_failed self.new)) }
        ensures stays { IsTrue (has_failed self.old) → IsTrue (has_failed self.new) };

    /// The bytes in the buffer.
    fn buffer(&self) -> &[u8]
        ensures { result.now ≡ buffered self.now };

    /// Takes bytes from the front of the buffer: at most all of them.
    fn consume(&mut self, amount: usize)
        ensures bytes { Consumes (remaining self.old) (remaining self.new)
            (take amount (buffered self.old)) }
        ensures calls { calls_left self.new ≡ calls_left self.old }
        ensures same { has_failed self.new ≡ has_failed self.old };

    /// Appends the bytes up to the first such byte, or all if there is none. Returns how many they are.
    fn read_until(&mut self, byte: u8, bytes: &mut Vec<u8>) -> Result<usize, BufferedError>
        ensures ok { IfOk result (λ n. vec_len bytes.new ≡ vec_len bytes.old + n) }
        ensures appends { StartsWith bytes.new.items bytes.old.items }
        ensures bytes { OnOk result (IfSome (remaining self.old)
            (λ xs. bytes.new.items ≡ bytes.old.items ++ take_through byte xs)) }
        ensures rest { OnOk result (DropsThrough (remaining self.old) (remaining self.new) byte) }
        ensures at_end { IfOk result (λ n. n ≡ 0 → IsAtEnd (remaining self.old)) }
        ensures calls { OnOk result (calls_left self.new < calls_left self.old) }
        ensures works { OnOk result (IsFalse (has_failed self.new)) }
        ensures fails { IfErr result (FailsOnlyIf (has_failed self.new)) }
        ensures stays { IsTrue (has_failed self.old) → IsTrue (has_failed self.new) };

    /// Appends all bytes that are left. Returns how many they are.
    fn read_to_end(&mut self, bytes: &mut Vec<u8>) -> Result<usize, BufferedError>
        ensures ok { IfOk result (λ n. vec_len bytes.new ≡ vec_len bytes.old + n) }
        ensures appends { StartsWith bytes.new.items bytes.old.items }
        ensures bytes { OnOk result (IfSome (remaining self.old)
            (λ xs. bytes.new.items ≡ bytes.old.items ++ xs)) }
        ensures at_end { OnOk result (IsAtEnd (remaining self.new)) }
        ensures works { OnOk result (IsFalse (has_failed self.new)) }
        ensures fails { IfErr result (FailsOnlyIf (has_failed self.new)) }
        ensures stays { IsTrue (has_failed self.old) → IsTrue (has_failed self.new) };
}

/// A reader of the standard library as a buffered source. Any error is a failure, unless memory ran out.
#[derive(Drop)]
pub struct FromBufReader<R> {
    inner: BufReader<R>,
    condition: Condition,
}

impl<R: Read> FromBufReader<R> {
    /// The source of the reader's bytes.
    pub fn new(inner: BufReader<R>) -> Self
        ensures bytes { ⟦<FromBufReader<R> as BufferedSource>⟧.remaining result
            ≡ reader_remaining R.remaining inner }
        ensures works { IsFalse (⟦<FromBufReader<R> as BufferedSource>⟧.has_failed result) }
    {
        FromBufReader {
            inner,
            condition: Condition::new(),
        }
    }
}

// Reads into an empty buffer. A read that is interrupted is tried again.
fn fill_retrying<R: Read>(reader: &mut BufReader<R>) -> Result<(), ErrorKind>
    ensures bytes { Keeps (reader_remaining R.remaining reader.old)
        (reader_remaining R.remaining reader.new) }
    ensures at_end { OnOk result (reader_buffer reader.new ≡ []
        → IsAtEnd (reader_remaining R.remaining reader.old)) }
{
    'tries: for _ in 0..u64::MAX {
        match reader.fill_buf() {
            Ok(_) => return Ok(()),
            Err(error) => {
                let kind = error.kind();
                if kind != ErrorKind::Interrupted {
                    return Err(kind);
                }
            }
        }
    }
    Err(ErrorKind::Interrupted)
}

impl<R: Read> BufferedSource for FromBufReader<R> {
    ghost use Rattle.std.specs.Io.Buffered.{reader_buffer, reader_remaining};
    ghost use Rattle.timefd_bin_streams.specs.Buffered.{has_failed};

    ghost remaining = { λ source. reader_remaining R.remaining source.inner };

    ghost buffered = { λ source. reader_buffer source.inner };

    ghost has_failed = { λ source. has_failed source.condition };

    ghost calls_left = { λ source. source.condition.calls_left };

    fn fill(&mut self) -> Result<(), BufferedError> {
        self.condition.begin_call()?;
        match fill_retrying(&mut self.inner) {
            Ok(()) => Ok(()),
            Err(kind) => Err(self.condition.after(kind)),
        }
    }

    fn buffer(&self) -> &[u8] {
        self.inner.buffer()
    }

    fn consume(&mut self, amount: usize) {
        self.inner.consume(amount);
    }

    fn read_until(&mut self, byte: u8, bytes: &mut Vec<u8>) -> Result<usize, BufferedError> {
        self.condition.begin_call()?;
        match self.inner.read_until(byte, bytes) {
            Ok(count) => Ok(count),
            Err(error) => Err(self.condition.after(error.kind())),
        }
    }

    fn read_to_end(&mut self, bytes: &mut Vec<u8>) -> Result<usize, BufferedError> {
        self.condition.begin_call()?;
        match self.inner.read_to_end(bytes) {
            Ok(count) => Ok(count),
            Err(error) => Err(self.condition.after(error.kind())),
        }
    }
}
