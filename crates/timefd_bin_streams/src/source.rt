//! Readers that keep failing once a call has failed, and how they and writers fail.

ghost use Rattle.std.specs.Prelude.{◌≡◌, ◌↔◌, ◌≤◌, ◌<◌, ℕ, Bool, List, Option, length, take, IfOk, IsErr, IsTrue, IsFalse};
ghost use Rattle.std.specs.Io.KnownBytes.{Consumes, IsAtEnd};

use std::io::Read;

/// A call failed. Every later call fails too.
#[derive(Debug, Clone, Copy, PartialEq, Eq)]
pub struct Failed;

/// Where bytes come from.
pub trait Source {
    /// The bytes that are left, if the source reports them.
    ghost remaining: { Self → Option (List ℕ) };

    /// Whether a call has failed.
    ghost has_failed: { Self → Bool };

    /// Reads bytes into the front of the buffer, and returns how many: 0 only at the end, or if the
    /// buffer is empty.
    fn read(&mut self, buf: &mut [u8]) -> Result<usize, Failed>
        ensures within { IfOk result (λ n. n ≤ length buf.new) }
        ensures moves { IfOk result
            (λ n. Consumes (remaining self.old) (remaining self.new) (take n buf.new)) }
        ensures at_end { IfOk result (λ n. n ≡ 0 → 0 < length buf.new
            → IsAtEnd (remaining self.new)) }
        ensures fails { IsErr result ↔ IsTrue (has_failed self.new) }
        ensures stays { IsTrue (has_failed self.old) → IsTrue (has_failed self.new) };
}

/// A reader of the standard library as a source, for which any error is a failure.
#[derive(Drop)]
pub struct FromReader<R> {
    inner: R,
    has_failed: bool,
}

impl<R: Read> FromReader<R> {
    /// The source of the reader's bytes.
    pub fn new(inner: R) -> Self
        ensures bytes { ⟦<FromReader<R> as Source>⟧.remaining result ≡ R.remaining inner }
        ensures works { IsFalse (⟦<FromReader<R> as Source>⟧.has_failed result) }
    {
        FromReader {
            inner,
            has_failed: false,
        }
    }
}

impl<R: Read> Source for FromReader<R> {
    ghost remaining = { λ source. R.remaining source.inner };

    ghost has_failed = { λ source. source.has_failed };

    fn read(&mut self, buf: &mut [u8]) -> Result<usize, Failed> {
        if self.has_failed {
            return Err(Failed);
        }
        match self.inner.read(buf) {
            Ok(n) => Ok(n),
            Err(_) => {
                self.has_failed = true;
                Err(Failed)
            }
        }
    }
}
