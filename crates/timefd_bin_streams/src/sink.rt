//! Writers that keep failing once a call has failed.

ghost use Rattle.std.specs.Prelude.{◌≡◌, ◌↔◌, ◌≤◌, ◌<◌, ℕ, Bool, List, Option, length, take, IfOk, OnOk, IsErr, IsTrue, IsFalse};
ghost use Rattle.std.specs.Io.KnownBytes.{Appends, Keeps};

use crate::source::Failed;
use std::io::Write;

/// Where bytes go.
pub trait Sink {
    /// The bytes that are written, if the sink reports them.
    ghost contents: { Self → Option (List ℕ) };

    /// Whether a call has failed.
    ghost has_failed: { Self → Bool };

    /// Whether all that is written is flushed.
    ghost is_flushed: { Self → Bool };

    /// Writes bytes from the front of the buffer, and returns how many: 0 only if the buffer is
    /// empty.
    fn write(&mut self, buf: &[u8]) -> Result<usize, Failed>
        ensures within { IfOk result (λ n. n ≤ length buf.now) }
        ensures some { IfOk result (λ n. 0 < length buf.now → 0 < n) }
        ensures moves { IfOk result
            (λ n. Appends (contents self.old) (contents self.new) (take n buf.now)) }
        ensures unflushed { IfOk result (λ n. 0 < n → IsFalse (is_flushed self.new)) }
        ensures fails { IsErr result ↔ IsTrue (has_failed self.new) }
        ensures stays { IsTrue (has_failed self.old) → IsTrue (has_failed self.new) };

    /// Writes all bytes of the buffer, without passing them on.
    fn put_all(&mut self, buf: &[u8]) -> Result<(), Failed>
        ensures bytes { OnOk result (Appends (contents self.old) (contents self.new) buf.now) }
        ensures unflushed { OnOk result (0 < length buf.now → IsFalse (is_flushed self.new)) }
        ensures fails { IsErr result ↔ IsTrue (has_failed self.new) }
        ensures stays { IsTrue (has_failed self.old) → IsTrue (has_failed self.new) };

    /// Passes on all that was written.
    fn flush(&mut self) -> Result<(), Failed>
        ensures kept { OnOk result (Keeps (contents self.old) (contents self.new)) }
        ensures flushed { OnOk result (IsTrue (is_flushed self.new)) }
        ensures fails { IsErr result ↔ IsTrue (has_failed self.new) }
        ensures stays { IsTrue (has_failed self.old) → IsTrue (has_failed self.new) };
}

// The state of a writer after the calls so far.
#[derive(Clone, Copy, PartialEq, Eq)]
enum State {
    Unflushed,
    Flushed,
    Failed,
}

/// A writer of the standard library as a sink. Any error is a failure, and so is a write that takes
/// no byte.
#[derive(Drop)]
pub struct ToWriter<W> {
    inner: W,
    state: State,
}

impl<W: Write> ToWriter<W> {
    /// The sink of the writer's bytes.
    pub fn new(inner: W) -> Self
        ensures bytes { ⟦<ToWriter<W> as Sink>⟧.contents result ≡ W.contents inner }
        ensures works { IsFalse (⟦<ToWriter<W> as Sink>⟧.has_failed result) }
        ensures unflushed { IsFalse (⟦<ToWriter<W> as Sink>⟧.is_flushed result) }
    {
        ToWriter {
            inner,
            state: State::Unflushed,
        }
    }

    /// The writer, with all that was written to the sink.
    pub fn into_inner(self) -> W
        ensures { W.contents result ≡ ⟦<ToWriter<W> as Sink>⟧.contents self }
    {
        self.inner
    }
}

impl<W: Write> Sink for ToWriter<W> {
    ghost use Rattle.timefd_bin_streams.specs.Streams.{is_failed, is_flushed};

    ghost contents = { λ sink. W.contents sink.inner };

    ghost has_failed = { λ sink. is_failed sink.state };

    ghost is_flushed = { λ sink. is_flushed sink.state };

    fn write(&mut self, buf: &[u8]) -> Result<usize, Failed> {
        if self.state == State::Failed {
            return Err(Failed);
        }
        match self.inner.write(buf) {
            Ok(n) if n > 0 || buf.is_empty() => {
                self.state = State::Unflushed;
                Ok(n)
            }
            Ok(_) | Err(_) => {
                self.state = State::Failed;
                Err(Failed)
            }
        }
    }

    fn put_all(&mut self, buf: &[u8]) -> Result<(), Failed> {
        if self.state == State::Failed {
            return Err(Failed);
        }
        match self.inner.write_all(buf) {
            Ok(()) => {
                self.state = State::Unflushed;
                Ok(())
            }
            Err(_) => {
                self.state = State::Failed;
                Err(Failed)
            }
        }
    }

    fn flush(&mut self) -> Result<(), Failed> {
        if self.state == State::Failed {
            return Err(Failed);
        }
        match self.inner.flush() {
            Ok(()) => {
                self.state = State::Flushed;
                Ok(())
            }
            Err(_) => {
                self.state = State::Failed;
                Err(Failed)
            }
        }
    }
}
