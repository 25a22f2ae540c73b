//! A reader and a writer over memory, one of whose calls may fail.

use crate::end::RunEnd;
use crate::kind::Kind;
use crate::run::run;
use std::alloc::Global;
use std::io;
use std::io::{ErrorKind, Read, Write};
use timefd_bin_streams::{FromReader, ToWriter};

/// What a test says if an allocation fails.
pub const AMPLE: &str = "memory suffices";

/// Counts calls down to the one that fails.
#[derive(Clone, Copy)]
pub struct Countdown(pub Option<usize>);

impl Countdown {
    /// Whether this call fails. After that none does.
    fn is_over(&mut self) -> bool {
        let left = self.0;
        self.0 = left.and_then(|calls| calls.checked_sub(1));
        left == Some(0)
    }
}

/// A reader of bytes, at most `most` per call.
#[derive(Drop)]
pub struct Feed<'a> {
    pub left: &'a [u8],
    pub most: usize,
    pub failure: Countdown,
}

impl<'a> Feed<'a> {
    /// A reader none of whose calls fails.
    pub(super) fn new(bytes: &'a [u8]) -> Self {
        Feed {
            left: bytes,
            most: usize::MAX,
            failure: Countdown(None),
        }
    }
}

impl Read for Feed<'_> {
    fn read(&mut self, buf: &mut [u8]) -> io::Result<usize> {
        if self.failure.is_over() {
            return Err(io::Error::from(ErrorKind::Interrupted));
        }
        let n = self.left.len().min(self.most).min(buf.len());
        buf[..n].copy_from_slice(&self.left[..n]);
        self.left = &self.left[n..];
        Ok(n)
    }
}

/// A writer that takes at most `most` bytes per call. The call that fails returns an error, or
/// takes no byte if the writer stalls.
#[derive(Drop)]
pub struct Log {
    pub written: Vec<u8>,
    pub is_flushed: bool,
    pub most: usize,
    pub failure: Countdown,
    pub stalls: bool,
}

impl Log {
    /// A writer none of whose calls fails.
    pub(super) fn new(alloc: Global) -> Self {
        Log {
            written: Vec::new(alloc),
            is_flushed: false,
            most: usize::MAX,
            failure: Countdown(None),
            stalls: false,
        }
    }
}

impl Write for Log {
    fn write(&mut self, buf: &[u8]) -> io::Result<usize> {
        if self.failure.is_over() {
            if self.stalls {
                return Ok(0);
            }
            return Err(io::Error::from(ErrorKind::Interrupted));
        }
        let n = buf.len().min(self.most);
        self.written.extend_from_slice(&buf[..n])?;
        self.is_flushed = false;
        Ok(n)
    }

    fn flush(&mut self) -> io::Result<()> {
        if self.failure.is_over() {
            return Err(io::Error::from(ErrorKind::Interrupted));
        }
        self.is_flushed = true;
        Ok(())
    }
}

/// How a run from the reader to the writer ends.
pub(super) fn run_over(alloc: Global, kind: Kind, from: &mut Feed<'_>, to: &mut Log) -> RunEnd {
    let mut reader = FromReader::new(from);
    let mut writer = ToWriter::new(to);
    run(alloc, kind, &mut reader, &mut writer)
}
