//! The progress of a run over many files, shown at a terminal.

ghost use Rattle.std.specs.Prelude.{◌≡◌, ⊤};

use crate::failure::OpenError;
use crate::output::standard_error;
use crate::source::FileOpener;
use std::alloc::Global;
use std::cell::Cell;
use std::io::{IsTerminal, Write};
use std::rt::Files;
use std::time::{Duration, Instant};
use timefd_bin_streams::FromBufReader;

/// The first line of progress comes after this many milliseconds.
const FIRST: u64 = 1000;

/// A line of progress stays for at least this many milliseconds.
const BETWEEN: u64 = 100;

/// Removes the line of progress: back to the start of the line, then clears what follows.
const CLEAR: &str = "\r\x1b[K";

/// The files of the system, with a line of progress: a run that takes more than a second shows how many files
/// it has opened. The line is shown only if the standard error is a terminal and the standard output, which
/// has lines of its own, isn't one.
#[derive(Drop)]
pub struct WatchedFiles<'a> {
    rt: &'a HostRuntime,
    shows: bool,
    file_count: usize,
    opened: Cell<usize>,
    next: Cell<Option<Instant>>,
    has_reported: Cell<bool>,
}

impl<'a> WatchedFiles<'a> {
    /// A run over `file_count` files that begins at this call.
    pub fn new(rt: &'a HostRuntime, file_count: usize) -> WatchedFiles<'a>
        ensures { result.file_count ≡ file_count }
    {
        WatchedFiles {
            rt,
            shows: rt.stderr().is_terminal() && !rt.stdout().is_terminal(),
            file_count,
            opened: Cell::new(0),
            next: Cell::new(after_now(rt, FIRST)),
            has_reported: Cell::new(false),
        }
    }

    /// Removes the line of progress, if one is shown.
    pub(crate) fn end(&self) {
        if self.has_reported.get() {
            clear(self.rt);
        }
    }

    // Counts a file that is about to be opened, and shows the progress if that is due.
    fn pass(&self) {
        let opened = self.opened.get().saturating_add(1);
        self.opened.set(opened);
        if self.shows && self.is_time() {
            let file_count = self.file_count;
            clear(self.rt);
            let _ = standard_error(self.rt).write_fmt(format_args!(
                "{opened} of {file_count} files"
            ));
            self.has_reported.set(true);
            self.next.set(after_now(self.rt, BETWEEN));
        }
    }

    // Whether the next line of progress is due. Without a clock it never is.
    fn is_time(&self) -> bool {
        match (self.next.get(), Instant::now(self.rt)) {
            (Some(next), Ok(now)) => next <= now,
            _ => false,
        }
    }
}

// Removes a line of progress. It is the only text that a terminal obeys.
fn clear(rt: &HostRuntime) {
    let _ = rt.stderr().write_all(CLEAR.as_bytes());
}

// The time in this many milliseconds. `None` without a clock.
fn after_now(rt: &HostRuntime, milliseconds: u64) -> Option<Instant> {
    let now = Instant::now(rt).ok()?;
    now.checked_add(Duration::from_millis(milliseconds))
}

impl FileOpener for WatchedFiles<'_> {
    type Opened = FromBufReader<<HostRuntime as Files>::File>;

    ghost opens = { λ _ _ _. ⊤ };

    ghost fails = { λ _ _ _. ⊤ };

    fn open(&self, alloc: Global, name: &str) -> Result<Self::Opened, OpenError> {
        self.pass();
        self.rt.open(alloc, name)
    }
}
