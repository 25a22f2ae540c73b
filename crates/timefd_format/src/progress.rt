//! Shows at a terminal how many lines of the standard input are read.

ghost use Rattle.std.specs.Prelude.{◌≡◌};

use std::cell::Cell;
use std::io::{self, IsTerminal, Read, Stdin};
use std::time::{Duration, Instant};

// After how many milliseconds of a run the first line of progress is shown.
const FIRST: u64 = 1000;

// The least number of milliseconds between two lines of progress.
const BETWEEN: u64 = 100;

// Removes a line of progress: goes to the start of the line, and clears all after it.
const CLEAR: &str = "\r\x1b[K";

/// How far a run is, once it takes more than a second. Shown on the standard error if that is a
/// terminal, and if neither the standard input nor the standard output is one.
#[derive(Drop)]
pub struct Progress<'a> {
    rt: &'a HostRuntime,
    shows: bool,
    line_count: Cell<u64>,
    next: Cell<Option<Instant>>,
    has_shown: Cell<bool>,
}

impl<'a> Progress<'a> {
    /// The progress of a run that begins at this moment.
    pub(crate) fn new(rt: &'a HostRuntime) -> Progress<'a> {
        Progress {
            rt,
            shows: rt.stderr().is_terminal()
                && !rt.stdin().is_terminal()
                && !rt.stdout().is_terminal(),
            line_count: Cell::new(0),
            next: Cell::new(after_now(rt, FIRST)),
            has_shown: Cell::new(false),
        }
    }

    /// Removes the line of progress, if there is one.
    pub(crate) fn end(&self) {
        if self.has_shown.get() {
            let _ = eprint!(self.rt; "{CLEAR}");
        }
    }

    // Counts the newlines in these bytes, and shows the count of lines if it is time to. The cursor
    // is at the start of the line after that, so a longer message overwrites it.
    fn pass(&self, bytes: &[u8]) {
        if !self.shows {
            return;
        }
        let line_count = self.line_count.get().saturating_add(newlines(bytes));
        self.line_count.set(line_count);
        if self.is_time() {
            let _ = eprint!(self.rt; "{CLEAR}{line_count} lines\r");
            self.has_shown.set(true);
            self.next.set(after_now(self.rt, BETWEEN));
        }
    }

    // Whether the next line of progress is due. Without a clock it never is.
    fn is_time(&self) -> bool {
        match (self.next.get(), Instant::now(self.rt)) {
            (Some(next), Ok(now)) => next <= now,
            _ => false,
        }
    }
}

// The instant this many milliseconds from now. `None` without a clock.
fn after_now(rt: &HostRuntime, milliseconds: u64) -> Option<Instant> {
    let now = Instant::now(rt).ok()?;
    now.checked_add(Duration::from_millis(milliseconds))
}

// How many of the bytes are newlines.
fn newlines(bytes: &[u8]) -> u64 {
    bytes.iter().filter(|byte| **byte == b'\n').count() as u64
}

/// The standard input, with its lines counted as they are read.
#[derive(Drop)]
pub struct Watched<'a> {
    progress: &'a Progress<'a>,
    input: Stdin,
}

impl<'a> Watched<'a> {
    /// The input with its lines counted for this progress.
    pub(crate) fn new(progress: &'a Progress<'a>, input: Stdin) -> Watched<'a>
        ensures { result.progress ≡ progress.entry }
    {
        Watched { progress, input }
    }
}

impl Read for Watched<'_> {
    fn read(&mut self, buf: &mut [u8]) -> io::Result<usize> {
        let count = self.input.read(buf)?;
        self.progress.pass(&buf[..count]);
        Ok(count)
    }
}
