//! Runs in which a call fails.

use super::memory::{Countdown, Feed, Log, run_over};
use super::rows::{KINDS, NO_TEXTS, ROWS, Row};
use crate::end::RunEnd;
use crate::kind::Kind;
use std::alloc::Global;
use std::process::Abort;

/// Expects that a run whose reader fails after this many bytes reports that, and writes nothing.
fn expect_failed_read(rt: &impl Abort, alloc: Global, kind: Kind, bytes: &[u8], after: usize) {
    let mut reader = Feed::new(bytes);
    reader.most = 1;
    reader.failure = Countdown(Some(after));
    let mut writer = Log::new(alloc);
    let end = run_over(alloc, kind, &mut reader, &mut writer);
    assert_eq!(rt;
        end,
        RunEnd::ReadFailed,
        "{kind:?} {bytes:?} behind {after}"
    );
    assert!(rt;
        writer.written.is_empty(),
        "{kind:?} {bytes:?} behind {after}"
    );
}

/// Expects that each failed read of these bytes is reported, one byte at a time, also the read at
/// their end.
fn expect_failed_reads(rt: &impl Abort, alloc: Global, kind: Kind, bytes: &[u8]) {
    for after in 0..=bytes.len() {
        expect_failed_read(rt, alloc, kind, bytes, after);
    }
}

/// Expects that for bytes that aren't UTF-8.
fn expect_failed_reads_of_no_text(rt: &impl Abort, alloc: Global, kind: Kind) {
    for bytes in NO_TEXTS {
        expect_failed_reads(rt, alloc, kind, bytes);
    }
}

// Each read of each text fails, one after another, also where the bytes before it aren't UTF-8.
#[test]
fn reads(rt: HostRuntime) {
    for row in ROWS {
        expect_failed_reads(&rt, rt.alloc(), row.kind, row.text.as_bytes());
    }
    for kind in KINDS {
        expect_failed_reads_of_no_text(&rt, rt.alloc(), *kind);
    }
}

/// Whether a run whose writer fails, or takes no byte, after this many bytes of the line reports
/// that, and has written the front of the line. After all of them it is the flush that fails.
fn fails_after(alloc: Global, kind: Kind, text: &str, after: usize, stalls: bool) -> bool {
    let mut reader = Feed::new(text.as_bytes());
    let mut writer = Log::new(alloc);
    writer.most = 1;
    writer.failure = Countdown(Some(after));
    writer.stalls = stalls;
    let end = run_over(alloc, kind, &mut reader, &mut writer);
    end == RunEnd::WriteFailed && writer.written.len() == after && !writer.is_flushed
}

fn expect_failed_write(rt: &impl Abort, alloc: Global, row: &Row, after: usize, stalls: bool) {
    let fails = fails_after(alloc, row.kind, row.text, after, stalls);
    assert!(rt; fails, "{} behind {after}", row.text);
}

/// Expects that each failed write of the line is reported, and a failed flush too.
fn expect_failed_writes(rt: &impl Abort, alloc: Global, row: &Row) {
    for after in 0..=row.line.len() {
        expect_failed_write(rt, alloc, row, after, false);
        expect_failed_write(rt, alloc, row, after, true);
    }
}

// Each write of each line fails, one after another, and then the flush.
#[test]
fn writes(rt: HostRuntime) {
    for row in ROWS {
        expect_failed_writes(&rt, rt.alloc(), row);
    }
}
