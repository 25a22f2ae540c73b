//! Texts with their lines.

use super::memory::{AMPLE, Feed, Log, run_over};
use crate::end::RunEnd;
use crate::kind::Kind;
use crate::run::run_within;
use std::alloc::Global;
use std::process::Abort;
use timefd_bin_streams::{FromReader, ToWriter};

/// A text with its line.
pub struct Row {
    pub kind: Kind,
    pub text: &'static str,
    pub line: &'static str,
    pub end: RunEnd,
}

pub const ROWS: &[Row] = &[
    Row {
        kind: Kind::Three,
        text: "due [day]",
        line: "ok bytes 6\n",
        end: RunEnd::Accepted,
    },
    Row {
        kind: Kind::Three,
        text: "due [day",
        line: "unclosed opening bracket at byte index 4\n",
        end: RunEnd::Refused,
    },
    Row {
        kind: Kind::Two,
        text: "[day][month]",
        line: "ok items 2\n",
        end: RunEnd::Accepted,
    },
    Row {
        kind: Kind::Two,
        text: "[day][foo]",
        line: "invalid component name `foo` at byte index 6\n",
        end: RunEnd::Refused,
    },
    Row {
        kind: Kind::One,
        text: "",
        line: "ok items 0\n",
        end: RunEnd::Accepted,
    },
    Row {
        kind: Kind::One,
        text: "[[[foo]",
        line: "invalid component name `foo` at byte index 3\n",
        end: RunEnd::Refused,
    },
    Row {
        kind: Kind::Strftime,
        text: "%F\n",
        line: "ok items 2\n",
        end: RunEnd::Accepted,
    },
    Row {
        kind: Kind::Strftime,
        text: "%d%E",
        line: "invalid component name `E` at byte index 3\n",
        end: RunEnd::Refused,
    },
];

pub const KINDS: &[Kind] = &[Kind::One, Kind::Two, Kind::Three, Kind::Strftime];

/// Bytes that aren't UTF-8.
pub const NO_TEXTS: &[&[u8]] = &[b"\xff", b"\xc3", b"[day]\xed\xa0\x80"];

/// Expects the row's line with a reader and a writer that move at most `most` bytes per call.
fn expect_line(rt: &impl Abort, alloc: Global, row: &Row, most: usize) {
    let mut reader = Feed::new(row.text.as_bytes());
    reader.most = most;
    let mut writer = Log::new(alloc);
    writer.most = most;
    let end = run_over(alloc, row.kind, &mut reader, &mut writer);
    assert_eq!(rt; end, row.end, "{} by {most}", row.text);
    assert_eq!(rt;
        writer.written.as_slice(),
        row.line.as_bytes(),
        "{}",
        row.text
    );
    assert!(rt; writer.is_flushed, "{}", row.text);
}

/// Expects that a text that arrives in many pieces is read as one text.
fn expect_line_of_long_text(rt: &impl Abort, alloc: Global) {
    let text = vec![in alloc; b']'; 200_000].expect(rt, AMPLE);
    let mut writer = Log::new(alloc);
    let end = run_over(alloc, Kind::One, &mut Feed::new(&text), &mut writer);
    assert_eq!(rt; end, RunEnd::Accepted);
    assert_eq!(rt; writer.written.as_slice(), b"ok items 200000\n".as_slice());
}

#[test]
fn lines(rt: HostRuntime) {
    for row in ROWS {
        expect_line(&rt, rt.alloc(), row, 1);
        expect_line(&rt, rt.alloc(), row, 2);
        expect_line(&rt, rt.alloc(), row, usize::MAX);
    }
    expect_line_of_long_text(&rt, rt.alloc());
}

// Texts of strftime nest nothing. The program takes no limit for them.
#[test]
fn strftime_within_the_least_limit(rt: HostRuntime) {
    let mut feed = Feed::new(b"%F\n");
    let mut log = Log::new(rt.alloc());
    let mut reader = FromReader::new(&mut feed);
    let mut writer = ToWriter::new(&mut log);
    let end = run_within(rt.alloc(), Kind::Strftime, 0, &mut reader, &mut writer);
    assert_eq!(rt; end, RunEnd::Accepted);
    assert_eq!(rt; log.written.as_slice(), b"ok items 2\n".as_slice());
}

/// Expects that the bytes are refused as no UTF-8, with a reader that moves at most `most` bytes
/// per call.
fn expect_no_text(rt: &impl Abort, alloc: Global, kind: Kind, bytes: &[u8], most: usize) {
    let mut reader = Feed::new(bytes);
    reader.most = most;
    let mut writer = Log::new(alloc);
    let end = run_over(alloc, kind, &mut reader, &mut writer);
    assert_eq!(rt; end, RunEnd::NotUtf8, "{kind:?} {bytes:?}");
    assert!(rt; writer.written.is_empty(), "{kind:?} {bytes:?}");
}

/// Expects that for all bytes that aren't UTF-8.
fn expect_no_texts(rt: &impl Abort, alloc: Global, kind: Kind) {
    for bytes in NO_TEXTS {
        expect_no_text(rt, alloc, kind, bytes, 1);
        expect_no_text(rt, alloc, kind, bytes, usize::MAX);
    }
}

#[test]
fn no_text(rt: HostRuntime) {
    for kind in KINDS {
        expect_no_texts(&rt, rt.alloc(), *kind);
    }
}
