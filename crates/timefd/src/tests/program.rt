//! The whole program where it says nothing: wrong arguments, bytes that aren't UTF-8, and failures.

use super::arguments::owned;
use super::memory::{Countdown, Feed, Log};
use crate::program::execute;
use std::alloc::Global;
use std::process::Abort;
use timefd_bin_streams::{FromReader, ToWriter};

/// Runs the program with these arguments, and returns its exit status.
fn ends(
    rt: &impl Abort,
    alloc: Global,
    words: &[&'static str],
    feed: &mut Feed<'_>,
    log: &mut Log,
) -> u8 {
    let args = owned(rt, alloc, words);
    let mut reader = FromReader::new(feed);
    let mut writer = ToWriter::new(log);
    execute(alloc, &args, &mut reader, &mut writer)
}

const WRONG_ARGUMENTS: &[&[&str]] = &[
    &[],
    &["timefd"],
    &["timefd", "4"],
    &["timefd", "3", "128"],
    &["timefd", "3", "0000"],
    &["timefd", "3", "+5"],
    &["timefd", "strftime", "5"],
    &["timefd", "3", "3", "3"],
    &["3", "4"],
];

/// Expects that the arguments are refused, and that nothing is read and nothing is written.
fn expect_wrong_arguments(rt: &impl Abort, alloc: Global, words: &[&'static str]) {
    let mut feed = Feed::new(b"[day]");
    let mut log = Log::new(alloc);
    assert_eq!(rt; ends(rt, alloc, words, &mut feed, &mut log), 2, "{words:?}");
    assert_eq!(rt; feed.left.len(), 5, "{words:?}");
    assert!(rt; log.written.is_empty() && !log.is_flushed, "{words:?}");
}

#[test]
fn wrong_arguments(rt: HostRuntime) {
    for words in WRONG_ARGUMENTS {
        expect_wrong_arguments(&rt, rt.alloc(), words);
    }
}

const VERSION_1: &[&str] = &["timefd", "1"];

#[test]
fn other_ends(rt: HostRuntime) {
    let alloc = rt.alloc();
    let mut log = Log::new(alloc);
    let mut feed = Feed::new(b"\xff");
    assert_eq!(rt; ends(&rt, alloc, VERSION_1, &mut feed, &mut log), 5);
    assert!(rt; log.written.is_empty());
    let mut feed = Feed::new(b"[day]");
    feed.failure = Countdown(Some(0));
    assert_eq!(rt; ends(&rt, alloc, VERSION_1, &mut feed, &mut log), 4);
    assert!(rt; log.written.is_empty());
    log.failure = Countdown(Some(0));
    let mut feed = Feed::new(b"[day]");
    assert_eq!(rt; ends(&rt, alloc, VERSION_1, &mut feed, &mut log), 4);
}
