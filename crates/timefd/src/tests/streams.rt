//! The adapters and the transfers, each by itself.

use super::memory::{AMPLE, Countdown, Feed, Log};
use std::alloc::Global;
use std::process::Abort;
use timefd_bin_streams::transfer::{read_all, write_all};
use timefd_bin_streams::{Failed, FromReader, Sink, Source, ToWriter};

// A flush reaches the writer, and an empty write is no failure.
#[test]
fn flushes(rt: HostRuntime) {
    let mut log = Log::new(rt.alloc());
    let mut sink = ToWriter::new(&mut log);
    assert_eq!(rt; sink.write(b"day"), Ok(3));
    assert_eq!(rt; sink.flush(), Ok(()));
    assert!(rt; log.is_flushed);
    assert_eq!(rt; log.written.as_slice(), b"day".as_slice());
    let mut sink = ToWriter::new(Log::new(rt.alloc()));
    assert_eq!(rt; sink.write(b""), Ok(0));
    assert_eq!(rt; sink.flush(), Ok(()));
}

/// Expects that a reader that failed is not called again.
fn expect_reader_left_alone(rt: &impl Abort) {
    let mut feed = Feed::new(b"day");
    feed.failure = Countdown(Some(0));
    let mut source = FromReader::new(&mut feed);
    let mut buf = [0; 8];
    assert_eq!(rt; source.read(&mut buf), Err(Failed));
    assert_eq!(rt; source.read(&mut buf), Err(Failed));
    assert_eq!(rt; feed.left.len(), 3);
}

/// Expects that a writer that failed, or took no byte, is not called again.
fn expect_writer_left_alone(rt: &impl Abort, alloc: Global, stalls: bool) {
    let mut log = Log::new(alloc);
    log.failure = Countdown(Some(0));
    log.stalls = stalls;
    let mut sink = ToWriter::new(&mut log);
    assert_eq!(rt; sink.write(b"day"), Err(Failed));
    assert_eq!(rt; sink.write(b"day"), Err(Failed));
    assert_eq!(rt; sink.flush(), Err(Failed));
    assert!(rt; log.written.is_empty());
    assert!(rt; !log.is_flushed);
}

#[test]
fn failed_streams_are_left_alone(rt: HostRuntime) {
    expect_reader_left_alone(&rt);
    expect_writer_left_alone(&rt, rt.alloc(), false);
    expect_writer_left_alone(&rt, rt.alloc(), true);
}

#[test]
fn whole_transfers(rt: HostRuntime) {
    let text = vec![in rt.alloc(); 7; 20_000].expect(&rt, AMPLE);
    let bytes = read_all(rt.alloc(), &mut FromReader::new(Feed::new(&text)));
    let bytes = bytes.expect(&rt, "no read fails, and memory suffices");
    assert_eq!(rt; bytes, text);
    let mut log = Log::new(rt.alloc());
    log.most = 999;
    assert_eq!(rt; write_all(&mut ToWriter::new(&mut log), &text), Ok(()));
    assert_eq!(rt; log.written, text);
    assert!(rt; log.is_flushed);
}
