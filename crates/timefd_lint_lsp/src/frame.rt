//! Frames: a head that says how long the content is, and the content.

ghost use Rattle.std.specs.Prelude.{◌≡◌, ◌≤◌, ◌<◌, ◌^◌, string_bytes, IfOk, IfErr, OnOk, IsTrue};
ghost use Rattle.std.specs.Io.KnownBytes.{Appends};
ghost use Rattle.timefd_lint_lsp.specs.Frames as spec;
ghost use Rattle.timefd_lint_lsp.specs.declared.frame.WriteError.{WriteError};
ghost use Rattle.timefd_bin_streams.specs.declared.transfer.TransferError.{TransferError};

use crate::content::{read_content, skip_content};
use crate::head::{HeadEnd, read_head};
use crate::length::length_in;
use std::alloc::{AllocError, Global};
use timefd_bin_streams::transfer::{TransferError, write_all};
use timefd_bin_streams::{Failed, Sink, Source};

/// How many bytes a content may have: 16 MiB.
pub const MOST_CONTENT: u64 = 1 << 24;

/// What comes next in a source.
#[derive(Drop)]
pub enum MessageFrame {
    /// Nothing: the source is at its end.
    AtEnd,
    /// A frame with this content.
    Content(Vec<u8>),
    /// A frame whose content has more than 16 MiB. It was skipped.
    TooLong,
    /// The head isn't one, or it doesn't say a length.
    NoHead,
    /// The front of a frame: no byte follows it.
    Cut,
}

/// Reads a frame. After `NoHead` the start of the next frame can't be found.
pub fn read_frame<R: Source>(alloc: Global, source: &mut R) -> Result<MessageFrame, TransferError>
    ensures frame { IfOk result (spec.IsFrame (R.remaining source.old) (R.remaining source.new)) }
    ensures fails { IfErr result (λ e. e ≡ TransferError.Failed → IsTrue (R.has_failed source.new)) }
{
    let head = read_head(alloc, source)?;
    match head.end {
        HeadEnd::NoByte => Ok(MessageFrame::AtEnd),
        HeadEnd::Cut => Ok(MessageFrame::Cut),
        HeadEnd::TooLong => Ok(MessageFrame::NoHead),
        HeadEnd::Whole => after_head(alloc, source, &head.bytes),
    }
}

// Reads what follows a head.
fn after_head<R: Source>(
    alloc: Global,
    source: &mut R,
    head: &[u8],
) -> Result<MessageFrame, TransferError>
    ensures after { IfOk result (spec.IsAfter head.now (R.remaining source.old)
        (R.remaining source.new)) }
    ensures fails { IfErr result (λ e. e ≡ TransferError.Failed → IsTrue (R.has_failed source.new)) }
{
    match length_in(head) {
        None => Ok(MessageFrame::NoHead),
        Some(length) if length <= MOST_CONTENT => with_content(alloc, source, length as usize),
        Some(length) => without_content(source, length),
    }
}

fn with_content<R: Source>(
    alloc: Global,
    source: &mut R,
    length: usize,
) -> Result<MessageFrame, TransferError>
    requires { length ≤ 2 ^ 24 }
    ensures frame { IfOk result (spec.IsOfLength length (R.remaining source.old)
        (R.remaining source.new)) }
    ensures fails { IfErr result (λ e. e ≡ TransferError.Failed → IsTrue (R.has_failed source.new)) }
{
    let content = read_content(alloc, source, length)?;
    if content.len() < length {
        return Ok(MessageFrame::Cut);
    }
    Ok(MessageFrame::Content(content))
}

fn without_content<R: Source>(source: &mut R, length: u64) -> Result<MessageFrame, TransferError>
    requires { 2 ^ 24 < length }
    ensures frame { IfOk result (spec.IsOfLength length (R.remaining source.old)
        (R.remaining source.new)) }
    ensures fails { IfErr result (λ e. e ≡ TransferError.Failed → IsTrue (R.has_failed source.new)) }
{
    let passed = skip_content(source, length)?;
    if passed < length {
        return Ok(MessageFrame::Cut);
    }
    Ok(MessageFrame::TooLong)
}

/// Why a frame was not written.
#[derive(Clone, Copy, Debug, PartialEq, Eq)]
pub enum WriteError {
    /// A write failed.
    Failed,
    /// Memory ran out.
    Memory,
}

/// Writes a frame with this content, and flushes the sink. An `Err` says why that failed.
pub fn write_frame<W: Sink>(alloc: Global, sink: &mut W, content: &str) -> Result<(), WriteError>
    ensures bytes { OnOk result (Appends (W.contents sink.old) (W.contents sink.new)
        (spec.framed content.now)) }
    ensures kept { IfErr result (λ e. e ≡ WriteError.Memory
        → W.contents sink.new ≡ W.contents sink.old) }
    ensures flushed { OnOk result (IsTrue (W.is_flushed sink.new)) }
    ensures fails { IfErr result (λ e. e ≡ WriteError.Failed → IsTrue (W.has_failed sink.new)) }
{
    let Ok(frame) = framed(alloc, content) else {
        return Err(WriteError::Memory);
    };
    match write_all(sink, frame.as_bytes()) {
        Ok(()) => Ok(()),
        Err(Failed) => Err(WriteError::Failed),
    }
}

// The frame with this content.
fn framed(alloc: Global, content: &str) -> Result<String, AllocError>
    ensures { IfOk result (λ frame. string_bytes frame ≡ spec.framed content.now) }
{
    let length = content.len();
    format!(in alloc; "Content-Length: {length}\r\n\r\n{content}")
}
