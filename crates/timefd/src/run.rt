//! A whole run: from the bytes of a reader to a line in a writer.

ghost use Rattle.std.specs.Prelude.{◌≡◌, ◌≤◌, IsUtf8, IsTrue, IsFalse};
ghost use Rattle.timefd_parse.specs.Grammar.{nesting_limit};
ghost use Rattle.timefd.specs.Line.{IsOkLine, IsFaultLine};
ghost use Rattle.timefd.specs.Runs.{Answers, EndsAt, IsAnswer, IsOfText, IsSilent};

use crate::end::RunEnd;
use crate::kind::Kind;
use crate::reply::reply_to;
use bstr::ByteVec;
use std::alloc::{AllocError, Global};
use timefd_bin_streams::transfer::{TransferError, read_all, write_all};
use timefd_bin_streams::{Failed, Sink, Source};
use timefd_parse::NESTING_LIMIT;

/// Reads a text of this kind to the reader's end, and writes the line that answers it.
pub fn run<R: Source, W: Sink>(alloc: Global, kind: Kind, reader: &mut R, writer: &mut W) -> RunEnd
    // All bytes are read, and one line about them is written, and nothing else.
    ensures accepted { result ≡ RunEnd.Accepted
        → Answers (IsOkLine kind nesting_limit) (R.remaining reader.old) (R.remaining reader.new)
        (W.contents writer.old) (W.contents writer.new) }
    ensures refused { result ≡ RunEnd.Refused
        → Answers (IsFaultLine kind nesting_limit) (R.remaining reader.old) (R.remaining reader.new)
        (W.contents writer.old) (W.contents writer.new) }
    ensures not_utf8 { result ≡ RunEnd.NotUtf8
        → EndsAt (λ bytes. ¬ IsUtf8 bytes) (R.remaining reader.old) (R.remaining reader.new) }

    // An answer is about the whole text, and its whole line is written and flushed.
    ensures read { IsOfText result → IsFalse (R.has_failed reader.new) }
    ensures written { IsAnswer result → IsFalse (W.has_failed writer.new) }
    ensures flushed { IsAnswer result → IsTrue (W.is_flushed writer.new) }

    // A failure is reported only if a call failed.
    ensures read_failed { result ≡ RunEnd.ReadFailed → IsTrue (R.has_failed reader.new) }
    ensures write_failed { result ≡ RunEnd.WriteFailed → IsTrue (W.has_failed writer.new) }

    // The writer is unchanged if nothing is written.
    ensures silent { IsSilent result → writer.new ≡ writer.old }
{
    run_within(alloc, kind, NESTING_LIMIT, reader, writer)
}

/// Reads a text as `run` does, with at most `limit` nested descriptions around one another.
pub fn run_within<R: Source, W: Sink>(
    alloc: Global,
    kind: Kind,
    limit: u8,
    reader: &mut R,
    writer: &mut W,
) -> RunEnd
    requires { limit ≤ nesting_limit }

    // All bytes are read, and one line about them is written, and nothing else.
    ensures accepted { result ≡ RunEnd.Accepted
        → Answers (IsOkLine kind limit) (R.remaining reader.old) (R.remaining reader.new)
        (W.contents writer.old) (W.contents writer.new) }
    ensures refused { result ≡ RunEnd.Refused
        → Answers (IsFaultLine kind limit) (R.remaining reader.old) (R.remaining reader.new)
        (W.contents writer.old) (W.contents writer.new) }
    ensures not_utf8 { result ≡ RunEnd.NotUtf8
        → EndsAt (λ bytes. ¬ IsUtf8 bytes) (R.remaining reader.old) (R.remaining reader.new) }

    // An answer is about the whole text, and its whole line is written and flushed.
    ensures read { IsOfText result → IsFalse (R.has_failed reader.new) }
    ensures written { IsAnswer result → IsFalse (W.has_failed writer.new) }
    ensures flushed { IsAnswer result → IsTrue (W.is_flushed writer.new) }

    // A failure is reported only if a call failed.
    ensures read_failed { result ≡ RunEnd.ReadFailed → IsTrue (R.has_failed reader.new) }
    ensures write_failed { result ≡ RunEnd.WriteFailed → IsTrue (W.has_failed writer.new) }

    // The writer is unchanged if nothing is written.
    ensures silent { IsSilent result → writer.new ≡ writer.old }
{
    let bytes = match read_all(alloc, reader) {
        Ok(bytes) => bytes,
        Err(TransferError::Failed) => return RunEnd::ReadFailed,
        Err(TransferError::Memory) => return RunEnd::Memory,
    };
    let Ok(text) = bytes.into_string() else {
        return RunEnd::NotUtf8;
    };
    let reply = match reply_to(alloc, kind, limit, &text) {
        Ok(reply) => reply,
        Err(AllocError) => return RunEnd::Memory,
    };
    match write_all(writer, reply.line().as_bytes()) {
        Ok(()) => reply.end(),
        Err(Failed) => RunEnd::WriteFailed,
    }
}
