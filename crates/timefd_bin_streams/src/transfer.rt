//! Reads all that a source has left, and writes all of a text to a sink.

ghost use Rattle.std.specs.Prelude.{◌≡◌, ◌+◌, ◌↔◌, ◌++◌, [], Some, length, vec_len, IfOk, IfErr, OnOk, IsErr, IsTrue, IsFalse};
ghost use Rattle.std.specs.Io.KnownBytes.{Appends};
ghost use Rattle.timefd_bin_streams.specs.Transfers.{ReadsAll};

use crate::{Failed, Sink, Source};
use std::alloc::{AllocError, Global};

// How many bytes a read asks for.
const PIECE: usize = 65536;

/// Why a source was not read to its end.
#[derive(Debug, Clone, Copy, PartialEq, Eq)]
pub enum TransferError {
    /// A read failed.
    Failed,
    /// Memory ran out.
    Memory,
}

impl From<Failed> for TransferError {
    ghost use Rattle.std.specs.Prelude.{◌≡◌};
    ghost use Rattle.timefd_bin_streams.specs.declared.transfer.TransferError.{TransferError};

    ghost from_gives = { λ _ e. e ≡ TransferError.Failed };

    fn from(_: Failed) -> Self {
        TransferError::Failed
    }
}

impl From<AllocError> for TransferError {
    ghost use Rattle.std.specs.Prelude.{◌≡◌};
    ghost use Rattle.timefd_bin_streams.specs.declared.transfer.TransferError.{TransferError};

    ghost from_gives = { λ _ e. e ≡ TransferError.Memory };

    fn from(_: AllocError) -> Self {
        TransferError::Memory
    }
}

/// Reads all bytes that the source has left. Fails if a read does, or if memory runs out.
pub fn read_all<R: Source>(alloc: Global, source: &mut R) -> Result<Vec<u8>, TransferError>
    ensures bytes { IfOk result (λ all. ReadsAll (R.remaining source.old) (R.remaining source.new)
        all.items) }
    ensures works { OnOk result (IsFalse (R.has_failed source.new)) }
    ensures fails { IfErr result (λ e. e ≡ TransferError.Failed → IsTrue (R.has_failed source.new)) }

    // A source that is known to have nothing left takes no memory.
    ensures empty { R.remaining source.old ≡ Some [] → IfErr result (λ e. e ≡ TransferError.Failed) }
{
    let mut all = Vec::new(alloc);
    let mut piece = [0; PIECE];
    'pieces: loop {
        let n = source.read(&mut piece)?;
        if n == 0 {
            return Ok(all);
        }
        append(&mut all, &piece[..n])?;
    }
}

/// Appends bytes. If there is no memory to double a full list, it asks only for what these bytes
/// need.
fn append(all: &mut Vec<u8>, bytes: &[u8]) -> Result<(), AllocError>
    ensures items { OnOk result (all.new.items ≡ all.old.items ++ bytes.now) }
    ensures len { OnOk result (vec_len all.new ≡ vec_len all.old + length bytes.now) }
{
    if let Err(AllocError) = all.extend_from_slice(bytes) {
        all.reserve_exact(bytes.len())?;
        return all.extend_from_slice(bytes);
    }
    Ok(())
}

/// Writes all of the text, and flushes the sink. Fails if a write or the flush does.
pub fn write_all<W: Sink>(sink: &mut W, text: &[u8]) -> Result<(), Failed>
    ensures bytes { OnOk result (Appends (W.contents sink.old) (W.contents sink.new) text.now) }
    ensures flushed { OnOk result (IsTrue (W.is_flushed sink.new)) }
    ensures fails { IsErr result ↔ IsTrue (W.has_failed sink.new) }
{
    let mut rest = text;
    'writes: while !rest.is_empty() {
        let n = sink.write(rest)?;
        rest = &rest[n..];
    }
    sink.flush()
}
