//! The head of a frame: its lines, up to an empty one.

ghost use Rattle.std.specs.Prelude.{◌≡◌, ◌+◌, ◌++◌, ◌∷◌, [], vec_len, IfErr, IfOk, IsTrue, OnOk};
ghost use Rattle.timefd_lint_lsp.specs.Heads as spec;
ghost use Rattle.timefd_bin_streams.specs.declared.transfer.TransferError.{TransferError};

use std::alloc::{AllocError, Global};
use timefd_bin_streams::Source;
use timefd_bin_streams::transfer::TransferError;

// How many bytes a head may have.
const MOST_HEAD: usize = 4096;

/// How a head ends.
#[derive(Clone, Copy)]
pub enum HeadEnd {
    /// It ends with an empty line.
    Whole,
    /// It has no byte: the source is at its end.
    NoByte,
    /// It has some bytes, and then the source is at its end.
    Cut,
    /// It doesn't end within its first 4096 bytes.
    TooLong,
}

/// The bytes that were read of a head, and how the head ends.
#[derive(Drop)]
pub struct MessageHead {
    pub bytes: Vec<u8>,
    pub end: HeadEnd,
}

// The next byte of a source. `None` at its end.
fn next_byte<R: Source>(source: &mut R) -> Result<Option<u8>, TransferError>
    ensures next { IfOk result (spec.IsNext (R.remaining source.old) (R.remaining source.new)) }
    ensures fails { IfErr result (λ e. e ≡ TransferError.Failed → IsTrue (R.has_failed source.new)) }
{
    let mut position = [0];
    let count = source.read(&mut position)?;
    if count == 0 {
        return Ok(None);
    }
    Ok(Some(position[0]))
}

/// Reads a head, and no byte after it.
pub fn read_head<R: Source>(alloc: Global, source: &mut R) -> Result<MessageHead, TransferError>
    ensures head { IfOk result (λ head. spec.IsHead (R.remaining source.old) (R.remaining source.new)
        head.bytes.items head.end) }
    ensures fails { IfErr result (λ e. e ≡ TransferError.Failed → IsTrue (R.has_failed source.new)) }
{
    let mut bytes = Vec::new(alloc);
    'bytes: while bytes.len() < MOST_HEAD {
        let Some(byte) = next_byte(source)? else {
            return Ok(at_end(bytes));
        };
        push(&mut bytes, byte)?;
        if bytes.ends_with(b"\r\n\r\n") {
            return Ok(MessageHead {
                bytes,
                end: HeadEnd::Whole,
            });
        }
    }
    Ok(MessageHead {
        bytes,
        end: HeadEnd::TooLong,
    })
}

fn push(bytes: &mut Vec<u8>, byte: u8) -> Result<(), AllocError>
    ensures items { OnOk result (bytes.new.items ≡ bytes.old.items ++ byte ∷ []) }
    ensures len { OnOk result (vec_len bytes.new ≡ vec_len bytes.old + 1) }
{
    bytes.push(byte)?;
    Ok(())
}

// The head with these bytes, if the source has no more.
fn at_end(bytes: Vec<u8>) -> MessageHead
    ensures bytes { result.bytes ≡ bytes }
    ensures end { result.end ≡ spec.end_of bytes.items }
{
    if bytes.is_empty() {
        return MessageHead {
            bytes,
            end: HeadEnd::NoByte,
        };
    }
    MessageHead {
        bytes,
        end: HeadEnd::Cut,
    }
}
