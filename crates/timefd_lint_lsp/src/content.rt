//! The content of a frame: as many bytes as the head says.

ghost use Rattle.std.specs.Prelude.{◌≡◌, ◌++◌, IfErr, IfOk, IsTrue, OnOk};
ghost use Rattle.timefd_lint_lsp.specs.Contents as spec;
ghost use Rattle.timefd_bin_streams.specs.declared.transfer.TransferError.{TransferError};

use std::alloc::{AllocError, Global};
use timefd_bin_streams::Source;
use timefd_bin_streams::transfer::TransferError;

// How many bytes one read asks for at most.
const PIECE: usize = 8192;

/// Reads the next `wanted` bytes of the source. Returns fewer only at its end.
pub fn read_content<R: Source>(
    alloc: Global,
    source: &mut R,
    wanted: usize,
) -> Result<Vec<u8>, TransferError>
    ensures content { IfOk result (λ content. spec.IsContent (R.remaining source.old)
        (R.remaining source.new) wanted content.items) }
    ensures fails { IfErr result (λ e. e ≡ TransferError.Failed → IsTrue (R.has_failed source.new)) }
{
    let mut content = Vec::new(alloc);
    let mut piece = [0; PIECE];
    'pieces: while content.len() < wanted {
        let most = (wanted - content.len()).min(PIECE);
        let count = source.read(&mut piece[..most])?;
        if count == 0 {
            return Ok(content);
        }
        append(&mut content, &piece[..count])?;
    }
    Ok(content)
}

fn append(content: &mut Vec<u8>, bytes: &[u8]) -> Result<(), AllocError>
    ensures { OnOk result (content.new.items ≡ content.old.items ++ bytes.now) }
{
    content.extend_from_slice(bytes)
}

/// Skips the next `wanted` bytes of the source, and returns how many there were: fewer only at its end.
pub fn skip_content<R: Source>(source: &mut R, wanted: u64) -> Result<u64, TransferError>
    ensures skipped { IfOk result (λ count. spec.IsSkipped (R.remaining source.old)
        (R.remaining source.new) wanted count) }
    ensures fails { IfErr result (λ e. e ≡ TransferError.Failed → IsTrue (R.has_failed source.new)) }
{
    let mut piece = [0; PIECE];
    let mut passed: u64 = 0;
    'pieces: while passed < wanted {
        let most = (wanted - passed).min(PIECE as u64) as usize;
        let count = source.read(&mut piece[..most])?;
        if count == 0 {
            return Ok(passed);
        }
        passed += count as u64;
    }
    Ok(passed)
}
