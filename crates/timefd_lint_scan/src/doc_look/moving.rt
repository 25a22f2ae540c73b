//! What is at positions of an example, at those of the source.

ghost use Rattle.std.specs.Prelude.{◌≡◌, ◌++◌, ◌+◌, IfOk, OnOk};
ghost use Rattle.timefd_lint_scan.specs.DocLooks as spec;

use crate::candidate::CandidateLiteral;
use crate::description::SourceDescription;
use crate::known::Known;
use crate::piece::PlacedToken;
use crate::version::VersionPosition;
use std::alloc::{AllocError, Global};

/// The position in the source of a position of an example that begins at `start`. An `Err` says that no `usize` is so large; as
/// an example lies within its source, that doesn't happen.
pub fn moved_position(start: usize, at: usize) -> Result<usize, AllocError>
    ensures { IfOk result (λ position. position ≡ start + at) }
{
    match start.checked_add(at) {
        Some(position) => Ok(position),
        None => Err(AllocError),
    }
}

fn moved_piece(start: usize, piece: PlacedToken) -> Result<PlacedToken, AllocError>
    ensures { IfOk result (λ moved. moved ≡ spec.moved_piece start piece) }
{
    Ok(PlacedToken {
        token: piece.token,
        start: moved_position(start, piece.start)?,
        end: moved_position(start, piece.end)?,
    })
}

fn moved_version(start: usize, version: VersionPosition) -> Result<VersionPosition, AllocError>
    ensures { IfOk result (λ moved. moved ≡ spec.moved_version start version) }
{
    match version {
        VersionPosition::Digit(at) => Ok(VersionPosition::Digit(moved_position(start, at)?)),
        VersionPosition::Unsaid => Ok(VersionPosition::Unsaid),
        VersionPosition::Call => Ok(VersionPosition::Call),
        VersionPosition::Elsewhere => Ok(VersionPosition::Elsewhere),
    }
}

fn moved_call(start: usize, call: Option<usize>) -> Result<Option<usize>, AllocError>
    ensures { IfOk result (λ moved. moved ≡ spec.moved_call start call) }
{
    match call {
        Some(at) => Ok(Some(moved_position(start, at)?)),
        None => Ok(None),
    }
}

/// A description of an example as a literal of the source, in which the example begins at `start`. An `Err` says that a position
/// is too large.
pub fn moved(start: usize, description: &SourceDescription) -> Result<CandidateLiteral, AllocError>
    ensures { IfOk result (λ candidate. candidate ≡ spec.moved start description.now) }
{
    Ok(CandidateLiteral {
        piece: moved_piece(start, description.piece)?,
        kind: description.kind,
        known: Known {
            dialect: description.dialect,
            items: description.items,
            version: moved_version(start, description.version)?,
            wants_percent: false,
            call: moved_call(start, description.call)?,
        },
    })
}

/// Adds positions of an example that begins at `start`. An `Err` says that memory ran out, or that one is too large.
pub fn push_moved(
    positions: &mut Vec<usize>,
    start: usize,
    others: &[usize],
) -> Result<(), AllocError>
    ensures { OnOk result (positions.new.items ≡ positions.old.items ++ spec.moved_all start others.now) }
{
    let mut rest = others;
    'others: while let [at, after @ ..] = rest {
        positions.push(moved_position(start, *at)?)?;
        rest = after;
    }
    Ok(())
}
