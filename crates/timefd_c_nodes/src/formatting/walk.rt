//! What a walk from the last node to the first counts.

ghost use Rattle.std.specs.Prelude.{◌≡◌, ◌+◌, ◌<◌, ◌≤◌, MatchOption};
ghost use Rattle.timefd_c_nodes.specs.Formatting.Parts.{role};
ghost use Rattle.timefd_c_nodes.specs.Formatting.Walk as spec;

use crate::formatting::part::{WritingPart, members, unwritten_members};

/// How many trees have to be in front of a part, if `need` trees are wanted of which the last is its
/// own: the others, and its members. `None` says that there are fewer nodes in front of it.
#[inline(always)]
pub(crate) fn needed(part: WritingPart<'_>, need: usize, front: usize) -> Option<usize>
    requires { need ≤ front + 1 }
    ensures { MatchOption result (front < spec.needed need (role part.entry))
        (λ n. (n ≡ spec.needed need (role part.entry)) × (n ≤ front)) }
{
    let others = need.saturating_sub(1);
    let members = members(part);
    if members > front - others {
        return None;
    }
    Some(others + members)
}

/// How many of the last trees in front of a part aren't written, if `skip` of the last trees up to
/// its own aren't.
#[inline(always)]
pub(crate) fn skipped(part: WritingPart<'_>, skip: usize, need: usize) -> usize
    requires { spec.skipped skip (role part) ≤ need }
    ensures { result ≡ spec.skipped skip (role part.entry) }
{
    if skip > 0 {
        skip - 1 + members(part)
    } else {
        unwritten_members(part)
    }
}
