//! Ascending lists of positions as one.

ghost use Rattle.std.specs.Prelude.{◌≡◌, ◌++◌, IfOk, OnOk};
ghost use Rattle.timefd_lint_scan.specs.DocLooks as spec;

use std::alloc::{AllocError, Global};

// Adds the positions in front that are before another. Returns those that are left.
fn push_below<'a>(
    all: &mut Vec<usize>,
    positions: &'a [usize],
    limit: usize,
) -> Result<&'a [usize], AllocError>
    ensures pushed { OnOk result (all.new.items ≡ all.old.items ++ spec.front (spec.is_below limit) positions.now) }
    ensures left { IfOk result (λ left. left.now ≡ spec.after_front (spec.is_below limit) positions.now) }
{
    let mut left = positions;
    'positions: while let [at, after @ ..] = left {
        if *at >= limit {
            return Ok(left);
        }
        all.push(*at)?;
        left = after;
    }
    Ok(left)
}

/// Two ascending lists as one. An `Err` says that memory ran out.
#[tactic(auto, using(crate::proofs::MergeLemmas::at_first, crate::proofs::MergeLemmas::step))]
pub fn merged(alloc: Global, one: Vec<usize>, other: &[usize]) -> Result<Vec<usize>, AllocError>
    ensures { IfOk result (λ all. all.items ≡ spec.merged one.items other.now) }
{
    let mut all = Vec::new(alloc);
    let mut left = other;
    for at in one {
        left = push_below(&mut all, left, at)?;
        all.push(at)?;
    }
    all.extend_from_slice(left)?;
    Ok(all)
}
