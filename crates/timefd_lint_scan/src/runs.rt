//! How far the uses after one in a list aren't before it in the source, so that they are passed over together; and how
//! far the fronts of that list reach, so that those before a position are found by halves.

ghost use Rattle.std.specs.Prelude.{◌≡◌, ◌+◌, ◌<◌, IfOk, get_or, length};
ghost use Rattle.timefd_lint_scan.specs.Uses.{AreFurthest, AreNotBefore, AreRuns};

use crate::uses::Use;
use std::alloc::{AllocError, Global};

/// What is kept for a use; 0 if nothing is.
pub fn end_at(runs: &[usize], index: usize) -> usize
    ensures { result ≡ get_or runs.now index 0 }
{
    match runs.get(index) {
        Some(end) => *end,
        None => 0,
    }
}

// An index in the list up to which no use after one is before it, by those of the uses after it.
#[tactic(auto, using(crate::proofs::RunsLemmas::next_only))]
fn run_after(uses: &[Use], runs: &[usize], index: usize) -> usize
    requires below { index < length uses.now }
    requires runs { AreRuns uses.now (index + 1) runs.now }
    ensures { AreNotBefore uses.now index result }
{
    let start = uses[index].name.start;
    let mut next = index + 1;
    'uses: while next < uses.len() && start <= uses[next].name.start {
        next = end_at(runs, next).max(next + 1);
    }
    next
}

/// For each use an index in the list up to which no use after it is before it in the source. An `Err` says that memory ran out.
#[tactic(auto, using(crate::proofs::RunsLemmas::no_runs))]
pub fn runs_of(alloc: Global, uses: &[Use]) -> Result<Vec<usize>, AllocError>
    ensures { IfOk result (λ runs. AreRuns uses.now 0 runs.items) }
{
    let mut runs = vec![in alloc; 0usize; uses.len()]?;
    let mut left = uses.len();
    'uses: while left > 0 {
        left -= 1;
        runs[left] = run_after(uses, &runs, left);
    }
    Ok(runs)
}

/// For each use the last position of a name up to it in the list, as a byte index. An `Err` says that memory ran out.
#[tactic(auto, using(crate::proofs::UsesLemmas::at_first, crate::proofs::UsesLemmas::one_more, crate::proofs::UsesLemmas::at_last))]
pub fn furthest_of(alloc: Global, uses: &[Use]) -> Result<Vec<usize>, AllocError>
    ensures { IfOk result (λ furthest. AreFurthest uses.now furthest.items) }
{
    let mut furthest = Vec::with_capacity(alloc, uses.len())?;
    let mut last = 0;
    for used in uses {
        last = last.max(used.name.start);
        furthest.push(last)?;
    }
    Ok(furthest)
}
