//! Where each name is first in a list of uses.

ghost use Rattle.std.specs.HashMap.{get};
ghost use Rattle.std.specs.Prelude.{◌≡◌, IfOk, nat_eq};
ghost use Rattle.timefd_lint_scan.specs.FoundUses.{AreFirsts};
ghost use Rattle.timefd_lint_scan.specs.Layouts as spec;

use crate::fingerprint::fingerprint;
use crate::uses::Use;
use crate::word::text_of;
use std::alloc::{AllocError, Global};
use std::collections::HashMap;

/// What is kept for a name.
pub fn first_of(firsts: &HashMap<u64, usize>, name: &[u8]) -> Option<usize>
    ensures { result ≡ get nat_eq firsts.now (spec.fingerprint name.now) }
{
    firsts.get(&fingerprint(name)).copied()
}

/// For each name's fingerprint the index of its first use. An `Err` says that memory ran out.
#[tactic(auto, using(crate::proofs::FirstsLemmas::none_kept))]
pub fn firsts_of(
    alloc: Global,
    source: &[u8],
    uses: &[Use],
) -> Result<HashMap<u64, usize>, AllocError>
    ensures { IfOk result (λ firsts. AreFirsts source.now uses.now 0 (get nat_eq firsts)) }
{
    let mut firsts: HashMap<u64, usize> = HashMap::new(alloc);
    let mut left = uses.len();
    'uses: while left > 0 {
        left -= 1;
        let name = text_of(source, uses[left].name);
        firsts.insert(fingerprint(name), left)?;
    }
    Ok(firsts)
}
