//! Joins the keys of a command line and those of a file.

ghost use Rattle.std.specs.Prelude.{◌≡◌, ◌++◌, IfOk};
ghost use Rattle.timefd_lint_scan.specs.Keys.Keys as borrowed;
ghost use Rattle.timefd_lint_options.specs.Config.Config as spec;

use crate::config::keys::OwnedKey;
use std::alloc::{AllocError, Global};
use timefd_lint_scan::keys::DescriptionKey;

// The key, borrowed.
fn borrowed(key: &OwnedKey) -> DescriptionKey<'_>
    ensures { borrowed.named result ≡ spec.named key.now }
{
    DescriptionKey {
        name: key.name.as_str(),
        dialect: key.dialect,
    }
}

/// Copies keys into a list to which keys of the settings can be added. Their names stay borrowed. An
/// `Err` says that memory ran out.
#[tactic(auto, using(crate::proofs::ConfigLemmas::BorrowedLemmas::one_again, crate::proofs::ConfigLemmas::BorrowedLemmas::last_again))]
pub fn same_keys<'a>(
    alloc: Global,
    keys: &'a [DescriptionKey<'_>],
) -> Result<Vec<DescriptionKey<'a>>, AllocError>
    ensures { IfOk result (λ same. borrowed.named_all same.items ≡ borrowed.named_all keys.now) }
{
    let mut same = Vec::new(alloc);
    let mut rest = keys;
    'keys: while let [key, after @ ..] = rest {
        let again = DescriptionKey {
            name: key.name,
            dialect: key.dialect,
        };
        same.push(again).map_err(AllocError::from)?;
        rest = after;
    }
    Ok(same)
}

/// Appends further keys to `keys`. An `Err` says that memory ran out.
#[tactic(auto, using(crate::proofs::ConfigLemmas::BorrowedLemmas::one_more, crate::proofs::ConfigLemmas::BorrowedLemmas::at_last))]
pub fn with_keys<'a>(
    mut keys: Vec<DescriptionKey<'a>>,
    more: &'a [OwnedKey],
) -> Result<Vec<DescriptionKey<'a>>, AllocError>
    ensures { IfOk result (λ all. borrowed.named_all all.items ≡ borrowed.named_all keys.entry.items ++ spec.named_all more.now) }
{
    let mut rest = more;
    'keys: while let [key, after @ ..] = rest {
        keys.push(borrowed(key)).map_err(AllocError::from)?;
        rest = after;
    }
    Ok(keys)
}
