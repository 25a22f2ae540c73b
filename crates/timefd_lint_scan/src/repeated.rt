//! Names that more than one token declares.

ghost use Rattle.std.specs.HashSet.{contains};
ghost use Rattle.std.specs.Prelude.{◌≡◌, ◌+◌, IfOk, OnOk, false, length, nat_eq, true, ℕ};
ghost use Rattle.timefd_lint_scan.specs.Layouts.{AreNoted, AreRepeated};
ghost use Rattle.timefd_lint_scan.specs.Layouts as spec;

use crate::fingerprint::fingerprint;
use crate::kept::KeptToken;
use crate::shadow::{is_declaring, may_declare};
use crate::word::{text_at, text_before, tokens_after};
use std::alloc::{AllocError, Global};
use std::collections::HashSet;

/// Which tokens count as declarations.
#[derive(Clone, Copy)]
pub enum Declaring {
    /// Those after a word that declares.
    Surely,
    /// All that may be names in a pattern too.
    Maybe,
}

fn declares(source: &[u8], declaring: Declaring, before: &[u8], after: &[KeptToken]) -> bool
    ensures { result ≡ spec.declares source.now declaring before.now after.now }
{
    match declaring {
        Declaring::Surely => is_declaring(before),
        Declaring::Maybe => may_declare(source, before, after),
    }
}

/// Whether a token declares its text as a name.
pub fn declares_at(source: &[u8], declaring: Declaring, pieces: &[KeptToken], index: usize) -> bool
    ensures { result ≡ spec.declares_at source.now declaring pieces.now index }
{
    let before = text_before(source, pieces, index, 1);
    declares(source, declaring, before, tokens_after(pieces, index))
}

// Notes that a name is declared: if it was seen before, it is repeated.
fn note(seen: &mut HashSet<u64>, repeated: &mut HashSet<u64>, number: u64) -> Result<(), AllocError>
    ensures seen { OnOk result (contains nat_eq seen.new number ≡ true) }
    ensures others { OnOk result ((n : ℕ) → contains nat_eq seen.old n ≡ true → contains nat_eq seen.new n ≡ true) }
    ensures repeated { OnOk result (contains nat_eq repeated.new number ≡ false → contains nat_eq seen.old number ≡ false) }
    ensures kept { OnOk result ((n : ℕ) → contains nat_eq repeated.new n ≡ false → contains nat_eq repeated.old n ≡ false) }
{
    if !seen.insert(number)? {
        repeated.insert(number)?;
    }
    Ok(())
}

// Notes the name that a token declares, if it does.
fn note_at(
    seen: &mut HashSet<u64>,
    repeated: &mut HashSet<u64>,
    source: &[u8],
    pieces: &[KeptToken],
    declaring: Declaring,
    index: usize,
) -> Result<(), AllocError>
    requires { AreNoted source.now declaring pieces.now index (contains nat_eq seen.old) (contains nat_eq repeated.old) }
    ensures { OnOk result (AreNoted source.now declaring pieces.now (index + 1) (contains nat_eq seen.new)
        (contains nat_eq repeated.new)) }
{
    if !declares_at(source, declaring, pieces, index) {
        return Ok(());
    }
    note(seen, repeated, fingerprint(text_at(source, pieces, index)))?;
    Ok(())
}

/// The fingerprints of names that more than one token declares. An `Err` says that memory ran out.
#[tactic(auto, using(crate::proofs::RepeatedLemmas::at_first))]
pub fn repeated_names(
    alloc: Global,
    source: &[u8],
    pieces: &[KeptToken],
    declaring: Declaring,
) -> Result<HashSet<u64>, AllocError>
    ensures { IfOk result (λ repeated.
        AreRepeated source.now declaring pieces.now (length pieces.now) (contains nat_eq repeated)) }
{
    let mut seen: HashSet<u64> = HashSet::new(alloc);
    let mut repeated: HashSet<u64> = HashSet::new(alloc);
    for index in 0..pieces.len() {
        note_at(&mut seen, &mut repeated, source, pieces, declaring, index)?;
    }
    Ok(repeated)
}
