//! What is reported about files that are rewritten or left out.

ghost use Rattle.std.specs.Prelude.{◌≡◌, IfOk, string_bytes};
ghost use Rattle.timefd_lint.specs.Rewriting as spec;

use crate::found::CountedUnit;
use std::alloc::{AllocError, Global};
use timefd_lint_rewrite::Counts;

fn noun(unit: CountedUnit, count: u64) -> &'static str
    ensures { result.now ≡ spec.noun unit count }
{
    match (unit, count) {
        (CountedUnit::Line, 1) => "line",
        (CountedUnit::Line, _) => "lines",
        (CountedUnit::Description, 1) => "description",
        (CountedUnit::Description, _) => "descriptions",
    }
}

// How many of the lines or descriptions of a file, as `2 of 3 lines`.
fn part(alloc: Global, count: u64, unit: CountedUnit, lines: u64) -> Result<String, AllocError>
    ensures { IfOk result (λ text. string_bytes text ≡ spec.part count unit lines) }
{
    let noun = noun(unit, lines);
    format!(in alloc; "{count} of {lines} {noun}")
}

fn be(count: u64) -> &'static str
    ensures { result.now ≡ spec.be count }
{
    match count {
        1 => "is",
        _ => "are",
    }
}

/// What is reported about a file that is left out because some of its lines or descriptions are refused. An
/// `Err` says that memory ran out.
pub fn left_out(
    alloc: Global,
    writes: bool,
    file: &str,
    unit: CountedUnit,
    counts: Counts,
) -> Result<String, AllocError>
    ensures { IfOk result (λ text. string_bytes text ≡ spec.left_out writes file.now unit counts) }
{
    let part = part(alloc, counts.refused, unit, counts.lines)?;
    let be = be(counts.refused);
    if writes {
        format!(in alloc;
            "not rewritten {file}: {part} {be} refused; --partial rewrites the others\n"
        )
    } else {
        format!(in alloc;
            "no diff of {file}: {part} {be} refused; --write --partial rewrites the others\n"
        )
    }
}

/// What is reported about a file that was written back, with this end. An `Err` says that memory ran out.
pub fn rewrote(
    alloc: Global,
    file: &str,
    unit: CountedUnit,
    counts: Counts,
    end: &str,
) -> Result<String, AllocError>
    ensures { IfOk result (λ text. string_bytes text ≡ spec.rewrote file.now unit counts end.now) }
{
    let part = part(alloc, counts.rewritten, unit, counts.lines)?;
    format!(in alloc; "rewrote {file}: {part}{end}\n")
}
