//! What all comments of a source allow.

ghost use Rattle.std.specs.Prelude.{◌≡◌, IfOk, codes, false};
ghost use Rattle.timefd_lint_scan.specs.Names.{Lacks};
ghost use Rattle.timefd_lint_sources.specs.Allowances.Found as spec;

use crate::allowances::comment::Allowance;
use crate::allowances::keyed::allowances_of_keys;
use crate::allowances::rust::allowances_of_rust;
use crate::reported::Finder;
use memchr::memmem;
use std::alloc::{AllocError, Global};

// Whether a source may have such a comment.
fn has_mark(source: &str) -> bool
    ensures { result ≡ false → Lacks source.now (codes "timefd:") }
{
    match memmem::find(source.as_bytes(), b"timefd:") {
        Some(_) => true,
        None => false,
    }
}

/// What the comments in a source allow, in order: `// timefd: allow unknown-name` in Rust and JSON, with `#` in TOML and
/// YAML. One at the end of a line is about the descriptions before it in its line. One that is alone in its line is
/// about those of the next line that doesn't only have a comment with `timefd:`. An `Err` says that memory ran out.
pub fn allowances_in(
    alloc: Global,
    finder: Finder<'_>,
    source: &str,
) -> Result<Vec<Allowance>, AllocError>
    ensures { IfOk result (λ found. spec.AreAllowances finder.entry source.now found.items) }
{
    if !has_mark(source) {
        return Ok(Vec::new(alloc));
    }
    match finder {
        Finder::Rust(_calls) => allowances_of_rust(alloc, source),
        Finder::Keys(format, _keys) => allowances_of_keys(alloc, format, source.as_bytes()),
    }
}
