//! What is found in a source of either kind, rewritten.

ghost use Rattle.std.specs.Prelude.{IfOk};
ghost use Rattle.timefd_lint_sources.specs.Rewriting.Values.{IsFoundRewritten};

use crate::reported::{Finder, SourceText};
use crate::rewriting::change::Change;
use crate::rewriting::source::{NewSource, rewrite_source};
use crate::rewriting::values::rewrite_values;
use std::alloc::{AllocError, Global};

/// Fixes or converts what is found in a source: the literals of Rust, or the values of keys. An `Err` says that memory ran
/// out.
pub fn rewrite_found(
    alloc: Global,
    change: Change,
    source: SourceText<'_>,
) -> Result<NewSource, AllocError>
    ensures { IfOk result (IsFoundRewritten change source.entry.finder source.entry.text.now) }
{
    match source.finder {
        Finder::Rust(calls) => rewrite_source(alloc, change, source.text, calls),
        Finder::Keys(format, keys) => rewrite_values(alloc, change, format, source.text, keys),
    }
}
