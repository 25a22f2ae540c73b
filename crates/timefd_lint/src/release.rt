//! The release of `time` that a source needs once it is converted.

ghost use Rattle.std.specs.Prelude.{◌≡◌};
ghost use Rattle.timefd_lint.specs.Releases as spec;

use crate::options::RunOptions;
use crate::rewriting::Rewriting;
use crate::source_file::is_rust;
use timefd_lint_sources::rewriting::Change;
use timefd_parse::DescriptionVersion;

/// What stands before the diff of a file. `patch` and `git apply` pass over it.
pub fn head_of(options: RunOptions<'_>, rewriting: Rewriting, name: &str) -> &'static str
    ensures { result.now ≡ spec.head_of options.entry rewriting name.now }
{
    if needs_three(options, rewriting, name) {
        "version 3 needs `time` 0.3.55 or later\n"
    } else {
        ""
    }
}

/// What the report on a file that was written back ends with.
pub fn end_of(options: RunOptions<'_>, rewriting: Rewriting, name: &str) -> &'static str
    ensures { result.now ≡ spec.end_of options.entry rewriting name.now }
{
    if needs_three(options, rewriting, name) {
        "; version 3 needs `time` 0.3.55 or later"
    } else {
        ""
    }
}

// Whether a file is a source of Rust that is converted to version 3.
fn needs_three(options: RunOptions<'_>, rewriting: Rewriting, name: &str) -> bool
    ensures { result ≡ spec.needs_three options.entry rewriting name.now }
{
    is_rust(options, name) && is_to_three(rewriting.sources)
}

fn is_to_three(change: Change) -> bool
    ensures { result ≡ spec.is_to_three change }
{
    match change {
        Change::Least(DescriptionVersion::Three) | Change::Normal => true,
        Change::Least(DescriptionVersion::One) | Change::Least(DescriptionVersion::Two) => false,
        Change::Mended(_) => false,
    }
}
