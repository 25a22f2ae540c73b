//! The option that may have been meant.

ghost use Rattle.std.specs.Prelude.{◌≡◌, IfOk, IfSome, IsTrue, option_map};
ghost use Rattle.timefd_lint_diagnosis.specs.Nearest.{IsNearest};
ghost use Rattle.timefd_lint_diagnosis.specs.Words.{texts};
ghost use Rattle.timefd_lint_options.specs.Suggestions as spec;
ghost use Rattle.timefd_lint_options.specs.Words.{is_option};

use std::alloc::{AllocError, Global};
use timefd_lint_diagnosis::nearest::nearest;

// The long names of the options.
fn long_names() -> &'static [&'static str]
    ensures { texts result.now ≡ spec.long_names }
{
    &[
        "--language",
        "--format",
        "--color",
        "--comment",
        "--key",
        "--whole",
        "--source",
        "--explain",
        "--to",
        "--normal",
        "--fix",
        "--unsafe",
        "--write",
        "--partial",
        "--warn",
        "--deny",
        "--allow",
        "--lsp",
        "--quiet",
        "--help",
        "--version",
    ]
}

/// The option whose long name is nearest to a word, if one is near. An `Err` says that memory ran out.
pub fn nearest_option(alloc: Global, word: &str) -> Result<Option<&'static str>, AllocError>
    ensures nearest { IfOk result (λ found.
        IsNearest spec.long_names word.now (option_map (λ w. w.now) found)) }
    ensures option { IfOk result (λ found. IfSome found (λ w. IsTrue (is_option w.now))) }
{
    nearest(alloc, long_names(), word)
}
