//! Which files below folders are checked.

ghost use Rattle.std.specs.Prelude.{◌≡◌};
ghost use Rattle.timefd_lint_diagnosis.specs.Words.{texts};
ghost use Rattle.timefd_lint.specs.Counted as spec;

use timefd_lint_files::{Excluded, SoughtFiles};
use timefd_lint_options::{RunSettings, reads_lines};
use timefd_lint_scan::keys::DescriptionKey;

/// The working directory.
const HERE: &[&str] = &["."];

/// How the names of sources of Rust end.
const RUST: &[&str] = &[".rs"];

/// How the names of sources of Rust and of files with keys end.
const RUST_AND_KEYS: &[&str] = &[".rs", ".toml", ".json", ".yaml", ".yml"];

/// The named files and folders. Without any it is the working directory, if lines would be read from a terminal and
/// no option is about these.
pub fn named_or_here<'a>(
    settings: RunSettings<'_>,
    is_terminal: bool,
    names: &'a [&'a str],
) -> &'a [&'a str]
    ensures { texts result.now ≡ spec.named_or_here settings.entry is_terminal (texts names.now) }
{
    if names.is_empty() && is_terminal && !reads_lines(settings) {
        return HERE;
    }
    names
}

/// Which files below folders are checked: sources of Rust and, if there are keys, files with keys. Excluded
/// files are not.
pub fn sought<'a>(
    settings: RunSettings<'_>,
    keys: &[DescriptionKey<'_>],
    excluded: Excluded<'a>,
) -> SoughtFiles<'a>
    ensures endings { texts result.endings.now ≡ spec.endings settings.entry keys.now }
    ensures excluded { result.excluded ≡ excluded.entry }
{
    SoughtFiles {
        endings: endings(settings, keys),
        excluded,
    }
}

fn endings(settings: RunSettings<'_>, keys: &[DescriptionKey<'_>]) -> &'static [&'static str]
    ensures { texts result.now ≡ spec.endings settings.entry keys.now }
{
    if keys.is_empty() || settings.is_source {
        return RUST;
    }
    RUST_AND_KEYS
}
