//! Options that are as they are by default.

ghost use Rattle.std.specs.Prelude.{◌≡◌};
ghost use Rattle.timefd_format.specs.Asked as spec;

use crate::asked::AskedSoFar;
use crate::language::Wording;
use timefd_parse::{DescriptionVersion, Language};

/// Whether all options but `--quiet` are as they are by default.
pub(crate) fn is_bare(state: AskedSoFar<'_>) -> bool
    ensures { result ≡ spec.is_bare state.entry }
{
    is_version_three(state.language)
        && has_no_description(state)
        && has_no_table(state)
        && has_no_zone(state)
}

fn is_version_three(wording: Wording) -> bool
    ensures { result ≡ spec.is_version_three wording }
{
    match wording {
        Wording::Own(Language::Version(DescriptionVersion::Three)) => true,
        Wording::Own(Language::Version(DescriptionVersion::One | DescriptionVersion::Two))
        | Wording::Own(Language::Strftime)
        | Wording::Other(_) => false,
    }
}

fn has_no_description(state: AskedSoFar<'_>) -> bool
    ensures { result ≡ spec.has_no_description state.entry.to_language state.entry.read }
{
    match (state.to_language, state.read) {
        (None, None) => true,
        (Some(_), _) | (None, Some(_)) => false,
    }
}

fn has_no_table(state: AskedSoFar<'_>) -> bool
    ensures { result ≡ spec.has_no_table state.entry.column state.entry.otherwise }
{
    match (state.column, state.otherwise) {
        (None, None) => true,
        (Some(_), _) | (None, Some(_)) => false,
    }
}

fn has_no_zone(state: AskedSoFar<'_>) -> bool
    ensures { result ≡ spec.has_no_zone state.entry.zone }
{
    match state.zone {
        None => true,
        Some(_) => false,
    }
}
