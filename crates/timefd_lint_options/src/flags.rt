//! What an option without a value sets.

ghost use Rattle.std.specs.Prelude.{◌≡◌};
ghost use Rattle.timefd_lint_options.specs.Settings as spec;

use crate::settings::RunSettings;
use crate::word::Flag;

/// The settings with one more option that has no value.
pub fn with_flag<'a>(settings: RunSettings<'a>, flag: Flag) -> RunSettings<'a>
    ensures { result ≡ spec.with_flag settings.entry flag }
{
    match flag {
        Flag::Whole => RunSettings {
            is_whole: true,
            ..settings
        },
        Flag::Source => RunSettings {
            is_source: true,
            ..settings
        },
        Flag::Explain => RunSettings {
            explains: true,
            ..settings
        },
        Flag::Normal => RunSettings {
            is_normal: true,
            ..settings
        },
        Flag::Fix => RunSettings {
            fixes: true,
            ..settings
        },
        Flag::Unsafe => RunSettings {
            is_unsafe: true,
            ..settings
        },
        Flag::Write => RunSettings {
            writes: true,
            ..settings
        },
        Flag::Partial => RunSettings {
            is_partial: true,
            ..settings
        },
        Flag::Warn => RunSettings {
            warns: true,
            ..settings
        },
        Flag::Lsp => RunSettings {
            serves: true,
            ..settings
        },
        Flag::Quiet => RunSettings {
            is_quiet: true,
            ..settings
        },
    }
}
