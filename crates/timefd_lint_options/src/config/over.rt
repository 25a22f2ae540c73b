//! Joins the levels of a command line and those of a file.

ghost use Rattle.std.specs.Prelude.{◌≡◌};
ghost use Rattle.timefd_lint_options.specs.Config.Levels as spec;
ghost use Rattle.timefd_lint_options.specs.Config.Over.{with_levels};

use crate::settings::RunSettings;
use timefd_lang_warnings::{Level, Levels, Warning};

/// The settings of a run with the levels of a file of settings. If there are any, warnings are reported, and those
/// that the command line neither allows nor denies have the file's level.
pub fn with_levels<'a>(settings: RunSettings<'a>, levels: Option<Levels>) -> RunSettings<'a>
    ensures { result ≡ with_levels settings.entry levels }
{
    match levels {
        Some(levels) => RunSettings {
            warns: true,
            levels: over(settings.levels, levels),
            ..settings
        },
        None => settings,
    }
}

// The levels of a command line over those of a file.
#[tactic(auto, using(crate::proofs::ConfigLemmas::LevelLemmas::at_first, crate::proofs::ConfigLemmas::LevelLemmas::one_more, crate::proofs::ConfigLemmas::LevelLemmas::at_last))]
fn over(own: Levels, file: Levels) -> Levels
    ensures { result ≡ spec.over own file }
{
    let mut levels = file;
    let mut left = Warning::all();
    'warnings: while let [warning, after @ ..] = left {
        levels = levels.with(
            *warning,
            chosen(own.level_of(*warning), file.level_of(*warning)),
        );
        left = after;
    }
    levels
}

// The command line can allow and deny a warning. If it does neither, the level of the file counts.
fn chosen(own: Level, file: Level) -> Level
    ensures { result ≡ spec.chosen own file }
{
    match own {
        Level::Allowed => Level::Allowed,
        Level::Warned => file,
        Level::Denied => Level::Denied,
    }
}
