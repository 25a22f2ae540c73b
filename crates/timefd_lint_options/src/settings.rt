//! The settings of a run.

ghost use Rattle.std.specs.Prelude.{◌≡◌};
ghost use Rattle.timefd_lint_options.specs.Settings as spec;

use crate::wording::LineLanguage;
use timefd_lang_warnings::{Level, Levels};
use timefd_lint_drawing::Format;
use timefd_parse::{DescriptionVersion, Language};

/// Whether drawings are coloured.
#[derive(Clone, Copy)]
pub enum Color {
    Always,
    Never,
    /// If the standard output is a terminal that shows colours.
    Auto,
}

/// The settings of a run.
#[derive(Clone, Copy)]
pub struct RunSettings<'a> {
    /// What the texts are written in.
    pub language: LineLanguage,
    /// How diagnostics are written.
    pub format: Format,
    /// Whether diagnostics are coloured.
    pub color: Color,
    /// Lines that begin with this are passed over.
    pub comment: Option<&'a str>,
    /// Whether a whole file is one text.
    pub is_whole: bool,
    /// Whether files are read as sources of Rust, whatever their names.
    pub is_source: bool,
    /// Whether accepted texts are shown as trees.
    pub explains: bool,
    /// The version that descriptions are rewritten in.
    pub to: Option<DescriptionVersion>,
    /// Whether descriptions are laid out in the normal form of version 3.
    pub is_normal: bool,
    /// Whether faults are fixed.
    pub fixes: bool,
    /// Whether faults are also fixed by guesses.
    pub is_unsafe: bool,
    /// Whether files are written back.
    pub writes: bool,
    /// Whether a file is written back even if some of its lines are refused.
    pub is_partial: bool,
    /// Whether warnings are reported.
    pub warns: bool,
    /// The level of each warning, if warnings are reported.
    pub levels: Levels,
    /// Whether an editor is served, instead of checking files.
    pub serves: bool,
    /// Whether the line that says how much was checked is left out.
    pub is_quiet: bool,
}

impl RunSettings<'_> {
    /// The settings of a run without options.
    pub fn initial() -> RunSettings<'static>
        ensures { result ≡ spec.initial }
    {
        RunSettings {
            language: LineLanguage::Own(Language::Version(DescriptionVersion::Three)),
            format: Format::Human,
            color: Color::Auto,
            comment: None,
            is_whole: false,
            is_source: false,
            explains: false,
            to: None,
            is_normal: false,
            fixes: false,
            is_unsafe: false,
            writes: false,
            is_partial: false,
            warns: false,
            levels: Levels::all_at(Level::Warned),
            serves: false,
            is_quiet: false,
        }
    }
}

/// Whether the settings are about lines or a whole text, which may be read from the standard input: their
/// language, a comment mark, or that all of it is one text.
pub fn reads_lines(settings: RunSettings<'_>) -> bool
    ensures { result ≡ spec.reads_lines settings.entry }
{
    settings.comment.is_some()
        || settings.is_whole
        || settings.is_source
        || settings.serves
        || is_chosen(settings.language)
}

// Whether a wording is another than without an option.
fn is_chosen(wording: LineLanguage) -> bool
    ensures { result ≡ spec.is_chosen wording }
{
    match wording {
        LineLanguage::Own(language) => is_chosen_language(language),
        LineLanguage::Other(_) => true,
    }
}

fn is_chosen_language(language: Language) -> bool
    ensures { result ≡ spec.is_chosen_language language }
{
    match language {
        Language::Version(DescriptionVersion::Three) => false,
        Language::Version(DescriptionVersion::One | DescriptionVersion::Two) | Language::Strftime =>
            true,
    }
}

/// The version that descriptions are rewritten in. It is version 3 if only the normal form is asked for, and
/// `None` if nothing is rewritten.
pub fn target(settings: RunSettings<'_>) -> Option<DescriptionVersion>
    ensures { result ≡ spec.target settings.entry }
{
    match settings.to {
        Some(version) => Some(version),
        None if settings.is_normal => Some(DescriptionVersion::Three),
        None => None,
    }
}
