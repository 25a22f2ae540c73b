//! Sentences about wrong arguments.

ghost use Rattle.std.specs.Prelude.{◌≡◌, ◌++◌, IfOk, OnOk, codes, flat_map, option_map, string_bytes};
ghost use Rattle.std.specs.List.{join_by};
ghost use Rattle.timefd_lang_warnings.specs.Codes.{name_of};
ghost use Rattle.timefd_lint.specs.Arguments as spec;

use std::alloc::{AllocError, Global};
use timefd_lang_warnings::Warning;
use timefd_lint_drawing::push_form_names;
use timefd_lint_drawing::shown::safe;
use timefd_lint_options::{Conflict, OptionError, Valued, nearest_option};
use timefd_lint_scan::keys::KeyFault;

/// What is wrong with the arguments, in a sentence. An `Err` says that memory ran out.
pub fn sentence(alloc: Global, error: OptionError<'_>) -> Result<String, AllocError>
    ensures { IfOk result (λ text. spec.IsSentence error.entry (string_bytes text)) }
{
    match error {
        OptionError::Unknown(word) => unknown_sentence(alloc, word),
        OptionError::MissingValue(option) => missing_sentence(alloc, option),
        OptionError::NotAValue(option, word) => value_sentence(alloc, option, word),
        OptionError::NotAKey(fault, word) => {
            not_a_value(alloc, word, "--key", key_sentence(fault))
        }
        OptionError::Conflict(conflict) => String::from_str(alloc, conflict_sentence(conflict)),
    }
}

fn missing_sentence(alloc: Global, option: Valued) -> Result<String, AllocError>
    ensures { IfOk result (λ text. string_bytes text ≡ spec.missing (spec.name option) (spec.values option)) }
{
    let name = name(option);
    let values = values(alloc, option)?;
    format!(in alloc; "`{name}` needs a value: {values}")
}

fn value_sentence(alloc: Global, option: Valued, word: &str) -> Result<String, AllocError>
    ensures { IfOk result (λ text. string_bytes text
        ≡ spec.not_a_value word.now (spec.name option) (spec.values option)) }
{
    let values = values(alloc, option)?;
    not_a_value(alloc, word, name(option), &values)
}

// A word that an option doesn't take as its value, and what it takes.
fn not_a_value(alloc: Global, word: &str, option: &str, takes: &str) -> Result<String, AllocError>
    ensures { IfOk result (λ text. string_bytes text
        ≡ spec.not_a_value word.now option.now takes.now) }
{
    let front = no_value(alloc, word, option)?;
    format!(in alloc; "{front}: {takes}")
}

fn no_value(alloc: Global, word: &str, option: &str) -> Result<String, AllocError>
    ensures { IfOk result (λ text. string_bytes text ≡ spec.no_value word.now option.now) }
{
    let word = safe(alloc, word)?;
    format!(in alloc; "`{word}` isn't a value of `{option}`")
}

// A word that looks like an option but isn't one, with the option that may have been meant.
fn unknown_sentence(alloc: Global, word: &str) -> Result<String, AllocError>
    ensures { IfOk result (λ text. spec.IsUnknown word.now (string_bytes text)) }
{
    let nearest = nearest_option(alloc, word)?;
    no_option(alloc, word, nearest)
}

fn no_option(alloc: Global, word: &str, nearest: Option<&str>) -> Result<String, AllocError>
    ensures { IfOk result (λ text. string_bytes text
        ≡ spec.unknown word.now (option_map (λ w. w.now) nearest.entry)) }
{
    let word = safe(alloc, word)?;
    match nearest {
        Some(option) => {
            format!(in alloc; "there is no option `{word}`; the nearest is `{option}`")
        }
        None => format!(in alloc; "there is no option `{word}`; --help lists them"),
    }
}

fn name(option: Valued) -> &'static str
    ensures { result.now ≡ spec.name option }
{
    match option {
        Valued::Language => "--language",
        Valued::Format => "--format",
        Valued::Color => "--color",
        Valued::Comment => "--comment",
        Valued::Key => "--key",
        Valued::To => "--to",
        Valued::Deny => "--deny",
        Valued::Allow => "--allow",
    }
}

// The values that an option takes.
fn values(alloc: Global, option: Valued) -> Result<String, AllocError>
    ensures { IfOk result (λ text. string_bytes text ≡ spec.values option) }
{
    match option {
        Valued::Language => String::from_str(
            alloc,
            "one of 1, 2, 3, strftime, python, c, gnu, chrono, jiff, ruby, java, go, moment",
        ),
        Valued::Format => form_names(alloc),
        Valued::Color => String::from_str(alloc, "one of always, never, auto"),
        Valued::Comment => String::from_str(alloc, "a mark that is not empty"),
        Valued::Key => String::from_str(alloc, "a key and its language, as `time_format=3`"),
        Valued::To => String::from_str(alloc, "one of 2, 3"),
        Valued::Deny | Valued::Allow => warning_names(alloc),
    }
}

// The names of all forms.
fn form_names(alloc: Global) -> Result<String, AllocError>
    ensures { IfOk result (λ text. string_bytes text ≡ spec.form_names) }
{
    let mut names = String::from_str(alloc, "one of ")?;
    push_form_names(&mut names)?;
    Ok(names)
}

// The names of all warnings.
fn warning_names(alloc: Global) -> Result<String, AllocError>
    ensures { IfOk result (λ text. string_bytes text ≡ spec.warning_names) }
{
    let mut names = String::from_str(alloc, "one of ")?;
    push_names(&mut names, Warning::all())?;
    Ok(names)
}

// Appends the names of warnings, with a comma between two of them.
fn push_names(names: &mut String, warnings: &[Warning]) -> Result<(), AllocError>
    ensures { OnOk result (string_bytes names.new
        ≡ string_bytes names.old ++ join_by name_of (codes ", ") warnings.now) }
{
    if let [first, more @ ..] = warnings {
        names.push_str(first.name())?;
        push_more(names, more)?;
    }
    Ok(())
}

fn push_more(names: &mut String, warnings: &[Warning]) -> Result<(), AllocError>
    ensures { OnOk result (string_bytes names.new ≡ string_bytes names.old
        ++ flat_map (λ warning. codes ", " ++ name_of warning) warnings.now) }
{
    for warning in warnings {
        names.push_str(", ")?;
        names.push_str(warning.name())?;
    }
    Ok(())
}

fn key_sentence(fault: KeyFault) -> &'static str
    ensures { result.now ≡ spec.key_sentence fault }
{
    match fault {
        KeyFault::NoEqualsSign => "write `=` and a language after the key, as in `time_format=3`",
        KeyFault::EmptyName => "write a key before `=`, as in `time_format=3`",
        KeyFault::UnknownLanguage => {
            "the language is one of 1, 2, 3, strftime, python, c, gnu, chrono, jiff, ruby, java, go, moment"
        },
    }
}

fn conflict_sentence(conflict: Conflict) -> &'static str
    ensures { result.now ≡ spec.conflict_sentence conflict }
{
    match conflict {
        Conflict::ServesFiles =>
            "`--lsp` serves an editor, which sends the texts, and takes no file",
        Conflict::ServesAlone => {
            "`--lsp` serves an editor, and doesn't go with options on how files are looked at or rewritten"
        }
        Conflict::ExplainUndrawn => "`--explain` draws trees, and goes only with `--format human`",
        Conflict::LogRewritten =>
            "`--format sarif` is one log, and doesn't go with `--to`, `--normal` and `--fix`",
        Conflict::WriteWithoutVersion =>
            "`--write` needs `--to 2`, `--to 3`, `--normal` or `--fix`",
        Conflict::PartialWithoutWrite => "`--partial` goes only with `--write`",
        Conflict::UnsafeWithoutFix => "`--unsafe` goes only with `--fix`",
        Conflict::FixesRewritten => "`--fix` doesn't go with `--to` and `--normal`",
        Conflict::FixesWhole => "`--fix` mends line by line, and doesn't go with `--whole`",
        Conflict::FixesNoFile => "`--fix` needs the name of a file",
        Conflict::FixesInput => "`--fix` mends files, and `-` is the standard input",
        Conflict::NormalOfAnother => {
            "`--normal` is the form of version 3, and doesn't go with `--to 2`"
        }
        Conflict::NoConversion => {
            "no rewriting leads there: `--language 1` goes `--to 2` or `3`, `2`, `strftime` and formats of other libraries go `--to 3`; `--normal` lays out version 3"
        }
        Conflict::ExplainsOther => {
            "`--explain` draws trees of the languages of `time`; leave it out for formats of other libraries"
        }
        Conflict::FixesOther => {
            "`--fix` mends the languages of `time`; change a format of another library as its help says"
        }
        Conflict::RewritesWarned => {
            "`--warn`, `--deny` and `--allow` look at files, and don't go with `--to` and `--normal`"
        }
        Conflict::RewritesWhole =>
            "`--to` and `--normal` rewrite line by line, and don't go with `--whole`",
        Conflict::RewritesNoFile => "`--to` and `--normal` need the name of a file",
        Conflict::RewritesInput =>
            "`--to` and `--normal` rewrite files, and `-` is the standard input",
    }
}
