//! The help on a warning: what the warning means, and which languages read a text that has no component.

ghost use Rattle.std.specs.Prelude.{◌≡◌, ◌++◌, IfOk, OnOk, codes, flat_map, string_bytes};
ghost use Rattle.std.specs.List.{filter};
ghost use Rattle.timefd_lang_dialect.specs.Dialects.{name_of};
ghost use Rattle.timefd_lint_warnings.specs.Hints as spec;

use std::alloc::{AllocError, Global};
use timefd_lang_dialect::{Dialect, readers};
use timefd_lang_warnings::Warning;

/// The help on a warning about a text: what the warning means, and what to write instead. If the text has no
/// component, it also names the languages that read one in it. An `Err` says that memory ran out.
pub fn help_on(alloc: Global, warning: Warning, text: &str) -> Result<String, AllocError>
    ensures { IfOk result (λ help. string_bytes help ≡ spec.help_on warning text.now) }
{
    match warning {
        Warning::NoComponent => no_component(alloc, warning.explanation(), text),
        Warning::OtherLanguage
        | Warning::MonthForMinute
        | Warning::MinuteForMonth
        | Warning::HourWithoutPeriod
        | Warning::PeriodWithHour24
        | Warning::SubsecondWithoutSecond
        | Warning::WeekWithCalendarYear
        | Warning::DateWithIsoYear
        | Warning::ShownTwice
        | Warning::UndeterminedDate
        | Warning::UnsettledWidth
        | Warning::UnsettledYear
        | Warning::DeprecatedComponent => String::from_str(alloc, warning.explanation()),
    }
}

// The explanation, and which languages read a component in the text.
fn no_component(alloc: Global, explanation: &str, text: &str) -> Result<String, AllocError>
    ensures { IfOk result (λ help. string_bytes help
        ≡ spec.with_readers explanation.now (spec.offered text.now)) }
{
    let dialects = offered(alloc, text)?;
    with_readers(alloc, explanation, &dialects)
}

// The languages that read a component in the text.
fn offered(alloc: Global, text: &str) -> Result<Vec<Dialect>, AllocError>
    ensures { IfOk result (λ dialects. dialects.items ≡ spec.offered text.now) }
{
    let all = readers(alloc, text)?;
    let has_percent = text.as_bytes().contains(&b'%');
    let mut dialects = Vec::new(alloc);
    push_offered(&mut dialects, has_percent, &all)?;
    Ok(dialects)
}

// Appends those that a text with or without a percent sign may be of.
#[tactic(auto, using(crate::proofs::HintLemmas::one_more))]
fn push_offered(
    dialects: &mut Vec<Dialect>,
    has_percent: bool,
    all: &[Dialect],
) -> Result<(), AllocError>
    ensures { OnOk result (dialects.new.items
        ≡ dialects.old.items ++ filter (spec.is_offered has_percent) all.now) }
{
    for dialect in all {
        push_if(dialects, has_percent, *dialect)?;
    }
    Ok(())
}

// Appends the dialect if a text with or without a percent sign may be of it.
#[tactic(auto, using(crate::proofs::HintLemmas::one_kept, crate::proofs::HintLemmas::none_kept))]
fn push_if(
    dialects: &mut Vec<Dialect>,
    has_percent: bool,
    dialect: Dialect,
) -> Result<(), AllocError>
    ensures { OnOk result (dialects.new.items
        ≡ dialects.old.items ++ filter (spec.is_offered has_percent) (spec.alone dialect)) }
{
    if is_offered(has_percent, dialect) {
        dialects.push(dialect)?;
    }
    Ok(())
}

// Whether a text with or without a percent sign may be of the dialect. For Java and moment the letters after a percent sign
// are read like all others, and a text with one isn't written for them.
fn is_offered(has_percent: bool, dialect: Dialect) -> bool
    ensures { result ≡ spec.is_offered has_percent dialect }
{
    match dialect {
        Dialect::Java | Dialect::Moment => !has_percent,
        Dialect::Python
        | Dialect::C
        | Dialect::Gnu
        | Dialect::Chrono
        | Dialect::Jiff
        | Dialect::Ruby
        | Dialect::Go => true,
    }
}

// An explanation, and which languages read the text, if any does.
fn with_readers(
    alloc: Global,
    explanation: &str,
    dialects: &[Dialect],
) -> Result<String, AllocError>
    ensures { IfOk result (λ help. string_bytes help
        ≡ spec.with_readers explanation.now dialects.now) }
{
    match dialects {
        [first, more @ ..] => {
            let names = names_of(alloc, *first, more)?;
            sentence(alloc, explanation, first.name(), &names)
        }
        [] => String::from_str(alloc, explanation),
    }
}

// The names of dialects, with a comma between two of them.
fn names_of(alloc: Global, first: Dialect, more: &[Dialect]) -> Result<String, AllocError>
    ensures { IfOk result (λ names. string_bytes names ≡ spec.names_of first more.now) }
{
    let mut names = String::from_str(alloc, first.name())?;
    push_more(&mut names, more)?;
    Ok(names)
}

fn push_more(names: &mut String, more: &[Dialect]) -> Result<(), AllocError>
    ensures { OnOk result (string_bytes names.new ≡ string_bytes names.old
        ++ flat_map (λ dialect. codes ", " ++ name_of dialect) more.now) }
{
    for dialect in more {
        names.push_str(", ")?;
        names.push_str(dialect.name())?;
    }
    Ok(())
}

fn sentence(alloc: Global, explanation: &str, name: &str, names: &str) -> Result<String, AllocError>
    ensures { IfOk result (λ help. string_bytes help
        ≡ spec.sentence explanation.now name.now names.now) }
{
    format!(in alloc;
        "{explanation} It is a format of {names}: `timefd_format --language {name}` reads it."
    )
}
