//! The warnings of a text that a language accepts.

ghost use Rattle.std.specs.Prelude.{◌≡◌, List, IfOk, IfSome};
ghost use Rattle.timefd_parse.specs.Tree.{Tree};
ghost use Rattle.timefd_parse.specs.Grammar.{nesting_limit};
ghost use Rattle.timefd_parse.specs.LanguageType.TheVariants.{Version, Strftime};
ghost use Rattle.timefd_parse.specs.Language.{SpellsIn};
ghost use Rattle.timefd_lang_warnings.specs.declared.warned.LanguageStyle.TheVariants as styles;
ghost use Rattle.timefd_lang_warnings.specs.Levels.{found};
ghost use Rattle.timefd_lint_warnings.specs.Found.{IsFoundIn};
ghost use Rattle.timefd_lint_warnings.specs.Found as spec;

use std::alloc::{AllocError, Global};
use timefd_lang_warnings::{LanguageStyle, Levels, ReadDescription};
use timefd_parse::{
    BorrowedOutput, DescriptionVersion, Language, NESTING_LIMIT, StrftimeTables,
    parse_all_borrowed, parse_strftime_all_borrowed,
};

/// The levels of the warnings that a text has, if its language accepts it; every other warning is
/// allowed. An `Err` says that memory ran out.
pub fn found_in(
    alloc: Global,
    language: Language,
    text: &str,
    levels: Levels,
) -> Result<Levels, AllocError>
    ensures { (list : List Tree) → SpellsIn language nesting_limit text.now list
        → IfOk result (λ reported. reported ≡ spec.found_in language levels list) }
{
    match found_at_once(alloc, language, text, levels) {
        Some(found) => Ok(found),
        None => Err(AllocError),
    }
}

/// The levels of the warnings that a text has, if its language accepts it and there is memory for its
/// items; every other warning is allowed. `None` says nothing: whoever wants to know why looks again.
pub fn found_at_once(
    alloc: Global,
    language: Language,
    text: &str,
    levels: Levels,
) -> Option<Levels>
    ensures accepted { IfSome result (IsFoundIn language levels text.now) }
    ensures spelled { (list : List Tree) → SpellsIn language nesting_limit text.now list
        → IfSome result (λ reported. reported ≡ spec.found_in language levels list) }
{
    match language {
        Language::Version(version) => found_in_version(alloc, version, text, levels),
        Language::Strftime => found_in_strftime(alloc, text, levels),
    }
}

fn found_in_version(
    alloc: Global,
    version: DescriptionVersion,
    text: &str,
    levels: Levels,
) -> Option<Levels>
    ensures accepted { IfSome result (IsFoundIn (Version version) levels text.now) }
    ensures spelled { (list : List Tree) → SpellsIn (Version version) nesting_limit text.now list
        → IfSome result (λ reported. reported ≡ spec.found_in (Version version) levels list) }
{
    match parse_all_borrowed(alloc, version, NESTING_LIMIT, text) {
        Ok(output) => Some(found_of(&output, levels)),
        Err(_) => None,
    }
}

fn found_of(output: &BorrowedOutput<'_>, levels: Levels) -> Levels
    ensures { result ≡ found levels styles.Brackets (spec.output_parts output.now) }
{
    match output {
        BorrowedOutput::Description(description) => {
            levels.found(
                LanguageStyle::Brackets,
                ReadDescription::Version3(description.view()),
            )
        }
        BorrowedOutput::Items(items) => levels.found(
            LanguageStyle::Brackets,
            ReadDescription::Items(items),
        ),
    }
}

fn found_in_strftime(alloc: Global, text: &str, levels: Levels) -> Option<Levels>
    ensures accepted { IfSome result (IsFoundIn Strftime levels text.now) }
    ensures spelled { (list : List Tree) → SpellsIn Strftime nesting_limit text.now list
        → IfSome result (λ reported. reported ≡ spec.found_in Strftime levels list) }
{
    let tables = StrftimeTables::new();
    match parse_strftime_all_borrowed(alloc, &tables, text) {
        Ok(items) => Some(levels.found(LanguageStyle::Percents, ReadDescription::Items(&items))),
        Err(_) => None,
    }
}
