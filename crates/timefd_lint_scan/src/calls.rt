//! Calls whose arguments are descriptions.

ghost use Rattle.std.specs.Prelude.{◌≡◌};
ghost use Rattle.timefd_lint_scan.specs.Calls as spec;
ghost use Rattle.timefd_lint_scan.specs.KeptAliases.{AreAliases};

use crate::aliases::{Aliases, original_of, real_name};
use crate::dialect::{FormatLanguage, is, version_named};
use crate::kept::KeptToken;
use crate::known::Known;
use crate::word::{position_at, text_before, text_of};

/// Which arguments of a call are descriptions.
#[derive(Clone, Copy)]
pub enum Call {
    /// A macro of `time`: the arguments hold a description, and may begin with its version.
    Macro,
    /// The first is a description.
    First(FormatLanguage),
    /// The first is an owned description: it may have `[optional ..]` and `[first ..]`.
    Owned(FormatLanguage),
    /// The second is a description.
    Second(FormatLanguage),
    /// The first is a description of chrono if it looks like a date format: `format` is a common name.
    Format,
    /// That with this number, counted from 0, is a description: the settings of a project say so.
    Own(FormatLanguage, usize),
    /// None is known to be a description.
    Other,
}

/// An open bracket.
#[derive(Clone, Copy)]
pub struct OpenBracket {
    /// The index of its token.
    pub opened: usize,
    /// The call whose arguments it holds.
    pub call: Call,
    /// Which argument comes after the commas so far, counted from 0.
    pub argument: usize,
    /// What is known about the value of the whole bracket.
    pub passes: Option<Known>,
    /// What is known about the expression that follows what was read so far.
    pub pending: Option<Known>,
    /// The index of the token that is the name being declared.
    pub name: Option<usize>,
}

/// The call whose arguments are in the bracket that this token opens, with these aliases declared.
pub fn call_of(source: &[u8], pieces: &[KeptToken], aliases: Aliases<'_>, opening: usize) -> Call
    requires { AreAliases source.now aliases }
    ensures { result ≡ spec.call_of source.now pieces.now aliases.entry.list.now opening }
{
    let position = position_at(pieces, opening);
    let name = text_before(source, pieces, opening, 1);
    if is(name, "!") {
        let name = text_before(source, pieces, opening, 2);
        macro_named(real_name(source, aliases, name, position))
    } else if is(name, ">") {
        call_with_version(source, pieces, aliases, opening)
    } else if is_after_path(source, pieces, opening) {
        let path = path_before(source, pieces, opening);
        call_in_module(name, real_name(source, aliases, path, position))
    } else if is(text_before(source, pieces, opening, 2), ".") {
        method_named(name)
    } else {
        bare_call(source, aliases, name, position)
    }
}

/// A call by a bare name, which may be imported.
fn bare_call(source: &[u8], aliases: Aliases<'_>, name: &[u8], position: usize) -> Call
    requires { AreAliases source.now aliases }
    ensures { result ≡ spec.bare_call source.now name.now position aliases.entry.list.now }
{
    match original_of(source, aliases, name, position) {
        Some(original) => call_imported(text_of(source, original)),
        None => call_named(name),
    }
}

/// `parse` is only ever imported from the module of `time`.
fn call_imported(name: &[u8]) -> Call
    ensures { result ≡ spec.call_imported name.now }
{
    if is(name, "parse") {
        Call::First(FormatLanguage::One)
    } else {
        call_named(name)
    }
}

fn is_after_path(source: &[u8], pieces: &[KeptToken], opening: usize) -> bool
    ensures { result ≡ spec.is_after_path source.now pieces.now opening }
{
    is(text_before(source, pieces, opening, 2), ":")
        && is(text_before(source, pieces, opening, 3), ":")
}

/// Whether a type in brackets is before `::` and a call's name: `<NaiveDate>::format(`. That of a turbofish isn't one.
fn is_after_type(source: &[u8], pieces: &[KeptToken], opening: usize) -> bool
    ensures { result ≡ spec.is_after_type source.now pieces.now opening }
{
    is(text_before(source, pieces, opening, 4), ">")
        && is(text_before(source, pieces, opening, 6), "<")
        && !is(text_before(source, pieces, opening, 7), ":")
}

/// The type or module before `::` and a call's name.
fn path_before<'a>(source: &'a [u8], pieces: &[KeptToken], opening: usize) -> &'a [u8]
    ensures { result.now ≡ spec.path_before source.now pieces.now opening }
{
    if is_after_type(source, pieces, opening) {
        text_before(source, pieces, opening, 5)
    } else {
        text_before(source, pieces, opening, 4)
    }
}

fn macro_named(name: &[u8]) -> Call
    ensures { result ≡ spec.macro_named name.now }
{
    if is(name, "format_description") {
        Call::Macro
    } else {
        Call::Other
    }
}

/// A method call. Those of `time` are functions.
fn method_named(name: &[u8]) -> Call
    ensures { result ≡ spec.method_named name.now }
{
    if is(name, "format") {
        Call::Format
    } else if is(name, "format_localized") {
        Call::First(FormatLanguage::Chrono)
    } else if is(name, "strftime") {
        Call::First(FormatLanguage::Jiff)
    } else if is_of_chrono(name) {
        Call::Second(FormatLanguage::Chrono)
    } else {
        Call::Other
    }
}

fn call_in_module(name: &[u8], path: &[u8]) -> Call
    ensures { result ≡ spec.call_in_module name.now path.now }
{
    if is(name, "parse") && is(path, "format_description") {
        Call::First(FormatLanguage::One)
    } else if is(name, "format") && is_type_of_chrono(path) {
        Call::Second(FormatLanguage::Chrono)
    } else if is_new(name) && is_items_of_chrono(path) {
        Call::First(FormatLanguage::Chrono)
    } else if is_of_jiff(name, path) {
        Call::First(FormatLanguage::Jiff)
    } else {
        call_named(name)
    }
}

/// Types of chrono whose method `format` is called with the value as first argument:
/// `DateTime::format(&d, "%F")`.
fn is_type_of_chrono(name: &[u8]) -> bool
    ensures { result ≡ spec.is_type_of_chrono name.now }
{
    is(name, "DateTime")
        || is(name, "NaiveDateTime")
        || is(name, "NaiveDate")
        || is(name, "NaiveTime")
}

fn is_new(name: &[u8]) -> bool
    ensures { result ≡ spec.is_new name.now }
{
    is(name, "new") || is(name, "new_lenient") || is(name, "new_with_locale")
}

/// Types that are made from a format string of chrono: its own, and the timers of `tracing-subscriber`.
fn is_items_of_chrono(name: &[u8]) -> bool
    ensures { result ≡ spec.is_items_of_chrono name.now }
{
    is(name, "StrftimeItems") || is(name, "ChronoLocal") || is(name, "ChronoUtc")
}

/// Functions of jiff that take the format string first: `strtime::parse("%F", s)`,
/// `Zoned::strptime("%F", s)`.
fn is_of_jiff(name: &[u8], path: &[u8]) -> bool
    ensures { result ≡ spec.is_of_jiff name.now path.now }
{
    (is(name, "strptime") && !is(path, "time"))
        || (is_of_strtime(name) && is(path, "strtime"))
        || (is_of_broken_time(name) && is(path, "BrokenDownTime"))
}

fn is_of_strtime(name: &[u8]) -> bool
    ensures { result ≡ spec.is_of_strtime name.now }
{
    is(name, "format") || is(name, "parse")
}

fn is_of_broken_time(name: &[u8]) -> bool
    ensures { result ≡ spec.is_of_broken_time name.now }
{
    is(name, "parse") || is(name, "parse_prefix")
}

fn takes_version(name: &[u8]) -> bool
    ensures { result ≡ spec.takes_version name.now }
{
    is(name, "parse_borrowed") || is(name, "parse_owned")
}

/// The call of a parser that takes a version, for a description in this language.
fn parser_named(name: &[u8], dialect: FormatLanguage) -> Call
    ensures { result ≡ spec.parser_named name.now dialect }
{
    if is(name, "parse_owned") {
        Call::Owned(dialect)
    } else {
        Call::First(dialect)
    }
}

fn is_of_strftime(name: &[u8]) -> bool
    ensures { result ≡ spec.is_of_strftime name.now }
{
    is(name, "parse_strftime_borrowed") || is(name, "parse_strftime_owned")
}

fn is_of_chrono(name: &[u8]) -> bool
    ensures { result ≡ spec.is_of_chrono name.now }
{
    is(name, "parse_from_str") || is(name, "datetime_from_str") || is(name, "parse_and_remainder")
}

fn call_named(name: &[u8]) -> Call
    ensures { result ≡ spec.call_named name.now }
{
    if takes_version(name) {
        parser_named(name, FormatLanguage::One)
    } else if is_of_strftime(name) {
        Call::First(FormatLanguage::Strftime)
    } else if is_of_chrono(name) {
        Call::Second(FormatLanguage::Chrono)
    } else {
        Call::Other
    }
}

/// Whether a type in brackets is between a call's name and this token: `f::<2>(`.
pub fn is_turbofish(source: &[u8], pieces: &[KeptToken], opening: usize) -> bool
    ensures { result ≡ spec.is_turbofish source.now pieces.now opening }
{
    is(text_before(source, pieces, opening, 3), "<")
        && is(text_before(source, pieces, opening, 4), ":")
        && is(text_before(source, pieces, opening, 5), ":")
}

fn parser_by(name: &[u8], dialect: Option<FormatLanguage>) -> Call
    ensures { result ≡ spec.parser_by name.now dialect }
{
    match dialect {
        Some(dialect) => parser_named(name, dialect),
        None => Call::Other,
    }
}

/// A call with a version after its name: `parse_borrowed::<2>(`.
fn call_with_version(
    source: &[u8],
    pieces: &[KeptToken],
    aliases: Aliases<'_>,
    opening: usize,
) -> Call
    requires { AreAliases source.now aliases }
    ensures { result ≡ spec.call_with_version source.now pieces.now aliases.entry.list.now opening }
{
    let name = text_before(source, pieces, opening, 6);
    let name = real_name(source, aliases, name, position_at(pieces, opening));
    if is_turbofish(source, pieces, opening) && takes_version(name) {
        parser_by(name, version_named(text_before(source, pieces, opening, 2)))
    } else {
        Call::Other
    }
}
