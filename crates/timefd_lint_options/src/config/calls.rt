//! The table of calls.

ghost use Rattle.std.specs.Prelude.{◌≡◌, IfOk, IfErr, IfSome, Ok, Err, Some, option_map, string_bytes};
ghost use Rattle.toml.specs.View.{view, table_view};
ghost use Rattle.timefd_lint_options.specs.Config.Calls as spec;
ghost use Rattle.timefd_lint_options.specs.Config.Faults as faults;

use crate::config::error::ConfigError;
use std::alloc::{AllocError, Global};
use timefd_lint_scan::class::{ByteSet, after_run};
use timefd_lint_scan::dialect::dialect_named;
use timefd_lint_scan::{FormatLanguage, OwnCall};
use toml::{Table, Value};

/// What a call is named by.
#[derive(Clone, Copy)]
struct CallPath<'a> {
    /// The type or module before `::`; empty if any call of the name is meant.
    owner: &'a str,
    name: &'a str,
}

/// An argument that is a description.
#[derive(Clone, Copy)]
struct DescribedArgument {
    dialect: FormatLanguage,
    /// Which argument it is, counted from 0.
    number: usize,
}

/// Why a value isn't a language and the number of an argument.
#[derive(Clone, Copy)]
enum ArgumentFault {
    /// It isn't a string with a colon.
    NoColon,
    /// What precedes the colon isn't a language.
    UnknownLanguage,
    /// What follows the colon isn't a number with one digit.
    NoNumber,
}

// Whether a text is a name: letters, digits, `_`, and what isn't ASCII.
fn is_name(text: &str) -> bool
    ensures { result ≡ spec.is_name text.now }
{
    !text.is_empty() && after_run(ByteSet::Word, text.as_bytes()).is_empty()
}

fn alone(name: &str) -> Option<CallPath<'_>>
    ensures { spec.path_any result ≡ spec.alone name.now }
{
    if is_name(name) {
        Some(CallPath { owner: "", name })
    } else {
        None
    }
}

// What follows a colon at the front of a text.
#[tactic(auto, using(crate::proofs::ConfigLemmas::CallLemmas::colon_stripped))]
fn after_colon(text: &str) -> Option<&str>
    ensures { option_map (λ after. after.now) result ≡ spec.after_colon text.now }
{
    text.strip_prefix(':')
}

fn owned_by<'a>(owner: &'a str, name: Option<&'a str>) -> Option<CallPath<'a>>
    ensures { spec.path_any result ≡ spec.owned_by owner.now (option_map (λ name. name.now) name.entry) }
{
    match name {
        Some(name) if is_name(owner) && is_name(name) => Some(CallPath { owner, name }),
        Some(_) | None => None,
    }
}

// What a path names a call by: `parse_date`, `DateBased::new`. `None` if it is no such path.
fn path_in(path: &str) -> Option<CallPath<'_>>
    ensures { spec.path_any result ≡ spec.path_in path.now }
{
    match path.split_once(':') {
        Some((owner, rest)) => owned_by(owner, after_colon(rest)),
        None => alone(path),
    }
}

// A key without the exclamation mark at its end, if it has one. `None` if one is elsewhere.
fn without_mark(key: &str) -> Option<&str>
    ensures { option_map (λ path. path.now) result ≡ spec.without_mark key.now }
{
    match key.split_once('!') {
        Some((path, rest)) if rest.is_empty() => Some(path),
        Some(_) => None,
        None => Some(key),
    }
}

// What a key names a call by: a path, or that of a macro, `show_date!`. `None` if it is no such key.
fn path_of(key: &str) -> Option<CallPath<'_>>
    ensures { spec.path_any result ≡ spec.path_of key.now }
{
    match without_mark(key) {
        Some(path) => path_in(path),
        None => None,
    }
}

// The number that a text with one digit is.
fn number_of(text: &str) -> Option<usize>
    ensures { result ≡ spec.number_of text.now }
{
    match text.as_bytes() {
        [digit] => digit_of(*digit),
        _ => None,
    }
}

fn digit_of(byte: u8) -> Option<usize>
    ensures { result ≡ spec.digit_of byte }
{
    if b'0' <= byte && byte <= b'9' {
        Some(usize::from(byte - b'0'))
    } else {
        None
    }
}

fn argument_by(
    dialect: Option<FormatLanguage>,
    number: Option<usize>,
) -> Result<DescribedArgument, ArgumentFault>
    ensures { result ≡ spec.argument_by dialect number }
{
    match (dialect, number) {
        (Some(dialect), Some(number)) => Ok(DescribedArgument { dialect, number }),
        (Some(_), None) => Err(ArgumentFault::NoNumber),
        (None, _) => Err(ArgumentFault::UnknownLanguage),
    }
}

// The argument in a word like `chrono:1`.
fn argument_of(word: &str) -> Result<DescribedArgument, ArgumentFault>
    ensures { result ≡ spec.argument_of word.now }
{
    match word.split_once(':') {
        Some((language, number)) => argument_by(dialect_named(language), number_of(number)),
        None => Err(ArgumentFault::NoColon),
    }
}

fn argument_valued(value: &Value) -> Result<DescribedArgument, ArgumentFault>
    ensures { result ≡ spec.argument_valued (view value.now) }
{
    match value {
        Value::String(word) => argument_of(word.as_str()),
        Value::Integer(_)
        | Value::Float(_)
        | Value::Boolean(_)
        | Value::Datetime(_)
        | Value::Array(_)
        | Value::Table(_) => Err(ArgumentFault::NoColon),
    }
}

// What is wrong with the entry of a key.
fn refused(fault: ArgumentFault, key: String) -> ConfigError
    ensures { faults.fault result ≡ Some (spec.refused fault (string_bytes key)) }
{
    match fault {
        ArgumentFault::NoColon => ConfigError::NoArgument(key),
        ArgumentFault::UnknownLanguage => ConfigError::UnknownCallLanguage(key),
        ArgumentFault::NoNumber => ConfigError::NoNumber(key),
    }
}

// The call with this path and argument.
fn call_with(
    alloc: Global,
    path: CallPath<'_>,
    argument: DescribedArgument,
) -> Result<OwnCall, AllocError>
    ensures { IfOk result (λ call. spec.called call ≡ spec.call_with (spec.path path.entry) argument) }
{
    Ok(OwnCall {
        owner: String::from_str(alloc, path.owner)?,
        name: String::from_str(alloc, path.name)?,
        dialect: argument.dialect,
        argument: argument.number,
    })
}

// The call with this key and value.
fn call_of(alloc: Global, key: &String, value: &Value) -> Result<OwnCall, ConfigError>
    ensures call { IfOk result (λ call.
        spec.call_of (string_bytes key.now) (view value.now) ≡ Ok (spec.called call)) }
    ensures error { IfErr result (λ error. IfSome (faults.fault error) (λ fault.
        spec.call_of (string_bytes key.now) (view value.now) ≡ Err fault)) }
{
    let Some(path) = path_of(key.as_str()) else {
        return Err(ConfigError::NotACall(key.clone()?));
    };
    match argument_valued(value) {
        Ok(argument) => Ok(call_with(alloc, path, argument)?),
        Err(fault) => Err(refused(fault, key.clone()?)),
    }
}

/// The calls of a table, sorted by key. An `Err` says what is wrong with the first entry that isn't a call, or that memory ran
/// out.
pub fn calls_in(alloc: Global, table: &Table) -> Result<Vec<OwnCall>, ConfigError>
    ensures calls { IfOk result (λ calls.
        spec.calls_in (table_view table.now) ≡ Ok (spec.called_all calls.items)) }
    ensures error { IfErr result (λ error. IfSome (faults.fault error) (λ fault.
        spec.calls_in (table_view table.now) ≡ Err fault)) }
{
    let mut calls = Vec::new(alloc);
    'calls: for (key, value) in table.iter() {
        let call = call_of(alloc, key, value)?;
        calls.push(call).map_err(AllocError::from)?;
    }
    Ok(calls)
}
