//! What the arguments after the program's name ask for.

ghost use Rattle.std.specs.Prelude.{◌≡◌, length};
ghost use Rattle.timefd_lint_options.specs.Asked as spec;

use crate::conflict::conflict;
use crate::error::OptionError;
use crate::flags::with_flag;
use crate::names::{NamedFiles, names_from, names_of};
use crate::settings::RunSettings;
use crate::valued::with_value;
use crate::word::{Valued, Word, word_of};

/// The options of a run, and the names of its files.
#[derive(Clone, Copy)]
pub struct Options<'a> {
    pub settings: RunSettings<'a>,
    /// How many of the last arguments are names of files. With none, the standard input is read.
    pub file_count: usize,
}

/// What the arguments ask for.
#[derive(Clone, Copy)]
pub enum AskedRun<'a> {
    /// The page on how to use the program.
    Help,
    /// The program's version.
    Version,
    /// A run.
    Run(Options<'a>),
}

// What is known before an argument: the settings so far, and the option whose value it is, if any.
#[derive(Clone, Copy)]
struct ParsedSoFar<'a> {
    settings: RunSettings<'a>,
    pending: Option<Valued>,
}

// What an argument turns that into.
#[derive(Clone, Copy)]
enum ArgumentStep<'a> {
    Next(ParsedSoFar<'a>),
    Done(Result<AskedRun<'a>, OptionError<'a>>),
}

/// What the arguments after the program's name ask for, in the order of `ordered`: from the first name of a
/// file on, all are names. An `Err` says what is wrong with them.
#[tactic(auto, using(crate::proofs::AskedLemmas::goes_on, crate::proofs::AskedLemmas::is_done))]
pub fn options_of<'a>(words: &'a [&'a str]) -> Result<AskedRun<'a>, OptionError<'a>>
    ensures { result ≡ spec.options_of words.now }
{
    let mut state = ParsedSoFar {
        settings: RunSettings::initial(),
        pending: None,
    };
    let mut rest = words;
    'words: while let [word, after @ ..] = rest {
        match one_more(state, word, after) {
            ArgumentStep::Next(next) => state = next,
            ArgumentStep::Done(asked) => return asked,
        }
        rest = after;
    }
    at_end(state)
}

// What is asked for when no argument is left.
fn at_end<'a>(state: ParsedSoFar<'a>) -> Result<AskedRun<'a>, OptionError<'a>>
    ensures { result ≡ spec.at_end state.entry }
{
    match state.pending {
        Some(option) => Err(OptionError::MissingValue(option)),
        None => run(state.settings, names_of(&[])),
    }
}

// What one more argument leads to, given the arguments after it.
fn one_more<'a>(state: ParsedSoFar<'a>, word: &'a str, after: &'a [&'a str]) -> ArgumentStep<'a>
    ensures { result ≡ spec.one_more state.entry word.entry after.now }
{
    match state.pending {
        Some(option) => valued(state.settings, option, word),
        None => first(state.settings, word, after),
    }
}

// An argument that is the value of an option.
fn valued<'a>(settings: RunSettings<'a>, option: Valued, word: &'a str) -> ArgumentStep<'a>
    ensures { result ≡ spec.valued settings.entry option word.entry }
{
    match with_value(settings, option, word) {
        Ok(settings) => ArgumentStep::Next(ParsedSoFar {
            settings,
            pending: None,
        }),
        Err(error) => ArgumentStep::Done(Err(error)),
    }
}

// An argument that may be an option.
fn first<'a>(settings: RunSettings<'a>, word: &'a str, after: &'a [&'a str]) -> ArgumentStep<'a>
    ensures { result ≡ spec.first settings.entry word.entry after.now }
{
    match word_of(word) {
        Word::Flag(flag) => ArgumentStep::Next(ParsedSoFar {
            settings: with_flag(settings, flag),
            pending: None,
        }),
        Word::Valued(option) => ArgumentStep::Next(ParsedSoFar {
            settings,
            pending: Some(option),
        }),
        Word::Help => ArgumentStep::Done(Ok(AskedRun::Help)),
        Word::Version => ArgumentStep::Done(Ok(AskedRun::Version)),
        Word::Unknown => ArgumentStep::Done(Err(OptionError::Unknown(word))),
        Word::End => ArgumentStep::Done(run(settings, names_of(after))),
        Word::File => ArgumentStep::Done(run(settings, names_from(word, after))),
    }
}

// A run with these settings, unless they conflict.
fn run<'a>(settings: RunSettings<'a>, names: NamedFiles) -> Result<AskedRun<'a>, OptionError<'a>>
    ensures { result ≡ spec.run settings.entry names }
{
    match conflict(settings, names) {
        Some(conflict) => Err(OptionError::Conflict(conflict)),
        None => Ok(AskedRun::Run(Options {
            settings,
            file_count: names.count,
        })),
    }
}
