//! What the command line asks for.

ghost use Rattle.std.specs.Prelude.{◌≡◌};
ghost use Rattle.timefd_format.specs.Asked as spec;

use crate::bare::is_bare;
use crate::column::{Column, column_named};
use crate::language::{Wording, Wordings, default_wording, wording_named};
use crate::otherwise::{Otherwise, otherwise_named};
use crate::word::{GivenWord, LanguageOption, word_of};

/// A run that writes moments by a description.
#[derive(Clone, Copy)]
pub struct Request<'a> {
    /// The wordings of both descriptions.
    pub wordings: Wordings,
    /// The text of the description that moments are read by. `None` if moments are named, as `now` or
    /// by their date.
    pub read: Option<&'a str>,
    /// The text of the description that they are written by.
    pub description: &'a str,
    /// The column of the standard input to rewrite. `None` if each line of the input is a moment.
    pub column: Option<Column<'a>>,
    /// What is written instead of a moment that couldn't be read or written.
    pub otherwise: Otherwise,
    /// The name of the time zone whose clock the moments are shown on. `None` if they keep their
    /// offset.
    pub zone: Option<&'a str>,
    /// How many of the last words are moments. With 0, moments come from the standard input.
    pub moment_count: usize,
    /// Whether to leave out warnings.
    pub is_quiet: bool,
}

/// A run that looks for the description of some texts.
#[derive(Clone, Copy)]
pub struct GuessRequest {
    /// How many of the last words are texts. With 0, texts come from the standard input.
    pub text_count: usize,
    /// Whether to leave out the note on texts that don't show which number is the day and which is the
    /// month.
    pub is_quiet: bool,
}

/// What the command line asks for.
#[derive(Clone, Copy)]
pub enum Asked<'a> {
    /// How to use the program.
    Help,
    /// The program's version.
    Version,
    /// To write moments.
    Run(Request<'a>),
    /// To find the descriptions that texts may be written by.
    Guess(GuessRequest),
}

/// Why the words are not a valid command line.
#[derive(Clone, Copy)]
pub enum CommandLineError<'a> {
    /// The word looks like an option, but isn't one.
    Unknown(&'a str),
    /// No word follows the option.
    MissingLanguage(LanguageOption),
    /// No word follows `--read`.
    MissingRead,
    /// `--read` is given twice.
    ReadTwice,
    /// The value of the option isn't the name of a language.
    NoLanguage(LanguageOption, &'a str),
    /// No word follows `--csv`.
    MissingColumn,
    /// `--csv` is given twice.
    ColumnTwice,
    /// The value of `--csv` is the number 0.
    NoColumn,
    /// No word follows `--else`.
    MissingOtherwise,
    /// The word isn't a value of `--else`.
    NoOtherwise(&'a str),
    /// No word follows `--zone`.
    MissingZone,
    /// With `--csv`, a moment follows the description.
    MomentBesideColumn,
    /// `--to-language` is given without `--read`.
    NothingRead,
    /// An option other than `--quiet` comes before `--guess`.
    GuessBeside,
    /// There is no description.
    NoDescription,
}

// Which option the next word is the value of.
#[derive(Clone, Copy)]
enum Wanted {
    Nothing,
    Language(LanguageOption),
    Read,
    Column,
    Otherwise,
    Zone,
}

/// What the words so far have set.
#[derive(Clone, Copy)]
pub(crate) struct AskedSoFar<'a> {
    pub(crate) language: Wording,
    pub(crate) to_language: Option<Wording>,
    pub(crate) read: Option<&'a str>,
    pub(crate) column: Option<Column<'a>>,
    pub(crate) otherwise: Option<Otherwise>,
    pub(crate) zone: Option<&'a str>,
    is_quiet: bool,
    wanted: Wanted,
}

// What one more word leads to: a new state, or the end.
#[derive(Clone, Copy)]
enum AskedStep<'a> {
    Next(AskedSoFar<'a>),
    Done(Result<Asked<'a>, CommandLineError<'a>>),
}

/// What the words after the program's name ask for, or what is wrong with them.
#[tactic(auto, using(crate::proofs::AskedLemmas::goes_on, crate::proofs::AskedLemmas::is_done))]
pub fn asked_of<'a>(words: &'a [&'a str]) -> Result<Asked<'a>, CommandLineError<'a>>
    ensures { result ≡ spec.asked_of words.now }
{
    let mut state = AskedSoFar {
        language: default_wording(),
        to_language: None,
        read: None,
        column: None,
        otherwise: None,
        zone: None,
        is_quiet: false,
        wanted: Wanted::Nothing,
    };
    let mut rest = words;
    'words: while let [word, after @ ..] = rest {
        match one_more(state, word, after) {
            AskedStep::Next(next) => state = next,
            AskedStep::Done(asked) => return asked,
        }
        rest = after;
    }
    Err(at_end(state.wanted))
}

// What is missing if there are no more words.
fn at_end(wanted: Wanted) -> CommandLineError<'static>
    ensures { result ≡ spec.at_end wanted }
{
    match wanted {
        Wanted::Nothing => CommandLineError::NoDescription,
        Wanted::Language(option) => CommandLineError::MissingLanguage(option),
        Wanted::Read => CommandLineError::MissingRead,
        Wanted::Column => CommandLineError::MissingColumn,
        Wanted::Otherwise => CommandLineError::MissingOtherwise,
        Wanted::Zone => CommandLineError::MissingZone,
    }
}

// Takes one more word. Some options take all the words that follow it too.
fn one_more<'a>(state: AskedSoFar<'a>, word: &'a str, after: &'a [&'a str]) -> AskedStep<'a>
    ensures { result ≡ spec.one_more state.entry word.entry after.now }
{
    match state.wanted {
        Wanted::Nothing => first(state, word, after),
        Wanted::Language(option) => with_language(state, option, word),
        Wanted::Read => AskedStep::Next(AskedSoFar {
            read: Some(word),
            wanted: Wanted::Nothing,
            ..state
        }),
        Wanted::Column => with_column(state, word),
        Wanted::Otherwise => with_otherwise(state, word),
        Wanted::Zone => AskedStep::Next(AskedSoFar {
            zone: Some(word),
            wanted: Wanted::Nothing,
            ..state
        }),
    }
}

// Takes a word as the name of the column.
fn with_column<'a>(state: AskedSoFar<'a>, word: &'a str) -> AskedStep<'a>
    ensures { result ≡ spec.with_column state.entry word.entry }
{
    match column_named(word) {
        Some(column) => AskedStep::Next(AskedSoFar {
            column: Some(column),
            wanted: Wanted::Nothing,
            ..state
        }),
        None => AskedStep::Done(Err(CommandLineError::NoColumn)),
    }
}

// Takes a word as the value of `--else`.
fn with_otherwise<'a>(state: AskedSoFar<'a>, word: &'a str) -> AskedStep<'a>
    ensures { result ≡ spec.with_otherwise state.entry word.entry }
{
    match otherwise_named(word) {
        Some(otherwise) => AskedStep::Next(AskedSoFar {
            otherwise: Some(otherwise),
            wanted: Wanted::Nothing,
            ..state
        }),
        None => AskedStep::Done(Err(CommandLineError::NoOtherwise(word))),
    }
}

// Takes a word as the language of an option.
fn with_language<'a>(state: AskedSoFar<'a>, option: LanguageOption, word: &'a str) -> AskedStep<'a>
    ensures { result ≡ spec.with_language state.entry option word.entry }
{
    match wording_named(word) {
        Some(language) => AskedStep::Next(with_option(state, option, language)),
        None => AskedStep::Done(Err(CommandLineError::NoLanguage(option, word))),
    }
}

// The state with this language for the option.
fn with_option<'a>(
    state: AskedSoFar<'a>,
    option: LanguageOption,
    language: Wording,
) -> AskedSoFar<'a>
    ensures { result ≡ spec.with_option state.entry option language }
{
    match option {
        LanguageOption::Both => AskedSoFar {
            language,
            wanted: Wanted::Nothing,
            ..state
        },
        LanguageOption::Written => AskedSoFar {
            to_language: Some(language),
            wanted: Wanted::Nothing,
            ..state
        },
    }
}

// Takes a word that may be an option.
fn first<'a>(state: AskedSoFar<'a>, word: &'a str, after: &'a [&'a str]) -> AskedStep<'a>
    ensures { result ≡ spec.first state.entry word.entry after.now }
{
    match word_of(word) {
        GivenWord::Language(option) => AskedStep::Next(AskedSoFar {
            wanted: Wanted::Language(option),
            ..state
        }),
        GivenWord::Read => before_read(state),
        GivenWord::Csv => before_column(state),
        GivenWord::Else => AskedStep::Next(AskedSoFar {
            wanted: Wanted::Otherwise,
            ..state
        }),
        GivenWord::Guess => AskedStep::Done(guess(state, after)),
        GivenWord::Zone => AskedStep::Next(AskedSoFar {
            wanted: Wanted::Zone,
            ..state
        }),
        GivenWord::Quiet => AskedStep::Next(AskedSoFar {
            is_quiet: true,
            ..state
        }),
        GivenWord::Help => AskedStep::Done(Ok(Asked::Help)),
        GivenWord::Version => AskedStep::Done(Ok(Asked::Version)),
        GivenWord::Unknown => AskedStep::Done(Err(CommandLineError::Unknown(word))),
        GivenWord::End => AskedStep::Done(after_end(state, after)),
        GivenWord::Description => AskedStep::Done(requested(state, word, after)),
    }
}

// `--read`, which may be given once.
fn before_read<'a>(state: AskedSoFar<'a>) -> AskedStep<'a>
    ensures { result ≡ spec.before_read state.entry }
{
    match state.read {
        Some(_) => AskedStep::Done(Err(CommandLineError::ReadTwice)),
        None => AskedStep::Next(AskedSoFar {
            wanted: Wanted::Read,
            ..state
        }),
    }
}

// `--guess`: all the words that follow are texts.
fn guess<'a>(state: AskedSoFar<'a>, words: &'a [&'a str]) -> Result<Asked<'a>, CommandLineError<'a>>
    ensures { result ≡ spec.guess state.entry words.now }
{
    if !is_bare(state) {
        return Err(CommandLineError::GuessBeside);
    }
    Ok(Asked::Guess(GuessRequest {
        text_count: words.len(),
        is_quiet: state.is_quiet,
    }))
}

// `--csv`, which may be given once.
fn before_column<'a>(state: AskedSoFar<'a>) -> AskedStep<'a>
    ensures { result ≡ spec.before_column state.entry }
{
    match state.column {
        Some(_) => AskedStep::Done(Err(CommandLineError::ColumnTwice)),
        None => AskedStep::Next(AskedSoFar {
            wanted: Wanted::Column,
            ..state
        }),
    }
}

// After `--` comes the description, then its moments.
fn after_end<'a>(
    state: AskedSoFar<'a>,
    words: &'a [&'a str],
) -> Result<Asked<'a>, CommandLineError<'a>>
    ensures { result ≡ spec.after_end state.entry words.now }
{
    match words {
        [] => Err(CommandLineError::NoDescription),
        [description, moments @ ..] => requested(state, description, moments),
    }
}

fn requested<'a>(
    state: AskedSoFar<'a>,
    description: &'a str,
    moments: &[&str],
) -> Result<Asked<'a>, CommandLineError<'a>>
    ensures { result ≡ spec.requested state.entry description.entry moments.now }
{
    let Some(wordings) = wordings_of(state) else {
        return Err(CommandLineError::NothingRead);
    };
    match (state.column, moments) {
        (Some(_), [_, ..]) => Err(CommandLineError::MomentBesideColumn),
        _ => Ok(Asked::Run(Request {
            wordings,
            read: state.read,
            description,
            column: state.column,
            otherwise: otherwise_of(state),
            zone: state.zone,
            moment_count: moments.len(),
            is_quiet: state.is_quiet,
        })),
    }
}

// What is written where a moment can't be. Without `--else`, a record of a table stays as it is, and a
// line is left out.
fn otherwise_of(state: AskedSoFar<'_>) -> Otherwise
    ensures { result ≡ spec.otherwise_of state.entry }
{
    match (state.otherwise, state.column) {
        (Some(otherwise), _) => otherwise,
        (None, Some(_)) => Otherwise::Keep,
        (None, None) => Otherwise::Nothing,
    }
}

// The wordings of both descriptions. `None` if a language to write in is named, but nothing to read by.
fn wordings_of(state: AskedSoFar<'_>) -> Option<Wordings>
    ensures { result ≡ spec.wordings_of state.entry }
{
    match (state.to_language, state.read) {
        (None, _) => Some(Wordings {
            read: state.language,
            written: state.language,
        }),
        (Some(written), Some(_)) => Some(Wordings {
            read: state.language,
            written,
        }),
        (Some(_), None) => None,
    }
}
