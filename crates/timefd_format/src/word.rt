//! What a word means where an option may be given.

ghost use Rattle.std.specs.Prelude.{◌≡◌};
ghost use Rattle.timefd_format.specs.Words as spec;

/// An option whose value is a language.
#[derive(Clone, Copy)]
pub enum LanguageOption {
    /// `--language`: the language of both descriptions.
    Both,
    /// `--to-language`: the language of the description that moments are written by.
    Written,
}

impl LanguageOption {
    /// The option as it is written.
    pub fn name(self) -> &'static str
        ensures { result.now ≡ spec.option_name self }
    {
        match self {
            LanguageOption::Both => "--language",
            LanguageOption::Written => "--to-language",
        }
    }
}

/// What a word means where an option may be given.
#[derive(Clone, Copy)]
pub enum GivenWord {
    /// `--language` or `--to-language`. The next word is its value.
    Language(LanguageOption),
    /// `--read`. The next word is its value.
    Read,
    /// `--csv`. The next word is its value.
    Csv,
    /// `--else`. The next word is its value.
    Else,
    /// `--guess`. All words after it are texts.
    Guess,
    /// `--zone`. The next word is its value.
    Zone,
    /// `--quiet` or `-q`.
    Quiet,
    /// `--help` or `-h`.
    Help,
    /// `--version` or `-V`.
    Version,
    /// `--`. The next word is the description, whatever it begins with.
    End,
    /// A word that looks like an option but isn't one.
    Unknown,
    /// The description.
    Description,
}

/// What a word means where an option may be given.
pub fn word_of(word: &str) -> GivenWord
    ensures { result ≡ spec.word_of word.now }
{
    match word {
        "--language" => GivenWord::Language(LanguageOption::Both),
        "--to-language" => GivenWord::Language(LanguageOption::Written),
        "--read" => GivenWord::Read,
        "--csv" => GivenWord::Csv,
        "--else" => GivenWord::Else,
        "--guess" => GivenWord::Guess,
        "--zone" => GivenWord::Zone,
        "--quiet" | "-q" => GivenWord::Quiet,
        "--help" | "-h" => GivenWord::Help,
        "--version" | "-V" => GivenWord::Version,
        "--" => GivenWord::End,
        _ => other_word(word),
    }
}

// What a word means that isn't an option.
fn other_word(word: &str) -> GivenWord
    ensures { result ≡ spec.other_word word.now }
{
    if word.as_bytes().starts_with(b"-") {
        GivenWord::Unknown
    } else {
        GivenWord::Description
    }
}
