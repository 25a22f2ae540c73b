//! What a word is that may be an option.

ghost use Rattle.std.specs.Prelude.{◌≡◌};
ghost use Rattle.timefd_lint_options.specs.Words as spec;

/// An option without a value.
#[derive(Clone, Copy)]
pub enum Flag {
    Whole,
    Source,
    Explain,
    Normal,
    Fix,
    Unsafe,
    Write,
    Partial,
    Warn,
    Lsp,
    Quiet,
}

/// An option whose value is the next word.
#[derive(Clone, Copy)]
pub enum Valued {
    Language,
    Format,
    Color,
    Comment,
    Key,
    To,
    Deny,
    Allow,
}

/// What a word is that may be an option.
#[derive(Clone, Copy)]
pub enum Word {
    Flag(Flag),
    Valued(Valued),
    /// `--help` or `-h`.
    Help,
    /// `--version` or `-V`.
    Version,
    /// `--`: all words after it are names of files.
    End,
    /// A word that looks like an option but isn't one.
    Unknown,
    /// The name of a file.
    File,
}

/// What a word is that may be an option.
pub fn word_of(word: &str) -> Word
    ensures { result ≡ spec.word_of word.now }
{
    match word {
        "--whole" => Word::Flag(Flag::Whole),
        "--source" => Word::Flag(Flag::Source),
        "--explain" => Word::Flag(Flag::Explain),
        "--normal" => Word::Flag(Flag::Normal),
        "--fix" => Word::Flag(Flag::Fix),
        "--unsafe" => Word::Flag(Flag::Unsafe),
        "--write" => Word::Flag(Flag::Write),
        "--partial" => Word::Flag(Flag::Partial),
        "--warn" => Word::Flag(Flag::Warn),
        "--lsp" => Word::Flag(Flag::Lsp),
        "--quiet" | "-q" => Word::Flag(Flag::Quiet),
        "--language" => Word::Valued(Valued::Language),
        "--format" => Word::Valued(Valued::Format),
        "--color" => Word::Valued(Valued::Color),
        "--comment" => Word::Valued(Valued::Comment),
        "--key" => Word::Valued(Valued::Key),
        "--to" => Word::Valued(Valued::To),
        "--deny" => Word::Valued(Valued::Deny),
        "--allow" => Word::Valued(Valued::Allow),
        "--help" | "-h" => Word::Help,
        "--version" | "-V" => Word::Version,
        "--" => Word::End,
        "-" => Word::File,
        _ => other_word(word),
    }
}

// What a word is that isn't an option.
fn other_word(word: &str) -> Word
    ensures { result ≡ spec.other_word word.now }
{
    if word.as_bytes().starts_with(b"-") {
        Word::Unknown
    } else {
        Word::File
    }
}

/// Whether the name of a file means the standard input.
pub fn is_input(name: &str) -> bool
    ensures { result ≡ spec.is_input name.now }
{
    name == "-"
}
