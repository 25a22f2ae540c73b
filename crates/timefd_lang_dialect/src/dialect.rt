//! The dialects: the name of each, what its directives begin with, and how it quotes.

ghost use Rattle.std.specs.Prelude.{◌≡◌};
ghost use Rattle.timefd_lang_dialect.specs.Dialects as spec;
ghost use Rattle.timefd_lang_dialect.specs.Rows.{entries};

use crate::reason::Reason;
use crate::row::{NotBefore, Row, Verdict, row};

/// A language or a library whose formats are read.
#[derive(Debug, Clone, Copy, PartialEq, Eq)]
pub enum Dialect {
    /// `strftime` of Python's `datetime`.
    Python,
    /// `strftime` of C, as glibc has it.
    C,
    /// `date` of GNU coreutils.
    Gnu,
    /// `format` of chrono, for Rust.
    Chrono,
    /// `strftime` of jiff, for Rust.
    Jiff,
    /// `strftime` of Ruby's `Time`.
    Ruby,
    /// Patterns of Java's `DateTimeFormatter`.
    Java,
    /// Layouts of Go's `time`.
    Go,
    /// Tokens of moment.js, for JavaScript.
    Moment,
}

/// What a dialect's directives begin with.
#[derive(Clone, Copy)]
pub enum Leading {
    /// A `%`; the byte after it selects the rows.
    Percent,
    /// Nothing in common: the first byte of a directive selects the rows.
    Bare,
}

/// How a dialect quotes literals.
#[derive(Clone, Copy)]
pub enum Quoting {
    /// It doesn't quote.
    Unquoted,
    /// Between `'` and `'`, where `''` is one `'`.
    Apostrophes,
    /// Between `[` and the last `]` before the next `[`.
    Brackets,
}

impl Dialect {
    /// The name of the dialect, such as `python`.
    pub fn name(self) -> &'static str
        ensures { result.now ≡ spec.name_of self }
    {
        match self {
            Dialect::Python => "python",
            Dialect::C => "c",
            Dialect::Gnu => "gnu",
            Dialect::Chrono => "chrono",
            Dialect::Jiff => "jiff",
            Dialect::Ruby => "ruby",
            Dialect::Java => "java",
            Dialect::Go => "go",
            Dialect::Moment => "moment",
        }
    }

    /// All dialects, in the order in which they are named.
    pub fn all() -> &'static [Dialect]
        ensures { result.now ≡ spec.all }
    {
        &[
            Dialect::Python,
            Dialect::C,
            Dialect::Gnu,
            Dialect::Chrono,
            Dialect::Jiff,
            Dialect::Ruby,
            Dialect::Java,
            Dialect::Go,
            Dialect::Moment,
        ]
    }

    /// The dialect with this name.
    pub fn named(name: &str) -> Option<Self>
        ensures { result ≡ spec.named name.now }
    {
        match name {
            "python" => Some(Dialect::Python),
            "c" => Some(Dialect::C),
            "gnu" => Some(Dialect::Gnu),
            "chrono" => Some(Dialect::Chrono),
            "jiff" => Some(Dialect::Jiff),
            "ruby" => Some(Dialect::Ruby),
            "java" => Some(Dialect::Java),
            "go" => Some(Dialect::Go),
            "moment" => Some(Dialect::Moment),
            _ => None,
        }
    }

    /// What the directives of the dialect begin with.
    pub fn leading(self) -> Leading
        ensures { result ≡ spec.leading_of self }
    {
        match self {
            Dialect::Python
            | Dialect::C
            | Dialect::Gnu
            | Dialect::Chrono
            | Dialect::Jiff
            | Dialect::Ruby => Leading::Percent,
            Dialect::Java | Dialect::Go | Dialect::Moment => Leading::Bare,
        }
    }

    /// How the dialect quotes literals.
    pub fn quoting(self) -> Quoting
        ensures { result ≡ spec.quoting_of self }
    {
        match self {
            Dialect::Python
            | Dialect::C
            | Dialect::Gnu
            | Dialect::Chrono
            | Dialect::Jiff
            | Dialect::Ruby
            | Dialect::Go => Quoting::Unquoted,
            Dialect::Java => Quoting::Apostrophes,
            Dialect::Moment => Quoting::Brackets,
        }
    }
}

/// The row of a `%` that begins no other row.
const UNKNOWN: &[Row] = &[row!("%" refused UnknownDirective)];

impl Leading {
    /// The byte that selects the rows for the front of a text.
    pub fn key(self, text: &[u8]) -> Option<u8>
        ensures { result ≡ spec.key_of self text.now }
    {
        match self {
            Leading::Percent => match text {
                [b'%', byte, ..] => Some(*byte),
                _ => None,
            },
            Leading::Bare => match text {
                [byte, ..] => Some(*byte),
                [] => None,
            },
        }
    }

    /// The rows that count where none that a byte selects does.
    pub fn unknown_rows(self) -> &'static [Row]
        ensures { entries result.now ≡ spec.unknown_rows self }
    {
        match self {
            Leading::Percent => UNKNOWN,
            Leading::Bare => &[],
        }
    }
}
