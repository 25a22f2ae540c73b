//! The languages of descriptions, and the words that name them.

ghost use Rattle.std.specs.Prelude.{◌≡◌, bytes_eq};
ghost use Rattle.timefd_lint_scan.specs.Dialects as spec;

/// The language of a description: a version of the language of `time`, its strftime, or the formats of
/// another language or library.
#[derive(Clone, Copy, Debug, PartialEq, Eq)]
pub enum FormatLanguage {
    One,
    Two,
    Three,
    Strftime,
    /// `strftime` of Python's `datetime`.
    Python,
    /// `strftime` of C.
    C,
    /// `date` of GNU coreutils.
    Gnu,
    /// `format` of chrono, for Rust.
    Chrono,
    /// `strftime` of jiff, for Rust.
    Jiff,
    /// `strftime` of Ruby's `Time`.
    Ruby,
    /// Patterns of Java's `DateTimeFormatter`.
    Java,
    /// Layouts of Go's `time`.
    Go,
    /// Tokens of moment.js, for JavaScript.
    Moment,
}

/// Whether a word is this name.
pub fn is(word: &[u8], name: &str) -> bool
    ensures { result ≡ bytes_eq word.now name.now }
{
    word == name.as_bytes()
}

/// The language that the bytes of a word name.
pub fn dialect_of_word(word: &[u8]) -> Option<FormatLanguage>
    ensures { result ≡ spec.dialect_named word.now }
{
    if is(word, "1") {
        Some(FormatLanguage::One)
    } else if is(word, "2") {
        Some(FormatLanguage::Two)
    } else if is(word, "3") {
        Some(FormatLanguage::Three)
    } else if is(word, "strftime") {
        Some(FormatLanguage::Strftime)
    } else {
        other_of_word(word)
    }
}

// The language or library of formats that aren't `time`'s that the bytes of a word name.
fn other_of_word(word: &[u8]) -> Option<FormatLanguage>
    ensures { result ≡ spec.other_named word.now }
{
    if is(word, "python") {
        Some(FormatLanguage::Python)
    } else if is(word, "c") {
        Some(FormatLanguage::C)
    } else if is(word, "gnu") {
        Some(FormatLanguage::Gnu)
    } else if is(word, "chrono") {
        Some(FormatLanguage::Chrono)
    } else if is(word, "jiff") {
        Some(FormatLanguage::Jiff)
    } else if is(word, "ruby") {
        Some(FormatLanguage::Ruby)
    } else if is(word, "java") {
        Some(FormatLanguage::Java)
    } else if is(word, "go") {
        Some(FormatLanguage::Go)
    } else if is(word, "moment") {
        Some(FormatLanguage::Moment)
    } else {
        None
    }
}

/// The language that a word names: `1`, `2`, `3`, `strftime`, or one of the other languages and libraries, like `java`.
pub fn dialect_named(word: &str) -> Option<FormatLanguage>
    ensures { result ≡ spec.dialect_named word.now }
{
    dialect_of_word(word.as_bytes())
}

/// The version that a number names.
pub fn version_named(word: &[u8]) -> Option<FormatLanguage>
    ensures { result ≡ spec.version_named word.now }
{
    match dialect_of_word(word) {
        Some(FormatLanguage::One) => Some(FormatLanguage::One),
        Some(FormatLanguage::Two) => Some(FormatLanguage::Two),
        Some(FormatLanguage::Three) => Some(FormatLanguage::Three),
        Some(
            FormatLanguage::Strftime
            | FormatLanguage::Python
            | FormatLanguage::C
            | FormatLanguage::Gnu
            | FormatLanguage::Chrono
            | FormatLanguage::Jiff
            | FormatLanguage::Ruby
            | FormatLanguage::Java
            | FormatLanguage::Go
            | FormatLanguage::Moment,
        )
        | None => None,
    }
}
