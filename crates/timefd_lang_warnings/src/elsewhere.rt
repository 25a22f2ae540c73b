//! Which language would read components in a text that has none.

ghost use Rattle.std.specs.Prelude.{◌≡◌};
ghost use Rattle.timefd_lang_warnings.specs.Elsewhere as spec;

use crate::mark::{ComponentMark, is_somewhere};

/// A language that would read components in a text.
#[derive(Debug, Clone, Copy, PartialEq, Eq)]
pub enum Elsewhere {
    /// strftime: `%Y-%m-%d`.
    Strftime,
    /// Versions 1, 2 and 3: `[year]-[month]-[day]`.
    Brackets,
    /// Format strings of Rust and Python: `{year}`. No parser here reads them.
    Braces,
    /// Patterns of Java, ICU and others: `YYYY-MM-DD`. No parser here reads them.
    Patterns,
}

/// The language that a text without components was perhaps meant in: the first one whose mark the
/// text has. `None` if it has none of the marks.
pub fn read_elsewhere(text: &str) -> Option<Elsewhere>
    ensures { result ≡ spec.read_elsewhere text.now }
{
    let bytes = text.as_bytes();
    if is_somewhere(ComponentMark::Percent, bytes) {
        return Some(Elsewhere::Strftime);
    }
    if is_somewhere(ComponentMark::Bracket, bytes) {
        return Some(Elsewhere::Brackets);
    }
    if is_somewhere(ComponentMark::Brace, bytes) {
        return Some(Elsewhere::Braces);
    }
    if is_somewhere(ComponentMark::Twice, bytes) {
        return Some(Elsewhere::Patterns);
    }
    None
}

impl Elsewhere {
    /// The name of the language, for messages.
    pub fn name(self) -> &'static str
        ensures { result.now ≡ spec.name_of self }
    {
        match self {
            Elsewhere::Strftime => "strftime",
            Elsewhere::Brackets => "version 3",
            Elsewhere::Braces => "a format string of Rust or Python",
            Elsewhere::Patterns => "a pattern of Java or ICU",
        }
    }
}
