//! The arguments that name files.

ghost use Rattle.std.specs.Prelude.{◌≡◌};
ghost use Rattle.timefd_lint_options.specs.Names as spec;

use crate::word::is_input;

/// The arguments that name files.
#[derive(Clone, Copy)]
pub struct NamedFiles {
    /// How many there are.
    pub count: usize,
    /// Whether one of them means the standard input.
    pub has_input: bool,
}

/// The names in these arguments.
pub fn names_of(words: &[&str]) -> NamedFiles
    ensures { result ≡ spec.names_of words.now }
{
    NamedFiles {
        count: words.len(),
        has_input: has_input(words),
    }
}

/// A name, and the names after it.
pub fn names_from(name: &str, after: &[&str]) -> NamedFiles
    ensures { result ≡ spec.names_from name.now after.now }
{
    NamedFiles {
        count: after.len().saturating_add(1),
        has_input: is_input(name) || has_input(after),
    }
}

// Whether one of the names means the standard input.
fn has_input(words: &[&str]) -> bool
    ensures { result ≡ spec.has_input words.now }
{
    let mut rest = words;
    'names: while let [name, after @ ..] = rest {
        if is_input(name) {
            return true;
        }
        rest = after;
    }
    false
}
