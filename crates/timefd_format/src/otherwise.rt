//! What is written where a moment can't be.

ghost use Rattle.std.specs.Prelude.{◌≡◌};
ghost use Rattle.timefd_format.specs.Words as spec;

/// What is written instead of a moment that isn't read, or that a component can't show. The reason
/// is reported either way.
#[derive(Clone, Copy)]
pub enum Otherwise {
    /// Nothing, not even an empty line.
    Nothing,
    /// The text as it was read.
    Keep,
    /// An empty line, or an empty field.
    Empty,
    /// Nothing, and the run ends.
    Fail,
}

/// The meaning of a value of `--else`.
pub fn otherwise_named(word: &str) -> Option<Otherwise>
    ensures { result ≡ spec.otherwise_named word.now }
{
    match word {
        "keep" => Some(Otherwise::Keep),
        "empty" => Some(Otherwise::Empty),
        "fail" => Some(Otherwise::Fail),
        _ => None,
    }
}
