//! The outcome of fixing or converting a description, and how many there are of a kind.

ghost use Rattle.std.specs.Prelude.{◌≡◌, count_by};
ghost use Rattle.timefd_lint_sources.specs.Rewriting.Written as spec;
ghost use Rattle.timefd_lint_sources.specs.Rewriting.Written.{is_refusing, is_rewriting};

/// The outcome of a description.
#[derive(Clone, Copy, Debug, PartialEq, Eq)]
pub enum Outcome {
    /// Only another language or library knows it, or there is no conversion from its version.
    /// It stays as it is.
    PassedOver,
    /// It has nothing to fix, or already is what it would be converted to.
    Same,
    /// It is fixed or converted: its literal has the new text, and its version is the new one.
    Rewritten,
    /// Its language refuses it, even after all allowed fixes. It stays as it is.
    Refused,
    /// It has `[optional ..]` or `[first ..]`, which its place takes, but can't be fixed or converted with them. It stays as
    /// it is.
    WithItems,
    /// It isn't UTF-8. It stays as it is.
    NotText,
    /// No literal of its kind can hold the new text with as many lines: for example, a raw literal can't
    /// hold what closes it. It stays as it is.
    NotALiteral,
    /// It would be converted, but there is no number next to it that says its version, so it has to be
    /// changed manually. It stays as it is.
    ByHand,
}

impl Outcome {
    /// Whether the description is rewritten.
    pub fn is_rewriting(self) -> bool
        ensures { result ≡ spec.is_rewriting self }
    {
        match self {
            Outcome::Rewritten => true,
            Outcome::PassedOver
            | Outcome::Same
            | Outcome::Refused
            | Outcome::WithItems
            | Outcome::NotText
            | Outcome::NotALiteral
            | Outcome::ByHand => false,
        }
    }

    /// Whether the description still has a fault, or no literal can hold its new text.
    pub fn is_refusing(self) -> bool
        ensures { result ≡ spec.is_refusing self }
    {
        match self {
            Outcome::Refused | Outcome::NotText | Outcome::NotALiteral => true,
            Outcome::PassedOver
            | Outcome::Same
            | Outcome::Rewritten
            | Outcome::WithItems
            | Outcome::ByHand => false,
        }
    }
}

/// The number of descriptions that are rewritten.
pub fn count_rewritten(outcomes: &[Outcome]) -> usize
    ensures { result ≡ count_by is_rewriting outcomes.now }
{
    outcomes.iter().filter(|it| it.is_rewriting()).count()
}

/// The number of descriptions that still have a fault, or whose new text no literal can hold.
pub fn count_refused(outcomes: &[Outcome]) -> usize
    ensures { result ≡ count_by is_refusing outcomes.now }
{
    outcomes.iter().filter(|it| it.is_refusing()).count()
}
