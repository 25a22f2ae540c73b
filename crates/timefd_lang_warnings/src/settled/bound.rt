//! What has to follow a text, or what is known about the text that follows.

ghost use Rattle.std.specs.Prelude.{◌≡◌};
ghost use Rattle.timefd_lang_warnings.specs.Settling.Settled.{is_enough, literal_begin};

/// What has to follow the text of a component, so that a reader takes that text and no more. Also
/// what is known about the text that follows.
#[derive(Debug, Clone, Copy, PartialEq, Eq)]
pub enum Bound {
    /// Anything may follow.
    Anything,
    /// No digit follows: another byte, or the end of the text.
    NoDigit,
    /// The end of the text follows.
    End,
    /// A reader never takes exactly that text, whatever follows.
    Never,
}

impl Bound {
    /// Whether this bound is met, given what is known about the text that follows.
    pub fn is_met_by(self, known: Bound) -> bool
        ensures { result ≡ is_enough self known }
    {
        match self {
            Bound::Anything => true,
            Bound::NoDigit => match known {
                Bound::NoDigit | Bound::End => true,
                Bound::Anything | Bound::Never => false,
            },
            Bound::End => match known {
                Bound::End => true,
                Bound::Anything | Bound::NoDigit | Bound::Never => false,
            },
            Bound::Never => false,
        }
    }

    /// What is known about a literal and the text that follows it, given what is known about the
    /// latter.
    pub fn before_literal(literal: &[u8], known: Bound) -> Bound
        ensures { result ≡ literal_begin literal.now known }
    {
        match literal {
            [] => known,
            [first, ..] => if first.is_ascii_digit() {
                Bound::Anything
            } else {
                Bound::NoDigit
            },
        }
    }
}
