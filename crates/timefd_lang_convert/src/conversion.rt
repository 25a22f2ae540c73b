//! The languages that texts can be converted between.

ghost use Rattle.std.specs.Prelude.{◌≡◌};
ghost use Rattle.timefd_lang_convert.specs.Conversions as spec;

use timefd_parse::{DescriptionVersion, Language};

/// A conversion from one language to another. There are no others: no text is converted to an
/// earlier version, and none to strftime.
#[derive(Debug, Clone, Copy, PartialEq, Eq)]
pub enum Conversion {
    /// From version 1 to version 2.
    OneToTwo,
    /// From version 1 to version 3, through version 2.
    OneToThree,
    /// From version 2 to version 3.
    TwoToThree,
    /// From version 3 to its normal form.
    ThreeToThree,
    /// From strftime to version 3.
    StrftimeToThree,
}

/// The conversion from one language to another. `None` if there isn't one.
pub fn conversion_between(from: Language, to: Language) -> Option<Conversion>
    ensures { result ≡ spec.conversion_between from to }
{
    match to {
        Language::Version(DescriptionVersion::One) => None,
        Language::Version(DescriptionVersion::Two) => to_two(from),
        Language::Version(DescriptionVersion::Three) => Some(to_three(from)),
        Language::Strftime => None,
    }
}

fn to_two(from: Language) -> Option<Conversion>
    ensures { result ≡ spec.to_two from }
{
    match from {
        Language::Version(DescriptionVersion::One) => Some(Conversion::OneToTwo),
        Language::Version(DescriptionVersion::Two) => None,
        Language::Version(DescriptionVersion::Three) => None,
        Language::Strftime => None,
    }
}

fn to_three(from: Language) -> Conversion
    ensures { result ≡ spec.to_three from }
{
    match from {
        Language::Version(DescriptionVersion::One) => Conversion::OneToThree,
        Language::Version(DescriptionVersion::Two) => Conversion::TwoToThree,
        Language::Version(DescriptionVersion::Three) => Conversion::ThreeToThree,
        Language::Strftime => Conversion::StrftimeToThree,
    }
}
