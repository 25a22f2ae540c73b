//! The languages of texts, and the versions of that of format descriptions.

ghost use Rattle.std.specs.Prelude.{◌≡◌};

/// The language of a text. `time` has a call for each; this type is this port's own.
#[derive(Debug, Clone, Copy, PartialEq, Eq)]
pub enum Language {
    /// The format descriptions of a version.
    Version(DescriptionVersion),
    /// The conversion specifications of C's `strftime`.
    Strftime,
}

/// A version of the language, like the parameter of `time`'s `parse_borrowed`.
#[derive(Debug, Clone, Copy, PartialEq, Eq)]
pub enum DescriptionVersion {
    /// The first version, where `[[` is an escaped `[`.
    One,
    /// The second version, where a backslash escapes the next byte.
    Two,
    /// The third version. It distinguishes upper and lower case, refuses modifiers without use, and
    /// has nested descriptions.
    Three,
}

impl DescriptionVersion {
    ghost use Rattle.timefd_language.specs.Versions.{version_of};
    ghost use Rattle.timefd_language.specs.Bytes.{is_version_three};

    /// The version with this number: 1, 2 or 3. `None` for any other number.
    pub fn from_number(number: u8) -> Option<Self>
        ensures { result ≡ version_of number }
    {
        match number {
            1 => Some(DescriptionVersion::One),
            2 => Some(DescriptionVersion::Two),
            3 => Some(DescriptionVersion::Three),
            _ => None,
        }
    }

    /// Whether words are compared with their case, and modifiers without use are refused: in version
    /// 3 only.
    pub fn is_strict(self) -> bool
        ensures { result ≡ is_version_three self }
    {
        match self {
            DescriptionVersion::One | DescriptionVersion::Two => false,
            DescriptionVersion::Three => true,
        }
    }
}
