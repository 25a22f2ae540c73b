//! Years of ISO weeks: such a year begins with the week that holds its first Thursday. Each type
//! mirrors the one of the same name in `time`'s `modifier`.

ghost use Rattle.std.specs.Prelude.{◌≡◌, false};

use crate::enums::Padding;

/// The whole year of an ISO week, of up to six digits.
#[derive(Debug, Clone, Copy, PartialEq, Eq)]
pub struct IsoYearFullExtendedRange {
    /// How the number is filled on the left.
    pub padding: Padding,
    /// Whether a year from 0 to 9,999 has a `+`; a later year always has one.
    pub sign_is_mandatory: bool,
}

impl IsoYearFullExtendedRange {
    /// Filled with zeros, no `+`.
    pub const fn default() -> Self
        ensures { result ≡ record { padding = Padding.Zero; sign_is_mandatory = false } }
    {
        IsoYearFullExtendedRange {
            padding: Padding::Zero,
            sign_is_mandatory: false,
        }
    }

    /// Sets how the number is filled on the left.
    pub const fn with_padding(self, padding: Padding) -> Self
        ensures { result ≡ record self { padding = padding } }
    {
        IsoYearFullExtendedRange { padding, ..self }
    }

    /// Sets whether a year from 0 to 9,999 has a `+`.
    pub const fn with_sign_is_mandatory(self, sign_is_mandatory: bool) -> Self
        ensures { result ≡ record self { sign_is_mandatory = sign_is_mandatory } }
    {
        IsoYearFullExtendedRange {
            sign_is_mandatory,
            ..self
        }
    }
}

/// The whole year of an ISO week, of up to four digits.
#[derive(Debug, Clone, Copy, PartialEq, Eq)]
pub struct IsoYearFullStandardRange {
    /// How the number is filled on the left.
    pub padding: Padding,
    /// Whether a value that is not negative has a `+`.
    pub sign_is_mandatory: bool,
}

impl IsoYearFullStandardRange {
    /// Filled with zeros, no `+`.
    pub const fn default() -> Self
        ensures { result ≡ record { padding = Padding.Zero; sign_is_mandatory = false } }
    {
        IsoYearFullStandardRange {
            padding: Padding::Zero,
            sign_is_mandatory: false,
        }
    }

    /// Sets how the number is filled on the left.
    pub const fn with_padding(self, padding: Padding) -> Self
        ensures { result ≡ record self { padding = padding } }
    {
        IsoYearFullStandardRange { padding, ..self }
    }

    /// Sets whether a value that is not negative has a `+`.
    pub const fn with_sign_is_mandatory(self, sign_is_mandatory: bool) -> Self
        ensures { result ≡ record self { sign_is_mandatory = sign_is_mandatory } }
    {
        IsoYearFullStandardRange {
            sign_is_mandatory,
            ..self
        }
    }
}

/// The year of an ISO week, of up to six digits, without its last two.
#[derive(Debug, Clone, Copy, PartialEq, Eq)]
pub struct IsoYearCenturyExtendedRange {
    /// How the number is filled on the left.
    pub padding: Padding,
    /// Whether a year from 0 to 9,999 has a `+`; a later year always has one.
    pub sign_is_mandatory: bool,
}

impl IsoYearCenturyExtendedRange {
    /// Filled with zeros, no `+`.
    pub const fn default() -> Self
        ensures { result ≡ record { padding = Padding.Zero; sign_is_mandatory = false } }
    {
        IsoYearCenturyExtendedRange {
            padding: Padding::Zero,
            sign_is_mandatory: false,
        }
    }

    /// Sets how the number is filled on the left.
    pub const fn with_padding(self, padding: Padding) -> Self
        ensures { result ≡ record self { padding = padding } }
    {
        IsoYearCenturyExtendedRange { padding, ..self }
    }

    /// Sets whether a year from 0 to 9,999 has a `+`.
    pub const fn with_sign_is_mandatory(self, sign_is_mandatory: bool) -> Self
        ensures { result ≡ record self { sign_is_mandatory = sign_is_mandatory } }
    {
        IsoYearCenturyExtendedRange {
            sign_is_mandatory,
            ..self
        }
    }
}

/// The year of an ISO week, of up to four digits, without its last two.
#[derive(Debug, Clone, Copy, PartialEq, Eq)]
pub struct IsoYearCenturyStandardRange {
    /// How the number is filled on the left.
    pub padding: Padding,
    /// Whether a value that is not negative has a `+`.
    pub sign_is_mandatory: bool,
}

impl IsoYearCenturyStandardRange {
    /// Filled with zeros, no `+`.
    pub const fn default() -> Self
        ensures { result ≡ record { padding = Padding.Zero; sign_is_mandatory = false } }
    {
        IsoYearCenturyStandardRange {
            padding: Padding::Zero,
            sign_is_mandatory: false,
        }
    }

    /// Sets how the number is filled on the left.
    pub const fn with_padding(self, padding: Padding) -> Self
        ensures { result ≡ record self { padding = padding } }
    {
        IsoYearCenturyStandardRange { padding, ..self }
    }

    /// Sets whether a value that is not negative has a `+`.
    pub const fn with_sign_is_mandatory(self, sign_is_mandatory: bool) -> Self
        ensures { result ≡ record self { sign_is_mandatory = sign_is_mandatory } }
    {
        IsoYearCenturyStandardRange {
            sign_is_mandatory,
            ..self
        }
    }
}

/// The last two digits of the year of an ISO week.
#[derive(Debug, Clone, Copy, PartialEq, Eq)]
pub struct IsoYearLastTwo {
    /// How the number is filled on the left.
    pub padding: Padding,
}

impl IsoYearLastTwo {
    /// Filled with zeros.
    pub const fn default() -> Self
        ensures { result ≡ record { padding = Padding.Zero } }
    {
        IsoYearLastTwo {
            padding: Padding::Zero,
        }
    }

    /// Sets how the number is filled on the left.
    pub const fn with_padding(self, padding: Padding) -> Self
        ensures { result ≡ record self { padding = padding } }
    {
        IsoYearLastTwo { padding }
    }
}
