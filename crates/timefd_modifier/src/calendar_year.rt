//! Years of the calendar. Each type mirrors the one of the same name in `time`'s `modifier`.

ghost use Rattle.std.specs.Prelude.{◌≡◌, false};

use crate::enums::Padding;

/// The whole year, of up to six digits.
#[derive(Debug, Clone, Copy, PartialEq, Eq)]
pub struct CalendarYearFullExtendedRange {
    /// How the number is filled on the left.
    pub padding: Padding,
    /// Whether a year from 0 to 9,999 has a `+`; a later year always has one.
    pub sign_is_mandatory: bool,
}

impl CalendarYearFullExtendedRange {
    /// Filled with zeros, no `+`.
    pub const fn default() -> Self
        ensures { result ≡ record { padding = Padding.Zero; sign_is_mandatory = false } }
    {
        CalendarYearFullExtendedRange {
            padding: Padding::Zero,
            sign_is_mandatory: false,
        }
    }

    /// Sets how the number is filled on the left.
    pub const fn with_padding(self, padding: Padding) -> Self
        ensures { result ≡ record self { padding = padding } }
    {
        CalendarYearFullExtendedRange { padding, ..self }
    }

    /// Sets whether a year from 0 to 9,999 has a `+`.
    pub const fn with_sign_is_mandatory(self, sign_is_mandatory: bool) -> Self
        ensures { result ≡ record self { sign_is_mandatory = sign_is_mandatory } }
    {
        CalendarYearFullExtendedRange {
            sign_is_mandatory,
            ..self
        }
    }
}

/// The whole year, of up to four digits.
#[derive(Debug, Clone, Copy, PartialEq, Eq)]
pub struct CalendarYearFullStandardRange {
    /// How the number is filled on the left.
    pub padding: Padding,
    /// Whether a value that is not negative has a `+`.
    pub sign_is_mandatory: bool,
}

impl CalendarYearFullStandardRange {
    /// Filled with zeros, no `+`.
    pub const fn default() -> Self
        ensures { result ≡ record { padding = Padding.Zero; sign_is_mandatory = false } }
    {
        CalendarYearFullStandardRange {
            padding: Padding::Zero,
            sign_is_mandatory: false,
        }
    }

    /// Sets how the number is filled on the left.
    pub const fn with_padding(self, padding: Padding) -> Self
        ensures { result ≡ record self { padding = padding } }
    {
        CalendarYearFullStandardRange { padding, ..self }
    }

    /// Sets whether a value that is not negative has a `+`.
    pub const fn with_sign_is_mandatory(self, sign_is_mandatory: bool) -> Self
        ensures { result ≡ record self { sign_is_mandatory = sign_is_mandatory } }
    {
        CalendarYearFullStandardRange {
            sign_is_mandatory,
            ..self
        }
    }
}

/// A year of up to six digits without its last two.
#[derive(Debug, Clone, Copy, PartialEq, Eq)]
pub struct CalendarYearCenturyExtendedRange {
    /// How the number is filled on the left.
    pub padding: Padding,
    /// Whether a year from 0 to 9,999 has a `+`; a later year always has one.
    pub sign_is_mandatory: bool,
}

impl CalendarYearCenturyExtendedRange {
    /// Filled with zeros, no `+`.
    pub const fn default() -> Self
        ensures { result ≡ record { padding = Padding.Zero; sign_is_mandatory = false } }
    {
        CalendarYearCenturyExtendedRange {
            padding: Padding::Zero,
            sign_is_mandatory: false,
        }
    }

    /// Sets how the number is filled on the left.
    pub const fn with_padding(self, padding: Padding) -> Self
        ensures { result ≡ record self { padding = padding } }
    {
        CalendarYearCenturyExtendedRange { padding, ..self }
    }

    /// Sets whether a year from 0 to 9,999 has a `+`.
    pub const fn with_sign_is_mandatory(self, sign_is_mandatory: bool) -> Self
        ensures { result ≡ record self { sign_is_mandatory = sign_is_mandatory } }
    {
        CalendarYearCenturyExtendedRange {
            sign_is_mandatory,
            ..self
        }
    }
}

/// A year of up to four digits without its last two.
#[derive(Debug, Clone, Copy, PartialEq, Eq)]
pub struct CalendarYearCenturyStandardRange {
    /// How the number is filled on the left.
    pub padding: Padding,
    /// Whether a value that is not negative has a `+`.
    pub sign_is_mandatory: bool,
}

impl CalendarYearCenturyStandardRange {
    /// Filled with zeros, no `+`.
    pub const fn default() -> Self
        ensures { result ≡ record { padding = Padding.Zero; sign_is_mandatory = false } }
    {
        CalendarYearCenturyStandardRange {
            padding: Padding::Zero,
            sign_is_mandatory: false,
        }
    }

    /// Sets how the number is filled on the left.
    pub const fn with_padding(self, padding: Padding) -> Self
        ensures { result ≡ record self { padding = padding } }
    {
        CalendarYearCenturyStandardRange { padding, ..self }
    }

    /// Sets whether a value that is not negative has a `+`.
    pub const fn with_sign_is_mandatory(self, sign_is_mandatory: bool) -> Self
        ensures { result ≡ record self { sign_is_mandatory = sign_is_mandatory } }
    {
        CalendarYearCenturyStandardRange {
            sign_is_mandatory,
            ..self
        }
    }
}

/// The last two digits of the year.
#[derive(Debug, Clone, Copy, PartialEq, Eq)]
pub struct CalendarYearLastTwo {
    /// How the number is filled on the left.
    pub padding: Padding,
}

impl CalendarYearLastTwo {
    /// Filled with zeros.
    pub const fn default() -> Self
        ensures { result ≡ record { padding = Padding.Zero } }
    {
        CalendarYearLastTwo {
            padding: Padding::Zero,
        }
    }

    /// Sets how the number is filled on the left.
    pub const fn with_padding(self, padding: Padding) -> Self
        ensures { result ≡ record self { padding = padding } }
    {
        CalendarYearLastTwo { padding }
    }
}
