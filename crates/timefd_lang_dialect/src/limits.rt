//! For which moments a text writes the same as a format.

ghost use Rattle.std.specs.Prelude.{◌≡◌};
ghost use Rattle.timefd_lang_dialect.specs.Limits as spec;

use crate::row::Range;

/// For which moments a text of version 3 writes the same as a format: those up to the year 9999
/// whose year, and the year of whose week, is at least `first_year`.
#[derive(Debug, Clone, Copy, PartialEq, Eq)]
pub struct Limits {
    /// The first year.
    pub first_year: u16,
    /// Whether the offset may have no seconds.
    pub whole_minutes: bool,
}

impl Limits {
    /// No limits within the years 0 to 9999.
    pub const ALL: Self = Limits {
        first_year: 0,
        whole_minutes: false,
    };

    /// These limits, and a range's too.
    pub fn narrowed(self, range: Range) -> Self
        ensures { result ≡ spec.narrowed range self }
    {
        match range {
            Range::Years0To9999 => self,
            Range::YearsFrom1 => self.from_year(1),
            Range::YearsFrom100 => self.from_year(100),
            Range::YearsFrom1000 => self.from_year(1000),
            Range::From1970 => self.from_year(1970),
            Range::WholeMinutes => Limits {
                first_year: self.first_year,
                whole_minutes: true,
            },
        }
    }

    fn from_year(self, year: u16) -> Self
        ensures { result ≡ spec.from_year year self }
    {
        Limits {
            first_year: year.max(self.first_year),
            whole_minutes: self.whole_minutes,
        }
    }
}
