//! A date, as these callers hold one.

ghost use Rattle.std.specs.Prelude.{◌≡◌, ◌≤◌, IfSome, IsSome};

/// A day of a month of the years 0 to 9999. How many days the month has isn't checked.
#[derive(Clone, Copy)]
pub struct Date {
    pub year: u16,
    pub month: u8,
    pub day: u8,
    ghost year_fits: { year ≤ 9999 },
    ghost month_is_one: { (1 ≤ month) × (month ≤ 12) },
    ghost day_is_one: { (1 ≤ day) × (day ≤ 31) },
}

impl Date {
    /// The date of these numbers, or `None` if one of them is out of range.
    pub fn new(year: u16, month: u8, day: u8) -> Option<Date>
        ensures date { IfSome result (λ date. (date.year ≡ year) × (date.month ≡ month)
            × (date.day ≡ day)) }
        ensures any { year ≤ 9999 → 1 ≤ month → month ≤ 12 → 1 ≤ day → day ≤ 31 → IsSome result }
    {
        if year <= 9999 && 1 <= month && month <= 12 && 1 <= day && day <= 31 {
            Some(Date { year, month, day })
        } else {
            None
        }
    }
}
