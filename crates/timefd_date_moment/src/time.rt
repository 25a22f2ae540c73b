//! Times of day.

ghost use Rattle.std.specs.Prelude.{◌≡◌, ◌≤◌, None, Some, IfErr, IfOk};
ghost use Rattle.timefd_date_moment.specs.Faults.{time_fault};

use crate::component_range::ComponentRange;

/// A time of day, as a clock shows it.
#[derive(Debug, Clone, Copy, PartialEq, Eq)]
pub struct Time {
    pub hour: u8,
    pub minute: u8,
    pub second: u8,
    pub nanosecond: u32,
    pub ghost hours: { hour ≤ 23 },
    pub ghost minutes: { minute ≤ 59 },
    pub ghost seconds: { second ≤ 59 },
    pub ghost nanoseconds: { nanosecond ≤ 999999999 },
}

impl Time {
    ghost use Rattle.timefd_date_moment.specs.Moments as spec;

    /// The time of these numbers. An `Err` names the first one that is out of range.
    pub fn from_hms_nano(
        hour: u8,
        minute: u8,
        second: u8,
        nanosecond: u32,
    ) -> Result<Time, ComponentRange>
        ensures found { IfOk result (λ t. (t.hour ≡ hour) × (t.minute ≡ minute)
            × (t.second ≡ second) × (t.nanosecond ≡ nanosecond)) }
        ensures in_range { IfOk result (λ t. time_fault hour minute second nanosecond ≡ None) }
        ensures fault { IfErr result (λ e. time_fault hour minute second nanosecond ≡ Some e) }
    {
        if hour > 23 {
            return Err(ComponentRange::Hour);
        }
        if minute > 59 {
            return Err(ComponentRange::Minute);
        }
        if second > 59 {
            return Err(ComponentRange::Second);
        }
        if nanosecond > 999_999_999 {
            return Err(ComponentRange::Nanosecond);
        }
        Ok(Time {
            hour,
            minute,
            second,
            nanosecond,
        })
    }

    /// The hour on a twelve-hour clock, from 1 to 12.
    pub fn hour_of_twelve(self) -> u8
        ensures { result ≡ spec.hour_of_twelve self.hour }
    {
        (self.hour + 11) % 12 + 1
    }

    /// The time this many seconds after midnight.
    pub(crate) fn of_second(seconds: u32, nanosecond: u32) -> Time
        requires day { seconds ≤ 86399 }
        requires second { nanosecond ≤ 999999999 }
        ensures seconds { spec.day_second result ≡ seconds }
        ensures nanosecond { result.nanosecond ≡ nanosecond }
    {
        Time {
            hour: (seconds / 3_600) as u8,
            minute: (seconds / 60 % 60) as u8,
            second: (seconds % 60) as u8,
            nanosecond,
        }
    }
}
