//! Offsets from UTC.

ghost use Rattle.std.specs.Prelude.{◌≡◌, ◌≤◌, ◌<◌, ◌↔◌, ◌<ℤ◌, pos, unsigned_abs, IfErr, IfOk, IsFalse, IsTrue};
ghost use Rattle.timefd_date_moment.specs.Signed.{signed};

use crate::component_range::ComponentRange;

/// How far a clock is ahead of UTC or behind it, which is less than 26 hours.
#[derive(Debug, Clone, Copy, PartialEq, Eq)]
pub struct UtcOffset {
    /// Whether the clock is behind UTC.
    pub is_negative: bool,
    /// The number of seconds ahead or behind.
    pub seconds: u32,
    pub ghost within: { seconds ≤ 93599 },
    pub ghost no_negative_zero: { IsTrue is_negative → 1 ≤ seconds },
}

impl UtcOffset {
    /// The offset this many seconds ahead of UTC. Offsets behind UTC are negative. An `Err` says
    /// that the number is 26 hours or more, either way.
    pub fn from_whole_seconds(seconds: i32) -> Result<UtcOffset, ComponentRange>
        ensures found { IfOk result (λ o. signed o.is_negative o.seconds ≡ seconds) }
        ensures in_range { IfOk result (λ o. unsigned_abs seconds ≤ 93599) }
        ensures fault { IfErr result (λ e. (e ≡ ComponentRange.Offset)
            × (93599 < unsigned_abs seconds)) }
    {
        let magnitude = seconds.unsigned_abs();
        if magnitude <= 93_599 {
            Ok(UtcOffset {
                is_negative: seconds < 0,
                seconds: magnitude,
            })
        } else {
            Err(ComponentRange::Offset)
        }
    }

    /// UTC itself.
    pub fn utc() -> UtcOffset
        ensures seconds { result.seconds ≡ 0 }
        ensures sign { IsFalse result.is_negative }
    {
        UtcOffset {
            is_negative: false,
            seconds: 0,
        }
    }

    /// The number of seconds that the clock is ahead of UTC. It is negative if the clock is behind
    /// UTC.
    pub fn whole_seconds(self) -> i32
        ensures { result ≡ signed self.is_negative self.seconds }
    {
        if self.is_negative {
            -(self.seconds as i32)
        } else {
            self.seconds as i32
        }
    }
}
