//! Components that are appended at once.

ghost use Rattle.std.specs.Prelude.{◌≡◌, ◌+◌, ◌≤◌, IfSome, None, length, true};
ghost use Rattle.timefd_c.specs.Fast.{IsLeafAppended};
ghost use Rattle.timefd_c.specs.Moments.{IsMoment, has_date, range_fault};

use crate::fast::flag::{case_of, digits_of, known, set_of, unset_of, zeros_of};
use crate::fast::shown::{append_hours, append_shown, append_year};
use crate::moment::MomentFields;
use timefd_c_nodes::RawNode;
use timefd_date_moment::Moment;
use timefd_lang_component::Component;
use timefd_modifier::{
    CalendarYearFullExtendedRange, CalendarYearFullStandardRange, Day, Hour24, Minute, MonthLong,
    MonthNumerical, MonthShort, OffsetHour, OffsetMinute, Second, Subsecond, WeekdayLong,
    WeekdayShort,
};

/// Appends what the component of a node shows of the moment with these numbers, and returns how many bytes it takes.
// The moment is only spoken of: an arm reads the few numbers that it shows. Each arm has its own component, so that
// none is looked up again.
#[inline(always)]
pub(crate) fn append_component(
    moment: &Moment,
    fields: &MomentFields,
    node: &RawNode,
    literals: &[u8],
    room: &mut [u8],
    at: usize,
) -> Option<usize>
    requires date { has_date fields.now ≡ true }
    requires range { range_fault fields.now ≡ None }
    requires moment { IsMoment fields.now moment.now }
    requires there { at + 32 ≤ length room.old }
    ensures { IfSome result (IsLeafAppended moment.now literals.now node.now room.old at room.new) }
{
    match node.component {
        1 => {
            let component = Component::Day(Day {
                padding: zeros_of(node)?,
            });
            append_shown(moment, fields, node, &component, literals, room, at)
        }
        2 => {
            let component = Component::MonthShort(MonthShort {
                case_sensitive: case_of(node)?,
            });
            append_shown(moment, fields, node, &component, literals, room, at)
        }
        3 => {
            let component = Component::MonthLong(MonthLong {
                case_sensitive: case_of(node)?,
            });
            append_shown(moment, fields, node, &component, literals, room, at)
        }
        4 => {
            let component = Component::MonthNumerical(MonthNumerical {
                padding: zeros_of(node)?,
            });
            append_shown(moment, fields, node, &component, literals, room, at)
        }
        6 => {
            let component = Component::WeekdayShort(WeekdayShort {
                case_sensitive: case_of(node)?,
            });
            append_shown(moment, fields, node, &component, literals, room, at)
        }
        7 => {
            let component = Component::WeekdayLong(WeekdayLong {
                case_sensitive: case_of(node)?,
            });
            append_shown(moment, fields, node, &component, literals, room, at)
        }
        13 => {
            let component = Component::CalendarYearFullExtendedRange(
                CalendarYearFullExtendedRange {
                    padding: zeros_of(node)?,
                    sign_is_mandatory: unset_of(node)?,
                },
            );
            append_year(moment, fields, node, &component, literals, room, at)
        }
        14 => {
            let component = Component::CalendarYearFullStandardRange(
                CalendarYearFullStandardRange {
                    padding: zeros_of(node)?,
                    sign_is_mandatory: unset_of(node)?,
                },
            );
            append_year(moment, fields, node, &component, literals, room, at)
        }
        24 => {
            let component = Component::Hour24(Hour24 {
                padding: zeros_of(node)?,
            });
            known(fields.has_time())?;
            append_shown(moment, fields, node, &component, literals, room, at)
        }
        25 => {
            let component = Component::Minute(Minute {
                padding: zeros_of(node)?,
            });
            known(fields.has_time())?;
            append_shown(moment, fields, node, &component, literals, room, at)
        }
        27 => {
            let component = Component::Second(Second {
                padding: zeros_of(node)?,
            });
            known(fields.has_time())?;
            append_shown(moment, fields, node, &component, literals, room, at)
        }
        28 => {
            let component = Component::Subsecond(Subsecond {
                digits: digits_of(node)?,
            });
            known(fields.has_time())?;
            append_shown(moment, fields, node, &component, literals, room, at)
        }
        29 => {
            let component = Component::OffsetHour(OffsetHour {
                padding: zeros_of(node)?,
                sign_is_mandatory: set_of(node)?,
            });
            known(fields.has_offset())?;
            append_hours(moment, fields, node, &component, literals, room, at)
        }
        30 => {
            let component = Component::OffsetMinute(OffsetMinute {
                padding: zeros_of(node)?,
            });
            known(fields.has_offset())?;
            append_shown(moment, fields, node, &component, literals, room, at)
        }
        _ => None,
    }
}
