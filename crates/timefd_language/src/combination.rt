//! The modifiers that version 3 refuses because the component has no use for them.

ghost use Rattle.std.specs.Prelude.{◌≡◌, map};
ghost use Rattle.timefd_language.specs.Combinations as spec;
ghost use Rattle.timefd_language.specs.Lookup.{refusal_for};

use timefd_lang_component::Component;
use timefd_lang_fault::{Key, Refuser};

/// A key that is refused, and what refuses it.
#[derive(Clone, Copy)]
pub struct Refusal {
    pub key: Key,
    pub refuser: Refuser,
}

static OF_LAST_TWO: [Refusal; 2] = [
    Refusal {
        key: Key::Range,
        refuser: Refuser::LastTwo,
    },
    Refusal {
        key: Key::Sign,
        refuser: Refuser::LastTwo,
    },
];

/// The keys that are refused with a component, in the order in which they are checked.
pub fn refusals(component: Component) -> &'static [Refusal]
    ensures { map refusal_for result.now ≡ spec.refusals component }
{
    match component {
        Component::MonthNumerical(_) => &[Refusal {
            key: Key::CaseSensitive,
            refuser: Refuser::NumericalMonth,
        }],
        Component::MonthLong(_) => &[Refusal {
            key: Key::Padding,
            refuser: Refuser::LongMonth,
        }],
        Component::MonthShort(_) => &[Refusal {
            key: Key::Padding,
            refuser: Refuser::ShortMonth,
        }],
        Component::WeekdayShort(_) => &[Refusal {
            key: Key::OneIndexed,
            refuser: Refuser::ShortWeekday,
        }],
        Component::WeekdayLong(_) => &[Refusal {
            key: Key::OneIndexed,
            refuser: Refuser::LongWeekday,
        }],
        Component::WeekdaySunday(_) | Component::WeekdayMonday(_) => &[Refusal {
            key: Key::CaseSensitive,
            refuser: Refuser::NumericalWeekday,
        }],
        Component::CalendarYearLastTwo(_) | Component::IsoYearLastTwo(_) => &OF_LAST_TWO,
        _ => &[],
    }
}
