//! The lists of items that the composite letters of strftime stand for.

ghost use Rattle.timefd_modifier.specs.declared.enums.Padding.{Padding};
ghost use Rattle.std.specs.Prelude.{◌≡◌, IsTrue};
ghost use Rattle.timefd_lang_node_list.specs.Item.Meaning.{item_tree};
ghost use Rattle.timefd_language.specs.Letters as spec;
ghost use Rattle.timefd_language.specs.Directives.LetterMeaning.{composite_list, field_tree};
ghost use Rattle.timefd_language.specs.Strings.{AreItems, are_items_once, is_of_strings};

use crate::strftime::item::{component_item, literal_item};
use crate::strftime::letter::{Composite, Field, calendar_year, padded};
use timefd_lang_component::Component;
use timefd_lang_node_list::item::BorrowedFormatItem;
use timefd_modifier::{MonthShort, OffsetHour, OffsetMinute, Padding, Period, WeekdayShort};

/// The lists that the composite letters of strftime stand for. The items of a text borrow them.
#[derive(Drop)]
pub struct StrftimeTables<'a> {
    date_and_time: [BorrowedFormatItem<'a>; 13],
    short_date: [BorrowedFormatItem<'a>; 5],
    iso_date: [BorrowedFormatItem<'a>; 5],
    time_of_12: [BorrowedFormatItem<'a>; 7],
    hour_and_minute: [BorrowedFormatItem<'a>; 3],
    time_of_24: [BorrowedFormatItem<'a>; 5],
    offset: [BorrowedFormatItem<'a>; 2],
    ghost dates_and_times: { AreItems date_and_time spec.date_and_time } by { are_items_once _ _ },
    ghost short_dates: { AreItems short_date spec.short_date } by { are_items_once _ _ },
    ghost iso_dates: { AreItems iso_date spec.iso_date } by { are_items_once _ _ },
    ghost times_of_12: { AreItems time_of_12 spec.time_of_12 } by { are_items_once _ _ },
    ghost hours_and_minutes: { AreItems hour_and_minute spec.hour_and_minute } by { are_items_once _ _ },
    ghost times_of_24: { AreItems time_of_24 spec.time_of_24 } by { are_items_once _ _ },
    ghost offsets: { AreItems offset spec.offset } by { are_items_once _ _ },
}

impl<'a> StrftimeTables<'a> {
    ghost use Rattle.timefd_language.specs.Directives.BorrowedLists.{HoldsLists};

    /// The lists. They take no memory.
    #[inline(never)]
    pub fn new() -> Self
        ensures { HoldsLists result }
    {
        StrftimeTables {
            date_and_time: date_and_time(),
            short_date: short_date(),
            iso_date: iso_date(),
            time_of_12: time_of_12(),
            hour_and_minute: hour_and_minute(),
            time_of_24: time_of_24(),
            offset: offset(),
        }
    }

    /// The list of a composite letter.
    pub fn list(&self, composite: Composite) -> &[BorrowedFormatItem<'a>]
        ensures { AreItems result.now (composite_list composite) }
    {
        match composite {
            Composite::DateAndTime => &self.date_and_time,
            Composite::ShortDate => &self.short_date,
            Composite::IsoDate => &self.iso_date,
            Composite::TimeOf12 => &self.time_of_12,
            Composite::HourAndMinute => &self.hour_and_minute,
            Composite::TimeOf24 => &self.time_of_24,
            Composite::Offset => &self.offset,
        }
    }
}

fn zero_padded<'a>(field: Field) -> BorrowedFormatItem<'a>
    ensures tree { item_tree result ≡ field_tree field Padding.Zero }
    ensures strings { IsTrue (is_of_strings result) }
{
    component_item(padded(field, Padding::Zero))
}

fn date_and_time<'a>() -> [BorrowedFormatItem<'a>; 13]
    ensures { AreItems result spec.date_and_time }
{
    [
        component_item(Component::WeekdayShort(WeekdayShort::default())),
        literal_item(" "),
        component_item(Component::MonthShort(MonthShort::default())),
        literal_item(" "),
        component_item(padded(Field::Day, Padding::Space)),
        literal_item(" "),
        zero_padded(Field::Hour24),
        literal_item(":"),
        zero_padded(Field::Minute),
        literal_item(":"),
        zero_padded(Field::Second),
        literal_item(" "),
        component_item(calendar_year()),
    ]
}

fn short_date<'a>() -> [BorrowedFormatItem<'a>; 5]
    ensures { AreItems result spec.short_date }
{
    [
        zero_padded(Field::Month),
        literal_item("/"),
        zero_padded(Field::Day),
        literal_item("/"),
        zero_padded(Field::YearLastTwo),
    ]
}

fn iso_date<'a>() -> [BorrowedFormatItem<'a>; 5]
    ensures { AreItems result spec.iso_date }
{
    [
        component_item(calendar_year()),
        literal_item("-"),
        zero_padded(Field::Month),
        literal_item("-"),
        zero_padded(Field::Day),
    ]
}

fn time_of_12<'a>() -> [BorrowedFormatItem<'a>; 7]
    ensures { AreItems result spec.time_of_12 }
{
    [
        zero_padded(Field::Hour12),
        literal_item(":"),
        zero_padded(Field::Minute),
        literal_item(":"),
        zero_padded(Field::Second),
        literal_item(" "),
        component_item(Component::Period(Period::default())),
    ]
}

fn hour_and_minute<'a>() -> [BorrowedFormatItem<'a>; 3]
    ensures { AreItems result spec.hour_and_minute }
{
    [
        zero_padded(Field::Hour24),
        literal_item(":"),
        zero_padded(Field::Minute),
    ]
}

fn time_of_24<'a>() -> [BorrowedFormatItem<'a>; 5]
    ensures { AreItems result spec.time_of_24 }
{
    [
        zero_padded(Field::Hour24),
        literal_item(":"),
        zero_padded(Field::Minute),
        literal_item(":"),
        zero_padded(Field::Second),
    ]
}

fn offset<'a>() -> [BorrowedFormatItem<'a>; 2]
    ensures { AreItems result spec.offset }
{
    [
        component_item(Component::OffsetHour(OffsetHour::default().with_sign_is_mandatory(true))),
        component_item(Component::OffsetMinute(OffsetMinute::default())),
    ]
}
