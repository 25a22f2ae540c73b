//! What a tree is, whether its parts are borrowed or owned.

ghost use Rattle.std.specs.Prelude.{◌≡◌, IfSome, IsTrue};
ghost use Rattle.std.specs.Option.{is_none};
ghost use Rattle.timefd_items.specs.Content.{content_tree, IsOwned};
ghost use Rattle.timefd_items.specs.Meaning.{inner_tree, owned_parts, owns};

use super::inner::FormatDescriptionV3Inner;
use timefd_lang_component::Component;

/// What a tree is, with its parts borrowed: a borrowed and an owned part with the same content are
/// one case.
#[derive(Clone, Copy)]
pub(super) enum Content<'t, 'a> {
    /// A component.
    Component(Component),
    /// Text as it is written.
    Literal(&'t str),
    /// Descriptions one after another.
    Compound(&'t [FormatDescriptionV3Inner<'a>]),
    /// A description that a parser may skip.
    Optional {
        /// Whether a formatter writes it.
        format: bool,
        /// What may be skipped.
        item: &'t FormatDescriptionV3Inner<'a>,
    },
    /// Alternatives: a parser takes the first that fits, a formatter writes the first.
    First(&'t [FormatDescriptionV3Inner<'a>]),
}

impl<'a> FormatDescriptionV3Inner<'a> {
    /// What this tree is.
    pub(super) fn content(&self) -> Content<'_, 'a>
        ensures { content_tree result ≡ inner_tree self.now }
    {
        if let Some(content) = self.borrowed_content() {
            return content;
        }
        self.owned_content()
    }

    /// What this tree is, if it is an owned part.
    pub(super) fn owned_content(&self) -> Content<'_, 'a>
        requires { IsTrue (owns self.now) }
        ensures same { content_tree result ≡ inner_tree self.now }
        ensures owned { IsOwned result (owned_parts self.now) }
    {
        match self {
            FormatDescriptionV3Inner::OwnedLiteral(text) => Content::Literal(text.as_str()),
            FormatDescriptionV3Inner::OwnedCompound(items) => Content::Compound(items),
            FormatDescriptionV3Inner::OwnedOptional { format, item } => Content::Optional {
                format: *format,
                item,
            },
            FormatDescriptionV3Inner::OwnedFirst(items) => Content::First(items),
            _ => unreachable!(),
        }
    }

    /// What this tree is, if it isn't an owned part, borrowed for as long as the tree itself
    /// borrows it.
    pub(super) fn borrowed_content(&self) -> Option<Content<'a, 'a>>
        ensures same { IfSome result (λ content. content_tree content ≡ inner_tree self.now) }
        ensures owns { is_none result ≡ owns self.now }
        ensures none_owned { IfSome result (λ content. owned_parts self.now ≡ 0) }
    {
        match self {
            FormatDescriptionV3Inner::Day(fields) => Some(Content::Component(Component::Day(
                *fields,
            ))),
            FormatDescriptionV3Inner::MonthShort(fields) => Some(Content::Component(
                Component::MonthShort(*fields),
            )),
            FormatDescriptionV3Inner::MonthLong(fields) => Some(Content::Component(
                Component::MonthLong(*fields),
            )),
            FormatDescriptionV3Inner::MonthNumerical(fields) => Some(Content::Component(
                Component::MonthNumerical(*fields),
            )),
            FormatDescriptionV3Inner::Ordinal(fields) => Some(Content::Component(Component::Ordinal(
                *fields,
            ))),
            FormatDescriptionV3Inner::WeekdayShort(fields) => Some(Content::Component(
                Component::WeekdayShort(*fields),
            )),
            FormatDescriptionV3Inner::WeekdayLong(fields) => Some(Content::Component(
                Component::WeekdayLong(*fields),
            )),
            FormatDescriptionV3Inner::WeekdaySunday(fields) => Some(Content::Component(
                Component::WeekdaySunday(*fields),
            )),
            FormatDescriptionV3Inner::WeekdayMonday(fields) => Some(Content::Component(
                Component::WeekdayMonday(*fields),
            )),
            FormatDescriptionV3Inner::WeekNumberIso(fields) => Some(Content::Component(
                Component::WeekNumberIso(*fields),
            )),
            FormatDescriptionV3Inner::WeekNumberSunday(fields) => Some(Content::Component(
                Component::WeekNumberSunday(*fields),
            )),
            FormatDescriptionV3Inner::WeekNumberMonday(fields) => Some(Content::Component(
                Component::WeekNumberMonday(*fields),
            )),
            FormatDescriptionV3Inner::CalendarYearFullExtendedRange(fields) => Some(
                Content::Component(Component::CalendarYearFullExtendedRange(*fields)),
            ),
            FormatDescriptionV3Inner::CalendarYearFullStandardRange(fields) => Some(
                Content::Component(Component::CalendarYearFullStandardRange(*fields)),
            ),
            FormatDescriptionV3Inner::CalendarYearCenturyExtendedRange(fields) => Some(
                Content::Component(Component::CalendarYearCenturyExtendedRange(*fields)),
            ),
            FormatDescriptionV3Inner::CalendarYearCenturyStandardRange(fields) => Some(
                Content::Component(Component::CalendarYearCenturyStandardRange(*fields)),
            ),
            FormatDescriptionV3Inner::IsoYearFullExtendedRange(fields) => Some(Content::Component(
                Component::IsoYearFullExtendedRange(*fields),
            )),
            FormatDescriptionV3Inner::IsoYearFullStandardRange(fields) => Some(Content::Component(
                Component::IsoYearFullStandardRange(*fields),
            )),
            FormatDescriptionV3Inner::IsoYearCenturyExtendedRange(fields) => Some(
                Content::Component(Component::IsoYearCenturyExtendedRange(*fields)),
            ),
            FormatDescriptionV3Inner::IsoYearCenturyStandardRange(fields) => Some(
                Content::Component(Component::IsoYearCenturyStandardRange(*fields)),
            ),
            FormatDescriptionV3Inner::CalendarYearLastTwo(fields) => Some(Content::Component(
                Component::CalendarYearLastTwo(*fields),
            )),
            FormatDescriptionV3Inner::IsoYearLastTwo(fields) => Some(Content::Component(
                Component::IsoYearLastTwo(*fields),
            )),
            FormatDescriptionV3Inner::Hour12(fields) => Some(Content::Component(Component::Hour12(
                *fields,
            ))),
            FormatDescriptionV3Inner::Hour24(fields) => Some(Content::Component(Component::Hour24(
                *fields,
            ))),
            FormatDescriptionV3Inner::Minute(fields) => Some(Content::Component(Component::Minute(
                *fields,
            ))),
            FormatDescriptionV3Inner::Period(fields) => Some(Content::Component(Component::Period(
                *fields,
            ))),
            FormatDescriptionV3Inner::Second(fields) => Some(Content::Component(Component::Second(
                *fields,
            ))),
            FormatDescriptionV3Inner::Subsecond(fields) => Some(Content::Component(
                Component::Subsecond(*fields),
            )),
            FormatDescriptionV3Inner::OffsetHour(fields) => Some(Content::Component(
                Component::OffsetHour(*fields),
            )),
            FormatDescriptionV3Inner::OffsetMinute(fields) => Some(Content::Component(
                Component::OffsetMinute(*fields),
            )),
            FormatDescriptionV3Inner::OffsetSecond(fields) => Some(Content::Component(
                Component::OffsetSecond(*fields),
            )),
            FormatDescriptionV3Inner::Ignore(fields) => Some(Content::Component(Component::Ignore(
                *fields,
            ))),
            FormatDescriptionV3Inner::UnixTimestampSecond(fields) => Some(Content::Component(
                Component::UnixTimestampSecond(*fields),
            )),
            FormatDescriptionV3Inner::UnixTimestampMillisecond(fields) => Some(Content::Component(
                Component::UnixTimestampMillisecond(*fields),
            )),
            FormatDescriptionV3Inner::UnixTimestampMicrosecond(fields) => Some(Content::Component(
                Component::UnixTimestampMicrosecond(*fields),
            )),
            FormatDescriptionV3Inner::UnixTimestampNanosecond(fields) => Some(Content::Component(
                Component::UnixTimestampNanosecond(*fields),
            )),
            FormatDescriptionV3Inner::End(fields) => Some(Content::Component(Component::End(
                *fields,
            ))),
            &FormatDescriptionV3Inner::BorrowedLiteral(text) => Some(Content::Literal(text)),
            &FormatDescriptionV3Inner::BorrowedCompound(items) => Some(Content::Compound(items)),
            &FormatDescriptionV3Inner::BorrowedOptional { format, item } => {
                Some(Content::Optional { format, item })
            }
            &FormatDescriptionV3Inner::BorrowedFirst(items) => Some(Content::First(items)),
            FormatDescriptionV3Inner::OwnedLiteral(_)
            | FormatDescriptionV3Inner::OwnedCompound(_)
            | FormatDescriptionV3Inner::OwnedOptional { .. }
            | FormatDescriptionV3Inner::OwnedFirst(_) => None,
        }
    }
}
