//! Why a part of a format has no text of version 3. `tables/write` writes them.

ghost use Rattle.std.specs.Prelude.{◌≡◌};
ghost use Rattle.timefd_lang_dialect.specs.Reasons as spec;

/// Why a part of a format has no text of version 3.
#[derive(Clone, Copy)]
pub enum Reason {
    /// A `\` takes the meaning of the next token away.
    Backslash,
    /// It writes a name in capitals, or changes their case.
    Capitals,
    /// Ruby's `DateTime` alone has it.
    DatetimeOnly,
    /// It writes a period of the day, like `in the morning`.
    DayPeriod,
    /// It writes an era, and version 3 has none.
    Era,
    /// This directive takes no such flag, and none with a width.
    Flag,
    /// It writes a fraction of a second of more than nine digits.
    FractionWidth,
    /// It writes an offset as `GMT+1`.
    GmtOffset,
    /// It counts hours from 0 to 11 or from 1 to 24.
    HourFrom0Or24,
    /// It counts days from a day long ago.
    JulianDay,
    /// It depends on the time zone of the process.
    LocalTime,
    /// It counts weeks or weekdays as a locale does, or writes the year of such weeks.
    LocalWeek,
    /// What it writes depends on the locale.
    Locale,
    /// It writes the first letter of a name.
    NarrowName,
    /// A part in `[` and `]` is optional.
    OptionalPart,
    /// It writes a number like `1st`.
    OrdinalSuffix,
    /// It pads the next letter to a width.
    PadLetter,
    /// Platforms differ in what it writes.
    Platform,
    /// It writes a quarter, and version 3 has none.
    Quarter,
    /// It can be read, and not be written.
    ReadingOnly,
    /// The character is reserved.
    Reserved,
    /// No pattern repeats this letter so often.
    TooManyLetters,
    /// It reads two digits of a year, which leave the century open.
    TwoDigitYear,
    /// It writes a weekday in two letters.
    TwoLetterName,
    /// No quote closes this one.
    UnclosedQuote,
    /// It counts milliseconds or nanoseconds from midnight on.
    UnitOfDay,
    /// The dialect has no such directive.
    UnknownDirective,
    /// The letter has no meaning and isn't quoted.
    UnknownLetter,
    /// Libraries differ in what it means, or lack it.
    Unsupported,
    /// It writes as many digits of a fraction as it has, or none.
    VariableFraction,
    /// It writes as much of an offset as there is.
    VariableOffset,
    /// Its width depends on the value.
    VariableWidth,
    /// It counts weeks or weekdays within the month.
    WeekOfMonth,
    /// No component of version 3 has this width.
    Width,
    /// It writes `Z` for an offset of zero.
    ZForUtc,
    /// It writes the name of a time zone.
    ZoneName,
}

impl Reason {
    /// The name of the reason, such as `zone-name`.
    pub fn name(self) -> &'static str
        ensures { result.now ≡ spec.name self }
    {
        match self {
            Reason::Backslash => "backslash",
            Reason::Capitals => "capitals",
            Reason::DatetimeOnly => "datetime-only",
            Reason::DayPeriod => "day-period",
            Reason::Era => "era",
            Reason::Flag => "flag",
            Reason::FractionWidth => "fraction-width",
            Reason::GmtOffset => "gmt-offset",
            Reason::HourFrom0Or24 => "hour-from-0-or-24",
            Reason::JulianDay => "julian-day",
            Reason::LocalTime => "local-time",
            Reason::LocalWeek => "local-week",
            Reason::Locale => "locale",
            Reason::NarrowName => "narrow-name",
            Reason::OptionalPart => "optional-part",
            Reason::OrdinalSuffix => "ordinal-suffix",
            Reason::PadLetter => "pad-letter",
            Reason::Platform => "platform",
            Reason::Quarter => "quarter",
            Reason::ReadingOnly => "reading-only",
            Reason::Reserved => "reserved",
            Reason::TooManyLetters => "too-many-letters",
            Reason::TwoDigitYear => "two-digit-year",
            Reason::TwoLetterName => "two-letter-name",
            Reason::UnclosedQuote => "unclosed-quote",
            Reason::UnitOfDay => "unit-of-day",
            Reason::UnknownDirective => "unknown-directive",
            Reason::UnknownLetter => "unknown-letter",
            Reason::Unsupported => "unsupported",
            Reason::VariableFraction => "variable-fraction",
            Reason::VariableOffset => "variable-offset",
            Reason::VariableWidth => "variable-width",
            Reason::WeekOfMonth => "week-of-month",
            Reason::Width => "width",
            Reason::ZForUtc => "z-for-utc",
            Reason::ZoneName => "zone-name",
        }
    }

    /// Why a part has no text of version 3, as a sentence without a capital and a full stop.
    pub fn sentence(self) -> &'static str
        ensures { result.now ≡ spec.sentence self }
    {
        match self {
            Reason::Backslash => "a `\\` takes the meaning of the next token away",
            Reason::Capitals => "it writes a name in capitals, or changes their case",
            Reason::DatetimeOnly => "Ruby's `DateTime` alone has it",
            Reason::DayPeriod => "it writes a period of the day, like `in the morning`",
            Reason::Era => "it writes an era, and version 3 has none",
            Reason::Flag => "this directive takes no such flag, and none with a width",
            Reason::FractionWidth => "it writes a fraction of a second of more than nine digits",
            Reason::GmtOffset => "it writes an offset as `GMT+1`",
            Reason::HourFrom0Or24 => "it counts hours from 0 to 11 or from 1 to 24",
            Reason::JulianDay => "it counts days from a day long ago",
            Reason::LocalTime => "it depends on the time zone of the process",
            Reason::LocalWeek =>
                "it counts weeks or weekdays as a locale does, or writes the year of such weeks",
            Reason::Locale => "what it writes depends on the locale",
            Reason::NarrowName => "it writes the first letter of a name",
            Reason::OptionalPart => "a part in `[` and `]` is optional",
            Reason::OrdinalSuffix => "it writes a number like `1st`",
            Reason::PadLetter => "it pads the next letter to a width",
            Reason::Platform => "platforms differ in what it writes",
            Reason::Quarter => "it writes a quarter, and version 3 has none",
            Reason::ReadingOnly => "it can be read, and not be written",
            Reason::Reserved => "the character is reserved",
            Reason::TooManyLetters => "no pattern repeats this letter so often",
            Reason::TwoDigitYear => "it reads two digits of a year, which leave the century open",
            Reason::TwoLetterName => "it writes a weekday in two letters",
            Reason::UnclosedQuote => "no quote closes this one",
            Reason::UnitOfDay => "it counts milliseconds or nanoseconds from midnight on",
            Reason::UnknownDirective => "the dialect has no such directive",
            Reason::UnknownLetter => "the letter has no meaning and isn't quoted",
            Reason::Unsupported => "libraries differ in what it means, or lack it",
            Reason::VariableFraction => "it writes as many digits of a fraction as it has, or none",
            Reason::VariableOffset => "it writes as much of an offset as there is",
            Reason::VariableWidth => "its width depends on the value",
            Reason::WeekOfMonth => "it counts weeks or weekdays within the month",
            Reason::Width => "no component of version 3 has this width",
            Reason::ZForUtc => "it writes `Z` for an offset of zero",
            Reason::ZoneName => "it writes the name of a time zone",
        }
    }

    /// What to do about it, in a sentence.
    pub fn cure(self) -> &'static str
        ensures { result.now ≡ spec.cure self }
    {
        match self {
            Reason::Backslash => "Write the text between `[` and `]`.",
            Reason::Capitals => "Write the name without the flag, and change its case afterwards.",
            Reason::DatetimeOnly => "Write a directive that `Time` has too.",
            Reason::DayPeriod => "Write `a`, for AM and PM.",
            Reason::Era => "Write the year alone, or the era as a literal.",
            Reason::Flag => "Leave the flag and the width out, or choose another directive.",
            Reason::FractionWidth => "Write at most nine digits.",
            Reason::GmtOffset => "Write the offset in digits.",
            Reason::HourFrom0Or24 => "Write the hour of 24 from 0 on, or of 12 from 1 on.",
            Reason::JulianDay => "Count the days in a program.",
            Reason::LocalTime => "Write a directive that depends on the moment alone.",
            Reason::LocalWeek => "Write the week of ISO 8601, or the year of the calendar.",
            Reason::Locale => "Write each part by a directive of its own.",
            Reason::NarrowName => "Write the short name.",
            Reason::OptionalPart =>
                "Convert the part alone, and put its text into `[optional [..]]`.",
            Reason::OrdinalSuffix => "Write the number alone.",
            Reason::PadLetter => "Write the next letter as often as it has digits.",
            Reason::Platform => "Write a directive that all platforms have.",
            Reason::Quarter => "Write the month, or count the quarter in a program.",
            Reason::ReadingOnly => "Write a directive for writing.",
            Reason::Reserved => "Quote it if it is meant as text, or leave it out.",
            Reason::TooManyLetters => "Write fewer of them.",
            Reason::TwoDigitYear => "Read by a format with all digits of the year.",
            Reason::TwoLetterName => "Write the short name, of three letters.",
            Reason::UnclosedQuote => "Close it; write a literal quote twice.",
            Reason::UnitOfDay => "Write hour, minute, second and fraction.",
            Reason::UnknownDirective => "Write one that it has; write a literal `%` twice.",
            Reason::UnknownLetter => "Quote it if it is meant as text.",
            Reason::Unsupported => "Write a directive that has one meaning.",
            Reason::VariableFraction => "Write a fixed number of digits.",
            Reason::VariableOffset => "Write the offset with its minutes.",
            Reason::VariableWidth => "Write the value with a fixed width.",
            Reason::WeekOfMonth => "Write the day of the month.",
            Reason::Width =>
                "Leave the width out, and write what it fills as a literal, like `0[day]` for `%3d`.",
            Reason::ZForUtc =>
                "Write the offset in digits, or `Z` as a literal where each moment is one of UTC.",
            Reason::ZoneName => "Write the offset, or the name as a literal.",
        }
    }

    /// Whether the dialect has no such directive, or no such flag of it.
    pub fn is_unknown(self) -> bool
        ensures { result ≡ spec.is_unknown self }
    {
        match self {
            Reason::Flag | Reason::UnknownDirective => true,
            Reason::Backslash
            | Reason::Capitals
            | Reason::DatetimeOnly
            | Reason::DayPeriod
            | Reason::Era
            | Reason::FractionWidth
            | Reason::GmtOffset
            | Reason::HourFrom0Or24
            | Reason::JulianDay
            | Reason::LocalTime
            | Reason::LocalWeek
            | Reason::Locale
            | Reason::NarrowName
            | Reason::OptionalPart
            | Reason::OrdinalSuffix
            | Reason::PadLetter
            | Reason::Platform
            | Reason::Quarter
            | Reason::ReadingOnly
            | Reason::Reserved
            | Reason::TooManyLetters
            | Reason::TwoDigitYear
            | Reason::TwoLetterName
            | Reason::UnclosedQuote
            | Reason::UnitOfDay
            | Reason::UnknownLetter
            | Reason::Unsupported
            | Reason::VariableFraction
            | Reason::VariableOffset
            | Reason::VariableWidth
            | Reason::WeekOfMonth
            | Reason::Width
            | Reason::ZForUtc
            | Reason::ZoneName => false,
        }
    }
}
