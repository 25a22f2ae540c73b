//! What each warning means, and what to write instead.

ghost use Rattle.std.specs.Prelude.{◌≡◌};
ghost use Rattle.timefd_lang_warnings.specs.Explanations as spec;

use crate::warning::Warning;

impl Warning {
    /// What the warning means, with an example, and what to write instead.
    pub fn explanation(self) -> &'static str
        ensures { result.now ≡ spec.explanation_of self }
    {
        match self {
            Warning::NoComponent => {
                "A description without a component writes the same text of each moment. Perhaps it is of another language: `%Y-%m-%d` is strftime's, and version 3 has `[year]-[month]-[day]`."
            }
            Warning::OtherLanguage => {
                "Text is written as it is, though another language would read a component there: `%H` in version 3 is a percent sign and a letter, and `[year]` in strftime is six letters and signs. Write the component in the language of the description."
            }
            Warning::MonthForMinute => {
                "`[hour]:[month]` writes 9:26 in November as `09:11`. Write `[minute]`, or `%M` in strftime."
            }
            Warning::MinuteForMonth => {
                "`[year]-[minute]` writes 26 minutes past an hour as a month that there is not. Write `[month]`, or `%m` in strftime."
            }
            Warning::HourWithoutPeriod => {
                "`[hour repr:12]:[minute]` writes nine in the morning and nine in the evening as `09:00`. Add `[period]`, or write `[hour]`."
            }
            Warning::PeriodWithHour24 => {
                "`[hour]:[minute] [period]` writes `21:00 PM`. Write `[hour repr:12]`, or leave `[period]` out."
            }
            Warning::SubsecondWithoutSecond => {
                "`[hour]:[minute].[subsecond]` writes 9:26:53.5 as `09:26.5`, which reads as half a minute. Write `[second].[subsecond]`."
            }
            Warning::WeekWithCalendarYear => {
                "`[year]-W[week_number]` writes 31 December 2024, which lies in the first week of 2025, as `2024-W01`. Write `[year base:iso_week]`, or `%G` in strftime."
            }
            Warning::DateWithIsoYear => {
                "`[year base:iso_week]-[month]-[day]` writes 31 December 2024 as `2025-12-31`. Write `[year]`, or `%Y` in strftime."
            }
            Warning::ShownTwice => {
                "`[month]/[month]/[year]` shows the month twice, and no day. A month or a weekday by name and by number counts as two."
            }
            Warning::UndeterminedDate => {
                "`[month]-[day]` writes 5 March of each year as `03-05`, so no reader knows the date. A date is determined by year, month and day; by year and ordinal; by ISO year, ISO week and weekday; and by year, week from Sunday or Monday, and weekday."
            }
            Warning::UnsettledWidth => {
                "`[month padding:none][day padding:none]` writes 11 January and 1 November as `111`. Put text between them, or leave `padding:none` out."
            }
            Warning::UnsettledYear => {
                "`[year range:extended][month]` writes January of the year 10,000 as `+1000001`, and a reader takes six digits as the year. Up to the year 9,999 nothing is lost. Write `range:standard`, or let text stand between."
            }
            Warning::DeprecatedComponent => {
                "The component stands for another, which its modifiers select. No text is read as one: it was made in code. `Component::modern` gives the other."
            }
        }
    }
}
