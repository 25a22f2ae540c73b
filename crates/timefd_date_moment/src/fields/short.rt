//! Years of four digits, months, days, hours, minutes and seconds of two, and names of months: most texts show only
//! these. All other texts are read into fields.

ghost use Rattle.std.specs.Prelude.{◌≡◌, ◌≤◌, IfSome, Ok, Some, drop, false, length, map};
ghost use Rattle.timefd_lang_component.specs.Modern.{modern};
ghost use Rattle.timefd_lang_component.specs.Tree.{compound, trees};
ghost use Rattle.timefd_lang_node_list.specs.LeafMeaning.{leaf_tree};
ghost use Rattle.timefd_date_moment.specs.Fields.Fields.{amount, count};
ghost use Rattle.timefd_date_moment.specs.Fields.Inputs.{input};
ghost use Rattle.timefd_date_moment.specs.Fields.Readings.{amount_with, count_with};
ghost use Rattle.timefd_date_moment.specs.Fields.Reads as spec;
ghost use Rattle.timefd_date_moment.specs.Fields.Reads.{at, fields_of};
ghost use Rattle.timefd_date_moment.specs.Fields.Rules as rules;
ghost use Rattle.timefd_date_moment.specs.Fields.Short as short;
ghost use Rattle.timefd_date_moment.specs.Fields.Short.{TakesNumber, fields_with};

use crate::fields::fields::{Amount, Count, Fields, NO_FIELDS, Signed};
use crate::fields::part::begins;
use crate::fields::rule::{FieldRule, rule_of};
use crate::fields::taken::{
    take_day, take_hour, take_minute, take_month, take_month_name, take_second, take_year,
};
use timefd_lang_component::Component;
use timefd_lang_node_list::Leaf;
use timefd_modifier::Padding;

/// The numbers that were read from a text that shows nothing else.
#[derive(Clone, Copy)]
pub struct Numbers {
    /// The year, from 0 to 9999.
    pub year: Option<u16>,
    pub month: Option<u16>,
    pub day: Option<u16>,
    pub hour: Option<u16>,
    pub minute: Option<u16>,
    pub second: Option<u16>,
}

/// No number was read.
pub const NO_NUMBERS: Numbers = Numbers {
    year: None,
    month: None,
    day: None,
    hour: None,
    minute: None,
    second: None,
};

impl Numbers {
    /// The fields of a text that shows these numbers and nothing else.
    #[inline(always)]
    pub fn fields(self) -> Fields
        ensures { result ≡ fields_with self }
    {
        Fields {
            year: whole_year(self.year),
            month: self.month,
            day: self.day,
            hour: self.hour,
            minute: self.minute,
            second: self.second,
            ..NO_FIELDS
        }
    }

    /// Adds a month. `None` if one was read before.
    #[inline(always)]
    pub(crate) fn with_month(self, month: u16) -> Option<Numbers>
        ensures { IfSome result (λ after. count_with (fields_with self) Count.Month month
            (count (fields_with self) Count.Month) ≡ Some (fields_with after)) }
    {
        match self.month {
            None => Some(Numbers {
                month: Some(month),
                ..self
            }),
            Some(_) => None,
        }
    }

    /// Adds a day. `None` if one was read before.
    #[inline(always)]
    pub(crate) fn with_day(self, day: u16) -> Option<Numbers>
        ensures { IfSome result (λ after. count_with (fields_with self) Count.Day day
            (count (fields_with self) Count.Day) ≡ Some (fields_with after)) }
    {
        match self.day {
            None => Some(Numbers {
                day: Some(day),
                ..self
            }),
            Some(_) => None,
        }
    }

    /// Adds an hour. `None` if one was read before.
    #[inline(always)]
    pub(crate) fn with_hour(self, hour: u16) -> Option<Numbers>
        ensures { IfSome result (λ after. count_with (fields_with self) Count.Hour hour
            (count (fields_with self) Count.Hour) ≡ Some (fields_with after)) }
    {
        match self.hour {
            None => Some(Numbers {
                hour: Some(hour),
                ..self
            }),
            Some(_) => None,
        }
    }

    /// Adds a minute. `None` if one was read before.
    #[inline(always)]
    pub(crate) fn with_minute(self, minute: u16) -> Option<Numbers>
        ensures { IfSome result (λ after. count_with (fields_with self) Count.Minute minute
            (count (fields_with self) Count.Minute) ≡ Some (fields_with after)) }
    {
        match self.minute {
            None => Some(Numbers {
                minute: Some(minute),
                ..self
            }),
            Some(_) => None,
        }
    }

    /// Adds a second. `None` if one was read before.
    #[inline(always)]
    pub(crate) fn with_second(self, second: u16) -> Option<Numbers>
        ensures { IfSome result (λ after. count_with (fields_with self) Count.Second second
            (count (fields_with self) Count.Second) ≡ Some (fields_with after)) }
    {
        match self.second {
            None => Some(Numbers {
                second: Some(second),
                ..self
            }),
            Some(_) => None,
        }
    }

    /// Adds a year. `None` if one was read before.
    #[inline(always)]
    pub(crate) fn with_year(self, year: u16) -> Option<Numbers>
        ensures { IfSome result (λ after. amount_with (fields_with self) Amount.Year
            (record { is_negative = false; magnitude = year }) (amount (fields_with self) Amount.Year)
            ≡ Some (fields_with after)) }
    {
        match self.year {
            None => Some(Numbers {
                year: Some(year),
                ..self
            }),
            Some(_) => None,
        }
    }
}

#[inline(always)]
fn whole_year(year: Option<u16>) -> Option<Signed>
    ensures { result ≡ short.whole_year year }
{
    match year {
        Some(year) => Some(Signed {
            is_negative: false,
            magnitude: year as u128,
        }),
        None => None,
    }
}

/// The numbers that a whole text shows by components and literals, one after another. `None` says nothing
/// about the text.
#[inline(always)]
#[tactic(auto, using(crate::proofs::FieldsLemmas::ShortLemmas::all_read))]
pub fn numbers_shown(leaves: &[Leaf<'_>], text: &[u8]) -> Option<Numbers>
    ensures { IfSome result (λ numbers. fields_of (compound (trees (map leaf_tree leaves.now))) text.now
        ≡ Ok (fields_with numbers)) }
{
    if !leaves.iter().all(is_short) {
        return None;
    }
    let mut left = text;
    let mut numbers = NO_NUMBERS;
    'leaves: for leaf in leaves {
        let (len, after) = take_leaf(leaf, left, numbers)?;
        left = &left[len..];
        numbers = after;
    }
    if left.is_empty() { Some(numbers) } else { None }
}

// Whether the leaf may be read here: so a description with other components is given up at once.
#[inline(always)]
fn is_short(leaf: &Leaf<'_>) -> bool {
    match leaf {
        Leaf::Component(component) => is_taken(*component),
        Leaf::Literal(_) => true,
    }
}

#[inline(always)]
fn is_taken(component: Component) -> bool {
    matches!(
        component,
        Component::CalendarYearFullExtendedRange(_)
            | Component::CalendarYearFullStandardRange(_)
            | Component::MonthNumerical(_)
            | Component::MonthShort(_)
            | Component::MonthLong(_)
            | Component::Day(_)
            | Component::Hour24(_)
            | Component::Minute(_)
            | Component::Second(_)
    )
}

/// How many bytes a component or literal takes at the start, and the numbers with what it reads. `None` says
/// nothing about the text.
#[inline(always)]
#[tactic(auto, using(crate::proofs::FieldsLemmas::ShortLemmas::component_read, crate::proofs::FieldsLemmas::ShortLemmas::component_within))]
pub fn take_leaf(leaf: &Leaf<'_>, text: &[u8], numbers: Numbers) -> Option<(usize, Numbers)>
    ensures within { IfSome result (λ r. r.0 ≤ length text.now) }
    ensures reads { IfSome result (λ r. spec.read (leaf_tree leaf.now) (at text.now (fields_with numbers))
        ≡ Ok (at (drop r.0 text.now) (fields_with r.1))) }
{
    match *leaf {
        Leaf::Component(component) => take_component(component, text, numbers),
        Leaf::Literal(literal) => take_literal(literal.as_bytes(), text, numbers),
    }
}

/// Takes literal text: how many bytes it has, and the same numbers. `None` if the text doesn't begin with it.
#[inline(always)]
pub fn take_literal(literal: &[u8], text: &[u8], numbers: Numbers) -> Option<(usize, Numbers)>
    ensures within { IfSome result (λ r. r.0 ≤ length text.now) }
    ensures reads { IfSome result (λ r. spec.read_literal literal.now (at text.now (fields_with numbers))
        ≡ Ok (at (drop r.0 text.now) (fields_with r.1))) }
{
    if begins(text, literal) {
        Some((literal.len(), numbers))
    } else {
        None
    }
}

/// Takes the number of a component, or the name of a month.
#[inline(always)]
#[tactic(auto, using(crate::proofs::FieldsLemmas::ShortLemmas::number_by, crate::proofs::FieldsLemmas::ShortLemmas::month_by, crate::proofs::FieldsLemmas::ShortLemmas::sign_by))]
fn take_component(component: Component, text: &[u8], numbers: Numbers) -> Option<(usize, Numbers)>
    ensures { TakesNumber (input (rules.rule_of (modern component)) text.now) text.now numbers result }
{
    // An arm for each field, so that no field is looked up again.
    match rule_of(component) {
        FieldRule::Number {
            field: Count::Month,
            padding: Padding::Zero,
            width: 2,
            lowest,
            highest,
        } => take_month(lowest, highest, text, numbers),
        FieldRule::Number {
            field: Count::Day,
            padding: Padding::Zero,
            width: 2,
            lowest,
            highest,
        } => take_day(lowest, highest, text, numbers),
        FieldRule::Number {
            field: Count::Hour,
            padding: Padding::Zero,
            width: 2,
            lowest,
            highest,
        } => take_hour(lowest, highest, text, numbers),
        FieldRule::Number {
            field: Count::Minute,
            padding: Padding::Zero,
            width: 2,
            lowest,
            highest,
        } => take_minute(lowest, highest, text, numbers),
        FieldRule::Number {
            field: Count::Second,
            padding: Padding::Zero,
            width: 2,
            lowest,
            highest,
        } => take_second(lowest, highest, text, numbers),
        FieldRule::Name {
            field: Count::Month,
            names,
            is_case_sensitive,
            first: 1,
        } => take_month_name(names, is_case_sensitive, text, numbers),
        FieldRule::Signed {
            field: Amount::Year,
            is_mandatory: false,
            form,
        } => take_year(form, text, numbers),
        _ => None,
    }
}
