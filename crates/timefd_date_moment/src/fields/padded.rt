//! Numbers of a date whose components are known: a day, a month and a year, as most descriptions show them.

ghost use Rattle.std.specs.Prelude.{◌≡◌, ◌≤◌, IfSome, Ok, drop, false, length};
ghost use Rattle.timefd_modifier.specs.declared.enums.Padding.{Padding};
ghost use Rattle.timefd_lang_component.specs.declared.component.Component.{Component};
ghost use Rattle.timefd_lang_component.specs.Tree.{component};
ghost use Rattle.timefd_date_moment.specs.Fields.Reads as spec;
ghost use Rattle.timefd_date_moment.specs.Fields.Reads.{at};
ghost use Rattle.timefd_date_moment.specs.Fields.Short.{fields_with};

use crate::fields::rule::standard_year;
use crate::fields::short::Numbers;
use crate::fields::taken::{take_day, take_month, take_year};
use timefd_modifier::Padding;

/// Takes a day of two digits: how many bytes it takes, and the numbers with it. `None` says nothing about the text.
#[inline(always)]
#[tactic(auto, using(crate::proofs::FieldsLemmas::ShortLemmas::component_read, crate::proofs::FieldsLemmas::ShortLemmas::component_within))]
pub fn take_padded_day(text: &[u8], numbers: Numbers) -> Option<(usize, Numbers)>
    ensures within { IfSome result (λ r. r.0 ≤ length text.now) }
    ensures reads { IfSome result (λ r. spec.read (component (Component.Day (record { padding = Padding.Zero })))
        (at text.now (fields_with numbers)) ≡ Ok (at (drop r.0 text.now) (fields_with r.1))) }
{
    take_day(1, 31, text, numbers)
}

/// Takes a month of two digits: how many bytes it takes, and the numbers with it. `None` says nothing about the text.
#[inline(always)]
#[tactic(auto, using(crate::proofs::FieldsLemmas::ShortLemmas::component_read, crate::proofs::FieldsLemmas::ShortLemmas::component_within))]
pub fn take_padded_month(text: &[u8], numbers: Numbers) -> Option<(usize, Numbers)>
    ensures within { IfSome result (λ r. r.0 ≤ length text.now) }
    ensures reads { IfSome result (λ r. spec.read (component (Component.MonthNumerical (record { padding = Padding.Zero })))
        (at text.now (fields_with numbers)) ≡ Ok (at (drop r.0 text.now) (fields_with r.1))) }
{
    take_month(1, 12, text, numbers)
}

/// Takes a year of four digits without a sign: how many bytes it takes, and the numbers with it. `None` says nothing about the text.
#[inline(always)]
#[tactic(auto, using(crate::proofs::FieldsLemmas::ShortLemmas::component_read, crate::proofs::FieldsLemmas::ShortLemmas::component_within))]
pub fn take_padded_year(text: &[u8], numbers: Numbers) -> Option<(usize, Numbers)>
    ensures within { IfSome result (λ r. r.0 ≤ length text.now) }
    ensures reads { IfSome result (λ r. spec.read (component (Component.CalendarYearFullStandardRange (record { padding = Padding.Zero; sign_is_mandatory = false })))
        (at text.now (fields_with numbers)) ≡ Ok (at (drop r.0 text.now) (fields_with r.1))) }
{
    take_year(standard_year(Padding::Zero), text, numbers)
}
