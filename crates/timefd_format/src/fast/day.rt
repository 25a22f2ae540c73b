//! Dates of a day, a month and a year, with a literal after each but the last, read at once.

ghost use Rattle.std.specs.Prelude.{◌≡◌, ◌∷◌, [], IfSome, IsTrue, Ok, drop, map};
ghost use Rattle.timefd_date_moment.specs.Fields.Reads.{fields_of};
ghost use Rattle.timefd_date_moment.specs.Fields.Short.{fields_with};
ghost use Rattle.timefd_format.specs.Days.{padded_day, padded_month, padded_year};
ghost use Rattle.timefd_format.specs.ReadBack.{AreLeavesOf, IsWhole};
ghost use Rattle.timefd_lang_component.specs.Tree.{compound, literal, trees};
ghost use Rattle.timefd_lang_node_list.specs.LeafMeaning.{leaf_tree};

use timefd_date_moment::Moment;
use timefd_date_moment::fields::{
    NO_NUMBERS, Numbers, take_literal, take_padded_day, take_padded_month, take_padded_year,
};
use timefd_date_moment::reading::moment_of_numbers;
use timefd_lang_component::Component;
use timefd_lang_node_list::Leaf;
use timefd_modifier::Padding;
use timefd_parse::BorrowedOutput;

/// The moment of a whole text, if the description is such a date. `None` says nothing about the text. Inlined, its
/// three orders would be too large for what calls it.
#[inline(never)]
pub fn date_shown(
    description: &BorrowedOutput<'_>,
    leaves: Option<&[Leaf<'_>]>,
    text: &[u8],
) -> Option<Moment>
    requires { AreLeavesOf description.now leaves }
    ensures { IfSome result (IsWhole description.now text.now) }
{
    let numbers = date_numbers(leaves?, text)?;
    moment_of_numbers(numbers)
}

// Each order has calls of its own, so that no component is looked up again.
#[inline(always)]
fn date_numbers(leaves: &[Leaf<'_>], text: &[u8]) -> Option<Numbers>
    ensures { IfSome result (λ numbers. fields_of (compound (trees (map leaf_tree leaves.now))) text.now
        ≡ Ok (fields_with numbers)) }
{
    if leaves.len() != 5 {
        return None;
    }
    let between = literal_of(&leaves[1])?;
    let after = literal_of(&leaves[3])?;
    if is_day(&leaves[0]) && is_month(&leaves[2]) && is_year(&leaves[4]) {
        return day_first(between, after, text);
    }
    if is_year(&leaves[0]) && is_month(&leaves[2]) && is_day(&leaves[4]) {
        return year_first(between, after, text);
    }
    if is_month(&leaves[0]) && is_day(&leaves[2]) && is_year(&leaves[4]) {
        return month_first(between, after, text);
    }
    None
}

// The numbers of a day, a month and a year.
#[inline(always)]
fn day_first(between: &str, after: &str, text: &[u8]) -> Option<Numbers>
    ensures { IfSome result (λ numbers. fields_of (compound (trees (padded_day ∷ literal between.now
        ∷ padded_month ∷ literal after.now ∷ padded_year ∷ []))) text.now
        ≡ Ok (fields_with numbers)) }
{
    let (len_1, numbers_1) = take_padded_day(text, NO_NUMBERS)?;
    let left_1 = &text[len_1..];
    let (len_2, numbers_2) = take_literal(between.as_bytes(), left_1, numbers_1)?;
    let left_2 = &left_1[len_2..];
    let (len_3, numbers_3) = take_padded_month(left_2, numbers_2)?;
    let left_3 = &left_2[len_3..];
    let (len_4, numbers_4) = take_literal(after.as_bytes(), left_3, numbers_3)?;
    let left_4 = &left_3[len_4..];
    let (len_5, numbers_5) = take_padded_year(left_4, numbers_4)?;
    if_whole(left_4, len_5, numbers_5)
}

// The numbers of a year, a month and a day.
#[inline(always)]
fn year_first(between: &str, after: &str, text: &[u8]) -> Option<Numbers>
    ensures { IfSome result (λ numbers. fields_of (compound (trees (padded_year ∷ literal between.now
        ∷ padded_month ∷ literal after.now ∷ padded_day ∷ []))) text.now
        ≡ Ok (fields_with numbers)) }
{
    let (len_1, numbers_1) = take_padded_year(text, NO_NUMBERS)?;
    let left_1 = &text[len_1..];
    let (len_2, numbers_2) = take_literal(between.as_bytes(), left_1, numbers_1)?;
    let left_2 = &left_1[len_2..];
    let (len_3, numbers_3) = take_padded_month(left_2, numbers_2)?;
    let left_3 = &left_2[len_3..];
    let (len_4, numbers_4) = take_literal(after.as_bytes(), left_3, numbers_3)?;
    let left_4 = &left_3[len_4..];
    let (len_5, numbers_5) = take_padded_day(left_4, numbers_4)?;
    if_whole(left_4, len_5, numbers_5)
}

// The numbers of a month, a day and a year.
#[inline(always)]
fn month_first(between: &str, after: &str, text: &[u8]) -> Option<Numbers>
    ensures { IfSome result (λ numbers. fields_of (compound (trees (padded_month ∷ literal between.now
        ∷ padded_day ∷ literal after.now ∷ padded_year ∷ []))) text.now
        ≡ Ok (fields_with numbers)) }
{
    let (len_1, numbers_1) = take_padded_month(text, NO_NUMBERS)?;
    let left_1 = &text[len_1..];
    let (len_2, numbers_2) = take_literal(between.as_bytes(), left_1, numbers_1)?;
    let left_2 = &left_1[len_2..];
    let (len_3, numbers_3) = take_padded_day(left_2, numbers_2)?;
    let left_3 = &left_2[len_3..];
    let (len_4, numbers_4) = take_literal(after.as_bytes(), left_3, numbers_3)?;
    let left_4 = &left_3[len_4..];
    let (len_5, numbers_5) = take_padded_year(left_4, numbers_4)?;
    if_whole(left_4, len_5, numbers_5)
}

// The numbers, if the last part takes all that is left.
#[inline(always)]
fn if_whole(left: &[u8], len: usize, numbers: Numbers) -> Option<Numbers>
    ensures whole { IfSome result (λ all. drop len left.now ≡ []) }
    ensures same { IfSome result (λ all. all ≡ numbers) }
{
    if left.len() == len {
        Some(numbers)
    } else {
        None
    }
}

#[inline(always)]
fn literal_of<'l>(leaf: &Leaf<'l>) -> Option<&'l str>
    ensures { IfSome result (λ text. leaf_tree leaf.now ≡ literal text.now) }
{
    match *leaf {
        Leaf::Literal(text) => Some(text),
        Leaf::Component(_) => None,
    }
}

// Whether it is the day of two digits.
#[inline(always)]
fn is_day(leaf: &Leaf<'_>) -> bool
    ensures { IsTrue result → leaf_tree leaf.now ≡ padded_day }
{
    match *leaf {
        Leaf::Component(Component::Day(m)) => matches!(m.padding, Padding::Zero),
        _ => false,
    }
}

// Whether it is the month of two digits.
#[inline(always)]
fn is_month(leaf: &Leaf<'_>) -> bool
    ensures { IsTrue result → leaf_tree leaf.now ≡ padded_month }
{
    match *leaf {
        Leaf::Component(Component::MonthNumerical(m)) => matches!(m.padding, Padding::Zero),
        _ => false,
    }
}

// Whether it is the year of four digits.
#[inline(always)]
fn is_year(leaf: &Leaf<'_>) -> bool
    ensures { IsTrue result → leaf_tree leaf.now ≡ padded_year }
{
    match *leaf {
        Leaf::Component(Component::CalendarYearFullStandardRange(m)) => {
            !m.sign_is_mandatory && matches!(m.padding, Padding::Zero)
        }
        _ => false,
    }
}
