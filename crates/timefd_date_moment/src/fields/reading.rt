//! What one component reads, and how the fields take it.

ghost use Rattle.std.specs.Bool.{IsFalse};
ghost use Rattle.std.specs.Prelude.{◌≡◌, ◌≤◌, ◌^◌};
ghost use Rattle.timefd_date_moment.specs.Fields.Fields.{amount, count};
ghost use Rattle.timefd_date_moment.specs.Fields.Readings as spec;
ghost use Rattle.timefd_date_moment.specs.Fields.Readings.{Takes};

use crate::fields::fields::{Amount, Count, Fields, Fraction, Signed};

/// What one component reads.
#[derive(Clone, Copy)]
pub(crate) enum Reading {
    Count(Count, u16),
    Amount(Amount, Signed),
    /// Whether it is in the afternoon.
    Period(bool),
    Fraction(Fraction),
    Nothing,
}

/// Sets the field for what was read. Returns false if another value was read for it before.
pub(crate) fn take(fields: &mut Fields, reading: Reading) -> bool
    ensures { Takes (spec.with_reading fields.old reading) fields.new result }
{
    match reading {
        Reading::Count(field, number) => take_count(fields, field, number),
        Reading::Amount(field, number) => take_amount(fields, field, number),
        Reading::Period(is_afternoon) => take_period(fields, is_afternoon),
        Reading::Fraction(fraction) => take_fraction(fields, fraction),
        Reading::Nothing => true,
    }
}

/// Sets a field without a sign, unless another value was read for it before. Returns whether it did.
#[inline(always)]
#[tactic(auto, using(crate::proofs::FieldsLemmas::TakeLemmas::count_kept, crate::proofs::FieldsLemmas::TakeLemmas::count_set))]
pub(crate) fn take_count(fields: &mut Fields, field: Count, number: u16) -> bool
    ensures takes { Takes (spec.count_with fields.old field number (count fields.old field)) fields.new
        result }
    ensures kept { IsFalse result → fields.new ≡ fields.old }
{
    match fields.count(field) {
        Some(before) => before == number,
        None => {
            fields.set_count(field, number);
            true
        }
    }
}

/// Sets a field with a sign, unless another value was read for it before. Returns whether it did.
#[inline(always)]
#[tactic(auto, using(crate::proofs::FieldsLemmas::TakeLemmas::amount_kept, crate::proofs::FieldsLemmas::TakeLemmas::amount_set))]
pub(crate) fn take_amount(fields: &mut Fields, field: Amount, number: Signed) -> bool
    ensures takes { Takes (spec.amount_with fields.old field number (amount fields.old field)) fields.new
        result }
    ensures kept { IsFalse result → fields.new ≡ fields.old }
{
    match fields.amount(field) {
        Some(before) => same_signed(before, number),
        None => {
            fields.set_amount(field, number);
            true
        }
    }
}

#[tactic(auto, using(crate::proofs::FieldsLemmas::TakeLemmas::kept_taken))]
fn take_period(fields: &mut Fields, is_afternoon: bool) -> bool
    ensures { Takes (spec.period_with fields.old is_afternoon fields.old.is_afternoon) fields.new
        result }
{
    match fields.is_afternoon {
        Some(before) => same(before, is_afternoon),
        None => {
            fields.is_afternoon = Some(is_afternoon);
            true
        }
    }
}

fn take_fraction(fields: &mut Fields, fraction: Fraction) -> bool
    ensures { Takes (spec.fraction_with fields.old fraction fields.old.subsecond) fields.new result }
{
    match fields.subsecond {
        Some(before) => take_finer(fields, before, fraction),
        None => {
            fields.subsecond = Some(fraction);
            true
        }
    }
}

fn take_finer(fields: &mut Fields, before: Fraction, fraction: Fraction) -> bool
    ensures { Takes (spec.with_finer fields.old before fraction) fields.new result }
{
    if agree(before, fraction) {
        fields.subsecond = Some(finer(before, fraction));
        true
    } else {
        false
    }
}

/// Whether both fractions have the same digits, as far as the digits of both are known.
fn agree(a: Fraction, b: Fraction) -> bool
    ensures { result ≡ spec.agree a b }
{
    let unit = unit(if a.digits <= b.digits {
        a.digits
    } else {
        b.digits
    });
    a.nanosecond / unit == b.nanosecond / unit
}

/// The fraction with more known digits.
fn finer(a: Fraction, b: Fraction) -> Fraction
    ensures { result ≡ spec.finer a b }
{
    if a.digits <= b.digits { b } else { a }
}

/// How many nanoseconds one unit of the last digit is, for a fraction with this many digits.
pub fn unit(digits: u16) -> u128
    ensures value { result ≡ spec.unit digits }
    ensures some { 1 ≤ result }
    ensures small { result ≤ 10 ^ 9 }
{
    match digits {
        0 => 1_000_000_000,
        1 => 100_000_000,
        2 => 10_000_000,
        3 => 1_000_000,
        4 => 100_000,
        5 => 10_000,
        6 => 1_000,
        7 => 100,
        8 => 10,
        _ => 1,
    }
}

fn same_signed(a: Signed, b: Signed) -> bool
    ensures { result ≡ spec.same_signed a b }
{
    if same(a.is_negative, b.is_negative) {
        a.magnitude == b.magnitude
    } else {
        false
    }
}

fn same(a: bool, b: bool) -> bool
    ensures { result ≡ spec.same a b }
{
    if a { b } else { !b }
}
