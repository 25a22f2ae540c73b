//! Whether the numbers of a moment are in their ranges.

ghost use Rattle.std.specs.Prelude.{◌≡◌, None, true};
ghost use Rattle.timefd_c.specs.Moments.{date_range, has_date, offset_range, range_fault, time_range};

use crate::moment::MomentFields;

/// Whether the date is known, and all numbers of what is known are in their ranges. `false` says nothing.
// It is a call of its own: otherwise LLVM works on each of the numbers before the walk, and most are shown nowhere.
#[inline(never)]
#[tactic(auto, using(crate::proofs::FastLemmas::RangeLemmas::all_fit))]
pub(crate) fn are_in_range(fields: &MomentFields) -> bool
    ensures date { result ≡ true → has_date fields.now ≡ true }
    ensures range { result ≡ true → range_fault fields.now ≡ None }
{
    if is_usual_date(fields) && is_time(fields) && is_offset(fields) {
        return true;
    }
    are_exactly_in_range(fields)
}

// Most years have at most four digits, and most days are among the first 28.
#[inline(always)]
#[tactic(auto, using(crate::proofs::FastLemmas::RangeLemmas::usual_date_fits))]
fn is_usual_date(fields: &MomentFields) -> bool
    ensures date { result ≡ true → has_date fields.now ≡ true }
    ensures range { result ≡ true → date_range fields.now ≡ None }
{
    if !fields.has_date() {
        return false;
    }
    if fields.year < 0 || fields.year > 9_999 {
        return false;
    }
    if fields.month < 1 || fields.month > 12 {
        return false;
    }
    if fields.day < 1 || fields.day > 28 {
        return false;
    }
    true
}

#[inline(always)]
#[tactic(auto, using(crate::proofs::FastLemmas::RangeLemmas::time_fits, crate::proofs::FastLemmas::RangeLemmas::no_time))]
fn is_time(fields: &MomentFields) -> bool
    ensures { result ≡ true → time_range fields.now ≡ None }
{
    if !fields.has_time() {
        return true;
    }
    if fields.hour > 23 || fields.minute > 59 || fields.second > 59 {
        return false;
    }
    if fields.nanosecond > 999_999_999 {
        return false;
    }
    true
}

#[inline(always)]
#[tactic(auto, using(crate::proofs::FastLemmas::RangeLemmas::offset_fits, crate::proofs::FastLemmas::RangeLemmas::no_offset))]
fn is_offset(fields: &MomentFields) -> bool
    ensures { result ≡ true → offset_range fields.now ≡ None }
{
    if !fields.has_offset() {
        return true;
    }
    if fields.offset_seconds.unsigned_abs() > 93_599 {
        return false;
    }
    true
}

#[inline(never)]
fn are_exactly_in_range(fields: &MomentFields) -> bool
    ensures date { result ≡ true → has_date fields.now ≡ true }
    ensures range { result ≡ true → range_fault fields.now ≡ None }
{
    if !fields.has_date() {
        return false;
    }
    match fields.moment() {
        Ok(_moment) => true,
        Err(_range) => false,
    }
}
