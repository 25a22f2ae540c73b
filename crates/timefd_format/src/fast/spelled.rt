//! Moments in their usual forms, read at once: a date; or a date and a time of day to the second, with `Z`, an
//! offset of hours and minutes, or neither.

ghost use Rattle.std.specs.Prelude.{◌≡◌, ◌∷◌, ◌<◌, ◌≤◌, IfSome, Ok, Some, pos, true};
ghost use Rattle.jiff_fmt.specs.Reader as read;
ghost use Rattle.jiff_fmt.specs.Temporal as temporal;
ghost use Rattle.timefd_date_moment.specs.Signed.{signed};
ghost use Rattle.timefd_format.specs.Spelled.{IsAfterSeparator, IsDateSpelled, IsOffsetSpelled, IsOffsetSpelledAfter, IsSpelled, IsTimeSpelled, IsTimeSpelledAfter, begins_with_digit};

use timefd_date_moment::{Date, Moment, Time, UtcOffset};

/// The moment that a whole text spells in one of these forms. `None` says nothing about the text.
#[inline(always)]
pub fn moment_spelled(text: &[u8]) -> Option<Moment>
    ensures { IfSome result (IsSpelled text.now) }
{
    let (date, rest) = date_in_front(text)?;
    if rest.is_empty() {
        return Some(Moment {
            date: Some(date),
            time: None,
            offset: None,
        });
    }
    moment_at(date, after_separator(rest)?)
}

// The moment of a date and what follows the separator after it.
#[inline(always)]
fn moment_at(date: Date, text: &[u8]) -> Option<Moment>
    ensures { IfSome result (IsTimeSpelledAfter date text.now) }
{
    let (time, rest) = time_in_front(text)?;
    let offset = offset_spelled(rest)?;
    Some(Moment {
        date: Some(date),
        time: Some(time),
        offset,
    })
}

// A date, and what follows it.
#[inline(always)]
fn date_in_front(text: &[u8]) -> Option<(Date, &[u8])>
    ensures { IfSome result (λ r. IsDateSpelled text.now r.0 r.1.now) }
{
    let (year, rest) = year_in_front(text)?;
    let (month, rest) = two_digits(after(b'-', rest)?)?;
    let (day, rest) = two_digits(after(b'-', rest)?)?;
    match Date::from_calendar_date(i32::from(year), month, day) {
        Ok(date) => Some((date, rest)),
        Err(_) => None,
    }
}

// A time of day to the second, and what follows it.
#[inline(always)]
fn time_in_front(text: &[u8]) -> Option<(Time, &[u8])>
    ensures { IfSome result (λ r. IsTimeSpelled text.now r.0 r.1.now) }
{
    let (hour, rest) = two_digits(text)?;
    let (minute, rest) = two_digits(after(b':', rest)?)?;
    let (second, rest) = two_digits(after(b':', rest)?)?;
    match Time::from_hms_nano(hour, minute, second, 0) {
        Ok(time) => Some((time, rest)),
        Err(_) => None,
    }
}

// The offset that a whole text spells, if it spells one. The outer `None` says nothing about the text.
#[inline(always)]
#[tactic(auto, using(crate::proofs::SpelledLemmas::no_offset, crate::proofs::SpelledLemmas::with_sign))]
fn offset_spelled(text: &[u8]) -> Option<Option<UtcOffset>>
    ensures { IfSome result (IsOffsetSpelled text.now) }
{
    if text.is_empty() {
        return Some(None);
    }
    if let Some(rest) = after(b'Z', text) {
        return zulu_before(rest);
    }
    if let Some(rest) = after(b'+', text) {
        return Some(Some(offset_of(false, rest)?));
    }
    let rest = after(b'-', text)?;
    Some(Some(offset_of(true, rest)?))
}

// UTC, if nothing follows its letter.
#[inline(always)]
#[tactic(auto, using(crate::proofs::SpelledLemmas::zulu))]
fn zulu_before(rest: &[u8]) -> Option<Option<UtcOffset>>
    ensures { IfSome result (IsOffsetSpelled (90 ∷ rest.now)) }
{
    if !rest.is_empty() {
        return None;
    }
    Some(Some(UtcOffset::utc()))
}

// The offset of hours and minutes after its sign.
#[inline(always)]
fn offset_of(is_behind: bool, text: &[u8]) -> Option<UtcOffset>
    ensures { IfSome result (IsOffsetSpelledAfter is_behind text.now) }
{
    let (hours, rest) = two_digits(text)?;
    let (minutes, rest) = two_digits(after(b':', rest)?)?;
    if hours > 25 || minutes > 59 || !rest.is_empty() {
        return None;
    }
    Some(signed_offset(is_behind, 3_600 * hours as u32 + 60 * minutes as u32))
}

// The offset of these seconds. UTC has no sign.
#[inline(always)]
#[tactic(auto, using(crate::proofs::SpelledLemmas::sign_kept))]
fn signed_offset(is_behind: bool, seconds: u32) -> UtcOffset
    requires { seconds ≤ 93599 }
    ensures { signed result.is_negative result.seconds ≡ signed is_behind seconds }
{
    if !is_behind {
        return UtcOffset {
            is_negative: false,
            seconds,
        };
    }
    UtcOffset {
        is_negative: seconds != 0,
        seconds,
    }
}

// The four digits of a year, and what follows them.
#[inline(always)]
#[tactic(auto, using(crate::proofs::SpelledLemmas::year_read, crate::proofs::SpelledLemmas::digit_first))]
fn year_in_front(text: &[u8]) -> Option<(u16, &[u8])>
    ensures year { IfSome result (λ r. temporal.year text.now ≡ Ok (pos r.0, r.1.now)) }
    ensures small { IfSome result (λ r. r.0 < 10000) }
    ensures digit { IfSome result (λ _. begins_with_digit text.now ≡ true) }
{
    let (century, rest) = two_digits(text)?;
    let (year, rest) = two_digits(rest)?;
    Some((100 * u16::from(century) + u16::from(year), rest))
}

// The number of two digits, and what follows them.
#[inline(always)]
#[tactic(auto, unfolding(jiff_fmt::specs::Reader::two_digits))]
fn two_digits(text: &[u8]) -> Option<(u8, &[u8])>
    ensures value { IfSome result (λ r. read.two_digits text.now ≡ Some (r.0, r.1.now)) }
    ensures small { IfSome result (λ r. r.0 < 100) }
{
    match text {
        [high @ b'0'..=b'9', low @ b'0'..=b'9', rest @ ..] => {
            Some(((*high - b'0') * 10 + (*low - b'0'), rest))
        }
        _ => None,
    }
}

// What follows the letter or the space between a date and a time of day.
#[inline(always)]
fn after_separator(text: &[u8]) -> Option<&[u8]>
    ensures { IfSome result (IsAfterSeparator text.now) }
{
    match after(b'T', text) {
        Some(rest) => Some(rest),
        None => after(b' ', text),
    }
}

// What follows this byte.
#[inline(always)]
fn after(byte: u8, text: &[u8]) -> Option<&[u8]>
    ensures { IfSome result (λ rest. text.now ≡ byte ∷ rest.now) }
{
    match text {
        [first, rest @ ..] => { if *first == byte { Some(rest) } else { None } }
        [] => None,
    }
}
