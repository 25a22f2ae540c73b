//! Names and keys of brackets, those of the tables, distinguished by their first bytes and compared in
//! place.

ghost use Rattle.std.specs.Prelude.{◌≡◌, ◌≤◌, ◌+◌, ◌++◌, IsTrue, MatchOption, Some, true, false, length, take, ⊤};
ghost use Rattle.std.specs.Str.{IsUtf8};
ghost use Rattle.timefd_language.specs.Bytes.{OneOrMore, is_word_byte};
ghost use Rattle.timefd_language.specs.Lookup.{key_for};
ghost use Rattle.timefd_language.specs.Names.{row_for};
ghost use Rattle.timefd_language.specs.Values as spec;
ghost use Rattle.timefd_parse.specs.Quick.{BeginsWithName, BeginsWithKey, BeginsWithValue};

use crate::fast::begins::{begins, begins_by};
use timefd_lang_fault::{ComponentName, Key};
use timefd_language::key::spelling;
use timefd_language::name::name_spelling;
use timefd_language::setting::Setting;

/// What follows the word, if the text begins with it. A constant word is compared in place: its length
/// and its bytes are constants too.
#[inline(always)]
pub fn after_word<'a>(text: &'a str, word: &str) -> Option<&'a str>
    ensures { MatchOption result ⊤ (λ rest. (text.now ≡ word.now ++ rest.now) × IsUtf8 rest.now) }
{
    if text.len() < word.len() {
        return None;
    }
    after_front(text, word, begins(word.as_bytes(), text.as_bytes()))
}

/// The result of `after_word` for a word of `N` to 2 * `N` bytes. It compares in one way only, so the compiler inlines
/// it where it would be too large otherwise.
#[inline(always)]
pub fn after_word_by<'a, const N: usize>(text: &'a str, word: &str) -> Option<&'a str>
    requires lanes { N ≤ 64 }
    requires front { N ≤ length word.now }
    requires end { length word.now ≤ N + N }
    ensures { MatchOption result ⊤ (λ rest. (text.now ≡ word.now ++ rest.now) × IsUtf8 rest.now) }
{
    if text.len() < word.len() {
        return None;
    }
    after_front(text, word, begins_by::<N>(word.as_bytes(), text.as_bytes()))
}

/// What follows the word, if the text is known to begin with it.
#[inline(always)]
fn after_front<'a>(text: &'a str, word: &str, is_there: bool) -> Option<&'a str>
    requires { IsTrue is_there → word.now ≡ take (length word.now) text.now }
    ensures { MatchOption result ⊤ (λ rest. (text.now ≡ word.now ++ rest.now) × IsUtf8 rest.now) }
{
    if is_there {
        Some(&text[word.len()..])
    } else {
        None
    }
}

/// The name that the inside of a bracket begins with, and what follows. A few of the bytes say which
/// name to compare.
#[inline(always)]
pub fn name_in(inside: &str) -> Option<(ComponentName, &str)>
    ensures { MatchOption result ⊤ (λ x. BeginsWithName inside.now x.0 x.1.now) }
{
    match inside.as_bytes() {
        [b'd', ..] => named(inside, ComponentName::Day),
        [b'e', ..] => named(inside, ComponentName::End),
        [b'h', ..] => named(inside, ComponentName::Hour),
        [b'm', b'i', ..] => named(inside, ComponentName::Minute),
        [b'm', ..] => named(inside, ComponentName::Month),
        [b'o', b'r', ..] => named(inside, ComponentName::Ordinal),
        [b'o', _, _, _, _, _, _, b'h', ..] => named(inside, ComponentName::OffsetHour),
        [b'o', _, _, _, _, _, _, b'm', ..] => named(inside, ComponentName::OffsetMinute),
        [b'o', ..] => named(inside, ComponentName::OffsetSecond),
        [b'p', ..] => named(inside, ComponentName::Period),
        [b's', b'e', ..] => named(inside, ComponentName::Second),
        [b's', ..] => named(inside, ComponentName::Subsecond),
        [b'u', ..] => named(inside, ComponentName::UnixTimestamp),
        [b'w', b'e', b'e', b'k', b'd', ..] => named(inside, ComponentName::Weekday),
        [b'w', ..] => named(inside, ComponentName::WeekNumber),
        [b'y', ..] => named(inside, ComponentName::Year),
        _ => None,
    }
}

/// The name and what follows it, if the inside begins with the name.
#[inline(always)]
fn named(inside: &str, name: ComponentName) -> Option<(ComponentName, &str)>
    ensures { MatchOption result ⊤ (λ x. BeginsWithName inside.now x.0 x.1.now) }
{
    let rest = after_word(inside, name_spelling(name))?;
    Some((name, rest))
}

/// The key that a text begins with, one of those that the name takes, and what follows.
#[inline(always)]
pub fn key_in(name: ComponentName, text: &str) -> Option<(Key, &str)>
    ensures { MatchOption result ⊤ (λ x. BeginsWithKey name text.now x.0 x.1.now) }
{
    match name {
        ComponentName::Hour => match text.as_bytes() {
            [b'r', ..] => keyed(name, text, Key::HourRepr),
            _ => keyed(name, text, Key::Padding),
        },
        ComponentName::Month => match text.as_bytes() {
            [b'r', ..] => keyed(name, text, Key::MonthRepr),
            [b'c', ..] => keyed(name, text, Key::CaseSensitive),
            _ => keyed(name, text, Key::Padding),
        },
        ComponentName::OffsetHour => match text.as_bytes() {
            [b's', ..] => keyed(name, text, Key::Sign),
            _ => keyed(name, text, Key::Padding),
        },
        ComponentName::Period => match text.as_bytes() {
            [b'c', b'a', b's', b'e', b'_', ..] => keyed(name, text, Key::CaseSensitive),
            _ => keyed(name, text, Key::Case),
        },
        ComponentName::UnixTimestamp => match text.as_bytes() {
            [b's', ..] => keyed(name, text, Key::Sign),
            _ => keyed(name, text, Key::Precision),
        },
        ComponentName::Weekday => match text.as_bytes() {
            [b'r', ..] => keyed(name, text, Key::WeekdayRepr),
            [b'c', ..] => keyed(name, text, Key::CaseSensitive),
            _ => keyed(name, text, Key::OneIndexed),
        },
        ComponentName::WeekNumber => match text.as_bytes() {
            [b'r', ..] => keyed(name, text, Key::WeekNumberRepr),
            _ => keyed(name, text, Key::Padding),
        },
        ComponentName::Year => match text.as_bytes() {
            [b'r', b'e', ..] => keyed(name, text, Key::YearRepr),
            [b'r', ..] => keyed(name, text, Key::Range),
            [b'b', ..] => keyed(name, text, Key::Base),
            [b's', ..] => keyed(name, text, Key::Sign),
            _ => keyed(name, text, Key::Padding),
        },
        ComponentName::End => keyed(name, text, Key::TrailingInput),
        ComponentName::Subsecond => keyed(name, text, Key::Digits),
        ComponentName::Ignore => None,
        ComponentName::Day
        | ComponentName::Minute
        | ComponentName::OffsetMinute
        | ComponentName::OffsetSecond
        | ComponentName::Ordinal
        | ComponentName::Second => keyed(name, text, Key::Padding),
    }
}

/// The key and what follows it, if the text begins with the key. The name takes this key.
#[inline(always)]
fn keyed(name: ComponentName, text: &str, key: Key) -> Option<(Key, &str)>
    requires exactly { spec.key_in true (key_for key).key (row_for name).keys ≡ Some (key_for key) }
    requires anyhow { spec.key_in false (key_for key).key (row_for name).keys ≡ Some (key_for key) }
    ensures { MatchOption result ⊤ (λ x. BeginsWithKey name text.now x.0 x.1.now) }
{
    let rest = after_word(text, spelling(key))?;
    Some((key, rest))
}

/// The setting and what follows the word, if the text begins with the word. The word sets the key to
/// this setting.
#[inline(always)]
pub fn valued<'a>(
    key: Key,
    text: &'a str,
    word: &str,
    setting: Setting,
) -> Option<(Setting, &'a str)>
    requires word { OneOrMore is_word_byte word.now }
    requires exactly { spec.setting_in true (key_for key).values word.now ≡ Some setting }
    requires anyhow { spec.setting_in false (key_for key).values word.now ≡ Some setting }
    ensures { MatchOption result ⊤ (λ x. BeginsWithValue key text.now x.0 x.1.now) }
{
    let rest = after_word(text, word)?;
    Some((setting, rest))
}
