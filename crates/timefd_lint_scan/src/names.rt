//! Whether a source can have descriptions at all: some known word is near every description.

ghost use Rattle.std.specs.Prelude.{◌≡◌, ◌⊎◌, codes, false};
ghost use Rattle.timefd_lint_scan.specs.Names.{HasNoCallOfChrono, HasNoCallOfJiff, HasNoFence, HasNoMacro, HasNoName, HasNoOwn, HasNoParser};
ghost use Rattle.timefd_lint_scan.specs.Names.{HasNoPercent, HasNoPercentEscape, HasNoReaderOfChrono, Lacks};

use crate::own_call::{OwnCall, word_of};
use memchr::{memchr, memmem};

fn has(source: &[u8], word: &str) -> bool
    ensures { result ≡ false → Lacks source.now word.now }
{
    match memmem::find(source, word.as_bytes()) {
        Some(_) => true,
        None => false,
    }
}

// A percent sign, or an escape that denotes one.
fn has_percent(source: &[u8]) -> bool
    ensures { result ≡ false → HasNoPercent source.now }
{
    match memchr(b'%', source) {
        Some(_) => true,
        None => has_percent_escape(source),
    }
}

fn has_percent_escape(source: &[u8]) -> bool
    ensures { result ≡ false → HasNoPercentEscape source.now }
{
    if has(source, "\\x25") {
        return true;
    }
    has(source, "\\u{25}")
}

// A format string of chrono in a call of `format` has a `%`.
fn has_format(source: &[u8]) -> bool
    ensures { result ≡ false → HasNoPercent source.now ⊎ Lacks source.now (codes "format") }
{
    if has_percent(source) {
        has(source, "format")
    } else {
        false
    }
}

// The macro of `time`, its attribute, and the word of a comment.
fn has_macro_or_comment(source: &[u8]) -> bool
    ensures { result ≡ false → HasNoMacro source.now }
{
    if has(source, "format_description") {
        return true;
    }
    if has(source, "#[time(") {
        return true;
    }
    has(source, "timefd")
}

fn has_parser(source: &[u8]) -> bool
    ensures { result ≡ false → HasNoParser source.now }
{
    if has(source, "parse_borrowed") {
        return true;
    }
    if has(source, "parse_owned") {
        return true;
    }
    has(source, "parse_strftime_")
}

fn has_reader_of_chrono(source: &[u8]) -> bool
    ensures { result ≡ false → HasNoReaderOfChrono source.now }
{
    if has(source, "parse_from_str") {
        return true;
    }
    if has(source, "datetime_from_str") {
        return true;
    }
    has(source, "parse_and_remainder")
}

fn has_call_of_chrono(source: &[u8]) -> bool
    ensures { result ≡ false → HasNoCallOfChrono source.now }
{
    if has_reader_of_chrono(source) {
        return true;
    }
    if has(source, "StrftimeItems") {
        return true;
    }
    if has(source, "ChronoLocal") {
        return true;
    }
    if has(source, "ChronoUtc") {
        return true;
    }
    has_format(source)
}

fn has_call_of_jiff(source: &[u8]) -> bool
    ensures { result ≡ false → HasNoCallOfJiff source.now }
{
    if has(source, "strftime") {
        return true;
    }
    if has(source, "strptime") {
        return true;
    }
    if has(source, "strtime") {
        return true;
    }
    has(source, "BrokenDownTime")
}

fn has_own(source: &[u8], calls: &[OwnCall]) -> bool
    ensures { result ≡ false → HasNoOwn source.now calls.now }
{
    let mut rest = calls;
    'calls: while let [call, after @ ..] = rest {
        if has(source, word_of(call)) {
            return true;
        }
        rest = after;
    }
    false
}

/// Whether a source has one of the names without which none of its literals is a description: those of known calls, or of these
/// calls of its project. Most sources have none, and needn't be cut into tokens.
pub fn may_describe(source: &[u8], own: &[OwnCall]) -> bool
    ensures { result ≡ false → HasNoName source.now own.now }
{
    has_macro_or_comment(source)
        || has_parser(source)
        || has_call_of_chrono(source)
        || has_call_of_jiff(source)
        || has_own(source, own)
}

/// Whether a source has what blocks in doc comments begin with. Most sources have no such block, and needn't be cut into tokens again.
pub fn has_fence(source: &[u8]) -> bool
    ensures { result ≡ false → HasNoFence source.now }
{
    if has(source, "```") {
        return true;
    }
    has(source, "~~~")
}
