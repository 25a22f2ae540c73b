//! The counts of a run, and the exit status that follows from them.

ghost use Rattle.std.specs.Prelude.{◌≡◌, ◌||◌, nat_lt, if◌then◌else◌, []};
ghost use Rattle.timefd_lint.specs.Reported as spec;

use crate::line::TextEnd;
use timefd_lang_warnings::Level;

/// What was found in the texts so far.
#[derive(Clone, Copy)]
pub struct LintTally {
    /// How many texts were checked. Texts that are passed over don't count.
    pub descriptions: u64,
    /// How many of them were refused or have a denied warning.
    pub refused: u64,
    /// How many other warnings were reported.
    pub warnings: u64,
    /// How many calls have a name instead of a text, and no text is found for it.
    pub unread_calls: u64,
    /// How many values of keys aren't looked at.
    pub unread_values: u64,
    /// How many comments name no language, or how many words in them are no codes.
    pub wrong_comments: u64,
    /// How many errors and warnings comments allow.
    pub allowed: u64,
    /// A line wasn't UTF-8.
    pub not_text: bool,
    /// A file was not read to its end, or not written back.
    pub failed: bool,
    /// Something is left that has to be changed manually.
    pub is_left: bool,
}

impl LintTally {
    /// The tally without any text.
    pub fn new() -> LintTally
        ensures { result ≡ spec.tally_of [] }
    {
        LintTally {
            descriptions: 0,
            refused: 0,
            warnings: 0,
            unread_calls: 0,
            unread_values: 0,
            wrong_comments: 0,
            allowed: 0,
            not_text: false,
            failed: false,
            is_left: false,
        }
    }

    /// The tally of one text.
    pub fn of(end: TextEnd) -> LintTally
        ensures { result ≡ spec.tally_of_one end }
    {
        LintTally {
            descriptions: u64::from(is_description(end)),
            refused: u64::from(is_refused(end)),
            warnings: warnings_in(end),
            unread_calls: u64::from(is_unread_call(end)),
            unread_values: u64::from(is_unread_value(end)),
            wrong_comments: u64::from(is_wrong_comment(end)),
            allowed: allowed_in(end),
            not_text: matches!(end, TextEnd::NotText),
            failed: matches!(end, TextEnd::Failed),
            is_left: false,
        }
    }

    /// The tally of these texts and others.
    pub fn and(self, other: LintTally) -> LintTally
        ensures { result ≡ spec.both self other }
    {
        LintTally {
            descriptions: self.descriptions.saturating_add(other.descriptions),
            refused: self.refused.saturating_add(other.refused),
            warnings: self.warnings.saturating_add(other.warnings),
            unread_calls: self.unread_calls.saturating_add(other.unread_calls),
            unread_values: self.unread_values.saturating_add(other.unread_values),
            wrong_comments: self.wrong_comments.saturating_add(other.wrong_comments),
            allowed: self.allowed.saturating_add(other.allowed),
            not_text: self.not_text || other.not_text,
            failed: self.failed || other.failed,
            is_left: self.is_left || other.is_left,
        }
    }

    /// The exit status: 4 if a file failed, else 5 if a line wasn't UTF-8, else 1 if a text was refused, a comment is
    /// wrong or something is left to change, else 0.
    pub fn status(self) -> u8
        ensures { result ≡ (if self.failed then 4 else if self.not_text then 5
            else if nat_lt 0 self.refused || nat_lt 0 self.wrong_comments || self.is_left then 1 else 0) }
    {
        if self.failed {
            4
        } else if self.not_text {
            5
        } else if self.refused > 0 || self.wrong_comments > 0 || self.is_left {
            1
        } else {
            0
        }
    }
}

// Whether a text was checked.
fn is_description(end: TextEnd) -> bool
    ensures { result ≡ spec.is_description end }
{
    match end {
        TextEnd::Accepted(_)
        | TextEnd::Converted(_)
        | TextEnd::Refused
        | TextEnd::NotText
        | TextEnd::Allowed(_) => true,
        TextEnd::PassedOver
        | TextEnd::Failed
        | TextEnd::UnreadCall
        | TextEnd::UnreadValue
        | TextEnd::WrongComment => false,
    }
}

// Whether it is a name instead of a text, and no text is found for it.
fn is_unread_call(end: TextEnd) -> bool
    ensures { result ≡ spec.is_unread_call end }
{
    match end {
        TextEnd::UnreadCall => true,
        TextEnd::PassedOver
        | TextEnd::Accepted(_)
        | TextEnd::Converted(_)
        | TextEnd::Refused
        | TextEnd::NotText
        | TextEnd::Allowed(_)
        | TextEnd::Failed
        | TextEnd::UnreadValue
        | TextEnd::WrongComment => false,
    }
}

// Whether it is a value of a key that isn't looked at.
fn is_unread_value(end: TextEnd) -> bool
    ensures { result ≡ spec.is_unread_value end }
{
    match end {
        TextEnd::UnreadValue => true,
        TextEnd::PassedOver
        | TextEnd::Accepted(_)
        | TextEnd::Converted(_)
        | TextEnd::Refused
        | TextEnd::NotText
        | TextEnd::Allowed(_)
        | TextEnd::Failed
        | TextEnd::UnreadCall
        | TextEnd::WrongComment => false,
    }
}

// Whether it is a comment that names no language, or a word in one that is no code.
fn is_wrong_comment(end: TextEnd) -> bool
    ensures { result ≡ spec.is_wrong_comment end }
{
    match end {
        TextEnd::WrongComment => true,
        TextEnd::PassedOver
        | TextEnd::Accepted(_)
        | TextEnd::Converted(_)
        | TextEnd::Refused
        | TextEnd::NotText
        | TextEnd::Allowed(_)
        | TextEnd::Failed
        | TextEnd::UnreadCall
        | TextEnd::UnreadValue => false,
    }
}

// Whether it was refused, or has a denied warning.
fn is_refused(end: TextEnd) -> bool
    ensures { result ≡ spec.is_refused end }
{
    match end {
        TextEnd::Accepted(found) => found.count(Level::Denied) > 0,
        TextEnd::Refused => true,
        TextEnd::Allowed(left) => left.is_refused,
        TextEnd::PassedOver
        | TextEnd::Converted(_)
        | TextEnd::NotText
        | TextEnd::Failed
        | TextEnd::UnreadCall
        | TextEnd::UnreadValue
        | TextEnd::WrongComment => false,
    }
}

// How many of its warnings were reported, without the denied ones.
fn warnings_in(end: TextEnd) -> u64
    ensures { result ≡ spec.warnings_in end }
{
    match end {
        TextEnd::Accepted(found) => found.count(Level::Warned),
        TextEnd::Converted(traps) => traps,
        TextEnd::Allowed(left) => left.warnings,
        TextEnd::PassedOver
        | TextEnd::Refused
        | TextEnd::NotText
        | TextEnd::Failed
        | TextEnd::UnreadCall
        | TextEnd::UnreadValue
        | TextEnd::WrongComment => 0,
    }
}

// How many of its errors and warnings a comment allows.
fn allowed_in(end: TextEnd) -> u64
    ensures { result ≡ spec.allowed_in end }
{
    match end {
        TextEnd::Allowed(left) => left.allowed,
        TextEnd::PassedOver
        | TextEnd::Accepted(_)
        | TextEnd::Converted(_)
        | TextEnd::Refused
        | TextEnd::NotText
        | TextEnd::Failed
        | TextEnd::UnreadCall
        | TextEnd::UnreadValue
        | TextEnd::WrongComment => 0,
    }
}
