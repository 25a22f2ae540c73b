//! Rows of a dialect's table.

use crate::reason::Reason;

/// A text in a format, and the text of version 3 that means the same.
#[derive(Clone, Copy)]
pub struct Row {
    /// The text in the format.
    pub text: &'static str,
    /// What may not follow the text there.
    pub not_before: NotBefore,
    /// What the text means.
    pub verdict: Verdict,
}

/// What may not follow a row's text for the row to count.
#[derive(Clone, Copy)]
pub enum NotBefore {
    /// Anything may follow.
    Nothing,
    /// No small letter may follow.
    Lower,
    /// No digit may follow.
    Digit,
}

/// What a row's text means.
#[derive(Clone, Copy)]
pub enum Verdict {
    /// This text of version 3 writes the same, for the moments of a range.
    Written(&'static str, Range),
    /// No text of version 3 writes the same.
    Refused(Reason),
}

/// The moments for which a text of version 3 writes the same.
#[derive(Clone, Copy)]
pub enum Range {
    /// Moments of the years 0 to 9999.
    Years0To9999,
    /// Moments from the year 1 on.
    YearsFrom1,
    /// Moments from the year 100 on.
    YearsFrom100,
    /// Moments from the year 1000 on.
    YearsFrom1000,
    /// Moments from the year 1970 on.
    From1970,
    /// Moments whose offset has no seconds.
    WholeMinutes,
}

macro_rules! row {
    ($text:literal => $written:literal) => {
        row!($text => $written within Years0To9999)
    };
    ($text:literal => $written:literal within $range:ident) => {
        Row {
            text: $text,
            not_before: NotBefore::Nothing,
            verdict: Verdict::Written($written, Range::$range),
        }
    };
    ($text:literal refused $reason:ident) => {
        Row {
            text: $text,
            not_before: NotBefore::Nothing,
            verdict: Verdict::Refused(Reason::$reason),
        }
    };
    ($text:literal not before $what:ident => $written:literal) => {
        Row {
            text: $text,
            not_before: NotBefore::$what,
            verdict: Verdict::Written($written, Range::Years0To9999),
        }
    };
    ($text:literal not before $what:ident refused $reason:ident) => {
        Row {
            text: $text,
            not_before: NotBefore::$what,
            verdict: Verdict::Refused(Reason::$reason),
        }
    };
}

pub(crate) use row;
