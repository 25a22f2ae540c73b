//! The answer to C about the warnings of a description.

ghost use Rattle.std.specs.Prelude.{◌≡◌, ◌++◌, OnOk};
ghost use Rattle.timefd_c.specs.Warnings as spec;

use std::alloc::AllocError;
use timefd_lang_warnings::{Level, Warning};

/// A warning about an accepted text.
#[repr(C)]
#[derive(Debug, Clone, Copy, PartialEq, Eq)]
pub struct WarningFields {
    /// The number of the warning's code.
    pub code: u32,
    /// The index of the first byte that the warning is about.
    pub start: usize,
    /// The index after the last byte that the warning is about.
    pub end: usize,
}

/// The answer about a text whose warnings are asked for.
#[repr(C)]
#[derive(Debug, Clone, Copy, PartialEq, Eq)]
pub struct WarningsAnswer {
    /// One of the first five statuses of an `Answer`.
    pub status: u32,
    /// What the status counts: items, reserved bytes, or the bytes before the fault.
    pub value: usize,
    /// How many warnings an accepted text has, or else 0.
    pub count: usize,
    /// How many warnings were written: the first ones.
    pub written: usize,
}

// `examples/timefd.h` declares them with these sizes.
const _: () = prove!(size_of::<WarningFields>() == 24);

const _: () = prove!(align_of::<WarningFields>() == 8);

const _: () = prove!(size_of::<WarningsAnswer>() == 32);

const _: () = prove!(align_of::<WarningsAnswer>() == 8);

impl WarningsAnswer {
    /// The answer with this status and value, if there are no warnings.
    pub(crate) fn silent(status: u32, value: usize) -> WarningsAnswer
        ensures { result ≡ spec.silent status value }
    {
        WarningsAnswer {
            status,
            value,
            count: 0,
            written: 0,
        }
    }
}

/// Adds a warning about a text of `len` bytes, unless the warning is allowed. An `Err` says that
/// memory ran out.
pub fn push_warning(
    nodes_reported: &mut Vec<WarningFields>,
    level: Level,
    warning: Warning,
    len: usize,
) -> Result<(), AllocError>
    ensures { OnOk result (nodes_reported.new.items ≡ nodes_reported.old.items ++ spec.reported_at level len warning) }
{
    match level {
        Level::Allowed => Ok(()),
        Level::Warned | Level::Denied => {
            nodes_reported.push(fields(warning, len))?;
            Ok(())
        }
    }
}

// A warning is about the text as a whole.
fn fields(warning: Warning, len: usize) -> WarningFields
    ensures { result ≡ spec.fields_of len warning }
{
    WarningFields {
        code: warning_number(warning),
        start: 0,
        end: len,
    }
}

/// The number of a warning in `examples/timefd.h`.
fn warning_number(warning: Warning) -> u32
    ensures { result ≡ spec.warning_number warning }
{
    match warning {
        Warning::NoComponent => 1,
        Warning::OtherLanguage => 2,
        Warning::MonthForMinute => 3,
        Warning::MinuteForMonth => 4,
        Warning::HourWithoutPeriod => 5,
        Warning::PeriodWithHour24 => 6,
        Warning::SubsecondWithoutSecond => 7,
        Warning::WeekWithCalendarYear => 8,
        Warning::DateWithIsoYear => 9,
        Warning::ShownTwice => 10,
        Warning::UndeterminedDate => 11,
        Warning::UnsettledWidth => 12,
        Warning::UnsettledYear => 13,
        Warning::DeprecatedComponent => 14,
    }
}
