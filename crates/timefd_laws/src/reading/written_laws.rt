//! Laws about when a moment that was read can be written.

ghost use Rattle.timefd_laws.specs.Reading.ShortYears.{LacksYearsAlone, WritesShortYears};
ghost use Rattle.timefd_laws.specs.Reading.Written.{ComesBack, PlainReadsWritten, WritesAgain, WritesPlainAgain};
ghost use Rattle.timefd_laws.specs.Reading.WrittenValues.{WritesValues};

/// A description without optional parts and alternatives reads everything that it writes.
pub fn plain_reads_written()
    ensures { PlainReadsWritten }
{}

/// A moment that was read can be written if everything that is written was read: the moment has every part
/// that a component needs, and no year is too long for its component.
pub fn writes_again()
    ensures { WritesAgain }
{}

/// A moment that was read by a description without optional parts and alternatives can be written.
pub fn writes_plain_again()
    ensures { WritesPlainAgain }
{}

/// A date, a time of day and an offset that were read can be written, together or one by one.
pub fn writes_values()
    ensures { WritesValues }
{}

/// If the fields that were read are the fields that are written, whichever optional parts and alternatives
/// were read, a moment that was read has every part that is needed. The only error left is that a year is
/// too long for its component.
pub fn lacks_years_alone()
    ensures { LacksYearsAlone }
{}

/// If the fields that were read are the fields that are written, a moment whose years have at most four
/// digits can be written.
pub fn writes_short_years()
    ensures { WritesShortYears }
{}

/// For a moment that was read, a settled description writes a text that gives the same moment again.
pub fn comes_back()
    ensures { ComesBack }
{}
