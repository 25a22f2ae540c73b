//! Examples of what was read and is written, and of what was read but can't be written.

ghost use Rattle.timefd_laws.specs.Reading.WrittenExamples.{LeftOutExample, LongYearExample, NeedsAllRead};
ghost use Rattle.timefd_laws.specs.Reading.WrittenExamples.{OptionalExample, WrittenExample};

/// A year that was read with a plus is written without it.
pub fn written_example()
    ensures { WrittenExample }
{}

/// An optional part that is written was read.
pub fn optional_example()
    ensures { OptionalExample }
{}

/// An optional part that was left out of the text can't be written: the moment has no time of day.
pub fn left_out_example()
    ensures { LeftOutExample }
{}

/// A year of five digits was read, and an optional part that shows four digits was left out. That can't be
/// written, although the fields that are read are the fields that are written.
pub fn long_year_example()
    ensures { LongYearExample }
{}

/// Not every moment that was read can be written, even if the fields that are read are the fields that are
/// written.
pub fn needs_all_read()
    ensures { NeedsAllRead }
{}
