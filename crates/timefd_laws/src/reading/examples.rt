//! Examples. They show that the premises of the laws can be met.

ghost use Rattle.timefd_laws.specs.Reading.Examples.{AgainExample, DateExample, OffsetExample, TimeExample};
ghost use Rattle.timefd_laws.specs.Reading.Examples.{StampAgainExample, StampExample};

/// A date is written, and read back.
pub fn date_example()
    ensures { DateExample }
{}

/// A time of day is read back.
pub fn time_example()
    ensures { TimeExample }
{}

/// The sign of an offset of half an hour behind UTC is read back.
pub fn offset_example()
    ensures { OffsetExample }
{}

/// A timestamp before 1970 is read back.
pub fn stamp_example()
    ensures { StampExample }
{}

/// A date whose year was read with a plus is written without it.
pub fn again_example()
    ensures { AgainExample }
{}

/// A timestamp before 1970 that was read from "-01.50" is written as "-1.5".
pub fn stamp_again_example()
    ensures { StampAgainExample }
{}
