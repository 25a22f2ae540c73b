//! Laws about the values of texts with a timestamp that were written and are read.

ghost use Rattle.timefd_laws.specs.Reading.StampedValues.{StampedDateReadBack, StampedInstantReadBack};
ghost use Rattle.timefd_laws.specs.Reading.StampedValues.{StampedMomentReadBack, StampedTimeReadBack};

/// With a timestamp, the date that a text gives is the one that was written.
pub fn stamped_date_read_back()
    ensures { StampedDateReadBack }
{}

/// With a timestamp, the time of day that a text gives is the one that was written.
pub fn stamped_time_read_back()
    ensures { StampedTimeReadBack }
{}

/// With a timestamp, the moment that a text gives is the one that was written.
pub fn stamped_moment_read_back()
    ensures { StampedMomentReadBack }
{}

/// With a timestamp, the instant that a text gives is the one that was written.
pub fn stamped_instant_read_back()
    ensures { StampedInstantReadBack }
{}
