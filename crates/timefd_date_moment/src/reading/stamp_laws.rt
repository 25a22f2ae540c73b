//! Laws about the values of fields with a timestamp.

ghost use Rattle.timefd_date_moment.specs.Reading.StampLaws.{InstantBack, MomentBack, StampedDateBack, StampedInstantBack, StampedMomentBack, StampedTimeBack};

/// If everything was read from one moment, the resulting date is that of the moment.
pub fn stamped_date_back()
    ensures { StampedDateBack }
{}

/// If everything was read from one moment, the resulting time of day is that of the moment.
pub fn stamped_time_back()
    ensures { StampedTimeBack }
{}

/// If everything was read from one moment, the result is that moment.
pub fn stamped_moment_back()
    ensures { StampedMomentBack }
{}

/// If everything was read from one moment, the resulting instant is that of the moment.
pub fn stamped_instant_back()
    ensures { StampedInstantBack }
{}

/// Without a timestamp, the instant is that of the date, the time and the offset that the fields
/// determine.
pub fn instant_back()
    ensures { InstantBack }
{}

/// Without a timestamp, the moment has each part that something was read of, if the fields determine
/// it.
pub fn moment_back()
    ensures { MomentBack }
{}
