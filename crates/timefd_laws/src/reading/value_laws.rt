//! Laws about the values of texts that were written and are read.

ghost use Rattle.timefd_laws.specs.Reading.Values.{DateReadBack, InstantReadBack, MomentReadBack, OffsetReadBack, TimeReadBack};

/// The date that a text gives is the one that was written, if the text determines one.
pub fn date_read_back()
    ensures { DateReadBack }
{}

/// The time of day that a text gives is the one that was written, if the text determines one.
pub fn time_read_back()
    ensures { TimeReadBack }
{}

/// The offset that a text gives is the one that was written, if the text determines one.
pub fn offset_read_back()
    ensures { OffsetReadBack }
{}

/// The instant that a text gives is the one that was written, if the text determines one.
pub fn instant_read_back()
    ensures { InstantReadBack }
{}

/// Each part of the moment that a text gives is the one that was written.
pub fn moment_read_back()
    ensures { MomentReadBack }
{}
