//! Laws about texts that were written and are read.

ghost use Rattle.timefd_laws.specs.Reading.Laws.{ComponentBack, ReadsBack};

/// The text that is written for a component is read back, and nothing after it. The fields are those of the
/// moment.
pub fn component_back()
    ensures { ComponentBack }
{}

/// The text that is written for a settled description is read back. The fields are those that the description
/// shows, with the values of the moment.
pub fn reads_back()
    ensures { ReadsBack }
{}
