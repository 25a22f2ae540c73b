//! Laws that hold for reading.

ghost use Rattle.timefd_date_moment.specs.Fields.Laws.{ReadsEnded, ReadsFilled, ReadsFronts, ReadsNames, ReadsSigned, ReadsUnsigned};
ghost use Rattle.timefd_date_moment.specs.Fields.Relations.{ReadsExactly};

/// A description reads the start of the text, and a fault begins within the text.
#[tactic(auto, using(crate::proofs::FieldsLemmas::FrontLemmas::reads_fronts))]
pub fn reads_fronts()
    ensures { ReadsFronts }
{}

/// A number that was written with zeros to its width is read back, whatever follows it.
#[tactic(auto, using(crate::proofs::FieldsLemmas::BackLemmas::reads_filled))]
pub fn reads_filled()
    ensures { ReadsFilled }
{}

/// A name is read back as its index in the list, whatever follows it.
#[tactic(auto, using(crate::proofs::FieldsLemmas::BackLemmas::reads_names))]
pub fn reads_names()
    ensures { ReadsNames }
{}

/// Whatever is returned can be read this way, and whatever can be read this way is returned.
pub fn reads_exactly()
    ensures { ReadsExactly }
{}

/// A number that was padded to its width, or not at all, is read back if no digit follows it.
pub fn reads_ended()
    ensures { ReadsEnded }
{}

/// A number that was written after its sign is read back if no digit follows it.
pub fn reads_signed()
    ensures { ReadsSigned }
{}

/// A number without a sign is read back too, if no sign is mandatory.
pub fn reads_unsigned()
    ensures { ReadsUnsigned }
{}
