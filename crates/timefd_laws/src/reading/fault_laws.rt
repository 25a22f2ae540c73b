//! Laws about texts that can't be read: which part of the description stops, and where.

ghost use Rattle.timefd_laws.specs.Reading.Faults.{FaultsExactly, FieldsExactly, OneAnswer};
ghost use Rattle.timefd_laws.specs.Reading.ValueFaults.{ErrorsNameRead};

/// The error is the fault of the text: everything before its byte index is read, and there the description
/// stops for the reason of the error, or has ended.
pub fn faults_exactly()
    ensures { FaultsExactly }
{}

/// The fields that reading returns are those that the whole text is read as.
pub fn fields_exactly()
    ensures { FieldsExactly }
{}

/// Each text is read as exactly one list of fields, or has exactly one fault, never both.
pub fn one_answer()
    ensures { OneAnswer }
{}

/// The error of a date, a time of day, an offset or a moment names the right part: a missing part wasn't
/// read, and a contradicting part was.
pub fn errors_name_read()
    ensures { ErrorsNameRead }
{}
