//! Laws about a moment that was read from a text and is written again.

ghost use Rattle.timefd_laws.specs.Reading.Again.{FieldsAgain, PartsRead, ShowsBack};

/// A description without optional parts and alternatives reads everything that it writes, and nothing else.
pub fn parts_read()
    ensures { PartsRead }
{}

/// For a moment that was read, a settled description writes a text that it reads as the fields of that
/// moment.
pub fn fields_again()
    ensures { FieldsAgain }
{}

/// For a moment that was read, a settled description writes a text that gives the same moment again. That
/// holds for timestamps too: before 1970, with the digits of a second, and with an offset that was read.
pub fn shows_back()
    ensures { ShowsBack }
{}
