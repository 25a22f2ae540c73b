//! What holds of all formats: each law is the contract of a function with an empty body.

ghost use Rattle.timefd_lang_component.specs.Tree.{Text};
ghost use Rattle.timefd_lang_dialect.specs.Laws.{OneAnswer, OneFormat, OneListOfPieces, OneListOfTraps};
ghost use Rattle.timefd_lang_dialect.specs.declared.dialect.Dialect.{Dialect};

/// A format has one meaning, or is refused for one reason at one index, but not both.
pub fn one_answer()
    ensures { (dialect : Dialect) (text : Text) → OneAnswer dialect text }
{}

/// `pieces_of`, by which it is decided which dialects read a text, finds the pieces that the text
/// means, and none if a part of the text is refused.
pub fn one_list_of_pieces()
    ensures { (dialect : Dialect) (text : Text) → OneListOfPieces dialect text }
{}

/// A format has at most one list of traps; `traps` returns it.
pub fn one_list_of_traps()
    ensures { (dialect : Dialect) (text : Text) → OneListOfTraps dialect text }
{}

/// A text of version 3 asks for one format at most, and `Merged` isn't the answer if the dialect
/// reads that format as just this text.
pub fn one_format()
    ensures { (dialect : Dialect) (description : Text) → OneFormat dialect description }
{}
