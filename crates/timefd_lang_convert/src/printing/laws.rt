//! What holds for the normal form: each law is the contract of a function with an empty body.

ghost use Rattle.timefd_lang_convert.specs.Printing.Laws.{PrintAlike, PrintedOnce, Printing, ReadsBack, Spelled};

/// If there is no reason against a description, its printed text spells it.
pub fn printing()
    ensures { Printing }
{}

/// There is no reason against a description that some text spells.
pub fn spelled()
    ensures { Spelled }
{}

/// The printed text of a description that was read reads as the same description.
pub fn reads_back()
    ensures { ReadsBack }
{}

/// A printed text, read and printed a second time, stays the same.
pub fn printed_once()
    ensures { PrintedOnce }
{}

/// Two texts have the same description exactly if they print alike.
pub fn print_alike()
    ensures { PrintAlike }
{}
