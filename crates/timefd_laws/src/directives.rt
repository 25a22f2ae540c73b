//! Rules about strftime.

ghost use Rattle.timefd_laws.specs.Directives.{PlainIsLiteral, LetterIsItem, LetterWanted, LetterWantedAfterFlag, ModifierO, LetterZ, UnknownLetter};

/// A run means the literal of its bytes.
pub fn a_plain_run_is_its_literal()
    ensures { PlainIsLiteral }
{}

/// A `%`, a flag and a letter of the table mean the letter's item.
pub fn a_letter_is_its_item()
    ensures { LetterIsItem }
{}

/// A `%` at the end is reported at the `%`.
pub fn a_percent_at_the_end_is_reported_where_it_stands()
    ensures { LetterWanted }
{}

/// A `%` and a flag at the end are reported one byte after the flag.
pub fn a_flag_at_the_end_is_reported_one_byte_after_it()
    ensures { LetterWantedAfterFlag }
{}

/// `O` instead of a letter is reported as a modifier that isn't supported.
pub fn the_modifier_o_is_reported_as_not_supported()
    ensures { ModifierO }
{}

/// `Z` instead of a letter is reported as a component that isn't supported.
pub fn the_letter_z_is_reported_as_not_supported()
    ensures { LetterZ }
{}

/// Any other byte instead of a letter is reported as the unknown name of a component, at that byte.
pub fn an_unknown_letter_is_reported_by_its_byte()
    ensures { UnknownLetter }
{}
