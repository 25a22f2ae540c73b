//! Rules about brackets that go wrong before they are closed, and about where a fault is reported.

ghost use Rattle.timefd_laws.specs.Brackets.{NameWanted, NameWantedAfterWhite, ColonWanted, KeyWanted, ValueWanted, Unclosed, CutOff, TooDeep, FaultInside, UnclosedInside, OutermostUnclosed, RefusedBracket, FaultAfterPieces};

/// A bracket without a name is reported at the bracket.
pub fn a_missing_name_is_reported_at_the_bracket()
    ensures { NameWanted }
{}

/// If there are white bytes in it, that is reported one byte further on, however many there are.
pub fn a_missing_name_after_white_is_reported_one_byte_further()
    ensures { NameWantedAfterWhite }
{}

/// The word of a modifier without a colon is reported whole.
pub fn a_word_without_a_colon_is_reported_whole()
    ensures { ColonWanted }
{}

/// An empty key is reported where its word begins.
pub fn an_empty_key_is_reported_where_its_word_begins()
    ensures { KeyWanted }
{}

/// An empty value is reported at the colon.
pub fn an_empty_value_is_reported_at_the_colon()
    ensures { ValueWanted }
{}

/// A bracket where neither `[` nor `]` follows is reported as unclosed.
pub fn an_unclosed_bracket_is_reported()
    ensures { Unclosed }
{}

/// A bracket whose nested description is cut off by the end of the text is reported as unclosed.
pub fn a_bracket_cut_off_inside_is_reported_as_unclosed()
    ensures { CutOff }
{}

/// A description that is nested deeper than the limit is reported at its `[`, whatever it holds.
pub fn one_nested_description_too_deep_is_reported_at_its_bracket()
    ensures { TooDeep }
{}

/// A fault in a nested description is reported at its own position, before anything that is wrong
/// with the bracket itself.
pub fn a_fault_inside_is_reported_where_it_stands()
    ensures { FaultInside }
{}

/// An unclosed bracket in a nested description is reported at the bracket around it.
pub fn an_unclosed_bracket_inside_is_reported_at_the_one_around_it()
    ensures { UnclosedInside }
{}

/// An unclosed bracket is reported at a `[` outside of all nested descriptions.
pub fn an_unclosed_bracket_is_reported_at_the_outermost_one()
    ensures { OutermostUnclosed }
{}

/// A closed bracket has the fault of the first rule that it breaks.
pub fn a_closed_bracket_has_the_fault_of_its_rules()
    ensures { RefusedBracket }
{}

/// The fault of what follows pieces is the fault of the text, shifted by the length of the pieces.
pub fn a_fault_after_pieces_is_further_on()
    ensures { FaultAfterPieces }
{}
