//! Rules about names.

ghost use Rattle.timefd_laws.specs.Names.{OneName, UnknownName, NamesWithoutCase, NamesWithCase};

/// A word names exactly one thing, or nothing.
pub fn a_word_names_one_thing_or_none()
    ensures { OneName }
{}

/// An unknown name is reported at its start, whatever its modifiers are.
pub fn an_unknown_name_is_reported_before_its_modifiers()
    ensures { UnknownName }
{}

/// In versions 1 and 2 the case of a name makes no difference.
pub fn case_makes_no_difference_to_names_before_version_three()
    ensures { NamesWithoutCase }
{}

/// In version 3 a name is written exactly as in the table.
pub fn names_are_written_as_in_the_table_in_version_three()
    ensures { NamesWithCase }
{}
