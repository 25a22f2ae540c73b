//! All words of the tables are distinct.

ghost use Rattle.timefd_laws.specs.Words.{NoTwoNames, NoTwoKeys, NoTwoValues, WordsWithoutCase, KeysWithCase, ValuesWithCase, NoTwoLetters};

/// No two names are the same, even if case is ignored.
pub fn no_two_names_are_the_same_without_case()
    ensures { NoTwoNames }
{}

/// No two keys of a name are the same, even if case is ignored.
pub fn no_two_keys_of_a_name_are_the_same_without_case()
    ensures { NoTwoKeys }
{}

/// No two values of a key are the same, even if case is ignored.
pub fn no_two_values_of_a_key_are_the_same_without_case()
    ensures { NoTwoValues }
{}

/// In versions 1 and 2 the case of a key or a value makes no difference.
pub fn case_makes_no_difference_to_keys_and_values_before_version_three()
    ensures { WordsWithoutCase }
{}

/// In version 3 a key is written exactly as in the table.
pub fn keys_are_written_as_in_the_table_in_version_three()
    ensures { KeysWithCase }
{}

/// In version 3 a value is written exactly as in the table.
pub fn values_are_written_as_in_the_table_in_version_three()
    ensures { ValuesWithCase }
{}

/// No byte is a letter of two rows of the table.
pub fn each_letter_stands_once()
    ensures { NoTwoLetters }
{}
