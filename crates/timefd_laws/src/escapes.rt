//! Rules about runs, escapes and closing brackets.

ghost use Rattle.timefd_laws.specs.Escapes.{RunIsLiteral, BackslashInVersionOne, DoubledBracket, EscapedByte, EscapeWanted, EscapeWantedAtTheEnd, ClosingIsLiteral, ClosingWantsEscape};

/// A run means the literal of its bytes.
pub fn a_run_is_its_literal()
    ensures { RunIsLiteral }
{}

/// In version 1 a backslash is a byte of a run.
pub fn a_backslash_is_a_byte_of_a_run_in_version_one()
    ensures { BackslashInVersionOne }
{}

/// In version 1 `[[` means the literal `[`, at any depth.
pub fn a_doubled_bracket_is_one_in_version_one()
    ensures { DoubledBracket }
{}

/// In versions 2 and 3 a backslash and then `\`, `[` or `]` mean the literal of the second byte.
pub fn a_backslash_escapes_from_version_two()
    ensures { EscapedByte }
{}

/// A backslash before any other byte is reported at that byte.
pub fn a_bad_escape_is_reported_after_its_backslash()
    ensures { EscapeWanted }
{}

/// A backslash at the end is reported at the backslash.
pub fn a_backslash_at_the_end_is_reported_where_it_stands()
    ensures { EscapeWantedAtTheEnd }
{}

/// In versions 1 and 2 a `]` outside of brackets means the literal `]`.
pub fn a_closing_bracket_is_its_literal_before_version_three()
    ensures { ClosingIsLiteral }
{}

/// In version 3 a `]` outside of brackets has to be escaped.
pub fn a_closing_bracket_wants_an_escape_in_version_three()
    ensures { ClosingWantsEscape }
{}
