//! Rules about nested descriptions.

ghost use Rattle.timefd_laws.specs.Nests.{WhiteWanted, ComponentsNestNothing, UnknownNamesNestNothing, OneOptionalAtMost, OneOptionalAtLeast, OptionalInVersionThreeAlone, GoodOptional, FirstInVersionThreeAlone, OneAlternativeAtLeast, GoodFirst};

/// White bytes are needed before the first nested description. This is checked before anything else.
pub fn white_is_wanted_before_nested_descriptions()
    ensures { WhiteWanted }
{}

/// A component nests nothing. This is checked before its modifiers.
pub fn components_nest_nothing()
    ensures { ComponentsNestNothing }
{}

/// If the name is unknown, a nested description is also reported first.
pub fn an_unknown_name_is_reported_after_what_it_nests()
    ensures { UnknownNamesNestNothing }
{}

/// If `optional` nests more than one description, that is reported at the first one.
pub fn optional_nests_one_at_most()
    ensures { OneOptionalAtMost }
{}

/// If `optional` nests nothing, that is reported at the closing bracket.
pub fn optional_nests_one_at_least()
    ensures { OneOptionalAtLeast }
{}

/// In versions 1 and 2 an `optional` that breaks no other rule is refused, at the bracket.
pub fn a_good_optional_is_refused_before_version_three()
    ensures { OptionalInVersionThreeAlone }
{}

/// In version 3 `optional` means an optional item: the tree of its only nested description.
pub fn optional_is_what_it_nests_in_version_three()
    ensures { GoodOptional }
{}

/// In versions 1 and 2 a `first` without modifiers is refused, at the bracket, whatever it nests.
pub fn first_is_refused_before_version_three()
    ensures { FirstInVersionThreeAlone }
{}

/// In version 3, if `first` nests nothing, that is reported at the closing bracket.
pub fn first_nests_one_at_least_in_version_three()
    ensures { OneAlternativeAtLeast }
{}

/// In version 3 `first` means the trees of its nested descriptions, in order, as alternatives.
pub fn first_is_what_it_nests_in_version_three()
    ensures { GoodFirst }
{}
