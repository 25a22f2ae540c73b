//! Rules about modifiers: the first bad one decides.

ghost use Rattle.timefd_laws.specs.Modifiers.{UnknownKey, RepeatedKey, BadValue, MissingCount, UselessKey, GoodComponent, LastCounts};

/// A key that the name doesn't have is reported, whatever its value is. `first` has no keys.
pub fn an_unknown_key_is_reported()
    ensures { UnknownKey }
{}

/// In version 3 a repeated key is reported, whatever its value is.
pub fn a_repeated_key_is_reported_before_its_value_in_version_three()
    ensures { RepeatedKey }
{}

/// A value that the key can't be set to is reported.
pub fn a_bad_value_is_reported()
    ensures { BadValue }
{}

/// `ignore` without a modifier lacks its `count`, which is reported at the name.
pub fn a_missing_count_is_reported_at_the_name()
    ensures { MissingCount }
{}

/// In version 3 a key that the component has no use for is reported at the key.
pub fn a_key_of_no_use_is_reported_in_version_three()
    ensures { UselessKey }
{}

/// If no rule is broken, a component is what its modifiers set.
pub fn a_component_is_what_its_modifiers_set()
    ensures { GoodComponent }
{}

/// In versions 1 and 2 a modifier makes no difference if its key is set again after it.
pub fn the_last_modifier_of_a_key_counts_before_version_three()
    ensures { LastCounts }
{}
