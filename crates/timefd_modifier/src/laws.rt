//! The laws of `==`.

ghost use Rattle.timefd_modifier.specs.Equality.{ModifierEquality};

/// Two modifiers are `==` exactly if their variants and fields are equal.
pub fn modifier_equality()
    ensures { ModifierEquality }
{}
