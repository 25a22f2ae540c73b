//! The laws of the definitions.

ghost use Rattle.timefd_lang_component.specs.Laws.{ComponentEquality, ModernTwice, ReservesGreatest};

/// A modern component is its own modern form.
pub fn modern_twice()
    ensures { ModernTwice }
{}

/// A tree reserves the length of its longest rendering.
pub fn reserves_greatest()
    ensures { ReservesGreatest }
{}

/// Two components are `==` exactly if their variants and fields are equal.
pub fn component_equality()
    ensures { ComponentEquality }
{}
