//! What holds for the definitions.

ghost use Rattle.timefd_lang_fault.specs.Laws.{FaultEquality};

/// `==` compares the variants and the fields of faults.
pub fn fault_equality()
    ensures { FaultEquality }
{}
