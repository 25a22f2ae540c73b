//! Laws about texts that are rewritten: each is the contract of a function with an empty body.

ghost use Rattle.timefd_lift.specs.Laws.{ComponentsRead, ReadAlike, Writing, WrittenOnce};

/// Version 3 reads the text of a component as that component.
pub fn components_read()
    ensures { ComponentsRead }
{}

/// What version 2 spells, version 3 spells once it is rewritten.
pub fn writing()
    ensures { Writing }
{}

/// What version 2 spells, it spells with the same items once it is rewritten.
pub fn read_alike()
    ensures { ReadAlike }
{}

/// Rewriting a text a second time changes nothing.
pub fn written_once()
    ensures { WrittenOnce }
{}
