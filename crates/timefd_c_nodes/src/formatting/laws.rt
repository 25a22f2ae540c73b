//! What holds for nodes that are written.

ghost use Rattle.timefd_c_nodes.specs.Formatting.Laws.{WrittenAreSound};

/// Each of the nodes that `timefd_c_nodes` writes for trees is part of a description.
pub fn written_are_sound()
    ensures { WrittenAreSound }
{}
