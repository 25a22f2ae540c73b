//! What holds for nodes.

ghost use Rattle.timefd_c_nodes.specs.Laws.{ReadBack};
ghost use Rattle.timefd_c_nodes.specs.Numbers.{ComponentNumbers, KindNumbers, ModifierNumbers};

/// The nodes and literals of trees read as these trees.
pub fn read_back()
    ensures { ReadBack }
{}

/// The numbers of the kinds of nodes are those of `examples/timefd.h`.
pub fn kind_numbers()
    ensures { KindNumbers }
{}

/// The numbers of components are those of `examples/timefd.h`.
pub fn component_numbers()
    ensures { ComponentNumbers }
{}

/// The numbers of modifiers' values are those of `examples/timefd.h`.
pub fn modifier_numbers()
    ensures { ModifierNumbers }
{}
