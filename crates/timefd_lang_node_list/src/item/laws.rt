//! The laws of the definitions.

ghost use Rattle.timefd_lang_node_list.specs.Item.Laws.{TreeEquality};

/// Two items are equal exactly if their trees are.
pub fn tree_equality()
    ensures { TreeEquality }
{}
