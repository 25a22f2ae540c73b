//! What holds for the lists of composite letters.

ghost use Rattle.timefd_c_nodes.specs.Reading.Composites.{ListsStand};

/// `COMPOSITES` spells the items of all composite letters, and the list of each letter is among
/// their parts where the one node of the letter says.
pub fn lists_stand()
    ensures { ListsStand }
{}
