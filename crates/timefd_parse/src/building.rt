//! What is built from the pieces of a text: trees, for version 3. A reader that doesn't build adds
//! none. Texts of versions 1 and 2, which refuse every nested description, are read that way, and
//! so is a text of version 3 that is only checked.

ghost use Rattle.std.specs.Prelude.{◌≡◌, ◌≤◌, ◌∷◌, [], Bool, List, length, IsFalse, IsOk, IsTrue, OnOk};
ghost use Rattle.timefd_items.specs.Builder.{built};
ghost use Rattle.timefd_lang_node_list.specs.Nodes.{ending};
ghost use Rattle.timefd_lang_component.specs.Reserved.{reserve_all};
ghost use Rattle.timefd_lang_component.specs.Tree as spec;
ghost use Rattle.timefd_lang_component.specs.Tree.{Tree, trees};
ghost use Rattle.timefd_parse.specs.Pieces.{IsBuilt, IsPiece};

use crate::piece::Piece;
use std::alloc::AllocError;
use timefd_items::DescriptionBuilder;

/// Adds a piece after what is built.
#[inline(always)]
pub fn add<'a, const BUILDS: bool>(
    builder: &mut DescriptionBuilder<'a>,
    piece: Piece<'a>,
) -> Result<(), AllocError>
    ensures built { (strict : Bool) (base : List Tree) (tree : Tree)
        → IsPiece strict BUILDS base (built builder.old) piece.entry tree
        → OnOk result (IsBuilt BUILDS base (built builder.new) (tree ∷ [])) }
    ensures memory { IsFalse BUILDS → IsOk result }
{
    if !BUILDS {
        return Ok(());
    }
    match piece {
        Piece::Literal(text) => builder.literal(text),
        Piece::Component(component, _) => builder.component(component),
        Piece::Compound => Ok(()),
    }
}

/// Packs the last `count` pieces, which are a nested description.
pub fn pack<'a, const BUILDS: bool>(
    builder: &mut DescriptionBuilder<'a>,
    count: usize,
) -> Result<(), AllocError>
    requires there { IsTrue BUILDS → count ≤ length (built builder.old) }
    requires fits { IsTrue BUILDS
        → reserve_all (trees (ending count (built builder.old))) ≤ usize.MAX }
    ensures built { (base list : List Tree)
        → IsBuilt BUILDS base (built builder.old) list → count ≡ length list
        → OnOk result (IsBuilt BUILDS base (built builder.new) (spec.pack list ∷ [])) }
    ensures memory { IsFalse BUILDS → IsOk result }
{
    if !BUILDS {
        return Ok(());
    }
    builder.pack(count)
}
