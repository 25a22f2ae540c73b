//! Literals, components and lists, added one after another as nodes.

ghost use Rattle.std.specs.Prelude.{◌≡◌, ◌∷◌, ◌++◌, ◌≤◌, [], IfOk, IsOk, OnOk, length};
ghost use Rattle.timefd_parse.specs.Tree as spec;
ghost use Rattle.timefd_parse.specs.Tree.{pack};
ghost use Rattle.timefd_description.specs.Modern.{modern_tree};
ghost use Rattle.timefd_items.specs.Builder.{built};
ghost use Rattle.timefd_items.specs.Description.{description_tree};
ghost use Rattle.timefd_lang_node_list.specs.Nodes.{before, ending};

use std::alloc::AllocError;
use timefd_items::{DescriptionBuilder, FormatDescriptionV3};

/// All that was built, as one description. An `Err` says that memory ran out, or that the bytes
/// that it may write don't fit a `usize`.
pub fn finished(builder: DescriptionBuilder<'_>) -> Result<FormatDescriptionV3<'_>, AllocError>
    ensures ok { IfOk result (λ d. description_tree d ≡ pack (built builder.entry)) }
    ensures empty { built builder.entry ≡ [] → IsOk result }
{
    if builder.fits(builder.len()) {
        builder.finish()
    } else {
        Err(AllocError)
    }
}

/// Packs the last `count` trees into one. It fails where `finished` fails.
pub fn pack_last(builder: &mut DescriptionBuilder<'_>, count: usize) -> Result<(), AllocError>
    requires { count ≤ length (built builder.old) }
    ensures { OnOk result (built builder.new ≡ before count (built builder.old)
        ++ pack (ending count (built builder.old)) ∷ []) }
{
    if builder.fits(count) {
        builder.pack(count)
    } else {
        Err(AllocError)
    }
}
