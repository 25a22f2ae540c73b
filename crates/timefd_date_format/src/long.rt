//! Texts of any length over the front of a buffer: the length is found first.

ghost use Rattle.std.specs.Prelude.{Ok, map};
ghost use Rattle.timefd_lang_component.specs.Tree.{trees};
ghost use Rattle.timefd_date_format.specs.Fronts.{IsFront, IsLen};
ghost use Rattle.timefd_date_format.specs.Written.{written_all};
ghost use Rattle.timefd_lang_node_list.specs.LeafMeaning.{leaf_tree};

use crate::leaves::write_leaves;
use crate::len::text_len;
use crate::write::FormatError;
use timefd_date_moment::Moment;
use timefd_lang_node_list::Leaf;

/// Writes the moment by components and literals, one after another, over the front of the buffer, and returns
/// the length of the text in bytes.
#[inline(never)]
#[tactic(auto, using(crate::proofs::LongLemmas::none_shown))]
pub(crate) fn write_long(
    moment: &Moment,
    leaves: &[Leaf<'_>],
    buffer: &mut [u8],
) -> Result<usize, FormatError>
    ensures { IsFront (written_all moment.now (trees (map leaf_tree leaves.now))) buffer.old
        buffer.new result }
{
    match text_len(moment, leaves) {
        Ok(len) => write_counted(moment, leaves, len, buffer),
        Err(unshown) => Err(FormatError::Unshown(unshown)),
    }
}

/// Writes a text whose length is known.
#[tactic(auto, using(crate::proofs::LongLemmas::too_short, crate::proofs::LongLemmas::exact))]
fn write_counted(
    moment: &Moment,
    leaves: &[Leaf<'_>],
    len: usize,
    buffer: &mut [u8],
) -> Result<usize, FormatError>
    requires { IsLen (written_all moment.now (trees (map leaf_tree leaves.now))) (Ok len) }
    ensures { IsFront (written_all moment.now (trees (map leaf_tree leaves.now))) buffer.old
        buffer.new result }
{
    if len > buffer.len() {
        return Err(FormatError::Room);
    }
    let _ = write_leaves(*moment, leaves, &mut buffer[..len]);
    Ok(len)
}
