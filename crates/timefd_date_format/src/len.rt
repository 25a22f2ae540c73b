//! How long a text is, even if it fits no buffer.

ghost use Rattle.std.specs.Prelude.{◌≡◌, Result, length, map};
ghost use Rattle.timefd_lang_component.specs.Tree.{Text, trees};
ghost use Rattle.timefd_date_format.specs.Fronts.{IsLen};
ghost use Rattle.timefd_date_format.specs.Written.{followed, shown, written, written_all};
ghost use Rattle.timefd_lang_node_list.specs.LeafMeaning.{leaf_tree};

use crate::field::Unshown;
use crate::write::{FormatError, write_component};
use timefd_date_moment::Moment;
use timefd_lang_component::Component;
use timefd_lang_node_list::Leaf;

// No component writes more bytes than this.
const MOST: usize = 32;

/// How many bytes components and literals write, at most `usize::MAX`. An `Err` names the first component
/// that shows nothing.
pub(crate) fn text_len(moment: &Moment, leaves: &[Leaf<'_>]) -> Result<usize, Unshown>
    ensures { IsLen (written_all moment.now (trees (map leaf_tree leaves.now))) result }
{
    let mut len = Ok(0);
    let mut left = leaves.len();
    'leaves: while left > 0 {
        left -= 1;
        len = len_of_both(leaf_len(moment, leaves[left]), len);
    }
    len
}

/// The length of a text and of what follows it, at most `usize::MAX`. The first `Err` counts.
#[tactic(auto, using(crate::proofs::LenLemmas::both_counted, crate::proofs::LenLemmas::after_unshown, crate::proofs::LenLemmas::first_unshown))]
pub fn len_of_both(
    text: Result<usize, Unshown>,
    rest: Result<usize, Unshown>,
) -> Result<usize, Unshown>
    ensures { (x : Result Text Unshown) → (y : Result Text Unshown) → IsLen x text → IsLen y rest
        → IsLen (followed x y) result }
{
    match text {
        Ok(text) => match rest {
            Ok(rest) => Ok(text.saturating_add(rest)),
            Err(unshown) => Err(unshown),
        },
        Err(unshown) => Err(unshown),
    }
}

fn leaf_len(moment: &Moment, leaf: Leaf<'_>) -> Result<usize, Unshown>
    ensures { IsLen (written moment.now (leaf_tree leaf.entry)) result }
{
    match leaf {
        Leaf::Literal(text) => Ok(text.len()),
        Leaf::Component(component) => component_len(*moment, component),
    }
}

/// How many bytes a component shows of the moment. An `Err` says why it shows nothing.
pub fn component_len(moment: Moment, component: Component) -> Result<usize, Unshown>
    ensures { IsLen (shown moment component) result }
{
    len_in(moment, component, &mut [0; MOST])
}

/// Counts by writing the component in a buffer that is long enough for any of them.
#[tactic(auto, using(crate::proofs::LenLemmas::counted_alone, crate::proofs::LenLemmas::unshown_alone))]
fn len_in(moment: Moment, component: Component, buffer: &mut [u8]) -> Result<usize, Unshown>
    requires { length buffer.old ≡ 32 }
    ensures { IsLen (shown moment component) result }
{
    match write_component(moment, component, buffer) {
        Ok(at) => Ok(MOST - at),
        Err(FormatError::Unshown(unshown)) => Err(unshown),
        Err(FormatError::Room) => unreachable!(),
    }
}
