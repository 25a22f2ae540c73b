//! Nodes that write a short text: it is written to a buffer of its own, and copied from there.

ghost use Rattle.std.specs.Prelude.{◌≡◌, ◌≤◌, ◌<◌, ◌++◌, IfSome, None, Ok, drop, length};
ghost use Rattle.timefd_c_nodes.specs.Formatting.Nodes as spec;
ghost use Rattle.timefd_c_nodes.specs.Formatting.Nodes.{node_trees};
ghost use Rattle.timefd_c_nodes.specs.Formatting.Texts.{IsShown, ShowsNodes};
ghost use Rattle.timefd_lang_component.specs.Tree.{trees};
ghost use Rattle.timefd_date_format.specs.Written.{written_all};

use crate::RawNode;
use crate::formatting::format::NodesText;
use crate::formatting::forward::append_nodes;
use crate::formatting::write::write_nodes;
use timefd_date_moment::Moment;

// Few texts are longer.
const SHORT: usize = 128;

/// Writes the moment by nodes to the front of the buffer if all of it fits. `None` says that an
/// error was found, or that the text is too long for this; then the buffer is unchanged.
#[inline(never)]
pub(crate) fn format_short(
    moment: &Moment,
    nodes: &[RawNode],
    literals: &[u8],
    buffer: &mut [u8],
) -> Option<NodesText>
    ensures sound { IfSome result (λ _. spec.node_fault literals.now nodes.now ≡ None) }
    ensures shows { IfSome result (λ text. ShowsNodes (written_all moment.now
        (trees (node_trees literals.now nodes.now))) buffer.old buffer.new (Ok text)) }
    ensures kept { result ≡ None → buffer.new ≡ buffer.old }
{
    match format_in(moment, nodes, literals, &mut [0; SHORT], buffer) {
        Some(text) => Some(text),
        None => format_back(*moment, nodes, literals, buffer),
    }
}

/// Does the same from the last node to the first, so that nothing is written for a member that a
/// formatter leaves out.
#[inline(never)]
fn format_back(
    moment: Moment,
    nodes: &[RawNode],
    literals: &[u8],
    buffer: &mut [u8],
) -> Option<NodesText>
    ensures sound { IfSome result (λ _. spec.node_fault literals.now nodes.now ≡ None) }
    ensures shows { IfSome result (λ text. ShowsNodes (written_all moment
        (trees (node_trees literals.now nodes.now))) buffer.old buffer.new (Ok text)) }
    ensures kept { result ≡ None → buffer.new ≡ buffer.old }
{
    format_back_in(moment, nodes, literals, &mut [0; SHORT], buffer)
}

/// Does the same, with another buffer to write the text to first.
#[tactic(auto, using(crate::proofs::FormattingLemmas::ShortLemmas::copied))]
fn format_back_in(
    moment: Moment,
    nodes: &[RawNode],
    literals: &[u8],
    room: &mut [u8],
    buffer: &mut [u8],
) -> Option<NodesText>
    ensures sound { IfSome result (λ _. spec.node_fault literals.now nodes.now ≡ None) }
    ensures shows { IfSome result (λ text. ShowsNodes (written_all moment
        (trees (node_trees literals.now nodes.now))) buffer.old buffer.new (Ok text)) }
    ensures kept { result ≡ None → buffer.new ≡ buffer.old }
{
    let at = write_nodes(moment, nodes, literals, room)?;
    Some(copy_text(&room[at..], buffer))
}

/// Does the same from the first node to the last, if all members are written: another buffer is
/// written to first.
#[inline(always)]
#[tactic(auto, using(crate::proofs::FormattingLemmas::ShortLemmas::front_copied))]
fn format_in(
    moment: &Moment,
    nodes: &[RawNode],
    literals: &[u8],
    room: &mut [u8],
    buffer: &mut [u8],
) -> Option<NodesText>
    ensures sound { IfSome result (λ _. spec.node_fault literals.now nodes.now ≡ None) }
    ensures shows { IfSome result (λ text. ShowsNodes (written_all moment.now
        (trees (node_trees literals.now nodes.now))) buffer.old buffer.new (Ok text)) }
    ensures kept { result ≡ None → buffer.new ≡ buffer.old }
{
    let end = append_nodes(moment, nodes, literals, room)?;
    Some(copy_text(&room[..end], buffer))
}

/// Copies a text to the front of the buffer if all of it fits.
#[inline(always)]
#[tactic(auto, using(crate::proofs::FormattingLemmas::ShortLemmas::whole_or_none))]
fn copy_text(text: &[u8], buffer: &mut [u8]) -> NodesText
    ensures { IsShown text.now buffer.old buffer.new result }
{
    let len = text.len();
    let written = copy_front(text, buffer);
    NodesText { len, written }
}

/// Copies a text to the front of the buffer if all of it fits, and returns how many bytes were
/// written.
#[inline(always)]
fn copy_front(text: &[u8], buffer: &mut [u8]) -> usize
    ensures whole { length text.now ≤ length buffer.old
        → (buffer.new ≡ text.now ++ drop (length text.now) buffer.old) × (result ≡ length text.now) }
    ensures too_short { length buffer.old < length text.now
        → (buffer.new ≡ buffer.old) × (result ≡ 0) }
{
    if buffer.len() < text.len() {
        return 0;
    }
    buffer[..text.len()].copy_from_slice(text);
    text.len()
}
