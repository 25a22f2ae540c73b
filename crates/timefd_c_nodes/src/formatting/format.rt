//! The public function.

ghost use Rattle.std.specs.Prelude.{◌≡◌, ◌<◌, ◌≤◌, ◌++◌, Err, None, Ok, Some, drop, length};
ghost use Rattle.timefd_c_nodes.specs.Formatting.Nodes as spec;
ghost use Rattle.timefd_c_nodes.specs.Formatting.Nodes.{node_trees};
ghost use Rattle.timefd_c_nodes.specs.Formatting.Texts.{ShowsNodes};
ghost use Rattle.timefd_lang_component.specs.Tree.{Text, trees};
ghost use Rattle.timefd_date_format.specs.Fronts.{IsLen};
ghost use Rattle.timefd_date_format.specs.Written.{written_all};
ghost use Rattle.std.specs.Prelude.{ℕ};

use crate::RawNode;
use crate::formatting::fault::node_fault;
use crate::formatting::len::text_len;
use crate::formatting::short::format_short;
use crate::formatting::write::write_nodes;
use timefd_date_format::Unshown;
use timefd_date_moment::Moment;

/// How long the text of nodes is, and how many bytes of it were written.
#[derive(Debug, Clone, Copy)]
pub struct NodesText {
    /// The length of the text in bytes, at most `usize::MAX`.
    pub len: usize,
    /// How many bytes were written: all of the text, or nothing.
    pub written: usize,
}

/// Why nodes write nothing.
#[derive(Debug, Clone, Copy)]
pub enum NodesError {
    /// The node with this index is the first one that is not part of a description.
    NoDescription(usize),
    /// A component shows nothing of the moment. It is the first one that does.
    Unshown(Unshown),
}

/// Writes the moment by nodes to the front of the buffer if all that they write fits. Otherwise,
/// and after an `Err`, the buffer is unchanged. It takes no memory.
pub fn format_nodes(
    nodes: &[RawNode],
    literals: &[u8],
    moment: Moment,
    buffer: &mut [u8],
) -> Result<NodesText, NodesError>
    ensures no_description { (at : ℕ) → spec.node_fault literals.now nodes.now ≡ Some at
        → (result ≡ Err (NodesError.NoDescription at)) × (buffer.new ≡ buffer.old) }
    ensures shows { spec.node_fault literals.now nodes.now ≡ None
        → ShowsNodes (written_all moment (trees (node_trees literals.now nodes.now))) buffer.old
        buffer.new result }
{
    match format_short(&moment, nodes, literals, buffer) {
        Some(text) => Ok(text),
        None => format_long(moment, nodes, literals, buffer),
    }
}

/// Does what `format_nodes` does, however long the text is. An error is found before anything is
/// written.
fn format_long(
    moment: Moment,
    nodes: &[RawNode],
    literals: &[u8],
    buffer: &mut [u8],
) -> Result<NodesText, NodesError>
    ensures no_description { (at : ℕ) → spec.node_fault literals.now nodes.now ≡ Some at
        → (result ≡ Err (NodesError.NoDescription at)) × (buffer.new ≡ buffer.old) }
    ensures shows { spec.node_fault literals.now nodes.now ≡ None
        → ShowsNodes (written_all moment (trees (node_trees literals.now nodes.now))) buffer.old
        buffer.new result }
{
    match node_fault(nodes, literals) {
        Some(at) => Err(NodesError::NoDescription(at)),
        None => format_counted(moment, nodes, literals, buffer),
    }
}

/// Does the same for nodes that are a description. It finds the length of the text first.
#[tactic(auto, using(crate::proofs::FormattingLemmas::WriteLemmas::shows, crate::proofs::FormattingLemmas::WriteLemmas::shows_none))]
fn format_counted(
    moment: Moment,
    nodes: &[RawNode],
    literals: &[u8],
    buffer: &mut [u8],
) -> Result<NodesText, NodesError>
    requires { spec.node_fault literals.now nodes.now ≡ None }
    ensures { ShowsNodes (written_all moment (trees (node_trees literals.now nodes.now))) buffer.old
        buffer.new result }
{
    match text_len(moment, nodes, literals) {
        Ok(len) => {
            let written = write_front(moment, nodes, literals, len, buffer);
            Ok(NodesText { len, written })
        }
        Err(unshown) => Err(NodesError::Unshown(unshown)),
    }
}

/// Writes what nodes show to the front of the buffer if all of it fits, and returns how many bytes
/// were written.
#[tactic(auto, using(crate::proofs::FormattingLemmas::WriteLemmas::len_is, crate::proofs::FormattingLemmas::WriteLemmas::len_short, crate::proofs::FormattingLemmas::WriteLemmas::front_written))]
fn write_front(
    moment: Moment,
    nodes: &[RawNode],
    literals: &[u8],
    len: usize,
    buffer: &mut [u8],
) -> usize
    requires sound { spec.node_fault literals.now nodes.now ≡ None }
    requires len { IsLen (written_all moment (trees (node_trees literals.now nodes.now))) (Ok len) }
    ensures whole { (text : Text)
        → written_all moment (trees (node_trees literals.now nodes.now)) ≡ Ok text
        → length text ≤ length buffer.old
        → (buffer.new ≡ text ++ drop (length text) buffer.old) × (result ≡ length text) }
    ensures too_short { (text : Text)
        → written_all moment (trees (node_trees literals.now nodes.now)) ≡ Ok text
        → length buffer.old < length text → (buffer.new ≡ buffer.old) × (result ≡ 0) }
{
    if buffer.len() < len {
        return 0;
    }
    let _ = write_nodes(moment, nodes, literals, &mut buffer[..len]);
    len
}
