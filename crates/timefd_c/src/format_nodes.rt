//! The function that C calls to write a moment by nodes.

ghost use Rattle.timefd_c.specs.NodeFormats.{FormatsNodes, FormatsNodesBy};

use crate::answer::ACCEPTED;
use crate::fast::write_at_once;
use crate::format_answer::{FormatAnswer, NO_DESCRIPTION};
use crate::moment::MomentFields;
use timefd_c_nodes::RawNode;
use timefd_c_nodes::formatting::{NodesError, format_nodes};
use timefd_date_moment::Moment;

/// Writes the moment by nodes, as `timefd_read` writes them, and the bytes of their literals, to
/// the front of the buffer if all that they write fits. It takes no memory.
#[unsafe(no_mangle)]
pub extern "C" fn timefd_format_nodes(
    nodes: &[RawNode],
    literals: &[u8],
    moment: &MomentFields,
    buffer: &mut [u8],
) -> FormatAnswer
    ensures formats { FormatsNodes nodes.now literals.now moment.now buffer.old buffer.new result }
{
    // Most nodes are short numbers and literals.
    if let Some(len) = write_at_once(nodes, literals, moment, buffer) {
        return FormatAnswer {
            written: len,
            ..FormatAnswer::silent(ACCEPTED, len)
        };
    }
    // The answer is taken apart, so that the quick way doesn't copy one.
    let answer = format_exactly(nodes, literals, moment, buffer);
    FormatAnswer {
        status: answer.status,
        reason: answer.reason,
        component: answer.component,
        value: answer.value,
        written: answer.written,
    }
}

/// Writes the moment by any nodes.
#[inline(never)]
fn format_exactly(
    nodes: &[RawNode],
    literals: &[u8],
    moment: &MomentFields,
    buffer: &mut [u8],
) -> FormatAnswer
    ensures formats { FormatsNodes nodes.now literals.now moment.now buffer.old buffer.new result }
{
    match moment.moment() {
        Ok(moment) => format_by_nodes(nodes, literals, moment, buffer),
        Err(range) => FormatAnswer::out_of_range(range),
    }
}

fn format_by_nodes(
    nodes: &[RawNode],
    literals: &[u8],
    moment: Moment,
    buffer: &mut [u8],
) -> FormatAnswer
    ensures formats { FormatsNodesBy nodes.now literals.now moment buffer.old buffer.new result }
{
    match format_nodes(nodes, literals, moment, buffer) {
        Ok(text) => FormatAnswer {
            written: text.written,
            ..FormatAnswer::silent(ACCEPTED, text.len)
        },
        Err(NodesError::NoDescription(at)) => FormatAnswer::silent(NO_DESCRIPTION, at),
        Err(NodesError::Unshown(unshown)) => FormatAnswer::unshown(unshown),
    }
}
