//! A short text, written to a room of its own and copied from there.

ghost use Rattle.std.specs.Prelude.{◌≡◌, ◌*◌, ◌≤◌, ◌++◌, IfSome, None, drop, length, true};
ghost use Rattle.timefd_c.specs.Fast.{written_answer};
ghost use Rattle.timefd_c.specs.Moments.{IsMoment, has_date, range_fault};
ghost use Rattle.timefd_c.specs.NodeFormats.{FormatsNodes};

use crate::fast::moment::moment_of;
use crate::fast::range::are_in_range;
use crate::fast::walk::append_nodes;
use crate::moment::MomentFields;
use timefd_c_nodes::RawNode;
use timefd_date_moment::Moment;

// Few texts are longer.
const ROOM: usize = 80;

/// Writes the moment by nodes to the front of the buffer if all of it fits, and returns how many bytes these are.
/// After `None` the buffer is unchanged.
#[inline(always)]
pub fn write_at_once(
    nodes: &[RawNode],
    literals: &[u8],
    fields: &MomentFields,
    buffer: &mut [u8],
) -> Option<usize>
    ensures written { IfSome result (λ len. FormatsNodes nodes.now literals.now fields.now buffer.old buffer.new
        (written_answer len)) }
    ensures kept { result ≡ None → buffer.new ≡ buffer.old }
{
    if !are_in_range(fields) {
        return None;
    }
    let moment = moment_of(fields);
    write_through(&moment, fields, nodes, literals, &mut [0; ROOM], buffer)
}

// Writes to a room first, and copies the text from there.
#[inline(always)]
fn write_through(
    moment: &Moment,
    fields: &MomentFields,
    nodes: &[RawNode],
    literals: &[u8],
    room: &mut [u8],
    buffer: &mut [u8],
) -> Option<usize>
    requires date { has_date fields.now ≡ true }
    requires range { range_fault fields.now ≡ None }
    requires moment { IsMoment fields.now moment.now }
    ensures written { IfSome result (λ len. FormatsNodes nodes.now literals.now fields.now buffer.old buffer.new
        (written_answer len)) }
    ensures kept { result ≡ None → buffer.new ≡ buffer.old }
{
    let end = append_nodes(moment, fields, nodes, literals, room)?;
    if buffer.len() < end {
        return None;
    }
    copy_text(&room[..end], buffer);
    Some(end)
}

// Copies a text to the front of the buffer. One of at most 32 bytes is copied by its ends, which takes no call.
#[inline(always)]
fn copy_text(text: &[u8], buffer: &mut [u8])
    requires { length text.now ≤ length buffer.old }
    ensures { buffer.new ≡ text.now ++ drop (length text.now) buffer.old }
{
    let len = text.len();
    if 8 <= len && len <= 16 {
        copy_ends(text, 8, buffer);
    } else if 16 <= len && len <= 32 {
        copy_ends(text, 16, buffer);
    } else {
        buffer[..len].copy_from_slice(text);
    }
}

// Copies so many bytes from either end of a text, which may have bytes in common.
#[inline(always)]
fn copy_ends(text: &[u8], count: usize, buffer: &mut [u8])
    requires some { count ≤ length text.now }
    requires all { length text.now ≤ 2 * count }
    requires room { length text.now ≤ length buffer.old }
    ensures { buffer.new ≡ text.now ++ drop (length text.now) buffer.old }
{
    buffer[..count].copy_from_slice(&text[..count]);
    let from = text.len() - count;
    buffer[from..text.len()].copy_from_slice(&text[from..]);
}
