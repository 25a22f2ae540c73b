//! Text put in front of what is already written.

ghost use Rattle.std.specs.Prelude.{◌≤◌, Ok, length};
ghost use Rattle.timefd_c_nodes.specs.Formatting.Cursors.{TriesToWrite};
ghost use Rattle.timefd_date_format.specs.Written.{shown};

use timefd_date_format::write_component;
use timefd_date_moment::Moment;
use timefd_lang_component::Component;

/// Puts what a component shows in front of the written text. `None` says that it shows nothing, or
/// that there is no room.
#[tactic(auto, using(crate::proofs::FormattingLemmas::WriteLemmas::put_in_front, crate::proofs::FormattingLemmas::WriteLemmas::not_put))]
#[inline(always)]
pub(crate) fn put_component(
    moment: Moment,
    component: Component,
    buffer: &mut [u8],
    end: usize,
) -> Option<usize>
    requires { end ≤ length buffer.old }
    ensures { TriesToWrite (shown moment component) buffer.old end buffer.new result }
{
    match write_component(moment, component, &mut buffer[..end]) {
        Ok(at) => Some(at),
        Err(_) => None,
    }
}

/// Puts bytes in front of the written text. `None` says that there is no room. Most literals have
/// one byte.
#[inline(always)]
pub(crate) fn put_literal(bytes: &[u8], buffer: &mut [u8], end: usize) -> Option<usize>
    requires { end ≤ length buffer.old }
    ensures { TriesToWrite (Ok bytes.now) buffer.old end buffer.new result }
{
    if bytes.len() > end {
        return None;
    }
    let at = end - bytes.len();
    if bytes.len() == 1 {
        buffer[at] = bytes[0];
    } else {
        buffer[at..end].copy_from_slice(bytes);
    }
    Some(at)
}
