//! Appends what any component shows.

ghost use Rattle.std.specs.Prelude.{◌+◌, ◌≤◌, length};
ghost use Rattle.timefd_date_format.specs.Appends.{TriesToAppend};
ghost use Rattle.timefd_date_format.specs.Written.{shown};

use crate::append::append_bytes;
use crate::write::write_component;
use timefd_date_moment::Moment;
use timefd_lang_component::Component;

/// Appends what any component shows, by its general rule, and returns the position after it. `None` if it
/// shows nothing; then the bytes in front of `at` are as they were.
#[inline(never)]
pub fn append_slowly(
    moment: &Moment,
    component: &Component,
    room: &mut [u8],
    at: usize,
) -> Option<usize>
    requires { at + 32 ≤ length room.old }
    ensures { TriesToAppend (shown moment.now component.now) room.old at room.new result }
{
    append_through(moment, component, &mut [0; 32], room, at)
}

/// Appends what a component shows, which is first written to the buffer `short`.
#[inline(always)]
#[tactic(auto, using(crate::proofs::AppendLemmas::through))]
fn append_through(
    moment: &Moment,
    component: &Component,
    short: &mut [u8],
    room: &mut [u8],
    at: usize,
) -> Option<usize>
    requires there { at + length short.old ≤ length room.old }
    ensures { TriesToAppend (shown moment.now component.now) room.old at room.new result }
{
    match write_component(*moment, *component, short) {
        Ok(start) => Some(append_bytes(&short[start..], room, at)),
        Err(_) => None,
    }
}
