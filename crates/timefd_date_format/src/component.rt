//! Writes what one component shows.

ghost use Rattle.std.specs.Prelude.{◌≤◌, length};
ghost use Rattle.timefd_date_format.specs.Writes.{IsIn, IsLeftOut, PutsShown, Writes};
ghost use Rattle.timefd_date_format.specs.Written.{shown};

use crate::cursor::WriteCursor;
use crate::field::Unshown;
use crate::put_field::put_field;
use crate::shown::field;
use timefd_date_moment::Moment;
use timefd_lang_component::Component;

/// Writes what a component shows of the moment in front of what is already written.
#[inline(always)]
#[tactic(auto, using(crate::proofs::ComponentLemmas::put_writes, crate::proofs::ComponentLemmas::left_here, crate::proofs::ComponentLemmas::left_after))]
pub(crate) fn write_component(
    moment: Moment,
    component: Component,
    buffer: &mut [u8],
    cursor: WriteCursor,
) -> WriteCursor
    requires { IsIn (length buffer.old) cursor }
    ensures { Writes (shown moment component) buffer.old cursor buffer.new result }
{
    match cursor {
        WriteCursor::At(end) => match put_component(moment, component, buffer, end) {
            Some(at) => WriteCursor::At(at),
            None => leave_out(moment, component, cursor),
        },
        WriteCursor::NoRoom | WriteCursor::Unshown(_) => leave_out(moment, component, cursor),
    }
}

/// Puts what a component shows directly in front of `end`, and returns the position where it begins. `None`
/// if it shows nothing, or there is no room.
#[inline(never)]
#[tactic(auto, using(crate::proofs::ComponentLemmas::field_put, crate::proofs::ComponentLemmas::field_lacks))]
fn put_component(
    moment: Moment,
    component: Component,
    buffer: &mut [u8],
    end: usize,
) -> Option<usize>
    requires { end ≤ length buffer.old }
    ensures { PutsShown (shown moment component) buffer.old end buffer.new result }
{
    let modern = component.modern();
    match field(moment, modern) {
        Ok(field) => put_field(buffer, end, field),
        Err(_) => None,
    }
}

/// The position after a component that isn't put: it names the component if that shows nothing, and else says
/// that there is no room.
#[inline(never)]
#[tactic(auto, using(crate::proofs::ComponentLemmas::shown_left, crate::proofs::ComponentLemmas::lack_left))]
fn leave_out(moment: Moment, component: Component, cursor: WriteCursor) -> WriteCursor
    ensures { IsLeftOut (shown moment component) cursor result }
{
    let component = component.modern();
    match field(moment, component) {
        Ok(_) => match cursor {
            WriteCursor::At(_) | WriteCursor::NoRoom => WriteCursor::NoRoom,
            WriteCursor::Unshown(_) => cursor,
        },
        Err(lack) => WriteCursor::Unshown(Unshown { component, lack }),
    }
}
