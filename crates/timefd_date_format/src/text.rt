//! Texts in newly allocated memory.

ghost use Rattle.std.specs.Prelude.{◌≤◌, length};
ghost use Rattle.timefd_lang_component.specs.Reserved.{reserve};
ghost use Rattle.timefd_date_format.specs.Answers.{IsAnswer};
ghost use Rattle.timefd_date_format.specs.Written.{written};
ghost use Rattle.timefd_lang_node_list.specs.Views.{view_tree};

use crate::field::Unshown;
use crate::write::{FormatError, write_description};
use std::alloc::{AllocError, Global};
use timefd_date_moment::Moment;
use timefd_lang_node_list::View;

/// Why there is no text.
#[derive(Debug, Drop)]
pub enum TextError {
    /// A component shows nothing of the moment. It is the first one.
    Unshown(Unshown),
    /// Memory ran out.
    Memory(AllocError),
}

/// What a description shows of the moment, as a new string.
pub fn format(alloc: Global, moment: Moment, view: View<'_, '_>) -> Result<String, TextError>
    ensures { IsAnswer (written moment (view_tree view.entry)) result }
{
    let mut buffer = match vec![in alloc; 0u8; view.max_bytes_needed()] {
        Ok(buffer) => buffer,
        Err(error) => return Err(TextError::Memory(error)),
    };
    text_in(alloc, moment, view, &mut buffer)
}

/// Formats in a buffer with at least the bytes that the description reserves.
fn text_in(
    alloc: Global,
    moment: Moment,
    view: View<'_, '_>,
    buffer: &mut [u8],
) -> Result<String, TextError>
    requires { reserve (view_tree view) ≤ length buffer.old }
    ensures { IsAnswer (written moment (view_tree view.entry)) result }
{
    match write_description(moment, view, buffer) {
        Ok(at) => {
            let text = std::str::from_utf8(&buffer[at..]).unwrap();
            match String::from_str(alloc, text) {
                Ok(text) => Ok(text),
                Err(error) => Err(TextError::Memory(error)),
            }
        }
        Err(FormatError::Unshown(unshown)) => Err(TextError::Unshown(unshown)),
        Err(FormatError::Room) => unreachable!(),
    }
}
