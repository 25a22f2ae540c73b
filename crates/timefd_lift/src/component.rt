//! Writes components in version 3.

ghost use Rattle.std.specs.Prelude.{◌≡◌, ◌++◌, OnOk, string_bytes};
ghost use Rattle.timefd_lang_component.specs.Modern.{modern};
ghost use Rattle.timefd_lift.specs.Written as spec;

use std::alloc::{AllocError, Global};
use timefd_items::Component;
use timefd_lang_component::bracket::{Defaults, push_words};

/// Appends the text of a component. For a deprecated one, this is the text of the component that it
/// stands for. An `Err` says that memory ran out.
#[tactic(auto, using(crate::proofs::Appending::bracket_appended))]
pub fn push_component(
    alloc: Global,
    text: &mut String,
    component: Component,
) -> Result<(), AllocError>
    ensures { OnOk result (string_bytes text.new ≡ string_bytes text.old ++ spec.component_text
        (modern component)) }
{
    text.push_str("[")?;
    push_words(alloc, text, component, Defaults::Omitted)?;
    text.push_str("]")
}
