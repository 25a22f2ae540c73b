//! Writes the words between the brackets of a component.

ghost use Rattle.std.specs.Prelude.{◌≡◌, ◌++◌, decimal, IfOk, OnOk, string_bytes};
ghost use Rattle.timefd_lang_component.specs.Modern.{modern};
ghost use Rattle.timefd_lang_component.specs.Bracket.Words as spec;

use crate::Component;
use crate::bracket::defaults::Defaults;
use crate::bracket::form::form;
use crate::bracket::modifiers::modifiers;
use std::alloc::{AllocError, Global};

/// Appends the words of a component, or of its modern form if it is deprecated. An `Err` says that
/// memory ran out.
pub fn push_words(
    alloc: Global,
    text: &mut String,
    component: Component,
    defaults: Defaults,
) -> Result<(), AllocError>
    ensures { OnOk result (string_bytes text.new ≡ string_bytes text.old ++ spec.words defaults
        (modern component)) }
{
    push_modern(alloc, text, component.modern(), defaults)
}

fn push_modern(
    alloc: Global,
    text: &mut String,
    component: Component,
    defaults: Defaults,
) -> Result<(), AllocError>
    ensures { OnOk result (string_bytes text.new ≡ string_bytes text.old ++ spec.words defaults
        component) }
{
    let digits = count_digits(alloc, component)?;
    let (first, second) = modifiers(component, defaults, &digits);
    push_parts(text, form(component, defaults), first, second)
}

fn push_parts(text: &mut String, form: &str, first: &str, second: &str) -> Result<(), AllocError>
    ensures { OnOk result (string_bytes text.new ≡ string_bytes text.old ++ form.now ++ first.now
        ++ second.now) }
{
    text.push_str(form)?;
    text.push_str(first)?;
    text.push_str(second)
}

/// The digits of the count, or nothing if the component has none.
fn count_digits(alloc: Global, component: Component) -> Result<String, AllocError>
    ensures { IfOk result (λ text. string_bytes text ≡ spec.count_digits component) }
{
    if let Component::Ignore(ignore) = component {
        return decimal_text(alloc, ignore.count.get());
    }
    Ok(String::new(alloc))
}

/// The number in decimal.
fn decimal_text(alloc: Global, n: u16) -> Result<String, AllocError>
    ensures { IfOk result (λ text. string_bytes text ≡ decimal n) }
{
    format!(in alloc; "{n}")
}
