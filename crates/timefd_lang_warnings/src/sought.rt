//! What is searched for among the parts of a description, and how many there are of it.

ghost use Rattle.std.specs.Prelude.{◌≡◌};
ghost use Rattle.timefd_lang_component.specs.Tree.{component, literal};
ghost use Rattle.timefd_lang_warnings.specs.Sought as spec;

use crate::field::{ShownField, field_of};
use crate::mark::{ComponentMark, is_somewhere};
use crate::width::{Width, outline_of};
use timefd_lang_component::Component;

/// What is searched for among parts.
#[derive(Clone, Copy)]
pub enum Sought {
    /// A component that shows this.
    Shows(ShownField),
    /// Any component.
    Component,
    /// A component that stands for another, more modern one.
    Deprecated,
    /// A component that shows the first, and the next one the second.
    Before(ShownField, ShownField),
    /// A component of this width, with a digit that may come next.
    Touches(Width),
    /// A text that has this mark.
    Text(ComponentMark),
}

/// How many of the parts match.
#[derive(Clone, Copy)]
pub enum HowMany {
    Absent,
    Once,
    Several,
}

/// What follows a part.
#[derive(Clone, Copy)]
pub struct Following {
    /// What the next component shows.
    pub field: Option<ShownField>,
    /// Whether a digit may come next.
    pub has_digit: bool,
}

/// What was found among some parts, and what a part before them is followed by.
#[derive(Clone, Copy)]
pub struct Scan {
    pub amount: HowMany,
    pub after: Following,
}

impl Scan {
    /// The scan of no parts.
    pub fn start() -> Scan
        ensures { result ≡ spec.start }
    {
        Scan {
            amount: HowMany::Absent,
            after: Following {
                field: None,
                has_digit: false,
            },
        }
    }

    /// The scan with one more component before the others.
    pub fn with_component(self, sought: Sought, part: Component) -> Scan
        ensures { result ≡ spec.with_part sought (component part) self }
    {
        Scan {
            amount: counted(self.amount, is_component(sought, part, self.after)),
            after: Following {
                field: Some(field_of(part)),
                has_digit: outline_of(part).may_begin_with_digit,
            },
        }
    }

    /// The scan with one more text before the others.
    pub fn with_text(self, sought: Sought, text: &[u8]) -> Scan
        ensures { result ≡ spec.with_part sought (literal text.now) self }
    {
        Scan {
            amount: counted(self.amount, is_text(sought, text)),
            after: Following {
                field: self.after.field,
                has_digit: begins_with_digit(text, self.after.has_digit),
            },
        }
    }
}

fn counted(amount: HowMany, is_one: bool) -> HowMany
    ensures { result ≡ spec.counted amount is_one }
{
    if !is_one {
        return amount;
    }
    match amount {
        HowMany::Absent => HowMany::Once,
        HowMany::Once | HowMany::Several => HowMany::Several,
    }
}

fn is_component(sought: Sought, part: Component, after: Following) -> bool
    ensures { result ≡ spec.is_component sought part after }
{
    match sought {
        Sought::Shows(field) => field_of(part) == field,
        Sought::Component => true,
        Sought::Deprecated => part.modern() != part,
        Sought::Before(front, next) => field_of(part) == front && is_next(after.field, next),
        Sought::Touches(width) => outline_of(part).width == width && after.has_digit,
        Sought::Text(_) => false,
    }
}

fn is_next(next: Option<ShownField>, field: ShownField) -> bool
    ensures { result ≡ spec.is_next next field }
{
    match next {
        Some(next) => next == field,
        None => false,
    }
}

fn is_text(sought: Sought, text: &[u8]) -> bool
    ensures { result ≡ spec.is_text sought text.now }
{
    match sought {
        Sought::Text(mark) => is_somewhere(mark, text),
        Sought::Shows(_)
        | Sought::Component
        | Sought::Deprecated
        | Sought::Before(_, _)
        | Sought::Touches(_) => false,
    }
}

// Whether a text begins with a digit; for an empty text, whether what follows it does.
fn begins_with_digit(text: &[u8], after: bool) -> bool
    ensures { result ≡ spec.begins_with_digit text.now after }
{
    match text {
        [first, ..] => is_digit(*first),
        [] => after,
    }
}

fn is_digit(byte: u8) -> bool
    ensures { result ≡ spec.is_digit byte }
{
    b'0' <= byte && byte <= b'9'
}
