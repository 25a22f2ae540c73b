//! How descriptions print under `{:?}`: a borrowed and an owned part with the same content alike.

use super::FormatDescriptionV3;
use super::content::Content;
use super::inner::FormatDescriptionV3Inner;
use std::fmt;
use timefd_lang_component::debug::ModifiersOf;

impl fmt::Debug for FormatDescriptionV3<'_> {
    fn fmt<W: fmt::Write>(&self, f: &mut fmt::Formatter<W>) -> fmt::Result {
        fmt::Debug::fmt(&self.view(), f)
    }
}

impl fmt::Debug for FormatDescriptionV3Inner<'_> {
    fn fmt<W: fmt::Write>(&self, f: &mut fmt::Formatter<W>) -> fmt::Result {
        match self.content() {
            Content::Component(component) => fmt::Debug::fmt(&ModifiersOf(component), f),
            content => write_content(content, f),
        }
    }
}

#[cycle(debug)]
fn write_content<W: fmt::Write>(
    content: Content<'_, '_>,
    f: &mut fmt::Formatter<W>,
) -> fmt::Result {
    match content {
        Content::Component(component) => {
            let leaf = ModifiersOf(component);
            write!(f, "{leaf:?}")
        }
        Content::Literal(text) => write!(f, "Literal({text:?})"),
        Content::Compound(items) => write_members("Compound", items, f),
        Content::Optional { format, item } => {
            write!(f, "Optional {{ should_format: {format:?}, item: ")?;
            write_content(item.content(), f)?;
            f.write_str(" }")
        }
        Content::First(items) => write_members("First", items, f),
    }
}

#[cycle(debug)]
fn write_members<W: fmt::Write>(
    name: &str,
    items: &[FormatDescriptionV3Inner<'_>],
    f: &mut fmt::Formatter<W>,
) -> fmt::Result {
    write!(f, "{name}([")?;
    'items: for at in 0..items.len() {
        if at > 0 {
            f.write_str(", ")?;
        }
        write_content(items[at].content(), f)?;
    }
    f.write_str("])")
}
