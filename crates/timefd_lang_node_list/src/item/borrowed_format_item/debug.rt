//! How items print with `{:?}`: a literal prints as its text, without quotes.

use super::BorrowedFormatItem;
use std::fmt;

impl fmt::Debug for BorrowedFormatItem<'_> {
    #[cycle(debug)]
    fn fmt<W: fmt::Write>(&self, f: &mut fmt::Formatter<W>) -> fmt::Result {
        match self {
            BorrowedFormatItem::Literal(bytes) => write_bytes(bytes, f),
            BorrowedFormatItem::StringLiteral(text) => f.write_str(text),
            BorrowedFormatItem::Component(component) => fmt::Debug::fmt(component, f),
            BorrowedFormatItem::Compound(items) => write_items(items, f),
            BorrowedFormatItem::Optional(item) => write!(f, "Optional({item:?})"),
            BorrowedFormatItem::First(items) => {
                f.write_str("First(")?;
                write_items(items, f)?;
                f.write_str(")")
            }
        }
    }
}

#[cycle(debug)]
fn write_items<W: fmt::Write>(
    items: &[BorrowedFormatItem<'_>],
    f: &mut fmt::Formatter<W>,
) -> fmt::Result {
    f.write_str("[")?;
    for at in 0..items.len() {
        if at > 0 {
            f.write_str(", ")?;
        }
        let item = &items[at];
        write!(f, "{item:?}")?;
    }
    f.write_str("]")
}

/// Writes the bytes as text. If they aren't UTF-8, each byte that isn't ASCII becomes U+FFFD.
fn write_bytes<W: fmt::Write>(bytes: &[u8], f: &mut fmt::Formatter<W>) -> fmt::Result {
    match str::from_utf8(bytes) {
        Ok(text) => f.write_str(text),
        Err(_) => write_ascii(bytes, f),
    }
}

fn write_ascii<W: fmt::Write>(bytes: &[u8], f: &mut fmt::Formatter<W>) -> fmt::Result {
    for byte in bytes {
        let shown = if byte.is_ascii() {
            char::from(*byte)
        } else {
            char::REPLACEMENT_CHARACTER
        };
        f.write_char(shown)?;
    }
    Ok(())
}
