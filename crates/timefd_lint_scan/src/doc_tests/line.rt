//! Lines of doc comments.

ghost use Rattle.std.specs.Prelude.{◌≡◌};
ghost use Rattle.timefd_lint_scan.specs.DocTests as spec;
ghost use Rattle.timefd_lint_scan.specs.Literals as literals;

use crate::line::from;
use crate::literal::cut;
use crate::piece::PlacedToken;

/// How many bytes the sign of a doc comment has.
const SIGN_LENGTH: usize = 3;

/// Which item a doc comment is about.
#[derive(Clone, Copy)]
pub enum DocSide {
    /// The one after it: `///`.
    Outer,
    /// The one that it is in: `//!`.
    Inner,
}

/// A line of a doc comment.
#[derive(Clone, Copy)]
pub struct DocLine<'a> {
    /// The comment.
    pub piece: PlacedToken,
    /// The item that it is about.
    pub side: DocSide,
    /// What stands after its sign.
    pub text: &'a [u8],
}

/// Whether two lines are about the same item: the one after them, or the one that they are in.
pub fn is_same(one: DocSide, other: DocSide) -> bool
    ensures { result ≡ spec.is_same one other }
{
    match (one, other) {
        (DocSide::Outer, DocSide::Outer) | (DocSide::Inner, DocSide::Inner) => true,
        (DocSide::Outer, DocSide::Inner) | (DocSide::Inner, DocSide::Outer) => false,
    }
}

// The bytes of a comment as a line of a doc comment.
fn line_in<'a>(piece: PlacedToken, comment: &'a [u8]) -> Option<DocLine<'a>>
    ensures { spec.read_any result ≡ spec.line_in piece comment.now }
{
    if comment.starts_with(b"////") {
        return None;
    }
    if comment.starts_with(b"///") {
        return Some(DocLine {
            piece,
            side: DocSide::Outer,
            text: from(comment, SIGN_LENGTH),
        });
    }
    if comment.starts_with(b"//!") {
        return Some(DocLine {
            piece,
            side: DocSide::Inner,
            text: from(comment, SIGN_LENGTH),
        });
    }
    None
}

/// A comment as a line of a doc comment; `None` if it is another one.
pub fn doc_line<'a>(source: &'a [u8], piece: PlacedToken) -> Option<DocLine<'a>>
    ensures { spec.read_any result ≡ spec.line_of piece (literals.cut source.now piece) }
{
    match cut(source, piece) {
        Some(comment) => line_in(piece, comment),
        None => None,
    }
}
