//! Where in a source the bytes of a description are.

ghost use Rattle.std.specs.Prelude.{◌≡◌, ◌<◌};
ghost use Rattle.timefd_lint_scan.specs.Bytes.{Text};
ghost use Rattle.timefd_lint_scan.specs.Found.{StandsIn, index_in_source};
ghost use Rattle.timefd_lint_scan.specs.Between.{IsInside};

use crate::description::SourceDescription;
use crate::literal::body_end;

/// The position in the source of the byte at an index of a description: its own, or the backslash of
/// the escape that denotes it. After the last byte it is the position of the closing quote. All are
/// byte indices.
pub fn index_in_source(description: &SourceDescription, index: usize) -> usize
    ensures position { result ≡ index_in_source description.now index }
    ensures inside { (source : Text) → StandsIn source description.now
        → IsInside description.now.piece result }
{
    let positions = &description.unescaped.positions;
    if index < positions.len() {
        positions[index]
    } else {
        body_end(description.piece, description.kind)
    }
}
