//! Descriptions in attributes: `#[time(format = "%F")]`.

ghost use Rattle.std.specs.Prelude.{◌≡◌};
ghost use Rattle.timefd_lint_scan.specs.Attributes as spec;

use crate::dialect::{FormatLanguage, is};
use crate::kept::KeptToken;
use crate::known::{Items, Known};
use crate::version::VersionPosition;
use crate::word::{text_at, text_before};

fn is_in_attribute(source: &[u8], pieces: &[KeptToken], index: usize) -> bool
    ensures { result ≡ spec.is_in_attribute source.now pieces.now index }
{
    is(text_before(source, pieces, index, 1), "=")
        && is(text_before(source, pieces, index, 2), "format")
        && is(text_before(source, pieces, index, 3), "(")
        && is(text_before(source, pieces, index, 4), "time")
        && is(text_before(source, pieces, index, 5), "[")
        && is(text_before(source, pieces, index, 6), "#")
}

/// The language of a literal by its bytes: chrono's if it has a `%`, and version 1 if not.
fn dialect_by_bytes(literal: &[u8]) -> FormatLanguage
    ensures { result ≡ spec.dialect_by_bytes literal.now }
{
    if literal.contains(&b'%') {
        FormatLanguage::Chrono
    } else {
        FormatLanguage::One
    }
}

/// What an attribute says about a token; `None` if the token isn't in such an attribute.
pub fn known_by_attribute(source: &[u8], pieces: &[KeptToken], index: usize) -> Option<Known>
    ensures { result ≡ spec.known_by_attribute source.now pieces.now index }
{
    if is_in_attribute(source, pieces, index) {
        Some(Known {
            dialect: dialect_by_bytes(text_at(source, pieces, index)),
            items: Items::Taken,
            version: VersionPosition::Call,
            wants_percent: false,
            call: None,
        })
    } else {
        None
    }
}
