//! Where a source says the version of a description.

ghost use Rattle.std.specs.Prelude.{◌≡◌, IsTrue, Some};
ghost use Rattle.timefd_lint_scan.specs.Versions.{IsDigitAt, IsSaid};
ghost use Rattle.timefd_lint_scan.specs.Versions as spec;

use crate::dialect::FormatLanguage;
use crate::piece::PlacedToken;

/// Where a source says the version of a description.
#[derive(Clone, Copy, Debug, PartialEq, Eq)]
pub enum VersionPosition {
    /// Its digit is this byte.
    Digit(usize),
    /// Nowhere, since it is version 1: `version = 3, ` before the literal would select another.
    Unsaid,
    /// Nowhere: the call has no room for a number.
    Call,
    /// In a comment, or outside of the source.
    Elsewhere,
}

/// The digit of a version; `None` for strftime.
pub fn digit_of(dialect: FormatLanguage) -> Option<u8>
    ensures { result ≡ spec.digit_of dialect }
{
    match dialect {
        FormatLanguage::One => Some(b'1'),
        FormatLanguage::Two => Some(b'2'),
        FormatLanguage::Three => Some(b'3'),
        FormatLanguage::Strftime
        | FormatLanguage::Python
        | FormatLanguage::C
        | FormatLanguage::Gnu
        | FormatLanguage::Chrono
        | FormatLanguage::Jiff
        | FormatLanguage::Ruby
        | FormatLanguage::Java
        | FormatLanguage::Go
        | FormatLanguage::Moment => None,
    }
}

fn is_digit_of(dialect: FormatLanguage, byte: u8) -> bool
    ensures so { IsTrue result → spec.digit_of dialect ≡ Some byte }
    ensures all { spec.digit_of dialect ≡ Some byte → IsTrue result }
{
    match digit_of(dialect) {
        Some(digit) => digit == byte,
        None => false,
    }
}

fn is_digit_at(source: &str, piece: PlacedToken, dialect: FormatLanguage, at: usize) -> bool
    ensures so { IsTrue result → IsDigitAt source.now piece dialect at }
    ensures all { IsDigitAt source.now piece dialect at → IsTrue result }
{
    let bytes = source.as_bytes();
    at < piece.start && at < bytes.len() && is_digit_of(dialect, bytes[at])
}

fn is_one(dialect: FormatLanguage) -> bool
    ensures so { IsTrue result → dialect ≡ spec.unsaid }
    ensures all { dialect ≡ spec.unsaid → IsTrue result }
{
    match dialect {
        FormatLanguage::One => true,
        FormatLanguage::Two
        | FormatLanguage::Three
        | FormatLanguage::Strftime
        | FormatLanguage::Python
        | FormatLanguage::C
        | FormatLanguage::Gnu
        | FormatLanguage::Chrono
        | FormatLanguage::Jiff
        | FormatLanguage::Ruby
        | FormatLanguage::Java
        | FormatLanguage::Go
        | FormatLanguage::Moment => false,
    }
}

/// The place where a description's version is said, or `Elsewhere` if it isn't said there. All places
/// that are found pass; the test makes sure.
pub fn tested(
    source: &str,
    piece: PlacedToken,
    dialect: FormatLanguage,
    position: VersionPosition,
) -> VersionPosition
    ensures said { IsSaid source.now piece dialect result }
    ensures kept { IsSaid source.now piece dialect position → result ≡ position }
{
    match position {
        VersionPosition::Digit(at) if is_digit_at(source, piece, dialect, at) =>
            VersionPosition::Digit(at),
        VersionPosition::Unsaid if is_one(dialect) => VersionPosition::Unsaid,
        VersionPosition::Call => VersionPosition::Call,
        VersionPosition::Digit(_) | VersionPosition::Unsaid | VersionPosition::Elsewhere =>
            VersionPosition::Elsewhere,
    }
}

/// The first position that belongs to a description: its version's digit, or the start of its literal.
pub fn first_position(version: VersionPosition, start: usize) -> usize
    ensures { result ≡ spec.first_position version start }
{
    match version {
        VersionPosition::Digit(at) => at,
        VersionPosition::Unsaid | VersionPosition::Call | VersionPosition::Elsewhere => start,
    }
}
