//! A walk through the text of a description, which counts its open brackets.

ghost use Rattle.std.specs.Prelude.{◌≡◌};
ghost use Rattle.timefd_lint_lsp.specs.Editor.Scans as spec;

use crate::editor::cursor::is_white;
use timefd_parse::DescriptionVersion;

/// How far a walk through the text of a description is.
#[derive(Clone, Copy)]
pub struct TextScan {
    /// How many brackets are open. The first is one of a component, and those inside it are, in turn, one of a
    /// nested description and one of a component.
    pub depth: usize,
    /// Whether the previous byte may make a `[` a literal: in version 1 a `[`, which then is none of a component, and
    /// in versions 2 and 3 a backslash, after which each byte is a literal.
    pub may_escape: bool,
    /// Whether only white bytes follow the last `[`.
    pub is_blank: bool,
}

/// The walk after all bytes of a text.
pub fn scanned(version: DescriptionVersion, text: &[u8]) -> TextScan
    ensures { result ≡ spec.scanned version text.now }
{
    let mut scan = TextScan {
        depth: 0,
        may_escape: false,
        is_blank: false,
    };
    for byte in text {
        scan = scan.step(version, *byte);
    }
    scan
}

impl TextScan {
    /// Whether the innermost open bracket is one of a component.
    pub fn is_in_component(self) -> bool
        ensures { result ≡ spec.is_in_component self }
    {
        self.depth % 2 == 1
    }

    fn step(self, version: DescriptionVersion, byte: u8) -> TextScan
        ensures { result ≡ spec.step version self byte }
    {
        match version {
            DescriptionVersion::One => self.step_of_one(byte),
            DescriptionVersion::Two | DescriptionVersion::Three => self.step_of_later(byte),
        }
    }

    // In version 1 a second `[` makes the first one a literal.
    fn step_of_one(self, byte: u8) -> TextScan
        ensures { result ≡ spec.step_of_one self byte }
    {
        if byte != b'[' {
            return self.step_on(byte);
        }
        if self.may_escape {
            return self.closed();
        }
        self.opened(!self.is_in_component())
    }

    // In versions 2 and 3 a backslash of a literal makes the next byte a literal.
    fn step_of_later(self, byte: u8) -> TextScan
        ensures { result ≡ spec.step_of_later self byte }
    {
        if self.may_escape {
            return self.with_literal(false);
        }
        if byte == b'\\' && !self.is_in_component() {
            return self.with_literal(true);
        }
        if byte == b'[' {
            return self.opened(false);
        }
        self.step_on(byte)
    }

    fn opened(self, may_escape: bool) -> TextScan
        ensures { result ≡ spec.opened self may_escape }
    {
        TextScan {
            depth: self.depth.saturating_add(1),
            may_escape,
            is_blank: true,
        }
    }

    fn with_literal(self, may_escape: bool) -> TextScan
        ensures { result ≡ spec.with_literal self may_escape }
    {
        TextScan {
            depth: self.depth,
            may_escape,
            is_blank: false,
        }
    }

    // A bracket is closed, if one is open.
    fn closed(self) -> TextScan
        ensures { result ≡ spec.closed self }
    {
        TextScan {
            depth: self.depth.saturating_sub(1),
            may_escape: false,
            is_blank: false,
        }
    }

    // The walk after a byte that opens no bracket and escapes nothing.
    fn step_on(self, byte: u8) -> TextScan
        ensures { result ≡ spec.step_on self byte }
    {
        if byte == b']' {
            return self.closed();
        }
        TextScan {
            depth: self.depth,
            may_escape: false,
            is_blank: self.is_blank && is_white(byte),
        }
    }
}
