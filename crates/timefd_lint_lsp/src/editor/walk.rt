//! A walk through a text, which counts lines and UTF-16 units.

ghost use Rattle.std.specs.Prelude.{◌≡◌};
ghost use Rattle.timefd_lint_lsp.specs.Editor.Positions as spec;

use crate::editor::position::DocumentPosition;

/// How far a walk through a text is.
#[derive(Clone, Copy)]
pub struct CountingWalk {
    /// The position of the next byte.
    pub position: DocumentPosition,
    /// Whether the previous byte is a carriage return.
    pub is_after_return: bool,
}

impl CountingWalk {
    /// A walk at the start of a text.
    pub fn start() -> CountingWalk
        ensures { result ≡ spec.start }
    {
        CountingWalk {
            position: DocumentPosition {
                line: 0,
                character: 0,
            },
            is_after_return: false,
        }
    }

    /// The walk after these bytes.
    pub fn through(self, bytes: &[u8]) -> CountingWalk
        ensures { result ≡ spec.walked self bytes.now }
    {
        let mut walk = self;
        for byte in bytes {
            walk = walk.step(*byte);
        }
        walk
    }

    /// The walk after one more byte.
    pub fn step(self, byte: u8) -> CountingWalk
        ensures { result ≡ spec.step self byte }
    {
        CountingWalk {
            position: DocumentPosition {
                line: self.line_after(byte),
                character: self.character_after(byte),
            },
            is_after_return: byte == b'\r',
        }
    }

    /// Whether a walk to `sought` stops here, before this byte: this is that position, or the last one of its
    /// line.
    pub fn stops_at(self, sought: DocumentPosition, byte: u8) -> bool
        ensures { result ≡ spec.stops_at self sought byte }
    {
        self.position.line == sought.line
            && !self.is_second(byte)
            && (is_line_end(byte)
                || (!goes_on(byte) && sought.character < self.character_after(byte)))
    }

    fn line_after(self, byte: u8) -> usize
        ensures { result ≡ spec.line_after self byte }
    {
        if is_line_end(byte) && !self.is_second(byte) {
            self.position.line.saturating_add(1)
        } else {
            self.position.line
        }
    }

    fn character_after(self, byte: u8) -> usize
        ensures { result ≡ spec.character_after self byte }
    {
        if is_line_end(byte) {
            0
        } else {
            self.position.character.saturating_add(units(byte))
        }
    }

    // Whether the byte is the newline of `\r\n`, whose carriage return already ended the line.
    fn is_second(self, byte: u8) -> bool
        ensures { result ≡ spec.is_second self byte }
    {
        self.is_after_return && byte == b'\n'
    }
}

fn is_line_end(byte: u8) -> bool
    ensures { result ≡ spec.is_line_end byte }
{
    byte == b'\n' || byte == b'\r'
}

/// Whether a byte continues a character that an earlier byte begins.
pub fn goes_on(byte: u8) -> bool
    ensures { result ≡ spec.goes_on byte }
{
    byte >= 0x80 && byte < 0xC0
}

// How many UTF-16 units the character has that a byte begins: 0 if the byte continues one.
fn units(byte: u8) -> usize
    ensures { result ≡ spec.units byte }
{
    if goes_on(byte) {
        0
    } else if byte < 0xF0 {
        1
    } else {
        2
    }
}
