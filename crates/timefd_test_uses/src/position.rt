//! The line and the column of a byte index.

ghost use Rattle.std.specs.Prelude.{◌≡◌, ◌+◌, ◌<◌, ◌^◌, ◌++◌, ◌==◌, if◌then◌else◌, [], get_or, take, replicate, codes, IfOk, string_bytes};
ghost use Rattle.std.specs.Fmt.{char_count, is_char_start};
ghost use Rattle.std.specs.Str.Lines.{lines};
ghost use Rattle.timefd_test_uses.specs.Positions.{newlines, begun_line};

use std::alloc::{AllocError, Global};

/// A position in a text, as editors name it.
#[derive(Clone, Copy)]
pub struct LineColumn {
    /// The line, from 1.
    pub line: usize,
    /// The column in characters, from 1.
    pub column: usize,
}

impl LineColumn {
    /// The position after a byte that is at this one.
    fn after(self, byte: u8) -> LineColumn
        requires { (self.line < 2 ^ 63) × (self.column < 2 ^ 63) }
        ensures line { result.line ≡ self.line + (if byte == 10 then 1 else 0) }
        ensures column { result.column
            ≡ (if byte == 10 then 1 else self.column + (if is_char_start byte then 1 else 0)) }
    {
        if byte == b'\n' {
            LineColumn {
                line: self.line + 1,
                column: 1,
            }
        } else if byte < 0x80 || byte >= 0xC0 {
            LineColumn {
                line: self.line,
                column: self.column + 1,
            }
        } else {
            self
        }
    }
}

/// The position of the byte at an index, or after the last byte if there is none at that index. The
/// line is one more than the number of newlines before it, and the column one more than the number
/// of characters before it in its line.
pub fn position_of(text: &str, index: usize) -> LineColumn
    ensures line { result.line ≡ newlines (take index text.now) + 1 }
    ensures column { result.column ≡ char_count (begun_line (take index text.now)) + 1 }
{
    let mut position = LineColumn { line: 1, column: 1 };
    for (at, byte) in text.as_bytes().iter().enumerate() {
        if at == index {
            return position;
        }
        position = position.after(*byte);
    }
    position
}

/// The line with this number, counted from 0, without its end. Empty if there is no such line.
pub fn line_of(text: &str, number: usize) -> &str
    ensures { result.now ≡ get_or (lines text.now) number [] }
{
    text.lines().nth(number).unwrap_or("")
}

/// A caret after this many spaces.
pub fn caret_line(alloc: Global, spaces: usize) -> Result<String, AllocError>
    ensures { IfOk result (λ line. string_bytes line ≡ replicate spaces 32 ++ codes "^") }
{
    let mut line = String::new(alloc);
    'spaces: while line.len() < spaces {
        line.push_str(" ")?;
    }
    line.push_str("^")?;
    Ok(line)
}
