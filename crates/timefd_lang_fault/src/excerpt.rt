//! Texts one after another in a buffer that may be too short.

ghost use Rattle.std.specs.Prelude.{◌≡◌, ◌+◌, ◌<◌, ◌≤◌, ◌++◌, [], ℕ, length, take, drop};
ghost use Rattle.std.specs.Str.{IsCharBoundary};
ghost use Rattle.timefd_lang_fault.specs.Faults.{Text};
ghost use Rattle.timefd_lang_fault.specs.Excerpts.{IsExcerpt};

/// How much of a text is in a buffer.
#[derive(Debug, Clone, Copy, PartialEq, Eq)]
pub struct Excerpt {
    /// How many bytes the whole text has.
    pub len: usize,
    /// How many of them are in the buffer.
    pub written: usize,
}

impl Excerpt {
    /// The excerpt of the empty text.
    pub fn new() -> Excerpt
        ensures { (before : Text) → IsExcerpt [] before before result }
    {
        Excerpt { len: 0, written: 0 }
    }

    /// Writes another text after the first, with as many of its characters as the buffer has room
    /// for.
    pub fn and(self, text: &str, buffer: &mut [u8]) -> Excerpt
        requires { self.len + length text.now ≤ usize.MAX }
        ensures { (full before : Text) → IsExcerpt full before buffer.old self
            → IsExcerpt (full ++ text.now) before buffer.new result }
    {
        let len = self.len + text.len();
        if self.written < self.len {
            return Excerpt {
                len,
                written: self.written,
            };
        }
        let at = self.len.min(buffer.len());
        let more = write_at(text, buffer, at);
        Excerpt {
            len,
            written: at + more,
        }
    }
}

// Writes as many characters of the text as the buffer has room for from index `at` on, and returns
// how many bytes they take.
fn write_at(text: &str, buffer: &mut [u8], at: usize) -> usize
    requires { at ≤ length buffer.old }
    ensures front { buffer.new ≡ take at
        buffer.old ++ (take result text.now ++ drop (at + result) buffer.old) }
    ensures room { at + result ≤ length buffer.old }
    ensures whole { IsCharBoundary text.now result }
    ensures most { (i : ℕ) → result < i → at + i ≤ length buffer.old
        → ¬ (IsCharBoundary text.now i) }
{
    let written = text.floor_char_boundary(buffer.len() - at);
    buffer[at..at + written].copy_from_slice(&text.as_bytes()[..written]);
    written
}
