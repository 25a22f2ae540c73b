//! The text of a description before a cursor.

ghost use Rattle.std.specs.Prelude.{◌≡◌, length, nat_lt, take, drop};
ghost use Rattle.std.specs.List.{prefix_len};
ghost use Rattle.timefd_language.specs.Bytes as bytes;
ghost use Rattle.timefd_lint_lsp.specs.Editor.Cursors as spec;

use timefd_lint_scan::{SourceDescription, index_in_source};

/// How many bytes of a description precede a cursor, which is at this index of the document. `None` if the cursor
/// is within an escape, or outside of the text.
pub fn bytes_before(description: &SourceDescription, index: usize) -> Option<usize>
    ensures { result ≡ spec.bytes_before description.now index }
{
    let count = count_before(&description.unescaped.positions, index);
    if index_in_source(description, count) == index {
        Some(count)
    } else {
        None
    }
}

// How many of these positions, from the first on, precede an index.
fn count_before(positions: &[usize], index: usize) -> usize
    ensures { result ≡ prefix_len (λ p. nat_lt p index) positions.now }
{
    for (count, position) in positions.iter().enumerate() {
        if *position >= index {
            return count;
        }
    }
    positions.len()
}

/// A text without the word that it ends with, and that word, which may be empty.
#[tactic(auto, using(crate::proofs::EditorLemmas::CursorLemmas::at_boundary))]
pub fn last_word(text: &str) -> (&str, &str)
    ensures before { result.0.now ≡ take (spec.word_start text.now) text.now }
    ensures word { result.1.now ≡ drop (spec.word_start text.now) text.now }
{
    let start = word_start(text.as_bytes());
    text.split_at(start)
}

// Where the word begins that a text ends with: after the last byte that isn't one of a word.
fn word_start(bytes: &[u8]) -> usize
    ensures { result ≡ spec.word_start bytes.now }
{
    let mut start = 0;
    for (index, byte) in bytes.iter().enumerate() {
        if !is_of_word(*byte) {
            start = index + 1;
        }
    }
    start
}

// Whether a byte is one of a name, a key or a value.
fn is_of_word(byte: u8) -> bool
    ensures { result ≡ bytes.is_key_byte byte }
{
    byte != b':' && !is_special(byte) && !is_white(byte)
}

/// Whether a byte ends each word without being white: `[`, `]` or a backslash.
pub fn is_special(byte: u8) -> bool
    ensures { result ≡ bytes.is_special byte }
{
    byte == b'[' || byte == b']' || byte == b'\\'
}

/// Whether a byte is white space.
pub fn is_white(byte: u8) -> bool
    ensures { result ≡ bytes.is_white byte }
{
    byte == b'\t' || byte == b'\n' || byte == 12 || byte == b'\r' || byte == b' '
}
