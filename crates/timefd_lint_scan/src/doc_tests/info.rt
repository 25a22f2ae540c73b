//! The words after a fence, which say whether a block is an example that rustdoc compiles.

ghost use Rattle.std.specs.Prelude.{◌≡◌, ◌≤◌, length, take};
ghost use Rattle.timefd_lint_scan.specs.DocTests as spec;

use crate::class::is_white;
use crate::dialect::is;
use crate::line::from;

/// What the words up to one say about a block.
#[derive(Clone, Copy)]
pub enum BlockLanguage {
    /// Nothing yet: without a word it is Rust.
    Unsaid,
    /// It is Rust.
    Rust,
    /// It is in another language.
    Other,
    /// It is Rust that has to fail, so it isn't looked at.
    Failing,
}

// Whether a word says how an example of Rust is compiled or run.
fn is_attribute(word: &[u8]) -> bool
    ensures { result ≡ spec.is_attribute word.now }
{
    is(word, "should_panic")
        || is(word, "no_run")
        || is(word, "test_harness")
        || is(word, "standalone_crate")
        || word.starts_with(b"ignore")
}

// What the words say up to one that says something.
fn with_word(language: BlockLanguage, word: &[u8]) -> BlockLanguage
    ensures { result ≡ spec.with_word language word.now }
{
    match language {
        BlockLanguage::Unsaid => {
            if is(word, "rust") || is_attribute(word) {
                BlockLanguage::Rust
            } else {
                BlockLanguage::Other
            }
        }
        BlockLanguage::Rust => BlockLanguage::Rust,
        BlockLanguage::Other => {
            if is(word, "rust") {
                BlockLanguage::Rust
            } else {
                BlockLanguage::Other
            }
        }
        BlockLanguage::Failing => BlockLanguage::Failing,
    }
}

// What the words say up to one that follows others.
fn after_word(language: BlockLanguage, word: &[u8]) -> BlockLanguage
    ensures { result ≡ spec.after_word language word.now }
{
    if is(word, "compile_fail") {
        BlockLanguage::Failing
    } else if word.is_empty() || word.starts_with(b"edition") {
        language
    } else {
        with_word(language, word)
    }
}

// Whether a byte is of a word: neither a comma nor a white byte.
fn is_of_word(byte: u8) -> bool
    ensures { result ≡ spec.is_of_word byte }
{
    !(byte == b',' || is_white(byte))
}

// Where the word ends that a text begins with.
fn word_end(text: &[u8]) -> usize
    ensures end { result ≡ spec.word_end text.now }
    ensures within { result ≤ length text.now }
{
    let mut end: usize = 0;
    let mut rest = text;
    'bytes: while let [byte, after @ ..] = rest {
        if !is_of_word(*byte) {
            return end;
        }
        end += 1;
        rest = after;
    }
    end
}

// The front of a text, up to an index.
fn front(text: &[u8], end: usize) -> &[u8]
    ensures { result.now ≡ take end text.now }
{
    text.get(..end).unwrap_or(text)
}

fn takes(language: BlockLanguage) -> bool
    ensures { result ≡ spec.takes language }
{
    match language {
        BlockLanguage::Unsaid | BlockLanguage::Rust => true,
        BlockLanguage::Other | BlockLanguage::Failing => false,
    }
}

/// Whether a block with these words after its fence is an example of Rust that has to compile.
#[tactic(auto, using(crate::proofs::DocTestLemmas::all_left))]
pub fn is_rust(info: &[u8]) -> bool
    ensures { result ≡ spec.is_rust info.now }
{
    let mut language = BlockLanguage::Unsaid;
    let mut rest = info;
    'words: while !rest.is_empty() {
        let end = word_end(rest);
        language = after_word(language, front(rest, end));
        rest = from(rest, end + 1);
    }
    takes(language)
}
