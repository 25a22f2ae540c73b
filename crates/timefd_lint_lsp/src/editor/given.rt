//! The keys that a bracket already has.

ghost use Rattle.std.specs.Prelude.{◌≡◌, ◌≤◌, drop, length};
ghost use Rattle.timefd_language.specs.Bytes.{is_version_three, same};
ghost use Rattle.timefd_lint_lsp.specs.Editor.Given as spec;

use crate::editor::cursor::{is_special, is_white};
use timefd_language::same::equal;
use timefd_parse::DescriptionVersion;

/// Whether a text begins with a word, as the version compares words.
pub fn begins(version: DescriptionVersion, word: &[u8], text: &[u8]) -> bool
    ensures { result ≡ spec.begins (is_version_three version) word.now text.now }
{
    let len = word.len();
    len <= text.len() && are_same(version, word, &text[..len])
}

fn are_same(version: DescriptionVersion, word: &[u8], text: &[u8]) -> bool
    requires { length word.now ≡ length text.now }
    ensures { result ≡ same (is_version_three version) word.now text.now }
{
    if version.is_strict() {
        return equal(word, text);
    }
    word.eq_ignore_ascii_case(text)
}

// Whether a text begins with a key and its colon.
fn begins_key(version: DescriptionVersion, key: &[u8], text: &[u8]) -> bool
    ensures { result ≡ spec.begins_key (is_version_three version) key.now text.now }
{
    begins(version, key, text) && is_colon(text, key.len())
}

// Whether the byte at an index is a colon.
fn is_colon(text: &[u8], index: usize) -> bool
    ensures { result ≡ spec.is_colon text.now index }
{
    index < text.len() && text[index] == b':'
}

/// Whether a key is given in the bracket that a text ends in.
pub fn is_given_before(version: DescriptionVersion, key: &[u8], text: &[u8]) -> bool
    ensures { result ≡ spec.is_given_before (is_version_three version) key.now text.now }
{
    let mut given = false;
    for (index, byte) in text.iter().enumerate() {
        let after = rest_from(text, index + 1);
        given = given_by(version, key, given, *byte, after);
    }
    given
}

fn rest_from(text: &[u8], index: usize) -> &[u8]
    requires { index ≤ length text.now }
    ensures { result.now ≡ drop index text.now }
{
    &text[index..]
}

// Whether a key is given up to this byte, which other bytes follow. A bracket begins with none.
fn given_by(version: DescriptionVersion, key: &[u8], given: bool, byte: u8, after: &[u8]) -> bool
    ensures { result ≡ spec.given_by (is_version_three version) key.now given byte after.now }
{
    if byte == b'[' {
        return false;
    }
    given || has_key(version, key, byte, after)
}

// Whether a key follows this byte, which is white then.
fn has_key(version: DescriptionVersion, key: &[u8], byte: u8, after: &[u8]) -> bool
    ensures { result ≡ spec.has_key (is_version_three version) key.now byte after.now }
{
    is_white(byte) && begins_key(version, key, after)
}

/// Whether a key is given in a text before its first bracket or backslash.
pub fn is_given_after(version: DescriptionVersion, key: &[u8], text: &[u8]) -> bool
    ensures { result ≡ spec.is_given_after (is_version_three version) key.now text.now }
{
    for (index, byte) in text.iter().enumerate() {
        if is_special(*byte) {
            return false;
        }
        let after = rest_from(text, index + 1);
        if has_key(version, key, *byte, after) {
            return true;
        }
    }
    false
}
