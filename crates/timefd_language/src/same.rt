//! How the words of a bracket's head are compared.

ghost use Rattle.std.specs.Prelude.{◌≡◌, length};
ghost use Rattle.timefd_language.specs.Bytes.{is_version_three};
ghost use Rattle.timefd_language.specs.Bytes as spec;

use crate::description_version::DescriptionVersion;

/// Whether two words are the same: byte for byte in version 3, and ignoring ASCII case in versions 1
/// and 2.
#[inline(always)]
pub fn same(version: DescriptionVersion, word: &str, text: &str) -> bool
    ensures { result ≡ spec.same (is_version_three version) word.now text.now }
{
    if word.len() != text.len() {
        return false;
    }
    if equal(word.as_bytes(), text.as_bytes()) {
        return true;
    }
    if version.is_strict() {
        return false;
    }
    word.eq_ignore_ascii_case(text)
}

/// Whether the bytes are equal to the word, which has as many. If the word is a constant, the
/// comparison compiles to neither a loop nor a call.
#[inline(always)]
pub fn equal(word: &[u8], bytes: &[u8]) -> bool
    requires { length word.now ≡ length bytes.now }
    ensures { result ≡ spec.equal word.now bytes.now }
{
    for (at, byte) in word.iter().enumerate() {
        if *byte != bytes[at] {
            return false;
        }
    }
    true
}
