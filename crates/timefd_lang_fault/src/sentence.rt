//! The sentences of faults, part by part.

ghost use Rattle.std.specs.Prelude.{◌≡◌, ◌+◌, ◌≤◌, ◌++◌, length};
ghost use Rattle.timefd_lang_fault.specs.RuleKinds.{kind_of};
ghost use Rattle.timefd_lang_fault.specs.BorrowedFaults.{HasShortWords};
ghost use Rattle.timefd_lang_fault.specs.Excerpts.{IsExcerpt};
ghost use Rattle.timefd_lang_fault.specs.Parts.{combination_with, joined, not_supported_with, sentence_with, texts};

use crate::excerpt::Excerpt;
use crate::rule::FaultKind;

/// Writes the sentence of a fault of this kind. `index` is its index as it is written.
pub fn write_kind(kind: FaultKind, index: &str, buffer: &mut [u8]) -> Excerpt
    requires words { HasShortWords (kind_of kind) }
    requires index { length index.now ≤ 40 }
    ensures { IsExcerpt (sentence_with (kind_of kind.entry) index.now) buffer.old buffer.new result }
{
    match kind {
        FaultKind::UnclosedBracket => {
            write_all(&["unclosed opening bracket at byte index ", index], buffer)
        }
        FaultKind::InvalidName(name) => {
            let (before, after) = ("invalid component name `", "` at byte index ");
            write_word(before, name, after, index, buffer)
        }
        FaultKind::InvalidModifier(value) => {
            let (before, after) = ("invalid modifier `", "` at byte index ");
            write_word(before, value, after, index, buffer)
        }
        FaultKind::MissingName => {
            write_all(&["missing component name at byte index ", index], buffer)
        }
        FaultKind::MissingModifier(key) => {
            let (before, after) = (
                "missing required modifier `",
                "` for component at byte index ",
            );
            write_word(before, key, after, index, buffer)
        }
        FaultKind::Expected(what) => {
            write_word("expected ", what, " at byte index ", index, buffer)
        }
        FaultKind::NotSupported(what, context) => write_unsupported(what, context, index, buffer),
        FaultKind::DuplicateModifier(key) => {
            let (before, after) = ("duplicate modifier `", "` at byte index ");
            write_word(before, key, after, index, buffer)
        }
        FaultKind::InvalidCombination(key, context) => {
            write_combination(key, context, index, buffer)
        }
    }
}

// A sentence that quotes one word.
fn write_word(before: &str, word: &str, after: &str, index: &str, buffer: &mut [u8]) -> Excerpt
    requires { length before.now + length after.now + length index.now ≤ 200 }
    ensures { IsExcerpt (before.now ++ (word.now ++ (after.now ++ index.now))) buffer.old buffer.new
        result }
{
    write_all(&[before, word, after, index], buffer)
}

// What isn't supported and, if the context isn't empty, in what.
fn write_unsupported(what: &str, context: &str, index: &str, buffer: &mut [u8]) -> Excerpt
    requires { length what.now + length context.now + length index.now ≤ 200 }
    ensures { IsExcerpt (not_supported_with what.now context.now index.now) buffer.old buffer.new
        result }
{
    if context.is_empty() {
        return write_all(&[what, " is not supported at byte index ", index], buffer);
    }
    write_all(
        &[
            what,
            " is not supported in ",
            context,
            " at byte index ",
            index,
        ],
        buffer,
    )
}

// What isn't valid, and with what.
fn write_combination(key: &str, context: &str, index: &str, buffer: &mut [u8]) -> Excerpt
    requires { length key.now + length context.now + length index.now ≤ 200 }
    ensures { IsExcerpt (combination_with key.now context.now index.now) buffer.old buffer.new
        result }
{
    write_all(
        &[
            "the `",
            key,
            "` modifier is not valid at byte index ",
            index,
            " ",
            context,
        ],
        buffer,
    )
}

// Texts one after another.
fn write_all(parts: &[&str], buffer: &mut [u8]) -> Excerpt
    requires { length (joined (texts parts.now)) ≤ usize.MAX }
    ensures { IsExcerpt (joined (texts parts.now)) buffer.old buffer.new result }
{
    let mut excerpt = Excerpt::new();
    'parts: for part in parts {
        excerpt = excerpt.and(*part, buffer);
    }
    excerpt
}
