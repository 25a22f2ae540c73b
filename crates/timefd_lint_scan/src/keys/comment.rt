//! Comments that name the language of strings: `# timefd: 3`, in JSON `// timefd: 3`.

ghost use Rattle.std.specs.Prelude.{◌≡◌, ◌≤◌, length};
ghost use Rattle.timefd_lint_scan.specs.Keys.Comments as spec;
ghost use Rattle.timefd_lint_scan.specs.Keys.Comments.{IsLineAt};
ghost use Rattle.timefd_lint_scan.specs.Bytes.{seen};

use crate::FormatLanguage;
use crate::class::{ByteSet, after_run, is_line_end};
use crate::dialect::dialect_of_word;
use crate::keys::bytes::after_blanks;
use crate::keys::format::FileFormat;
use crate::keys::style::ends_line;
use crate::line::{from, line_start};
use crate::marks::{after, first_word};

fn after_sign(format: FileFormat, text: &[u8]) -> Option<&[u8]>
    ensures { seen result ≡ spec.after_sign format text.now }
{
    match format {
        FileFormat::Toml | FileFormat::Yaml => after(text, b"#"),
        FileFormat::Json => after(text, b"//"),
    }
}

/// Whether a text begins with the end of a line, or with a comment, or is empty.
fn ends_comment(format: FileFormat, text: &[u8]) -> bool
    ensures { result ≡ spec.ends_comment format text.now }
{
    match format {
        FileFormat::Toml | FileFormat::Yaml => ends_line(text),
        FileFormat::Json => ends_line_of_json(text),
    }
}

fn ends_line_of_json(text: &[u8]) -> bool
    ensures { result ≡ spec.ends_line_of_json text.now }
{
    match text {
        [] => true,
        [byte, ..] => is_line_end(*byte) || text.starts_with(b"//") || text.starts_with(b"/*"),
    }
}

/// The language that the first word of a text names, if only blanks or a comment follow it in its line.
fn word_reported(format: FileFormat, text: &[u8]) -> Option<FormatLanguage>
    ensures { result ≡ spec.word_reported format text.now }
{
    if ends_comment(format, after_blanks(after_run(ByteSet::Word, text))) {
        dialect_of_word(first_word(text))
    } else {
        None
    }
}

/// The language that a comment at the front of a text names.
fn dialect_reported(format: FileFormat, text: &[u8]) -> Option<FormatLanguage>
    ensures { result ≡ spec.dialect_reported format text.now }
{
    let comment = after_blanks(after_sign(format, text)?);
    word_reported(format, after_blanks(after(comment, b"timefd:")?))
}

/// The language that a comment names after a string, in its line. The string is closed at the byte
/// `closing`.
pub fn reported_after(format: FileFormat, source: &[u8], closing: usize) -> Option<FormatLanguage>
    ensures { result ≡ spec.reported_after format source.now closing }
{
    dialect_reported(format, after_run(ByteSet::Aside, from(source, closing)))
}

/// The line before the one that begins at a position; empty if that is the first line.
pub fn line_in_front(source: &[u8], start: usize) -> &[u8]
    requires { start ≤ length source.now }
    ensures { result.now ≡ spec.line_in_front source.now start }
{
    let end = start.saturating_sub(1);
    &source[line_start(source, 0, 0, end)..end]
}

/// The language that a comment names that is alone in the line before the one that begins at `start`.
fn reported_in_front(format: FileFormat, source: &[u8], start: usize) -> Option<FormatLanguage>
    requires { start ≤ length source.now }
    ensures { result ≡ spec.reported_in_front format source.now start }
{
    dialect_reported(format, after_blanks(line_in_front(source, start)))
}

/// The line that a position is in.
#[derive(Clone, Copy)]
pub struct LinePosition {
    /// Where it begins, as a byte index.
    pub start: usize,
    /// The language that a comment names that is alone in the line before it.
    pub reported: Option<FormatLanguage>,
}

impl LinePosition {
    /// The first line, which has no line before it.
    pub fn first() -> LinePosition
        ensures { result ≡ spec.first_line }
    {
        LinePosition {
            start: 0,
            reported: None,
        }
    }

    /// The line of the later position `to`, if this is the line of `from`.
    pub fn later(self, format: FileFormat, source: &[u8], from: usize, to: usize) -> LinePosition
        requires line { IsLineAt format source.now from self }
        requires ordered { from ≤ to }
        requires within { to ≤ length source.now }
        ensures { IsLineAt format source.now to result }
    {
        let start = line_start(source, self.start, from, to);
        if start == self.start {
            return self;
        }
        LinePosition {
            start,
            reported: reported_in_front(format, source, start),
        }
    }
}
