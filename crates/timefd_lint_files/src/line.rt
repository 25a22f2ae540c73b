//! What a line of a `.gitignore` file says.

ghost use Rattle.std.specs.Prelude.{◌≡◌, ◌≤◌, false, length};
ghost use Rattle.timefd_lint_files.specs.Lines as spec;
ghost use Rattle.timefd_lint_files.specs.Lines.{seen, seen_any};

/// What a line says, with its tokens still unread.
#[derive(Clone, Copy)]
pub struct PatternLine<'a> {
    /// Whether matching paths are kept instead of ignored: the line begins with `!`.
    pub is_negated: bool,
    /// Whether it matches folders alone: the line ends with `/`.
    pub is_for_folders: bool,
    /// Whether it matches paths relative to its file's folder: it has a `/` before its end. Without one it
    /// matches names in each folder below.
    pub is_anchored: bool,
    /// The text that the tokens are read from.
    pub text: &'a [u8],
}

/// Whether a byte is a space without a backslash before it.
fn is_spare(is_quoted: bool, byte: u8) -> bool
    ensures { result ≡ spec.is_spare is_quoted byte }
{
    !is_quoted && byte == b' '
}

/// Whether a byte is a backslash that quotes the next one.
fn quotes(is_quoted: bool, byte: u8) -> bool
    ensures { result ≡ spec.quotes is_quoted byte }
{
    !is_quoted && byte == b'\\'
}

/// How many bytes of a line remain without the spaces at its end. A space after a backslash stays.
#[tactic(auto, using(crate::proofs::LineLemmas::one_more, crate::proofs::LineLemmas::one_spare))]
fn kept_count(line: &[u8]) -> usize
    ensures count { result ≡ spec.kept_count false line.now }
    ensures within { result ≤ length line.now }
{
    let mut kept = 0;
    let mut is_quoted = false;
    for (at, byte) in line.iter().enumerate() {
        if !is_spare(is_quoted, *byte) {
            kept = at + 1;
        }
        is_quoted = quotes(is_quoted, *byte);
    }
    kept
}

/// The line without the spaces at its end.
fn trimmed(line: &[u8]) -> &[u8]
    ensures { result.now ≡ spec.trimmed line.now }
{
    &line[..kept_count(line)]
}

/// The line without a carriage return at its end.
fn without_return(line: &[u8]) -> &[u8]
    ensures { result.now ≡ spec.without_last 13 line.now }
{
    match line {
        [front @ .., b'\r'] => front,
        _ => line,
    }
}

/// What the line says after an optional `!`.
fn unnegated(is_negated: bool, line: &[u8]) -> PatternLine<'_>
    ensures { seen result ≡ spec.unnegated is_negated line.now }
{
    match line {
        [front @ .., b'/'] => anchored(is_negated, true, front),
        _ => anchored(is_negated, false, line),
    }
}

/// What the line says, without a `/` at its end.
fn anchored(is_negated: bool, is_for_folders: bool, line: &[u8]) -> PatternLine<'_>
    ensures { seen result ≡ spec.anchored is_negated is_for_folders line.now }
{
    let text = match line {
        [b'/', after @ ..] => after,
        _ => line,
    };
    PatternLine {
        is_negated,
        is_for_folders,
        is_anchored: line.contains(&b'/'),
        text,
    }
}

/// What a line says. `None` if it is empty or a comment.
pub fn line_of(line: &[u8]) -> Option<PatternLine<'_>>
    ensures { seen_any result ≡ spec.line_of line.now }
{
    let line = trimmed(without_return(line));
    match line {
        [] | [b'#', ..] => None,
        [b'!', after @ ..] => Some(unnegated(true, after)),
        _ => Some(unnegated(false, line)),
    }
}
