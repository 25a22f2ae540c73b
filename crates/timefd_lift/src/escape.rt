//! What version 2 escapes in a text of version 1.

ghost use Rattle.std.specs.Prelude.{◌≡◌, ◌≤◌, ◌++◌, ◌&&◌, ◌==◌, not, if◌then◌else◌, length, take, drop, MatchOption, IsFalse};
ghost use Rattle.timefd_language.specs.Bytes.{left, right};
ghost use Rattle.timefd_lift.specs.Bytewise as spec;
ghost use Rattle.timefd_lift.specs.Bytewise.{outside, EndsOrIsEscaped, IsEscape};

use timefd_language::text::tail;

/// Whether the front of a text is written with an escape: outside of components, `[[`, `]` and `\`
/// are.
#[inline(always)]
fn is_escaped(in_component: bool, bytes: &[u8]) -> bool
    ensures { result ≡ (not in_component && spec.is_escaped bytes.now) }
{
    match bytes {
        _ if in_component => false,
        [b']', ..] => true,
        [b'\\', ..] => true,
        [b'[', b'[', ..] => true,
        _ => false,
    }
}

/// Whether what follows a byte that is kept is inside of a component.
#[inline(always)]
fn goes_on(in_component: bool, byte: u8) -> bool
    ensures { result ≡ (if in_component then not (byte == right) else byte == left) }
{
    if in_component {
        byte != b']'
    } else {
        byte == b'['
    }
}

/// The number of bytes at the front that are kept: components, and literals up to the first byte that
/// is written with an escape.
pub fn kept_len(bytes: &[u8]) -> usize
    ensures within { result ≤ length bytes.now }
    ensures kept { outside bytes.now ≡ take result bytes.now ++ outside (drop result bytes.now) }
    ensures up_to { EndsOrIsEscaped (drop result bytes.now) }
{
    let mut in_component = false;
    for (at, byte) in bytes.iter().enumerate() {
        if is_escaped(in_component, &bytes[at..]) {
            return at;
        }
        in_component = goes_on(in_component, *byte);
    }
    bytes.len()
}

/// The escape that is written for the front of a text outside of components, and what follows.
pub fn escape_of(text: &str) -> Option<(&'static str, &str)>
    ensures { MatchOption result (IsFalse (spec.is_escaped text.now))
        (λ x. IsEscape text.now x.0.now x.1.now) }
{
    match text.as_bytes() {
        [b']', ..] => Some(("\\]", tail(text))),
        [b'\\', ..] => Some(("\\\\", tail(text))),
        [b'[', b'[', ..] => Some(("\\[", tail(tail(text)))),
        _ => None,
    }
}
