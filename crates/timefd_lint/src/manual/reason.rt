//! Why a description stays, in words.

ghost use Rattle.std.specs.Prelude.{◌≡◌, IfOk, string_bytes};
ghost use Rattle.timefd_lint.specs.Manual.Reasons as spec;

use crate::manual::call::{UnversionedCall, call_before};
use std::alloc::{AllocError, Global};
use timefd_lint_scan::{SourceDescription, VersionPosition};

/// Why a description with `[optional ..]` or `[first ..]` isn't converted to a version. An `Err` says that
/// memory ran out.
pub fn with_items(alloc: Global, version: &str) -> Result<String, AllocError>
    ensures { IfOk result (λ text. string_bytes text ≡ spec.with_items version.now) }
{
    format!(in alloc;
        "the conversion to version {version} takes at most 100 `[optional ..]` and `[first ..]`, and no U+0001 beside them"
    )
}

/// Why a description stays, and its literal in another version. An `Err` says that memory ran out.
pub fn reason(
    alloc: Global,
    version: &str,
    source: &str,
    description: &SourceDescription,
    new: &str,
) -> Result<String, AllocError>
    ensures { IfOk result (λ text. string_bytes text
        ≡ spec.reason version.now source.now description.now new.now) }
{
    match description.version {
        VersionPosition::Call => {
            let call = call_before(source.as_bytes(), description.piece.start);
            at_call(alloc, version, call, new)
        }
        VersionPosition::Elsewhere => format!(in alloc;
            "a comment says the version; in version {version} it is `{new}`"
        ),
        VersionPosition::Digit(_) | VersionPosition::Unsaid => format!(in alloc;
            "in version {version} it is `{new}`, which has other lines or needs another literal"
        ),
    }
}

// Why the description of a call without a number for its version stays.
fn at_call(
    alloc: Global,
    version: &str,
    call: Option<UnversionedCall>,
    new: &str,
) -> Result<String, AllocError>
    ensures { IfOk result (λ text. string_bytes text ≡ spec.at_call version.now call new.now) }
{
    match call {
        Some(call) => said_by_call(alloc, version, call.name(), call.numbered(), new),
        None => format!(in alloc;
            "its call has no number for the version; in version {version} it is `{new}`"
        ),
    }
}

fn said_by_call(
    alloc: Global,
    version: &str,
    name: &str,
    numbered: &str,
    new: &str,
) -> Result<String, AllocError>
    ensures { IfOk result (λ text. string_bytes text ≡ spec.said_by_call version.now name.now
        numbered.now new.now) }
{
    let call = numbered_call(alloc, version, numbered, new)?;
    format!(in alloc; "`{name}` has no number for the version; `{call}` means the same")
}

// A call with a number for the version.
fn numbered_call(alloc: Global, version: &str, name: &str, new: &str) -> Result<String, AllocError>
    ensures { IfOk result (λ text. string_bytes text ≡ spec.numbered_call version.now name.now new.now) }
{
    format!(in alloc; "{name}::<{version}>({new})")
}
