//! The text that a description would become.

ghost use Rattle.std.specs.Prelude.{◌≡◌, IfOk, IfSome, None, string_bytes};
ghost use Rattle.timefd_lint.specs.Manual.{BecomesNothing};
ghost use Rattle.timefd_lint_sources.specs.Judged.{text_of};
ghost use Rattle.timefd_lint_sources.specs.Rewriting.Written.{Becoming, IsLaidOutBy};

use std::alloc::{AllocError, Global};
use std::str;
use timefd_lint_rewrite::Layout;
use timefd_lint_scan::SourceDescription;
use timefd_lint_sources::rewriting::{Change, layout_of, text_by};

/// The text that a description would become. `None` if there is none. An `Err` says that memory ran out.
#[tactic(auto, using(crate::proofs::ManualLemmas::no_layout, crate::proofs::ManualLemmas::no_utf8))]
pub fn new_text(
    alloc: Global,
    change: Change,
    description: &SourceDescription,
) -> Result<Option<String>, AllocError>
    ensures becomes { IfOk result (λ found. IfSome found
        (λ new. Becoming change description.now (string_bytes new))) }
    ensures stays { IfOk result (λ found. found ≡ None → BecomesNothing change description.now) }
{
    let bytes = description.unescaped.text.as_slice();
    let Some(layout) = layout_of(change, description.dialect, bytes) else {
        return Ok(None);
    };
    match str::from_utf8(bytes) {
        Ok(text) => laid_out(alloc, change, layout, description, text),
        Err(_) => Ok(None),
    }
}

// The text that a description with this text would become in this layout. `None` if it is refused.
fn laid_out(
    alloc: Global,
    change: Change,
    layout: Layout,
    description: &SourceDescription,
    text: &str,
) -> Result<Option<String>, AllocError>
    requires layout { IsLaidOutBy change description.now layout }
    requires text { text.now ≡ text_of description.now }
    ensures becomes { IfOk result (λ found. IfSome found
        (λ new. Becoming change description.now (string_bytes new))) }
    ensures stays { IfOk result (λ found. found ≡ None → BecomesNothing change description.now) }
{
    text_by(alloc, layout, description, text)
}
