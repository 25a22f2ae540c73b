//! A word that should be the code of an error or a warning, or a level.

ghost use Rattle.std.specs.Prelude.{◌≡◌, IfOk, string_bytes};
ghost use Rattle.timefd_lint.specs.NoCodes as spec;

use crate::all_codes::{all_codes, warning_codes};
use crate::none_of::none_of;
use std::alloc::{AllocError, Global};
use timefd_lang_warnings::Warning;

// The words for levels.
const LEVELS: &[&str] = &["allow", "warn", "deny"];

/// Says that there is no error and no warning with this code, which one is nearest, and which there are. An `Err`
/// says that memory ran out.
pub fn no_code_sentence(alloc: Global, name: &str) -> Result<String, AllocError>
    ensures { IfOk result (λ text. spec.IsNoCode name.now (string_bytes text)) }
{
    let all = all_codes(alloc)?;
    none_of(alloc, "there is no error or warning", &all, name)
}

/// Says that there is no warning with this code, which one is nearest, and which there are. An `Err` says that memory
/// ran out.
pub fn no_warning_sentence(alloc: Global, name: &str) -> Result<String, AllocError>
    ensures { IfOk result (λ text. spec.IsNoWarning name.now (string_bytes text)) }
{
    let all = warning_codes(alloc)?;
    none_of(alloc, "there is no warning", &all, name)
}

/// Says that a warning has no level of this name, which one is nearest, and which there are. An `Err` says that memory
/// ran out.
pub fn no_level_sentence(alloc: Global, warning: Warning, word: &str) -> Result<String, AllocError>
    ensures { IfOk result (λ text. spec.IsNoLevel warning word.now (string_bytes text)) }
{
    let what = without_level(alloc, warning)?;
    none_of(alloc, &what, LEVELS, word)
}

// The front of the sentence on a level.
fn without_level(alloc: Global, warning: Warning) -> Result<String, AllocError>
    ensures { IfOk result (λ text. string_bytes text ≡ spec.without_level warning) }
{
    let code = warning.name();
    format!(in alloc; "`{code}` has no level")
}
