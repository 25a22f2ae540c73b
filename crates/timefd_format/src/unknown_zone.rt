//! What is reported about a name that no time zone has.

ghost use Rattle.std.specs.Prelude.{◌≡◌, IfOk, option_map, string_bytes};
ghost use Rattle.timefd_format.specs.KnownZones as spec;

use std::alloc::{AllocError, Global};
use timefd_lint_drawing::shown::safe;

/// The sentence for a name that no zone has, and what to write instead. An `Err` says that memory ran out.
pub fn unknown_zone_sentence(
    alloc: Global,
    name: &str,
    nearest: Option<&str>,
) -> Result<String, AllocError>
    ensures { IfOk result (λ text. string_bytes text
        ≡ spec.unknown_sentence name.now (option_map (λ n. n.now) nearest.entry)) }
{
    let name = safe(alloc, name)?;
    match nearest {
        Some(nearest) => {
            let nearest = safe(alloc, nearest)?;
            format!(in alloc; "there is no time zone `{name}`; the nearest one is {nearest}")
        }
        None => {
            format!(in alloc;
                "there is no time zone `{name}`; names look like Europe/Berlin and Etc/GMT+5"
            )
        }
    }
}
