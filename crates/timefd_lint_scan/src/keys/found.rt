//! The descriptions in a file with keys.

ghost use Rattle.std.specs.Prelude.{◌≡◌, ◌++◌, IfOk, OnOk};
ghost use Rattle.std.specs.Option.{option_to_list};
ghost use Rattle.timefd_lint_scan.specs.Keys.Found.{AllValues, AreAllValues, AreValues};
ghost use Rattle.timefd_lint_scan.specs.Found.{AreInOrder};

use crate::SourceDescription;
use crate::description::push_any;
use crate::keys::comment::LinePosition;
use crate::keys::format::FileFormat;
use crate::keys::key::DescriptionKey;
use crate::keys::spot::KeySpot;
use crate::keys::step::KeyScan;
use crate::keys::visit::step_at;
use std::alloc::{AllocError, Global};

/// The values of keys in a file.
#[derive(Drop)]
pub struct Values {
    /// Those that are descriptions, in order; they don't overlap.
    pub descriptions: Vec<SourceDescription>,
    /// Where those begin that aren't looked at, as byte indices: a key or a comment names their language, but
    /// they aren't strings, or are written in a way that isn't read.
    pub unread: Vec<usize>,
}

// Adds the position of a value that isn't looked at.
fn push_unread(positions: &mut Vec<usize>, unread: Option<usize>) -> Result<(), AllocError>
    ensures { OnOk result (positions.new.items ≡ positions.old.items ++ option_to_list unread) }
{
    if let Some(at) = unread {
        positions.push(at)?;
    }
    Ok(())
}

/// The values of keys in a file of this format, at any depth: each string that is the value of one of the
/// keys, or an element of a list in brackets that is, and each one that a comment names a language for:
/// `# timefd: 3` (in JSON `// timefd: 3`) in its line, or alone in the line before its key. Of two keys with the
/// same name the first one counts, and a comment takes precedence over a key. Other comments are skipped, in
/// JSON those of JavaScript.
///
/// Each other value of the keys is one that isn't looked at: numbers and tables; a string with an escape that
/// the format doesn't have; strings of several lines; in YAML what is in another line than its key, after a tag
/// or an anchor, or without quotes in brackets or with two blanks in a row. After such an element the rest of
/// its list isn't looked at. The text of a YAML block is read as if it were outside of the block, and a number
/// without quotes as a string. An `Err` says that memory ran out.
#[tactic(auto, using(crate::proofs::KeysLemmas::FoundLemmas::none_yet, crate::proofs::KeysLemmas::FoundLemmas::first_line_reported, crate::proofs::KeysLemmas::FoundLemmas::no_stop_yet, crate::proofs::KeysLemmas::FoundLemmas::at_last, crate::proofs::KeysLemmas::FoundLemmas::each_at_last))]
pub fn values_by(
    alloc: Global,
    format: FileFormat,
    source: &str,
    keys: &[DescriptionKey<'_>],
) -> Result<Values, AllocError>
    ensures all { IfOk result (λ values. AreValues format source.now keys.now values.descriptions.items
        values.unread.items) }
    ensures stand { IfOk result (λ values. AllValues format source.now keys.now values.descriptions.items) }
    ensures in_order { IfOk result (λ values. AreInOrder 0 values.descriptions.items) }
{
    let scan = KeyScan {
        format,
        source,
        keys,
    };
    let mut descriptions = Vec::new(alloc);
    let mut unread = Vec::new(alloc);
    let mut line = LinePosition::first();
    let mut spot = KeySpot::first();
    let mut end = 0;
    'steps: while spot.at < source.len() {
        let step = step_at(alloc, scan, spot, line.reported)?;
        end = push_any(&mut descriptions, step.found, end)?;
        push_unread(&mut unread, step.unread)?;
        let next = KeySpot::after(source, spot.at, step.next);
        line = line.later(format, source.as_bytes(), spot.at, next.at);
        spot = next;
    }
    Ok(Values {
        descriptions,
        unread,
    })
}

/// The descriptions among the [values](values_by) of keys in a file. An `Err` says that memory ran out.
#[tactic(auto, using(crate::proofs::KeysLemmas::FoundLemmas::all_values))]
pub fn descriptions_by(
    alloc: Global,
    format: FileFormat,
    source: &str,
    keys: &[DescriptionKey<'_>],
) -> Result<Vec<SourceDescription>, AllocError>
    ensures all { IfOk result (λ found. AreAllValues format source.now keys.now found.items) }
    ensures values { IfOk result (λ found. AllValues format source.now keys.now found.items) }
    ensures in_order { IfOk result (λ found. AreInOrder 0 found.items) }
{
    let values = values_by(alloc, format, source, keys)?;
    Ok(values.descriptions)
}
