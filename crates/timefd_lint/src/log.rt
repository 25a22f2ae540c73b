//! A log of SARIF 2.1.0, which holds the results of a run.

ghost use Rattle.std.specs.Prelude.{◌≡◌, IfErr, IfOk, OnOk, drop};
ghost use Rattle.timefd_lint.specs.Causes.{IsCausedBy};
ghost use Rattle.timefd_lint.specs.Logs as spec;

use crate::line::{LintError, write};
use crate::rules::push_rules;
use std::alloc::{AllocError, Global};
use timefd_bin_streams::Sink;

/// The part of the log before the rules: it names the program.
const PROGRAM: &str =
    "{\"$schema\":\"https://json.schemastore.org/sarif-2.1.0.json\",\"version\":\"2.1.0\",\"runs\":[
{\"columnKind\":\"unicodeCodePoints\",\"tool\":{\"driver\":{\"name\":\"timefd_lint\",\"version\":\"0.2.0\",\"rules\":[
";

/// The part between the rules and the results.
const RESULTS: &str = "]}},\"results\":[
";

/// The part after the results.
const END: &str = "]}]}\n";

// The results without the comma before the first one.
fn without_comma(results: &[u8]) -> &[u8]
    ensures { result.now ≡ drop 1 results.now }
{
    match results {
        [] => results,
        [_, after @ ..] => after,
    }
}

/// Joins `front`, the members and `end`. Each member begins with a comma, and the first one's is left out. An
/// `Err` says that memory ran out.
fn joined(alloc: Global, front: &[u8], members: &[u8], end: &str) -> Result<Vec<u8>, AllocError>
    ensures { IfOk result (λ log. log.items ≡ spec.joined front.now members.now end.now) }
{
    let mut out = Vec::new(alloc);
    out.extend_from_slice(front)?;
    out.extend_from_slice(without_comma(members))?;
    out.extend_from_slice(end.as_bytes())?;
    Ok(out)
}

/// The part of the log before the results: the program, and a rule for each code that a result may have. An
/// `Err` says that memory ran out.
fn head(alloc: Global) -> Result<Vec<u8>, AllocError>
    ensures { IfOk result (λ head. spec.IsHead head.items) }
{
    let mut rules = Vec::new(alloc);
    push_rules(&mut rules)?;
    joined(alloc, PROGRAM.as_bytes(), &rules, RESULTS)
}

/// Writes the log with these results, each of which begins with a comma. An `Err` says why the run ends here.
pub fn write_log<W: Sink>(alloc: Global, results: &[u8], writer: &mut W) -> Result<(), LintError>
    ensures written { OnOk result (spec.WritesLog results.now (W.contents writer.old) (W.contents writer.new)) }
    ensures unwritten { IfErr result (IsCausedBy (W.has_failed writer.new)) }
{
    let head = head(alloc)?;
    let log = joined(alloc, &head, results, END)?;
    write(writer, &log)
}
