//! The moment of a line, where it is found without a message.

ghost use Rattle.std.specs.Prelude.{IfSome, Ok, Some};
ghost use Rattle.timefd_format.specs.Moments.{IsNamed};
ghost use Rattle.timefd_format.specs.Sources.{AreLeavesIn, IsFoundIn, IsMomentIn};

use crate::fast::day::date_shown;
use crate::fast::spelled::moment_spelled;
use crate::names::GivenNames;
use crate::read_back::moment_shown;
use crate::source::{MomentSource, SourceKind, moment_in};
use std::str;
use timefd_date_moment::Moment;
use timefd_lang_node_list::Leaf;
use timefd_parse::BorrowedOutput;

/// The moment of a line without its newline that is a date, where no time zone changes it. `None` says nothing about
/// the line.
#[inline(always)]
pub fn date_found(
    source: &MomentSource<'_>,
    source_leaves: Option<&[Leaf<'_>]>,
    description: &BorrowedOutput<'_>,
    line: &[u8],
) -> Option<Moment>
    requires { AreLeavesIn source.now source_leaves }
    ensures { IfSome result (λ moment. IsMomentIn source.now description.now line.now (Ok moment)) }
{
    match &source.zone {
        Some(_zone) => None,
        None => date_shown_by(source, source_leaves, description, line),
    }
}

#[inline(always)]
#[tactic(auto, using(crate::proofs::ReadBackLemmas::whole))]
fn date_shown_by(
    source: &MomentSource<'_>,
    source_leaves: Option<&[Leaf<'_>]>,
    description: &BorrowedOutput<'_>,
    line: &[u8],
) -> Option<Moment>
    requires { AreLeavesIn source.now source_leaves }
    ensures { IfSome result (λ moment. IsFoundIn source.now (Some description.now) line.now (Ok moment)) }
{
    match &source.kind {
        SourceKind::Names(_names) => None,
        SourceKind::Texts(read) => {
            let moment = date_shown(read, source_leaves, line)?;
            Some(moment)
        }
    }
}

/// The moment that a line without its newline names or shows. `None` says nothing about the line.
#[inline(always)]
pub fn moment_found(
    source: &MomentSource<'_>,
    source_leaves: Option<&[Leaf<'_>]>,
    description: &BorrowedOutput<'_>,
    line: &[u8],
) -> Option<Moment>
    requires { AreLeavesIn source.now source_leaves }
    ensures { IfSome result (λ moment. IsMomentIn source.now description.now line.now (Ok moment)) }
{
    if let Some(moment) = moment_by_numbers(source, source_leaves, description, line) {
        return Some(moment);
    }
    moment_of_text(source, source_leaves, description, line)
}

// The moment of a text that shows only numbers, or of a usual name, where no time zone changes it. This needs no
// check that the text is UTF-8.
#[inline(always)]
fn moment_by_numbers(
    source: &MomentSource<'_>,
    source_leaves: Option<&[Leaf<'_>]>,
    description: &BorrowedOutput<'_>,
    line: &[u8],
) -> Option<Moment>
    requires { AreLeavesIn source.now source_leaves }
    ensures { IfSome result (λ moment. IsMomentIn source.now description.now line.now (Ok moment)) }
{
    match &source.zone {
        Some(_) => None,
        None => moment_shown_by(source, source_leaves, description, line),
    }
}

#[inline(always)]
#[tactic(auto, using(crate::proofs::ReadBackLemmas::whole))]
fn moment_shown_by(
    source: &MomentSource<'_>,
    source_leaves: Option<&[Leaf<'_>]>,
    description: &BorrowedOutput<'_>,
    line: &[u8],
) -> Option<Moment>
    requires { AreLeavesIn source.now source_leaves }
    ensures { IfSome result (λ moment. IsFoundIn source.now (Some description.now) line.now (Ok moment)) }
{
    match &source.kind {
        SourceKind::Names(names) => moment_named_at_once(names, line),
        SourceKind::Texts(read) => {
            let moment = moment_shown(read, source_leaves, line)?;
            Some(moment)
        }
    }
}

// The moment that a usual name spells. No bracket closes it, so it names no time zone.
#[inline(always)]
#[tactic(auto, using(crate::proofs::NameLemmas::named))]
fn moment_named_at_once(names: &GivenNames<'_>, name: &[u8]) -> Option<Moment>
    ensures { IfSome result (λ moment. IsNamed names.entry.now name.now (Ok moment)) }
{
    if name.ends_with(b"]") {
        return None;
    }
    moment_spelled(name)
}

#[inline(never)]
fn moment_of_text(
    source: &MomentSource<'_>,
    source_leaves: Option<&[Leaf<'_>]>,
    description: &BorrowedOutput<'_>,
    line: &[u8],
) -> Option<Moment>
    requires { AreLeavesIn source.now source_leaves }
    ensures { IfSome result (λ moment. IsMomentIn source.now description.now line.now (Ok moment)) }
{
    let Ok(text) = str::from_utf8(line) else {
        return None;
    };
    match moment_in(source, source_leaves, description, text) {
        Ok(moment) => Some(moment),
        Err(_) => None,
    }
}
