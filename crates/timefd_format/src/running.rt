//! A run that writes moments: its time zones, its descriptions, its input and its output.

ghost use Rattle.std.specs.Prelude.{⊤};
ghost use Rattle.timefd_format.specs.Statuses.{IsOneOfSix};

use crate::asked::Request;
use crate::converted::{Described, limits_sentence, own_description, refused_sentence};
use crate::end::RunOutcome;
use crate::from_jiff::Error;
use crate::language::Languages;
use crate::message::Manner;
use crate::names::GivenNames;
use crate::outcome::RunError;
use crate::progress::{Progress, Watched};
use crate::report::report_sentence;
use crate::run::run;
use crate::source::Clocks;
use crate::status::{
    REFUSED, WRONG_ARGUMENTS, end_status, errors, no_memory, reported, write_failed,
};
use crate::to_read::{description_to_read, reading_limits_sentence};
use crate::zones::{Zones, now_of};
use jiff_tz::TimeZone;
use std::alloc::AllocError;
use std::io::{BufReader, BufWriter, IsTerminal};
use timefd_bin_streams::{Environment, Failed, FromBufReader, Sink, ToWriter, shows_colors};
use timefd_lang_dialect::DialectError;

// How many bytes of the standard input are read at once.
const BUFFER: usize = 65_536;

/// Does a run, and returns its status. Without moments it takes the lines of the standard input.
#[tactic(auto, using(crate::proofs::StatusLemmas::six_without_memory, crate::proofs::StatusLemmas::six_of))]
pub(crate) fn run_status(rt: &HostRuntime, request: Request<'_>, moments: &[&str]) -> u8
    ensures { IsOneOfSix result }
{
    let Ok(zones) = zones_of(rt, request, moments) else {
        return no_memory(&mut errors(rt));
    };
    let Some(name) = request.zone else {
        return zoned_status(rt, request, moments, &zones, None);
    };
    match zones.database.get(name) {
        Ok(zone) => zoned_status(rt, request, moments, &zones, Some(zone)),
        Err(Error::TimeZoneNotFound) => unknown_zone(rt, &zones, name),
        Err(_) => no_memory(&mut errors(rt)),
    }
}

// The time zones that the words of a run may name.
fn zones_of(rt: &HostRuntime, request: Request<'_>, moments: &[&str]) -> Result<Zones, AllocError> {
    if request.read.is_none() && moments.is_empty() {
        return Zones::all(rt);
    }
    let mut zones = Zones::new(rt);
    if request.read.is_none() {
        for moment in moments {
            if let Some(name) = in_brackets(moment) {
                zones = zones.with(rt, name)?;
            }
        }
    }
    match request.zone {
        Some(name) => zones.with(rt, name),
        None => Ok(zones),
    }
}

// What is in brackets at the end of a word.
fn in_brackets(word: &str) -> Option<&str> {
    let (_, name) = word.strip_suffix(']')?.rsplit_once('[')?;
    Some(name)
}

// Reports that there is no such time zone, and names the nearest one.
#[tactic(auto, using(crate::proofs::StatusLemmas::six_without_memory, crate::proofs::StatusLemmas::six_of))]
fn unknown_zone(rt: &HostRuntime, zones: &Zones, name: &str) -> u8
    ensures { IsOneOfSix result }
{
    match zones.unknown_sentence(rt.alloc(), name) {
        Ok(sentence) => reported(rt.alloc(), &mut errors(rt), WRONG_ARGUMENTS, &sentence),
        Err(AllocError) => no_memory(&mut errors(rt)),
    }
}

#[tactic(auto, using(crate::proofs::StatusLemmas::six_without_memory, crate::proofs::StatusLemmas::six_of))]
fn zoned_status(
    rt: &HostRuntime,
    request: Request<'_>,
    moments: &[&str],
    zones: &Zones,
    zone: Option<TimeZone<'_>>,
) -> u8
    ensures { IsOneOfSix result }
{
    let Ok(now) = now_of(rt) else {
        return no_memory(&mut errors(rt));
    };
    let names = GivenNames {
        now,
        zones: &zones.database,
    };
    clocked_status(rt, request, moments, Clocks { names, zone })
}

#[tactic(auto, using(crate::proofs::StatusLemmas::six_without_memory, crate::proofs::StatusLemmas::six_of))]
fn clocked_status(
    rt: &HostRuntime,
    request: Request<'_>,
    moments: &[&str],
    clocks: Clocks<'_>,
) -> u8
    ensures { IsOneOfSix result }
{
    let written = match own_description(rt.alloc(), request.wordings.written, request.description) {
        Ok(written) => written,
        Err(error) => return not_converted(rt, error),
    };
    if !request.is_quiet && report_limits(rt, &written).is_err() {
        return no_memory(&mut errors(rt));
    }
    let Some(text) = request.read else {
        return described_status(rt, request, clocks, None, &written, moments);
    };
    let read = match description_to_read(rt.alloc(), request.wordings.read, text) {
        Ok(read) => read,
        Err(error) => return not_converted(rt, error),
    };
    if !request.is_quiet && report_reading_limits(rt, &read).is_err() {
        return no_memory(&mut errors(rt));
    }
    described_status(rt, request, clocks, Some(&read), &written, moments)
}

// Reports why a format of another language is not converted.
#[tactic(auto, using(crate::proofs::StatusLemmas::six_without_memory, crate::proofs::StatusLemmas::six_of))]
fn not_converted(rt: &HostRuntime, error: DialectError) -> u8
    ensures { IsOneOfSix result }
{
    match error {
        DialectError::Refused(refusal) => match refused_sentence(rt.alloc(), refusal) {
            Ok(sentence) => reported(rt.alloc(), &mut errors(rt), REFUSED, &sentence),
            Err(AllocError) => no_memory(&mut errors(rt)),
        },
        DialectError::Memory(_) => no_memory(&mut errors(rt)),
    }
}

// Reports the moments for which a format writes the same as its text in version 3, unless that's
// all of them.
fn report_limits(rt: &HostRuntime, description: &Described<'_>) -> Result<(), AllocError> {
    if let Some(sentence) = limits_sentence(rt.alloc(), description.limits())? {
        report_sentence(rt.alloc(), &mut errors(rt), &sentence)?;
    }
    Ok(())
}

// Reports the moments for which texts of a format are read, unless that's all of them.
fn report_reading_limits(rt: &HostRuntime, read: &Described<'_>) -> Result<(), AllocError> {
    if let Some(sentence) = reading_limits_sentence(rt.alloc(), read.limits())? {
        report_sentence(rt.alloc(), &mut errors(rt), &sentence)?;
    }
    Ok(())
}

#[tactic(auto, using(crate::proofs::StatusLemmas::six_without_memory, crate::proofs::StatusLemmas::six_of, crate::proofs::StatusLemmas::six_at_end))]
fn described_status(
    rt: &HostRuntime,
    request: Request<'_>,
    clocks: Clocks<'_>,
    read: Option<&Described<'_>>,
    written: &Described<'_>,
    moments: &[&str],
) -> u8
    ensures { IsOneOfSix result }
{
    let Ok(output) = BufWriter::new(rt.alloc(), rt.stdout()) else {
        return no_memory(&mut errors(rt));
    };
    let mut output = ToWriter::new(output);
    let progress = Progress::new(rt);
    let end = run_to(
        rt,
        request,
        clocks,
        read,
        written,
        moments,
        &progress,
        &mut output,
    );
    progress.end();
    match (end, output.flush()) {
        (Ok(end), Ok(())) => end_status(rt.alloc(), &mut errors(rt), end.status()),
        (Err(RunError::Memory), _) => no_memory(&mut errors(rt)),
        (Err(RunError::Refused), Ok(())) => REFUSED,
        (Err(RunError::Write), _) | (_, Err(Failed)) => write_failed(rt.alloc(), &mut errors(rt)),
    }
}

fn run_to<W: Sink>(
    rt: &HostRuntime,
    request: Request<'_>,
    clocks: Clocks<'_>,
    read: Option<&Described<'_>>,
    written: &Described<'_>,
    moments: &[&str],
    progress: &Progress<'_>,
    output: &mut W,
) -> Result<RunOutcome, RunError> {
    let input = Watched::new(progress, rt.stdin());
    let Ok(input) = BufReader::with_capacity(rt.alloc(), BUFFER, input) else {
        return Err(RunError::Memory);
    };
    run(
        rt.alloc(),
        clocks,
        Manner {
            is_colored: is_colored(rt),
            is_quiet: request.is_quiet,
        },
        languages_of(read, written),
        text_of(read),
        written.text(),
        request.otherwise,
        request.column,
        moments,
        &mut FromBufReader::new(input),
        output,
        &mut errors(rt),
    )
}

// Whether faults are drawn in colours.
fn is_colored(rt: &HostRuntime) -> bool {
    rt.stderr().is_terminal() && shows_colors(&Environment { rt })
}

// The languages of both descriptions.
fn languages_of(read: Option<&Described<'_>>, written: &Described<'_>) -> Languages {
    let read = match read {
        Some(read) => read.language(),
        None => written.language(),
    };
    Languages {
        read,
        written: written.language(),
    }
}

// The text of the description that moments are read by, if there is one.
fn text_of<'a>(read: Option<&'a Described<'_>>) -> Option<&'a str> {
    match read {
        Some(read) => Some(read.text()),
        None => None,
    }
}
