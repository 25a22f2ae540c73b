//! The time zones of the system, read from its files.

ghost use Rattle.std.specs.Prelude.{◌≡◌, false, true, IfOk, string_bytes};
ghost use Rattle.jiff_tz.specs.Database.{zone_count};
ghost use Rattle.timefd_format.specs.KnownZones as spec;

use crate::clock::moment_now;
use crate::from_jiff::Error;
use crate::names::Now;
use crate::unknown_zone::unknown_zone_sentence;
use jiff_tz::{SystemTimeZone, TimeZone, TimeZoneDatabase};
use std::alloc::{AllocError, Global};
use std::io::{ErrorKind, Read};
use std::{env, fs};
use timefd_lint_diagnosis::nearest::nearest;

// Where systems keep their time zones.
const FOLDERS: [&str; 3] = [
    "/usr/share/zoneinfo",
    "/usr/share/lib/zoneinfo",
    "/etc/zoneinfo",
];

// The longest file that is read as a time zone. The files of the Time Zone Database have a few
// kilobytes.
const LONGEST: u64 = 1 << 20;

/// Time zones that were read, all or some of them.
#[derive(Drop)]
pub struct Zones {
    /// The time zones that were read.
    pub database: TimeZoneDatabase,
    /// Whether these are all zones of the system.
    is_whole: bool,
}

impl Zones {
    /// No time zone but `UTC`.
    pub fn new(rt: &HostRuntime) -> Zones
        ensures none { zone_count result.database ≡ 0 }
        ensures part { result.is_whole ≡ false }
    {
        Zones {
            database: TimeZoneDatabase::new(rt.alloc()),
            is_whole: false,
        }
    }

    /// All zones of the system. An `Err` says that memory ran out.
    pub fn all(rt: &HostRuntime) -> Result<Zones, AllocError>
        ensures { IfOk result (λ zones. zones.is_whole ≡ true) }
    {
        match TimeZoneDatabase::from_env(rt) {
            Ok(database) => Ok(Zones {
                database,
                is_whole: true,
            }),
            // What can't be read is left out of the database: memory that ran out is the only error.
            Err(_) => Err(AllocError),
        }
    }

    /// Adds the zone of this name, in upper or lower case, if the system has one. Reads the one file of
    /// that name if there is one, and all zones otherwise. An `Err` says that memory ran out.
    #[tactic(auto, using(crate::proofs::ZoneLemmas::whole, crate::proofs::ZoneLemmas::known, crate::proofs::ZoneLemmas::grown, crate::proofs::ZoneLemmas::filled))]
    pub fn with(self, rt: &HostRuntime, name: &str) -> Result<Zones, AllocError>
        ensures { IfOk result (spec.IsWith self name.now) }
    {
        if self.is_whole {
            return Ok(self);
        }
        if is_known(&self.database, name)? {
            return Ok(self);
        }
        let mut database = self.database;
        if insert_zone(rt, &mut database, name)? {
            Ok(Zones {
                database,
                is_whole: false,
            })
        } else {
            Zones::all(rt)
        }
    }

    /// The sentence for a name that no zone has, with the nearest name of a zone. An `Err` says that memory ran
    /// out.
    pub fn unknown_sentence(&self, alloc: Global, name: &str) -> Result<String, AllocError>
        ensures { IfOk result (λ text. spec.IsUnknownSentence name.now (string_bytes text)) }
    {
        let names = self.names(alloc)?;
        let nearest = nearest(alloc, &names, name)?;
        unknown_zone_sentence(alloc, name, nearest)
    }

    // The names of the zones.
    fn names(&self, alloc: Global) -> Result<Vec<&str>, AllocError> {
        self.database.available().collect(alloc)
    }
}

// Whether a name gives a zone.
#[tactic(auto, using(crate::proofs::ZoneLemmas::gives))]
fn is_known(zones: &TimeZoneDatabase, name: &str) -> Result<bool, AllocError>
    ensures { IfOk result (spec.Gives zones.now name.now) }
{
    match zones.get(name) {
        Ok(_) => Ok(true),
        Err(Error::TimeZoneNotFound) => Ok(false),
        // There is no other error of a name that there is no zone of, but memory that ran out.
        Err(_) => Err(AllocError),
    }
}

/// The current moment, on the clock of the zone that `TZ` names. If `TZ` isn't set, the zone is that of
/// `/etc/localtime`, or UTC if there is no such file. An `Err` says that memory ran out.
pub(crate) fn now_of(rt: &HostRuntime) -> Result<Now, AllocError>
    ensures { IfOk result spec.IsNow }
{
    match SystemTimeZone::read(rt) {
        Ok(system) => now_in(rt, &system),
        Err(Error::OutOfMemory) => Err(AllocError),
        Err(Error::Io(ErrorKind::NotFound)) if !is_set(rt) => Ok(now_at(rt, &TimeZone::UTC)),
        Err(_) => Ok(Now::NoZone),
    }
}

// Whether `TZ` is set.
fn is_set(rt: &HostRuntime) -> bool {
    !matches!(env::var(rt, "TZ"), Err(env::VarError::NotPresent))
}

fn now_in(rt: &HostRuntime, system: &SystemTimeZone) -> Result<Now, AllocError>
    ensures { IfOk result spec.IsNow }
{
    let mut zones = TimeZoneDatabase::new(rt.alloc());
    if let SystemTimeZone::Name { name, .. } = system {
        let _ = insert_zone(rt, &mut zones, name)?;
    }
    match system.time_zone(&zones) {
        Ok(zone) => Ok(now_at(rt, &zone)),
        Err(Error::OutOfMemory) => Err(AllocError),
        Err(_) => Ok(Now::NoZone),
    }
}

fn now_at(rt: &HostRuntime, zone: &TimeZone<'_>) -> Now
    ensures { spec.IsNow result }
{
    match moment_now(rt, zone) {
        Some(moment) => Now::Shown(moment),
        None => Now::NoClock,
    }
}

// Reads the zone's file into the database, from the first folder that has it, and returns whether one has.
fn insert_zone(
    rt: &HostRuntime,
    zones: &mut TimeZoneDatabase,
    name: &str,
) -> Result<bool, AllocError>
    ensures { IfOk result (spec.Adds name.now zones.old zones.new) }
{
    if !is_file_name(name) {
        return Ok(false);
    }
    match env::var(rt, "TZDIR") {
        Ok(folder) => insert_with(rt, zones, &folder, name),
        Err(_) => insert_from_folders(rt, zones, name),
    }
}

// Adds the zone of this name from a folder, or else from those where systems keep their time zones. Returns
// whether there is one.
fn insert_with(
    rt: &HostRuntime,
    zones: &mut TimeZoneDatabase,
    folder: &str,
    name: &str,
) -> Result<bool, AllocError>
    ensures { IfOk result (spec.Adds name.now zones.old zones.new) }
{
    if insert_from(rt, zones, folder, name)? {
        return Ok(true);
    }
    let is_added = insert_from_folders(rt, zones, name)?;
    Ok(is_added)
}

// Adds the zone of this name from the folders where systems keep their time zones. Returns whether there is
// one.
fn insert_from_folders(
    rt: &HostRuntime,
    zones: &mut TimeZoneDatabase,
    name: &str,
) -> Result<bool, AllocError>
    ensures { IfOk result (spec.Adds name.now zones.old zones.new) }
{
    for folder in FOLDERS {
        if insert_from(rt, zones, folder, name)? {
            return Ok(true);
        }
    }
    Ok(false)
}

// Whether a name may be that of a zone's file below a folder: `Etc/GMT+5`, but not `../zone` or `/zone`.
fn is_file_name(name: &str) -> bool {
    !name.starts_with('/')
        && name.bytes().all(|byte| {
            byte.is_ascii_alphanumeric() || matches!(byte, b'_' | b'-' | b'+' | b'/')
        })
}

// Reads the zone's file in the folder into the database, and returns whether there is one.
#[tactic(auto, using(crate::proofs::ZoneLemmas::added))]
fn insert_from(
    rt: &HostRuntime,
    zones: &mut TimeZoneDatabase,
    folder: &str,
    name: &str,
) -> Result<bool, AllocError>
    ensures { IfOk result (spec.Adds name.now zones.old zones.new) }
{
    let path = format!(in rt.alloc(); "{folder}/{name}")?;
    let Some(bytes) = bytes_of(rt, &path)? else {
        return Ok(false);
    };
    match zones.insert(name, &bytes) {
        Ok(()) => Ok(true),
        Err(Error::OutOfMemory) => Err(AllocError),
        Err(_) => Ok(false),
    }
}

// The bytes of a file that may be a time zone. `None` if it can't be read, or is longer than the longest
// that is read: the front of a time zone isn't the zone.
fn bytes_of(rt: &HostRuntime, path: &str) -> Result<Option<Vec<u8>>, AllocError> {
    let is_file = match fs::metadata(rt, path) {
        Ok(metadata) => metadata.is_file(),
        Err(_) => false,
    };
    if !is_file {
        return Ok(None);
    }
    let Ok(file) = fs::open(rt, path) else {
        return Ok(None);
    };
    let mut bytes = Vec::new(rt.alloc());
    match file.take(LONGEST + 1).read_to_end(&mut bytes) {
        Ok(_) if bytes.len() as u64 > LONGEST => Ok(None),
        Ok(_) => Ok(Some(bytes)),
        Err(error) if error.kind() == ErrorKind::OutOfMemory => Err(AllocError),
        Err(_) => Ok(None),
    }
}
