//! The parts of a run: files that have the settings of one file.

ghost use Rattle.std.specs.Prelude.{◌≡◌, ◌++◌, ◌∷◌, [], IfErr, IfOk, OnOk, map, string_bytes};
ghost use Rattle.std.specs.List.{list_any};
ghost use Rattle.timefd_lint_diagnosis.specs.Words.{texts};
ghost use Rattle.timefd_lint_files.specs.declared.walk_error.WalkError.TheVariants as walks;
ghost use Rattle.timefd_lint_options.specs.Config.Config as config;
ghost use Rattle.timefd_lint_scan.specs.Keys.Keys.{named_all};
ghost use Rattle.timefd_lint.specs.Parts as spec;

use crate::config::{counted_keys, counted_levels};
use crate::options::{RunOptions, run_options};
use crate::projects::Named;
use crate::sought::sought;
use crate::source_file::are_sources;
use std::alloc::{AllocError, Global};
use timefd_lint_files::{FileSystem, WalkError, expanded};
use timefd_lint_options::RunSettings;
use timefd_lint_options::config::{OwnedKey, same_keys, with_keys, with_levels};
use timefd_lint_scan::OwnCall;
use timefd_lint_scan::keys::DescriptionKey;

/// Files, and the settings, keys and calls that they are checked by.
#[derive(Drop)]
pub struct RunPart<'a> {
    pub settings: RunSettings<'a>,
    pub keys: Vec<DescriptionKey<'a>>,
    pub calls: &'a [OwnCall],
    /// Whether no file is named, so that the standard input is read.
    pub reads_input: bool,
    /// The names of the files.
    pub files: Vec<String>,
}

impl RunPart<'_> {
    /// The options of a run over these files.
    pub fn options<'a>(&'a self, is_colored: bool, files: &'a [&'a str]) -> RunOptions<'a>
        ensures { spec.AreOptions is_colored self.now files.now result }
    {
        run_options(self.settings, is_colored, &self.keys, self.calls, files)
    }

    /// Whether there is no file, and the standard input isn't read.
    pub fn is_empty(&self) -> bool
        ensures { result ≡ spec.is_empty self.now }
    {
        self.files.is_empty() && !self.reads_input
    }

    /// How many files are checked. The standard input is one.
    fn file_count(&self) -> usize
        ensures { result ≡ spec.file_count_of self.now }
    {
        if self.reads_input {
            1
        } else {
            self.files.len()
        }
    }

    /// Whether something is read line by line, or as a whole text: a file that is no source, or the standard input.
    fn has_lines(&self) -> bool
        ensures { result ≡ spec.has_lines self.now }
    {
        let options = self.options(false, &[]);
        if self.reads_input {
            return !options.is_source;
        }
        !are_sources(options, &self.files)
    }
}

/// The keys of a command line, then those of a file of settings.
pub fn all_keys<'a>(
    alloc: Global,
    keys: &'a [DescriptionKey<'_>],
    more: &'a [OwnedKey],
) -> Result<Vec<DescriptionKey<'a>>, AllocError>
    ensures { IfOk result (λ all. named_all all.items ≡ named_all keys.now ++ config.named_all more.now) }
{
    with_keys(same_keys(alloc, keys)?, more)
}

/// The files that names lead to, with the settings and keys of the command line, and those of the names' file of settings
/// after them, and with the calls of that file. A folder means all sources below it, except what that file excludes.
fn part_of<'a, S: FileSystem>(
    system: &S,
    alloc: Global,
    settings: RunSettings<'a>,
    keys: &'a [DescriptionKey<'_>],
    named: &'a Named<'_>,
) -> Result<RunPart<'a>, WalkError>
    ensures part { IfOk result (spec.IsPartOf (S.lists system.now) (S.holds system.now) (S.folders system.now)
        settings.entry keys.now named.now) }
    ensures error { IfErr result (spec.IsUnwalked (S.fails system.now) named.now) }
{
    let config = &named.project.config;
    let keys = all_keys(alloc, keys, counted_keys(settings, config))?;
    let sought = sought(settings, &keys, named.project.excluded());
    let files = expanded(system, alloc, sought, named.names)?;
    Ok(RunPart {
        settings: with_levels(settings, counted_levels(settings, config)),
        keys,
        calls: &config.calls,
        reads_input: named.names.is_empty(),
        files,
    })
}

fn push_part<'a>(parts: &mut Vec<RunPart<'a>>, part: RunPart<'a>) -> Result<(), WalkError>
    ensures added { OnOk result (parts.new.items ≡ parts.old.items ++ part.entry ∷ []) }
    ensures memory { IfErr result (λ e. e ≡ walks.Memory) }
{
    match parts.push(part) {
        Ok(()) => Ok(()),
        Err(_) => Err(WalkError::Memory),
    }
}

/// The parts of a run, in the order of its names.
#[tactic(auto, using(crate::proofs::PartLemmas::none_made, crate::proofs::PartLemmas::one_made, crate::proofs::PartLemmas::all_made))]
pub fn parts_of<'a, S: FileSystem>(
    system: &S,
    alloc: Global,
    settings: RunSettings<'a>,
    keys: &'a [DescriptionKey<'_>],
    projects: &'a [Named<'_>],
) -> Result<Vec<RunPart<'a>>, WalkError>
    ensures all { IfOk result (λ parts. spec.ArePartsOf (S.lists system.now) (S.holds system.now) (S.folders system.now)
        settings.entry keys.now projects.now parts.items) }
    ensures error { IfErr result (spec.IsOneUnwalked (S.fails system.now) projects.now) }
{
    let mut parts = Vec::new(alloc);
    let mut rest = projects;
    'projects: while let [named, after @ ..] = rest {
        let part = part_of(system, alloc, settings, keys, named)?;
        push_part(&mut parts, part)?;
        rest = after;
    }
    Ok(parts)
}

/// Whether something is read line by line, or as a whole text.
pub fn have_lines(parts: &[RunPart<'_>]) -> bool
    ensures { result ≡ list_any spec.has_lines parts.now }
{
    parts.iter().any(|part| part.has_lines())
}

/// Whether warnings are reported for one of the parts.
pub fn warn(parts: &[RunPart<'_>]) -> bool
    ensures { result ≡ list_any (λ part. part.settings.warns) parts.now }
{
    parts.iter().any(|part| part.settings.warns)
}

/// How many files are checked.
#[tactic(auto, using(crate::proofs::PartLemmas::one_counted, crate::proofs::PartLemmas::all_counted))]
pub fn file_count(parts: &[RunPart<'_>]) -> usize
    ensures { result ≡ spec.file_count parts.now }
{
    let mut count: usize = 0;
    let mut rest = parts;
    'parts: while let [part, after @ ..] = rest {
        count = count.saturating_add(part.file_count());
        rest = after;
    }
    count
}

/// The names of the files of all parts, in their order. An `Err` says that memory ran out.
#[tactic(auto, using(crate::proofs::PartLemmas::files_of_one, crate::proofs::PartLemmas::files_of_all))]
pub fn all_files<'a>(alloc: Global, parts: &'a [RunPart<'_>]) -> Result<Vec<&'a str>, AllocError>
    ensures { IfOk result (λ all. texts all.items ≡ spec.all_files parts.now) }
{
    let mut all = Vec::new(alloc);
    let mut rest = parts;
    'parts: while let [part, after @ ..] = rest {
        push_files(&mut all, &part.files)?;
        rest = after;
    }
    Ok(all)
}

#[tactic(auto, using(crate::proofs::PartLemmas::one_file, crate::proofs::PartLemmas::last_file))]
fn push_files<'a>(all: &mut Vec<&'a str>, files: &'a [String]) -> Result<(), AllocError>
    ensures { OnOk result (texts all.new.items ≡ texts all.old.items ++ map string_bytes files.now) }
{
    let mut rest = files;
    'files: while let [file, after @ ..] = rest {
        all.push(file.as_str())?;
        rest = after;
    }
    Ok(())
}
