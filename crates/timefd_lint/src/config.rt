//! A file of settings: what it says, and what of it counts.

ghost use Rattle.std.specs.Prelude.{◌≡◌, ◌++◌, IfErr, IfOk, Ok, codes, string_bytes};
ghost use Rattle.timefd_lint_options.specs.Config.Config as says;
ghost use Rattle.timefd_lint.specs.Projects as specs;
ghost use Rattle.timefd_lint.specs.Unusable as words;
ghost use Rattle.timefd_lint.specs.Rewriting.{rewriting_of};
ghost use Rattle.timefd_lint.specs.Counted as spec;

use crate::rewriting::rewriting_of;
use crate::unusable::{fault_sentence, reported, wrong};
use std::alloc::{AllocError, Global};
use std::str;
use timefd_lang_warnings::Levels;
use timefd_lint_files::{Excluded, Nearest, front_below};
use timefd_lint_options::RunSettings;
use timefd_lint_options::config::{Config, OwnedKey, config_of};

/// The name of a file of settings.
pub const NAME: &str = ".timefd.toml";

/// Why the file of settings can't be used.
#[derive(Drop)]
pub enum ConfigFailure {
    /// Memory ran out.
    Memory,
    /// The file is wrong. The sentence names it and says why.
    Wrong(String),
}

impl From<AllocError> for ConfigFailure {
    ghost use Rattle.std.specs.Prelude.{◌≡◌};
    ghost use Rattle.timefd_lint.specs.declared.config.ConfigFailure.{ConfigFailure};

    ghost from_gives = { λ _ e. e ≡ ConfigFailure.Memory };

    fn from(_: AllocError) -> Self {
        ConfigFailure::Memory
    }
}

/// What a file of settings says, and where it is.
#[derive(Drop)]
pub struct Project {
    /// What the file says.
    pub config: Config,
    /// The path of its folder, each name with `/` at its end.
    pub folder: String,
    /// The path of the working directory from that folder, if it is that one or below it: empty, or names that each end in
    /// `/`.
    pub front: Vec<u8>,
}

impl Project {
    /// What the file excludes.
    pub fn excluded(&self) -> Excluded<'_>
        ensures patterns { result.patterns.now ≡ string_bytes self.now.config.exclude }
        ensures folder { result.folder.now ≡ string_bytes self.now.folder }
        ensures front { result.front.now ≡ self.now.front.items }
    {
        Excluded {
            patterns: self.config.exclude.as_str(),
            folder: self.folder.as_str().as_bytes(),
            front: self.front.as_slice(),
        }
    }
}

// What an empty file of settings in the working directory says.
fn no_project(alloc: Global) -> Project
    ensures { specs.SaysNothing result }
{
    Project {
        config: Config {
            keys: Vec::new(alloc),
            exclude: String::new(alloc),
            levels: None,
            calls: Vec::new(alloc),
        },
        folder: String::new(alloc),
        front: Vec::new(alloc),
    }
}

/// What the file of settings says that was found. If there is none, nothing is set. `here` is the path of the working
/// directory, without a `/` at either end.
pub fn project_of(
    alloc: Global,
    here: &str,
    found: &Option<Nearest>,
) -> Result<Project, ConfigFailure>
    ensures project { IfOk result (specs.IsProject here.now found.now) }
    ensures error { IfErr result (words.IsWrongIn found.now) }
{
    match found {
        Some(found) => project_found(alloc, here, found),
        None => Ok(no_project(alloc)),
    }
}

fn project_found(alloc: Global, here: &str, found: &Nearest) -> Result<Project, ConfigFailure>
    ensures project { IfOk result (specs.IsProjectOf here.now found.now) }
    ensures error { IfErr result (words.Says (words.IsWrongText
        (string_bytes found.now.folder ++ codes ".timefd.toml") found.now.text.items)) }
{
    let name = format!(in alloc; "{}{NAME}", found.folder)?;
    Ok(Project {
        config: config_of_bytes(alloc, &name, &found.text)?,
        folder: String::from_str(alloc, &found.folder)?,
        front: front_below(alloc, here, found.above)?,
    })
}

/// The keys of the file of settings that count in a run: none if files are mended or rewritten.
pub fn counted_keys<'a>(settings: RunSettings<'_>, config: &'a Config) -> &'a [OwnedKey]
    ensures { result.now ≡ spec.counted_keys (rewriting_of settings.entry) config.now.keys.items }
{
    match rewriting_of(settings) {
        Some(_) => &[],
        None => &config.keys,
    }
}

/// The levels of the file of settings that count in a run: none if files are mended or rewritten.
pub fn counted_levels(settings: RunSettings<'_>, config: &Config) -> Option<Levels>
    ensures { result ≡ spec.counted_levels (rewriting_of settings.entry) config.now.levels }
{
    match rewriting_of(settings) {
        Some(_) => None,
        None => config.levels,
    }
}

// What these bytes of a file say.
#[tactic(auto, using(crate::proofs::UnusableLemmas::of_no_text, crate::proofs::UnusableLemmas::of_text))]
fn config_of_bytes(alloc: Global, file: &str, bytes: &[u8]) -> Result<Config, ConfigFailure>
    ensures config { IfOk result (λ config. says.config_of bytes.now ≡ Ok (says.said config)) }
    ensures error { IfErr result (words.Says (words.IsWrongText file.now bytes.now)) }
{
    match str::from_utf8(bytes) {
        Ok(text) => config_of_text(alloc, file, text),
        Err(_) => Err(reported(wrong(alloc, file, "the bytes aren't UTF-8"))),
    }
}

#[tactic(auto, using(crate::proofs::UnusableLemmas::of_fault))]
fn config_of_text(alloc: Global, file: &str, text: &str) -> Result<Config, ConfigFailure>
    ensures config { IfOk result (λ config. says.config_of text.now ≡ Ok (says.said config)) }
    ensures error { IfErr result (words.Says (words.IsFaultIn file.now text.now)) }
{
    match config_of(alloc, text) {
        Ok(config) => Ok(config),
        Err(error) => Err(reported(fault_sentence(alloc, file, text, error))),
    }
}
