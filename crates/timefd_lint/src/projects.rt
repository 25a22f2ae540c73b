//! The files of settings of a run, and which names have which.

ghost use Rattle.std.specs.Prelude.{◌≡◌, ◌++◌, ◌∷◌, [], IfErr, IfOk, OnOk, option_map};
ghost use Rattle.timefd_lint.specs.declared.config.ConfigFailure.TheVariants as failures;
ghost use Rattle.timefd_lint.specs.Projects as spec;
ghost use Rattle.timefd_lint.specs.Unusable as words;

use crate::config::{ConfigFailure, NAME, Project, project_of};
use crate::unusable::unfound;
use std::alloc::Global;
use timefd_lint_files::{FileSystem, NameGroup, found_for, front_below, grouped};

/// Names one after another, and what the file of settings says that is theirs.
#[derive(Drop)]
pub struct Named<'a> {
    pub names: &'a [&'a str],
    pub project: Project,
}

/// What follows the `/` at the start of a path from the root of the system. `None` if the path doesn't begin there.
#[tactic(auto, using(crate::proofs::ProjectLemmas::after_root))]
pub fn below_root(path: &str) -> Option<&str>
    ensures { option_map (λ below. below.now) result ≡ spec.below_root path.now }
{
    path.strip_prefix('/')
}

/// What the files of settings say that are found for names, each from its folder upwards. Neighbours with the same file are
/// together. Without names it is the file that is found from the working directory. `here` is the path of that, without
/// a `/` at either end.
pub fn projects_of<'a, S: FileSystem>(
    system: &S,
    alloc: Global,
    here: &str,
    names: &'a [&'a str],
) -> Result<Vec<Named<'a>>, ConfigFailure>
    ensures all { IfOk result (λ all. spec.AreProjects (S.holds system.now) (S.fails system.now) (S.folders system.now)
        here.now names.now all.items) }
    ensures error { IfErr result (words.AreUnset (S.holds system.now) (S.fails system.now) (S.folders system.now)
        here.now names.now) }
{
    let front = front_below(alloc, here, 0)?;
    match grouped(system, alloc, NAME, &front, names) {
        Ok(groups) => named_by(alloc, here, &groups),
        Err(error) => Err(unfound(alloc, error)),
    }
}

fn push_named<'a>(all: &mut Vec<Named<'a>>, named: Named<'a>) -> Result<(), ConfigFailure>
    ensures added { OnOk result (all.new.items ≡ all.old.items ++ named.entry ∷ []) }
    ensures memory { IfErr result (λ e. e ≡ failures.Memory) }
{
    match all.push(named) {
        Ok(()) => Ok(()),
        Err(_) => Err(ConfigFailure::Memory),
    }
}

// What the files say that were found for groups of names.
#[tactic(auto, using(crate::proofs::ProjectLemmas::none_named, crate::proofs::ProjectLemmas::one_named, crate::proofs::ProjectLemmas::all_named))]
fn named_by<'a>(
    alloc: Global,
    here: &str,
    groups: &[NameGroup<'a>],
) -> Result<Vec<Named<'a>>, ConfigFailure>
    ensures all { IfOk result (λ all. spec.AreNamedBy here.now groups.now all.items) }
    ensures error { IfErr result (words.IsOneWrong groups.now) }
{
    let mut all = Vec::new(alloc);
    let mut rest = groups;
    'groups: while let [group, after @ ..] = rest {
        let names = group.names;
        let project = project_of(alloc, here, &group.found)?;
        push_named(&mut all, Named { names, project })?;
        rest = after;
    }
    Ok(all)
}

/// What the file of settings says that is found for one name.
pub fn project_for<S: FileSystem>(
    system: &S,
    alloc: Global,
    here: &str,
    name: &str,
) -> Result<Project, ConfigFailure>
    ensures project { IfOk result (spec.IsProjectFor (S.holds system.now) (S.fails system.now) (S.folders system.now)
        here.now name.now) }
    ensures error { IfErr result (words.IsUnset (S.holds system.now) (S.fails system.now) (S.folders system.now)
        here.now name.now) }
{
    let front = front_below(alloc, here, 0)?;
    match found_for(system, alloc, NAME, &front, name) {
        Ok(found) => project_of(alloc, here, &found),
        Err(error) => Err(unfound(alloc, error)),
    }
}
