//! What is found upwards for names, and which of them have the same.

ghost use Rattle.std.specs.Prelude.{◌≡◌, ◌≤◌, ◌-◌, ◌++◌, ◌∷◌, [], IfErr, IfOk, IsTrue, List, OnOk, Some, drop, length, string_bytes, take};
ghost use denote.Ref.{Bor};
ghost use Rattle.timefd_lint_files.specs.Matching.{Text};
ghost use Rattle.timefd_lint_files.specs.declared.groups.NameGroup.{NameGroup};
ghost use Rattle.timefd_lint_files.specs.declared.walk_error.WalkError.TheVariants as errors;
ghost use Rattle.timefd_lint_files.specs.Groups as spec;

use crate::around::folder_of;
use crate::front::folders_around;
use crate::names::{as_folder, is_input};
use crate::start::without_here;
use crate::system::FileSystem;
use crate::upwards::{Nearest, first_upwards, is_open};
use crate::walk_error::WalkError;
use std::alloc::{AllocError, Global};

/// The name of the standard input.
const INPUT: &str = "-";

/// Names one after another for which the same is found.
#[derive(Drop)]
pub struct NameGroup<'a> {
    pub names: &'a [&'a str],
    /// The file that is sought, if there is one.
    pub found: Option<Nearest>,
}

/// A folder's own path; the path of the folder of anything else.
fn folder_by(alloc: Global, is_folder: bool, name: &str) -> Result<String, AllocError>
    ensures { IfOk result (λ folder. string_bytes folder ≡ spec.folder_by is_folder name.now) }
{
    let folder = if is_folder {
        as_folder(alloc, name)?
    } else {
        folder_of(alloc, name)?
    };
    String::from_str(alloc, without_here(&folder))
}

/// The folder in which the search for a name begins: that of a file, the named one itself, or the working directory for the
/// standard input, and where no name in that folder can be looked up.
#[tactic(auto, using(crate::proofs::GroupLemmas::at_input, crate::proofs::GroupLemmas::at_open, crate::proofs::GroupLemmas::at_closed))]
fn start_for<S: FileSystem>(system: &S, alloc: Global, name: &str) -> Result<String, AllocError>
    ensures { IfOk result (λ start. spec.IsStart (S.folders system.now) name.now (string_bytes start)) }
{
    if is_input(name) {
        return Ok(String::new(alloc));
    }
    let folder = folder_by(alloc, system.is_folder(name), name)?;
    if is_open(system, alloc, &folder)? {
        Ok(folder)
    } else {
        Ok(String::new(alloc))
    }
}

/// The file of this name in the folder of a name, or else in the nearest folder around it that has one. `here` is the path
/// of the working directory from the root of the system, each name with `/` at its end. The search ends as that of
/// `first_upwards` does.
///
/// # Errors
///
/// An `Err` says that memory ran out, or names a file that is there and can't be read.
#[tactic(auto, using(crate::proofs::GroupLemmas::found_from, crate::proofs::GroupLemmas::unread_from))]
pub fn found_for<S: FileSystem>(
    system: &S,
    alloc: Global,
    file: &str,
    here: &[u8],
    name: &str,
) -> Result<Option<Nearest>, WalkError>
    ensures found { IfOk result (λ found. spec.IsFoundFor (S.holds system.now) (S.fails system.now) (S.folders system.now)
        file.now here.now name.now (spec.site_any found)) }
    ensures error { IfErr result (spec.IsUnreadFor (S.fails system.now) (S.folders system.now) file.now here.now name.now) }
{
    let start = start_for(system, alloc, name)?;
    let above = folders_around(alloc, here, &start)?;
    first_upwards(system, alloc, file, &start, above)
}

/// Whether two files that were found have the same folder and the same text.
fn are_same(one: &Nearest, other: &Nearest) -> bool
    ensures { IsTrue result → spec.site one.now ≡ spec.site other.now }
{
    one.folder.as_str() == other.folder.as_str() && one.text.as_slice() == other.text.as_slice()
}

/// Whether this was found too.
fn is_also(one: &Nearest, other: &Option<Nearest>) -> bool
    ensures { IsTrue result → Some (spec.site one.now) ≡ spec.site_any other.now }
{
    match other {
        Some(other) => are_same(one, other),
        None => false,
    }
}

/// Whether the same was found, or nothing both times.
fn is_same(one: &Option<Nearest>, other: &Option<Nearest>) -> bool
    ensures { IsTrue result → spec.site_any one.now ≡ spec.site_any other.now }
{
    match one {
        Some(one) => is_also(one, other),
        None => other.is_none(),
    }
}

/// How many names are left after the first ones that have this found for them.
#[tactic(auto, using(crate::proofs::GroupLemmas::none_yet, crate::proofs::GroupLemmas::few_left))]
fn left_after<S: FileSystem>(
    system: &S,
    alloc: Global,
    file: &str,
    here: &[u8],
    found: &Option<Nearest>,
    names: &[&str],
) -> Result<usize, WalkError>
    ensures few { IfOk result (λ left. left ≤ length names.now) }
    ensures same { IfOk result (λ left. (rest : List (Bor Text)) × (left ≡ length rest)
        × spec.HaveSame (spec.IsFoundFor (S.holds system.now) (S.fails system.now) (S.folders system.now) file.now here.now)
        (spec.site_any found.now) names.now rest) }
    ensures error { IfErr result
        (spec.IsUnreadForOne (S.fails system.now) (S.folders system.now) file.now here.now names.now) }
{
    let mut rest = names;
    'names: while let [name, after @ ..] = rest {
        let other = found_for(system, alloc, file, here, name)?;
        if !is_same(found, &other) {
            return Ok(rest.len());
        }
        rest = after;
    }
    Ok(0)
}

/// All names but the last `left` ones.
fn all_but<'a>(names: &'a [&'a str], left: usize) -> &'a [&'a str]
    ensures { result.now ≡ take (length names.now - left) names.now }
{
    let (own, _) = names.split_at(names.len().saturating_sub(left));
    own
}

/// The last `left` names.
fn last_of<'a>(names: &'a [&'a str], left: usize) -> &'a [&'a str]
    ensures { result.now ≡ drop (length names.now - left) names.now }
{
    let (_, others) = names.split_at(names.len().saturating_sub(left));
    others
}

/// Adds a group.
fn push_group<'a>(
    groups: &mut Vec<NameGroup<'a>>,
    names: &'a [&'a str],
    found: Option<Nearest>,
) -> Result<(), WalkError>
    ensures added { OnOk result ((group : NameGroup) × (groups.new.items ≡ groups.old.items ++ group ∷ [])
        × (group.names.now ≡ names.now) × (group.found ≡ found)) }
    ensures memory { IfErr result (λ e. e ≡ errors.Memory) }
{
    match groups.push(NameGroup { names, found }) {
        Ok(()) => Ok(()),
        Err(_) => Err(WalkError::Memory),
    }
}

/// All names in groups.
#[tactic(auto, using(crate::proofs::GroupLemmas::no_group, crate::proofs::GroupLemmas::all_groups))]
fn all_groups<'a, S: FileSystem>(
    system: &S,
    alloc: Global,
    file: &str,
    here: &[u8],
    names: &'a [&'a str],
) -> Result<Vec<NameGroup<'a>>, WalkError>
    ensures all { IfOk result (λ groups. spec.AreGroupsOf (spec.IsFoundFor (S.holds system.now) (S.fails system.now)
        (S.folders system.now) file.now here.now) names.now groups.items) }
    ensures error { IfErr result
        (spec.IsUnreadForOne (S.fails system.now) (S.folders system.now) file.now here.now names.now) }
{
    let mut groups = Vec::new(alloc);
    let mut rest = names;
    'groups: while let [name, after @ ..] = rest {
        let found = found_for(system, alloc, file, here, name)?;
        let left = left_after(system, alloc, file, here, &found, after)?;
        push_group(&mut groups, all_but(rest, left), found)?;
        rest = last_of(rest, left);
    }
    Ok(groups)
}

/// The names in groups: neighbours for which the same file is found are in one. Without names there is one group, which
/// has what is found for the standard input. `file` is the name of what is sought, and `here` the path of the working
/// directory from the root of the system, each name with `/` at its end.
///
/// # Errors
///
/// An `Err` says that memory ran out, or names a file that is there and can't be read.
#[tactic(auto, using(crate::proofs::GroupLemmas::some_named, crate::proofs::GroupLemmas::none_named, crate::proofs::GroupLemmas::unread_named, crate::proofs::GroupLemmas::unread_input))]
pub fn grouped<'a, S: FileSystem>(
    system: &S,
    alloc: Global,
    file: &str,
    here: &[u8],
    names: &'a [&'a str],
) -> Result<Vec<NameGroup<'a>>, WalkError>
    ensures all { IfOk result (λ groups. spec.AreGroups (spec.IsFoundFor (S.holds system.now) (S.fails system.now)
        (S.folders system.now) file.now here.now) names.now groups.items) }
    ensures error { IfErr result
        (spec.IsUnreadForAny (S.fails system.now) (S.folders system.now) file.now here.now names.now) }
{
    if !names.is_empty() {
        return all_groups(system, alloc, file, here, names);
    }
    let found = found_for(system, alloc, file, here, INPUT)?;
    let mut groups = Vec::new(alloc);
    push_group(&mut groups, names, found)?;
    Ok(groups)
}
