//! What is passed over, whatever `.gitignore` files say, and where a name leads, seen from the folder that
//! patterns are relative to.

ghost use Rattle.std.specs.Prelude.{◌≡◌, ◌≤◌, ◌+◌, IfOk, IfSome, IsUtf8, length};
ghost use Rattle.timefd_lint_files.specs.Starts as spec;
ghost use Rattle.timefd_lint_files.specs.Starts.{seen, seen_any};

use crate::last_name::file_name;
use std::alloc::{AllocError, Global};

/// Patterns, and the folder that they are relative to.
#[derive(Clone, Copy)]
pub struct Excluded<'a> {
    /// The patterns, one a line, as in a `.gitignore` file of that folder.
    pub patterns: &'a str,
    /// The path of that folder, each name with `/` at its end. It is cut off a name that begins with it.
    pub folder: &'a [u8],
    /// The path of the working directory from that folder, for any other name: empty, or names that each end in `/`.
    pub front: &'a [u8],
}

/// A name in two parts.
#[derive(Clone, Copy)]
pub struct NameParts<'a> {
    /// The path of the folder in which the rest begins: empty, or names that each end in `/`.
    pub front: &'a [u8],
    /// The rest of the name.
    pub rest: &'a [u8],
}

/// The path of the folder around one. Each name in both ends in `/`.
fn parent(folder: &[u8]) -> &[u8]
    ensures { result.now ≡ spec.parent folder.now }
{
    let inner = &folder[..folder.len().saturating_sub(1)];
    &inner[..inner.len().saturating_sub(file_name(inner).len())]
}

fn is_here(first: u8, second: u8) -> bool
    ensures { result ≡ spec.is_here first second }
{
    first == b'.' && second == b'/'
}

/// Whether these bytes lead to the folder around. From the outermost one nothing does.
fn is_up(front: &[u8], first: u8, second: u8, third: u8) -> bool
    ensures { result ≡ spec.is_up front.now first second third }
{
    first == b'.' && second == b'.' && third == b'/' && !front.is_empty()
}

/// The parts of a name without its first three bytes, if these lead to the folder around.
fn next_up<'a>(front: &'a [u8], first: u8, second: u8, after: &'a [u8]) -> Option<NameParts<'a>>
    ensures next { seen_any result ≡ spec.next_up front.now first second after.now }
    ensures shorter { IfSome result (λ start. length start.rest.now + 1 ≤ length after.now) }
{
    match after {
        [third, rest @ ..] if is_up(front, first, second, *third) => Some(NameParts {
            front: parent(front),
            rest,
        }),
        _ => None,
    }
}

/// The parts of a name without the `./` or the `../` that it begins with. `None` if it begins with neither, or
/// if no folder is around.
fn next<'a>(front: &'a [u8], name: &'a [u8]) -> Option<NameParts<'a>>
    ensures next { seen_any result ≡ spec.next front.now name.now }
    ensures shorter { IfSome result (λ start. length start.rest.now + 1 ≤ length name.now) }
{
    match name {
        [first, second, rest @ ..] => {
            if is_here(*first, *second) {
                return Some(NameParts { front, rest });
            }
            next_up(front, *first, *second, rest)
        }
        _ => None,
    }
}

/// The parts of a name that begins in the folder of this path.
#[tactic(auto, using(crate::proofs::StartLemmas::goes_on, crate::proofs::StartLemmas::stops))]
fn start_in<'a>(front: &'a [u8], name: &'a [u8]) -> NameParts<'a>
    ensures { seen result ≡ spec.start_in front.now name.now }
{
    let mut front = front;
    let mut rest = name;
    'names: while let Some(start) = next(front, rest) {
        front = start.front;
        rest = start.rest;
    }
    NameParts { front, rest }
}

/// The parts of a name, if the working directory has the path `front`. An absolute name is all rest.
pub fn start_of<'a>(front: &'a [u8], name: &'a [u8]) -> NameParts<'a>
    ensures { seen result ≡ spec.start_of front.now name.now }
{
    match name {
        [b'/', ..] => NameParts {
            front: &[],
            rest: name,
        },
        _ => start_in(front, name),
    }
}

/// The path of what a name leads to, if the working directory has the path `front`. An `Err` says that memory ran
/// out.
pub fn path_of(alloc: Global, front: &[u8], name: &[u8]) -> Result<Vec<u8>, AllocError>
    ensures { IfOk result (λ path. path.items ≡ spec.path_of front.now name.now) }
{
    joined(alloc, start_of(front, name))
}

fn joined(alloc: Global, start: NameParts<'_>) -> Result<Vec<u8>, AllocError>
    ensures { IfOk result (λ path. path.items ≡ spec.joined (seen start.entry)) }
{
    let mut path = start.front.to_vec(alloc)?;
    path.extend_from_slice(start.rest)?;
    Ok(path)
}

/// A name without the `./` that it begins with.
#[tactic(auto, using(crate::proofs::HereLemmas::goes_on, crate::proofs::HereLemmas::stops))]
pub fn without_here(name: &str) -> &str
    ensures value { result.now ≡ spec.without_here name.now }
    ensures utf8 { IsUtf8 result.now }
{
    let mut rest = name;
    'names: while let Some(after) = rest.strip_prefix("./") {
        rest = after;
    }
    rest
}

/// The parts of a name as these patterns match it.
pub fn start_below<'a>(excluded: Excluded<'a>, name: &'a str) -> NameParts<'a>
    ensures { seen result ≡ spec.start_below excluded.entry name.now }
{
    let inner = without_here(name).as_bytes();
    if !excluded.folder.is_empty() && inner.starts_with(excluded.folder) {
        return NameParts {
            front: &[],
            rest: &inner[excluded.folder.len()..],
        };
    }
    start_of(excluded.front, name.as_bytes())
}

/// The path of what a name leads to, as these patterns match it. An `Err` says that memory ran out.
pub fn path_below(alloc: Global, excluded: Excluded<'_>, name: &str) -> Result<Vec<u8>, AllocError>
    ensures { IfOk result (λ path. path.items ≡ spec.path_below excluded.entry name.now) }
{
    joined(alloc, start_below(excluded, name))
}
