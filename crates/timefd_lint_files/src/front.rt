//! Paths from the root of the system, and from a folder between it and the working directory.

ghost use Rattle.std.specs.Prelude.{◌≡◌, ◌≤◌, IfOk, length};
ghost use Rattle.timefd_lint_files.specs.Around as paths;
ghost use Rattle.timefd_lint_files.specs.Upwards as spec;

use crate::start::path_of;
use std::alloc::{AllocError, Global};

/// How many slashes are still to come after this byte.
fn left_after(left: usize, byte: u8) -> usize
    ensures { result ≡ spec.left_after left byte }
{
    if byte == b'/' {
        left.saturating_sub(1)
    } else {
        left
    }
}

/// What follows this many slashes.
#[tactic(auto, using(crate::proofs::UpwardLemmas::one_byte, crate::proofs::UpwardLemmas::no_slash_left, crate::proofs::UpwardLemmas::no_byte_left))]
fn after_slashes(text: &[u8], count: usize) -> &[u8]
    ensures { result.now ≡ spec.after_slashes count text.now }
{
    let mut rest = text;
    let mut left = count;
    'bytes: while let [byte, after @ ..] = rest {
        if left == 0 {
            return rest;
        }
        left = left_after(left, *byte);
        rest = after;
    }
    rest
}

/// The path of a folder, each name with `/` at its end, from a folder that has `above` folders around it. `here`
/// is its path from the root of the system, without a `/` at either end. An `Err` says that memory ran out.
pub fn front_below(alloc: Global, here: &str, above: usize) -> Result<Vec<u8>, AllocError>
    ensures { IfOk result (λ front. front.items ≡ spec.front_below here.now above) }
{
    let inner = after_slashes(here.as_bytes(), above);
    let mut front = inner.to_vec(alloc)?;
    if inner.is_empty() {
        return Ok(front);
    }
    front.push(b'/')?;
    Ok(front)
}

fn one_if_slash(byte: u8) -> usize
    ensures count { result ≡ paths.one_if_slash byte }
    ensures bound { result ≤ 1 }
{
    if byte == b'/' { 1 } else { 0 }
}

fn slash_count(text: &[u8]) -> usize
    ensures count { result ≡ paths.slash_count text.now }
    ensures bound { result ≤ length text.now }
{
    let mut count = 0;
    for byte in text {
        count += one_if_slash(*byte);
    }
    count
}

/// How many folders are around a folder, by its path from the root of the system, without a `/` at either end.
pub fn folders_above(here: &str) -> usize
    ensures { result ≡ spec.folders_above here.now }
{
    let here = here.as_bytes();
    if here.is_empty() {
        return 0;
    }
    slash_count(here) + 1
}

/// How many folders are around a folder of this path, if the working directory has the path `here` from the root of the
/// system, each name with `/` at its end. An `Err` says that memory ran out.
pub fn folders_around(alloc: Global, here: &[u8], folder: &str) -> Result<usize, AllocError>
    ensures { IfOk result (λ above. above ≡ paths.folders_around here.now folder.now) }
{
    let folder = folder.as_bytes();
    match folder {
        [b'/', ..] => Ok(slash_count(folder).saturating_sub(1)),
        _ => {
            let path = path_of(alloc, here, folder)?;
            Ok(slash_count(&path))
        }
    }
}
