//! The column that the first record names.

ghost use Rattle.std.specs.Prelude.{◌≡◌, suc, IfOk};
ghost use Rattle.timefd_format.specs.Records as spec;

use crate::fields::{split_field, text_in};
use std::alloc::{AllocError, Global};
use timefd_lint_rewrite::without_newline;

/// Why a name doesn't say which column is meant.
#[derive(Clone, Copy)]
pub enum HeaderError {
    /// No column has the name.
    Missing,
    /// More than one column has the name.
    Twice,
}

// The byte order mark of UTF-8, which some programs write before the first record.
const MARK: &[u8] = b"\xEF\xBB\xBF";

// The first record without its byte order mark.
fn without_mark(header: &[u8]) -> &[u8]
    ensures { result.now ≡ spec.without_mark header.now }
{
    match header.strip_prefix(MARK) {
        Some(rest) => rest,
        None => header,
    }
}

// The column found so far, after one more field. An `Err` says that two columns have the name.
fn named_step(found: Option<usize>, at: usize, has_name: bool) -> Result<Option<usize>, HeaderError>
    ensures { result ≡ spec.named_step found at has_name }
{
    match (has_name, found) {
        (false, _) => Ok(found),
        (true, None) => Ok(Some(at)),
        (true, Some(_)) => Err(HeaderError::Twice),
    }
}

/// How many columns come before the one with this name in the first record, or why there is no such
/// number. The outer `Err` says that memory ran out.
#[tactic(auto, using(crate::proofs::HeaderLemmas::starts, crate::proofs::HeaderLemmas::goes_on, crate::proofs::HeaderLemmas::is_done, crate::proofs::HeaderLemmas::at_end, crate::proofs::FieldLemmas::next_shorter))]
pub fn named_in(
    alloc: Global,
    name: &str,
    header: &[u8],
) -> Result<Result<usize, HeaderError>, AllocError>
    ensures { IfOk result (λ found. found ≡ spec.named_in name.now header.now) }
{
    let mut text = Vec::new(alloc);
    let mut found = None;
    let mut more = Some(without_mark(without_newline(header)));
    let mut at: usize = 0;
    'fields: while let Some(rest) = more {
        let split = split_field(rest);
        text_in(split.field, &mut text)?;
        let has_name = text.as_slice() == name.as_bytes();
        match named_step(found, at, has_name) {
            Ok(next) => found = next,
            Err(error) => return Ok(Err(error)),
        }
        at = next_of(at)?;
        more = split.rest;
    }
    match found {
        Some(count) => Ok(Ok(count)),
        None => Ok(Err(HeaderError::Missing)),
    }
}

// The next number. It always fits, because no memory holds that many fields.
fn next_of(at: usize) -> Result<usize, AllocError>
    ensures { IfOk result (λ next. next ≡ suc at) }
{
    match at.checked_add(1) {
        Some(next) => Ok(next),
        None => Err(AllocError),
    }
}
