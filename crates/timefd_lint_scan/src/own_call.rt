//! Functions, methods and macros of a project whose argument is a description.

ghost use Rattle.std.specs.Prelude.{◌≡◌};
ghost use Rattle.timefd_lint_scan.specs.Aliases as aliases;
ghost use Rattle.timefd_lint_scan.specs.Names as names;
ghost use Rattle.timefd_lint_scan.specs.OwnCalls as spec;

use crate::calls::Call;
use crate::dialect::FormatLanguage;

/// A function, method or macro of a project, one of whose arguments is a description.
#[derive(Drop)]
pub struct OwnCall {
    /// The type or module before `::` in front of the name; empty if any call of the name is meant.
    pub owner: String,
    /// The name before the opening bracket, or before the `!` of a macro.
    pub name: String,
    /// The language of the description.
    pub dialect: FormatLanguage,
    /// Which argument the description is, counted from 0.
    pub argument: usize,
}

fn is_named(call: &OwnCall, owner: &[u8], name: &[u8]) -> bool
    ensures { result ≡ spec.is_named call.now owner.now name.now }
{
    call.name.as_bytes() == name && call.owner.as_bytes() == owner
}

// The first of these calls with this name that belongs to this owner, or to any if it is empty.
fn first_named(calls: &[OwnCall], owner: &[u8], name: &[u8]) -> Option<Call>
    ensures { result ≡ spec.first_named calls.now owner.now name.now }
{
    let mut rest = calls;
    'calls: while let [call, after @ ..] = rest {
        if is_named(call, owner, name) {
            return Some(Call::Own(call.dialect, call.argument));
        }
        rest = after;
    }
    None
}

/// The call with this name and the name before it in its path, which is empty if there is no path. A setting that names
/// the owner counts before one that doesn't.
pub fn own_named(calls: &[OwnCall], owner: &[u8], name: &[u8]) -> Option<Call>
    ensures { result ≡ spec.own_named calls.now owner.now name.now }
{
    first_named(calls, owner, name).or(first_named(calls, &[], name))
}

fn has_name(call: &OwnCall, name: &[u8]) -> bool
    ensures { result ≡ aliases.has_name name.now call.now }
{
    call.name.as_bytes() == name || call.owner.as_bytes() == name
}

/// Whether one of these calls has this name, or this owner.
pub fn is_of_own(calls: &[OwnCall], name: &[u8]) -> bool
    ensures { result ≡ aliases.is_of_own calls.now name.now }
{
    calls.iter().any(|call| has_name(call, name))
}

/// The first word of a call, without which no source has it.
pub fn word_of(call: &OwnCall) -> &str
    ensures { result.now ≡ names.word_of call.now }
{
    if call.owner.is_empty() {
        call.name.as_str()
    } else {
        call.owner.as_str()
    }
}
