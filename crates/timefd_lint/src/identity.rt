//! Which file a name leads to.

ghost use Rattle.std.specs.Prelude.{◌≡◌, ◌∷◌, ◌++◌, [], IfErr, OnOk};
ghost use Rattle.std.specs.List.{list_any};
ghost use Rattle.std.specs.Option.{option_to_list};
ghost use Rattle.timefd_lint.specs.Identities as spec;
ghost use Rattle.timefd_lint.specs.declared.line.LintError.TheVariants as errors;

use crate::line::LintError;

/// A file of the system, whatever its names are.
#[derive(Clone, Copy)]
pub struct Identity {
    pub device: u64,
    pub inode: u64,
}

impl Identity {
    // Whether it is the same file.
    fn is(self, other: Identity) -> bool
        ensures { result ≡ spec.is_same self other }
    {
        self.device == other.device && self.inode == other.inode
    }
}

/// Whether the file that a name leads to was met already.
pub fn is_met(met: &[Identity], identity: Option<Identity>) -> bool
    ensures { result ≡ spec.is_met met.now identity }
{
    match identity {
        Some(identity) => is_among(met, identity),
        None => false,
    }
}

// Whether a file was met already.
fn is_among(met: &[Identity], identity: Identity) -> bool
    ensures { result ≡ list_any (spec.is_same identity) met.now }
{
    met.iter().any(|other| identity.is(*other))
}

/// Adds the file that a name leads to, if there is one, to those that were met.
pub fn meet_any(met: &mut Vec<Identity>, identity: Option<Identity>) -> Result<(), LintError>
    ensures added { OnOk result (met.new.items ≡ met.old.items ++ option_to_list identity) }
    ensures memory { IfErr result (λ e. e ≡ errors.Memory) }
{
    match identity {
        Some(identity) => meet(met, identity),
        None => Ok(()),
    }
}

// Adds a file to those that were met.
fn meet(met: &mut Vec<Identity>, identity: Identity) -> Result<(), LintError>
    ensures added { OnOk result (met.new.items ≡ met.old.items ++ identity ∷ []) }
    ensures memory { IfErr result (λ e. e ≡ errors.Memory) }
{
    match met.push(identity) {
        Ok(()) => Ok(()),
        Err(_) => Err(LintError::Memory),
    }
}
