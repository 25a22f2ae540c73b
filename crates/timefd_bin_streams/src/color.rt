//! Whether a terminal shows colours.

ghost use Rattle.std.specs.Prelude.{◌≡◌, List, Result, String, ⊤};
ghost use Rattle.std.specs.declared.alloc.Global.{Global};
ghost use Rattle.std.specs.declared.env.VarError.{VarError};
ghost use Rattle.timefd_bin_streams.specs.Colors as spec;
ghost use Rattle.timefd_bin_streams.specs.Colors.{Text};

use std::env::{self, VarError};

/// The variables that a program is started with.
pub trait Variables {
    // The variable of this name may have this value, or none for this reason.
    ghost have: { Self → Text → Result (String Global) VarError → Type 0 };

    /// The value of a variable. An `Err` says why it has none, or why it isn't known.
    fn variable(&self, name: &str) -> Result<String, VarError>
        ensures { have self.now name.now result };
}

/// The variables that the system starts a program with. Nothing is known about their values.
#[derive(Clone, Copy)]
pub struct Environment<'a> {
    /// The system.
    pub rt: &'a HostRuntime,
}

impl Variables for Environment<'_> {
    ghost have = { λ _ _ _. ⊤ };

    fn variable(&self, name: &str) -> Result<String, VarError> {
        env::var(self.rt, name)
    }
}

// Whether a variable has a value that isn't empty. One whose value isn't known has.
fn is_set(answer: &Result<String, VarError>) -> bool
    ensures { result ≡ spec.is_set answer.now }
{
    match answer {
        Ok(value) => !value.is_empty(),
        Err(VarError::NotPresent) => false,
        Err(VarError::NotUnicode | VarError::OutOfMemory) => true,
    }
}

// Whether a variable names a terminal without colours.
fn is_dumb(answer: &Result<String, VarError>) -> bool
    ensures { result ≡ spec.is_dumb answer.now }
{
    match answer {
        Ok(value) => value.as_str() == "dumb",
        Err(_) => false,
    }
}

/// Whether the environment lets a terminal show colours: `NO_COLOR` is empty or not set, and `TERM` isn't
/// `dumb`.
pub fn shows_colors<V: Variables>(variables: &V) -> bool
    ensures { spec.AreShown (V.have variables.now) result }
{
    let no_color = variables.variable("NO_COLOR");
    let term = variables.variable("TERM");
    !is_set(&no_color) && !is_dumb(&term)
}
