//! The texts of a description in later versions.

ghost use Rattle.std.specs.Prelude.{List, IfOk, string_bytes};
ghost use Rattle.timefd_parse.specs.Tree.{Tree};
ghost use Rattle.timefd_lang_convert.specs.Answers.{IsNormalOf, IsPrintedOf};
ghost use Rattle.timefd_parse.specs.Grammar.{Spells, nesting_limit};
ghost use Rattle.timefd_parse.specs.Strftime.{SpellsStrftime};
ghost use Rattle.timefd_parse.specs.BorrowedFaults.{IsMemory};
ghost use Rattle.timefd_parse.specs.DescriptionVersion.TheVariants.{One, Two, Three};
ghost use Rattle.timefd_lift.specs.Modernized.{IsWrittenOf};
ghost use Rattle.timefd_parse.specs.Language.{SpellsIn};
ghost use Rattle.timefd_web.specs.Reports.{IsLater};

use std::alloc::{AllocError, Global};
use timefd_lang_convert::{normalize_v3, strftime_to_v3};
use timefd_lift::{v1_to_v2_borrowed, v2_to_v3};
use timefd_parse::{BorrowedParseError, DescriptionVersion, Language};

/// The texts of later versions with the same items.
#[derive(Drop)]
pub struct Later {
    /// The text of version 2, for a text of version 1.
    pub version_2: Option<String>,
    /// The text of version 3. For a text of version 3 it is the normal form.
    pub version_3: String,
}

/// The texts in later versions of a text that a language accepts.
pub fn later_of(alloc: Global, language: Language, text: &str) -> Result<Later, AllocError>
    requires { (list : List Tree) × SpellsIn language nesting_limit text.now list }
    ensures { IfOk result (IsLater language text.now) }
{
    match language {
        Language::Version(DescriptionVersion::One) => from_one(alloc, text),
        Language::Version(DescriptionVersion::Two) => Ok(Later {
            version_2: None,
            version_3: from_two(alloc, text)?,
        }),
        Language::Version(DescriptionVersion::Three) => Ok(Later {
            version_2: None,
            version_3: from_three(alloc, text)?,
        }),
        Language::Strftime => Ok(Later {
            version_2: None,
            version_3: from_strftime(alloc, text)?,
        }),
    }
}

fn from_one(alloc: Global, text: &str) -> Result<Later, AllocError>
    requires { (list : List Tree) × Spells One nesting_limit 0 text.now list }
    ensures { IfOk result (IsLater (Language.Version One) text.now) }
{
    let version_2 = match v1_to_v2_borrowed(alloc, text) {
        Ok(answer) => answer,
        Err(error) => return Err(want_of(error)),
    };
    let version_3 = from_two(alloc, &version_2)?;
    Ok(Later {
        version_2: Some(version_2),
        version_3,
    })
}

fn from_two(alloc: Global, text: &str) -> Result<String, AllocError>
    requires { (list : List Tree) × Spells Two nesting_limit 0 text.now list }
    ensures { IfOk result (λ answer. IsWrittenOf text.now (string_bytes answer)) }
{
    match v2_to_v3(alloc, text) {
        Ok(answer) => Ok(answer),
        Err(error) => Err(want_of(error)),
    }
}

fn from_strftime(alloc: Global, text: &str) -> Result<String, AllocError>
    requires { (list : List Tree) × SpellsStrftime text.now list }
    ensures { IfOk result (λ answer. IsPrintedOf text.now (string_bytes answer)) }
{
    match strftime_to_v3(alloc, text) {
        Ok(answer) => Ok(answer),
        Err(error) => Err(want_of(error)),
    }
}

fn from_three(alloc: Global, text: &str) -> Result<String, AllocError>
    requires { (list : List Tree) × Spells Three nesting_limit 0 text.now list }
    ensures { IfOk result (λ answer. IsNormalOf text.now (string_bytes answer)) }
{
    match normalize_v3(alloc, text) {
        Ok(answer) => Ok(answer),
        Err(error) => Err(want_of(error)),
    }
}

// Memory ran out: there is no other error here.
fn want_of(error: BorrowedParseError<'_>) -> AllocError
    requires { IsMemory error }
{
    match error {
        BorrowedParseError::Memory(error) => error,
        BorrowedParseError::Invalid(_) => unreachable!(),
    }
}
