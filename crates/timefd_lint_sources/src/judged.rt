//! Descriptions as they are checked: with their items opened if their places take items.

ghost use Rattle.std.specs.Prelude.{◌≡◌, IfOk, IfSome, IsUtf8, None, false, length, true};
ghost use Rattle.timefd_parse.specs.Tree.{Text};
ghost use Rattle.timefd_lint_sources.specs.Items.{AreJudgedAs, HoldsItem, IsAllOpened, IsJudgedAs, IsOpened};
ghost use Rattle.timefd_lint_sources.specs.Items as spec;

use crate::opening::{opened_all, opened_once};
use std::alloc::{AllocError, Global};
use std::str;
use timefd_lint_scan::{FormatLanguage, Items, SourceDescription, Unescaped};
use timefd_parse::DescriptionVersion;

/// These descriptions in order, each with the text that is checked for it. An `Err` says that memory ran
/// out.
#[tactic(auto, using(crate::proofs::JudgedLemmas::one_more))]
pub fn judged_all(
    alloc: Global,
    descriptions: Vec<SourceDescription>,
) -> Result<Vec<SourceDescription>, AllocError>
    ensures { IfOk result (λ judged. AreJudgedAs descriptions.items judged.items) }
{
    let mut judged = Vec::with_capacity(alloc, descriptions.len())?;
    for description in descriptions {
        judged.push(judged_as(alloc, description)?)?;
    }
    Ok(judged)
}

/// A description with the text that is checked for it. An `Err` says that memory ran out.
#[tactic(auto, using(crate::proofs::JudgedLemmas::as_it_is, crate::proofs::JudgedLemmas::no_text, crate::proofs::JudgedLemmas::is_text))]
pub fn judged_as(
    alloc: Global,
    description: SourceDescription,
) -> Result<SourceDescription, AllocError>
    ensures { IfOk result (IsJudgedAs description) }
{
    let Some(version) = taking(description.items, description.dialect) else {
        return Ok(description);
    };
    let Some(text) = opened_bytes(alloc, version, &description.unescaped.text)? else {
        return Ok(description);
    };
    Ok(SourceDescription {
        piece: description.piece,
        kind: description.kind,
        dialect: description.dialect,
        items: description.items,
        version: description.version,
        call: description.call,
        unescaped: Unescaped {
            text,
            positions: description.unescaped.positions,
        },
    })
}

/// Whether a text has an item that `parse` refuses and that the place of its description takes. An `Err`
/// says that memory ran out.
#[tactic(auto, using(crate::proofs::JudgedLemmas::holds_none))]
pub fn holds_item(
    alloc: Global,
    description: &SourceDescription,
    text: &str,
) -> Result<bool, AllocError>
    ensures found { IfOk result (λ holds. holds ≡ true
        → HoldsItem (spec.taking description.now.items description.now.dialect) text.now) }
    ensures none { IfOk result (λ holds. holds ≡ false
        → HoldsItem (spec.taking description.now.items description.now.dialect) text.now → ⊥) }
{
    match taking(description.items, description.dialect) {
        Some(version) => has_item(alloc, version, text),
        None => Ok(false),
    }
}

fn has_item(alloc: Global, version: DescriptionVersion, text: &str) -> Result<bool, AllocError>
    ensures found { IfOk result (λ holds. holds ≡ true
        → (next : Text) × IsOpened version text.now next) }
    ensures none { IfOk result (λ holds. holds ≡ false
        → (next : Text) → IsOpened version text.now next → ⊥) }
{
    match opened_once(alloc, version, text)? {
        Some(_opened) => Ok(true),
        None => Ok(false),
    }
}

// The text of these bytes with its items opened; `None` if they aren't UTF-8.
fn opened_bytes(
    alloc: Global,
    version: DescriptionVersion,
    bytes: &[u8],
) -> Result<Option<Vec<u8>>, AllocError>
    ensures text { IfOk result (λ opened. IfSome opened (λ text. IsUtf8 bytes.now
        × IsAllOpened (length bytes.now) version bytes.now text.items)) }
    ensures none { IfOk result (λ opened. opened ≡ None → ¬ IsUtf8 bytes.now) }
{
    match str::from_utf8(bytes) {
        Ok(text) => {
            let opened = opened_all(alloc, version, text)?;
            Ok(Some(opened.into_bytes()))
        }
        Err(_) => Ok(None),
    }
}

/// The version in which a description's place takes items that `parse` refuses; `None` if it doesn't take
/// them.
pub(crate) fn taking(items: Items, dialect: FormatLanguage) -> Option<DescriptionVersion>
    ensures { result ≡ spec.taking items dialect }
{
    match items {
        Items::Taken => version_of(dialect),
        Items::Refused => None,
    }
}

fn version_of(dialect: FormatLanguage) -> Option<DescriptionVersion>
    ensures { result ≡ spec.version_of dialect }
{
    match dialect {
        FormatLanguage::One => Some(DescriptionVersion::One),
        FormatLanguage::Two => Some(DescriptionVersion::Two),
        FormatLanguage::Three
        | FormatLanguage::Strftime
        | FormatLanguage::Python
        | FormatLanguage::C
        | FormatLanguage::Gnu
        | FormatLanguage::Chrono
        | FormatLanguage::Jiff
        | FormatLanguage::Ruby
        | FormatLanguage::Java
        | FormatLanguage::Go
        | FormatLanguage::Moment => None,
    }
}
