//! Texts of version 1 as texts of version 2.

ghost use Rattle.std.specs.Prelude.{◌≡◌, ◌≤◌, ◌*◌, [], length, IfOk, IsOk, MatchResult, string_bytes};
ghost use Rattle.std.specs.Result.{IfErr};
ghost use Rattle.std.specs.String.{string_capacity};
ghost use Rattle.timefd_language.specs.declared.description_version.Language as spec_language;
ghost use Rattle.timefd_language.specs.Spans.{HasSpan, HasSpanWithin};
ghost use Rattle.timefd_lang_fault.specs.Faults as spec;
ghost use Rattle.timefd_language.specs.declared.description_version.DescriptionVersion.TheVariants.{One};
ghost use Rattle.timefd_language.specs.Grammar.{Pieces, nesting_limit};
ghost use Rattle.timefd_language.specs.Broken.{FaultOf};
ghost use Rattle.timefd_lang_fault.specs.BorrowedFaults.{HasShortFault, IsBorrowed, IsBorrowedOf, IsMemory};
ghost use Rattle.timefd_lang_fault.specs.Placed.{HasPlacedFault, IsPlaced};
ghost use Rattle.timefd_parse.specs.Answers.{IsAssigned};
ghost use Rattle.timefd_lang_fault.specs.Reported.{IsFaultOrMemory};
ghost use Rattle.timefd_language.specs.Rewritten.{rewritten};
ghost use Rattle.timefd_lift.specs.Bytewise.{outside};
ghost use Rattle.timefd_lift.specs.Answers.{IsSpelledBy, IsRewritten, HasItemsOf, IsTextOrMemory};

use crate::escape::{escape_of, kept_len};
use std::alloc::{AllocError, Global};
use timefd_parse::laws::lifting;
use timefd_parse::{
    BorrowedParseError, DescriptionVersion, Language, NESTING_LIMIT, ParseError,
    amount_all_borrowed,
};

/// The text of version 2 that means what a text of version 1 means: components stay as they are;
/// outside of them `[[` becomes `\[`, `]` becomes `\]`, and `\` becomes `\\`; everything else stays.
///
/// The error is the fault that version 1 finds in the text, or `Memory` if memory ran out. A fault
/// that quotes nothing of the text is returned even then.
pub fn v1_to_v2(alloc: Global, s: &str) -> Result<String, ParseError>
    // The answer is the text rewritten, and has the same items. A text is refused for the fault that
    // the rules of version 1 assign.
    ensures rewritten { IfOk result (λ answer. IsRewritten s.now (string_bytes answer)) }
    ensures same_items { IfOk result (λ answer. HasItemsOf s.now (string_bytes answer)) }
    ensures fault { IfErr result (IsAssigned One nesting_limit s.now) }

    // A text that version 1 spells is rewritten, unless memory runs out. A text with a fault is
    // refused for it, unless the fault quotes the text and memory runs out for that.
    ensures spelled { (ps : Pieces) → IsSpelledBy ps s.now → IsTextOrMemory (rewritten ps) result }
    ensures refused { (f : spec.Fault) → FaultOf One nesting_limit s.now f
        → MatchResult result (λ _. ⊥) (IsFaultOrMemory f) }

    // The fault's index is in the text or at its end, on a character boundary.
    ensures position { IfErr result (HasPlacedFault s.now) }

    // The bytes at fault, from that index on, lie in the text.
    ensures span { IfErr result (HasSpanWithin (spec_language.Language.Version One) s.now) }

    // The answer is at most twice as long.
    ensures within { IfOk result (λ answer. length (string_bytes answer) ≤ 2 * length s.now) }

    // The empty text allocates no memory.
    ensures empty { s.now ≡ [] → IsOk result }
{
    match v1_to_v2_borrowed(alloc, s) {
        Ok(answer) => Ok(answer),
        Err(error) => Err(error.into_owned(alloc)),
    }
}

/// Rewrites a text of version 1 as `v1_to_v2` does, with a fault that borrows what it quotes. This
/// call is this port's own.
///
/// The error is `Invalid` with the fault of the text, or `Memory` if memory ran out. A text that has
/// a fault is refused for it even then.
pub fn v1_to_v2_borrowed(alloc: Global, s: &str) -> Result<String, BorrowedParseError<'_>>
    // The answer is the text rewritten, and has the same items. A text is refused for the fault that
    // the rules of version 1 assign.
    ensures rewritten { IfOk result (λ answer. IsRewritten s.now (string_bytes answer)) }
    ensures same_items { IfOk result (λ answer. HasItemsOf s.now (string_bytes answer)) }
    ensures fault { IfErr result (IsBorrowedOf (FaultOf One nesting_limit s.now)) }

    // A text that version 1 spells is rewritten, unless memory runs out. A text with a fault is
    // refused for it.
    ensures spelled { (ps : Pieces) → IsSpelledBy ps s.now
        → MatchResult result (λ answer. string_bytes answer ≡ rewritten ps) IsMemory }
    ensures refused { (f : spec.Fault) → FaultOf One nesting_limit s.now f
        → MatchResult result (λ _. ⊥) (IsBorrowed f) }

    // The fault's index is in the text or at its end, on a character boundary. Its words are short,
    // so that its sentence can be written.
    ensures position { IfErr result (IsBorrowedOf (IsPlaced s.now)) }
    ensures words { IfErr result HasShortFault }

    // The fault ends after the name, the key, the value or the character at fault.
    ensures span { IfErr result (HasSpan (spec_language.Language.Version One) s.now) }

    // The answer is at most twice as long.
    ensures within { IfOk result (λ answer. length (string_bytes answer) ≤ 2 * length s.now) }

    // The empty text allocates no memory.
    ensures empty { s.now ≡ [] → IsOk result }
{
    // The law by which version 2 spells the same items.
    lifting();
    // Checking a text of version 1 allocates no memory.
    let language = Language::Version(DescriptionVersion::One);
    match amount_all_borrowed(alloc, language, NESTING_LIMIT, s) {
        Ok(_) => match escaped(alloc, s) {
            Ok(answer) => Ok(answer),
            Err(error) => Err(BorrowedParseError::Memory(error)),
        },
        Err(error) => Err(error),
    }
}

/// The text with its literals escaped as in version 2. A text that needs no escape is copied in one
/// go.
fn escaped(alloc: Global, text: &str) -> Result<String, AllocError>
    ensures written { IfOk result (λ answer. string_bytes answer ≡ outside text.now) }
    ensures empty { text.now ≡ [] → IsOk result }
{
    let mut answer = first_room(alloc, text)?;
    let (kept, mut rest) = text.split_at(kept_len(text.as_bytes()));
    answer.push_str(kept)?;
    while let Some((escape, after)) = escape_of(rest) {
        answer.push_str(escape)?;
        let (kept, after) = after.split_at(kept_len(after.as_bytes()));
        answer.push_str(kept)?;
        rest = after;
    }
    Ok(answer)
}

/// An empty string with room for as many bytes as this text has, which is enough if nothing is
/// escaped.
fn first_room(alloc: Global, text: &str) -> Result<String, AllocError>
    ensures bytes { IfOk result (λ answer. string_bytes answer ≡ []) }
    ensures most { IfOk result (λ answer. string_capacity answer ≤ length text.now) }
    ensures empty { text.now ≡ [] → IsOk result }
{
    String::with_capacity(alloc, text.len())
}
