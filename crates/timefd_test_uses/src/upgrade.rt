//! Rewrites a stored description of version 1 as one of version 2.

ghost use Rattle.std.specs.Prelude.{◌≡◌, List, IfOk, MatchResult, length, string_bytes};
ghost use Rattle.std.specs.Result.{IfErr};
ghost use Rattle.timefd_parse.specs.Tree.{Tree};
ghost use Rattle.timefd_parse.specs.Faults.{Fault};
ghost use Rattle.timefd_parse.specs.Broken.{FaultOf};
ghost use Rattle.timefd_parse.specs.Grammar.{Spells, nesting_limit};
ghost use Rattle.timefd_parse.specs.Reported.{IsFaultOrMemory};
ghost use Rattle.timefd_parse.specs.DescriptionVersion.TheVariants.{One, Two};
ghost use Rattle.timefd_lift.specs.Answers.{HasItemsOf};
ghost use Rattle.timefd_parse.specs.Answers.{IsAssigned};

use std::alloc::Global;
use timefd_lift::v1_to_v2;
use timefd_parse::{BorrowedOutput, DescriptionVersion, ParseError, parse_borrowed};

/// A description of version 2, and how many items it has.
#[derive(Drop)]
pub struct Upgraded {
    pub text: String,
    pub count: usize,
}

/// The text of version 2 that means what a stored text of version 1 means. Fails if version 1
/// refuses the text, or if memory runs out.
pub fn upgrade(alloc: Global, stored: &str) -> Result<Upgraded, ParseError>
    ensures same_items { IfOk result
        (λ upgraded. HasItemsOf stored.now (string_bytes upgraded.text)) }
    ensures count { IfOk result (λ upgraded. (list : List Tree)
        × Spells Two nesting_limit 0 (string_bytes upgraded.text) list
        × (upgraded.count ≡ length list)) }

    // A fault that is returned is the stored text's, and a text that has one is refused.
    ensures fault { IfErr result (IsAssigned One nesting_limit stored.now) }
    ensures refused { (f : Fault) → FaultOf One nesting_limit stored.now f
        → MatchResult result (λ _. ⊥) (IsFaultOrMemory f) }
{
    let text = match v1_to_v2(alloc, stored) {
        Ok(text) => text,
        Err(error) => return Err(error),
    };
    let count = match parse_borrowed(alloc, DescriptionVersion::Two, &text) {
        Ok(BorrowedOutput::Items(items)) => items.len(),
        Ok(BorrowedOutput::Description(_)) => unreachable!(),
        // Version 2 accepts the rewritten text: that is proved.
        Err(ParseError::Invalid(_)) => unreachable!(),
        Err(ParseError::Memory(error)) => return Err(ParseError::Memory(error)),
    };
    Ok(Upgraded { text, count })
}
