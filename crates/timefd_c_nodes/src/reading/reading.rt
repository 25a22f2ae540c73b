//! Texts of each language, read as nodes.

ghost use Rattle.std.specs.Prelude.{◌≡◌, ◌≤◌, [], List, IfOk, IsOk, MatchResult, length};
ghost use Rattle.std.specs.Result.{IfErr};
ghost use Rattle.timefd_lang_fault.specs.BorrowedFaults.{IsBorrowed, IsBorrowedOf, IsMemory, IsRefusal};
ghost use Rattle.timefd_lang_component.specs.Tree.{Tree};
ghost use Rattle.timefd_lang_fault.specs.Faults as spec;
ghost use Rattle.timefd_language.specs.Grammar.{nesting_limit};
ghost use Rattle.timefd_parse.specs.Language.{FaultIn, SpellsIn};
ghost use Rattle.timefd_c_nodes.specs.Reading.Pieces.{IsReportOfPieces};
ghost use Rattle.timefd_c_nodes.specs.Reading.Reports.{IsReport, TakesNone};

use crate::RawNode;
use crate::reading::nested::read_version_three;
use crate::reading::report::ReadReport;
use crate::reading::strftime::read_strftime;
use crate::reading::version::read_version;
use std::alloc::Global;
use timefd_parse::{BorrowedParseError, DescriptionVersion, Language, NESTING_LIMIT};

/// Reads a text of a language, and writes its nodes and the bytes of its literals to the fronts of
/// the buffers, as far as there is room. If a buffer is too short, or the text is refused, the
/// buffers may hold parts of them. Only nested descriptions of version 3 take memory.
///
/// The error is `Invalid` with the fault of the text, or `Memory` if memory ran out. A text with a
/// fault is refused for it even then.
pub fn read<'a>(
    alloc: Global,
    language: Language,
    text: &'a str,
    nodes: &mut [RawNode],
    literals: &mut [u8],
) -> Result<ReadReport, BorrowedParseError<'a>>
    // An accepted text spells the list, and a refused text has the fault that the rules assign.
    ensures found { IfOk result (λ r. (list : List Tree)
        × SpellsIn language nesting_limit text.now list
        × IsReport language list nodes.old nodes.new literals.old literals.new r) }
    ensures fault { IfErr result (IsBorrowedOf (FaultIn language nesting_limit text.now)) }

    // A text that spells a list is accepted, unless memory runs out, and a text with a fault is
    // refused for it.
    ensures spelled { (list : List Tree) → SpellsIn language nesting_limit text.now list
        → MatchResult result (IsReport language list nodes.old nodes.new literals.old literals.new) IsMemory }
    ensures refused { (f : spec.Fault) → FaultIn language nesting_limit text.now f
        → MatchResult result (λ _. ⊥) (IsBorrowed f) }

    // The empty text takes no memory, and neither do versions 1 and 2, nor strftime.
    ensures empty { text.now ≡ [] → IsOk result }
    ensures memory { TakesNone language (length text.now) → IfErr result IsRefusal }
{
    read_within(alloc, language, NESTING_LIMIT, text, nodes, literals)
}

/// Reads and writes as `read` does, with at most `limit` nested descriptions around one another. A
/// text that nests deeper is refused.
///
/// The error is `Invalid` with the fault of the text, or `Memory` if memory ran out. A text with a
/// fault is refused for it even then.
#[inline(always)]
pub fn read_within<'a>(
    alloc: Global,
    language: Language,
    limit: u8,
    text: &'a str,
    nodes: &mut [RawNode],
    literals: &mut [u8],
) -> Result<ReadReport, BorrowedParseError<'a>>
    requires { limit ≤ nesting_limit }

    // An accepted text spells the list, and a refused text has the fault that the rules assign.
    ensures found { IfOk result (λ r. (list : List Tree)
        × SpellsIn language limit text.now list
        × IsReport language list nodes.old nodes.new literals.old literals.new r) }
    ensures fault { IfErr result (IsBorrowedOf (FaultIn language limit text.now)) }

    // A text that spells a list is accepted, unless memory runs out, and a text with a fault is
    // refused for it.
    ensures spelled { (list : List Tree) → SpellsIn language limit text.now list
        → MatchResult result (IsReport language list nodes.old nodes.new literals.old literals.new) IsMemory }
    ensures refused { (f : spec.Fault) → FaultIn language limit text.now f
        → MatchResult result (λ _. ⊥) (IsBorrowed f) }

    // The empty text takes no memory, and neither do versions 1 and 2, nor strftime.
    ensures empty { text.now ≡ [] → IsOk result }
    ensures memory { TakesNone language (length text.now) → IfErr result IsRefusal }
{
    match language {
        Language::Strftime => read_strftime::<false>(text, nodes, literals),
        Language::Version(version) => {
            if let DescriptionVersion::Three = version {
                return read_version_three(alloc, limit, text, nodes, literals);
            }
            read_version(alloc, version, limit, text, nodes, literals)
        }
    }
}

/// Reads a text of strftime and writes as `read` does, except that a composite letter is one node.
/// This node says where the letter's list is among the nodes that `read` writes for `COMPOSITES`,
/// which is itself a text of strftime. It takes no memory.
///
/// The error is `Invalid` with the fault of the text.
pub fn read_composites<'a>(
    text: &'a str,
    nodes: &mut [RawNode],
    literals: &mut [u8],
) -> Result<ReadReport, BorrowedParseError<'a>>
    // An accepted text spells the list, and a refused text has the fault that the rules assign.
    ensures found { IfOk result (λ r. (list : List Tree) × SpellsIn Language.Strftime 0 text.now list
        × IsReportOfPieces list nodes.old nodes.new literals.old literals.new r) }
    ensures fault { IfErr result (IsBorrowedOf (FaultIn Language.Strftime 0 text.now)) }

    // A text that spells a list is accepted, and a text with a fault is refused for it.
    ensures spelled { (list : List Tree) → SpellsIn Language.Strftime 0 text.now list
        → MatchResult result (IsReportOfPieces list nodes.old nodes.new literals.old literals.new) IsMemory }
    ensures refused { (f : spec.Fault) → FaultIn Language.Strftime 0 text.now f
        → MatchResult result (λ _. ⊥) (IsBorrowed f) }
    ensures empty { text.now ≡ [] → IsOk result }
    ensures memory { IfErr result IsRefusal }
{
    read_strftime::<true>(text, nodes, literals)
}
