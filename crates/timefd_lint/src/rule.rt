//! A rule of a log: a code that a result may have, and what it means.

ghost use Rattle.std.specs.Prelude.{◌≡◌, ◌++◌, OnOk};
ghost use Rattle.timefd_lint_drawing.specs.Json.{quoted};
ghost use Rattle.timefd_lint.specs.Rules as spec;

use std::alloc::AllocError;
use timefd_lint_drawing::json::push_quoted;

/// What a log says of a code.
#[derive(Clone, Copy)]
pub struct LogRule<'a> {
    pub name: &'a str,
    /// How bad a result with this code is: `error` or `warning`.
    pub level: &'a str,
    /// What the code is, in a few words.
    pub summary: &'a str,
    /// What the code means, with an example, and what to write instead.
    pub explanation: &'a str,
}

/// Appends a comma and a rule. An `Err` says that memory ran out.
pub fn push_rule(out: &mut Vec<u8>, rule: LogRule<'_>) -> Result<(), AllocError>
    ensures { OnOk result (out.new.items ≡ out.old.items ++ spec.rule rule.entry.name.now
        rule.entry.level.now rule.entry.summary.now rule.entry.explanation.now) }
{
    push_front(out, rule.name, rule.level)?;
    push_words(out, rule.summary, rule.explanation)
}

fn push_front(out: &mut Vec<u8>, name: &str, level: &str) -> Result<(), AllocError>
    ensures { OnOk result (out.new.items ≡ out.old.items ++ spec.rule_front name.now level.now) }
{
    push_field(out, ",{\"id\":", name)?;
    push_field(out, ",\"defaultConfiguration\":{\"level\":", level)
}

fn push_words(out: &mut Vec<u8>, summary: &str, explanation: &str) -> Result<(), AllocError>
    ensures { OnOk result (out.new.items
        ≡ out.old.items ++ spec.rule_words summary.now explanation.now) }
{
    push_field(out, "},\"shortDescription\":{\"text\":", summary)?;
    push_field(out, "},\"help\":{\"text\":", explanation)?;
    out.extend_from_slice(b"}}\n")
}

// Appends `front`, and then the text in quotes.
fn push_field(out: &mut Vec<u8>, front: &str, text: &str) -> Result<(), AllocError>
    ensures { OnOk result (out.new.items ≡ out.old.items ++ (front.now ++ quoted text.now)) }
{
    out.extend_from_slice(front.as_bytes())?;
    push_quoted(out, text)
}
