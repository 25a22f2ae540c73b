//! The forms in which findings are written: the name of each and what it has, and what it writes.

ghost use Rattle.std.specs.Prelude.{◌≡◌, ◌≢◌, ◌++◌, [], codes, flat_map, IfOk, OnOk, string_bytes};
ghost use Rattle.std.specs.List.{join_by};
ghost use Rattle.timefd_lint_drawing.specs.Findings.{located_of, said_of};
ghost use Rattle.timefd_lint_drawing.specs.Forms as spec;

use crate::draw::Style;
use crate::finding::{FindingLocation, FindingWords};
use crate::github::annotation;
use crate::human::human;
use crate::json::object;
use crate::sarif::result;
use crate::short::short;
use std::alloc::{AllocError, Global};

/// How a finding is written.
#[derive(Clone, Copy)]
pub enum Format {
    /// A drawing, like those of compilers.
    Human,
    /// A JSON object on a line.
    Json,
    /// `FILE:LINE:COLUMN: MESSAGE`, as editors read it.
    Short,
    /// An annotation on a line, as GitHub reads it in the output of a workflow step.
    Github,
    /// A SARIF result after a comma, on a line.
    Sarif,
}

/// How a form writes the sentence of a fault.
#[derive(Clone, Copy)]
pub enum SentenceStyle {
    /// With no more of a word than people read.
    Shown,
    /// With no more of a word than people read, and with what a further fault was found without.
    Reported,
    /// Whole, as programs read it.
    Whole,
}

impl Format {
    /// All forms, in the order in which they are listed.
    pub fn all() -> &'static [Format]
        ensures { result.now ≡ spec.all }
    {
        &[
            Format::Human,
            Format::Json,
            Format::Short,
            Format::Github,
            Format::Sarif,
        ]
    }

    /// What a user writes for the form.
    pub fn name(self) -> &'static str
        ensures { result.now ≡ spec.name_of self }
    {
        match self {
            Format::Human => "human",
            Format::Json => "json",
            Format::Short => "short",
            Format::Github => "github",
            Format::Sarif => "sarif",
        }
    }

    /// The form with this name, if there is one.
    pub fn named(name: &str) -> Option<Format>
        ensures { result ≡ spec.named name.now }
    {
        match name {
            "human" => Some(Format::Human),
            "json" => Some(Format::Json),
            "short" => Some(Format::Short),
            "github" => Some(Format::Github),
            "sarif" => Some(Format::Sarif),
            _ => None,
        }
    }

    /// How it writes the sentence of a fault.
    pub fn sentences(self) -> SentenceStyle
        ensures { result ≡ spec.sentences self }
    {
        match self {
            Format::Human => SentenceStyle::Shown,
            Format::Json | Format::Sarif => SentenceStyle::Whole,
            Format::Short | Format::Github => SentenceStyle::Reported,
        }
    }

    /// Whether it has the position of what follows a fault.
    pub fn shows_fault_end(self) -> bool
        ensures { result ≡ spec.shows_fault_end self }
    {
        match self {
            Format::Human | Format::Json | Format::Short => false,
            Format::Github | Format::Sarif => true,
        }
    }

    /// Whether it has the position of what follows a text with a warning, or a part of a format of another language.
    pub fn shows_part_end(self) -> bool
        ensures { result ≡ spec.shows_part_end self }
    {
        match self {
            Format::Human | Format::Json | Format::Short | Format::Sarif => false,
            Format::Github => true,
        }
    }

    /// Whether its columns count characters. All others count columns of a terminal.
    pub fn counts_chars(self) -> bool
        ensures { result ≡ spec.counts_chars self }
    {
        match self {
            Format::Human | Format::Json | Format::Short | Format::Github => false,
            Format::Sarif => true,
        }
    }

    /// Whether it has notes at something else than what is at fault. In the others all that is reported has the code of an error or a
    /// warning.
    pub fn shows_asides(self) -> bool
        ensures { result ≡ spec.shows_asides self }
    {
        match self {
            Format::Human | Format::Short | Format::Github => true,
            Format::Json | Format::Sarif => false,
        }
    }

    /// Whether it is a drawing. Trees are drawn only then.
    pub fn is_drawn(self) -> bool
        ensures { result ≡ spec.is_drawn self }
    {
        match self {
            Format::Human => true,
            Format::Json | Format::Short | Format::Github | Format::Sarif => false,
        }
    }

    /// Whether all that is written is one document, which can't show changes.
    pub fn is_log(self) -> bool
        ensures { result ≡ spec.is_log self }
    {
        match self {
            Format::Human | Format::Json | Format::Short | Format::Github => false,
            Format::Sarif => true,
        }
    }
}

/// A finding in the form that is asked for. An `Err` says that memory ran out.
pub fn drawn_at(
    alloc: Global,
    style: Style,
    location: FindingLocation<'_, '_>,
    finding: FindingWords<'_, '_>,
) -> Result<Vec<u8>, AllocError>
    ensures exact { IfOk result (λ message. message.items
        ≡ spec.drawn_at style (located_of location.entry) (said_of finding.entry)) }
    ensures some { IfOk result (λ message. message.items ≢ []) }
{
    written(alloc, style, location, finding)
}

fn written(
    alloc: Global,
    style: Style,
    location: FindingLocation<'_, '_>,
    finding: FindingWords<'_, '_>,
) -> Result<Vec<u8>, AllocError>
    ensures { IfOk result (λ message. message.items
        ≡ spec.drawn_at style (located_of location.entry) (said_of finding.entry)) }
{
    match style.format {
        Format::Human => {
            let drawing = human(alloc, style.is_colored, location, finding)?;
            Ok(drawing.into_bytes())
        }
        Format::Short => {
            let line = short(alloc, location, finding)?;
            Ok(line.into_bytes())
        }
        Format::Json => object(alloc, location, finding),
        Format::Github => annotation(alloc, location, finding),
        Format::Sarif => result(alloc, location, finding),
    }
}

/// Appends the names of all forms, with a comma between two of them. An `Err` says that memory ran out.
pub fn push_form_names(out: &mut String) -> Result<(), AllocError>
    ensures { OnOk result (string_bytes out.new ≡ string_bytes out.old ++ spec.names) }
{
    push_listed(out, Format::all())
}

fn push_listed(out: &mut String, forms: &[Format]) -> Result<(), AllocError>
    ensures { OnOk result (string_bytes out.new
        ≡ string_bytes out.old ++ join_by spec.name_of (codes ", ") forms.now) }
{
    if let [first, more @ ..] = forms {
        out.push_str(first.name())?;
        push_more(out, more)?;
    }
    Ok(())
}

fn push_more(out: &mut String, forms: &[Format]) -> Result<(), AllocError>
    ensures { OnOk result (string_bytes out.new ≡ string_bytes out.old
        ++ flat_map (λ form. codes ", " ++ spec.name_of form) forms.now) }
{
    for form in forms {
        out.push_str(", ")?;
        out.push_str(form.name())?;
    }
    Ok(())
}
