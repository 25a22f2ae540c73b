//! Descriptions and texts, as the answers have them.

use std::alloc::{AllocError, Global};
use timefd_lint_scan::{FormatLanguage, SourceDescription};

fn dialect_mark(dialect: FormatLanguage) -> &'static str {
    match dialect {
        FormatLanguage::One => "1",
        FormatLanguage::Two => "2",
        FormatLanguage::Three => "3",
        FormatLanguage::Strftime => "strftime",
        FormatLanguage::Python => "python",
        FormatLanguage::C => "c",
        FormatLanguage::Gnu => "gnu",
        FormatLanguage::Chrono => "chrono",
        FormatLanguage::Jiff => "jiff",
        FormatLanguage::Ruby => "ruby",
        FormatLanguage::Java => "java",
        FormatLanguage::Go => "go",
        FormatLanguage::Moment => "moment",
    }
}

fn push_description(shown: &mut String, description: &SourceDescription) -> Result<(), AllocError> {
    shown.push_str(dialect_mark(description.dialect))?;
    shown.push_str(" ")?;
    shown.push_str(str::from_utf8(&description.unescaped.text).unwrap_or("?"))?;
    shown.push_str("|")
}

/// The descriptions, each as its language and its text, between bars.
pub fn all_shown(alloc: Global, descriptions: &[SourceDescription]) -> Result<String, AllocError> {
    let mut shown = String::new(alloc);
    for description in descriptions {
        push_description(&mut shown, description)?;
    }
    Ok(shown)
}

/// The bytes as text if they are UTF-8, and as numbers otherwise.
pub fn text_of(alloc: Global, bytes: &[u8]) -> Result<String, AllocError> {
    match str::from_utf8(bytes) {
        Ok(text) => String::from_str(alloc, text),
        Err(_) => format!(in alloc; "{bytes:?}"),
    }
}
