//! The documents that are open in an editor.

ghost use Rattle.std.specs.Prelude.{◌≡◌, ◌↔◌, List, ℕ, Some, None, bytes_eq, string_bytes, if◌then◌else◌, OnOk, IsSome, IsTrue};
ghost use Rattle.std.specs.BTreeMap.{get_by_text};
ghost use Rattle.timefd_lint_lsp.specs.Kinds as spec;
ghost use Rattle.timefd_lint_lsp.specs.Documents.{with_text};

use std::alloc::AllocError;
use std::collections::BTreeMap;
use timefd_lint_scan::keys::{FileFormat, format_named};

/// How the descriptions in a document are found.
#[derive(Clone, Copy, Debug, PartialEq, Eq)]
pub enum DocumentKind {
    /// They are string literals of Rust.
    Rust,
    /// They are strings of keys.
    Keys(FileFormat),
}

/// An open document.
#[derive(Drop)]
pub struct Document {
    pub kind: DocumentKind,
    pub text: String,
}

/// The open documents by name. The names are URIs.
pub type Documents = BTreeMap<String, Document>;

/// How descriptions are found in a document, by the editor's name for its language, or else by the ending of
/// the document's name. `None` if the document isn't checked.
pub fn kind_of(language: &str, uri: &str) -> Option<DocumentKind>
    ensures { result ≡ spec.kind_of language.now uri.now }
{
    match language {
        "rust" => Some(DocumentKind::Rust),
        "toml" => Some(DocumentKind::Keys(FileFormat::Toml)),
        "json" => Some(DocumentKind::Keys(FileFormat::Json)),
        "yaml" => Some(DocumentKind::Keys(FileFormat::Yaml)),
        _ => kind_named(uri),
    }
}

fn kind_named(uri: &str) -> Option<DocumentKind>
    ensures { result ≡ spec.kind_named uri.now }
{
    if uri.as_bytes().ends_with(b".rs") {
        return Some(DocumentKind::Rust);
    }
    match format_named(uri) {
        Some(format) => Some(DocumentKind::Keys(format)),
        None => None,
    }
}

/// Opens a document, and replaces one with the same name. An `Err` says that memory ran out.
#[tactic(auto, using(std::proofs::lemmas::Map::Text::text_keys))]
pub fn open(documents: &mut Documents, uri: String, document: Document) -> Result<(), AllocError>
    ensures { OnOk result ((name : List ℕ) → get_by_text documents.new name
        ≡ (if bytes_eq name (string_bytes uri) then Some document
        else get_by_text documents.old name)) }
{
    documents.insert(uri, document)?;
    Ok(())
}

/// Replaces the text of an open document, and returns whether that document is open.
#[tactic(auto, using(std::proofs::lemmas::Map::Text::text_keys))]
pub fn change(documents: &mut Documents, uri: &str, text: String) -> bool
    ensures open { IsTrue result ↔ IsSome (get_by_text documents.old uri.now) }
    ensures texts { (name : List ℕ) → get_by_text documents.new name
        ≡ (if bytes_eq name uri.now then with_text text (get_by_text documents.old name)
        else get_by_text documents.old name) }
{
    match documents.get_mut(uri) {
        Some(document) => {
            document.text = text;
            true
        }
        None => false,
    }
}

/// Closes a document, and returns whether it was open.
#[tactic(auto, using(std::proofs::lemmas::Map::Text::text_keys))]
pub fn close(documents: &mut Documents, uri: &str) -> bool
    ensures open { IsTrue result ↔ IsSome (get_by_text documents.old uri.now) }
    ensures texts { (name : List ℕ) → get_by_text documents.new name
        ≡ (if bytes_eq name uri.now then None else get_by_text documents.old name) }
{
    documents.remove(uri).is_some()
}
