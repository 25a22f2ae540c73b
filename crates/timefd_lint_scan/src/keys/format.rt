//! Formats of files with keys.

ghost use Rattle.std.specs.Prelude.{◌≡◌};
ghost use Rattle.timefd_lint_scan.specs.Keys.Formats as spec;

/// A format of files with keys.
#[derive(Clone, Copy, Debug, PartialEq, Eq)]
pub enum FileFormat {
    Toml,
    Json,
    Yaml,
}

/// The format of a file with this name, by its extension.
pub fn format_named(name: &str) -> Option<FileFormat>
    ensures { result ≡ spec.format_named name.now }
{
    let name = name.as_bytes();
    if name.ends_with(b".toml") {
        Some(FileFormat::Toml)
    } else if name.ends_with(b".json") {
        Some(FileFormat::Json)
    } else if name.ends_with(b".yaml") || name.ends_with(b".yml") {
        Some(FileFormat::Yaml)
    } else {
        None
    }
}
