//! Values of keys in TOML, JSON and YAML.

use crate::fault::RowFault;
use crate::fields::one;
use crate::sources::shown::all_shown;
use std::alloc::{AllocError, Global};
use timefd_lint_scan::keys::{
    DescriptionKey, FileFormat, descriptions_by, format_named, key_fault, key_of,
};
use timefd_lint_scan::{SourceDescription, index_in_source};

fn format_of(word: &str) -> Result<FileFormat, RowFault> {
    match word {
        "toml" => Ok(FileFormat::Toml),
        "json" => Ok(FileFormat::Json),
        "yaml" => Ok(FileFormat::Yaml),
        _ => Err(RowFault::Field("a format: toml, json or yaml")),
    }
}

fn all_keys<'a>(alloc: Global, words: &[&'a str]) -> Result<Vec<DescriptionKey<'a>>, RowFault> {
    let mut keys = Vec::new(alloc);
    for word in words {
        match key_of(word) {
            Ok(key) => keys.push(key)?,
            Err(_) => return Err(RowFault::Field("a key, as `time_format=3`")),
        }
    }
    Ok(keys)
}

/// The values of keys in a source.
fn found(alloc: Global, fields: &[&str]) -> Result<Vec<SourceDescription>, RowFault> {
    let [format, source, words @ ..] = fields else {
        return Err(RowFault::Fields("FORMAT SOURCE KEY.."));
    };
    let keys = all_keys(alloc, words)?;
    Ok(descriptions_by(alloc, format_of(format)?, source, &keys)?)
}

/// The values of keys, each as its language and its text, between bars.
pub fn keys(alloc: Global, fields: &[&str]) -> Result<String, RowFault> {
    Ok(all_shown(alloc, &found(alloc, fields)?)?)
}

/// The position in the source of each byte of a value, and of what closes the value.
fn positions_of(alloc: Global, description: &SourceDescription) -> Result<Vec<usize>, AllocError> {
    let mut positions = Vec::new(alloc);
    for index in 0..description.unescaped.positions.len() {
        positions.push(index_in_source(description, index))?;
    }
    positions.push(index_in_source(description, description.unescaped.positions.len()))?;
    Ok(positions)
}

/// The positions of the bytes of each value.
pub fn positions(alloc: Global, fields: &[&str]) -> Result<String, RowFault> {
    let mut shown = String::new(alloc);
    for description in &found(alloc, fields)? {
        let positions = positions_of(alloc, description)?;
        shown.push_str(&format!(in alloc; "{positions:?}")?)?;
    }
    Ok(shown)
}

/// The language and the name of a key.
pub fn key(alloc: Global, fields: &[&str]) -> Result<String, RowFault> {
    let word = one(fields, "WORD")?;
    match key_of(word) {
        Ok(key) => Ok(format!(in alloc; "{:?} {}", key.dialect, key.name)?),
        Err(fault) => Ok(format!(in alloc; "{fault:?}")?),
    }
}

/// Why a word isn't a key.
pub fn fault(alloc: Global, fields: &[&str]) -> Result<String, RowFault> {
    let word = one(fields, "WORD")?;
    let fault = key_fault(word);
    Ok(format!(in alloc; "{fault:?}")?)
}

/// The format of the file with a name.
pub fn file_format(alloc: Global, fields: &[&str]) -> Result<String, RowFault> {
    let name = one(fields, "NAME")?;
    let format = format_named(name);
    Ok(format!(in alloc; "{format:?}")?)
}
