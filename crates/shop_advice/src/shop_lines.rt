//! Finds the error of a shop file, and its line.

use crate::causes::ShopCause;
use cut_measure::{Code, read_mm};
use shop_files::{MAX_ENTRIES, MAX_TEXT_LEN};
use std::alloc::{AllocError, Global};
use toml::{Table, Value};

// The keys of a material.
const KEYS: [&str; 5] = ["code", "kind", "kerf", "min_long", "min_short"];

/// What is wrong in a shop file, in which line (from 1, if it is found), and at which key.
#[derive(Drop)]
pub struct ShopPlace {
    pub line: Option<usize>,
    pub cause: ShopCause,
    /// A key, what TOML expects, or nothing.
    pub word: String,
}

fn place(
    alloc: Global,
    line: Option<usize>,
    cause: ShopCause,
    word: &str,
) -> Result<ShopPlace, AllocError> {
    let word = format!(in alloc; "{word}")?;
    Ok(ShopPlace { line, cause, word })
}

// The line that begins after a text.
fn line_after(text: &[u8]) -> usize {
    let mut line = 1usize;
    for byte in text {
        if *byte == b'\n' {
            line = line.saturating_add(1);
        }
    }
    line
}

// Whether a line gives a key its value.
fn has_key(line: &str, key: &str) -> bool {
    match line.trim_start().strip_prefix(key) {
        Some(rest) => rest.trim_start().starts_with('='),
        None => false,
    }
}

// The line of this number, from 1, which begins a material.
fn entry_line(text: &str, entry: usize) -> Option<usize> {
    let mut number = 0usize;
    let mut entries = 0usize;
    for line in text.lines() {
        number = number.saturating_add(1);
        if line.trim_start().starts_with("[[material]]") {
            entries = entries.saturating_add(1);
            if entries == entry {
                return Some(number);
            }
        }
    }
    None
}

// The first line after this one that gives a key its value, in the same table.
fn key_line(text: &str, after: usize, key: &str) -> Option<usize> {
    let mut number = 0usize;
    for line in text.lines() {
        number = number.saturating_add(1);
        if number > after {
            if line.trim_start().starts_with('[') {
                return None;
            }
            if has_key(line, key) {
                return Some(number);
            }
        }
    }
    None
}

// The line of a key of a material, or else that of the material.
fn line_of(text: &str, entry: usize, key: &str) -> Option<usize> {
    let begin = entry_line(text, entry)?;
    match key_line(text, begin, key) {
        Some(line) => Some(line),
        None => Some(begin),
    }
}

// A key that no material has.
fn unknown_key(table: &Table) -> Option<&str> {
    for key in table.keys() {
        if !is_known(key.as_str()) {
            return Some(key.as_str());
        }
    }
    None
}

fn is_known(key: &str) -> bool {
    for known in KEYS {
        if key == known {
            return true;
        }
    }
    false
}

// A key that a material wants.
fn missing_key(table: &Table) -> Option<&'static str> {
    for key in KEYS {
        if table.get(key).is_none() {
            return Some(key);
        }
    }
    None
}

fn text_at<'a>(table: &'a Table, key: &str) -> &'a str {
    match table.get(key) {
        Some(value) => value.as_str().unwrap_or(""),
        None => "",
    }
}

// The first key with a bad value, and what is wrong with it.
fn bad_value(table: &Table) -> Option<(&'static str, ShopCause)> {
    if Code::read(text_at(table, "code")).is_none() {
        return Some(("code", ShopCause::Code));
    }
    let kind = text_at(table, "kind");
    if kind != "bar" && kind != "sheet" {
        return Some(("kind", ShopCause::Kind));
    }
    for key in ["kerf", "min_long", "min_short"] {
        if read_mm(text_at(table, key)).is_none() {
            return Some((key, ShopCause::Length));
        }
    }
    None
}

// What is wrong in a material.
fn look_at_table(
    alloc: Global,
    text: &str,
    entry: usize,
    table: &Table,
) -> Result<ShopPlace, AllocError> {
    if let Some(key) = unknown_key(table) {
        return place(alloc, line_of(text, entry, key), ShopCause::UnknownKey, key);
    }
    if let Some(key) = missing_key(table) {
        return place(alloc, entry_line(text, entry), ShopCause::MissingKey, key);
    }
    match bad_value(table) {
        Some((key, cause)) => {
            let word = if cause == ShopCause::Length { key } else { "" };
            place(alloc, line_of(text, entry, key), cause, word)
        }
        None => place(alloc, entry_line(text, entry), ShopCause::Changed, ""),
    }
}

// What is wrong in an entry, from 1, of a list.
fn look_at_entry(
    alloc: Global,
    text: &str,
    entry: usize,
    list: &[Value],
) -> Result<ShopPlace, AllocError> {
    let Some(value) = list.get(entry.saturating_sub(1)) else {
        return place(alloc, None, ShopCause::Changed, "");
    };
    match value.as_table() {
        Some(table) => look_at_table(alloc, text, entry, table),
        None => place(alloc, None, ShopCause::NoTable, ""),
    }
}

// A key of a document but `material`.
fn other_key(document: &Table) -> Option<&str> {
    for key in document.keys() {
        if key.as_str() != "material" {
            return Some(key.as_str());
        }
    }
    None
}

// What is wrong in a document, of which this entry is bad, from 1, or the whole.
fn look_at_document(
    alloc: Global,
    text: &str,
    entry: Option<usize>,
    document: &Table,
) -> Result<ShopPlace, AllocError> {
    if let Some(key) = other_key(document) {
        return place(alloc, key_line(text, 0, key), ShopCause::OtherKey, key);
    }
    let Some(value) = document.get("material") else {
        return place(alloc, None, ShopCause::Changed, "");
    };
    let Some(list) = value.as_array() else {
        return place(alloc, key_line(text, 0, "material"), ShopCause::NoList, "");
    };
    match entry {
        Some(entry) => look_at_entry(alloc, text, entry, list.as_slice()),
        None if list.len() > MAX_ENTRIES => place(alloc, None, ShopCause::Many, ""),
        None => place(alloc, None, ShopCause::Changed, ""),
    }
}

/// What is wrong in a shop file's bytes: in this entry, from 1, or in the file as a whole.
pub fn look_at_shop(
    alloc: Global,
    bytes: &[u8],
    entry: Option<usize>,
) -> Result<ShopPlace, AllocError> {
    if bytes.len() > MAX_TEXT_LEN {
        return place(alloc, None, ShopCause::Long, "");
    }
    let Ok(text) = str::from_utf8(bytes) else {
        return place(alloc, None, ShopCause::NoText, "");
    };
    match toml::table_from_str(alloc, text) {
        Ok(document) => look_at_document(alloc, text, entry, &document),
        Err(error) => {
            let line = match error.span() {
                Some(span) => Some(line_after(bytes.get(..span.start).unwrap_or(bytes))),
                None => None,
            };
            place(alloc, line, ShopCause::NoDocument, error.message())
        }
    }
}
