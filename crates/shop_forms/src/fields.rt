//! What stands at the keys of a JSON object: numbers, flags, texts, codes, names and lists.

ghost use Rattle.std.specs.Prelude.{◌≡◌, codes, map, option_map};
ghost use Rattle.serde_json.specs.View.{view};
ghost use Rattle.shop_forms.specs.Fields as form;

use cut_measure::{Code, Kind, PartName};
use serde_json::Value;

/// A whole number of 64 bits at a key.
pub fn wide_at(value: &Value, key: &str) -> Option<u64>
    ensures { result ≡ form.wide_at key.now (view value.now) }
{
    value.get(key)?.as_u64()
}

/// A whole number of 32 bits at a key.
pub fn number_at(value: &Value, key: &str) -> Option<u32>
    ensures { result ≡ form.number_at key.now (view value.now) }
{
    number_of(value.get(key)?)
}

// The same of a value.
pub(crate) fn number_of(value: &Value) -> Option<u32>
    ensures { result ≡ form.number_of (view value.now) }
{
    let number = value.as_u64()?;
    if number < 4_294_967_296 {
        Some(number as u32)
    } else {
        None
    }
}

/// `true` or `false` at a key.
pub fn flag_at(value: &Value, key: &str) -> Option<bool>
    ensures { result ≡ form.flag_at key.now (view value.now) }
{
    value.get(key)?.as_bool()
}

/// The text at a key.
pub fn text_at<'a>(value: &'a Value, key: &str) -> Option<&'a str>
    ensures { option_map (λ text. text.now) result ≡ form.text_at key.now (view value.now) }
{
    value.get(key)?.as_str()
}

/// The code that is spelled at a key.
pub fn code_at(value: &Value, key: &str) -> Option<Code>
    ensures { result ≡ form.code_at key.now (view value.now) }
{
    Code::read(text_at(value, key)?)
}

/// The part's name that is spelled at a key.
pub fn name_at(value: &Value, key: &str) -> Option<PartName>
    ensures { result ≡ form.name_at key.now (view value.now) }
{
    PartName::read(text_at(value, key)?)
}

/// The part of an object of so many keys.
pub fn part_in(value: &Value, count: usize) -> Option<PartName>
    ensures { result ≡ form.row count (form.name_at (codes "part")) (view value.now) }
{
    if has_keys(value, count) {
        name_at(value, "part")
    } else {
        None
    }
}

/// The kind of material whose word is at a key.
pub fn kind_at(value: &Value, key: &str) -> Option<Kind>
    ensures { result ≡ form.kind_at key.now (view value.now) }
{
    let text = text_at(value, key)?;
    if text == "bar" {
        Some(Kind::Bar)
    } else if text == "sheet" {
        Some(Kind::Sheet)
    } else {
        None
    }
}

/// The text at a key of an object without the other key.
pub fn word_at<'a>(value: &'a Value, key: &str, other: &str) -> Option<&'a str>
    ensures { option_map (λ text. text.now) result
        ≡ form.word_at key.now other.now (view value.now) }
{
    match value.get(other) {
        Some(_) => None,
        None => text_at(value, key),
    }
}

/// The elements of the list at a key.
pub fn elements_at<'a>(value: &'a Value, key: &str) -> Option<&'a Vec<Value>>
    ensures { option_map (λ values. map view values.now.items) result
        ≡ form.elements_at key.now (view value.now) }
{
    value.get(key)?.as_array()
}

/// Whether a value is an object of so many keys.
pub fn has_keys(value: &Value, count: usize) -> bool
    ensures { result ≡ form.has_keys count (view value.now) }
{
    match value.as_object() {
        Some(members) => members.len() == count,
        None => false,
    }
}
