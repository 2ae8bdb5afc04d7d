//! Shop files: the materials of a shop, in TOML.

ghost use Rattle.std.specs.Prelude.{◌≡◌, ◌≤◌, ◌<◌, ◌+◌, ◌⊎◌, ◌↔◌, IsTrue, ℕ, List, [], ◌∷◌, ◌++◌, IfOk, IfErr, MatchOption, MatchResult, Some, codes, length, map, option_map, option_and_then};
ghost use Rattle.toml.specs.Data.{Data, Items, Members, array, as_str, get_member};
ghost use Rattle.toml.specs.View.{view, items_view, table_view};
ghost use Rattle.shop_files.specs.Shops.{IsDocument, IsList, HasList, HasLength, kind_word, IsEntry, IsEntryTable, AreEntries, IsShopFile, IsShopFault, count};
ghost use Rattle.shop_files.specs.declared.shops.ShopFault.TheVariants.{Text, NoMemory};

use crate::limits::{MAX_ENTRIES, MAX_TEXT_LEN};
use cut_measure::{Code, Kind, RowList, read_mm};
use std::alloc::Global;
use toml::{Table, Value};

/// A material in a shop file. Its lengths are 0 to 9999999 tenths of a millimetre: whoever adds it judges their ranges.
#[derive(Clone, Copy, Debug)]
pub struct MaterialEntry {
    pub code: Code,
    pub kind: Kind,
    /// How wide the saw cuts.
    pub kerf: u32,
    /// The least longer side of a remnant.
    pub min_long: u32,
    /// The least shorter side of a remnant.
    pub min_short: u32,
}

/// Why a text is no shop's.
#[derive(Clone, Copy, Debug, PartialEq, Eq)]
pub enum ShopFault {
    /// It is too long, or no document with a list of at most 1000 values under the key `material` alone.
    Text,
    /// The first bad entry, from 1.
    Entry(usize),
    /// Memory ran out.
    NoMemory,
}

// The text at a key, if the key holds a text.
fn text_at<'a>(table: &'a Table, key: &str) -> Option<&'a str>
    ensures { option_map (λ s. s.now) result
        ≡ option_and_then as_str (get_member key.now (table_view table.now)) }
{
    match table.get(key) {
        Some(value) => value.as_str(),
        None => None,
    }
}

// The length that the text at a key says.
fn length_at(table: &Table, key: &str) -> Option<u32>
    ensures { MatchOption result ((n : ℕ) → HasLength (table_view table.now) key.now n → ⊥)
        (λ n. HasLength (table_view table.now) key.now n) }
{
    read_mm(text_at(table, key)?)
}

fn kind_of(word: &str) -> Option<Kind>
    ensures { MatchOption result ((kind : Kind) → word.now ≡ kind_word kind → ⊥)
        (λ kind. word.now ≡ kind_word kind) }
{
    if word == "bar" {
        Some(Kind::Bar)
    } else if word == "sheet" {
        Some(Kind::Sheet)
    } else {
        None
    }
}

// Whether a table has so many members.
fn has_members(table: &Table, n: usize) -> bool
    ensures { IsTrue result ↔ (count (table_view table.now) ≡ n) }
{
    table.len() == n
}

// The entry that a table is.
fn entry_in(table: &Table) -> Option<MaterialEntry>
    ensures { MatchOption result
        ((entry : MaterialEntry) → IsEntryTable (table_view table.now) entry → ⊥)
        (λ entry. IsEntryTable (table_view table.now) entry) }
{
    if !has_members(table, 5) {
        return None;
    }
    let code = Code::read(text_at(table, "code")?)?;
    let kind = kind_of(text_at(table, "kind")?)?;
    let kerf = length_at(table, "kerf")?;
    let min_long = length_at(table, "min_long")?;
    let min_short = length_at(table, "min_short")?;
    Some(MaterialEntry {
        code,
        kind,
        kerf,
        min_long,
        min_short,
    })
}

// The entry that a value is.
fn entry_of(value: &Value) -> Option<MaterialEntry>
    ensures { MatchOption result ((entry : MaterialEntry) → IsEntry (view value.now) entry → ⊥)
        (λ entry. IsEntry (view value.now) entry) }
{
    entry_in(value.as_table()?)
}

// The list at the key `material`.
fn material_list(document: &Table) -> Option<&[Value]>
    ensures { MatchOption result
        ((items : Items) → get_member (codes "material") (table_view document.now)
        ≡ Some (array items) → ⊥)
        (λ list. get_member (codes "material") (table_view document.now)
        ≡ Some (array (items_view list.now))) }
{
    let Some(value) = document.get("material") else {
        return None;
    };
    match value.as_array() {
        Some(list) => Some(list.as_slice()),
        None => None,
    }
}

// The values under the key `material`, where a document has no other key.
fn list_in(document: &Table) -> Option<&[Value]>
    ensures { MatchOption result ((list : List Data) → IsList (table_view document.now) list → ⊥)
        (λ list. IsList (table_view document.now) (map view list.now)) }
{
    if has_members(document, 0) {
        return Some(&[]);
    }
    if !has_members(document, 1) {
        return None;
    }
    let Some(list) = material_list(document) else {
        return None;
    };
    Some(list)
}

// The entries that values are, or the number of the first that is none, from 1.
fn entries_of(alloc: Global, list: &[Value]) -> Result<RowList<MaterialEntry>, ShopFault>
    requires { length list.now ≤ MAX_ENTRIES }
    ensures ok { IfOk result (λ entries. AreEntries (map view list.now) entries) }
    ensures err { IfErr result
        (λ f. (text : List ℕ) → HasList text (map view list.now) → IsShopFault text f) }
{
    let mut entries = RowList::new(alloc);
    for i in 0..list.len() {
        match entry_of(&list[i]) {
            Some(entry) => {
                if entries.push(entry).is_err() {
                    return Err(ShopFault::NoMemory);
                }
            }
            None => return Err(ShopFault::Entry(i + 1)),
        }
    }
    Ok(entries)
}

// The document that a text is.
fn document_of(alloc: Global, text: &[u8]) -> Result<Table, ShopFault>
    ensures ok { IfOk result (λ t. IsDocument text.now (table_view t)) }
    ensures err { IfErr result
        (λ f. (f ≡ NoMemory) ⊎ ((f ≡ Text)
        × ((members : Members) → IsDocument text.now members → ⊥))) }
{
    let Ok(text) = str::from_utf8(text) else {
        return Err(ShopFault::Text);
    };
    match toml::table_from_str(alloc, text) {
        Ok(table) => Ok(table),
        Err(error) => {
            if error.is_memory() {
                Err(ShopFault::NoMemory)
            } else {
                Err(ShopFault::Text)
            }
        }
    }
}

// The entries or the first fault.
fn shop_of(alloc: Global, text: &[u8]) -> Result<RowList<MaterialEntry>, ShopFault>
    ensures ok { IfOk result (λ entries. IsShopFile text.now entries) }
    ensures err { IfErr result (λ f. IsShopFault text.now f) }
{
    if text.len() > MAX_TEXT_LEN {
        return Err(ShopFault::Text);
    }
    let document = document_of(alloc, text)?;
    let Some(list) = list_in(&document) else {
        return Err(ShopFault::Text);
    };
    if list.len() > MAX_ENTRIES {
        return Err(ShopFault::Text);
    }
    entries_of(alloc, list)
}

/// The entries of a shop file: a TOML document whose one key `material`, if there is one, holds a list of at most 1000
/// tables. Each has the five keys `code`, `kind` (`bar` or `sheet`), `kerf`, `min_long` and `min_short`, the last three
/// being lengths in millimetres.
pub fn read_shop(alloc: Global, text: &[u8]) -> Result<RowList<MaterialEntry>, ShopFault>
    ensures spelled { IfOk result (λ entries. IsShopFile text.now entries) }
    ensures fault { IfErr result (λ f. IsShopFault text.now f) }
    ensures only { (entries : List MaterialEntry) → IsShopFile text.now entries
        → MatchResult result (λ e. e ≡ entries) (λ f. f ≡ NoMemory) }
{
    shop_of(alloc, text)
}
