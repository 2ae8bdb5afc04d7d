//! What the lines of an order file are judged by without a store: the first bad row and field.

ghost use Rattle.std.specs.Prelude.{◌≡◌, ◌≤◌, IfNone, IsTrue, option_map};
ghost use Rattle.cut_measure.specs.Measures.{is_size};
ghost use Rattle.cut_measure.specs.declared.ranges.TheConstants.{MAX_HEIGHT};
ghost use Rattle.cut_measure.specs.declared.sizes.Kind.TheVariants.{Sheet};
ghost use Rattle.shop_problems.specs.Judged as spec;

use cut_measure::{Code, Kind, MAX_COUNT, MAX_HEIGHT, MAX_WIDTH, MAX_WORTH};
use shop_files::{MaterialEntry, OrderLine};

/// A bad row of an order file, from 1, and its first bad field, from 0; field 7 stands for the row as a whole.
#[derive(Clone, Copy, Debug, PartialEq, Eq)]
pub struct BadField {
    pub row: usize,
    pub field: usize,
}

// The kind of a material, where the entries have it: that of the first of its code.
pub(crate) fn kind_in(entries: &[MaterialEntry], material: Code) -> Option<Kind>
    ensures { result ≡ spec.kind_in entries.now material }
{
    for entry in entries {
        if entry.code == material {
            return Some(entry.kind);
        }
    }
    None
}

fn is_height(kind: Kind, h: u32) -> bool
    ensures is { result ≡ spec.is_height kind h }
    ensures sized { IsTrue result → (1 ≤ h) × (h ≤ MAX_HEIGHT) }
{
    match kind {
        Kind::Bar => h == 1,
        Kind::Sheet => 1 <= h && h <= MAX_HEIGHT,
    }
}

fn is_turned(kind: Kind, turn: bool) -> bool
    ensures { result ≡ spec.is_turned kind turn }
{
    match kind {
        Kind::Bar => turn,
        Kind::Sheet => false,
    }
}

// The first bad field of a line behind its material.
fn bad_measure(kind: Kind, line: &OrderLine) -> Option<usize>
    ensures first { result ≡ spec.bad_measure kind line.now }
    ensures sized { IfNone result (IsTrue (is_size Sheet line.now.w line.now.h)) }
{
    if !(1 <= line.w && line.w <= MAX_WIDTH) {
        return Some(2);
    }
    if !is_height(kind, line.h) {
        return Some(3);
    }
    if is_turned(kind, line.turn) {
        return Some(4);
    }
    if !(1 <= line.count && line.count <= MAX_COUNT) {
        return Some(5);
    }
    if !(1 <= line.worth && line.worth <= MAX_WORTH) {
        return Some(6);
    }
    None
}

// The first bad field of a line of these materials, from its material on.
fn bad_value(shop: Option<&[MaterialEntry]>, line: &OrderLine) -> Option<usize>
    ensures first { result ≡ spec.bad_value (option_map (λ entries. entries.now) shop.entry) line.now }
    ensures sized { IfNone result (IsTrue (is_size Sheet line.now.w line.now.h)) }
{
    match shop {
        None => bad_measure(Kind::Sheet, line),
        Some(entries) => match kind_in(entries, line.material) {
            None => Some(1),
            Some(kind) => bad_measure(kind, line),
        },
    }
}

// The first bad field of a line behind the one of this number.
fn bad_field(shop: Option<&[MaterialEntry]>, last: u32, line: &OrderLine) -> Option<usize>
    ensures first { result ≡ spec.bad_field (option_map (λ entries. entries.now) shop.entry) last line.now }
    ensures sized { IfNone result (IsTrue (is_size Sheet line.now.w line.now.h)) }
{
    if line.line <= last {
        return Some(0);
    }
    bad_value(shop, line)
}

// The first bad row of lines, and its first bad field.
fn first_bad_of(shop: Option<&[MaterialEntry]>, lines: &[OrderLine]) -> Option<BadField>
    ensures first { result ≡ spec.bad_from (option_map (λ entries. entries.now) shop.entry) 1 0 lines.now }
    ensures sized { IfNone result (spec.AreSized lines.now) }
{
    let mut last = 0u32;
    for i in 0..lines.len() {
        let line = &lines[i];
        if let Some(field) = bad_field(shop, last, line) {
            return Some(BadField { row: i + 1, field });
        }
        last = line.line;
    }
    None
}

/// The first bad field of an order file's lines, row by row and field by field: field 7 of row 1 where there is no line; a
/// number that isn't above that of the row before, or is 0; with a shop file's materials, one that is none of these; a length
/// outside 1..=200000, and a width outside 1..=60000, or for a bar another than 1; a bar's piece that may be turned; a count
/// outside 1..=1000000; and a worth outside 1..=1000000000.
#[tactic(auto, using(crate::proofs::JudgedLines::of_some))]
pub fn first_bad_field(shop: Option<&[MaterialEntry]>, lines: &[OrderLine]) -> Option<BadField>
    ensures first { result ≡ spec.first_bad_field (option_map (λ entries. entries.now) shop.entry) lines.now }
    ensures sized { IfNone result (spec.AreSized lines.now) }
{
    if lines.is_empty() {
        return Some(BadField { row: 1, field: 7 });
    }
    first_bad_of(shop, lines)
}
