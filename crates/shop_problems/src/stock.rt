//! The material and the sizes from which the lines of an order file are planned.

ghost use Rattle.std.specs.Prelude.{◌≡◌, ◌≤◌, ◌⊎◌, All, IfErr, IfOk, MatchOption, map, option_map, string_bytes};
ghost use Rattle.std.specs.List.{list_any};
ghost use Rattle.cut_measure.specs.Measures.{Size};
ghost use Rattle.cut_order.specs.declared.instance.TheConstants.{MAX_COST};
ghost use Rattle.shop_problems.specs.Stock as spec;
ghost use Rattle.shop_problems.specs.declared.stock.StockFault.TheVariants as fault;

use cut_bound::StockSize;
use cut_measure::{Kind, Limits, Size, read_mm, write_mm};
use shop_files::MaterialEntry;
use std::alloc::{AllocError, Global};

/// Why texts say no sizes.
#[derive(Clone, Copy, Debug, PartialEq, Eq)]
pub enum StockFault {
    /// A text is no size of its kind.
    BadSize,
    /// Lack of memory.
    NoMemory,
}

/// Why an entry of a shop file can't be a material of a shop that has those before it.
#[derive(Clone, Copy, Debug, PartialEq, Eq)]
pub enum EntryFault {
    /// Its kerf or a limit is out of its range for its kind.
    Bad,
    /// An entry before it has its code, and another kind, kerf or limits.
    Exists,
}

/// An entry of a shop file that is bad: its place, from 1, and why.
#[derive(Clone, Copy, Debug, PartialEq, Eq)]
pub struct BadEntry {
    pub entry: usize,
    pub fault: EntryFault,
}

fn same_values(a: &MaterialEntry, b: &MaterialEntry) -> bool
    ensures { result ≡ spec.same_values a.now b.now }
{
    a.kind == b.kind && a.kerf == b.kerf && a.min_long == b.min_long && a.min_short == b.min_short
}

// Whether one of these entries has the code of another, and other values.
fn is_other(entry: &MaterialEntry, before: &[MaterialEntry]) -> bool
    ensures { result ≡ spec.is_other entry.now before.now }
{
    before.iter().any(|other| other.code == entry.code && !same_values(other, entry))
}

// The limits of an entry, where they are those of its kind.
fn limits_of(entry: &MaterialEntry) -> Option<Limits>
    ensures { result ≡ spec.limits_of entry.now }
{
    Limits::new(entry.kind, entry.kerf, entry.min_long, entry.min_short)
}

// Why an entry can't be a material behind those before it.
fn entry_fault(entry: &MaterialEntry, before: &[MaterialEntry]) -> Option<EntryFault>
    ensures { result ≡ spec.entry_fault entry.now before.now }
{
    if limits_of(entry).is_none() {
        return Some(EntryFault::Bad);
    }
    if is_other(entry, before) {
        return Some(EntryFault::Exists);
    }
    None
}

/// The first entry of a shop file that a shop which has only those before it refuses: one with a kerf or a limit out of its
/// range, or one of a code that was there with other values.
pub fn first_bad_entry(entries: &[MaterialEntry]) -> Option<BadEntry>
    ensures { result ≡ spec.first_bad_entry entries.now }
{
    for i in 0..entries.len() {
        if let Some(fault) = entry_fault(&entries[i], &entries[..i]) {
            return Some(BadEntry {
                entry: i + 1,
                fault,
            });
        }
    }
    None
}

/// A material of a shop file.
#[derive(Clone, Copy, Debug)]
pub struct StockMaterial {
    pub kind: Kind,
    pub limits: Limits,
}

// The first entry of a code.
fn entry_in<'a>(entries: &'a [MaterialEntry], material: &str) -> Option<&'a MaterialEntry>
    ensures { option_map (λ e. e.now) result ≡ spec.entry_in entries.now material.now }
{
    for entry in entries {
        if entry.code.as_str() == material {
            return Some(entry);
        }
    }
    None
}

/// The material of a code: that of the first entry of this code, where its values are in range.
pub fn material_in(entries: &[MaterialEntry], material: &str) -> Option<StockMaterial>
    ensures { result ≡ spec.material_in entries.now material.now }
{
    let entry = entry_in(entries, material)?;
    match limits_of(entry) {
        Some(limits) => Some(StockMaterial {
            kind: entry.kind,
            limits,
        }),
        None => None,
    }
}

// The size of a sheet whose sides two texts say.
fn sides_of(w: &str, h: &str) -> Option<Size>
    ensures { MatchOption result ((size : Size) → spec.AreSides w.now h.now size → ⊥)
        (spec.AreSides w.now h.now) }
{
    let w = read_mm(w)?;
    let h = read_mm(h)?;
    Size::new(Kind::Sheet, w, h)
}

// The size of a sheet that a text says: two lengths with an `x` between them.
fn sheet_in(text: &str) -> Option<Size>
    ensures { MatchOption result ((size : Size) → spec.IsSheetText text.now size → ⊥)
        (spec.IsSheetText text.now) }
{
    match text.split_once('x') {
        None => None,
        Some((w, h)) => sides_of(w, h),
    }
}

// The size of a bar that a text says: its length.
fn bar_in(text: &str) -> Option<Size>
    ensures { MatchOption result ((size : Size) → spec.IsBarText text.now size → ⊥)
        (spec.IsBarText text.now) }
{
    let w = read_mm(text)?;
    Size::new(Kind::Bar, w, 1)
}

/// The size of a unit that a text says, in millimetres.
pub fn size_in(kind: Kind, text: &str) -> Option<Size>
    ensures { MatchOption result ((size : Size) → spec.IsSizeText kind text.now size → ⊥)
        (spec.IsSizeText kind text.now) }
{
    match kind {
        Kind::Bar => bar_in(text),
        Kind::Sheet => sheet_in(text),
    }
}

/// The sizes that texts say, one each. The first fault: a text that is none, or lack of memory.
pub fn sizes_in(alloc: Global, kind: Kind, texts: &[&str]) -> Result<Vec<Size>, StockFault>
    ensures ok { IfOk result (λ sizes.
        spec.AreSizes kind (map (λ text. text.now) texts.now) sizes.items) }
    ensures err { IfErr result (λ f. (f ≡ fault.NoMemory)
        ⊎ ((f ≡ fault.BadSize) × spec.HasBadSize kind (map (λ text. text.now) texts.now))) }
{
    let mut sizes = Vec::new(alloc);
    for text in texts {
        let Some(size) = size_in(kind, *text) else {
            return Err(StockFault::BadSize);
        };
        if sizes.push(size).is_err() {
            return Err(StockFault::NoMemory);
        }
    }
    Ok(sizes)
}

// Whether one of the sizes has these sides.
fn is_among(size: Size, sizes: &[Size]) -> bool
    ensures { result ≡ list_any (λ other. spec.same_size other size) sizes.now }
{
    sizes
        .iter()
        .any(|other| other.w() == size.w() && other.h() == size.h())
}

/// Whether one of the sizes stands twice.
#[tactic(auto, using(crate::proofs::Sized::twice_in))]
pub fn has_twice(sizes: &[Size]) -> bool
    ensures { result ≡ spec.has_twice sizes.now }
{
    let [size, more @ ..] = sizes else {
        return false;
    };
    is_among(*size, more) || has_twice(more)
}

// What a unit of a size costs: 1 where there is no other size, and else its cells.
fn cost_of(size: Size, single: bool) -> u64
    ensures cost { result ≡ spec.cost_of size single }
    ensures most { result ≤ MAX_COST }
{
    if single { 1 } else { size.cells() }
}

/// The stock of these sizes, as many units of each as are wanted.
pub fn stock_of(alloc: Global, sizes: &[Size]) -> Result<Vec<StockSize>, AllocError>
    ensures stock { IfOk result (λ stock. stock.items ≡ spec.stock_of sizes.now) }
    ensures cheap { IfOk result (λ stock. All (λ s. s.cost ≤ MAX_COST) stock.items) }
{
    let single = sizes.len() == 1;
    let mut stock = Vec::new(alloc);
    for size in sizes {
        stock.push(StockSize {
            size: *size,
            cost: cost_of(*size, single),
            limit: None,
        })?;
    }
    Ok(stock)
}
/// How the program writes a size: the length of a bar, or both sides of a sheet with an `x` between them.
pub fn size_text(alloc: Global, kind: Kind, size: Size) -> Result<String, AllocError>
    ensures { IfOk result (λ text. string_bytes text ≡ spec.size_text kind size) }
{
    let mut text = String::new(alloc);
    write_mm(size.w(), &mut text)?;
    if kind == Kind::Bar {
        return Ok(text);
    }
    text.push_str("x")?;
    write_mm(size.h(), &mut text)?;
    Ok(text)
}
