//! The cells of a material's parts, added up column by column in 128 bits as parts come and go.

ghost use Rattle.std.specs.Prelude.{◌≡◌, ◌⊎◌, ◌+◌, ◌*◌, ◌<◌, ◌≤◌, ◌^◌, ℕ, All, List, true, false, IsTrue, IfSome, IfNone, IsSome, length, vec_len, vec_capacity};
ghost use Rattle.cut_measure.specs.Codes.{code_cmp};
ghost use Rattle.shop_records.specs.declared.records.Column.{Column as ColumnOf};
ghost use Rattle.shop_rows.specs.Rows.{rise};
ghost use Rattle.std.specs.Bool.{Decides};
ghost use Rattle.std.specs.Option.{ForSome};
ghost use Rattle.shop_records.specs.Content.{of_found, cells_in};
ghost use Rattle.std.specs.Ordering.{is_eq};
ghost use Rattle.shop_rows.specs.Adding.{IsAdded, IsLost, IsOver};
ghost use Rattle.shop_records.specs.Columns.{is_counted};
ghost use Rattle.shop_rows.specs.Sums.{totals_from, sum_in, sums_key, sum_at, counted_cells, cells_for, most_cells, all_small};

use crate::rows::{KeyedRow, find, put};
use cut_measure::Code;
use shop_records::{Column, MaterialTotals, Part, State, Totals};

// The least number that 64 bits don't hold.
const TOO_LARGE: u128 = 18_446_744_073_709_551_616;

/// The sums of one material's parts, in cells.
#[derive(Clone, Copy, Debug)]
pub struct Sums {
    pub code: Code,
    pub received: u128,
    pub stock: u128,
    pub rack: u128,
    pub pieces: u128,
    pub kerf: u128,
    pub scrap: u128,
    pub returned: u128,
}

impl KeyedRow for Sums {
    ghost use Rattle.shop_rows.specs.Sums.{sums_key};

    type Key = Code;

    ghost key_of = { sums_key };

    fn key(&self) -> Code {
        self.code
    }
}

/// The sums of a material without parts.
pub fn no_sums(code: Code) -> Sums
    ensures code { result.code ≡ code }
    ensures none { (column : ColumnOf) → sum_in column result ≡ 0 }
{
    Sums {
        code,
        received: 0,
        stock: 0,
        rack: 0,
        pieces: 0,
        kerf: 0,
        scrap: 0,
        returned: 0,
    }
}

fn raised(sum: u128, part: &Part, column: Column) -> u128
    requires { sum + part.now.size.w * part.now.size.h < 2 ^ 128 }
    ensures { result ≡ sum + counted_cells column part.now }
{
    let cells = u128::from(part.size.cells());
    if part.counts_in(column) {
        sum + cells
    } else {
        sum
    }
}

fn lowered(sum: u128, part: &Part, column: Column) -> u128
    requires { counted_cells column part.now ≤ sum }
    ensures { result + counted_cells column part.now ≡ sum }
{
    let cells = u128::from(part.size.cells());
    if part.counts_in(column) {
        sum - cells
    } else {
        sum
    }
}

// The sums with a part more.
fn with_part(sums: Sums, part: &Part) -> Sums
    requires { (column : ColumnOf)
        → sum_in column sums + part.now.size.w * part.now.size.h < 2 ^ 128 }
    ensures code { result.code ≡ sums.code }
    ensures sums { (column : ColumnOf)
        → sum_in column result ≡ sum_in column sums + counted_cells column part.now }
{
    Sums {
        code: sums.code,
        received: raised(sums.received, part, Column::Received),
        stock: raised(sums.stock, part, Column::Stock),
        rack: raised(sums.rack, part, Column::Rack),
        pieces: raised(sums.pieces, part, Column::Pieces),
        kerf: raised(sums.kerf, part, Column::Kerf),
        scrap: raised(sums.scrap, part, Column::Scrap),
        returned: raised(sums.returned, part, Column::Returned),
    }
}

/// The sums with parts more, where all are of their material.
pub fn with_all(sums: Sums, parts: &[Part]) -> Option<Sums>
    requires { (column : ColumnOf) → sum_in column sums + length parts.now * most_cells < 2 ^ 128 }
    ensures code { IfSome result (λ more. more.code ≡ sums.code) }
    ensures sums { IfSome result
        (λ more. (column : ColumnOf)
        → sum_in column more ≡ sum_in column sums + cells_in column sums.code parts.now) }
    ensures others { IsSome result → (column : ColumnOf) (code : List ℕ)
        → is_eq (code_cmp sums.code code) ≡ false → cells_in column code parts.now ≡ 0 }
    ensures small { IsSome result → IsTrue (all_small parts.now) }
    ensures own { IsSome result → All (λ part. part.material ≡ sums.code) parts.now }
    ensures none { IfNone result (All (λ part. part.material ≡ sums.code) parts.now → ⊥) }
{
    let mut more = sums;
    for part in parts {
        if !part.material.is(&sums.code) {
            return None;
        }
        let _cells = part.size.cells();
        more = with_part(more, part);
    }
    Some(more)
}

// The sums with a part less.
fn without_part(sums: Sums, part: &Part) -> Sums
    requires { (column : ColumnOf) → counted_cells column part.now ≤ sum_in column sums }
    ensures code { result.code ≡ sums.code }
    ensures sums { (column : ColumnOf)
        → sum_in column result + counted_cells column part.now ≡ sum_in column sums }
{
    Sums {
        code: sums.code,
        received: lowered(sums.received, part, Column::Received),
        stock: lowered(sums.stock, part, Column::Stock),
        rack: lowered(sums.rack, part, Column::Rack),
        pieces: lowered(sums.pieces, part, Column::Pieces),
        kerf: lowered(sums.kerf, part, Column::Kerf),
        scrap: lowered(sums.scrap, part, Column::Scrap),
        returned: lowered(sums.returned, part, Column::Returned),
    }
}

/// The sums of a material.
pub fn sums_of(rows: &[Sums], code: Code) -> Sums
    requires { IsTrue (rise sums_key code_cmp rows.now) }
    ensures code { result.code ≡ code }
    ensures sums { (column : ColumnOf) → sum_in column result ≡ sum_at column code rows.now }
{
    match find(rows, code) {
        Some(sums) => sums,
        None => no_sums(code),
    }
}

/// Adds a part's cells to the sums of its material.
pub fn add_part(rows: &mut Vec<Sums>, part: &Part)
    requires rising { IsTrue (rise sums_key code_cmp rows.old.items) }
    requires spare { vec_len rows.old < vec_capacity rows.old }
    requires fits { (column : ColumnOf)
        → sum_at column part.now.material rows.old.items + part.now.size.w * part.now.size.h
        < 2 ^ 128 }
    ensures adds { (column : ColumnOf) (code : List ℕ)
        → sum_at column code rows.new.items
        ≡ sum_at column code rows.old.items + cells_for column code part.now }
    ensures rising { IsTrue (rise sums_key code_cmp rows.new.items) }
    ensures len { vec_len rows.new ≤ vec_len rows.old + 1 }
    ensures capacity { vec_capacity rows.old ≤ vec_capacity rows.new }
{
    let sums = sums_of(rows, part.material);
    let sums = with_part(sums, part);
    let _ = put(rows, sums);
}

// A column whose sum 64 bits don't hold, if there is one.
fn wide_column(sums: &Sums) -> Option<Column>
    ensures some { IfSome result (λ column. 2 ^ 64 ≤ sum_in column sums.now) }
    ensures none { IfNone result ((column : ColumnOf) → sum_in column sums.now < 2 ^ 64) }
{
    if TOO_LARGE <= sums.received {
        return Some(Column::Received);
    }
    if TOO_LARGE <= sums.stock {
        return Some(Column::Stock);
    }
    if TOO_LARGE <= sums.rack {
        return Some(Column::Rack);
    }
    if TOO_LARGE <= sums.pieces {
        return Some(Column::Pieces);
    }
    if TOO_LARGE <= sums.kerf {
        return Some(Column::Kerf);
    }
    if TOO_LARGE <= sums.scrap {
        return Some(Column::Scrap);
    }
    if TOO_LARGE <= sums.returned {
        return Some(Column::Returned);
    }
    None
}

// A column that counts a part, if there is one.
fn column_of(part: &Part) -> Option<Column>
    ensures some { IfSome result (λ column. is_counted column part.now ≡ true) }
    ensures none { IfNone result ((column : ColumnOf) → is_counted column part.now ≡ false) }
{
    if part.counts_in(Column::Received) {
        return Some(Column::Received);
    }
    match part.state {
        State::Standing => Some(Column::Rack),
        State::Reserved(_) => Some(Column::Rack),
        State::Cut(_) | State::Undone(_) => None,
        State::Piece(_) => Some(Column::Pieces),
        State::Kerf => Some(Column::Kerf),
        State::Scrap => Some(Column::Scrap),
        State::Returned => Some(Column::Returned),
    }
}

// Whether a part adds cells to any column.
fn has_cells(part: &Part) -> bool
    ensures some { IsTrue result → (column : ColumnOf) × (1 ≤ counted_cells column part.now) }
    ensures none { result ≡ false → (column : ColumnOf) → counted_cells column part.now ≡ 0 }
{
    match column_of(part) {
        Some(_column) => 0 < part.size.cells(),
        None => false,
    }
}

/// Adds a part's cells to the sums of its material, where these are there and 64 bits hold them. A part without sums has to
/// have no cells that a column counts.
pub fn count_part(rows: &mut Vec<Sums>, part: &Part) -> bool
    requires rising { IsTrue (rise sums_key code_cmp rows.old.items) }
    requires spare { vec_len rows.old < vec_capacity rows.old }
    requires small { (column : ColumnOf) (code : List ℕ)
        → sum_at column code rows.old.items < 2 ^ 64 }
    ensures small { (column : ColumnOf) (code : List ℕ)
        → sum_at column code rows.new.items < 2 ^ 64 }
    ensures adds { IsTrue result → IsAdded part.now rows.old.items rows.new.items }
    ensures rising { IsTrue (rise sums_key code_cmp rows.new.items) }
    ensures spare { vec_len rows.new < vec_capacity rows.new }
    ensures stopped { result ≡ false → IsLost part.now rows.old.items
        ⊎ IsOver part.now rows.old.items }
{
    let Some(sums) = find(rows, part.material) else {
        return !has_cells(part);
    };
    let _cells = part.size.cells();
    let sums = with_part(sums, part);
    if let Some(_column) = wide_column(&sums) {
        return false;
    }
    let _ = put(rows, sums);
    true
}

// Takes a part's cells from the sums of its material.
fn take_part(rows: &mut Vec<Sums>, part: &Part)
    requires rising { IsTrue (rise sums_key code_cmp rows.old.items) }
    requires spare { vec_len rows.old < vec_capacity rows.old }
    requires held { (column : ColumnOf)
        → counted_cells column part.now ≤ sum_at column part.now.material rows.old.items }
    ensures takes { (column : ColumnOf) (code : List ℕ)
        → sum_at column code rows.new.items + cells_for column code part.now
        ≡ sum_at column code rows.old.items }
    ensures rising { IsTrue (rise sums_key code_cmp rows.new.items) }
    ensures len { vec_len rows.new ≡ vec_len rows.old }
    ensures capacity { vec_capacity rows.old ≤ vec_capacity rows.new }
{
    if let Some(sums) = find(rows, part.material) {
        let sums = without_part(sums, part);
        let _ = put(rows, sums);
    }
}

/// Takes the cells of a part that was replaced, if there is one.
pub fn take_replaced(rows: &mut Vec<Sums>, replaced: Option<Part>)
    requires rising { IsTrue (rise sums_key code_cmp rows.old.items) }
    requires spare { vec_len rows.old < vec_capacity rows.old }
    requires held { ForSome replaced
        (λ part. (column : ColumnOf)
        → counted_cells column part ≤ sum_at column part.material rows.old.items) }
    ensures takes { (column : ColumnOf) (code : List ℕ)
        → sum_at column code rows.new.items + of_found (cells_for column code) replaced
        ≡ sum_at column code rows.old.items }
    ensures rising { IsTrue (rise sums_key code_cmp rows.new.items) }
    ensures len { vec_len rows.new ≡ vec_len rows.old }
    ensures capacity { vec_capacity rows.old ≤ vec_capacity rows.new }
{
    if let Some(part) = replaced {
        take_part(rows, &part);
    }
}

fn narrow(sum: u128) -> Option<u64>
    ensures value { IfSome result (λ n. n ≡ sum) }
    ensures wide { IfNone result (2 ^ 64 ≤ sum) }
{
    if sum < TOO_LARGE {
        Some(sum as u64)
    } else {
        None
    }
}

/// Whether these are the totals of their material.
pub fn has_totals(rows: &[Sums], row: &MaterialTotals) -> bool
    requires rising { IsTrue (rise sums_key code_cmp rows.now) }
    requires small { (column : ColumnOf) → sum_at column row.now.material rows.now < 2 ^ 64 }
    ensures { Decides result (totals_from row.now.material rows.now ≡ row.now.totals) }
{
    match totals_in(rows, row.material) {
        Some(totals) => totals == row.totals,
        None => false,
    }
}

/// The totals of a material, where 64 bits hold each of them.
pub fn totals_in(rows: &[Sums], material: Code) -> Option<Totals>
    requires { IsTrue (rise sums_key code_cmp rows.now) }
    ensures value { IfSome result (λ totals. totals ≡ totals_from material rows.now) }
    ensures sure { ((column : ColumnOf) → sum_at column material rows.now < 2 ^ 64)
        → IsSome result }
{
    let sums = sums_of(rows, material);
    Some(Totals {
        received: narrow(sums.received)?,
        stock: narrow(sums.stock)?,
        rack: narrow(sums.rack)?,
        pieces: narrow(sums.pieces)?,
        kerf: narrow(sums.kerf)?,
        scrap: narrow(sums.scrap)?,
        returned: narrow(sums.returned)?,
    })
}
