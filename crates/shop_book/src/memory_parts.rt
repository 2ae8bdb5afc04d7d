//! The parts of a book in memory, with their sums and the names of those that stand.

ghost use Rattle.std.specs.Prelude.{◌≡◌, [], ◌∷◌, ◌+◌, ◌++◌, ◌<◌, ◌≤◌, ℕ, IfOk, IsTrue, List, OnOk, false, length, vec_len, vec_capacity};
ghost use Rattle.std.specs.Option.{option_to_list};
ghost use Rattle.cut_measure.specs.Names.{name_cmp};
ghost use Rattle.shop_records.specs.Content.{with_moved, with_parts};
ghost use Rattle.shop_records.specs.Visits.{HasSeen, IsVisit};
ghost use Rattle.shop_records.specs.declared.records.Part.{Part as PartOf};
ghost use Rattle.shop_rows.specs.Keys.{part_key};
ghost use Rattle.shop_rows.specs.Open.{parts_named};
ghost use Rattle.shop_rows.specs.PartRows.{parts_in, AreKnown, HasCapacity};
ghost use Rattle.shop_rows.specs.Rows.{rise, map_of, IsPut};
ghost use Rattle.shop_book.specs.Tallies.{HaveSpareCapacity, Tallies};
ghost use Rattle.shop_book.specs.declared.books.BookFault.{BookFault as Fault};

use cut_measure::PartName;
use shop_records::{Part, PartList, PartVisitor};
use shop_rows::{
    NameList, PartRows, Sums, add_part, list_all, list_part, put, sums_of, take_replaced, with_all,
};
use std::alloc::{AllocError, Global};

/// Makes room for so many parts and their sums.
pub(crate) fn reserve_parts(
    parts: &mut PartRows,
    totals: &mut Vec<Sums>,
    count: usize,
) -> Result<(), AllocError>
    ensures parts { parts_in parts.new ≡ parts_in parts.old }
    ensures known { AreKnown parts.old → AreKnown parts.new }
    ensures totals { totals.new.items ≡ totals.old.items }
    ensures spare { OnOk result
        (HasCapacity count parts.new × (vec_len totals.new + count ≤ vec_capacity totals.new)) }
{
    parts.reserve(count)?;
    totals.reserve(count)
}

// Appends a part that was found.
fn push_found(rows: &mut PartList, found: Option<Part>) -> Result<(), AllocError>
    ensures { OnOk result (rows.new ≡ rows.old ++ option_to_list found) }
{
    match found {
        Some(part) => rows.push(part),
        None => Ok(()),
    }
}

/// The parts of these names.
pub(crate) fn listed(
    alloc: Global,
    parts: &PartRows,
    names: &[PartName],
) -> Result<PartList, AllocError>
    requires rising { IsTrue (rise part_key name_cmp (parts_in parts.now)) }
    requires known { AreKnown parts.now }
    ensures { IfOk result (λ rows. rows ≡ parts_named names.now (parts_in parts.now)) }
{
    let mut rows = PartList::new(alloc);
    for name in names {
        push_found(&mut rows, parts.find(*name))?;
    }
    Ok(rows)
}

// Hands out a part that was found.
fn hand<V: PartVisitor>(part: Option<Part>, visitor: &mut V) -> bool
    ensures { HasSeen V.looks (option_to_list part) result visitor.old visitor.new }
{
    match part {
        Some(part) => visitor.part(&part),
        None => true,
    }
}

/// Hands out the parts of these names, for as long as the visitor answers true.
pub(crate) fn visit<V: PartVisitor>(parts: &PartRows, names: &[PartName], visitor: &mut V) -> bool
    requires rising { IsTrue (rise part_key name_cmp (parts_in parts.now)) }
    requires known { AreKnown parts.now }
    ensures { IsVisit V.looks {Fault = Fault}
        (λ what. what (parts_named names.now (parts_in parts.now))) visitor.old (Ok result) visitor.new }
{
    for name in names {
        if !hand(parts.find(*name), visitor) {
            return false;
        }
    }
    true
}

// Puts a part, and keeps the sums and the names of standing parts.
fn put_part(parts: &mut PartRows, totals: &mut Vec<Sums>, lists: &mut Vec<NameList>, part: &Part)
    requires known { AreKnown parts.old }
    requires tally { Tallies (parts_in parts.old) totals.old.items lists.old.items }
    requires spares { HaveSpareCapacity 1 (part.now ∷ []) parts.old totals.old lists.old.items }
    ensures put { IsPut part_key name_cmp part.now (parts_in parts.old) (parts_in parts.new) }
    ensures known { AreKnown parts.new }
    ensures tally { Tallies (parts_in parts.new) totals.new.items lists.new.items }
    ensures spares { (count : ℕ) (rows : List PartOf)
        → HaveSpareCapacity (count + 1) rows parts.old totals.old lists.old.items
        → HaveSpareCapacity count rows parts.new totals.new lists.new.items }
{
    let _len = parts.rows.len();
    let _cells = part.size.cells();
    let replaced = parts.put(part);
    let before = replaced;
    list_part(lists, before, part);
    take_replaced(totals, replaced);
    add_part(totals, part);
}

// Puts parts one after another.
fn put_one_by_one(
    parts: &mut PartRows,
    totals: &mut Vec<Sums>,
    lists: &mut Vec<NameList>,
    rows: &[Part],
)
    requires known { AreKnown parts.old }
    requires tally { Tallies (parts_in parts.old) totals.old.items lists.old.items }
    requires spares { HaveSpareCapacity (length rows.now) rows.now parts.old totals.old lists.old.items }
    ensures put { map_of part_key name_cmp (parts_in parts.new)
        ≡ with_parts rows.now (map_of part_key name_cmp (parts_in parts.old)) }
    ensures known { AreKnown parts.new }
    ensures tally { Tallies (parts_in parts.new) totals.new.items lists.new.items }
    ensures spares { (count : ℕ) (more : List PartOf)
        → HaveSpareCapacity (length rows.now + count) more parts.old totals.old lists.old.items
        → HaveSpareCapacity count more parts.new totals.new lists.new.items }
{
    for part in rows {
        put_part(parts, totals, lists, part);
    }
}

// Puts parts of one material that stand together between two others, all by one move, and returns whether they do; else nothing
// changes.
fn insert_run(
    parts: &mut PartRows,
    totals: &mut Vec<Sums>,
    lists: &mut Vec<NameList>,
    rows: &[Part],
) -> bool
    requires known { AreKnown parts.old }
    requires tally { Tallies (parts_in parts.old) totals.old.items lists.old.items }
    requires spares { HaveSpareCapacity (length rows.now) rows.now parts.old totals.old lists.old.items }
    ensures put { IsTrue result
        → map_of part_key name_cmp (parts_in parts.new)
        ≡ with_parts rows.now (map_of part_key name_cmp (parts_in parts.old)) }
    ensures known { IsTrue result → AreKnown parts.new }
    ensures tally { IsTrue result
        → Tallies (parts_in parts.new) totals.new.items lists.new.items }
    ensures same { result ≡ false → (parts.new ≡ parts.old) × (totals.new ≡ totals.old)
        × (lists.new ≡ lists.old) }
{
    let Some(first) = rows.first() else {
        return false;
    };
    let _len = parts.rows.len();
    let _spare = parts.rows.capacity();
    let before = sums_of(totals, first.material);
    let Some(sums) = with_all(before, rows) else {
        return false;
    };
    if !parts.put_run(rows) {
        return false;
    }
    let _ = put(totals, sums);
    list_all(lists, rows);
    true
}

// Puts parts, as one after another.
fn put_parts(parts: &mut PartRows, totals: &mut Vec<Sums>, lists: &mut Vec<NameList>, rows: &[Part])
    requires known { AreKnown parts.old }
    requires tally { Tallies (parts_in parts.old) totals.old.items lists.old.items }
    requires spares { HaveSpareCapacity (length rows.now) rows.now parts.old totals.old lists.old.items }
    ensures put { map_of part_key name_cmp (parts_in parts.new)
        ≡ with_parts rows.now (map_of part_key name_cmp (parts_in parts.old)) }
    ensures known { AreKnown parts.new }
    ensures tally { Tallies (parts_in parts.new) totals.new.items lists.new.items }
{
    if insert_run(parts, totals, lists, rows) {
        return;
    }
    put_one_by_one(parts, totals, lists, rows);
}

// Puts a part that moves, if there is one.
fn put_moved(
    parts: &mut PartRows,
    totals: &mut Vec<Sums>,
    lists: &mut Vec<NameList>,
    row: Option<Part>,
)
    requires known { AreKnown parts.old }
    requires tally { Tallies (parts_in parts.old) totals.old.items lists.old.items }
    requires spares { HaveSpareCapacity 1 (option_to_list row) parts.old totals.old lists.old.items }
    ensures put { map_of part_key name_cmp (parts_in parts.new)
        ≡ with_moved row (map_of part_key name_cmp (parts_in parts.old)) }
    ensures known { AreKnown parts.new }
    ensures tally { Tallies (parts_in parts.new) totals.new.items lists.new.items }
    ensures spares { (count : ℕ) (rows : List PartOf)
        → HaveSpareCapacity (count + 1) rows parts.old totals.old lists.old.items
        → HaveSpareCapacity count rows parts.new totals.new lists.new.items }
{
    if let Some(row) = row {
        put_part(parts, totals, lists, &row);
    }
}

/// Puts a part that moves, if there is one, parts that are undone after it, and parts after those, as one after another.
pub(crate) fn put_stock(
    parts: &mut PartRows,
    totals: &mut Vec<Sums>,
    lists: &mut Vec<NameList>,
    moved: Option<Part>,
    undone: &[Part],
    rows: &[Part],
)
    requires known { AreKnown parts.old }
    requires tally { Tallies (parts_in parts.old) totals.old.items lists.old.items }
    requires moved { HaveSpareCapacity 1 (option_to_list moved) parts.old totals.old lists.old.items }
    requires undone { HaveSpareCapacity (length undone.now + length rows.now + 1) undone.now
        parts.old totals.old lists.old.items }
    requires spares { HaveSpareCapacity (length undone.now + length rows.now + 1) rows.now
        parts.old totals.old lists.old.items }
    ensures put { map_of part_key name_cmp (parts_in parts.new)
        ≡ with_parts rows.now (with_parts undone.now
        (with_moved moved (map_of part_key name_cmp (parts_in parts.old)))) }
    ensures known { AreKnown parts.new }
    ensures tally { Tallies (parts_in parts.new) totals.new.items lists.new.items }
{
    put_moved(parts, totals, lists, moved);
    put_one_by_one(parts, totals, lists, undone);
    put_parts(parts, totals, lists, rows);
}
