//! Parts as rows that give the number of what each was received as: 44 bytes for each part.

ghost use Rattle.std.specs.Prelude.{◌≡◌, ◌<◌, ◌==◌, IsTrue, List, filter, length, nat_le};
ghost use Rattle.std.specs.Option.{ForSome, option_map};
ghost use Rattle.shop_rows.specs.declared.part_rows.Origin.{Origin as OriginOf};
ghost use Rattle.cut_measure.specs.Names.{name_cmp};
ghost use Rattle.shop_rows.specs.Keys.{part_key};
ghost use Rattle.shop_rows.specs.PartRows.{part_of, row_key, IsNumbered};
ghost use Rattle.shop_rows.specs.Rows.{rise};

use crate::reserving::reserve_rows;
use crate::rows::{KeyedRow, ends, find, gap, move_back, put};
use cut_measure::{Code, PartName, Size};
use shop_records::{Part, PartList, State};
use std::alloc::{AllocError, Global};

// The most origins, whose numbers 32 bits hold.
const MAX_ORIGINS: usize = 4_294_967_296;

/// What a part was received as, which it keeps: a cut hands it on to each piece.
#[derive(Clone, Copy, Debug)]
pub struct Origin {
    pub material: Code,
    pub batch: Code,
}

/// A part, with the number of its origin.
#[derive(Clone, Copy, Debug)]
pub struct PartRow {
    pub name: PartName,
    pub origin: u32,
    pub root: PartName,
    pub x: u32,
    pub y: u32,
    pub size: Size,
    pub state: State,
}

/// Parts in the order of their names.
#[derive(Drop)]
pub struct PartRows {
    pub rows: Vec<PartRow>,
    /// What is there is never changed, and may be there twice.
    pub origins: Vec<Origin>,
    /// The number of the origin that was used last.
    pub recent: u32,
}

impl KeyedRow for PartRow {
    ghost use Rattle.shop_rows.specs.PartRows.{row_key};

    type Key = PartName;

    ghost key_of = { row_key };

    fn key(&self) -> PartName {
        self.name
    }
}

// Whether this is the number of the part's origin.
fn is_numbered(origins: &[Origin], number: u32, part: &Part) -> bool
    ensures { IsTrue result → IsNumbered part.now number origins.now }
{
    match origins.get(number as usize) {
        Some(origin) => origin.material.is(&part.material) && origin.batch.is(&part.batch),
        None => false,
    }
}

// The row of a part whose origin has this number.
fn pack(part: &Part, origin: u32) -> PartRow
    ensures key { row_key result ≡ part_key part.now }
    ensures origin { result.origin ≡ origin }
    ensures part { (origins : List OriginOf) → IsNumbered part.now origin origins
        → part_of origins result ≡ part.now }
{
    PartRow {
        name: part.name,
        origin,
        root: part.root,
        x: part.x,
        y: part.y,
        size: part.size,
        state: part.state,
    }
}

// The part that a row stands for.
fn unpack(origins: &[Origin], row: &PartRow) -> Part
    requires { row.now.origin < length origins.now }
    ensures { result ≡ part_of origins.now row.now }
{
    let origin = &origins[row.origin as usize];
    Part {
        name: row.name,
        material: origin.material,
        batch: origin.batch,
        root: row.root,
        x: row.x,
        y: row.y,
        size: row.size,
        state: row.state,
    }
}

// The same of a row that was found, if there is one.
fn unpack_found(origins: &[Origin], row: Option<PartRow>) -> Option<Part>
    requires { ForSome row (λ row. row.origin < length origins.now) }
    ensures { result ≡ option_map (part_of origins.now) row }
{
    match row {
        Some(row) => Some(unpack(origins, &row)),
        None => None,
    }
}

// The rows that are named after this act or a later one.
fn from_act(rows: &[PartRow], act: u32) -> &[PartRow]
    requires { IsTrue (rise row_key name_cmp rows.now) }
    ensures rows { result.now ≡ filter (λ row. nat_le act row.name.act) rows.now }
    ensures rising { IsTrue (rise row_key name_cmp result.now) }
{
    let from = rows.partition_point(|row| row.name.act() < act);
    &rows[from..]
}

// The rows that are named after this act or an earlier one.
fn upto_act(rows: &[PartRow], act: u32) -> &[PartRow]
    requires { IsTrue (rise row_key name_cmp rows.now) }
    ensures { result.now ≡ filter (λ row. nat_le row.name.act act) rows.now }
{
    let to = rows.partition_point(|row| row.name.act() <= act);
    &rows[..to]
}

// The rows that are named after this act.
fn of_act(rows: &[PartRow], act: u32) -> &[PartRow]
    requires { IsTrue (rise row_key name_cmp rows.now) }
    ensures { result.now ≡ filter (λ row. row.name.act == act) rows.now }
{
    upto_act(from_act(rows, act), act)
}

impl PartRows {
    ghost use Rattle.std.specs.Prelude.{◌≡◌, []};
    ghost use Rattle.shop_rows.specs.PartRows.{parts_in, AreKnown};

    /// No parts.
    pub fn new(alloc: Global) -> PartRows
        ensures parts { parts_in result ≡ [] }
        ensures known { AreKnown result }
    {
        PartRows {
            rows: Vec::new(alloc),
            origins: Vec::new(alloc),
            recent: 0,
        }
    }
}

impl PartRows {
    ghost use Rattle.std.specs.Prelude.{◌≡◌, ◌<◌, ◌==◌, IfOk, IsTrue, filter, get_or, length};
    ghost use Rattle.std.specs.Bool.{Decides};
    ghost use Rattle.cut_measure.specs.Names.{name_cmp};
    ghost use Rattle.shop_rows.specs.Keys.{part_key};
    ghost use Rattle.shop_rows.specs.PartRows.{parts_in, AreKnown};
    ghost use Rattle.shop_rows.specs.Rows.{rise, row_at};

    /// The same parts.
    pub fn copy(&self, alloc: Global) -> Result<PartRows, AllocError>
        requires { AreKnown self.now }
        ensures parts { IfOk result (λ copy. parts_in copy ≡ parts_in self.now) }
        ensures known { IfOk result (λ copy. AreKnown copy) }
    {
        let rows = Vec::from_slice(alloc, &self.rows)?;
        let origins = Vec::from_slice(alloc, &self.origins)?;
        Ok(PartRows {
            rows,
            origins,
            recent: self.recent,
        })
    }

    /// The part of a name.
    pub fn find(&self, name: PartName) -> Option<Part>
        requires rising { IsTrue (rise part_key name_cmp (parts_in self.now)) }
        requires known { AreKnown self.now }
        ensures { result ≡ row_at part_key name_cmp name (parts_in self.now) }
    {
        let row = find(&self.rows, name);
        unpack_found(&self.origins, row)
    }

    /// The parts that are named after an act, by rising node.
    pub fn named(&self, alloc: Global, act: u32) -> Result<PartList, AllocError>
        requires rising { IsTrue (rise part_key name_cmp (parts_in self.now)) }
        requires known { AreKnown self.now }
        ensures { IfOk result (λ parts. parts
            ≡ filter (λ part. part.name.act == act) (parts_in self.now)) }
    {
        let mut parts = PartList::new(alloc);
        let rows = of_act(&self.rows, act);
        for row in rows {
            parts.push(unpack(&self.origins, row))?;
        }
        Ok(parts)
    }

    // The part at a place.
    fn part_at(&self, i: usize) -> Part
        requires known { AreKnown self.now }
        requires within { i < length self.now.rows.items }
        ensures { result ≡ get_or (parts_in self.now) i result }
    {
        unpack(&self.origins, &self.rows[i])
    }

    /// Whether both have the same parts.
    pub fn has_parts_of(&self, other: &PartRows) -> bool
        requires own { AreKnown self.now }
        requires other { AreKnown other.now }
        ensures { Decides result (parts_in self.now ≡ parts_in other.now) }
    {
        if self.rows.len() != other.rows.len() {
            return false;
        }
        for i in 0..self.rows.len() {
            if self.part_at(i) != other.part_at(i) {
                return false;
            }
        }
        true
    }
}

impl PartRows {
    ghost use Rattle.std.specs.Prelude.{◌≡◌, [], ◌∷◌, ◌+◌, ◌≤◌, ℕ, All, IsTrue, None, OnOk, false, length};
    ghost use Rattle.std.specs.List.{insert_slice};
    ghost use Rattle.cut_measure.specs.Names.{name_cmp};
    ghost use Rattle.shop_rows.specs.Keys.{part_key};
    ghost use Rattle.shop_rows.specs.PartRows.{parts_in, row_key, AreAppended, AreKnown, HasCapacity, TakesNumber};
    ghost use Rattle.shop_rows.specs.Rows.{rise, row_at, ArePut, IsPut};

    /// Makes room for so many parts.
    pub fn reserve(&mut self, count: usize) -> Result<(), AllocError>
        ensures parts { parts_in self.new ≡ parts_in self.old }
        ensures known { AreKnown self.old → AreKnown self.new }
        ensures spare { OnOk result (HasCapacity count self.new) }
    {
        if MAX_ORIGINS < self.origins.len().saturating_add(count) {
            return Err(AllocError);
        }
        reserve_rows(&mut self.origins, count)?;
        reserve_rows(&mut self.rows, count)?;
        Ok(())
    }

    // Appends the origin of a part, and gives its number.
    fn begin_origin(&mut self, part: &Part) -> u32
        requires { HasCapacity 1 self.old }
        ensures { TakesNumber part.now result self.old self.new }
    {
        let number = self.origins.len() as u32;
        let origin = Origin {
            material: part.material,
            batch: part.batch,
        };
        match self.origins.push(origin) {
            Ok(()) => (),
            Err(_) => unreachable!(),
        }
        self.recent = number;
        number
    }

    // The number of a part's origin, which is that of the last part where it is the same.
    fn next_number(&mut self, part: &Part) -> u32
        requires { HasCapacity 1 self.old }
        ensures { TakesNumber part.now result self.old self.new }
    {
        if is_numbered(&self.origins, self.recent, part) {
            return self.recent;
        }
        self.begin_origin(part)
    }

    // The number of a part's origin, which is that of the part of its name where it is the same.
    fn number_of(&mut self, part: &Part) -> u32
        requires rising { IsTrue (rise row_key name_cmp self.old.rows.items) }
        requires spare { HasCapacity 1 self.old }
        ensures { TakesNumber part.now result self.old self.new }
    {
        let Some(row) = find(&self.rows, part.name) else {
            return self.next_number(part);
        };
        if is_numbered(&self.origins, row.origin, part) {
            self.recent = row.origin;
            return row.origin;
        }
        self.next_number(part)
    }

    /// Puts a part in its place, and gives the one that it replaced.
    pub fn put(&mut self, part: &Part) -> Option<Part>
        requires rising { IsTrue (rise part_key name_cmp (parts_in self.old)) }
        requires known { AreKnown self.old }
        requires spare { HasCapacity 1 self.old }
        ensures put { IsPut part_key name_cmp part.now (parts_in self.old) (parts_in self.new) }
        ensures replaced { result
            ≡ row_at part_key name_cmp part.now.name (parts_in self.old) }
        ensures rising { IsTrue (rise part_key name_cmp (parts_in self.new)) }
        ensures known { AreKnown self.new }
        ensures spare { (count : ℕ) → HasCapacity (count + 1) self.old → HasCapacity count self.new }
    {
        let number = self.number_of(part);
        let replaced = put(&mut self.rows, pack(part, number));
        unpack_found(&self.origins, replaced)
    }

    // Appends a part after all others.
    fn append(&mut self, part: &Part)
        requires { HasCapacity 1 self.old }
        ensures { AreAppended (part.now ∷ []) self.old self.new }
    {
        let number = self.next_number(part);
        match self.rows.push(pack(part, number)) {
            Ok(()) => (),
            Err(_) => unreachable!(),
        }
    }

    // Appends parts, one after another.
    fn append_all(&mut self, added: &[Part])
        requires { HasCapacity (length added.now) self.old }
        ensures { AreAppended added.now self.old self.new }
    {
        for part in added {
            self.append(part);
        }
    }

    /// Puts parts that stand together between two others, all by one move, and returns whether they do; else nothing changes.
    pub fn put_run(&mut self, added: &[Part]) -> bool
        requires rising { IsTrue (rise part_key name_cmp (parts_in self.old)) }
        requires known { AreKnown self.old }
        requires spare { HasCapacity (length added.now) self.old }
        ensures put { IsTrue result
            → ArePut part_key name_cmp added.now (parts_in self.old) (parts_in self.new) }
        ensures new { IsTrue result
            → All (λ part. row_at part_key name_cmp part.name (parts_in self.old) ≡ None) added.now }
        ensures run { IsTrue result → (i : ℕ)
            × (parts_in self.new ≡ insert_slice (parts_in self.old) i added.now) }
        ensures rising { IsTrue result → IsTrue (rise part_key name_cmp (parts_in self.new)) }
        ensures known { AreKnown self.new }
        ensures same { result ≡ false → self.new ≡ self.old }
        ensures apart { result ≡ false → (i : ℕ) → i ≤ length (parts_in self.old)
            → IsTrue (rise part_key name_cmp (insert_slice (parts_in self.old) i added.now))
            → added.now ≡ [] }
    {
        let Some((first, last)) = ends(added) else {
            return false;
        };
        let Some(i) = gap(&self.rows, first, last) else {
            return false;
        };
        let from = self.rows.len();
        self.append_all(added);
        move_back(&mut self.rows, from, i);
        true
    }
}
