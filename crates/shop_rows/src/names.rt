//! The names of the parts that stand, in a list for each material.

ghost use Rattle.std.specs.Prelude.{◌≡◌, ◌+◌, ◌<◌, ◌≤◌, List, ℕ, None, Option, IfOk, OnOk, IsTrue, false, filter, length, vec_len, vec_capacity};
ghost use Rattle.std.specs.Option.{option_to_list};
ghost use Rattle.cut_measure.specs.Names.{Name, name_cmp};
ghost use Rattle.shop_records.specs.Lists.{is_after};
ghost use Rattle.shop_records.specs.declared.records.Part.{Part as PartOf};
ghost use Rattle.cut_measure.specs.Codes.{code_cmp};
ghost use Rattle.shop_rows.specs.Keys.{part_key};
ghost use Rattle.shop_rows.specs.Open.{own_key, open_key, list_key, names_of, spare_of, finds_with, finds_with_all, AreInOrder, HaveSpareNames, SetsKey, KeepsMaterial, KeepMaterials, ListsParts, ListsOthers};
ghost use Rattle.shop_rows.specs.Rows.{rise, row_at, SetsRow};

use crate::reserving::reserve_rows;
use crate::rows::{KeyedRow, at, place_near, put, settle};
use cut_measure::{Code, PartName};
use shop_records::Part;
use std::alloc::{AllocError, Global};
use std::cmp::Ordering;

/// The key of a part that stands, reserved or not: its material and its name.
#[derive(Clone, Copy, Debug)]
pub struct OpenPart {
    pub material: Code,
    pub name: PartName,
}

/// The names of a material's standing parts, rising.
#[derive(Drop)]
pub struct NameList {
    pub material: Code,
    pub names: Vec<PartName>,
}

impl KeyedRow for NameList {
    ghost use Rattle.shop_rows.specs.Open.{list_key};

    type Key = Code;

    ghost key_of = { list_key };

    fn key(&self) -> Code {
        self.material
    }
}

impl OpenPart {
    ghost use Rattle.std.specs.Prelude.{◌≡◌};
    ghost use Rattle.shop_rows.specs.Open.{open_key};

    // The key of a part.
    fn of(part: &Part) -> OpenPart
        ensures { result ≡ open_key part.now }
    {
        OpenPart {
            material: part.material,
            name: part.name,
        }
    }
}

// ---- room for names

// Makes room in a list for so many names more.
fn widen(list: &mut NameList, count: usize) -> Result<(), AllocError>
    ensures material { list.new.material ≡ list.old.material }
    ensures names { list.new.names.items ≡ list.old.names.items }
    ensures len { vec_len list.new.names ≡ vec_len list.old.names }
    ensures spare { OnOk result (vec_len list.new.names + count ≤ vec_capacity list.new.names) }
    ensures capacity { vec_capacity list.old.names ≤ vec_capacity list.new.names }
{
    reserve_rows(&mut list.names, count)
}

// Begins a list for a material, with room for so many names.
fn begin_list(lists: &mut Vec<NameList>, material: Code, count: usize) -> Result<(), AllocError>
    requires order { AreInOrder lists.old.items }
    requires none { row_at list_key code_cmp material lists.old.items ≡ None }
    ensures names { (code : List ℕ)
        → names_of code lists.new.items ≡ names_of code lists.old.items }
    ensures order { AreInOrder lists.new.items }
    ensures spare { OnOk result (count ≤ spare_of material lists.new.items) }
    ensures more { (code : List ℕ) → spare_of code lists.old.items ≤ spare_of code lists.new.items }
{
    let mut names = Vec::new(*lists.allocator());
    names.reserve(count)?;
    lists.reserve(1)?;
    let _ = put(lists, NameList { material, names });
    Ok(())
}

/// Makes room for so many names of a material, and gives the place of its list, which is looked for first near this one. The
/// names stay, also when memory runs out.
pub fn reserve_list(
    lists: &mut Vec<NameList>,
    near: usize,
    material: Code,
    count: usize,
) -> Result<usize, AllocError>
    requires order { AreInOrder lists.old.items }
    ensures names { (code : List ℕ)
        → names_of code lists.new.items ≡ names_of code lists.old.items }
    ensures order { AreInOrder lists.new.items }
    ensures spare { OnOk result (count ≤ spare_of material lists.new.items) }
    ensures more { (code : List ℕ) → spare_of code lists.old.items ≤ spare_of code lists.new.items }
{
    match place_near(lists, material, near) {
        Ok(i) => {
            widen(&mut lists[i], count)?;
            Ok(i)
        }
        Err(i) => {
            begin_list(lists, material, count)?;
            Ok(i)
        }
    }
}

// Makes room for so many names of the material of each of these parts.
fn reserve_each(lists: &mut Vec<NameList>, parts: &[Part], count: usize) -> Result<(), AllocError>
    requires order { AreInOrder lists.old.items }
    ensures names { (code : List ℕ)
        → names_of code lists.new.items ≡ names_of code lists.old.items }
    ensures order { AreInOrder lists.new.items }
    ensures spare { OnOk result (HaveSpareNames count parts.now lists.new.items) }
    ensures more { (code : List ℕ) → spare_of code lists.old.items ≤ spare_of code lists.new.items }
{
    let mut near = 0;
    for part in parts {
        near = reserve_list(lists, near, part.material, count)?;
    }
    Ok(())
}

// Makes room for so many names of the material of a part, if there is one.
fn reserve_some(
    lists: &mut Vec<NameList>,
    part: &Option<Part>,
    count: usize,
) -> Result<(), AllocError>
    requires order { AreInOrder lists.old.items }
    ensures names { (code : List ℕ)
        → names_of code lists.new.items ≡ names_of code lists.old.items }
    ensures order { AreInOrder lists.new.items }
    ensures spare { OnOk result (HaveSpareNames count (option_to_list part.now) lists.new.items) }
{
    if let Some(part) = part {
        let _ = reserve_list(lists, 0, part.material, count)?;
    }
    Ok(())
}

/// Makes room for the names of a part that moves, if there is one, of parts that are undone after it, and of parts that are put
/// after those. The names stay, also when memory runs out.
pub fn reserve_names(
    lists: &mut Vec<NameList>,
    moved: &Option<Part>,
    undone: &[Part],
    parts: &[Part],
) -> Result<(), AllocError>
    requires order { AreInOrder lists.old.items }
    ensures names { (code : List ℕ)
        → names_of code lists.new.items ≡ names_of code lists.old.items }
    ensures order { AreInOrder lists.new.items }
    ensures moved { OnOk result
        (HaveSpareNames (length undone.now + length parts.now + 1) (option_to_list moved.now)
        lists.new.items) }
    ensures undone { OnOk result
        (HaveSpareNames (length undone.now + length parts.now + 1) undone.now lists.new.items) }
    ensures parts { OnOk result
        (HaveSpareNames (length undone.now + length parts.now + 1) parts.now lists.new.items) }
{
    let count = undone.len() + parts.len() + 1;
    reserve_some(lists, moved, count)?;
    reserve_each(lists, undone, count)?;
    reserve_each(lists, parts, count)
}

// ---- names come and go

// Has a name in a list, or not.
fn settle_name(list: &mut NameList, name: PartName, is_there: bool)
    requires rising { IsTrue (rise own_key name_cmp list.old.names.items) }
    requires spare { IsTrue is_there → vec_len list.old.names < vec_capacity list.old.names }
    ensures material { list.new.material ≡ list.old.material }
    ensures settled { SetsRow own_key name_cmp name is_there list.old.names.items
        list.new.names.items }
    ensures rising { IsTrue (rise own_key name_cmp list.new.names.items) }
    ensures len { vec_len list.new.names ≤ vec_len list.old.names + 1 }
    ensures less { is_there ≡ false → vec_len list.new.names ≤ vec_len list.old.names }
    ensures capacity { vec_capacity list.old.names ≤ vec_capacity list.new.names }
{
    settle(&mut list.names, name, is_there);
}

// Has a key listed, or not, and gives the place of its material's list, which is looked for first near this one.
fn settle_key(lists: &mut Vec<NameList>, near: usize, key: OpenPart, is_there: bool) -> usize
    requires order { AreInOrder lists.old.items }
    requires spare { IsTrue is_there → 1 ≤ spare_of key.material lists.old.items }
    ensures settled { SetsKey key is_there lists.old.items lists.new.items }
    ensures order { AreInOrder lists.new.items }
    ensures spare { (code : List ℕ)
        → spare_of code lists.old.items ≤ spare_of code lists.new.items + 1 }
    ensures less { is_there ≡ false → (code : List ℕ)
        → spare_of code lists.old.items ≤ spare_of code lists.new.items }
{
    match place_near(lists, key.material, near) {
        Ok(i) => {
            settle_name(&mut lists[i], key.name, is_there);
            i
        }
        Err(_) => near,
    }
}

// Takes the key of a part that another one replaces, where that is of another material.
fn unlist(lists: &mut Vec<NameList>, replaced: Option<Part>, part: &Part)
    requires { AreInOrder lists.old.items }
    ensures others { (find : Name → Option PartOf) → ListsParts find lists.old.items
        → find part.now.name ≡ replaced
        → ListsOthers part.now (finds_with name_cmp part.now.name part.now find) lists.new.items }
    ensures order { AreInOrder lists.new.items }
    ensures spare { (code : List ℕ) → spare_of code lists.old.items ≤ spare_of code lists.new.items }
{
    let Some(old) = replaced else {
        return;
    };
    if old.material.is(&part.material) {
        return;
    }
    let key = OpenPart {
        material: old.material,
        name: part.name,
    };
    let _ = settle_key(lists, 0, key, false);
}

/// Lists a part where it stands, and not where it doesn't, in place of the one that it replaces, if there is one.
pub fn list_part(lists: &mut Vec<NameList>, replaced: Option<Part>, part: &Part)
    requires order { AreInOrder lists.old.items }
    requires spare { 1 ≤ spare_of part.now.material lists.old.items }
    ensures lists { (find : Name → Option PartOf) → ListsParts find lists.old.items
        → find part.now.name ≡ replaced
        → ListsParts (finds_with name_cmp part.now.name part.now find) lists.new.items }
    ensures order { AreInOrder lists.new.items }
    ensures spare { (code : List ℕ)
        → spare_of code lists.old.items ≤ spare_of code lists.new.items + 1 }
{
    unlist(lists, replaced, part);
    let is_there = part.is_listed(&part.material);
    let _ = settle_key(lists, 0, OpenPart::of(part), is_there);
}

/// Lists a part where it stands, and not where it doesn't, in place of one of the same material, if there is one. Gives the
/// place of its material's list, which is looked for first near this one.
pub fn list_in_place(lists: &mut Vec<NameList>, near: usize, part: &Part) -> usize
    requires order { AreInOrder lists.old.items }
    requires spare { 1 ≤ spare_of part.now.material lists.old.items }
    ensures lists { (find : Name → Option PartOf) → ListsParts find lists.old.items
        → KeepsMaterial find part.now
        → ListsParts (finds_with name_cmp part.now.name part.now find) lists.new.items }
    ensures order { AreInOrder lists.new.items }
    ensures spare { (code : List ℕ)
        → spare_of code lists.old.items ≤ spare_of code lists.new.items + 1 }
{
    let stands = part.is_listed(&part.material);
    settle_key(lists, near, OpenPart::of(part), stands)
}

/// Lists parts one after another, each where it stands, in place of one of the same material, if there is one.
pub fn list_all(lists: &mut Vec<NameList>, parts: &[Part])
    requires order { AreInOrder lists.old.items }
    requires spare { HaveSpareNames (length parts.now) parts.now lists.old.items }
    ensures lists { (find : Name → Option PartOf) → ListsParts find lists.old.items
        → KeepMaterials find parts.now
        → ListsParts (finds_with_all part_key name_cmp parts.now find) lists.new.items }
    ensures order { AreInOrder lists.new.items }
{
    let mut near = 0;
    for part in parts {
        near = list_in_place(lists, near, part);
    }
}

// ---- names are read

// The names of a list that are after one, or all.
fn after_name(names: &[PartName], after: Option<PartName>) -> &[PartName]
    requires { IsTrue (rise own_key name_cmp names.now) }
    ensures { result.now ≡ filter (is_after after) names.now }
{
    let Some(after) = after else {
        return names;
    };
    let from = names.partition_point(|name| !matches!(after.order(name), Ordering::Less));
    &names[from..]
}

/// The names of the standing parts of a material, those after one or all.
pub fn names_after(lists: &[NameList], material: Code, after: Option<PartName>) -> &[PartName]
    requires { AreInOrder lists.now }
    ensures { result.now ≡ filter (is_after after) (names_of material lists.now) }
{
    match at(lists, material) {
        Some(list) => after_name(&list.names, after),
        None => &[],
    }
}

// ---- a copy

// The same names of the same material.
fn copy_list(alloc: Global, list: &NameList) -> Result<NameList, AllocError>
    ensures { IfOk result (λ copy. (copy.material ≡ list.now.material)
        × (copy.names.items ≡ list.now.names.items)) }
{
    let names = Vec::from_slice(alloc, &list.names)?;
    Ok(NameList {
        material: list.material,
        names,
    })
}

/// The same names of each material.
pub fn copy_lists(alloc: Global, lists: &[NameList]) -> Result<Vec<NameList>, AllocError>
    requires { AreInOrder lists.now }
    ensures order { IfOk result (λ copy. AreInOrder copy.items) }
    ensures names { IfOk result
        (λ copy. (code : List ℕ) → names_of code copy.items ≡ names_of code lists.now) }
{
    let mut copies = Vec::new(alloc);
    for list in lists {
        let copy = copy_list(alloc, list)?;
        copies.push(copy)?;
    }
    Ok(copies)
}
