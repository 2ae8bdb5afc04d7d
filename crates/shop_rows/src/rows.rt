//! Rows in the order of their keys: how one is found, put in its place and taken out.

ghost use Rattle.std.specs.declared.cmp.Ordering.{Ordering};
ghost use Rattle.std.specs.declared.cmp.Ordering.TheVariants.{Equal, Greater};
ghost use Rattle.std.specs.Prelude.{◌≡◌, ◌+◌, ◌++◌, ◌<◌, ◌≤◌, ℕ, All, List, IfNone, IfOk, IfSome, IsSome, IsTrue, None, OnErr, OnOk, Err, [], ◌∷◌, false, length, take, option_copied, vec_len, vec_capacity};
ghost use Rattle.std.specs.List.{HoldsAt, insert_slice};
ghost use Rattle.std.specs.List.Sorted.{IsBinarySearchResult, IsSearchInRange};
ghost use Rattle.std.specs.Option.{option_to_list};
ghost use Rattle.shop_rows.specs.Rows.{rise, row_at, IsRun, IsPut, SetsRow, IsTakenOut, ArePut};

use shop_records::RowList;
use std::alloc::{AllocError, Global};
use std::cmp::Ordering;
use std::mem::replace;

/// A key, in whose order rows are kept.
pub trait RowKey: Copy {
    ghost use Rattle.std.specs.Cmp.{IsTotalOrder};
    ghost use Rattle.std.specs.FinMap.{IsAntisymmetric};

    ghost cmp: { Self → Self → Ordering };

    fn compare_to(self, other: Self) -> Ordering
        ensures { result ≡ cmp self other };

    ghost total: { IsTotalOrder cmp };

    ghost exact: { IsAntisymmetric cmp };
}

/// Rows that are kept in the order of their keys.
pub trait KeyedRow: Drop {
    type Key: RowKey;

    ghost key_of: { Self → Self.Key };

    fn key(&self) -> Self::Key
        ensures { result ≡ key_of self.now };

    /// Where the row of a key is looked for first, among so many. What is found is the same wherever that is.
    fn near(_key: Self::Key, len: usize) -> usize {
        len
    }

    /// The order of the row's key and another.
    final fn compare(&self, key: Self::Key) -> Ordering
        ensures { result ≡ Self.Key.cmp (key_of self.now) key }
    {
        self.key().compare_to(key)
    }
}

// Whether the row of a key stands at this place.
fn stands_at<R: KeyedRow>(rows: &[R], key: R::Key, i: usize) -> bool
    ensures { IsTrue result → i < length rows.now
        × HoldsAt (λ row. R.Key.cmp (R.key_of row) key ≡ Equal) rows.now i }
{
    match rows.get(i) {
        Some(row) => matches!(row.compare(key), Ordering::Equal),
        None => false,
    }
}

// Whether a key comes after the last row.
fn is_after<R: KeyedRow>(rows: &[R], key: R::Key) -> bool
    ensures { IsTrue result → IsBinarySearchResult (λ row. R.Key.cmp (R.key_of row) key) rows.now
        (Err (length rows.now)) }
{
    match rows.last() {
        Some(row) => matches!(row.compare(key), Ordering::Less),
        None => true,
    }
}

/// Where the row of a key stands, or where it would. Only where it neither stands at this place nor comes after the last
/// row are the rows searched.
pub(crate) fn place_near<R: KeyedRow>(rows: &[R], key: R::Key, near: usize) -> Result<usize, usize>
    ensures range { IsSearchInRange result (length rows.now) }
    ensures position { IsBinarySearchResult (λ row. R.Key.cmp (R.key_of row) key) rows.now result }
{
    if stands_at(rows, key, near) {
        return Ok(near);
    }
    if is_after(rows, key) {
        return Err(rows.len());
    }
    rows.binary_search_by(|row| row.compare(key))
}

// Where the row of a key stands, or where it would.
fn place<R: KeyedRow>(rows: &[R], key: R::Key) -> Result<usize, usize>
    ensures range { IsSearchInRange result (length rows.now) }
    ensures position { IsBinarySearchResult (λ row. R.Key.cmp (R.key_of row) key) rows.now result }
{
    place_near(rows, key, R::near(key, rows.len()))
}

/// Whether rows rise by their keys.
pub fn rises<R: KeyedRow>(rows: &[R]) -> bool
    ensures { result ≡ rise R.key_of R.Key.cmp rows.now }
{
    for i in 1..rows.len() {
        if !matches!(rows[i - 1].compare(rows[i].key()), Ordering::Less) {
            return false;
        }
    }
    true
}

// Whether a key comes before the row at a place, or there is none.
fn is_before<R: KeyedRow>(rows: &[R], i: usize, key: R::Key) -> bool
    ensures yes { IsTrue result → i < length rows.now
        → HoldsAt (λ row. R.Key.cmp (R.key_of row) key ≡ Greater) rows.now i }
    ensures no { result ≡ false → i < length rows.now
        × HoldsAt (λ row. R.Key.cmp (R.key_of row) key ≡ Greater → ⊥) rows.now i }
{
    match rows.get(i) {
        Some(row) => matches!(row.compare(key), Ordering::Greater),
        None => true,
    }
}

/// The keys of the first and the last of rows that rise.
pub(crate) fn ends<R: KeyedRow>(rows: &[R]) -> Option<(R::Key, R::Key)>
    ensures run { IfSome result (λ keys. IsRun R.key_of R.Key.cmp keys.0 keys.1 rows.now) }
    ensures none { IfNone result (IsTrue (rise R.key_of R.Key.cmp rows.now) → rows.now ≡ []) }
{
    if !rises(rows) {
        return None;
    }
    Some((rows.first()?.key(), rows.last()?.key()))
}

/// Where rows that rise from one key to another would stand together between two others.
pub(crate) fn gap<R: KeyedRow>(rows: &[R], first: R::Key, last: R::Key) -> Option<usize>
    requires { IsTrue (rise R.key_of R.Key.cmp rows.now) }
    ensures range { IfSome result (λ i. i ≤ length rows.now) }
    ensures put { IfSome result
        (λ i. (added : List R) → IsRun R.key_of R.Key.cmp first last added
        → ArePut R.key_of R.Key.cmp added rows.now (insert_slice rows.now i added)) }
    ensures new { IfSome result
        (λ i. (added : List R) → IsRun R.key_of R.Key.cmp first last added
        → All (λ row. row_at R.key_of R.Key.cmp (R.key_of row) rows.now ≡ None) added) }
    ensures none { IfNone result
        ((added : List R) (i : ℕ) → IsRun R.key_of R.Key.cmp first last added
        → i ≤ length rows.now
        → IsTrue (rise R.key_of R.Key.cmp (insert_slice rows.now i added)) → ⊥) }
{
    let Err(i) = place(rows, first) else {
        return None;
    };
    if !is_before(rows, i, last) {
        return None;
    }
    Some(i)
}

// Where rows that rise would stand together between two others.
fn run_place<R: KeyedRow>(rows: &[R], added: &[R]) -> Option<usize>
    requires { IsTrue (rise R.key_of R.Key.cmp rows.now) }
    ensures range { IfSome result (λ i. i ≤ length rows.now) }
    ensures put { IfSome result
        (λ i. ArePut R.key_of R.Key.cmp added.now rows.now (insert_slice rows.now i added.now)) }
    ensures new { IfSome result
        (λ i. All (λ row. row_at R.key_of R.Key.cmp (R.key_of row) rows.now ≡ None) added.now) }
    ensures rising { IfSome result
        (λ i. IsTrue (rise R.key_of R.Key.cmp (insert_slice rows.now i added.now))) }
    ensures none { IfNone result
        ((i : ℕ) → i ≤ length rows.now
        → IsTrue (rise R.key_of R.Key.cmp (insert_slice rows.now i added.now))
        → added.now ≡ []) }
{
    let (first, last) = ends(added)?;
    let i = gap(rows, first, last)?;
    Some(i)
}

/// The row of a key, where it stands.
pub fn at<R: KeyedRow>(rows: &[R], key: R::Key) -> Option<&R>
    requires { IsTrue (rise R.key_of R.Key.cmp rows.now) }
    ensures row { option_copied result ≡ row_at R.key_of R.Key.cmp key rows.now }
    ensures key { IfSome result (λ row. R.key_of row.now ≡ key) }
{
    match place(rows, key) {
        Ok(i) => Some(&rows[i]),
        Err(_) => None,
    }
}

/// The row of a key.
pub fn find<R: KeyedRow + Copy>(rows: &[R], key: R::Key) -> Option<R>
    requires { IsTrue (rise R.key_of R.Key.cmp rows.now) }
    ensures row { result ≡ row_at R.key_of R.Key.cmp key rows.now }
    ensures key { IfSome result (λ row. R.key_of row ≡ key) }
{
    match at(rows, key) {
        Some(row) => Some(*row),
        None => None,
    }
}

/// Puts a row in its place, and gives the one that it replaced.
pub fn put<R: KeyedRow>(rows: &mut Vec<R>, row: R) -> Option<R>
    requires rising { IsTrue (rise R.key_of R.Key.cmp rows.old.items) }
    requires spare { vec_len rows.old < vec_capacity rows.old }
    ensures put { IsPut R.key_of R.Key.cmp row rows.old.items rows.new.items }
    ensures replaced { result ≡ row_at R.key_of R.Key.cmp (R.key_of row) rows.old.items }
    ensures rising { IsTrue (rise R.key_of R.Key.cmp rows.new.items) }
    ensures len { vec_len rows.new ≤ vec_len rows.old + 1 }
    ensures same_len { IsSome result → vec_len rows.new ≡ vec_len rows.old }
    ensures capacity { vec_capacity rows.old ≤ vec_capacity rows.new }
{
    match place(rows, row.key()) {
        Ok(i) => {
            let old = replace(&mut rows[i], row);
            Some(old)
        }
        Err(i) => {
            match rows.insert(i, row) {
                Ok(()) => (),
                Err(_) => unreachable!(),
            }
            None
        }
    }
}

/// Takes the row of a key out, where it stands, and gives it.
pub fn take_row<R: KeyedRow>(rows: &mut Vec<R>, key: R::Key) -> Option<R>
    requires { IsTrue (rise R.key_of R.Key.cmp rows.old.items) }
    ensures taken { IsTakenOut R.key_of R.Key.cmp key rows.old.items rows.new.items }
    ensures row { result ≡ row_at R.key_of R.Key.cmp key rows.old.items }
    ensures rising { IsTrue (rise R.key_of R.Key.cmp rows.new.items) }
    ensures len { vec_len rows.new ≤ vec_len rows.old }
    ensures capacity { vec_capacity rows.new ≡ vec_capacity rows.old }
{
    match place(rows, key) {
        Ok(i) => Some(rows.remove(i)),
        Err(_) => None,
    }
}

/// Has a row there, or none of its key.
pub fn settle<R: KeyedRow>(rows: &mut Vec<R>, row: R, is_there: bool)
    requires rising { IsTrue (rise R.key_of R.Key.cmp rows.old.items) }
    requires spare { IsTrue is_there → vec_len rows.old < vec_capacity rows.old }
    ensures settled { SetsRow R.key_of R.Key.cmp
        (R.key_of row) is_there rows.old.items rows.new.items }
    ensures rising { IsTrue (rise R.key_of R.Key.cmp rows.new.items) }
    ensures len { vec_len rows.new ≤ vec_len rows.old + 1 }
    ensures less { is_there ≡ false → vec_len rows.new ≤ vec_len rows.old }
    ensures capacity { vec_capacity rows.old ≤ vec_capacity rows.new }
{
    if is_there {
        let _ = put(rows, row);
        return;
    }
    let _ = take_row(rows, row.key());
}

/// Puts a row in its place, if there is one.
pub fn put_some<R: KeyedRow>(rows: &mut Vec<R>, row: Option<R>)
    requires rising { IsTrue (rise R.key_of R.Key.cmp rows.old.items) }
    requires spare { vec_len rows.old < vec_capacity rows.old }
    ensures put { ArePut R.key_of R.Key.cmp (option_to_list row) rows.old.items rows.new.items }
    ensures rising { IsTrue (rise R.key_of R.Key.cmp rows.new.items) }
{
    if let Some(row) = row {
        let _ = put(rows, row);
    }
}

/// Puts a copy of a row in its place, if there is one.
pub fn put_copy<R: KeyedRow + Copy>(rows: &mut Vec<R>, row: &Option<R>)
    requires rising { IsTrue (rise R.key_of R.Key.cmp rows.old.items) }
    requires spare { vec_len rows.old < vec_capacity rows.old }
    ensures put { ArePut R.key_of R.Key.cmp (option_to_list row.now) rows.old.items rows.new.items }
    ensures rising { IsTrue (rise R.key_of R.Key.cmp rows.new.items) }
{
    if let Some(row) = row {
        let _ = put(rows, *row);
    }
}

// Moves the rows from `from` on to a place before them.
fn move_to<R: KeyedRow>(rows: &mut [R], from: usize, i: usize)
    requires order { i ≤ from }
    requires range { from ≤ length rows.old }
    ensures { (prefix back : List R) → rows.old ≡ prefix ++ back → length prefix ≡ from
        → rows.new ≡ insert_slice prefix i back }
{
    rows[i..].rotate_left(from - i);
}

/// Moves the rows from `from` on to a place before them, of rows that a list has.
pub(crate) fn move_back<R: KeyedRow>(rows: &mut Vec<R>, from: usize, i: usize)
    requires order { i ≤ from }
    requires range { from ≤ length rows.old.items }
    ensures moved { (prefix back : List R) → rows.old.items ≡ prefix ++ back → length prefix ≡ from
        → rows.new.items ≡ insert_slice prefix i back }
    ensures len { vec_len rows.new ≡ vec_len rows.old }
    ensures capacity { vec_capacity rows.new ≡ vec_capacity rows.old }
{
    move_to(rows, from, i);
}

/// Puts rows that stand together between two others, all by one move, and returns whether they do; else nothing changes.
pub fn put_run<R: KeyedRow + Copy>(rows: &mut Vec<R>, added: &[R]) -> bool
    requires rising { IsTrue (rise R.key_of R.Key.cmp rows.old.items) }
    requires spare { vec_len rows.old + length added.now ≤ vec_capacity rows.old }
    ensures put { IsTrue result → ArePut R.key_of R.Key.cmp added.now rows.old.items rows.new.items }
    ensures new { IsTrue result
        → All (λ row. row_at R.key_of R.Key.cmp (R.key_of row) rows.old.items ≡ None) added.now }
    ensures run { IsTrue result → (i : ℕ)
        × (rows.new.items ≡ insert_slice rows.old.items i added.now) }
    ensures rising { IsTrue result → IsTrue (rise R.key_of R.Key.cmp rows.new.items) }
    ensures same { result ≡ false → rows.new ≡ rows.old }
    ensures apart { result ≡ false → (i : ℕ) → i ≤ length rows.old.items
        → IsTrue (rise R.key_of R.Key.cmp (insert_slice rows.old.items i added.now))
        → added.now ≡ [] }
{
    let Some(i) = run_place(rows, added) else {
        return false;
    };
    let from = rows.len();
    match rows.extend_from_slice(added) {
        Ok(()) => (),
        Err(_) => unreachable!(),
    }
    move_back(rows, from, i);
    true
}

// Puts rows in their places, one after another.
fn put_each<R: KeyedRow + Copy>(rows: &mut Vec<R>, added: &[R])
    requires rising { IsTrue (rise R.key_of R.Key.cmp rows.old.items) }
    requires spare { vec_len rows.old + length added.now ≤ vec_capacity rows.old }
    ensures put { ArePut R.key_of R.Key.cmp added.now rows.old.items rows.new.items }
    ensures rising { IsTrue (rise R.key_of R.Key.cmp rows.new.items) }
{
    for row in added {
        let _ = put(rows, *row);
    }
}

/// Puts rows in their places, as one after another.
pub fn put_all<R: KeyedRow + Copy>(rows: &mut Vec<R>, added: &[R])
    requires rising { IsTrue (rise R.key_of R.Key.cmp rows.old.items) }
    requires spare { vec_len rows.old + length added.now ≤ vec_capacity rows.old }
    ensures put { ArePut R.key_of R.Key.cmp added.now rows.old.items rows.new.items }
    ensures rising { IsTrue (rise R.key_of R.Key.cmp rows.new.items) }
{
    if put_run(rows, added) {
        return;
    }
    put_each(rows, added);
}

/// The first of these rows, at most so many.
pub fn first_rows<R>(rows: &[R], most: usize) -> &[R]
    ensures { result.now ≡ take most rows.now }
{
    if most < rows.len() {
        &rows[..most]
    } else {
        rows
    }
}

/// Appends a copy of a row, or changes nothing.
pub fn push_copy<R: Copy + Drop>(list: &mut RowList<R>, row: &R) -> Result<(), AllocError>
    ensures ok { OnOk result (list.new ≡ list.old ++ row.now ∷ []) }
    ensures err { OnErr result (list.new ≡ list.old) }
{
    list.push(*row)
}

/// The same rows.
pub fn copy_rows<R: Copy + Drop>(alloc: Global, rows: &[R]) -> Result<RowList<R>, AllocError>
    ensures { IfOk result (λ list. list ≡ rows.now) }
{
    let mut list = RowList::new(alloc);
    for row in rows {
        list.push(*row)?;
    }
    Ok(list)
}
