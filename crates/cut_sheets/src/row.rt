//! How one row of a sheet's table is filled from others: by single worths, by stacked rows, and by joined parts.

ghost use Rattle.std.specs.Prelude.{◌≡◌, ℕ, ◌+◌, ◌-◌, ◌<◌, ◌≤◌, ◌≢◌, ◌↔◌, length, max, map, slice_index, IsTrue};
ghost use Rattle.cut_sheets.specs.Table.{IsStacked, IsBelow, IsOfferedFrom, IsJoined};

use cut_wants::number::Number;

/// A worth at a place of the row, where it is greater than what stands there.
pub(crate) fn offer<T: Number>(row: &mut [T], at: usize, worth: u64)
    requires { at < length row.old → worth < T.limit }
    ensures at { at < length row.old
        → slice_index (map T.value row.new) at ≡ max (slice_index (map T.value row.old) at) worth }
    ensures others { (p : ℕ) → p ≢ at
        → slice_index (map T.value row.new) p ≡ slice_index (map T.value row.old) p }
{
    if at < row.len() {
        row[at] = row[at].raised(T::of(0), T::of(worth));
    }
}

/// Each place is raised to the sum of the two rows there.
pub(crate) fn stack_rows<T: Number>(row: &mut [T], low: &[T], high: &[T])
    requires low_len { length low.now ≡ length row.old }
    requires high_len { length high.now ≡ length row.old }
    requires fits { (p : ℕ) → p < length row.old
        → slice_index (map T.value low.now) p + slice_index (map T.value high.now) p < T.limit }
    ensures { IsStacked (map T.value row.old) (map T.value low.now) (map T.value high.now)
        (map T.value row.new) }
{
    for p in 0..row.len() {
        row[p] = row[p].raised(low[p], high[p]);
    }
}

/// Each place is raised to the sum of the part there and one that is always the same.
fn offer_sums<T: Number>(places: &mut [T], parts: &[T], other: T)
    requires len { length parts.now ≡ length places.old }
    requires fits { (p : ℕ) → p < length places.old
        → T.value other + slice_index (map T.value parts.now) p < T.limit }
    ensures { (p : ℕ) → p < length places.old → slice_index (map T.value places.new) p
        ≡ max (slice_index (map T.value places.old) p)
        (T.value other + slice_index (map T.value parts.now) p) }
{
    for p in 0..places.len() {
        places[p] = places[p].raised(other, parts[p]);
    }
}

/// Offers the sums of a part and each part that isn't wider to the places of their widths.
fn offer_from<T: Number>(row: &mut [T], part: usize)
    requires within { part < length row.old }
    requires small { IsBelow T.limit (map T.value row.old) }
    ensures { IsOfferedFrom part (map T.value row.old) (map T.value row.new) }
{
    let reach = part.min(row.len() - 1 - part);
    let other = row[part];
    let (parts, places) = row.split_at_mut(part + 1);
    offer_sums(&mut places[..reach], &parts[1..reach + 1], other);
}

/// Raises a place to the one before it, and returns whether it is worth more by itself.
fn raise_place<T: Number>(row: &mut [T], at: usize) -> bool
    requires some { 1 ≤ at }
    requires within { at < length row.old }
    ensures more { IsTrue result
        ↔ (slice_index (map T.value row.old) (at - 1) < slice_index (map T.value row.old) at) }
    ensures at { slice_index (map T.value row.new) at
        ≡ max (slice_index (map T.value row.old) at) (slice_index (map T.value row.old) (at - 1)) }
    ensures others { (p : ℕ) → p ≢ at
        → slice_index (map T.value row.new) p ≡ slice_index (map T.value row.old) p }
{
    let before = row[at - 1];
    if before.is_less(row[at]) {
        return true;
    }
    row[at] = before;
    false
}

/// Each place is raised to the best sum of two parts of its width. A part that is worth no more than the one before it
/// gives no more with any other.
pub(crate) fn join_row<T: Number>(row: &mut [T])
    requires small { IsBelow T.limit (map T.value row.old) }
    ensures { IsJoined (map T.value row.old) (map T.value row.new) }
{
    for part in 1..row.len() {
        if raise_place(row, part) {
            offer_from(row, part);
        }
    }
}

/// Whether two rows hold the same worths.
pub(crate) fn is_same<T: Number>(one: &[T], other: &[T]) -> bool
    requires { length one.now ≡ length other.now }
    ensures { IsTrue result ↔ (map T.value one.now ≡ map T.value other.now) }
{
    for p in 0..one.len() {
        if one[p].worth() != other[p].worth() {
            return false;
        }
    }
    true
}
