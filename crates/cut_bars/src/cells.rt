//! The spans of a bar as a table: 0 where no counts of pieces take a span, else one more than their best worth.

ghost use Rattle.std.specs.Prelude.{◌≡◌, ◌+◌, ◌-◌, ◌*◌, ◌^◌, ◌<◌, ◌≤◌, ◌↔◌, IfOk, Contains, length, map, max, vec_len};
ghost use Rattle.cut_bars.specs.declared.reach.Entry.{Entry};
ghost use Rattle.cut_bars.specs.Reached.{AreRising, HaveWorthsBoundedBySpan};
ghost use Rattle.cut_bars.specs.Levels.{AreCellsBelow, HasCell, IsRaised, gained};

use crate::reach::Entry;
use cut_wants::number::Number;
use std::alloc::{AllocError, Global};

/// A cell, or what a gain makes of another one, whichever is worth more: nothing from 0.
fn offered<T: Number>(cell: T, from: T, gain: u64) -> T
    requires { T.value from + gain < T.limit }
    ensures { T.value result ≡ max (T.value cell) (gained gain (T.value from)) }
{
    if from.worth() == 0 {
        cell
    } else {
        cell.raised(from, T::of(gain))
    }
}

/// Offers a batch of pieces to each span, the longest first.
pub fn raise<T: Number>(cells: &mut [T], step: usize, gain: u64)
    requires step { 1 ≤ step }
    requires fits { AreCellsBelow T.limit (map T.value cells.old) step gain }
    ensures { IsRaised step gain (map T.value cells.old) (map T.value cells.old)
        (map T.value cells.new) }
{
    for c in (step..cells.len()).rev() {
        cells[c] = offered(cells[c], cells[c - step], gain);
    }
}

/// Offers any number of pieces to each span, the shortest first.
pub fn raise_freely<T: Number>(cells: &mut [T], step: usize, gain: u64)
    requires step { 1 ≤ step }
    requires fits { AreCellsBelow T.limit (map T.value cells.old) step gain }
    ensures { IsRaised step gain (map T.value cells.new) (map T.value cells.old)
        (map T.value cells.new) }
{
    for c in step..cells.len() {
        cells[c] = offered(cells[c], cells[c - step], gain);
    }
}

/// The entries as cells.
pub fn table_of<T: Number>(
    alloc: Global,
    entries: &[Entry],
    whole: u32,
) -> Result<Vec<T>, AllocError>
    requires rising { AreRising entries.now }
    requires low { HaveWorthsBoundedBySpan (2 ^ 30) whole (Contains entries.now) }
    requires below { (e : Entry) → Contains entries.now e → e.worth + 1 < T.limit }
    requires whole { whole ≤ 2 ^ 20 }
    ensures len { IfOk result (λ cells. vec_len cells ≡ whole + 1) }
    ensures same { IfOk result
        (λ cells. (e : Entry) → HasCell (map T.value cells.items) e ↔ Contains entries.now e) }
{
    let mut cells = T::zeros(alloc, whole as usize + 1)?;
    for entry in entries {
        cells[entry.span as usize] = T::of(entry.worth + 1);
    }
    Ok(cells)
}

/// The cells as entries.
pub fn list_of<T: Number>(alloc: Global, cells: &[T]) -> Result<Vec<Entry>, AllocError>
    requires { length cells.now ≤ 2 ^ 21 }
    ensures rising { IfOk result (λ entries. AreRising entries.items) }
    ensures same { IfOk result
        (λ entries. (e : Entry) → HasCell (map T.value cells.now) e ↔ Contains entries.items e) }
{
    let mut entries = Vec::new(alloc);
    for i in 0..cells.len() {
        let cell = cells[i].worth();
        if cell != 0 {
            entries.push(Entry {
                span: i as u32,
                worth: cell - 1,
            })?;
        }
    }
    Ok(entries)
}
