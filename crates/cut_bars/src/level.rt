//! What counts of pieces reach on a bar, want by want: a list of entries while they are few, and then a table.

ghost use Rattle.std.specs.Prelude.{◌≡◌, ℕ, ◌+◌, ◌-◌, ◌*◌, ◌/◌, ◌^◌, ◌<◌, ◌≤◌, ◌↔◌, IfOk, Contains, length, map};
ghost use Rattle.cut_bars.specs.declared.reach.Entry.{Entry};
ghost use Rattle.cut_bars.specs.Reached.{AreRising, AreOffered, HaveSmallWorths, HaveWorthsBoundedBySpan, StayBelow};
ghost use Rattle.cut_bars.specs.Levels.{Has, HasCell, IsLevel};

use crate::cells::{list_of, raise, raise_freely, table_of};
use crate::reach::{Entry, offer_entries};
use cut_measure::MAX_KERF;
use cut_wants::number::Number;
use cut_wants::wants::Want;
use std::alloc::{AllocError, Global};

/// What counts reach: an entry for each span that they take, or a cell for each span.
#[derive(Drop)]
pub enum Level<T> {
    /// Rising by the span.
    Listed(Vec<Entry>),
    /// 0 where no counts take the span, else one more than their best worth.
    Tabled(Vec<T>),
}

impl<T: Number> Level<T> {
    /// The entries in order.
    pub fn into_entries(self, alloc: Global) -> Result<Vec<Entry>, AllocError>
        requires { (whole : ℕ) × (whole ≤ 2 ^ 20) × IsLevel whole self }
        ensures rising { IfOk result (λ entries. AreRising entries.items) }
        ensures same { IfOk result
            (λ entries. (e : Entry) → Has T.value self e ↔ Contains entries.items e) }
    {
        match self {
            Level::Listed(entries) => Ok(entries),
            Level::Tabled(cells) => list_of(alloc, &cells),
        }
    }

    /// The level as cells.
    pub fn into_cells(self, alloc: Global, whole: u32) -> Result<Vec<T>, AllocError>
        requires level { IsLevel whole self }
        requires small { HaveSmallWorths T.limit whole (Has T.value self) }
        requires whole { whole ≤ 2 ^ 20 }
        ensures len { IfOk result (λ cells. length cells.items ≡ whole + 1) }
        ensures same { IfOk result
            (λ cells. (e : Entry) → HasCell (map T.value cells.items) e ↔ Has T.value self e) }
    {
        match self {
            Level::Listed(entries) => table_of(alloc, &entries, whole),
            Level::Tabled(cells) => Ok(cells),
        }
    }

    /// The level with all that a batch of pieces leads to within the whole.
    fn offer(self, alloc: Global, batch: Entry, whole: u32) -> Result<Level<T>, AllocError>
        requires level { IsLevel whole self }
        requires below { StayBelow T.limit whole (Has T.value self) batch.span batch.worth }
        requires whole { whole ≤ 2 ^ 20 - 1 }
        requires some { 1 ≤ batch.span }
        requires short { batch.span ≤ 2 ^ 20 }
        ensures level { IfOk result (IsLevel whole) }
        ensures offered { IfOk result
            (λ offered. AreOffered batch.span batch.worth 1 whole (Has T.value self)
            (Has T.value offered)) }
    {
        match self {
            Level::Listed(entries) => {
                let offered = offer_entries(alloc, &entries, batch, whole)?;
                level_of(alloc, offered, whole)
            }
            Level::Tabled(mut cells) => {
                raise(&mut cells, batch.span as usize, batch.worth);
                Ok(Level::Tabled(cells))
            }
        }
    }
}

/// A list while it has an entry for at most one in 32 spans, and else a table.
pub fn level_of<T: Number>(
    alloc: Global,
    entries: Vec<Entry>,
    whole: u32,
) -> Result<Level<T>, AllocError>
    requires rising { AreRising entries.items }
    requires low { HaveWorthsBoundedBySpan (2 ^ 30) whole (Contains entries.items) }
    requires below { (e : Entry) → Contains entries.items e → e.worth + 1 < T.limit }
    requires whole { whole ≤ 2 ^ 20 }
    ensures level { IfOk result (IsLevel whole) }
    ensures same { IfOk result
        (λ level. (e : Entry) → Has T.value level e ↔ Contains entries.items e) }
{
    if entries.len() <= whole as usize / 32 {
        return Ok(Level::Listed(entries));
    }
    let cells = table_of(alloc, &entries, whole)?;
    Ok(Level::Tabled(cells))
}

/// What up to `most` pieces lead to: 1 is offered, then 2, 4 and so on at once, then the others.
fn offer_batches<T: Number>(
    alloc: Global,
    base: Level<T>,
    piece: Entry,
    most: u32,
    whole: u32,
) -> Result<Level<T>, AllocError>
    requires level { IsLevel whole base }
    requires below { StayBelow T.limit whole (Has T.value base) piece.span piece.worth }
    requires whole { whole ≤ 2 ^ 20 - 1 }
    requires some { 1 ≤ piece.span }
    requires fit { most * piece.span ≤ whole }
    ensures level { IfOk result (IsLevel whole) }
    ensures offered { IfOk result
        (λ offered. AreOffered piece.span piece.worth most whole (Has T.value base)
        (Has T.value offered)) }
{
    let mut offered = base;
    let mut taken = 0;
    while taken < most {
        let more = (taken + 1).min(most - taken);
        let batch = Entry {
            span: more * piece.span,
            worth: more as u64 * piece.worth,
        };
        offered = offered.offer(alloc, batch, whole)?;
        taken += more;
    }
    Ok(offered)
}

/// What any number of pieces lead to in a table.
fn offer_freely<T: Number>(mut cells: Vec<T>, piece: Entry, whole: u32) -> Vec<T>
    requires len { length cells.items ≡ whole + 1 }
    requires below { StayBelow T.limit whole
        (HasCell (map T.value cells.items)) piece.span piece.worth }
    requires whole { whole ≤ 2 ^ 20 - 1 }
    requires some { 1 ≤ piece.span }
    ensures len { length result.items ≡ whole + 1 }
    ensures offered { AreOffered piece.span piece.worth (whole / piece.span) whole
        (HasCell (map T.value cells.items)) (HasCell (map T.value result.items)) }
{
    raise_freely(&mut cells, piece.span as usize, piece.worth);
    cells
}

/// What any number of pieces lead to.
fn offer_any<T: Number>(
    alloc: Global,
    base: Level<T>,
    piece: Entry,
    whole: u32,
) -> Result<Level<T>, AllocError>
    requires level { IsLevel whole base }
    requires below { StayBelow T.limit whole (Has T.value base) piece.span piece.worth }
    requires whole { whole ≤ 2 ^ 20 - 1 }
    requires some { 1 ≤ piece.span }
    ensures level { IfOk result (IsLevel whole) }
    ensures offered { IfOk result
        (λ offered. AreOffered piece.span piece.worth (whole / piece.span) whole (Has T.value base)
        (Has T.value offered)) }
{
    match base {
        Level::Tabled(cells) => Ok(Level::Tabled(offer_freely(cells, piece, whole))),
        Level::Listed(entries) => {
            let base = Level::Listed(entries);
            let offered = offer_batches(alloc, base, piece, whole / piece.span, whole)?;
            Ok(offered)
        }
    }
}

/// What up to `left` pieces of a want lead to.
pub fn offer_want<T: Number>(
    alloc: Global,
    base: Level<T>,
    want: &Want,
    kerf: u32,
    whole: u32,
) -> Result<Level<T>, AllocError>
    requires level { IsLevel whole base }
    requires below { StayBelow T.limit whole (Has T.value base)
        (want.now.size.w + kerf) want.now.worth }
    requires whole { whole ≤ 2 ^ 20 - 1 }
    requires kerf { kerf ≤ MAX_KERF }
    ensures level { IfOk result (IsLevel whole) }
    ensures offered { IfOk result
        (λ offered. AreOffered (want.now.size.w + kerf) want.now.worth want.now.left whole
        (Has T.value base) (Has T.value offered)) }
{
    let piece = Entry {
        span: want.size.w() + kerf,
        worth: want.worth as u64,
    };
    if whole / piece.span <= want.left {
        let offered = offer_any(alloc, base, piece, whole)?;
        return Ok(offered);
    }
    offer_batches(alloc, base, piece, want.left, whole)
}
