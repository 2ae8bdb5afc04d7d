//! Lists of the spans of a bar that counts of pieces take, each with the greatest worth of such counts.

ghost use Rattle.std.specs.Prelude.{◌≡◌, ◌+◌, ◌*◌, ◌^◌, ◌≤◌, ◌↔◌, IfOk, Contains, length};
ghost use Rattle.cut_bars.specs.Reached.{AreRising, AreOffered, HaveWorthsBoundedBySpan};
ghost use Rattle.cut_bars.specs.Levels.{AreJoined, AreUpTo, IsFirstOf};

use std::alloc::{AllocError, Global};

/// A span, which is the lengths of some pieces with a kerf for each, and the greatest worth of counts that take it.
#[derive(Clone, Copy, Debug, PartialEq, Eq)]
pub struct Entry {
    /// Tenths of a millimetre, a kerf after each piece: at most 150200.
    pub span: u32,
    /// The sum of the pieces' worths, below 2^48.
    pub worth: u64,
}

/// The entry that comes first, or at the same span the one worth more.
fn first_of(a: Entry, b: Entry) -> Entry
    ensures { IsFirstOf a b result }
{
    if a.span < b.span || a.span == b.span && b.worth <= a.worth {
        a
    } else {
        b
    }
}

/// The entries, joined with those that a batch of pieces leads to from the first of them; how many these are.
fn join(alloc: Global, entries: &[Entry], batch: Entry) -> Result<(Vec<Entry>, usize), AllocError>
    requires rising { AreRising entries.now }
    requires low { HaveWorthsBoundedBySpan (2 ^ 30) (2 ^ 20) (Contains entries.now) }
    requires some { 1 ≤ batch.span }
    requires short { batch.span ≤ 2 ^ 20 }
    requires gain { batch.worth ≤ batch.span * 2 ^ 30 }
    ensures joined { IfOk result
        (λ r. AreJoined batch.span batch.worth entries.now (length entries.now) r.1 r.0.items) }
    ensures inside { IfOk result (λ r. r.1 ≤ length entries.now) }
    ensures up_to { IfOk result (λ r. AreUpTo entries.now r.0.items) }
{
    let mut joined = Vec::with_capacity(alloc, entries.len().saturating_add(entries.len()))?;
    let (mut kept, mut moved) = (0, 0);
    while kept < entries.len() {
        let old = entries[kept];
        let from = entries[moved];
        let new = Entry {
            span: from.span + batch.span,
            worth: from.worth + batch.worth,
        };
        let first = first_of(old, new);
        joined.push(first)?;
        kept += (old.span <= new.span) as usize;
        moved += (new.span <= old.span) as usize;
    }
    Ok((joined, moved))
}

/// The entries, joined with all that a batch of pieces leads to within the whole.
pub fn offer_entries(
    alloc: Global,
    entries: &[Entry],
    batch: Entry,
    whole: u32,
) -> Result<Vec<Entry>, AllocError>
    requires rising { AreRising entries.now }
    requires low { HaveWorthsBoundedBySpan (2 ^ 30) whole (Contains entries.now) }
    requires whole { whole ≤ 2 ^ 20 }
    requires some { 1 ≤ batch.span }
    requires short { batch.span ≤ 2 ^ 20 }
    requires gain { batch.worth ≤ batch.span * 2 ^ 30 }
    ensures rising { IfOk result (λ offered. AreRising offered.items) }
    ensures offered { IfOk result
        (λ offered. AreOffered batch.span batch.worth 1 whole (Contains entries.now)
        (Contains offered.items)) }
{
    let (mut offered, mut moved) = join(alloc, entries, batch)?;
    while moved < entries.len() && entries[moved].span + batch.span <= whole {
        let from = entries[moved];
        offered.push(Entry {
            span: from.span + batch.span,
            worth: from.worth + batch.worth,
        })?;
        moved += 1;
    }
    Ok(offered)
}
