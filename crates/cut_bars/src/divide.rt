//! How the span of a bar is divided between the pieces of two parts of the wants.

ghost use Rattle.std.specs.Prelude.{◌≡◌, ℕ, ◌+◌, ◌-◌, ◌^◌, ◌≤◌, ◌⊎◌, IfOk, Contains, length, map};
ghost use Rattle.cut_bars.specs.declared.reach.Entry.{Entry};
ghost use Rattle.cut_bars.specs.Reached.{AreRising, HaveSmallWorths};
ghost use Rattle.cut_bars.specs.Levels.{Has, HasCell, IsLevel, IsBestDivision, IsWorthierOf};

use crate::level::Level;
use crate::reach::Entry;
use cut_wants::number::Number;
use std::alloc::{AllocError, Global};

/// The entry of two that is worth more.
fn worthier(a: Entry, b: Entry) -> Entry
    ensures { IsWorthierOf a b result }
{
    if a.worth < b.worth { b } else { a }
}

/// The span for the first of two lists: the first from its end and the second from its start, so that all of the second
/// that has room beside an entry lies before.
fn divide_lists(prefix: &[Entry], back: &[Entry], whole: u32) -> u32
    requires rising_prefix { AreRising prefix.now }
    requires rising_back { AreRising back.now }
    requires small_prefix { (limit : ℕ) × HaveSmallWorths limit whole (Contains prefix.now) }
    requires small_back { (limit : ℕ) × HaveSmallWorths limit whole (Contains back.now) }
    requires whole { whole ≤ 2 ^ 20 }
    ensures { IsBestDivision whole result (Contains prefix.now) (Contains back.now) }
{
    let mut left = prefix.len();
    let mut next = 0;
    let mut after = 0;
    let mut found = Entry { span: 0, worth: 0 };
    while left > 0 {
        let entry = prefix[left - 1];
        if next < back.len() && back[next].span + entry.span <= whole {
            after = back[next].worth.max(after);
            next += 1;
        } else {
            let both = Entry {
                span: entry.span,
                worth: entry.worth + after,
            };
            found = worthier(found, both);
            left -= 1;
        }
    }
    found.span
}

/// The span for the first of two tables of one length: the first from its end and the second from its start.
fn divide_tables<T: Number>(prefix: &[T], back: &[T], whole: u32) -> u32
    requires prefix { length prefix.now ≡ whole + 1 }
    requires back { length back.now ≡ whole + 1 }
    requires small_prefix { HaveSmallWorths T.limit whole (HasCell (map T.value prefix.now)) }
    requires small_back { HaveSmallWorths T.limit whole (HasCell (map T.value back.now)) }
    requires whole { whole ≤ 2 ^ 20 }
    ensures { IsBestDivision whole result (HasCell (map T.value prefix.now))
        (HasCell (map T.value back.now)) }
{
    let mut after = back[0].worth();
    let mut found = Entry {
        span: 0,
        worth: prefix[0].worth() + after,
    };
    for span in 0..back.len() {
        let at = whole as usize - span;
        let cell = prefix[at].worth();
        after = back[span].worth().max(after);
        if cell != 0 {
            let both = Entry {
                span: at as u32,
                worth: cell + after,
            };
            found = worthier(found, both);
        }
    }
    found.span
}

/// The span within the whole for the first of two levels, so that both together are worth most; the other has the rest.
pub fn divide<T: Number>(
    alloc: Global,
    prefix: Level<T>,
    back: Level<T>,
    whole: u32,
) -> Result<u32, AllocError>
    requires prefix { IsLevel whole prefix }
    requires back { IsLevel whole back }
    requires small_prefix { HaveSmallWorths T.limit whole (Has T.value prefix) }
    requires small_back { HaveSmallWorths T.limit whole (Has T.value back) }
    requires whole { whole ≤ 2 ^ 20 }
    ensures { IfOk result (λ at. IsBestDivision whole at (Has T.value prefix) (Has T.value back)) }
{
    if let (Level::Listed(prefix), Level::Listed(back)) = (&prefix, &back) {
        return Ok(divide_lists(prefix, back, whole));
    }
    let prefix = prefix.into_cells(alloc, whole)?;
    let back = back.into_cells(alloc, whole)?;
    Ok(divide_tables(&prefix, &back, whole))
}
