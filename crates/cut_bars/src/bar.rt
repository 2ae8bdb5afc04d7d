//! The best counts of pieces for a bar, and all that counts of pieces reach.

ghost use Rattle.std.specs.Prelude.{◌≡◌, ℕ, ◌+◌, ◌-◌, ◌*◌, ◌^◌, ◌<◌, ◌≤◌, length, IfOk, IsTrue, Contains, [], ◌∷◌};
ghost use Rattle.cut_wants.specs.declared.wants.Want.{Want};
ghost use Rattle.cut_bars.specs.declared.reach.Entry.{Entry};
ghost use Rattle.cut_bars.specs.Counts.{AreBestCounts, HaveBoundedWorthsAndLefts, AreUprightOfHeightOne, HaveLength, worth_of_counts};
ghost use Rattle.cut_wants.specs.Best.{IsBestWithin};
ghost use Rattle.cut_wants.specs.Legal.{HaveOwnDemands};
ghost use Rattle.cut_bars.specs.Reached.{AreRising, AreReached, ArePricedBelow};
ghost use Rattle.cut_bars.specs.Levels.{Has, IsLevel, IsBestSpanForFirst};

use crate::divide::divide;
use crate::level::{Level, offer_want};
pub use crate::reach::Entry;
use cut_measure::MAX_KERF;
use cut_wants::number::Number;
use cut_wants::wants::Want;
use std::alloc::{AllocError, Global};

/// The longest bar that is planned, in tenths of a millimetre.
pub const MAX_BAR_LENGTH: u32 = 150_000;

/// What no counts at all reach.
fn none_reached<T: Number>(alloc: Global) -> Result<Level<T>, AllocError>
    ensures { IfOk result (λ level. (k whole : ℕ) → IsLevel whole level
        × AreReached k [] whole (Has T.value level)) }
{
    let none = Vec::from_slice(alloc, &[Entry { span: 0, worth: 0 }])?;
    Ok(Level::Listed(none))
}

/// What the wants reach within the whole.
fn reached_level<T: Number>(
    alloc: Global,
    wants: &[Want],
    kerf: u32,
    whole: u32,
) -> Result<Level<T>, AllocError>
    requires below { ArePricedBelow T.limit kerf whole wants.now }
    requires whole { whole ≤ 2 ^ 20 - 1 }
    requires kerf { kerf ≤ MAX_KERF }
    ensures level { IfOk result (IsLevel whole) }
    ensures reached { IfOk result (λ level. AreReached kerf wants.now whole (Has T.value level)) }
{
    let mut level: Level<T> = none_reached(alloc)?;
    for i in (0..wants.len()).rev() {
        level = offer_want(alloc, level, &wants[i], kerf, whole)?;
    }
    Ok(level)
}

/// All that counts reach.
fn entries_of<T: Number>(
    alloc: Global,
    wants: &[Want],
    size: u32,
    kerf: u32,
) -> Result<Vec<Entry>, AllocError>
    requires below { ArePricedBelow T.limit kerf (size + kerf) wants.now }
    requires size { size ≤ MAX_BAR_LENGTH }
    requires kerf { kerf ≤ MAX_KERF }
    ensures rising { IfOk result (λ entries. AreRising entries.items) }
    ensures reached { IfOk result
        (λ entries. AreReached kerf wants.now (size + kerf) (Contains entries.items)) }
{
    let level: Level<T> = reached_level(alloc, wants, kerf, size + kerf)?;
    level.into_entries(alloc)
}

/// The worth of a want for each unit of the span that a piece of it takes, rounded up.
fn price(want: &Want, kerf: u32) -> u64
    requires worth { want.now.worth ≤ 2 ^ 30 }
    requires kerf { kerf ≤ MAX_KERF }
    ensures enough { want.now.worth ≤ (want.now.size.w + kerf) * result }
    ensures small { result ≤ 2 ^ 30 }
{
    (want.worth as u64).div_ceil(want.size.w() as u64 + kerf as u64)
}

/// The highest price of a want.
fn highest_price(wants: &[Want], kerf: u32) -> u64
    requires modest { HaveBoundedWorthsAndLefts wants.now }
    requires kerf { kerf ≤ MAX_KERF }
    ensures enough { (x : Want) → Contains wants.now x → x.worth ≤ (x.size.w + kerf) * result }
    ensures small { result ≤ 2 ^ 30 }
{
    let mut highest = 0;
    for want in wants {
        highest = price(want, kerf).max(highest);
    }
    highest
}

/// Whether cells of 32 bits hold the worths within the whole; those of 64 bits do.
fn is_narrow(wants: &[Want], kerf: u32, whole: u32) -> bool
    requires modest { HaveBoundedWorthsAndLefts wants.now }
    requires kerf { kerf ≤ MAX_KERF }
    requires whole { whole ≤ 2 ^ 20 - 1 }
    ensures narrow { IsTrue result → ArePricedBelow (2 ^ 32) kerf whole wants.now }
    ensures wide { ArePricedBelow (2 ^ 64) kerf whole wants.now }
{
    highest_price(wants, kerf) * whole as u64 + 1 < 4294967296
}

/// The span for the first wants, by levels whose cells are of one width.
fn span_by<T: Number>(
    alloc: Global,
    first: &[Want],
    others: &[Want],
    kerf: u32,
    whole: u32,
) -> Result<u32, AllocError>
    requires below_first { ArePricedBelow T.limit kerf whole first.now }
    requires below_others { ArePricedBelow T.limit kerf whole others.now }
    requires whole { whole ≤ 2 ^ 20 - 1 }
    requires kerf { kerf ≤ MAX_KERF }
    ensures { IfOk result (IsBestSpanForFirst kerf first.now others.now whole) }
{
    let prefix: Level<T> = reached_level(alloc, first, kerf, whole)?;
    let back = reached_level(alloc, others, kerf, whole)?;
    let at = divide(alloc, prefix, back, whole)?;
    Ok(at)
}

/// The span for the first wants, so that they and the others are worth most within the whole.
fn span_for_first(
    alloc: Global,
    first: &[Want],
    others: &[Want],
    kerf: u32,
    whole: u32,
) -> Result<u32, AllocError>
    requires modest_first { HaveBoundedWorthsAndLefts first.now }
    requires modest_others { HaveBoundedWorthsAndLefts others.now }
    requires whole { whole ≤ 2 ^ 20 - 1 }
    requires kerf { kerf ≤ MAX_KERF }
    ensures { IfOk result (IsBestSpanForFirst kerf first.now others.now whole) }
{
    let first_narrow = is_narrow(first, kerf, whole);
    let others_narrow = is_narrow(others, kerf, whole);
    if first_narrow && others_narrow {
        span_by::<u32>(alloc, first, others, kerf, whole)
    } else {
        span_by::<u64>(alloc, first, others, kerf, whole)
    }
}

/// As many of one want as are left and fit.
fn count_one(want: &Want, kerf: u32, whole: u32) -> u32
    requires kerf { kerf ≤ MAX_KERF }
    ensures some { 1 ≤ want.now.size.w }
    ensures best { AreBestCounts kerf (want.now ∷ []) whole (result ∷ []) }
{
    (whole / (want.size.w() + kerf)).min(want.left)
}

/// The best counts within a span: of one want as many as fit, and of more those of either half within its part of the span.
fn fill_counts(
    alloc: Global,
    wants: &[Want],
    kerf: u32,
    whole: u32,
    counts: &mut [u32],
) -> Result<(), AllocError>
    requires len { length counts.old ≡ length wants.now }
    requires modest { HaveBoundedWorthsAndLefts wants.now }
    requires whole { whole ≤ 2 ^ 20 - 1 }
    requires kerf { kerf ≤ MAX_KERF }
    ensures some { IfOk result (λ _. HaveLength wants.now) }
    ensures best { IfOk result (λ _. AreBestCounts kerf wants.now whole counts.new) }
{
    if wants.len() == 0 {
        return Ok(());
    }
    if wants.len() == 1 {
        counts[0] = count_one(&wants[0], kerf, whole);
        return Ok(());
    }
    let half = wants.len() / 2;
    let (first, others) = wants.split_at(half);
    let at = span_for_first(alloc, first, others, kerf, whole)?;
    let (first_counts, other_counts) = counts.split_at_mut(half);
    fill_counts(alloc, first, kerf, at, first_counts)?;
    fill_counts(alloc, others, kerf, whole - at, other_counts)?;
    Ok(())
}

/// How many pieces of each want a bar gives, so that no legal plan within the counts is worth more.
pub fn best_counts(
    alloc: Global,
    wants: &[Want],
    size: u32,
    kerf: u32,
) -> Result<Vec<u32>, AllocError>
    requires own { HaveOwnDemands wants.now }
    requires bar { AreUprightOfHeightOne wants.now }
    requires modest { HaveBoundedWorthsAndLefts wants.now }
    requires size { size ≤ MAX_BAR_LENGTH }
    requires kerf { kerf ≤ MAX_KERF }
    ensures some { IfOk result (λ _. HaveLength wants.now) }
    ensures counts { IfOk result
        (λ counts. AreBestCounts kerf wants.now (size + kerf) counts.items) }
    ensures best { IfOk result
        (λ counts. IsBestWithin wants.now kerf size 1 (worth_of_counts wants.now counts.items)) }
{
    let mut counts = vec![in alloc; 0u32; wants.len()]?;
    fill_counts(alloc, wants, kerf, size + kerf, &mut counts)?;
    Ok(counts)
}

/// An entry for each span within a bar and a kerf that counts take, with the greatest worth of such counts.
pub fn reach(alloc: Global, wants: &[Want], size: u32, kerf: u32) -> Result<Vec<Entry>, AllocError>
    requires modest { HaveBoundedWorthsAndLefts wants.now }
    requires size { size ≤ MAX_BAR_LENGTH }
    requires kerf { kerf ≤ MAX_KERF }
    ensures rising { IfOk result (λ entries. AreRising entries.items) }
    ensures reached { IfOk result
        (λ entries. AreReached kerf wants.now (size + kerf) (Contains entries.items)) }
{
    if is_narrow(wants, kerf, size + kerf) {
        entries_of::<u32>(alloc, wants, size, kerf)
    } else {
        entries_of::<u64>(alloc, wants, size, kerf)
    }
}

/// What the pieces of these counts are worth.
pub fn counted_worth(wants: &[Want], counts: &[u32]) -> u64
    requires len { length counts.now ≡ length wants.now }
    requires small { worth_of_counts wants.now counts.now < 2 ^ 64 }
    ensures { result ≡ worth_of_counts wants.now counts.now }
{
    let mut worth = 0u64;
    for i in 0..wants.len() {
        worth += wants[i].worth as u64 * counts[i] as u64;
    }
    worth
}
