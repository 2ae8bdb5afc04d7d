//! Classes of lengths, and which of them have parts of a class.

ghost use Rattle.std.specs.Prelude.{◌≡◌, ℕ, ◌+◌, ◌-◌, ◌≤◌, ◌<◌, ◌++◌, ◌∷◌, [], nat_lt, if◌then◌else◌, length, slice_index, IfOk, OnOk};
ghost use Rattle.cut_classes.specs.declared.pairs.Pair.{Pair};
ghost use Rattle.cut_classes.specs.Classes as specs;
ghost use Rattle.cut_classes.specs.Classes.{IsInClass};
ghost use Rattle.cut_classes.specs.Grids.{AreUsable, classes};
ghost use Rattle.cut_classes.specs.Filling.{CoverParts, CoversParts};

use crate::usable::is_usable;
use std::alloc::{AllocError, Global};

/// The most points of an axis, so that a class has 16 bits.
pub(crate) const MAX_POINTS: usize = 65_536;

/// Two classes whose lengths are parts of one of a third class; the first is the longer.
#[derive(Clone, Copy, Debug, PartialEq, Eq)]
pub struct Pair {
    pub first: u16,
    /// No more than the first.
    pub second: u16,
}

/// The greatest length of a class, where the greatest length of the last one is the most.
pub fn high_of(points: &[u32], most: u32, class: usize) -> u32
    ensures { result ≡ specs.high_of (classes points.now most) class }
{
    if class < points.len() && class + 1 < points.len() {
        points[class + 1].saturating_sub(1)
    } else {
        most
    }
}

// One more than the last place, from a place on, up to which no point is above a length.
fn reach(points: &[u32], from: usize, count: usize, span: u32) -> usize
    requires from { from ≤ count }
    requires count { count ≤ length points.now }
    ensures from { from ≤ result }
    ensures within { result ≤ count }
    ensures reached { from < result → slice_index points.now (result - 1) ≤ span }
    ensures next { result < count → span < slice_index points.now result }
{
    let mut reach = from;
    while reach < count && points[reach] <= span {
        reach += 1;
    }
    reach
}

/// The class of a length: the place of the last point that is no greater, where the points rise
/// from 0.
pub fn class_of(points: &[u32], length: u32) -> usize
    ensures { (most : ℕ) → AreUsable (classes points.now most) → length ≤ most
        → IsInClass (classes points.now most) length result }
{
    reach(points, 0, points.len(), length).saturating_sub(1)
}

// Adds the pair of a class and the one before a place, where that is past another place.
fn add_pair(
    pairs: &mut Vec<Pair>,
    first: usize,
    beaten: usize,
    beside: usize,
) -> Result<(), AllocError>
    requires first { first < MAX_POINTS }
    requires beside { beside ≤ MAX_POINTS }
    ensures { OnOk result (pairs.new.items ≡ (if nat_lt beaten beside
        then pairs.old.items ++ record { first = first; second = beside - 1 } ∷ []
        else pairs.old.items)) }
{
    if beaten < beside {
        pairs.push(Pair {
            first: first as u16,
            second: (beside - 1) as u16,
        })?;
    }
    Ok(())
}

// For each lower class, the longest first, the last that has a part beside one of it, unless it is
// no longer than the one of a longer class.
pub(crate) fn covering_pairs(
    alloc: Global,
    points: &[u32],
    most: u32,
    class: usize,
) -> Result<Vec<Pair>, AllocError>
    requires usable { AreUsable (classes points.now most) }
    requires few { length points.now ≤ MAX_POINTS }
    requires class { class < length points.now }
    ensures { IfOk result (λ pairs. CoversParts (classes points.now most) class pairs.items) }
{
    let high = high_of(points, most, class);
    let mut pairs = Vec::new(alloc);
    let mut beaten: usize = 0;
    for handled in 0..class {
        let first = class - 1 - handled;
        let span = high.saturating_sub(points[first]);
        let beside = reach(points, beaten, (first + 1).max(beaten), span);
        add_pair(&mut pairs, first, beaten, beside)?;
        beaten = beside;
    }
    Ok(pairs)
}

// The pairs of each class.
pub(crate) fn all_pairs(
    alloc: Global,
    points: &[u32],
    most: u32,
) -> Result<Vec<Vec<Pair>>, AllocError>
    requires usable { AreUsable (classes points.now most) }
    requires few { length points.now ≤ MAX_POINTS }
    ensures len { IfOk result (λ lists. length lists.items ≡ length points.now) }
    ensures each { IfOk result (λ lists. CoverParts (classes points.now most) lists.items) }
{
    let mut lists = Vec::new(alloc);
    for class in 0..points.len() {
        let pairs = covering_pairs(alloc, points, most, class)?;
        lists.push(pairs)?;
    }
    Ok(lists)
}

/// Pairs of lower classes that a cut may part a class into, without those that others include: of
/// any two lower classes with lengths that are parts of one of the class, neither is longer than
/// its class of one of the pairs. None where the points are no classes.
pub fn pairs_of(
    alloc: Global,
    points: &[u32],
    most: u32,
    class: usize,
) -> Result<Vec<Pair>, AllocError>
    ensures { AreUsable (classes points.now most) → length points.now ≤ MAX_POINTS
        → class < length points.now
        → IfOk result (λ pairs. CoversParts (classes points.now most) class pairs.items) }
{
    if points.len() <= MAX_POINTS && class < points.len() && is_usable(points, most) {
        covering_pairs(alloc, points, most, class)
    } else {
        Ok(Vec::new(alloc))
    }
}
