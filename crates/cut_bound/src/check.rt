//! The check of any list of planned units: it passes exactly those that are a plan of the order,
//! and reports what they leave and cost. So whoever made them need not be trusted.

ghost use Rattle.std.specs.Prelude.{◌≡◌, ◌-◌, ◌≤◌, ◌<◌, ◌^◌, ◌↔◌, ◌⊎◌, All, IfErr, IfNone, IfOk, IfSome, IsTrue, map};
ghost use Rattle.cut_bound.specs.Solutions.{AreAtHand, IsCostBound, cost_of, pieces_of, units_at};
ghost use Rattle.cut_bound.specs.Planned as planned;
ghost use Rattle.cut_bound.specs.Planned.{IsCheapest, IsCheckFault, IsChecked, IsOrderPlan, MakesNoMore, solution_of};
ghost use Rattle.cut_bound.specs.declared.check.CheckFault.TheVariants as fault;

use crate::planned::{PlannedUnit, are_planned, cost_of, pieces_of, units_at};
use crate::stock::StockSize;
use cut_plan::Want;
use std::alloc::{AllocError, Global};

/// What planned units leave and cost.
#[derive(Drop)]
pub struct CheckedOrder {
    /// How many pieces are missing of each want, in the order of the wants.
    pub missing: Vec<u32>,
    /// The sum of the units' costs.
    pub cost: u128,
    /// Nothing is missing, and the cost is the bound: no solution that makes all costs less.
    pub proved: bool,
}

/// Why planned units are no plan of an order.
#[derive(Clone, Copy, Debug, PartialEq, Eq)]
pub enum CheckFault {
    /// A unit is none at all or of none of the sizes, or its plan isn't one for its size: another
    /// size or kerf, a leaf that is no wanted piece, or no leaf.
    BadPlan,
    /// Of a limited size more units than are at hand.
    NotAtHand,
    /// Of a want more pieces than are left to make.
    TooMany,
    /// The cost has no number of 128 bits.
    TooCostly,
    /// Lack of memory.
    NoMemory,
}

// Whether so many units are at hand.
fn are_enough(limit: Option<u32>, used: u128) -> bool
    ensures { IsTrue result ↔ IfSome limit (λ n. used ≤ n) }
{
    match limit {
        None => true,
        Some(limit) => used <= limit as u128,
    }
}

// Whether of each limited size at most as many units are used as are at hand.
fn are_at_hand(sizes: &[StockSize], units: &[PlannedUnit]) -> bool
    ensures { IsTrue result ↔ AreAtHand sizes.now (solution_of units.now) }
{
    for place in 0..sizes.len() {
        let stock = &sizes[place];
        if !are_enough(stock.limit, units_at(units, place)) {
            return false;
        }
    }
    true
}

// How many pieces of a want are left to make, or None where there are too many.
fn missing_of(want: &Want, units: &[PlannedUnit]) -> Option<u32>
    ensures some { IfSome result (λ missing. (missing ≡ planned.missing_of (solution_of units.now) want.now)
        × (pieces_of (solution_of units.now) want.now.demand ≤ want.now.left)) }
    ensures none { IfNone result (want.now.left < pieces_of (solution_of units.now) want.now.demand) }
{
    let pieces = pieces_of(units, want.demand);
    let left = want.left as u128;
    if left < pieces {
        None
    } else {
        Some((left - pieces) as u32)
    }
}

// How many pieces are missing of each want.
fn missing_pieces(
    alloc: Global,
    wants: &[Want],
    units: &[PlannedUnit],
) -> Result<Vec<u32>, CheckFault>
    ensures no_more { IfOk result (λ _. MakesNoMore wants.now (solution_of units.now)) }
    ensures missing { IfOk result
        (λ missing. missing.items ≡ map (planned.missing_of (solution_of units.now)) wants.now) }
    ensures err { IfErr result (λ f. (f ≡ fault.NoMemory)
        ⊎ ((f ≡ fault.TooMany) × (MakesNoMore wants.now (solution_of units.now) → ⊥))) }
{
    let mut missing = Vec::new(alloc);
    for want in wants {
        let Some(number) = missing_of(want, units) else {
            return Err(CheckFault::TooMany);
        };
        match missing.push(number) {
            Ok(()) => {}
            Err(_) => return Err(CheckFault::NoMemory),
        }
    }
    Ok(missing)
}

// Whether nothing is missing, and the cost is the bound.
fn is_proved(missing: &[u32], cost: u128, bound: u128) -> bool
    ensures { IsTrue result ↔ ((cost ≡ bound) × All (λ number. number ≡ 0) missing.now) }
{
    cost == bound && missing.iter().all(|number| *number == 0)
}

// What planned units leave and cost, or why they are no plan of the order.
fn checked_units(
    alloc: Global,
    kerf: u32,
    sizes: &[StockSize],
    wants: &[Want],
    units: &[PlannedUnit],
    bound: u128,
) -> Result<CheckedOrder, CheckFault>
    ensures ok { IfOk result (IsChecked wants.now kerf sizes.now bound units.now) }
    ensures err { IfErr result (IsCheckFault wants.now kerf sizes.now units.now) }
{
    match are_planned(alloc, kerf, sizes, wants, units) {
        Err(_) => return Err(CheckFault::NoMemory),
        Ok(false) => return Err(CheckFault::BadPlan),
        Ok(true) => {}
    }
    if !are_at_hand(sizes, units) {
        return Err(CheckFault::NotAtHand);
    }
    let missing = missing_pieces(alloc, wants, units)?;
    let Some(cost) = cost_of(sizes, units) else {
        return Err(CheckFault::TooCostly);
    };
    let proved = is_proved(&missing, cost, bound);
    Ok(CheckedOrder {
        missing,
        cost,
        proved,
    })
}

/// Checks any list of planned units against a bound of the cost. It passes exactly those of which
/// each has a plan for its size, of which no more than are at hand, and which make no more than is
/// left; a cost of over 128 bits and lack of memory aside. Where the bound is one and `proved` is
/// reported, no solution that makes all costs less.
pub fn check_order(
    alloc: Global,
    kerf: u32,
    sizes: &[StockSize],
    wants: &[Want],
    units: &[PlannedUnit],
    bound: u128,
) -> Result<CheckedOrder, CheckFault>
    ensures ok { IfOk result (IsChecked wants.now kerf sizes.now bound units.now) }
    ensures proved { IfOk result (λ checked. IsCostBound wants.now kerf sizes.now bound
        → IsTrue checked.proved → IsCheapest wants.now kerf sizes.now (solution_of units.now)) }
    ensures err { IfErr result (IsCheckFault wants.now kerf sizes.now units.now) }
    ensures passes { IsOrderPlan wants.now kerf sizes.now units.now
        → cost_of sizes.now (solution_of units.now) < 2 ^ 128 → IfErr result (λ f. f ≡ fault.NoMemory) }
{
    checked_units(alloc, kerf, sizes, wants, units, bound)
}
