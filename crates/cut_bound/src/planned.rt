//! Planned units: how many of them are of a size, what they make, what they cost, and whether each
//! has a plan for its size.

ghost use Rattle.std.specs.Prelude.{◌≡◌, ◌≤◌, ◌^◌, ◌↔◌, All, IfNone, IfOk, IfSome, IsTrue, slice_get};
ghost use Rattle.std.specs.Option.{option_map_or};
ghost use Rattle.cut_wants.specs.Legal.{IsWantedPiece};
ghost use Rattle.cut_bound.specs.Solutions as cuttings;
ghost use Rattle.cut_bound.specs.Planned.{ArePieces, IsPieceOf, IsPlanFor, IsPlannedUnit, solution_of};

use crate::stock::StockSize;
use cut_measure::Size;
use cut_plan::Want;
use cut_tree::{Leaf, Plan};
use std::alloc::{AllocError, Global};

/// Units of one size that are planned alike.
#[derive(Drop)]
pub struct PlannedUnit {
    /// The place of their size in the list of sizes.
    pub place: usize,
    /// How many they are: at least 1.
    pub times: u32,
    pub plan: Plan,
}

// Whether a leaf is a piece of the want.
fn is_piece_of(leaf: &Leaf, want: &Want) -> bool
    ensures { IsTrue result ↔ IsPieceOf leaf.now want.now }
{
    let (w, h) = (want.size.w(), want.size.h());
    let same = if leaf.turned {
        want.may_turn && h == leaf.w && w == leaf.h
    } else {
        w == leaf.w && h == leaf.h
    };
    want.demand == leaf.demand && same
}

// Whether a leaf is a piece of some want.
fn is_wanted(leaf: &Leaf, wants: &[Want]) -> bool
    ensures { IsTrue result
        ↔ IsWantedPiece wants.now leaf.now.demand leaf.now.turned leaf.now.w leaf.now.h }
{
    wants.iter().any(|want| is_piece_of(leaf, want))
}

// Whether each leaf is a piece of some want.
fn are_wanted(leaves: &[Leaf], wants: &[Want]) -> bool
    ensures { IsTrue result
        ↔ All (λ l. IsWantedPiece wants.now l.demand l.turned l.w l.h) leaves.now }
{
    for leaf in leaves {
        if !is_wanted(leaf, wants) {
            return false;
        }
    }
    true
}

// Whether there are leaves, each a piece of some want.
fn are_pieces(leaves: &[Leaf], wants: &[Want]) -> bool
    ensures { IsTrue result ↔ ArePieces wants.now leaves.now }
{
    !leaves.is_empty() && are_wanted(leaves, wants)
}

// Whether a plan is made for a size and a kerf.
fn is_made_for(plan: &Plan, size: Size, kerf: u32) -> bool
    ensures { IsTrue result
        ↔ ((plan.now.w ≡ size.w) × (plan.now.h ≡ size.h) × (plan.now.kerf ≡ kerf)) }
{
    let made = plan.size();
    made.w() == size.w() && made.h() == size.h() && plan.kerf() == kerf
}

// Whether a plan is one for a size.
fn is_plan_for(
    alloc: Global,
    kerf: u32,
    size: Size,
    wants: &[Want],
    plan: &Plan,
) -> Result<bool, AllocError>
    ensures { IfOk result (λ yes. IsTrue yes ↔ IsPlanFor wants.now kerf size plan.now) }
{
    plan.see();
    if !is_made_for(plan, size, kerf) {
        return Ok(false);
    }
    let leaves = plan.leaves(alloc)?;
    Ok(are_pieces(&leaves, wants))
}

// Whether a planned unit has a plan for its size.
fn is_planned(
    alloc: Global,
    kerf: u32,
    sizes: &[StockSize],
    wants: &[Want],
    unit: &PlannedUnit,
) -> Result<bool, AllocError>
    ensures { IfOk result (λ yes. IsTrue yes ↔ IsPlannedUnit wants.now kerf sizes.now unit.now) }
{
    match sizes.get(unit.place) {
        Some(stock) if 1 <= unit.times => is_plan_for(alloc, kerf, stock.size, wants, &unit.plan),
        _ => Ok(false),
    }
}

/// Whether each unit has a plan for its size.
pub fn are_planned(
    alloc: Global,
    kerf: u32,
    sizes: &[StockSize],
    wants: &[Want],
    units: &[PlannedUnit],
) -> Result<bool, AllocError>
    ensures { IfOk result
        (λ yes. IsTrue yes ↔ All (IsPlannedUnit wants.now kerf sizes.now) units.now) }
{
    for unit in units {
        let planned = is_planned(alloc, kerf, sizes, wants, unit)?;
        if !planned {
            return Ok(false);
        }
    }
    Ok(true)
}

/// How many units are of the size at a place.
pub fn units_at(units: &[PlannedUnit], place: usize) -> u128
    ensures { result ≡ cuttings.units_at (solution_of units.now) place }
{
    let mut count: u128 = 0;
    for unit in units {
        if unit.place == place {
            count += unit.times as u128;
        }
    }
    count
}

/// How many pieces of a demand the units have together.
pub fn pieces_of(units: &[PlannedUnit], demand: u32) -> u128
    ensures { result ≡ cuttings.pieces_of (solution_of units.now) demand }
{
    let mut count: u128 = 0;
    for unit in units {
        count += unit.times as u128 * unit.plan.count(demand) as u128;
    }
    count
}

// What a unit of the size at a place costs, 0 where there is no such size.
fn cost_at_place(sizes: &[StockSize], place: usize) -> u64
    ensures { result ≡ option_map_or (λ s. s.cost) (slice_get sizes.now place) 0 }
{
    match sizes.get(place) {
        None => 0,
        Some(stock) => stock.cost,
    }
}

/// What the units cost together, if that has a number of 128 bits.
pub fn cost_of(sizes: &[StockSize], units: &[PlannedUnit]) -> Option<u128>
    ensures some { IfSome result (λ cost. cost ≡ cuttings.cost_of sizes.now (solution_of units.now)) }
    ensures none { IfNone result (2 ^ 128 ≤ cuttings.cost_of sizes.now (solution_of units.now)) }
{
    let mut cost: u128 = 0;
    for unit in units {
        let paid = unit.times as u128 * cost_at_place(sizes, unit.place) as u128;
        cost = cost.checked_add(paid)?;
    }
    Some(cost)
}
