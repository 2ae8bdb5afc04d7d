//! Whether found units are a plan of an order, and which of two plans is better.

ghost use Rattle.std.proofs.Props.{props};
ghost use Rattle.std.specs.Prelude.{◌≡◌, ◌≤◌, ◌↔◌, IfOk, IfSome, IsTrue};
ghost use Rattle.cut_tree.specs.Nodes.{tree_of};
ghost use Rattle.cut_tree.specs.Patterns.{HasDemands};
ghost use Rattle.cut_tree.specs.Tree.{IsShaped, cut_count};
ghost use Rattle.cut_bound.specs.Stages.{IsStaged};
ghost use Rattle.cut_order.specs.Places.{AreStaged, IsFewOrderPlan};

use crate::instance::Instance;
use crate::places::unit_count;
use crate::rests::largest_rest;
use cut_bound::{CheckFault, CheckedOrder, MAX_ORDER_UNITS, PlannedUnit, check_order, is_staged};
use cut_measure::{Axis, MAX_KERF, MAX_NUMBERS, Size};
use cut_search_bars::found::FoundUnit;
use cut_tree::{MAX_CUTS, Node, Plan};
use std::alloc::{AllocError, Global};

/// Units that are a plan of an order, the pieces that they leave out, and their cost.
#[derive(Drop)]
pub struct Kept {
    pub units: Vec<PlannedUnit>,
    /// How many pieces: at most 100000000.
    pub missing: u128,
    /// The sum of the units' costs.
    pub cost: u128,
    /// The cells of the largest rest of a unit.
    pub rest: u64,
    /// Each plan has at most so many stages, if there is a limit.
    pub stages: Option<u32>,
    ghost staged: { AreStaged stages units.items } by { Prim.hlevel props },
}

// Whether the cuts follow the rule on a rectangle.
fn is_shaped(node: &Node, w: u32, h: u32, kerf: u32) -> bool
    ensures { IsTrue result ↔ IsShaped (tree_of node.now) w h kerf }
{
    match node {
        Node::Piece(..) | Node::Rest => true,
        Node::Trim(Axis::X, at, first) => {
            1 <= *at && *at < w && w - *at <= kerf && is_shaped(first, *at, h, kerf)
        }
        Node::Trim(Axis::Y, at, first) => {
            1 <= *at && *at < h && h - *at <= kerf && is_shaped(first, w, *at, kerf)
        }
        Node::Cut(Axis::X, at, first, second) => {
            1 <= *at
                && *at < w
                && kerf < w - *at
                && is_shaped(first, *at, h, kerf)
                && is_shaped(second, w - *at - kerf, h, kerf)
        }
        Node::Cut(Axis::Y, at, first, second) => {
            1 <= *at
                && *at < h
                && kerf < h - *at
                && is_shaped(first, w, *at, kerf)
                && is_shaped(second, w, h - *at - kerf, kerf)
        }
    }
}

// How many cuts there are, if they are no more than `most`.
fn cuts_within(node: &Node, most: u32) -> Option<u32>
    ensures { IfSome result (λ cuts. (cuts ≡ cut_count (tree_of node.now)) × (cuts ≤ most)) }
{
    match node {
        Node::Piece(..) | Node::Rest => Some(0),
        Node::Trim(_, _, first) => {
            let below = most.checked_sub(1)?;
            let cuts = cuts_within(first, below)?;
            Some(cuts + 1)
        }
        Node::Cut(_, _, first, second) => {
            let below = most.checked_sub(1)?;
            let cuts = cuts_within(first, below)?;
            let others = cuts_within(second, below - cuts)?;
            Some(cuts + others + 1)
        }
    }
}

// Whether each demand has a number that a demand may have.
fn has_demands(node: &Node) -> bool
    ensures { IsTrue result ↔ HasDemands (tree_of node.now) }
{
    match node {
        Node::Piece(demand, _) => 1 <= *demand && *demand <= MAX_NUMBERS,
        Node::Rest => true,
        Node::Trim(_, _, first) => has_demands(first),
        Node::Cut(_, _, first, second) => has_demands(first) && has_demands(second),
    }
}

// Whether nodes are a plan of a unit, of at most so many stages.
fn is_plan(node: &Node, size: Size, kerf: u32, stages: Option<u32>) -> bool
    ensures plan { IsTrue result → IsShaped (tree_of node.now) size.w size.h kerf
        × (cut_count (tree_of node.now) ≤ MAX_CUTS) × HasDemands (tree_of node.now) }
    ensures staged { IsTrue result → IsStaged stages (tree_of node.now) }
{
    is_shaped(node, size.w(), size.h(), kerf)
        && cuts_within(node, MAX_CUTS).is_some()
        && has_demands(node)
        && is_staged(node, stages)
}

// The plan of nodes on a unit, if it is one of at most so many stages.
fn plan_of(
    alloc: Global,
    node: Node,
    size: Size,
    kerf: u32,
    stages: Option<u32>,
) -> Result<Option<Plan>, AllocError>
    requires { kerf ≤ MAX_KERF }
    ensures { IfOk result (λ found. IfSome found (λ plan. IsStaged stages plan.tree)) }
{
    if !is_plan(&node, size, kerf, stages) {
        return Ok(None);
    }
    let (_width, _height) = (size.w(), size.h());
    let plan = Plan::of(alloc, node, size, kerf)?;
    Ok(Some(plan))
}

// The planned unit of one that was found, if it is a plan of one of the sizes.
fn planned_unit(
    alloc: Global,
    instance: &Instance,
    unit: FoundUnit,
) -> Result<Option<PlannedUnit>, AllocError>
    ensures { IfOk result
        (λ found. IfSome found (λ planned. IsStaged instance.now.stages planned.plan.tree)) }
{
    let Some(stock) = instance.sizes.get(unit.place) else {
        return Ok(None);
    };
    let (size, kerf, stages) = (stock.size, instance.kerf, instance.stages);
    let Some(plan) = plan_of(alloc, unit.node, size, kerf, stages)? else {
        return Ok(None);
    };
    Ok(Some(PlannedUnit {
        place: unit.place,
        times: unit.times,
        plan,
    }))
}

// Planned units of those that were found, if each is a plan of one of the sizes.
fn planned_units(
    alloc: Global,
    instance: &Instance,
    found: Vec<FoundUnit>,
) -> Result<Option<Vec<PlannedUnit>>, AllocError>
    ensures { IfOk result
        (λ found. IfSome found (λ units. AreStaged instance.now.stages units.items)) }
{
    let mut units = Vec::new(alloc);
    for unit in found {
        let Some(planned) = planned_unit(alloc, instance, unit)? else {
            return Ok(None);
        };
        units.push(planned)?;
    }
    Ok(Some(units))
}

// What the check reports of units, if they are a plan of the order.
fn checked(
    alloc: Global,
    instance: &Instance,
    units: &[PlannedUnit],
) -> Result<Option<CheckedOrder>, AllocError>
    requires { AreStaged instance.now.stages units.now }
    ensures { IfOk result (λ reported. IfSome reported (λ _. IsFewOrderPlan instance.now.wants.items
        instance.now.kerf instance.now.stages instance.now.sizes.items units.now)) }
{
    if unit_count(units) > MAX_ORDER_UNITS as u128 {
        return Ok(None);
    }
    match check_order(
        alloc,
        instance.kerf,
        &instance.sizes,
        &instance.wants,
        units,
        0,
    ) {
        Ok(checked) => Ok(Some(checked)),
        Err(CheckFault::NoMemory) => Err(AllocError),
        Err(_) => Ok(None),
    }
}

// Copies of planned units, which share their plans' nodes.
fn copies(alloc: Global, units: &[PlannedUnit]) -> Result<Vec<PlannedUnit>, AllocError>
    ensures { IfOk result (λ copies. copies.items ≡ units.now) }
{
    let mut copies = Vec::new(alloc);
    for unit in units {
        let plan = unit.plan.copy(alloc)?;
        copies.push(PlannedUnit {
            place: unit.place,
            times: unit.times,
            plan,
        })?;
    }
    Ok(copies)
}

/// The units that are kept. They are checked once more, so that nothing but their stages has to be
/// known of them; none would be taken if they failed.
pub fn kept_units(
    alloc: Global,
    instance: &Instance,
    kept: &Kept,
) -> Result<Vec<PlannedUnit>, AllocError>
    requires { kept.now.stages ≡ instance.now.stages }
    ensures { IfOk result (λ units. IsFewOrderPlan instance.now.wants.items instance.now.kerf
        instance.now.stages instance.now.sizes.items units.items) }
{
    let units = copies(alloc, &kept.units)?;
    match checked(alloc, instance, &units)? {
        Some(_) => Ok(units),
        None => Ok(Vec::new(alloc)),
    }
}

// How many pieces are missing together.
fn sum_of(missing: &[u32]) -> u128 {
    let mut sum: u128 = 0;
    for number in missing {
        sum = sum.saturating_add(*number as u128);
    }
    sum
}

// The cells of the largest rest of found units.
fn rest_of(instance: &Instance, found: &[FoundUnit]) -> u64 {
    let mut largest: u64 = 0;
    for unit in found {
        if let Some(stock) = instance.sizes.get(unit.place) {
            let (w, h) = (stock.size.w(), stock.size.h());
            largest = largest.max(largest_rest(&unit.node, w, h, instance.kerf));
        }
    }
    largest
}

// Whether a plan that leaves out so many pieces, costs so much and has a largest rest of so many
// cells is better than another.
fn is_better(missing: u128, cost: u128, rest: u64, than: &Kept) -> bool {
    missing < than.missing
        || missing == than.missing && (cost < than.cost || cost == than.cost && rest > than.rest)
}

/// The found units, if they are a plan of the order that is better than the one that is kept: it
/// leaves out fewer pieces, or as many at a lower cost, or it costs as much and has a larger rest.
pub fn better(
    alloc: Global,
    instance: &Instance,
    found: Vec<FoundUnit>,
    than: &Kept,
) -> Result<Option<Kept>, AllocError>
    ensures { IfOk result (λ better. IfSome better (λ kept. kept.stages ≡ instance.now.stages)) }
{
    let rest = rest_of(instance, &found);
    let Some(units) = planned_units(alloc, instance, found)? else {
        return Ok(None);
    };
    let Some(checked) = checked(alloc, instance, &units)? else {
        return Ok(None);
    };
    let missing = sum_of(&checked.missing);
    if !is_better(missing, checked.cost, rest, than) {
        return Ok(None);
    }
    Ok(Some(Kept {
        units,
        missing,
        cost: checked.cost,
        rest,
        stages: instance.stages,
    }))
}
