//! Completes a plan of an order: as long as an unused unit holds a missing piece, it is cut of one.

ghost use Rattle.std.specs.Prelude.{◌≡◌, ◌≤◌, ◌<◌, ◌-◌, All, Contains, OnOk, Some, length, slice_get};
ghost use Rattle.cut_bound.specs.declared.stock.StockSize.{StockSize};
ghost use Rattle.cut_bound.specs.Solutions as cuttings;
ghost use Rattle.cut_bound.specs.Planned.{solution_of};
ghost use Rattle.cut_order.specs.Places.{IsAddition, IsDoneAt, IsFewOrderPlan, IsFilledOrFull, IsGrown};

use crate::instance::Instance;
use crate::places::{unit_count, units_allowed};
use crate::single::single_plan;
use cut_bound::{PlannedUnit, StockSize, pieces_of, units_at};
use cut_measure::Size;
use cut_plan::{Want, is_fitting};
use std::alloc::{AllocError, Global};

// How many pieces of a want are missing.
fn missing_of(want: &Want, units: &[PlannedUnit]) -> u32
    ensures { result ≡ want.now.left - cuttings.pieces_of (solution_of units.now) want.now.demand }
{
    (want.left as u128).saturating_sub(pieces_of(units, want.demand)) as u32
}

// How many units of the size at a place are added for a want, one piece each.
fn added_at(instance: &Instance, place: usize, want: &Want, units: &[PlannedUnit]) -> u32
    requires place { place < length instance.now.sizes.items }
    requires plan { IsFewOrderPlan instance.now.wants.items instance.now.kerf instance.now.stages
        instance.now.sizes.items units.now }
    ensures { IsAddition instance.now.sizes.items units.now want.now place result }
{
    let stock = &instance.sizes[place];
    if !is_fitting(stock.size, want) {
        return 0;
    }
    let allowed = units_allowed(stock.limit, units_at(units, place), unit_count(units));
    missing_of(want, units).min(allowed)
}

// The sides of the size at a place.
fn size_at(sizes: &[StockSize], place: usize) -> Size
    requires { place < length sizes.now }
    ensures { (s : StockSize) → slice_get sizes.now place ≡ Some s → result ≡ s.size }
{
    sizes[place].size
}

// Adds units of the size at a place from which a missing piece of a want is cut, as many as it
// takes and as there are.
fn fill_at(
    alloc: Global,
    instance: &Instance,
    place: usize,
    want: &Want,
    units: &mut Vec<PlannedUnit>,
) -> Result<(), AllocError>
    requires place { place < length instance.now.sizes.items }
    requires wanted { Contains instance.now.wants.items want.now }
    requires plan { IsFewOrderPlan instance.now.wants.items instance.now.kerf instance.now.stages
        instance.now.sizes.items units.old.items }
    ensures plan { OnOk result (IsFewOrderPlan instance.now.wants.items instance.now.kerf
        instance.now.stages instance.now.sizes.items units.new.items) }
    ensures grown { OnOk result (IsGrown units.old.items units.new.items) }
    ensures done { OnOk result (IsDoneAt instance.now.sizes.items units.new.items want.now place) }
{
    let times = added_at(instance, place, want, units);
    if times == 0 {
        return Ok(());
    }
    let size = size_at(&instance.sizes, place);
    let plan = single_plan(alloc, instance.kerf, size, want)?;
    units.push(PlannedUnit { place, times, plan })?;
    Ok(())
}

// Adds units until no unused one holds a missing piece of a want.
fn fill_want(
    alloc: Global,
    instance: &Instance,
    want: &Want,
    units: &mut Vec<PlannedUnit>,
) -> Result<(), AllocError>
    requires wanted { Contains instance.now.wants.items want.now }
    requires plan { IsFewOrderPlan instance.now.wants.items instance.now.kerf instance.now.stages
        instance.now.sizes.items units.old.items }
    ensures plan { OnOk result (IsFewOrderPlan instance.now.wants.items instance.now.kerf
        instance.now.stages instance.now.sizes.items units.new.items) }
    ensures grown { OnOk result (IsGrown units.old.items units.new.items) }
    ensures filled { OnOk result (IsFilledOrFull instance.now.sizes.items units.new.items want.now) }
{
    for place in 0..instance.sizes.len() {
        fill_at(alloc, instance, place, want, units)?;
    }
    Ok(())
}

/// Adds units until no unused one holds a missing piece, or there are 100000.
pub fn complete(
    alloc: Global,
    instance: &Instance,
    units: &mut Vec<PlannedUnit>,
) -> Result<(), AllocError>
    requires { IsFewOrderPlan instance.now.wants.items instance.now.kerf instance.now.stages
        instance.now.sizes.items units.old.items }
    ensures plan { OnOk result (IsFewOrderPlan instance.now.wants.items instance.now.kerf
        instance.now.stages instance.now.sizes.items units.new.items) }
    ensures filled { OnOk result (All (IsFilledOrFull instance.now.sizes.items units.new.items)
        instance.now.wants.items) }
{
    let wants = instance.wants.as_slice();
    for want in wants {
        fill_want(alloc, instance, want, units)?;
    }
    Ok(())
}
