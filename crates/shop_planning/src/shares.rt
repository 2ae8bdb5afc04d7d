//! Planned units, those that are planned alike together.

ghost use Rattle.std.specs.Prelude.{◌≡◌, ◌≤◌, IfOk};
ghost use Rattle.std.specs.List.{list_any};
ghost use Rattle.cut_bound.specs.declared.limits.TheConstants.{MAX_ORDER_UNITS};
ghost use Rattle.cut_order.specs.Places.{unit_count};
ghost use Rattle.shop_planning.specs.Shares as spec;

use cut_bound::PlannedUnit;
use std::alloc::{AllocError, Global};

// Whether two units are of one size, and planned by one plan.
fn are_alike(a: &PlannedUnit, b: &PlannedUnit) -> bool
    ensures { result ≡ spec.are_alike a.now b.now }
{
    a.place == b.place && a.plan == b.plan
}

// Whether one of the units is planned like this one.
fn is_among(unit: &PlannedUnit, units: &[PlannedUnit]) -> bool
    ensures { result ≡ list_any (spec.are_alike unit.now) units.now }
{
    units.iter().any(|other| are_alike(unit, other))
}

// How many of the units are planned like this one.
fn times_of(units: &[PlannedUnit], unit: &PlannedUnit) -> u128
    ensures { result ≡ spec.times_of units.now unit.now }
{
    let mut times = 0u128;
    for other in units {
        if are_alike(unit, other) {
            times += other.times as u128;
        }
    }
    times
}

// All that are planned like this one.
fn share_of(
    alloc: Global,
    units: &[PlannedUnit],
    unit: &PlannedUnit,
) -> Result<PlannedUnit, AllocError>
    requires { unit_count units.now ≤ MAX_ORDER_UNITS }
    ensures { IfOk result (λ share. share ≡ spec.share_of units.now unit.now) }
{
    let plan = unit.plan.copy(alloc)?;
    let times = times_of(units, unit) as u32;
    Ok(PlannedUnit {
        place: unit.place,
        times,
        plan,
    })
}

/// The units, those of one size and one plan together, in the order in which the first of each stands.
pub fn shares_of(alloc: Global, units: &[PlannedUnit]) -> Result<Vec<PlannedUnit>, AllocError>
    requires { unit_count units.now ≤ MAX_ORDER_UNITS }
    ensures { IfOk result (λ shares. shares.items ≡ spec.shares_of units.now) }
{
    let mut shares = Vec::new(alloc);
    for i in 0..units.len() {
        if !is_among(&units[i], &units[..i]) {
            let share = share_of(alloc, units, &units[i])?;
            shares.push(share)?;
        }
    }
    Ok(shares)
}
