//! What it costs at least to make all that is left of an order, from units of several sizes.

ghost use Rattle.std.specs.Prelude.{◌≡◌, ◌≤◌, ◌<◌, ◌^◌, ◌⊎◌, All, IfErr, IfOk, IfSome, ℕ, List, [], map, None, Option, Some};
ghost use Rattle.cut_measure.specs.declared.sizes.Kind.{Kind};
ghost use Rattle.cut_measure.specs.declared.sizes.Kind.TheVariants.{Bar, Sheet};
ghost use Rattle.cut_wants.specs.declared.wants.Want.{Want};
ghost use Rattle.cut_plan.specs.declared.faults.PlanFault.TheVariants.{NoMemory};
ghost use Rattle.cut_bound.specs.UnitBounds.{CanBeBounded};
ghost use Rattle.cut_sheets.specs.Bound.{worth_left};
ghost use Rattle.cut_bound.specs.Orders as orders;
ghost use Rattle.cut_bound.specs.Orders.{IsPricedBound, IsBoundByUnits};

use crate::divisors::divisor_of;
use crate::faults::cost_fault;
use crate::limits::MAX_BOUND;
use crate::price::greatest_cost;
use crate::prices::priced;
use crate::stock::{BoundedSize, StockSize};
use crate::unit_bounds::{bounded_bars, bounded_classes, bounded_sheets, stock_grid};
use cut_classes::counted_wants;
use cut_measure::{Kind, MAX_KERF};
use cut_plan::{PlanFault, Want};
use cut_sheets::bound::total_left;
use std::alloc::{AllocError, Global};

// The least multiple of a divisor that is no less than a cost, or 10^18 where that is less.
fn reported_cost(divisor: u64, cost: u128) -> u64
    ensures { result ≡ orders.reported_cost divisor cost }
{
    let most = MAX_BOUND as u128;
    if divisor == 0 {
        0
    } else if most <= cost {
        MAX_BOUND
    } else {
        let by = divisor as u128;
        (cost.div_ceil(by) * by).min(most) as u64
    }
}

// The bound of bars, at the prices of some of the wants.
fn bars_bound(
    alloc: Global,
    kerf: u32,
    sizes: &[StockSize],
    priced: &[Want],
) -> Result<u64, AllocError>
    requires kerf { kerf ≤ MAX_KERF }
    requires ratable { (step : Option ℕ) × CanBeBounded Bar kerf step sizes.now priced.now }
    ensures { IfOk result (λ bound. (step : Option ℕ)
        → IsBoundByUnits Bar kerf step sizes.now priced.now bound) }
{
    let bounded = bounded_bars(alloc, kerf, sizes, priced)?;
    let cost = greatest_cost(&bounded, total_left(priced));
    Ok(reported_cost(divisor_of(sizes), cost))
}

// The bound of sheets in steps, at the prices of some of the wants.
fn steps_bound(
    alloc: Global,
    kerf: u32,
    step: u32,
    sizes: &[StockSize],
    priced: &[Want],
) -> Result<u64, AllocError>
    requires kerf { kerf ≤ MAX_KERF }
    requires ratable { CanBeBounded Sheet kerf (Some step) sizes.now priced.now }
    ensures { IfOk result (IsBoundByUnits Sheet kerf (Some step) sizes.now priced.now) }
{
    let bounded = bounded_sheets(alloc, kerf, step, sizes, priced)?;
    let cost = greatest_cost(&bounded, total_left(priced));
    Ok(reported_cost(divisor_of(sizes), cost))
}

// The bound of sheets without a step, at the prices of some of the wants.
fn classes_bound(
    alloc: Global,
    kerf: u32,
    points: usize,
    sizes: &[StockSize],
    priced: &[Want],
) -> Result<u64, AllocError>
    requires kerf { kerf ≤ MAX_KERF }
    requires total { worth_left priced.now < 2 ^ 64 }
    ensures { IfOk result (IsBoundByUnits Sheet kerf None sizes.now priced.now) }
{
    let grid = stock_grid(alloc, kerf, points, sizes, priced)?;
    let counted = counted_wants(alloc, kerf, &grid, priced)?;
    let bounded = bounded_classes(alloc, kerf, &grid, sizes, priced)?;
    let cost = greatest_cost(&bounded, total_left(&counted));
    Ok(reported_cost(divisor_of(sizes), cost))
}

// The bound at the prices of some of the wants.
fn bound_by_units(
    alloc: Global,
    kind: Kind,
    kerf: u32,
    step: Option<u32>,
    points: usize,
    sizes: &[StockSize],
    priced: &[Want],
) -> Result<u64, AllocError>
    requires kerf { kerf ≤ MAX_KERF }
    requires ratable { CanBeBounded kind kerf step sizes.now priced.now }
    ensures { IfOk result (IsBoundByUnits kind kerf step sizes.now priced.now) }
{
    match kind {
        Kind::Bar => bars_bound(alloc, kerf, sizes, priced),
        Kind::Sheet => match step {
            None => classes_bound(alloc, kerf, points, sizes, priced),
            Some(step) => steps_bound(alloc, kerf, step, sizes, priced),
        },
    }
}

/// What it costs at least to make all that is left of the wants, or more, from units of the sizes
/// at hand, whatever is cut of each: the greatest cost of its worth at the rate of one of the sizes
/// (weak duality of linear programming; Gilmore and Gomory 1961), as a multiple of what divides all
/// costs, and 10^18 at most. The numbers are the wants' prices, in their order, whatever their
/// worths are: a number outside 1..=1000000000 is none, and a sheet's want whose side and kerf are
/// shorter than the step has none. One table is made: with this step, or where sheets have none
/// over classes of their sides that begin at about so many points of each axis. A bar ignores both.
/// A bound that is more than all units at hand cost reports that they don't suffice
/// (`stock_falls_short`).
pub fn priced_cost(
    alloc: Global,
    kind: Kind,
    kerf: u32,
    step: Option<u32>,
    points: usize,
    sizes: &[StockSize],
    wants: &[Want],
    numbers: &[u32],
) -> Result<u64, AllocError>
    requires kerf { kerf ≤ MAX_KERF }
    requires flat { kind ≡ Bar → All (λ z. z.size.h ≡ 1) sizes.now }
    requires faultless { orders.order_fault kind kerf step sizes.now wants.now ≡ None }
    ensures { IfOk result (IsPricedBound kind kerf step sizes.now wants.now numbers.now) }
{
    let priced = priced(alloc, kind, kerf, step, wants, numbers)?;
    let bound = bound_by_units(alloc, kind, kerf, step, points, sizes, &priced)?;
    Ok(bound)
}

/// The bound at no prices: 0. It takes no table.
pub fn unpriced_cost(sizes: &[StockSize]) -> u64
    ensures { (kind : Kind) (kerf : ℕ) (step : Option ℕ) (wants : List Want)
        → IsPricedBound kind kerf step sizes.now wants [] result }
{
    reported_cost(divisor_of(sizes), 0)
}

// The worths of wants.
fn worths_of(alloc: Global, wants: &[Want]) -> Result<Vec<u32>, AllocError>
    ensures { IfOk result (λ worths. worths.items ≡ map (λ x. x.worth) wants.now) }
{
    wants.iter().map(|want| want.worth).collect(alloc)
}

// The bound at the wants' worths, where the order has no fault.
fn faultless_cost(
    alloc: Global,
    kind: Kind,
    kerf: u32,
    step: u32,
    sizes: &[StockSize],
    wants: &[Want],
) -> Result<u64, AllocError>
    requires kerf { kerf ≤ MAX_KERF }
    requires flat { kind ≡ Bar → All (λ z. z.size.h ≡ 1) sizes.now }
    requires faultless { orders.cost_fault kind kerf (Some step) sizes.now wants.now ≡ None }
    ensures { IfOk result
        (IsPricedBound kind kerf (Some step) sizes.now wants.now (map (λ x. x.worth) wants.now)) }
{
    let worths = worths_of(alloc, wants)?;
    let bound = priced_cost(alloc, kind, kerf, Some(step), 0, sizes, wants, &worths)?;
    Ok(bound)
}

/// What it costs at least to make all that is left of the wants (`priced_cost`), their worths as
/// prices. Where there is no fault, each of them is one. Faults in the order of `PlanFault`, with
/// 100 wants for its 40: a bad step is one for any of the wants, a size too large any of the sizes,
/// and nothing fits where no want fits any of them. Never one for a plan of many cuts.
pub fn least_cost(
    alloc: Global,
    kind: Kind,
    kerf: u32,
    step: u32,
    sizes: &[StockSize],
    wants: &[Want],
) -> Result<u64, PlanFault>
    requires kerf { kerf ≤ MAX_KERF }
    requires flat { kind ≡ Bar → All (λ z. z.size.h ≡ 1) sizes.now }
    ensures ok { IfOk result
        (IsPricedBound kind kerf (Some step) sizes.now wants.now (map (λ x. x.worth) wants.now)) }
    ensures faulty { IfSome (orders.cost_fault kind kerf (Some step) sizes.now wants.now)
        (λ fault. result ≡ Err fault) }
    ensures err { IfErr result (λ fault. (fault ≡ NoMemory)
        ⊎ (orders.cost_fault kind kerf (Some step) sizes.now wants.now ≡ Some fault)) }
{
    match cost_fault(kind, kerf, Some(step), sizes, wants) {
        Some(fault) => Err(fault),
        None => match faultless_cost(alloc, kind, kerf, step, sizes, wants) {
            Ok(bound) => Ok(bound),
            Err(_) => Err(PlanFault::NoMemory),
        },
    }
}
