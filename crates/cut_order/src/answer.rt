//! What is reported about an order: the units and their plans, what is missing, the cost, and the bound.

ghost use Rattle.std.specs.Prelude.{◌≡◌, ◌≤◌, ◌<◌, ◌^◌, ◌↔◌, All, IfOk, IsSome, IsTrue, length, map};
ghost use Rattle.cut_bound.specs.Prices as prices;
ghost use Rattle.cut_bound.specs.Prices.{price_of};
ghost use Rattle.cut_bound.specs.Solutions as cuttings;
ghost use Rattle.cut_bound.specs.Planned.{IsChecked};
ghost use Rattle.cut_bound.specs.declared.check.CheckFault.TheVariants as fault;
ghost use Rattle.cut_order.specs.Answers.{IsOrderAnswer};
ghost use Rattle.cut_order.specs.Places.{IsFewOrderPlan, IsFilledOrFull};

use crate::certified::Certified;
use crate::instance::Instance;
use cut_bound::{
    CheckFault, CheckedOrder, PlannedUnit, Price, StockSize, check_order, priced, prices_of,
};
use std::alloc::{AllocError, Global};

/// A plan of an order, and how good it is at least.
#[derive(Drop)]
pub struct OrderPlan {
    /// At most 100000 units in all.
    pub units: Vec<PlannedUnit>,
    /// How many pieces of each want are missing, in the order of the wants.
    pub missing: Vec<u32>,
    /// The sum of the units' costs, below 2^63.
    pub cost: u64,
    /// Whoever makes all that is left pays at least so much: at most 10^18.
    pub bound: u64,
    /// The prices of the bound, in the order of the wants; a want without a price isn't there.
    pub prices: Vec<Price>,
    /// Nothing is missing, and the cost is the bound: no plan that makes all costs less.
    pub proved: bool,
    /// All that is at hand costs less than the bound and nothing may be bought: there is no plan
    /// that makes all.
    pub short: bool,
}

// What all units at hand of the limited sizes cost together.
fn cost_at_hand(sizes: &[StockSize]) -> u128
    requires { length sizes.now ≤ 2 ^ 32 }
    ensures { result ≡ cuttings.cost_at_hand sizes.now }
{
    let mut cost: u128 = 0;
    for stock in sizes {
        cost += stock.limit.unwrap_or(0) as u128 * stock.cost as u128;
    }
    cost
}

// Whether each size is limited, and all at hand costs less than the bound.
fn is_short(sizes: &[StockSize], bound: u64) -> bool
    requires { length sizes.now ≤ 2 ^ 32 }
    ensures { IsTrue result
        ↔ (All (λ s. IsSome s.limit) sizes.now × (cuttings.cost_at_hand sizes.now < bound)) }
{
    sizes.iter().all(|stock| stock.limit.is_some()) && cost_at_hand(sizes) < bound as u128
}

// A check's lack of memory, handed on.
fn want_of_memory(_fault: CheckFault) -> AllocError
    requires { _fault ≡ fault.NoMemory }
{
    AllocError
}

// What the check reports of units that are a plan of the order.
fn checked(
    alloc: Global,
    instance: &Instance,
    units: &[PlannedUnit],
    bound: u64,
) -> Result<CheckedOrder, AllocError>
    requires { IsFewOrderPlan instance.now.wants.items instance.now.kerf instance.now.stages
        instance.now.sizes.items units.now }
    ensures checked { IfOk result (IsChecked instance.now.wants.items instance.now.kerf
        instance.now.sizes.items bound units.now) }
    ensures small { IfOk result (λ checked. checked.cost < 2 ^ 63) }
{
    let (sizes, wants) = (&instance.sizes, &instance.wants);
    match check_order(alloc, instance.kerf, sizes, wants, units, bound as u128) {
        Ok(checked) => Ok(checked),
        Err(fault) => Err(want_of_memory(fault)),
    }
}

// The prices of a bound.
fn reported_prices(
    alloc: Global,
    instance: &Instance,
    numbers: &[u32],
) -> Result<Vec<Price>, AllocError>
    ensures { IfOk result (λ reported. reported.items ≡ map price_of (prices.priced instance.now.kind
        instance.now.kerf (prices.step_of instance.now.step) instance.now.wants.items numbers.now)) }
{
    let (kind, kerf, step) = (instance.kind, instance.kerf, instance.step);
    let priced = priced(alloc, kind, kerf, step, &instance.wants, numbers)?;
    let reported = prices_of(alloc, &priced)?;
    Ok(reported)
}

/// The answer by units that are completed.
pub fn answer_of(
    alloc: Global,
    certified: &Certified,
    units: Vec<PlannedUnit>,
) -> Result<OrderPlan, AllocError>
    requires plan { IsFewOrderPlan certified.now.instance.wants.items certified.now.instance.kerf
        certified.now.instance.stages certified.now.instance.sizes.items units.items }
    requires filled { All (IsFilledOrFull certified.now.instance.sizes.items units.items)
        certified.now.instance.wants.items }
    ensures { IfOk result (IsOrderAnswer certified.now.instance) }
{
    let instance = &certified.instance;
    let bound = certified.certificate.bound;
    let checked = checked(alloc, instance, &units, bound)?;
    let prices = reported_prices(alloc, instance, &certified.certificate.numbers)?;
    let short = is_short(&instance.sizes, bound);
    Ok(OrderPlan {
        units,
        missing: checked.missing,
        cost: checked.cost as u64,
        bound,
        prices,
        proved: checked.proved,
        short,
    })
}
