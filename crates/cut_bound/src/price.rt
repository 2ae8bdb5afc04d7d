//! What a worth costs at the rate of each size, and the greatest of those costs.

ghost use Rattle.std.specs.Prelude.{◌≡◌, ◌-◌, ◌≤◌, ◌^◌, ◌↔◌, min, IsTrue};
ghost use Rattle.cut_bound.specs.Bounds as bounds;

use crate::stock::BoundedSize;

// What the best worth of a unit of the size `other` costs at the rate of the size `by`, beyond its
// own cost, times the best of `by`; 0 where its own cost is more.
fn excess(by: &BoundedSize, other: &BoundedSize) -> u128
    ensures { result ≡ bounds.excess by.now other.now }
{
    let paid = by.stock.cost as u128 * other.best as u128;
    let cost = other.stock.cost as u128 * by.best as u128;
    paid.saturating_sub(cost)
}

// The same of all units at hand of the limited sizes, or the greatest number where that is more.
fn excess_at_hand(by: &BoundedSize, bounded: &[BoundedSize]) -> u128
    ensures { result ≡ min (bounds.excess_at_hand by.now bounded.now) (2 ^ 128 - 1) }
{
    let mut sum: u128 = 0;
    for other in bounded {
        let number = other.stock.limit.unwrap_or(0) as u128;
        sum = sum.saturating_add(number.saturating_mul(excess(by, other)));
    }
    sum
}

// Whether a unit of the size is worth something, and no size without a limit has an excess at its
// rate.
fn sets_price(by: &BoundedSize, bounded: &[BoundedSize]) -> bool
    ensures { IsTrue result ↔ bounds.SetsPrice by.now bounded.now }
{
    1 <= by.best
        && bounded.iter().all(|other| other.stock.limit.is_some() || excess(by, other) == 0)
}

// What a worth costs at the rate of a size, the excess of the units at hand taken off, rounded up.
fn cost_at(by: &BoundedSize, bounded: &[BoundedSize], worth: u64) -> u128
    requires { 1 ≤ by.now.best }
    ensures { result ≡ bounds.cost_at by.now bounded.now worth }
{
    let paid = by.stock.cost as u128 * worth as u128;
    let rest = paid.saturating_sub(excess_at_hand(by, bounded));
    rest.div_ceil(by.best as u128)
}

/// The greatest cost of a worth at the rate of a size that sets the price, or 0 where none does: a
/// bound of what it costs to make all that is left where no legal plan of a unit of each size is
/// worth more than its best (`priced_bound`). Nothing wraps or is cut off, whatever the costs,
/// limits and worths are.
pub fn greatest_cost(bounded: &[BoundedSize], worth: u64) -> u128
    ensures { bounds.IsGreatestCost bounded.now worth result }
{
    let mut greatest = 0;
    for by in bounded {
        if sets_price(by, bounded) {
            greatest = cost_at(by, bounded, worth).max(greatest);
        }
    }
    greatest
}
