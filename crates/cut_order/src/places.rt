//! How many units of a size are left over.

ghost use Rattle.std.specs.Prelude.{◌≡◌, ◌+◌, ◌≤◌, ◌<◌, ◌⊎◌, IfSome};
ghost use Rattle.cut_bound.specs.declared.limits.TheConstants.{MAX_ORDER_UNITS};
ghost use Rattle.cut_order.specs.Places as places;

use cut_bound::{MAX_ORDER_UNITS, PlannedUnit};

/// How many units there are.
pub fn unit_count(units: &[PlannedUnit]) -> u128
    ensures { result ≡ places.unit_count units.now }
{
    let mut count: u128 = 0;
    for unit in units {
        count += unit.times as u128;
    }
    count
}

// How many units of a size are at hand beside so many that are used, and no more than 100000.
fn unused(limit: Option<u32>, used: u128) -> u32
    ensures most { result ≤ MAX_ORDER_UNITS }
    ensures within { IfSome limit (λ n. used ≤ n → used + result ≤ n) }
    ensures all { (result ≡ MAX_ORDER_UNITS) ⊎ (IfSome limit (λ n. used + result < n) → ⊥) }
{
    match limit {
        None => MAX_ORDER_UNITS,
        Some(limit) => (limit as u128)
            .saturating_sub(used)
            .min(MAX_ORDER_UNITS as u128) as u32,
    }
}

/// How many units of a size may be added to so many, of which so many are of that size: as many as
/// are at hand, and at most 100000 together.
pub fn units_allowed(limit: Option<u32>, used: u128, count: u128) -> u32
    requires { count ≤ MAX_ORDER_UNITS }
    ensures few { count + result ≤ MAX_ORDER_UNITS }
    ensures within { IfSome limit (λ n. used ≤ n → used + result ≤ n) }
    ensures all { (count + result ≡ MAX_ORDER_UNITS) ⊎ (IfSome limit (λ n. used + result < n) → ⊥) }
{
    unused(limit, used).min(MAX_ORDER_UNITS - count as u32)
}
