//! Whether the numbers of a query are in their ranges, and its lists are ones that are planned.

ghost use Rattle.std.specs.Prelude.{◌≡◌, ◌≤◌, IsTrue};
ghost use Rattle.std.specs.Prelude.{false};
ghost use Rattle.shop_plans.specs.declared.limits.TheConstants.{UNIT_COST};
ghost use Rattle.cut_order.specs.Stocks.{IsStageLimit};
ghost use Rattle.shop_planning.specs.Lists as lists;

use cut_bound::{MAX_BOUGHT_SIZES, MAX_CALLS, MAX_ORDER_WANTS, MAX_PARTS};
use cut_order::is_stage_limit;
use shop_plans::{NameList, PlansQuery, UNIT_COST};
use shop_records::NumberList;

/// Whether `remnant`, `calls` and `stages` are in their ranges.
pub fn is_in_range(query: &PlansQuery) -> bool
    ensures value { result ≡ lists.is_in_range query.now }
    ensures remnant { IsTrue result → query.now.remnant ≤ UNIT_COST }
    ensures stages { IsTrue result → IsStageLimit query.now.stages }
{
    1 <= query.remnant
        && query.remnant <= UNIT_COST
        && 1 <= query.calls
        && query.calls <= MAX_CALLS
        && is_stage_limit(query.stages)
}

// Whether something stands twice.
fn has_twice<T: PartialEq>(items: &[T]) -> bool
    ensures { result ≡ lists.has_twice T.eq items.now }
{
    for i in 0..items.len() {
        if items[i + 1..].contains(&items[i]) {
            return true;
        }
    }
    false
}

// Whether demands are named that are no list of 1 to 100, each once.
fn are_bad_demands(demands: &Option<NumberList>) -> bool
    ensures { result ≡ lists.are_bad_demands demands.now }
{
    match demands {
        None => false,
        Some(numbers) => {
            let numbers = numbers.as_slice();
            numbers.is_empty() || numbers.len() > MAX_ORDER_WANTS || has_twice(numbers)
        }
    }
}

// Whether parts are named that are no list of at most 1000, each once.
fn are_bad_parts(parts: &Option<NameList>) -> bool
    ensures { result ≡ lists.are_bad_parts parts.now }
{
    match parts {
        None => false,
        Some(names) => {
            let names = names.as_slice();
            names.len() > MAX_PARTS as usize || has_twice(names)
        }
    }
}

/// Whether one of the lists is too long, or has something twice, or there is a list of no demand.
pub fn has_bad_list(query: &PlansQuery) -> bool
    ensures { result ≡ lists.has_bad_list query.now }
{
    let buy = query.buy.as_slice();
    are_bad_demands(&query.demands)
        || are_bad_parts(&query.parts)
        || buy.len() > MAX_BOUGHT_SIZES
        || has_twice(buy)
}
