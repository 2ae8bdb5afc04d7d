//! The plan of an order in one call.

ghost use Rattle.std.specs.Prelude.{◌≡◌, ◌≤◌, ◌⊎◌, IfErr, IfOk, IfSome, Some};
ghost use Rattle.cut_plan.specs.Proposals.{AreDemands};
ghost use Rattle.cut_plan.specs.declared.faults.PlanFault.TheVariants.{NoMemory};
ghost use Rattle.cut_bound.specs.Orders as orders;
ghost use Rattle.cut_order.specs.Answers.{IsAnswerOf, IsOrderAnswer};
ghost use Rattle.cut_order.specs.Searches.{instance_of};
ghost use Rattle.cut_order.specs.Stocks.{IsStageLimit, IsStock};

use crate::answer::OrderPlan;
use crate::search::OrderSearch;
use cut_bound::StockSize;
use cut_measure::{Kind, MAX_KERF};
use cut_plan::{PlanFault, Want};
use std::alloc::{AllocError, Global};

// Lets a search go on by at most so many calls of `advance`.
fn go_on(alloc: Global, search: &mut OrderSearch, calls: u32) -> Result<(), AllocError>
    ensures { instance_of search.new ≡ instance_of search.old }
{
    for _ in 0..calls {
        let more = search.advance(alloc)?;
        if !more {
            return Ok(());
        }
    }
    Ok(())
}

// The answer of a search after so many calls of `advance`.
fn answer_after(alloc: Global, search: OrderSearch, calls: u32) -> Result<OrderPlan, AllocError>
    ensures { IfOk result (IsOrderAnswer (instance_of search)) }
{
    let mut search = search;
    go_on(alloc, &mut search, calls)?;
    let plan = search.finish(alloc)?;
    Ok(plan)
}

/// The plan of an order that a search finds by at most so many calls of `advance`. Limits and
/// faults as `OrderSearch::new`.
pub fn plan_order(
    alloc: Global,
    kind: Kind,
    kerf: u32,
    step: Option<u32>,
    stages: Option<u32>,
    sizes: &[StockSize],
    wants: &[Want],
    calls: u32,
) -> Result<OrderPlan, PlanFault>
    requires kerf { kerf ≤ MAX_KERF }
    requires limit { IsStageLimit stages }
    requires stock { IsStock kind sizes.now }
    requires demands { AreDemands wants.now }
    ensures ok { IfOk result (IsAnswerOf kind kerf step stages sizes.now wants.now) }
    ensures faulty { IfSome (orders.order_fault kind kerf step sizes.now wants.now)
        (λ fault. result ≡ Err fault) }
    ensures err { IfErr result (λ fault. (fault ≡ NoMemory)
        ⊎ (orders.order_fault kind kerf step sizes.now wants.now ≡ Some fault)) }
{
    match OrderSearch::new(alloc, kind, kerf, step, stages, sizes, wants) {
        Err(fault) => Err(fault),
        Ok(search) => match answer_after(alloc, search, calls) {
            Ok(plan) => Ok(plan),
            Err(_) => Err(PlanFault::NoMemory),
        },
    }
}
