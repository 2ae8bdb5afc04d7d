//! Plans of whole orders: a search that may be asked at any time for what it found so far.

ghost use Rattle.std.specs.Prelude.{◌≡◌, ◌≤◌, ◌⊎◌, IfErr, IfOk, IfSome, None, Some};
ghost use Rattle.cut_plan.specs.Proposals.{AreDemands};
ghost use Rattle.cut_plan.specs.declared.faults.PlanFault.TheVariants.{NoMemory};
ghost use Rattle.cut_bound.specs.Orders as orders;
ghost use Rattle.cut_order.specs.Answers.{Asks, IsOrderAnswer};
ghost use Rattle.cut_order.specs.Stocks.{IsStageLimit, IsStock};

use crate::answer::{OrderPlan, answer_of};
use crate::certified::Certified;
use crate::complete::complete;
use crate::found::{Kept, better, kept_units};
use crate::instance::Instance;
use crate::seek::search_for;
use cut_bound::{StockSize, order_fault};
use cut_measure::{Kind, MAX_KERF};
use cut_plan::{PlanFault, Want};
use cut_search::search::Search;
use cut_search_bars::found::{Found, FoundUnit};
use std::alloc::{AllocError, Global};

// Prices whose bound is still to come.
#[derive(Drop)]
struct Pending {
    // One for each want.
    numbers: Vec<u32>,
    // How many points an axis of the table has about.
    points: usize,
}

/// A search for plans of an order. Whatever it looks at, what it reports is checked: units are a plan
/// of the order, and the bound comes with prices and is proved.
#[derive(Drop)]
pub struct OrderSearch {
    certified: Certified,
    kept: Kept,
    pending: Option<Pending>,
    search: Search,
    ghost limited: { kept.stages ≡ certified.instance.stages },
}

impl OrderSearch {
    ghost use Rattle.cut_order.specs.Searches.{instance_of};

    // A search that found nothing yet.
    fn begin(alloc: Global, instance: Instance) -> Result<OrderSearch, AllocError>
        ensures { IfOk result (λ search. instance_of search ≡ instance) }
    {
        let search = search_for(alloc, &instance)?;
        let kept = Kept {
            units: Vec::new(alloc),
            missing: u128::MAX,
            cost: u128::MAX,
            rest: 0,
            stages: instance.stages,
        };
        let certified = Certified::new(alloc, instance);
        Ok(OrderSearch {
            certified,
            kept,
            pending: None,
            search,
        })
    }

    // A search for an instance without fault.
    fn asked(
        alloc: Global,
        kind: Kind,
        kerf: u32,
        step: Option<u32>,
        stages: Option<u32>,
        sizes: &[StockSize],
        wants: &[Want],
    ) -> Result<OrderSearch, AllocError>
        requires kerf { kerf ≤ MAX_KERF }
        requires limit { IsStageLimit stages }
        requires stock { IsStock kind sizes.now }
        requires demands { AreDemands wants.now }
        requires faultless { orders.order_fault kind kerf step sizes.now wants.now ≡ None }
        ensures { IfOk result (λ search. Asks kind kerf step stages sizes.now wants.now
            (instance_of search)) }
    {
        let sizes = Vec::from_slice(alloc, sizes)?;
        let wants = Vec::from_slice(alloc, wants)?;
        let instance = Instance {
            kind,
            kerf,
            step,
            stages,
            sizes,
            wants,
        };
        let search = OrderSearch::begin(alloc, instance)?;
        Ok(search)
    }

    /// A search that has made no table yet. If `stages` is given (2 to 255), each plan that it
    /// reports has at most so many. `sizes` must be a stock (`is_stock`), and demands must be in
    /// 1..=2147483647. Errors, in the order of `PlanFault`: no want, more than 100, or one out of
    /// range or twice; a sheet's step of 0; a bar too long, or a sheet with too many steps; no want
    /// fits any size. A want whose side and kerf are below the step is planned, too, but has no
    /// price.
    pub fn new(
        alloc: Global,
        kind: Kind,
        kerf: u32,
        step: Option<u32>,
        stages: Option<u32>,
        sizes: &[StockSize],
        wants: &[Want],
    ) -> Result<OrderSearch, PlanFault>
        requires kerf { kerf ≤ MAX_KERF }
        requires limit { IsStageLimit stages }
        requires stock { IsStock kind sizes.now }
        requires demands { AreDemands wants.now }
        ensures ok { IfOk result (λ search. Asks kind kerf step stages sizes.now wants.now
            (instance_of search)) }
        ensures faulty { IfSome (orders.order_fault kind kerf step sizes.now wants.now)
            (λ fault. result ≡ Err fault) }
        ensures err { IfErr result (λ fault. (fault ≡ NoMemory)
            ⊎ (orders.order_fault kind kerf step sizes.now wants.now ≡ Some fault)) }
    {
        match order_fault(kind, kerf, step, sizes, wants) {
            Some(fault) => Err(fault),
            None => match OrderSearch::asked(alloc, kind, kerf, step, stages, sizes, wants) {
                Ok(search) => Ok(search),
                Err(_) => Err(PlanFault::NoMemory),
            },
        }
    }

    // The cost of the plan that is kept, if it makes all.
    fn best_cost(&self) -> Option<u64> {
        if self.kept.missing == 0 {
            u64::try_from(self.kept.cost).ok()
        } else {
            None
        }
    }

    // Keeps units that are a better plan of the order.
    fn consider(&mut self, alloc: Global, found: Vec<FoundUnit>) -> Result<(), AllocError>
        ensures { instance_of self.new ≡ instance_of self.old }
    {
        let certified = &self.certified;
        let found = better(alloc, &certified.instance, found, &self.kept)?;
        if let Some(kept) = found {
            self.kept = kept;
        }
        Ok(())
    }

    // Lets the search go on; whether there is more to do.
    fn go_on(&mut self, alloc: Global) -> Result<bool, AllocError>
        ensures { instance_of self.new ≡ instance_of self.old }
    {
        let least = self.certified.certificate.bound;
        let best = self.best_cost();
        let found = self.search.go_on(alloc, least, best)?;
        match found {
            Found::Nothing => Ok(true),
            Found::Ended => Ok(false),
            Found::Prices { numbers, points } => {
                self.pending = Some(Pending { numbers, points });
                Ok(true)
            }
            Found::Units(units) => {
                self.consider(alloc, units)?;
                Ok(true)
            }
        }
    }

    /// Goes on, by one table at most; whether there is more to do.
    pub fn advance(&mut self, alloc: Global) -> Result<bool, AllocError>
        ensures { instance_of self.new ≡ instance_of self.old }
    {
        match self.pending.take() {
            Some(pending) => {
                self.certified.rate(alloc, pending.numbers, pending.points)?;
                Ok(true)
            }
            None => self.go_on(alloc),
        }
    }

    /// The best that was found so far, with units added as long as an unused one holds a missing
    /// piece.
    pub fn finish(&self, alloc: Global) -> Result<OrderPlan, AllocError>
        ensures { IfOk result (IsOrderAnswer (instance_of self.now)) }
    {
        let instance = &self.certified.instance;
        let mut units = kept_units(alloc, instance, &self.kept)?;
        complete(alloc, instance, &mut units)?;
        let plan = answer_of(alloc, &self.certified, units)?;
        Ok(plan)
    }
}
