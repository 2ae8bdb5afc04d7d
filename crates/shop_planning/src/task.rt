//! Queries that are being searched.

ghost use Rattle.std.proofs.Props.{props};
ghost use Rattle.std.specs.Prelude.{◌≡◌, IfOk, IfSome};
ghost use Rattle.cut_plan.specs.declared.faults.PlanFault.TheVariants.{NoMemory};
ghost use Rattle.cut_order.specs.Answers.{Asks};
ghost use Rattle.cut_order.specs.Searches.{instance_of};
ghost use Rattle.shop_planning.specs.Answers.{IsPlanOf};

use crate::instance::PlanInstance;
use crate::response::reported_text;
use cut_order::{OrderPlan, OrderSearch};
use cut_plan::PlanFault;
use shop_records::Text;
use std::alloc::{AllocError, Global};

/// A query that is being searched: the stock and the wants as the shop had them, the search, and how many calls are left.
#[derive(Drop)]
pub struct PlanTask {
    instance: PlanInstance,
    search: Option<OrderSearch>,
    left: u32,
    ghost asks: { IfSome search
        (λ s. Asks instance.kind instance.kerf instance.step instance.stages instance.sizes.items instance.wants.items (instance_of s)) } by { Prim.hlevel props },
}

// A planner's lack of memory, handed on.
fn want_of_memory(_fault: PlanFault) -> AllocError
    requires { _fault ≡ NoMemory }
{
    AllocError
}

// A search for what is asked.
fn search_for(alloc: Global, instance: &PlanInstance) -> Result<OrderSearch, AllocError>
    ensures { IfOk result (λ search. Asks instance.now.kind instance.now.kerf instance.now.step instance.now.stages
        instance.now.sizes.items instance.now.wants.items (instance_of search)) }
{
    match OrderSearch::new(
        alloc,
        instance.kind,
        instance.kerf,
        instance.step,
        instance.stages,
        &instance.sizes,
        &instance.wants,
    ) {
        Ok(search) => Ok(search),
        Err(fault) => Err(want_of_memory(fault)),
    }
}

// What a search that makes no table finds.
fn first_plan(alloc: Global, instance: &PlanInstance) -> Result<OrderPlan, AllocError>
    ensures { IfOk result (IsPlanOf instance.now) }
{
    let search = search_for(alloc, instance)?;
    let plan = search.finish(alloc)?;
    Ok(plan)
}

impl PlanTask {
    ghost use Rattle.std.specs.Prelude.{◌≡◌, ◌+◌, ◌≤◌, IfOk, IsTrue, None, OnOk, is_some};
    ghost use Rattle.shop_planning.specs.Answers.{IsPlanOf, IsPlansText};
    ghost use Rattle.shop_planning.specs.PlanTasks.{instance_in};

    /// A query of which no search step was taken yet.
    pub(crate) fn new(instance: PlanInstance) -> PlanTask
        ensures instance { instance_in result ≡ instance }
        ensures left { result.left ≡ instance.calls }
    {
        let left = instance.calls;
        PlanTask {
            instance,
            search: None,
            left,
        }
    }

    // Begins the search.
    fn begin(&mut self, alloc: Global) -> Result<(), AllocError>
        requires { self.old.search ≡ None }
        ensures instance { instance_in self.new ≡ instance_in self.old }
        ensures left { self.new.left ≡ self.old.left }
        ensures begun { OnOk result (IsTrue (is_some self.new.search)) }
    {
        let search = search_for(alloc, &self.instance)?;
        self.search = Some(search);
        Ok(())
    }

    /// Makes one table of a planner at most; whether there is more to do. False where it is done: the calls are spent, or it
    /// is proved best, or nothing more is found. The first call begins the search.
    pub fn advance(&mut self, alloc: Global) -> Result<bool, AllocError>
        ensures instance { instance_in self.new ≡ instance_in self.old }
        ensures calls { IfOk result (λ more. IsTrue more
            → (1 ≤ self.new.left) × (self.new.left + 1 ≡ self.old.left)) }
    {
        if self.left == 0 {
            return Ok(false);
        }
        if self.search.is_none() {
            self.begin(alloc)?;
        }
        self.go_on(alloc)
    }

    // Lets the search go on, by one of the calls that are left.
    fn go_on(&mut self, alloc: Global) -> Result<bool, AllocError>
        requires begun { IsTrue (is_some self.old.search) }
        requires left { 1 ≤ self.old.left }
        ensures instance { instance_in self.new ≡ instance_in self.old }
        ensures left { OnOk result (self.new.left + 1 ≡ self.old.left) }
        ensures more { IfOk result (λ more. IsTrue more → 1 ≤ self.new.left) }
    {
        let Some(search) = &mut self.search else {
            unreachable!()
        };
        let more = search.advance(alloc)?;
        self.left -= 1;
        Ok(more && self.left > 0)
    }

    // The plan by what was found so far.
    fn plan(&self, alloc: Global) -> Result<OrderPlan, AllocError>
        ensures { IfOk result (IsPlanOf (instance_in self.now)) }
    {
        match &self.search {
            Some(search) => search.finish(alloc),
            None => first_plan(alloc, &self.instance),
        }
    }

    /// The answer by what was found so far, as text.
    pub fn report(&self, alloc: Global) -> Result<Text, AllocError>
        ensures { IfOk result (IsPlansText (instance_in self.now)) }
    {
        let plan = self.plan(alloc)?;
        let text = reported_text(alloc, &self.instance, &plan)?;
        Ok(text)
    }
}
