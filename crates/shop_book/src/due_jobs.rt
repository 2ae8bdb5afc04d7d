//! The day on which a job is due: the least one of the orders that have a piece in its plan.

ghost use Rattle.std.specs.Prelude.{◌≡◌, IfOk, IsTrue, map};
ghost use Rattle.std.specs.Ordering.{nat_cmp};
ghost use Rattle.cut_measure.specs.Codes.{code_cmp};
ghost use Rattle.cut_tree.specs.Leaves.{leaves_of};
ghost use Rattle.cut_tree.specs.declared.leaves.Leaf.{Leaf as LeafOf};
ghost use Rattle.shop_records.specs.Lists.{earliest_day, earlier_day};
ghost use Rattle.shop_rows.specs.Keys.{demand_key, note_key};
ghost use Rattle.shop_rows.specs.Rows.{rise};
ghost use Rattle.shop_book.specs.DueJobs.{due_number, due_leaves};

use crate::memory_lists::due_in;
use cut_tree::Leaf;
use shop_records::{Demand, Job, OrderNote};
use shop_rows::find;
use std::alloc::{AllocError, Global};

// Of two days the earlier one; 0 is none.
fn earlier_day(a: u32, b: u32) -> u32
    ensures { result ≡ earlier_day a b }
{
    if a == 0 {
        b
    } else if b == 0 {
        a
    } else {
        a.min(b)
    }
}

// The day on which the order of the demand of a number is due, 0 where there is no such demand.
fn due_number(demands: &[Demand], notes: &[OrderNote], number: u32) -> u32
    requires demands { IsTrue (rise demand_key nat_cmp demands.now) }
    requires notes { IsTrue (rise note_key code_cmp notes.now) }
    ensures { result ≡ due_number demands.now notes.now number }
{
    match find(demands, number) {
        Some(demand) => due_in(notes, demand.order),
        None => 0,
    }
}

// The least day of the demands of leaves.
fn due_among(demands: &[Demand], notes: &[OrderNote], leaves: &[Leaf]) -> u32
    requires demands { IsTrue (rise demand_key nat_cmp demands.now) }
    requires notes { IsTrue (rise note_key code_cmp notes.now) }
    ensures { result ≡ earliest_day
        (map (λ (leaf : LeafOf). due_number demands.now notes.now leaf.demand) leaves.now) }
{
    let [first, more @ ..] = leaves else {
        return 0;
    };
    let day = due_number(demands, notes, first.demand);
    let others = due_among(demands, notes, more);
    earlier_day(day, others)
}

/// The least day on which an order is due that has a piece in the plan of a job, 0 where none has a day.
pub(crate) fn due_job(
    alloc: Global,
    demands: &[Demand],
    notes: &[OrderNote],
    job: &Job,
) -> Result<u32, AllocError>
    requires demands { IsTrue (rise demand_key nat_cmp demands.now) }
    requires notes { IsTrue (rise note_key code_cmp notes.now) }
    ensures { IfOk result (λ day. day ≡ due_leaves demands.now notes.now job.now) }
{
    let leaves = job.plan.leaves(alloc)?;
    Ok(due_among(demands, notes, &leaves))
}
