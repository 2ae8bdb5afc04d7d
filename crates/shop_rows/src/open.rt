//! Lists of the keys of what is open: standing parts, waiting jobs, and demands that aren't made yet; and the entries behind one.

ghost use Rattle.std.specs.Prelude.{◌≡◌, ◌+◌, ◌<◌, ◌≤◌, ℕ, Option, IsTrue, filter, length, nat_lt, vec_len, vec_capacity};
ghost use Rattle.shop_records.specs.declared.records.Job.{Job as JobOf};
ghost use Rattle.shop_records.specs.declared.records.Demand.{Demand as DemandOf};
ghost use Rattle.shop_records.specs.Lists.{is_open};
ghost use Rattle.std.specs.Ordering.{nat_cmp};
ghost use Rattle.shop_rows.specs.Keys.{demand_key, entry_key};
ghost use Rattle.shop_rows.specs.Rows.{rise};
ghost use Rattle.shop_rows.specs.Open.{own_key, finds_with, finds_with_all, ListsNumbers, waits};

use crate::names::{NameList, copy_lists};
use crate::rows::settle;
use shop_records::{Demand, Entry, Job};
use std::alloc::{AllocError, Global};

/// The keys of what is open, in lists that rise.
#[derive(Drop)]
pub struct OpenRows {
    /// The names of the parts that stand, in a list for each material.
    pub parts: Vec<NameList>,
    /// The waiting jobs, by number.
    pub jobs: Vec<u32>,
    /// The demands of which more pieces are wanted than made, by number.
    pub demands: Vec<u32>,
}

impl OpenRows {
    ghost use Rattle.std.specs.Prelude.{◌≡◌, [], List, ℕ, IfOk};
    ghost use Rattle.shop_rows.specs.Open.{names_of, AreInOrder};

    /// Nothing is open.
    pub fn new(alloc: Global) -> OpenRows
        ensures parts { result.parts.items ≡ [] }
        ensures jobs { result.jobs.items ≡ [] }
        ensures demands { result.demands.items ≡ [] }
    {
        OpenRows {
            parts: Vec::new(alloc),
            jobs: Vec::new(alloc),
            demands: Vec::new(alloc),
        }
    }

    /// The same lists.
    pub fn copy(&self, alloc: Global) -> Result<OpenRows, AllocError>
        requires { AreInOrder self.now.parts.items }
        ensures order { IfOk result (λ copy. AreInOrder copy.parts.items) }
        ensures parts { IfOk result
            (λ copy. (code : List ℕ) → names_of code copy.parts.items
            ≡ names_of code self.now.parts.items) }
        ensures jobs { IfOk result (λ copy. copy.jobs.items ≡ self.now.jobs.items) }
        ensures demands { IfOk result (λ copy. copy.demands.items ≡ self.now.demands.items) }
    {
        let parts = copy_lists(alloc, &self.parts)?;
        let jobs = Vec::from_slice(alloc, &self.jobs)?;
        let demands = Vec::from_slice(alloc, &self.demands)?;
        Ok(OpenRows {
            parts,
            jobs,
            demands,
        })
    }
}

/// Lists a job where it waits, and not where it doesn't.
pub fn list_job(keys: &mut Vec<u32>, job: &Job)
    requires rising { IsTrue (rise own_key nat_cmp keys.old.items) }
    requires spare { vec_len keys.old < vec_capacity keys.old }
    ensures lists { (find : ℕ → Option JobOf) → ListsNumbers waits find keys.old.items
        → ListsNumbers waits (finds_with nat_cmp job.now.act job.now find) keys.new.items }
    ensures rising { IsTrue (rise own_key nat_cmp keys.new.items) }
{
    settle(keys, job.act, job.state.is_waiting());
}

// Lists a demand where it is open, and not where it isn't.
fn list_demand(keys: &mut Vec<u32>, demand: &Demand)
    requires rising { IsTrue (rise own_key nat_cmp keys.old.items) }
    requires spare { vec_len keys.old < vec_capacity keys.old }
    ensures lists { (find : ℕ → Option DemandOf) → ListsNumbers is_open find keys.old.items
        → ListsNumbers is_open (finds_with nat_cmp demand.now.number demand.now find)
        keys.new.items }
    ensures rising { IsTrue (rise own_key nat_cmp keys.new.items) }
    ensures len { vec_len keys.new ≤ vec_len keys.old + 1 }
    ensures capacity { vec_capacity keys.old ≤ vec_capacity keys.new }
{
    let more = demand.made < demand.wanted;
    settle(keys, demand.number, more);
}

/// Lists demands one after another, each where it is open, and not where it isn't.
pub fn list_demands(keys: &mut Vec<u32>, demands: &[Demand])
    requires rising { IsTrue (rise own_key nat_cmp keys.old.items) }
    requires spare { vec_len keys.old + length demands.now ≤ vec_capacity keys.old }
    ensures lists { (find : ℕ → Option DemandOf) → ListsNumbers is_open find keys.old.items
        → ListsNumbers is_open (finds_with_all demand_key nat_cmp demands.now find) keys.new.items }
    ensures rising { IsTrue (rise own_key nat_cmp keys.new.items) }
{
    for demand in demands {
        list_demand(keys, demand);
    }
}

/// The numbers of a list that are greater than this one.
pub fn numbers_after(keys: &[u32], after: u32) -> &[u32]
    requires { IsTrue (rise own_key nat_cmp keys.now) }
    ensures { result.now ≡ filter (nat_lt after) keys.now }
{
    let from = keys.partition_point(|key| *key <= after);
    &keys[from..]
}

/// The entries of greater numbers.
pub fn entries_after(rows: &[Entry], after: u64) -> &[Entry]
    requires { IsTrue (rise entry_key nat_cmp rows.now) }
    ensures { result.now ≡ filter (λ entry. nat_lt after entry.number) rows.now }
{
    let from = rows.partition_point(|entry| entry.number <= after);
    &rows[from..]
}
