//! A part is reserved for a plan: which plans of a part are taken, and what becomes of its demands.

ghost use Rattle.std.specs.Prelude.{◌≡◌, IfOk, IsTrue, ℕ, Option, IfNone, All, Some, IfSome, is_some, MatchOption, false};
ghost use Rattle.std.specs.List.{list_any};
ghost use Rattle.cut_tree.specs.Tree.{count_of};
ghost use Rattle.shop_records.specs.declared.records.Demand.{Demand as DemandOf};
ghost use Rattle.shop_machine.specs.declared.recounts.Recount.TheVariants.{Reserved};
ghost use Rattle.shop_records.specs.Messages.{is_accepted};
ghost use Rattle.shop_machine.specs.Decisions.{Decides};
ghost use Rattle.shop_machine.specs.Recounts.{plan_leaves, AreDemandsFound, leaves_in, CanRecount, HasRow, IsNumbered};
ghost use Rattle.shop_machine.specs.Reserving.{IsReservation, fits_demand, is_over, leaf_refusal, leaves_refusal, plan_refusal, reserve_refusal};

use crate::decisions::no_change;
use crate::recounts::{FoundLeaf, Recount, recounted_rows, stands_again, wide};
use cut_measure::{Code, MAX_NUMBERS};
use cut_tree::{Leaf, Plan};
use shop_records::{Change, Demand, Job, JobState, Material, Part, Refusal, Reply, State};
use std::alloc::{AllocError, Global};
use std::cmp::Ordering;

fn fits_demand(leaf: &Leaf, demand: &Demand) -> bool
    ensures { result ≡ fits_demand leaf.now demand.now }
{
    let w = demand.size.w();
    let h = demand.size.h();
    if leaf.turned {
        demand.may_turn && leaf.w == h && leaf.h == w
    } else {
        leaf.w == w && leaf.h == h
    }
}

fn leaf_refusal(material: &Code, found: &FoundLeaf) -> Option<Refusal>
    ensures { result ≡ leaf_refusal material.now found.now.leaf found.now.demand }
{
    match &found.demand {
        None => Some(Refusal::NoDemand),
        Some(demand) => {
            if demand.material.order(material) != Ordering::Equal {
                Some(Refusal::WrongMaterial)
            } else if !fits_demand(&found.leaf, demand) {
                Some(Refusal::WrongSize)
            } else {
                None
            }
        }
    }
}

// Why leaves are refused on a part of this material, if they are.
fn leaves_refusal(material: &Code, leaves: &[FoundLeaf]) -> Option<Refusal>
    ensures refusal { (at : ℕ → Option DemandOf) → AreDemandsFound at leaves.now
        → result ≡ leaves_refusal at material.now (leaves_in leaves.now) }
    ensures found { IfNone result (All (λ f. IsTrue (is_some f.demand)) leaves.now) }
{
    let [found, more @ ..] = leaves else {
        return None;
    };
    match leaf_refusal(material, found) {
        Some(refusal) => Some(refusal),
        None => leaves_refusal(material, more),
    }
}

fn is_over(count: u32, demand: &Option<Demand>) -> bool
    ensures test { result ≡ is_over count demand.now }
    ensures in_limit { result ≡ false → IfSome demand.now (CanRecount Reserved count) }
{
    match demand {
        None => false,
        Some(demand) => {
            wide(demand.reserved) + wide(demand.made) + wide(count) > wide(demand.wanted)
        }
    }
}

// With the plan's pieces, some demand of the leaves would have more reserved and made than wanted.
fn is_too_many(plan: &Plan, leaves: &[FoundLeaf]) -> bool
    ensures test { (at : ℕ → Option DemandOf) → AreDemandsFound at leaves.now
        → result ≡ list_any (λ leaf. is_over (count_of plan.now.tree leaf.demand) (at leaf.demand))
        (leaves_in leaves.now) }
    ensures in_limit { result ≡ false
        → All (λ f. IfSome f.demand (CanRecount Reserved (count_of plan.now.tree f.leaf.demand)))
        leaves.now }
{
    let [found, more @ ..] = leaves else {
        return false;
    };
    if stands_again(found, more) {
        return is_too_many(plan, more);
    }
    match is_over(plan.count(found.leaf.demand), &found.demand) {
        true => true,
        false => is_too_many(plan, more),
    }
}

// The rows of a reservation: the part and the plan are there, the part stands, and no leaf is refused.
fn reservation(
    alloc: Global,
    part: Part,
    plan: Plan,
    leaves: &[FoundLeaf],
    act: u32,
) -> Result<Change, AllocError>
    requires leaves { leaves_in leaves.now ≡ plan_leaves plan }
    requires found { All (HasRow (CanRecount Reserved) plan.tree) leaves.now }
    ensures change { IfOk result
        (λ change. (at : ℕ → Option DemandOf) → AreDemandsFound at leaves.now
        → IsReservation part plan at act change) }
    ensures reported { IfOk result (λ change. IsTrue (is_accepted change.reply)) }
{
    let demands = recounted_rows(alloc, Recount::Reserved, &plan, leaves)?;
    let cuts = plan.cuts();
    let job = Job {
        act,
        part: part.name,
        kerf: plan.kerf(),
        plan,
        state: JobState::Waiting,
    };
    Ok(Change {
        moved: Some(Part {
            state: State::Reserved(act),
            ..part
        }),
        job: Some(job),
        demands,
        act: Some(act),
        ..no_change(alloc, Reply::Reserve { cuts, job: act })
    })
}

// Why a plan is refused on a part, if it is.
fn plan_refusal(part: &Part, plan: &Plan, leaves: &[FoundLeaf], act: u32) -> Option<Refusal>
    requires leaves { leaves_in leaves.now ≡ plan_leaves plan.now }
    ensures refusal { (at : ℕ → Option DemandOf) → AreDemandsFound at leaves.now
        → result ≡ plan_refusal part.now (Some plan.now) at act }
    ensures found { IfNone result (All (λ f. IsTrue (is_some f.demand)) leaves.now) }
    ensures in_limit { IfNone result
        (All (λ f. IfSome f.demand (CanRecount Reserved (count_of plan.now.tree f.leaf.demand)))
        leaves.now) }
{
    if leaves.is_empty() {
        return Some(Refusal::BadTree);
    }
    if let Some(refusal) = leaves_refusal(&part.material, leaves) {
        return Some(refusal);
    }
    if is_too_many(plan, leaves) {
        return Some(Refusal::TooMany);
    }
    if act > MAX_NUMBERS {
        return Some(Refusal::NumbersSpent);
    }
    None
}

/// Reserves a part for a plan, from the rows of the part and its material, the plan that was read for the part, its leaves
/// with the rows of their demands, and the next act's number. Refused, in this order, `NoPart`, `NotStanding`, `StoreFault`
/// without the material's row, `BadTree` without a plan or a piece, leaf by leaf `NoDemand`, `WrongMaterial` and `WrongSize`,
/// `TooMany`, and `NumbersSpent`.
pub fn decide_reserve(
    alloc: Global,
    part: Option<Part>,
    material: Option<Material>,
    plan: Option<Plan>,
    leaves: &[FoundLeaf],
    act: u32,
) -> Result<Change, Refusal>
    requires numbered { All IsNumbered leaves.now }
    requires leaves { IfSome plan (λ p. leaves_in leaves.now ≡ plan_leaves p) }
    ensures decision { (at : ℕ → Option DemandOf) → AreDemandsFound at leaves.now
        → Decides (reserve_refusal part material plan at act)
        (λ change. MatchOption part ⊥
        (λ row. MatchOption plan ⊥ (λ p. IsReservation row p at act change))) result }
    ensures reported { IfOk result (λ change. IsTrue (is_accepted change.reply)) }
{
    let Some(part) = part else {
        return Err(Refusal::NoPart);
    };
    if !part.state.is_free() {
        return Err(Refusal::NotStanding);
    }
    let Some(_) = material else {
        return Err(Refusal::StoreFault);
    };
    let Some(plan) = plan else {
        return Err(Refusal::BadTree);
    };
    if let Some(refusal) = plan_refusal(&part, &plan, leaves, act) {
        return Err(refusal);
    }
    let change = reservation(alloc, part, plan, leaves, act)?;
    Ok(change)
}
