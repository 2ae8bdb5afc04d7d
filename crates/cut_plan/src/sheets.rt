//! A plan of a sheet by guillotine cuts, and a ceiling that no legal plan is worth more than.

ghost use Rattle.std.specs.Prelude.{◌≡◌, ◌+◌, ◌*◌, ◌≤◌, ◌<◌, ◌^◌, ◌⊎◌, IfOk, IfErr, IfSome, None, Some, length};
ghost use Rattle.cut_measure.specs.declared.sizes.Kind.TheVariants.{Sheet};
ghost use Rattle.cut_tree.specs.Tree.{cut_count};
ghost use Rattle.cut_tree.specs.Nodes.{tree_of};
ghost use Rattle.cut_wants.specs.Legal.{HaveOwnDemands};
ghost use Rattle.cut_sheets.specs.Rounded.{steps_down, wants_up};
ghost use Rattle.cut_sheets.specs.Table.{HaveSides, HaveSidesAndBoundedWorths};
ghost use Rattle.cut_wants.specs.Best.{IsBestOf};
ghost use Rattle.cut_plan.specs.declared.faults.PlanFault.TheVariants.{NoMemory, TableTooLarge};
ghost use Rattle.cut_plan.specs.Faults.{plan_fault};
ghost use Rattle.cut_plan.specs.Proposals.{AreDemands};
ghost use Rattle.cut_plan.specs.Sheets as spec;

use crate::faults::{PlanFault, first_fault};
use cut_bars::bar::counted_worth;
use cut_measure::{Kind, MAX_KERF, Size};
use cut_sheets::bound::{all_up, ceiling_beside};
use cut_sheets::keep::{Kept, keep};
use cut_sheets::place::place;
use cut_sheets::read::worth_at;
use cut_sheets::sheet::{MAX_STEPS, best_table};
use cut_tree::{MAX_CUTS, Node, Plan, count_cuts};
use cut_wants::wants::{Scaled, Want};
use std::alloc::{AllocError, Global};

/// A plan, what its pieces are worth, how many pieces of a best tree became rests, and a worth that no plan exceeds.
#[derive(Drop)]
pub struct SheetProposal {
    pub plan: Plan,
    /// The sum of the pieces' worths, at most 256000000000.
    pub worth: u64,
    /// At most 250000 pieces.
    pub dropped: u32,
    /// A sum of worths of pieces, below 2^62.
    pub ceiling: u64,
}

/// The counts of a best tree's leaves by want, the first ones of those that are kept, and what the best tree is worth.
#[derive(Drop)]
pub struct BestLeaves {
    pub counts: Vec<u32>,
    pub kept: Kept,
    pub best: u64,
}

/// The kept leaves laid out on the sheet, and a ceiling.
#[derive(Drop)]
pub struct Laid {
    pub root: Node,
    pub worth: u64,
    pub dropped: u32,
    pub ceiling: u64,
}

// Which leaves of a best tree are kept.
fn kept_leaves(
    alloc: Global,
    wants: &[Scaled],
    across: usize,
    down: usize,
) -> Result<BestLeaves, AllocError>
    requires own { HaveOwnDemands wants.now }
    requires small { HaveSidesAndBoundedWorths wants.now }
    requires across { across ≤ MAX_STEPS }
    requires down { down ≤ MAX_STEPS }
    ensures kept { IfOk result
        (λ c. spec.AreFirstLeaves wants.now across down c.counts.items c.kept) }
    ensures best { IfOk result (λ c. IsBestOf wants.now 0 across down c.best) }
{
    let table = best_table(alloc, wants, across, down)?;
    let mut counts = vec![in alloc; 0u32; wants.len()]?;
    let kept = keep(alloc, wants, &table, across + 1, across, down, &mut counts)?;
    let best = worth_at(wants, &table, across + 1, across, down);
    Ok(BestLeaves { counts, kept, best })
}

// Of each count at most what is left.
fn kept_counts(alloc: Global, wants: &[Want], counts: &[u32]) -> Result<Vec<u32>, AllocError>
    requires { length counts.now ≡ length wants.now }
    ensures { IfOk result (λ kept. kept.items ≡ spec.kept_counts wants.now counts.now) }
{
    let mut kept = Vec::new(alloc);
    for i in 0..wants.len() {
        kept.push(counts[i].min(wants[i].left))?;
    }
    Ok(kept)
}

// How many of the counts are over what is left.
fn dropped_of(wants: &[Want], counts: &[u32]) -> u32
    requires len { length counts.now ≡ length wants.now }
    requires small { spec.dropped_of wants.now counts.now < 2 ^ 32 }
    ensures { result ≡ spec.dropped_of wants.now counts.now }
{
    let mut dropped = 0u32;
    for i in 0..wants.len() {
        dropped += counts[i].saturating_sub(wants[i].left);
    }
    dropped
}

// Which leaves of a best tree of the problem rounded up are kept.
fn cut_up(
    alloc: Global,
    size: Size,
    kerf: u32,
    step: u32,
    wants: &[Want],
) -> Result<BestLeaves, AllocError>
    requires kerf { kerf ≤ MAX_KERF }
    requires faultless { plan_fault Sheet size kerf step wants.now ≡ None }
    ensures sides { IfOk result (λ _. HaveSides wants.now) }
    ensures kept { IfOk result (λ c. spec.AreFirstLeaves (wants_up kerf step wants.now)
        (steps_down kerf step size.w) (steps_down kerf step size.h) c.counts.items c.kept) }
    ensures best { IfOk result (λ c. IsBestOf (wants_up kerf step wants.now) 0
        (steps_down kerf step size.w) (steps_down kerf step size.h) c.best) }
{
    let scaled = all_up(alloc, wants, kerf, step)?;
    let across = ((size.w() + kerf) / step) as usize;
    let down = ((size.h() + kerf) / step) as usize;
    let best_leaves = kept_leaves(alloc, &scaled, across, down)?;
    Ok(best_leaves)
}

// The kept leaves on the sheet itself.
fn lay_out(
    alloc: Global,
    size: Size,
    kerf: u32,
    step: u32,
    wants: &[Want],
    best_leaves: BestLeaves,
) -> Result<Laid, AllocError>
    requires kerf { kerf ≤ MAX_KERF }
    requires faultless { plan_fault Sheet size kerf step wants.now ≡ None }
    requires sides { HaveSides wants.now }
    requires kept { spec.AreBestLeaves (wants_up kerf step wants.now) (steps_down kerf step size.w)
        (steps_down kerf step size.h) best_leaves.counts.items (tree_of best_leaves.kept.tree) }
    requires best { IsBestOf (wants_up kerf step wants.now) 0 (steps_down kerf step size.w)
        (steps_down kerf step size.h) best_leaves.best }
    ensures laid { IfOk result
        (λ l. spec.IsSheetPlan size kerf step wants.now (tree_of l.root) l.worth l.dropped) }
    ensures few { IfOk result (λ l. cut_count (tree_of l.root) < 2 ^ 32) }
    ensures ceiling { IfOk result (λ l. spec.IsCeiling size kerf step wants.now l.ceiling) }
{
    let tree = &best_leaves.kept.tree;
    let root = place(alloc, wants, tree, size.w(), size.h(), kerf, step)?;
    let kept = kept_counts(alloc, wants, &best_leaves.counts)?;
    let worth = counted_worth(wants, &kept);
    let dropped = dropped_of(wants, &best_leaves.counts);
    let ceiling = ceiling_beside(alloc, wants, size, kerf, step, best_leaves.best)?;
    Ok(Laid {
        root,
        worth,
        dropped,
        ceiling,
    })
}

// The plan, if it has few enough cuts.
fn proposal_of(
    alloc: Global,
    size: Size,
    kerf: u32,
    step: u32,
    wants: &[Want],
    laid: Laid,
) -> Result<SheetProposal, PlanFault>
    requires kerf { kerf ≤ MAX_KERF }
    requires demands { AreDemands wants.now }
    requires laid { spec.IsSheetPlan size kerf step wants.now
        (tree_of laid.root) laid.worth laid.dropped }
    requires few { cut_count (tree_of laid.root) < 2 ^ 32 }
    requires ceiling { spec.IsCeiling size kerf step wants.now laid.ceiling }
    ensures ok { IfOk result (spec.IsSheetProposal size kerf step wants.now) }
    ensures err { IfErr result
        (λ fault. (fault ≡ NoMemory)
        ⊎ ((fault ≡ TableTooLarge) × spec.HasManyKept size kerf step wants.now)) }
{
    if count_cuts(&laid.root) > MAX_CUTS {
        return Err(PlanFault::TableTooLarge);
    }
    let _sides = (size.w(), size.h());
    let Ok(plan) = Plan::of(alloc, laid.root, size, kerf) else {
        return Err(PlanFault::NoMemory);
    };
    Ok(SheetProposal {
        plan,
        worth: laid.worth,
        dropped: laid.dropped,
        ceiling: laid.ceiling,
    })
}

fn faultless_sheet(
    alloc: Global,
    size: Size,
    kerf: u32,
    step: u32,
    wants: &[Want],
) -> Result<SheetProposal, PlanFault>
    requires kerf { kerf ≤ MAX_KERF }
    requires demands { AreDemands wants.now }
    requires faultless { plan_fault Sheet size kerf step wants.now ≡ None }
    ensures ok { IfOk result (spec.IsSheetProposal size kerf step wants.now) }
    ensures err { IfErr result
        (λ fault. (fault ≡ NoMemory)
        ⊎ ((fault ≡ TableTooLarge) × spec.HasManyKept size kerf step wants.now)) }
{
    let Ok(best_leaves) = cut_up(alloc, size, kerf, step, wants) else {
        return Err(PlanFault::NoMemory);
    };
    if !best_leaves.kept.is_whole {
        return Err(PlanFault::TableTooLarge);
    }
    match lay_out(alloc, size, kerf, step, wants, best_leaves) {
        Ok(laid) => proposal_of(alloc, size, kerf, step, wants, laid),
        Err(_) => Err(PlanFault::NoMemory),
    }
}

/// A plan of a sheet within the counts, and a ceiling. Sides are counted in steps, a kerf being added to each. A tree that
/// is best for the sides rounded up, with any number of pieces, is laid out on the sheet (guillotine cuts, Gilmore and
/// Gomory 1965); pieces over what is left become rests, `dropped` in all. No legal plan is worth more than the best worth
/// for the sides rounded down. Faults in the order of `PlanFault`; demands are in 1..=2147483647.
pub fn plan_sheet(
    alloc: Global,
    size: Size,
    kerf: u32,
    step: u32,
    wants: &[Want],
) -> Result<SheetProposal, PlanFault>
    requires kerf { kerf ≤ MAX_KERF }
    requires demands { AreDemands wants.now }
    ensures ok { IfOk result (λ p. (plan_fault Sheet size kerf step wants.now ≡ None)
        × spec.IsSheetProposal size kerf step wants.now p) }
    ensures faulty { IfSome (plan_fault Sheet size kerf step wants.now)
        (λ fault. result ≡ Err fault) }
    ensures err { IfErr result
        (λ fault. (fault ≡ NoMemory) ⊎ (plan_fault Sheet size kerf step wants.now ≡ Some fault)
        ⊎ ((fault ≡ TableTooLarge) × spec.HasManyKept size kerf step wants.now)) }
{
    match first_fault(Kind::Sheet, size, kerf, step, wants) {
        Some(fault) => Err(fault),
        None => faultless_sheet(alloc, size, kerf, step, wants),
    }
}
