//! The best plan of a bar: an integer knapsack over what is left of the wants.

ghost use Rattle.std.specs.Prelude.{◌≡◌, ◌≤◌, ◌++◌, ◌⊎◌, ◌↔◌, IsTrue, IfOk, IfErr, IfSome, OnOk, None, Some, length, replicate};
ghost use Rattle.cut_measure.specs.declared.sizes.Kind.TheVariants.{Bar};
ghost use Rattle.cut_plan.specs.declared.faults.PlanFault.TheVariants.{NoMemory, TableTooLarge};
ghost use Rattle.cut_plan.specs.Faults.{plan_fault};
ghost use Rattle.cut_plan.specs.Proposals as proposals;

use crate::faults::{PlanFault, first_fault};
use cut_bars::bar::{best_counts, counted_worth};
use cut_measure::{Kind, MAX_KERF, MAX_NUMBERS, Size};
use cut_tree::{BarFault, Plan, bar_plan};
use cut_wants::wants::Want;
use std::alloc::{AllocError, Global};

/// A plan, and what its pieces are worth.
#[derive(Drop)]
pub struct Proposal {
    pub plan: Plan,
    /// The sum of the pieces' worths, at most 256000000000.
    pub worth: u64,
}

/// The pieces of a bar, each with its demand and length, and what they are worth.
#[derive(Drop)]
pub struct Pieces {
    /// Demand, and length in tenths of a millimetre.
    pub pieces: Vec<(u32, u32)>,
    pub worth: u64,
}

fn push_times(pieces: &mut Vec<(u32, u32)>, piece: (u32, u32), count: u32) -> Result<(), AllocError>
    ensures { OnOk result (pieces.new.items ≡ pieces.old.items ++ replicate count piece) }
{
    for _ in 0..count {
        pieces.push(piece)?;
    }
    Ok(())
}

// The pieces that counts give, in the order of the wants.
fn counted_pieces(
    alloc: Global,
    wants: &[Want],
    counts: &[u32],
) -> Result<Vec<(u32, u32)>, AllocError>
    requires { length counts.now ≡ length wants.now }
    ensures { IfOk result (λ pieces. pieces.items ≡ proposals.pieces_of wants.now counts.now) }
{
    let mut pieces = Vec::new(alloc);
    for i in 0..wants.len() {
        let piece = (wants[i].demand, wants[i].size.w());
        push_times(&mut pieces, piece, counts[i])?;
    }
    Ok(pieces)
}

// The pieces of best counts.
fn best_pieces(alloc: Global, size: Size, kerf: u32, wants: &[Want]) -> Result<Pieces, AllocError>
    requires kerf { kerf ≤ MAX_KERF }
    requires faultless { plan_fault Bar size kerf 0 wants.now ≡ None }
    ensures { IfOk result (proposals.AreBestPieces size kerf wants.now) }
{
    let counts = best_counts(alloc, wants, size.w(), kerf)?;
    let pieces = counted_pieces(alloc, wants, &counts)?;
    let worth = counted_worth(wants, &counts);
    Ok(Pieces { pieces, worth })
}

// Their plan, if it has few enough cuts.
fn proposal_of(
    alloc: Global,
    size: Size,
    kerf: u32,
    wants: &[Want],
    best: &Pieces,
) -> Result<Proposal, PlanFault>
    requires kerf { kerf ≤ MAX_KERF }
    requires flat { size.h ≡ 1 }
    requires demands { proposals.AreDemands wants.now }
    requires faultless { plan_fault Bar size kerf 0 wants.now ≡ None }
    requires best { proposals.AreBestPieces size kerf wants.now best.now }
    ensures ok { IfOk result (proposals.IsBarProposal size kerf wants.now) }
    ensures err { IfErr result
        (λ fault. (fault ≡ NoMemory)
        ⊎ ((fault ≡ TableTooLarge) × proposals.HasManyPieces size kerf wants.now)) }
{
    match bar_plan(alloc, size, kerf, &best.pieces) {
        Ok(plan) => Ok(Proposal {
            plan,
            worth: best.worth,
        }),
        Err(BarFault::TooManyCuts) => Err(PlanFault::TableTooLarge),
        Err(BarFault::NoMemory) => Err(PlanFault::NoMemory),
        Err(BarFault::TooLong) => unreachable!(),
    }
}

fn faultless_bar(
    alloc: Global,
    size: Size,
    kerf: u32,
    wants: &[Want],
) -> Result<Proposal, PlanFault>
    requires kerf { kerf ≤ MAX_KERF }
    requires flat { size.h ≡ 1 }
    requires demands { proposals.AreDemands wants.now }
    requires faultless { plan_fault Bar size kerf 0 wants.now ≡ None }
    ensures ok { IfOk result (proposals.IsBarProposal size kerf wants.now) }
    ensures err { IfErr result
        (λ fault. (fault ≡ NoMemory)
        ⊎ ((fault ≡ TableTooLarge) × proposals.HasManyPieces size kerf wants.now)) }
{
    match best_pieces(alloc, size, kerf, wants) {
        Ok(best) => proposal_of(alloc, size, kerf, wants, &best),
        Err(_) => Err(PlanFault::NoMemory),
    }
}

/// Whether each demand has a number that a demand may have: 1 to 2147483647. The planners are called with such wants.
pub fn have_demands(wants: &[Want]) -> bool
    ensures { IsTrue result ↔ proposals.AreDemands wants.now }
{
    wants
        .iter()
        .all(|want| 1 <= want.demand && want.demand <= MAX_NUMBERS)
}

/// The plan of a bar from which pieces of the wants are cut, each at most as often as is left, such that no legal plan
/// within those counts is worth more (an integer knapsack, Gilmore and Gomory 1961). Faults in the order of `PlanFault`;
/// the bar has a height of 1, and demands are in 1..=2147483647.
pub fn plan_bar(alloc: Global, size: Size, kerf: u32, wants: &[Want]) -> Result<Proposal, PlanFault>
    requires kerf { kerf ≤ MAX_KERF }
    requires flat { size.h ≡ 1 }
    requires demands { proposals.AreDemands wants.now }
    ensures ok { IfOk result (λ p. (plan_fault Bar size kerf 0 wants.now ≡ None)
        × proposals.IsBarProposal size kerf wants.now p) }
    ensures faulty { IfSome (plan_fault Bar size kerf 0 wants.now) (λ fault. result ≡ Err fault) }
    ensures err { IfErr result
        (λ fault. (fault ≡ NoMemory) ⊎ (plan_fault Bar size kerf 0 wants.now ≡ Some fault)
        ⊎ ((fault ≡ TableTooLarge) × proposals.HasManyPieces size kerf wants.now)) }
{
    match first_fault(Kind::Bar, size, kerf, 0, wants) {
        Some(fault) => Err(fault),
        None => faultless_bar(alloc, size, kerf, wants),
    }
}
