//! Lines about wants: plans of bars and of sheets, reached sums and bounds.

ghost use Rattle.std.specs.Prelude.{◌≤◌, IfOk};
ghost use Rattle.cut_plan.specs.Proposals.{AreDemands};

use crate::cuts::{Unit, size_of};
use anyhow::{Context, Error, Result};
use cut_measure::{Kind, Size};
use cut_plan::{
    PlanFault, Proposal, SheetProposal, Want, have_demands, least_units, plan_bar, plan_sheet,
    reached,
};
use cut_tree::{BarFault, Cause, SpellFault};
use std::alloc::Global;

// A want of five numbers, and a sixth that reports whether it may turn.
fn want_of(words: &str) -> Result<Want> {
    let [demand, w, h, left, worth, turns, ..] = crate::numbers_of(words)?;
    Ok(Want {
        demand,
        size: Size::new(Kind::Sheet, w, h).context("no size")?,
        may_turn: turns == 1,
        left,
        worth,
    })
}

/// The wants of a text, a comma between each two.
pub fn wants_of(alloc: Global, text: &str) -> Result<Vec<Want>>
    ensures { IfOk result (λ wants. AreDemands wants.items) }
{
    let mut wants = Vec::new(alloc);
    if !text.is_empty() {
        for words in text.split(',') {
            wants.push(want_of(words)?)?;
        }
    }
    if !have_demands(wants.as_slice()) {
        return Err(Error::msg("no number of a demand"));
    }
    Ok(wants)
}

// The plan of a bar.
fn bar(alloc: Global, unit: Unit, wants: &[Want]) -> Result<Result<Proposal, PlanFault>>
    requires { AreDemands wants.now }
{
    let size = size_of(Kind::Bar, unit)?;
    if size.h() != 1 {
        return Err(Error::msg("no bar"));
    }
    Ok(plan_bar(alloc, size, unit.kerf, wants))
}

/// What the plan of a bar is worth, or its fault.
pub fn worth_reported(alloc: Global, unit: Unit, wants: &[Want]) -> Result<String>
    requires { AreDemands wants.now }
{
    match bar(alloc, unit, wants)? {
        Ok(proposal) => Ok(format!(in alloc; "worth {}", proposal.worth)?),
        Err(fault) => Ok(format!(in alloc; "{fault:?}")?),
    }
}

/// The plan of a bar.
pub fn tree_reported(alloc: Global, unit: Unit, wants: &[Want]) -> Result<String>
    requires { AreDemands wants.now }
{
    let proposal = bar(alloc, unit, wants)??;
    let mut reported = String::new(alloc);
    proposal.plan.write(&mut reported)?;
    Ok(reported)
}

/// How many sums pieces of a bar reach, and what they are worth at one of them; or the fault.
pub fn reached_reported(alloc: Global, unit: Unit, sum: u32, wants: &[Want]) -> Result<String>
    requires { AreDemands wants.now }
{
    let size = size_of(Kind::Bar, unit)?;
    if size.h() != 1 {
        return Err(Error::msg("no bar"));
    }
    match reached(alloc, size, unit.kerf, wants) {
        Ok(map) => match map.get(&sum) {
            Some(worth) => Ok(format!(in alloc; "{} sums, worth {worth}", map.len())?),
            None => Ok(format!(in alloc; "{} sums, not reached", map.len())?),
        },
        Err(fault) => Ok(format!(in alloc; "{fault:?}")?),
    }
}

// The plan of a sheet.
fn sheet(
    alloc: Global,
    unit: Unit,
    step: u32,
    wants: &[Want],
) -> Result<Result<SheetProposal, PlanFault>>
    requires { AreDemands wants.now }
{
    let size = size_of(Kind::Sheet, unit)?;
    Ok(plan_sheet(alloc, size, unit.kerf, step, wants))
}

/// What the plan of a sheet is worth, how many pieces were dropped, and what no plan is worth more than; or its fault.
pub fn sheet_reported(alloc: Global, unit: Unit, step: u32, wants: &[Want]) -> Result<String>
    requires { AreDemands wants.now }
{
    match sheet(alloc, unit, step, wants)? {
        Ok(proposal) => {
            let (worth, dropped) = (proposal.worth, proposal.dropped);
            let ceiling = proposal.ceiling;
            Ok(format!(in alloc; "worth {worth}, dropped {dropped}, ceiling {ceiling}")?)
        }
        Err(fault) => Ok(format!(in alloc; "{fault:?}")?),
    }
}

/// How many cuts the plan of a sheet has.
pub fn cuts_reported(alloc: Global, unit: Unit, step: u32, wants: &[Want]) -> Result<String>
    requires { AreDemands wants.now }
{
    let proposal = sheet(alloc, unit, step, wants)??;
    let cuts = proposal.plan.cuts();
    Ok(format!(in alloc; "{cuts} cuts")?)
}

/// What no unit is worth more than and how many units it takes, or the fault.
pub fn bound_reported(
    alloc: Global,
    kind: Kind,
    unit: Unit,
    step: u32,
    wants: &[Want],
) -> Result<String> {
    let size = size_of(kind, unit)?;
    if kind == Kind::Bar && size.h() != 1 {
        return Err(Error::msg("no bar"));
    }
    match least_units(alloc, kind, size, unit.kerf, step, wants) {
        Ok(bound) => Ok(format!(in alloc; "best {}, {} units", bound.best, bound.units)?),
        Err(fault) => Ok(format!(in alloc; "{fault:?}")?),
    }
}

// The worth, the dropped pieces and the ceiling of a sheet's plan for three wants, with so many zeros after their worths.
fn scaled(alloc: Global, unit: Unit, zeros: &str) -> Result<(u64, u32, u64)> {
    let text = format!(in alloc; "1 4 3 9 7{zeros},2 5 2 9 6{zeros},3 3 3 2 5{zeros}")?;
    let wants = wants_of(alloc, text.as_str())?;
    let proposal = sheet(alloc, unit, 1, wants.as_slice())??;
    Ok((proposal.worth, proposal.dropped, proposal.ceiling))
}

/// Whether a sheet is planned alike for worths a hundred million times as high.
pub fn alike_reported(alloc: Global, unit: Unit) -> Result<String> {
    let (worth, dropped, ceiling) = scaled(alloc, unit, "")?;
    let high = scaled(alloc, unit, "00000000")?;
    let times = 100000000;
    let alike = high
        == (
            worth.saturating_mul(times),
            dropped,
            ceiling.saturating_mul(times),
        );
    Ok(format!(in alloc; "{alike}")?)
}

// What pieces are worth in each span up to 43 at most.
type Spans = [u64; 44];

// Offers a piece to each span, so that it is taken once.
fn offer_one(best: &mut Spans, span: usize, worth: u64) {
    let before = *best;
    for (whole, rest) in best.iter_mut().skip(span).zip(before) {
        *whole = (*whole).max(rest.saturating_add(worth));
    }
}

// The best worths of bars by a plain table: for each span, a bar's and a kerf's, what some pieces in it are worth at
// most, piece by piece.
fn best_spans(kerf: u32, wants: &[Want]) -> Spans
    requires { kerf ≤ 200 }
{
    let mut best = [0; 44];
    for want in wants {
        for _ in 0..want.left {
            offer_one(
                &mut best,
                (want.size.w() + kerf) as usize,
                want.worth as u64,
            );
        }
    }
    best
}

// On how many bars up to 40 the plan and the table differ: nothing fits where the table has no worth.
fn count_differing(alloc: Global, kerf: u32, wants: &[Want]) -> Result<u32>
    requires few { kerf ≤ 3 }
    requires demands { AreDemands wants.now }
{
    let best = best_spans(kerf, wants);
    let mut differing = 0u32;
    for w in 1..41u32 {
        let unit = Unit { w, h: 1, kerf };
        let worth = best.get((w + kerf) as usize).copied().unwrap_or(0);
        let wanted = if worth == 0 {
            Err(PlanFault::NothingFits)
        } else {
            Ok(worth)
        };
        if bar(alloc, unit, wants)?.map(|proposal| proposal.worth) != wanted {
            differing = differing.saturating_add(1);
        }
    }
    Ok(differing)
}

/// On how many bars the plan is worth something else than a plain table says, over 256 choices of two wants.
pub fn table_reported(alloc: Global) -> Result<String> {
    let mut differing = 0u32;
    for choice in 0..256u32 {
        let (a, b) = (choice % 4 + 1, choice / 4 % 4 + 1);
        let (left, others) = (choice / 16 % 4 + 1, choice / 64 + 1);
        let text = format!(in alloc;
            "1 {a} 1 {left} {}, 2 {b} 1 {others} {}",
            3 * a + left,
            4 * b
        )?;
        let wants = wants_of(alloc, text.as_str())?;
        for kerf in 0..4u32 {
            differing = differing.saturating_add(count_differing(alloc, kerf, wants.as_slice())?);
        }
    }
    Ok(format!(in alloc; "{differing} differ")?)
}

/// How faults are printed.
pub fn faults_reported(alloc: Global) -> Result<String> {
    let fault = SpellFault {
        token: 6,
        cause: Cause::Extra,
    };
    let (first, last) = (PlanFault::NothingFits, BarFault::TooLong);
    Ok(format!(in alloc; "{first}; {fault}; {last}")?)
}
