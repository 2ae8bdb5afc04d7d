//! Two plans as the planners give them, printed: of a bar and of a sheet.

ghost use Rattle.std.specs.Prelude.{◌≡◌, ◌≤◌, IfOk};
ghost use Rattle.cut_tree.specs.Tree.{Tree};
ghost use Rattle.cut_wants.specs.Legal.{Legal, IsWithinCounts, worth_of};
ghost use Rattle.cut_plan.specs.Proposals.{AreDemands};

use anyhow::{Context, Result};
use cut_measure::{Kind, Size};
use cut_plan::{Proposal, SheetProposal, Want, plan_bar, plan_sheet};
use std::alloc::Global;

/// A want that doesn't turn.
fn want(demand: u32, w: u32, h: u32, left: u32, worth: u32) -> Result<Want>
    ensures { IfOk result (λ want. want.demand ≡ demand) }
{
    let size = Size::new(Kind::Sheet, w, h).context("no size")?;
    Ok(Want {
        demand,
        size,
        may_turn: false,
        left,
        worth,
    })
}

/// A plan of a bar under a kerf of 3, than which no legal plan within the counts is worth more.
fn best_of_bar(alloc: Global, size: Size, wants: &[Want]) -> Result<Proposal>
    requires flat { size.h ≡ 1 }
    requires demands { AreDemands wants.now }
    ensures { IfOk result (λ p. (t : Tree) → Legal wants.now 3 t size.w size.h
        → IsWithinCounts wants.now t → worth_of wants.now t ≤ p.worth) }
{
    let proposal = plan_bar(alloc, size, 3, wants)?;
    Ok(proposal)
}

/// A plan of a sheet without a kerf, in steps of 1, worth no more than its ceiling.
fn plan_of_sheet(alloc: Global, size: Size, wants: &[Want]) -> Result<SheetProposal>
    requires demands { AreDemands wants.now }
    ensures { IfOk result (λ p. p.worth ≤ p.ceiling) }
{
    let proposal = plan_sheet(alloc, size, 0, 1, wants)?;
    Ok(proposal)
}

/// The best plan of a bar of 100.
pub fn print_bar(rt: &(impl Print + AllocGlobal)) -> Result<()> {
    let size = Size::new(Kind::Bar, 100, 1).context("no size")?;
    let wants = [want(1, 60, 1, 1, 60)?, want(2, 48, 1, 2, 48)?];
    let proposal = best_of_bar(rt.alloc(), size, &wants)?;
    let mut text = String::new(rt.alloc());
    proposal.plan.write(&mut text)?;
    println!(rt; "{text}, worth {}", proposal.worth)?;
    Ok(())
}

/// A plan of a sheet of 10 by 10.
pub fn print_sheet(rt: &(impl Print + AllocGlobal)) -> Result<()> {
    let size = Size::new(Kind::Sheet, 10, 10).context("no size")?;
    let wants = [want(1, 5, 5, 2, 25)?];
    let proposal = plan_of_sheet(rt.alloc(), size, &wants)?;
    let (worth, ceiling) = (proposal.worth, proposal.ceiling);
    println!(rt;
        "worth {worth} of at most {ceiling}, {} dropped",
        proposal.dropped
    )?;
    Ok(())
}
