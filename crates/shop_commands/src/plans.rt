//! `cutshop plan`: the plan of a problem file, or of the lines of an order file.

ghost use Rattle.std.specs.Prelude.{◌≡◌, ◌≤◌, None, IfOk, IfErr, OnOk, length, string_bytes};
ghost use Rattle.cut_measure.specs.declared.ranges.TheConstants.{MAX_KERF};
ghost use Rattle.cut_order.specs.Stocks.{IsStageLimit};
ghost use Rattle.shop_files.specs.Problems.{ArePieces};
ghost use Rattle.shop_files.specs.declared.limits.TheConstants.{MAX_LINES};
ghost use Rattle.shop_problems.specs.Judged.{AreSized};
ghost use Rattle.shop_problems.specs.Orders.{IsLinesText};
ghost use Rattle.shop_problems.specs.Stock.{first_bad_entry};
ghost use Rattle.shop_problems.specs.Wholes.{IsWholeText};
ghost use Rattle.shop_commands.specs.Plans as spec;

use crate::faults::Fault;
use crate::files::Reads;
use crate::orders::{judge, lines_in};
use crate::stored::shop_entries;
use cut_plan::{SheetProposal, plan_sheet};
use shop_files::{MaterialEntry, OrderLine, Problem, read_cgcut};
use shop_problems::{
    DEFAULT_CALLS, LinesAsked, WholePlan, first_bad_entry, plan_lines as lines_planned, plan_whole,
    wants_of,
};
use shop_words::OrderPlan;
use std::alloc::{AllocError, Global};

// The four lines of a plan.
fn plan_lines(alloc: Global, proposal: &SheetProposal) -> Result<String, AllocError>
    ensures { IfOk result (λ text. string_bytes text ≡ spec.plan_lines proposal.now) }
{
    let mut text = String::new(alloc);
    write!(
        text,
        "worth {}\nceiling {}\ndropped {}\ntree ",
        proposal.worth, proposal.ceiling, proposal.dropped
    )?;
    proposal.plan.write(&mut text)?;
    text.push_str("\n")?;
    Ok(text)
}

fn plan_problem(alloc: Global, problem: &Problem, kerf: u32, step: u32) -> Result<String, Fault>
    requires pieces { ArePieces problem.now.pieces }
    requires kerf { kerf ≤ MAX_KERF }
    ensures ok { IfOk result (λ text. spec.IsPlanText problem.now.size problem.now.pieces kerf step
        (string_bytes text)) }
    ensures err { IfErr result (spec.IsPlanless problem.now.size problem.now.pieces kerf step) }
{
    let wants = wants_of(alloc, problem.pieces.as_slice())?;
    let proposal = plan_sheet(alloc, problem.size, kerf, step, &wants)?;
    let lines = plan_lines(alloc, &proposal)?;
    Ok(lines)
}

/// The lines of a plan of the problem in a file's bytes: the worth, a ceiling that no plan exceeds, how many pieces of
/// a best tree were dropped, and the tree. The demand of the first piece is 1; none is turned.
///
/// An `Err` is the text's first error, or the planner's; a problem of over 40 pieces is a `BadWant`. Lack of memory may
/// come at any point. The kerf is at most 200.
pub fn plan_file(alloc: Global, bytes: &[u8], kerf: u32, step: u32) -> Result<String, Fault>
    requires { kerf ≤ MAX_KERF }
    ensures ok { IfOk result (λ text. spec.IsFilePlan bytes.now kerf step (string_bytes text)) }
    ensures err { IfErr result (spec.IsFileFault bytes.now kerf step) }
{
    let problem = read_cgcut(alloc, bytes)?;
    plan_problem(alloc, &problem, kerf, step)
}

fn plan_whole_problem(alloc: Global, problem: &Problem, how: WholePlan) -> Result<String, Fault>
    requires pieces { ArePieces problem.now.pieces }
    requires kerf { how.kerf ≤ MAX_KERF }
    requires limit { IsStageLimit how.stages }
    ensures ok { IfOk result (λ text. IsWholeText problem.now.size problem.now.pieces how.kerf
        how.step how.stages (string_bytes text)) }
    ensures err { IfErr result
        (spec.IsWholeless problem.now.size problem.now.pieces how.kerf how.step) }
{
    let lines = plan_whole(alloc, problem, how)?;
    Ok(lines)
}

/// The lines of the plans of all pieces of the problem in a file's bytes, from as many of its rectangles as it takes.
///
/// An `Err` is the text's first error, or the order's; a problem of over 100 pieces is a `BadWant`. Lack of memory may
/// come at any point. The kerf is at most 200.
pub fn plan_whole_file(alloc: Global, bytes: &[u8], how: WholePlan) -> Result<String, Fault>
    requires kerf { how.kerf ≤ MAX_KERF }
    requires limit { IsStageLimit how.stages }
    ensures ok { IfOk result
        (λ text. spec.IsFileWhole bytes.now how.kerf how.step how.stages (string_bytes text)) }
    ensures err { IfErr result (spec.IsFileWholeFault bytes.now how.kerf how.step) }
{
    let problem = read_cgcut(alloc, bytes)?;
    plan_whole_problem(alloc, &problem, how)
}

// Whether a shop takes each of the entries.
fn judge_entries(entries: &[MaterialEntry]) -> Result<(), Fault>
    ensures ok { OnOk result (first_bad_entry entries.now ≡ None) }
    ensures err { IfErr result (spec.IsBadEntry entries.now) }
{
    match first_bad_entry(entries) {
        None => Ok(()),
        Some(bad) => Err(Fault::from(bad)),
    }
}

// The plans of lines from the entries of a shop file.
#[tactic(auto, using(crate::proofs::PlannedFiles::taken_ok))]
fn plan_from(
    alloc: Global,
    lines: &[OrderLine],
    entries: &[MaterialEntry],
    asked: &OrderPlan<'_>,
) -> Result<String, Fault>
    requires few { length lines.now ≤ MAX_LINES }
    requires sized { AreSized lines.now }
    requires limit { IsStageLimit asked.now.stages }
    ensures ok { IfOk result (λ text. (first_bad_entry entries.now ≡ None)
        × IsLinesText lines.now entries.now asked.now.material.now (spec.sizes_asked asked.now)
        asked.now.stages (string_bytes text)) }
    ensures err { IfErr result (spec.IsPlanFaultBy lines.now entries.now asked.now) }
{
    judge_entries(entries)?;
    let stock = LinesAsked {
        entries,
        material: asked.material,
        sizes: asked.sizes.as_slice(),
        calls: asked.calls.unwrap_or(DEFAULT_CALLS),
        stages: asked.stages,
    };
    match lines_planned(alloc, lines, stock) {
        Ok(text) => Ok(text),
        Err(fault) => Err(Fault::from(fault)),
    }
}

// The plans of lines from a shop file.
#[tactic(auto, using(crate::proofs::PlannedFiles::from_shop, crate::proofs::PlannedFiles::from_shop_fault))]
fn plan_good_lines<R: Reads>(
    rt: &R,
    alloc: Global,
    lines: &[OrderLine],
    asked: &OrderPlan<'_>,
) -> Result<String, Fault>
    requires few { length lines.now ≤ MAX_LINES }
    requires sized { AreSized lines.now }
    requires limit { IsStageLimit asked.now.stages }
    ensures ok { IfOk result (λ text. spec.IsShopLines (R.holds rt.now) lines.now asked.now (string_bytes text)) }
    ensures err { IfErr result (spec.IsShopLinesFault (R.holds rt.now) lines.now asked.now) }
{
    let entries = shop_entries(rt, alloc, asked.shop)?;
    plan_from(alloc, lines, entries.as_slice(), asked)
}

/// The lines of the plans of an order file's lines of one material of a shop file, from as many units of some sizes as
/// it takes.
///
/// The errors of the order file come first, then those of the shop file, then those of the plan. Lack of memory may
/// come at any point.
#[tactic(auto, using(crate::proofs::OrderLines::few_lines, crate::proofs::PlannedFiles::from_file, crate::proofs::PlannedFiles::from_file_fault, crate::proofs::PlannedFiles::bad_rows))]
pub fn plan_order_file<R: Reads>(
    rt: &R,
    alloc: Global,
    bytes: &[u8],
    asked: &OrderPlan<'_>,
) -> Result<String, Fault>
    requires { IsStageLimit asked.now.stages }
    ensures ok { IfOk result (λ text. spec.IsFileLines (R.holds rt.now) bytes.now asked.now (string_bytes text)) }
    ensures err { IfErr result (spec.IsFileLinesFault (R.holds rt.now) bytes.now asked.now) }
{
    let lines = lines_in(alloc, bytes)?;
    let rows = lines.as_slice();
    judge(None, rows)?;
    plan_good_lines(rt, alloc, rows, asked)
}
