//! The plans of all pieces of a problem, from as many of its rectangles as it takes.

ghost use Rattle.std.specs.Prelude.{◌≡◌, ◌≤◌, ◌==◌, ◌⊎◌, IfErr, IfOk, Some, string_bytes};
ghost use Rattle.std.specs.List.{list_all};
ghost use Rattle.cut_measure.specs.declared.sizes.Kind.TheVariants.{Bar};
ghost use Rattle.cut_plan.specs.Proposals.{AreDemands};
ghost use Rattle.cut_plan.specs.declared.faults.PlanFault.TheVariants.{NoMemory};
ghost use Rattle.cut_order.specs.Stocks.{IsStageLimit};
ghost use Rattle.cut_lines.specs.Lines.{AreOrderLines};
ghost use Rattle.shop_files.specs.Problems.{ArePieces};
ghost use Rattle.shop_problems.specs.Wholes as spec;

use crate::wants::wants_of;
use cut_bound::{MAX_ORDER_WANTS, StockSize};
use cut_lines::{OrderSummary, order_lines};
use cut_measure::{Kind, MAX_KERF, Size};
use cut_order::{OrderPlan, plan_order};
use cut_plan::{PlanFault, Want, are_bad_wants, is_bad_step};
use cut_sheets::sheet::MAX_STEPS;
use shop_files::{Piece, Problem};
use std::alloc::{AllocError, Global};

/// So many tables the search makes at most where no number is given.
pub const DEFAULT_CALLS: u32 = 500;

/// How all pieces are planned.
#[derive(Clone, Copy, Debug, PartialEq, Eq)]
pub struct WholePlan {
    /// In tenths of a millimetre: 0 to 200.
    pub kerf: u32,
    /// In tenths of a millimetre. None: sides aren't rounded.
    pub step: Option<u32>,
    /// So many tables the search makes at most.
    pub calls: u32,
    /// Each plan has at most so many stages, 2 to 255, if there is a limit.
    pub stages: Option<u32>,
}

// Whether all pieces have height 1.
fn are_flat(pieces: &[Piece]) -> bool
    ensures { result ≡ list_all (λ p. p.h == 1) pieces.now }
{
    pieces.iter().all(|piece| piece.h == 1)
}

// A bar where the rectangle and all pieces have height 1.
pub(crate) fn kind_of(size: Size, pieces: &[Piece]) -> Kind
    ensures kind { result ≡ spec.kind_of size pieces.now }
    ensures flat { result ≡ Bar → size.h ≡ 1 }
{
    if size.h() == 1 && are_flat(pieces) {
        Kind::Bar
    } else {
        Kind::Sheet
    }
}

// The least step by which no side has over 500 steps.
pub(crate) fn least_for(size: Size, kerf: u32) -> u32
    requires { kerf ≤ MAX_KERF }
    ensures { result ≡ spec.least_for size kerf }
{
    (size.w().max(size.h()) + kerf) / (MAX_STEPS + 1) + 1
}

// What is wrong with the wants and the step, where one is given.
fn step_fault(kind: Kind, how: WholePlan, wants: &[Want]) -> Option<PlanFault>
    requires { how.kerf ≤ MAX_KERF }
    ensures { result ≡ spec.step_fault kind how.kerf how.step wants.now }
{
    let step = how.step?;
    if are_bad_wants(MAX_ORDER_WANTS, kind, wants) {
        return Some(PlanFault::BadWant);
    }
    if is_bad_step(kind, wants, how.kerf, step) {
        return Some(PlanFault::BadStep);
    }
    None
}

// The plans of all pieces of a rectangle.
fn planned(
    alloc: Global,
    kind: Kind,
    size: Size,
    how: WholePlan,
    wants: &[Want],
) -> Result<OrderPlan, PlanFault>
    requires kerf { how.kerf ≤ MAX_KERF }
    requires limit { IsStageLimit how.stages }
    requires flat { kind ≡ Bar → size.h ≡ 1 }
    requires demands { AreDemands wants.now }
    ensures ok { IfOk result (spec.IsWholePlan kind size how.kerf how.step how.stages wants.now) }
    ensures err { IfErr result (λ f. (f ≡ NoMemory)
        ⊎ (spec.whole_fault kind size how.kerf how.step wants.now ≡ Some f)) }
{
    if let Some(fault) = step_fault(kind, how, wants) {
        return Err(fault);
    }
    let stock = [StockSize {
        size,
        cost: 1,
        limit: None,
    }];
    plan_order(
        alloc, kind, how.kerf, how.step, how.stages, &stock, wants, how.calls,
    )
}

// How many pieces are missing.
pub(crate) fn missing_of(plan: &OrderPlan) -> u128
    ensures { result ≡ spec.missing_of plan.now }
{
    let mut missing = 0u128;
    for number in &plan.missing {
        missing += *number as u128;
    }
    missing
}

// The lines of the plans.
fn lines_of(alloc: Global, plan: &OrderPlan) -> Result<String, AllocError>
    ensures { IfOk result
        (λ text. AreOrderLines (spec.summary_of plan.now) plan.now.units.items (string_bytes text)) }
{
    let summary = OrderSummary {
        units: plan.cost,
        bound: plan.bound,
        proved: plan.proved,
        missing: missing_of(plan),
    };
    order_lines(alloc, summary, &plan.units)
}

/// The lines of the plans of all pieces of a problem, from as many of its rectangles as it takes: how many these are, and
/// how many whoever cuts all pieces takes at least; whether both are equal and nothing is missing; how many pieces aren't
/// planned; and each different plan with how many rectangles it cuts. A rectangle of height 1 whose pieces all have height
/// 1 is a bar. The demand of the first piece is 1; none is turned.
/// Each plan has at most so many stages, 2 to 255, if there is a limit.
///
/// Faults in the order of `PlanFault`, with 100 wants at most; a step that is given is judged as for one rectangle. Lack of memory may come at any point. The kerf is at most 200.
pub fn plan_whole(alloc: Global, problem: &Problem, how: WholePlan) -> Result<String, PlanFault>
    requires pieces { ArePieces problem.now.pieces }
    requires kerf { how.kerf ≤ MAX_KERF }
    requires limit { IsStageLimit how.stages }
    ensures ok { IfOk result (λ text. spec.IsWholeText problem.now.size problem.now.pieces how.kerf
        how.step how.stages (string_bytes text)) }
    ensures err { IfErr result
        (spec.IsWholeFault problem.now.size problem.now.pieces how.kerf how.step) }
{
    let pieces = problem.pieces.as_slice();
    let kind = kind_of(problem.size, pieces);
    let Ok(wants) = wants_of(alloc, pieces) else {
        return Err(PlanFault::NoMemory);
    };
    let plan = planned(alloc, kind, problem.size, how, &wants)?;
    match lines_of(alloc, &plan) {
        Ok(text) => Ok(text),
        Err(_) => Err(PlanFault::NoMemory),
    }
}
