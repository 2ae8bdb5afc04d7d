//! The plans of the lines of an order file, from units of some sizes.

ghost use Rattle.std.specs.Prelude.{◌≡◌, ◌≤◌, ◌⊎◌, All, IfErr, IfOk, IsTrue, Some, length, map, string_bytes};
ghost use Rattle.cut_measure.specs.Measures.{is_size};
ghost use Rattle.cut_measure.specs.declared.sizes.Kind.TheVariants.{Bar, Sheet};
ghost use Rattle.cut_bound.specs.declared.limits.TheConstants.{MAX_BOUGHT_SIZES, MAX_ORDER_UNITS};
ghost use Rattle.cut_plan.specs.Proposals.{AreDemands};
ghost use Rattle.cut_plan.specs.declared.faults.PlanFault.TheVariants.{NoMemory};
ghost use Rattle.cut_order.specs.Stocks.{IsStageLimit};
ghost use Rattle.shop_files.specs.declared.limits.TheConstants.{MAX_LINES};
ghost use Rattle.shop_problems.specs.Judged.{AreSized};
ghost use Rattle.shop_problems.specs.Stock.{size_text};
ghost use Rattle.shop_problems.specs.Orders as spec;

use crate::stock::{
    StockFault, StockMaterial, has_twice, material_in, size_text, sizes_in, stock_of,
};
use crate::wholes::missing_of;
use cut_bound::{MAX_BOUGHT_SIZES, PlannedUnit};
use cut_lines::{OrderSummary, order_lines, sized_lines};
use cut_measure::{Kind, Size};
use cut_order::{OrderPlan, plan_order};
use cut_plan::{PlanFault, Want};
use shop_files::{MaterialEntry, OrderLine};
use std::alloc::{AllocError, Global};

/// What lines are planned, and from what.
#[derive(Clone, Copy)]
pub struct LinesAsked<'a> {
    /// A shop file's materials.
    pub entries: &'a [MaterialEntry],
    /// The code of the material whose lines are planned.
    pub material: &'a str,
    /// The sizes of its units, 1 to 10, in millimetres.
    pub sizes: &'a [&'a str],
    /// So many tables the search makes at most.
    pub calls: u32,
    /// Each plan has at most so many stages, 2 to 255, if there is a limit.
    pub stages: Option<u32>,
}

// How plans are searched for.
#[derive(Clone, Copy)]
struct LinesSearch {
    calls: u32,
    stages: Option<u32>,
}

/// Why lines aren't planned.
#[derive(Clone, Copy, Debug, PartialEq, Eq)]
pub enum LinesFault {
    /// The shop file has no such material.
    NoMaterial,
    /// A text is no size of a unit of the material.
    BadSize,
    /// A size stands twice, or the planner's fault.
    Plan(PlanFault),
}

// The want of a line.
fn want_of(demand: u32, line: &OrderLine) -> Want
    requires { IsTrue (is_size Sheet line.now.w line.now.h) }
    ensures { result ≡ spec.want_of demand line.now }
{
    match Size::new(Kind::Sheet, line.w, line.h) {
        Some(size) => Want {
            demand,
            size,
            may_turn: line.turn,
            left: line.count,
            worth: line.worth,
        },
        None => unreachable!(),
    }
}

// The wants of a material's lines, the demand of the first being 1.
fn wants_in(alloc: Global, material: &str, lines: &[OrderLine]) -> Result<Vec<Want>, AllocError>
    requires few { length lines.now ≤ MAX_LINES }
    requires sized { AreSized lines.now }
    ensures { IfOk result (λ wants. wants.items ≡ spec.wants_in material.now lines.now) }
{
    let mut wants = Vec::new(alloc);
    let mut demand = 1u32;
    for line in lines {
        if line.material.as_str() == material {
            wants.push(want_of(demand, line))?;
            demand += 1;
        }
    }
    Ok(wants)
}

// The plan of wants from sizes.
fn planned(
    alloc: Global,
    material: &StockMaterial,
    sizes: &[Size],
    wants: &[Want],
    search: LinesSearch,
) -> Result<OrderPlan, PlanFault>
    requires limit { IsStageLimit search.stages }
    requires flat { material.now.kind ≡ Bar → All (λ size. size.h ≡ 1) sizes.now }
    requires demands { AreDemands wants.now }
    ensures ok { IfOk result (spec.IsPlanned material.now sizes.now search.stages wants.now) }
    ensures err { IfErr result (λ f. (f ≡ NoMemory)
        ⊎ (spec.plan_fault material.now sizes.now wants.now ≡ Some f)) }
{
    if sizes.len() > MAX_BOUGHT_SIZES || has_twice(sizes) {
        return Err(PlanFault::BadWant);
    }
    let kerf = material.limits.kerf();
    let Ok(stock) = stock_of(alloc, sizes) else {
        return Err(PlanFault::NoMemory);
    };
    plan_order(
        alloc,
        material.kind,
        kerf,
        None,
        search.stages,
        &stock,
        wants,
        search.calls,
    )
}

// How many units there are.
fn count_of(units: &[PlannedUnit]) -> u128
    ensures { result ≡ spec.count_of units.now }
{
    let mut count = 0u128;
    for unit in units {
        count += unit.times as u128;
    }
    count
}

// What sums a plan up.
fn summary_of(plan: &OrderPlan) -> OrderSummary
    requires { spec.count_of plan.now.units.items ≤ MAX_ORDER_UNITS }
    ensures { result ≡ spec.summary_of plan.now }
{
    OrderSummary {
        units: count_of(&plan.units) as u64,
        bound: plan.bound,
        proved: plan.proved,
        missing: missing_of(plan),
    }
}

// How the program writes sizes.
fn names_of(alloc: Global, kind: Kind, sizes: &[Size]) -> Result<Vec<String>, AllocError>
    ensures { IfOk result (λ names. map string_bytes names.items ≡ map (size_text kind) sizes.now) }
{
    let mut names = Vec::new(alloc);
    for size in sizes {
        names.push(size_text(alloc, kind, *size)?)?;
    }
    Ok(names)
}

// The lines of a plan from units of these sizes.
fn lines_of(
    alloc: Global,
    kind: Kind,
    sizes: &[Size],
    plan: &OrderPlan,
) -> Result<String, AllocError>
    requires sizes { length sizes.now ≤ MAX_BOUGHT_SIZES }
    requires units { spec.count_of plan.now.units.items ≤ MAX_ORDER_UNITS }
    ensures { IfOk result (λ text. spec.ArePlanLines kind sizes.now plan.now (string_bytes text)) }
{
    let summary = summary_of(plan);
    if sizes.len() == 1 {
        return order_lines(alloc, summary, &plan.units);
    }
    let names = names_of(alloc, kind, sizes)?;
    sized_lines(alloc, summary, plan.cost, &names, &plan.units)
}

// The plan of the lines of a material from sizes.
fn text_from(
    alloc: Global,
    lines: &[OrderLine],
    code: &str,
    material: &StockMaterial,
    sizes: &[Size],
    search: LinesSearch,
) -> Result<String, PlanFault>
    requires limit { IsStageLimit search.stages }
    requires few { length lines.now ≤ MAX_LINES }
    requires sized { AreSized lines.now }
    requires flat { material.now.kind ≡ Bar → All (λ size. size.h ≡ 1) sizes.now }
    ensures ok { IfOk result (λ text.
        spec.IsTextFrom lines.now code.now material.now sizes.now search.stages (string_bytes text)) }
    ensures err { IfErr result (λ f. (f ≡ NoMemory)
        ⊎ (spec.plan_fault material.now sizes.now (spec.wants_in code.now lines.now) ≡ Some f)) }
{
    let Ok(wants) = wants_in(alloc, code, lines) else {
        return Err(PlanFault::NoMemory);
    };
    let plan = planned(alloc, material, sizes, &wants, search)?;
    match lines_of(alloc, material.kind, sizes, &plan) {
        Ok(text) => Ok(text),
        Err(_) => Err(PlanFault::NoMemory),
    }
}

/// The lines of the plans of all of an order file's lines of a material, from as many units of some sizes as it takes: how many
/// units these are, a bound, whether it is proved that none takes less, and how many pieces are missing; with several sizes the
/// cost; and each different plan with how many units have it. With one size the bound is a number of units; with several, bound
/// and cost are in cells, and before each plan stands its size. The demand of the first of these lines is 1.
///
/// Faults, in this order: the shop file has no such material; a text is no size of it; there are over 10 sizes, or one stands twice, or there is no
/// line of the material, or over 100, or one of a bar that isn't flat or may turn; a size is too large; no piece fits any size. Want
/// of memory may come at any point. The lines have sides of 1 to 200000 and 1 to 60000, and there are at most 200.
pub fn plan_lines(
    alloc: Global,
    lines: &[OrderLine],
    asked: LinesAsked<'_>,
) -> Result<String, LinesFault>
    requires few { length lines.now ≤ MAX_LINES }
    requires sized { AreSized lines.now }
    requires limit { IsStageLimit asked.stages }
    ensures ok { IfOk result (λ text. spec.IsLinesText lines.now
        asked.entry.entries.now asked.entry.material.now
        (map (λ t. t.now) asked.entry.sizes.now) asked.entry.stages (string_bytes text)) }
    ensures err { IfErr result (spec.IsLinesFault lines.now asked.entry.entries.now
        asked.entry.material.now (map (λ t. t.now) asked.entry.sizes.now)) }
{
    let Some(material) = material_in(asked.entries, asked.material) else {
        return Err(LinesFault::NoMaterial);
    };
    match sizes_in(alloc, material.kind, asked.sizes) {
        Ok(sizes) => {
            let search = LinesSearch {
                calls: asked.calls,
                stages: asked.stages,
            };
            match text_from(alloc, lines, asked.material, &material, &sizes, search) {
                Ok(text) => Ok(text),
                Err(fault) => Err(LinesFault::Plan(fault)),
            }
        }
        Err(StockFault::NoMemory) => Err(LinesFault::Plan(PlanFault::NoMemory)),
        Err(_) => Err(LinesFault::BadSize),
    }
}
