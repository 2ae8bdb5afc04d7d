//! What a query asks of a book's content, or why it isn't answered.

ghost use Rattle.std.specs.Prelude.{◌≡◌, ◌≢◌, ◌≤◌, All, Err, IfErr, IfNone, IfOk, None, Some, false, length};
ghost use Rattle.cut_measure.specs.declared.ranges.TheConstants.{MAX_KERF};
ghost use Rattle.cut_plan.specs.Proposals.{AreDemands};
ghost use Rattle.cut_bound.specs.declared.limits.TheConstants.{MAX_BOUGHT_SIZES, MAX_PARTS};
ghost use Rattle.cut_order.specs.Stocks.{IsStageLimit, IsStock};
ghost use Rattle.shop_records.specs.declared.refusals.Refusal.TheVariants.{NoMemory, StoreFault};
ghost use Rattle.shop_answers.specs.Planning.{HasNumber};
ghost use Rattle.shop_book.specs.Kept.{Unchanged, OnContent};
ghost use Rattle.shop_plans.specs.declared.limits.TheConstants.{UNIT_COST};
ghost use Rattle.shop_planning.specs.Asked as asked;
ghost use Rattle.shop_planning.specs.Faults.{CountsRefusal};
ghost use Rattle.shop_planning.specs.Lists.{has_bad_list};
ghost use Rattle.shop_planning.specs.Queries as queries;
ghost use Rattle.shop_planning.specs.Queries.{AnswersPlans, IsInstance};
ghost use Rattle.shop_planning.specs.PlanTasks.{instance_in};

use crate::asking::{AskedRows, asked_rows};
use crate::instance::{PlanInstance, StockPart};
use crate::lists::{has_bad_list, is_in_range};
use crate::stock::{sizes_of, step_for, stock_parts};
use crate::task::PlanTask;
use cut_bound::{StockSize, cost_fault, order_fault};
use cut_measure::{Code, Kind, Size};
use cut_plan::{PlanFault, Want};
use shop_answers::{demands_refusal, planner_refusal, wants_of};
use shop_book::Book;
use shop_plans::{BuySize, PlansQuery};
use shop_records::{Material, Part, Refusal};
use std::alloc::{AllocError, Global};
use std::cmp::Ordering;

// Why a part isn't used for this material, if it isn't.
fn part_refusal(material: &Code, part: &Option<Part>) -> Option<Refusal>
    ensures value { result ≡ queries.part_refusal material.now part.now }
    ensures store { result ≢ Some StoreFault }
{
    let Some(part) = part else {
        return Some(Refusal::NoPart);
    };
    if !part.state.is_free() {
        return Some(Refusal::NotStanding);
    }
    if part.material.order(material) != Ordering::Equal {
        return Some(Refusal::WrongMaterial);
    }
    None
}

// The first refusal of parts.
fn parts_refusal(material: &Code, found: &[Option<Part>]) -> Option<Refusal>
    ensures value { result ≡ queries.parts_refusal material.now found.now }
    ensures store { result ≢ Some StoreFault }
{
    for part in found {
        if let Some(refusal) = part_refusal(material, part) {
            return Some(refusal);
        }
    }
    None
}

// The refusal of sizes of which one isn't a size of the kind.
fn sizes_refusal(kind: Kind, buy: &[BuySize]) -> Option<Refusal>
    ensures value { result ≡ queries.sizes_refusal kind buy.now }
    ensures store { result ≢ Some StoreFault }
{
    let [first, more @ ..] = buy else {
        return None;
    };
    match Size::new(kind, first.w, first.h) {
        Some(_) => sizes_refusal(kind, more),
        None => Some(Refusal::BadSize),
    }
}

// The first refusal of demands, parts or sizes.
fn rows_refusal(query: &PlansQuery, kind: Kind, rows: &AskedRows) -> Option<Refusal>
    ensures refusal { result ≡ queries.rows_refusal query.now kind rows.now.demands.items rows.now.parts.items }
    ensures numbers { IfNone result (All HasNumber rows.now.demands.items) }
    ensures store { result ≢ Some StoreFault }
{
    if let Some(refusal) = demands_refusal(&query.material, &rows.demands) {
        return Some(refusal);
    }
    if let Some(refusal) = parts_refusal(&query.material, &rows.parts) {
        return Some(refusal);
    }
    sizes_refusal(kind, query.buy.as_slice())
}

// The stock and the wants of a query.
#[derive(Drop)]
struct Gathered {
    parts: Vec<StockPart>,
    sizes: Vec<StockSize>,
    wants: Vec<Want>,
}

// Gathers the stock and the wants.
fn gather(
    alloc: Global,
    query: &PlansQuery,
    kind: Kind,
    rows: &AskedRows,
) -> Result<Gathered, AllocError>
    requires remnant { query.now.remnant ≤ UNIT_COST }
    requires parts { length rows.now.parts.items ≤ MAX_PARTS }
    requires buy { length query.now.buy ≤ MAX_BOUGHT_SIZES }
    requires numbers { All HasNumber rows.now.demands.items }
    ensures is { IfOk result (queries.IsGathered query.now kind rows.now.demands.items rows.now.parts.items) }
    ensures stock { IfOk result (λ stock. IsStock kind stock.sizes.items) }
    ensures demands { IfOk result (λ stock. AreDemands stock.wants.items) }
{
    let parts = stock_parts(alloc, kind, query.remnant, &rows.parts)?;
    let sizes = sizes_of(alloc, kind, &parts, query.buy.as_slice())?;
    let wants = wants_of(alloc, &rows.demands)?;
    Ok(Gathered {
        parts,
        sizes,
        wants,
    })
}

// The first fault of the planner. A step that is given is judged as for one part.
fn planner_fault(
    kind: Kind,
    kerf: u32,
    given: Option<u32>,
    step: Option<u32>,
    sizes: &[StockSize],
    wants: &[Want],
) -> Option<PlanFault>
    requires { kerf ≤ MAX_KERF }
    ensures value { result ≡ queries.planner_fault kind kerf given step sizes.now wants.now }
{
    match given {
        Some(_) => cost_fault(kind, kerf, step, sizes, wants),
        None => order_fault(kind, kerf, step, sizes, wants),
    }
}

// What is asked of a stock, or the planner's fault.
fn instance_on(
    query: &PlansQuery,
    material: &Material,
    stock: Gathered,
) -> Result<PlanInstance, Refusal>
    requires stages { IsStageLimit query.now.stages }
    requires stock { IsStock material.now.kind stock.sizes.items }
    requires demands { AreDemands stock.wants.items }
    ensures ok { IfOk result (queries.IsInstanceOn query.now material.now stock) }
    ensures err { IfErr result (λ refusal. queries.stock_refusal query.now material.now stock.sizes.items stock.wants.items ≡ Some refusal) }
    ensures store { IfErr result (λ refusal. refusal ≢ StoreFault) }
{
    let (kind, kerf) = (material.kind, material.limits.kerf());
    let step = step_for(kind, query.step);
    match planner_fault(kind, kerf, query.step, step, &stock.sizes, &stock.wants) {
        Some(fault) => Err(planner_refusal(fault)),
        None => Ok(PlanInstance {
            kind,
            kerf,
            step,
            calls: query.calls,
            stages: query.stages,
            limits: material.limits,
            parts: stock.parts,
            sizes: stock.sizes,
            wants: stock.wants,
        }),
    }
}

// What is asked of the rows that were found.
fn instance_of(
    alloc: Global,
    query: &PlansQuery,
    material: &Material,
    rows: &AskedRows,
) -> Result<PlanInstance, Refusal>
    requires remnant { query.now.remnant ≤ UNIT_COST }
    requires stages { IsStageLimit query.now.stages }
    requires parts { length rows.now.parts.items ≤ MAX_PARTS }
    requires buy { length query.now.buy ≤ MAX_BOUGHT_SIZES }
    ensures ok { IfOk result (queries.IsInstanceBy query.now material.now rows.now.demands.items rows.now.parts.items) }
    ensures err { IfErr result (λ refusal. refusal ≢ NoMemory
        → queries.material_refusal query.now material.now rows.now.demands.items rows.now.parts.items ≡ Some refusal) }
    ensures store { IfErr result (λ refusal. refusal ≢ StoreFault) }
{
    if let Some(refusal) = rows_refusal(query, material.kind, rows) {
        return Err(refusal);
    }
    match gather(alloc, query, material.kind, rows) {
        Ok(stock) => instance_on(query, material, stock),
        Err(_) => Err(Refusal::NoMemory),
    }
}

// What a query whose lists are planned asks of a material that is there.
fn instance_for<B: Book>(
    alloc: Global,
    book: &mut B,
    query: &PlansQuery,
    material: &Material,
) -> Result<PlanInstance, Refusal>
    requires remnant { query.now.remnant ≤ UNIT_COST }
    requires stages { IsStageLimit query.now.stages }
    requires lists { has_bad_list query.now ≡ false }
    ensures ok { OnContent B.Book book.old book.new (λ m. IfOk result (queries.IsInstanceOf m query.now material.now)) }
    ensures err { OnContent B.Book book.old book.new
        (λ m. IfErr result (λ refusal. refusal ≢ NoMemory → refusal ≢ StoreFault
        → queries.refusal_of m query.now material.now ≡ Some refusal)) }
    ensures keeps { Unchanged B.Book (CountsRefusal result) book.old book.new }
{
    match asked_rows(alloc, book, query, material.kind) {
        Ok(rows) => instance_of(alloc, query, material, &rows),
        Err(fault) => Err(Refusal::from(fault)),
    }
}

// What a query asks, or its refusal.
fn what_is_asked<B: Book>(
    alloc: Global,
    book: &mut B,
    query: &PlansQuery,
) -> Result<PlanInstance, Refusal>
    ensures ok { OnContent B.Book book.old book.new (λ m. IfOk result (IsInstance m query.now)) }
    ensures err { OnContent B.Book book.old book.new
        (λ m. IfErr result (λ refusal. refusal ≢ NoMemory → refusal ≢ StoreFault
        → queries.plans_refusal m query.now ≡ Some refusal)) }
    ensures keeps { Unchanged B.Book (CountsRefusal result) book.old book.new }
{
    if !is_in_range(query) {
        return Err(Refusal::BadMessage);
    }
    match book.material(query.material) {
        Err(fault) => Err(Refusal::from(fault)),
        Ok(None) => Err(Refusal::NoMaterial),
        Ok(Some(_)) if has_bad_list(query) => Err(Refusal::BadWant),
        Ok(Some(material)) => instance_for(alloc, book, query, &material),
    }
}

/// What a query asks of a book's content: it may be searched from then on, whatever becomes of the content. Refused
/// in this order: `BadMessage` for numbers out of their ranges; `NoMaterial`; `BadWant` for a list that is too long or has
/// something twice, or one of no demand; demand by demand `NoDemand`, `WrongMaterial`; part by part `NoPart`, `NotStanding`,
/// `WrongMaterial`; `BadSize`; `BadWant` where nothing is left; `BadStep` for a step that is given; `TableTooLarge`;
/// `NothingFits`. Lack of memory and a failed store may come at any point.
pub fn build_instance<B: Book>(
    alloc: Global,
    book: &mut B,
    query: &PlansQuery,
) -> Result<PlanTask, Refusal>
    ensures answer { OnContent B.Book book.old book.new (λ m. IfOk result (λ task. IsInstance m query.now (instance_in task))) }
    ensures refused { OnContent B.Book book.old book.new (λ m. IfErr result (λ refusal. AnswersPlans m query.now (Err refusal))) }
    ensures keeps { Unchanged B.Book (CountsRefusal result) book.old book.new }
{
    let instance = what_is_asked(alloc, book, query)?;
    Ok(PlanTask::new(instance))
}
