//! Queries for a plan of a part and for the least number of units: the wants that are left, and the answer.

ghost use Rattle.std.specs.Prelude.{filter_map, ◌≡◌, ◌≢◌, ◌≤◌, IfOk, IfErr, IfNone, ℕ, List, Option, None, Some, All, not, Ok, Err};
ghost use Rattle.cut_measure.specs.declared.ranges.TheConstants.{MAX_KERF};
ghost use Rattle.cut_measure.specs.declared.sizes.Kind.TheVariants.{Bar, Sheet};
ghost use Rattle.cut_plan.specs.Proposals.{AreDemands};
ghost use Rattle.cut_tree.specs.Spelling.{text_of};
ghost use Rattle.shop_records.specs.declared.records.Demand.{Demand as DemandOf};
ghost use Rattle.shop_records.specs.declared.refusals.Refusal.TheVariants.{NoMemory, StoreFault};
ghost use Rattle.shop_records.specs.declared.messages.Reply.TheVariants.{Refused};
ghost use Rattle.shop_answers.specs.Planning as planning;
ghost use Rattle.shop_answers.specs.Planning.{AreAsked, AreFound, HasNumber, IsPlanAnswer, IsBoundAnswer, IsPlanned, IsBounded, ReportsReply, are_bad_numbers, numbers_in, planned_size, numbers_refusal};

use cut_measure::{Code, Kind, MAX_NUMBERS, RowList, Size};
use cut_plan::{MAX_WANTS, PlanFault, Want, least_units, plan_bar, plan_sheet};
use cut_tree::Plan;
use shop_records::{Demand, Material, Part, Refusal, Reply, Text};
use std::alloc::{AllocError, Global};
use std::cmp::Ordering;

/// A demand that a query names, with its row.
#[derive(Clone, Copy, Debug)]
pub struct FoundDemand {
    pub number: u32,
    pub demand: Option<Demand>,
}

/// Demands of a query, in order.
pub type FoundList = RowList<FoundDemand>;

fn stands_twice(numbers: &[u32]) -> bool
    ensures { result ≡ planning.stands_twice numbers.now }
{
    let [number, more @ ..] = numbers else {
        return false;
    };
    more.contains(number) || stands_twice(more)
}

/// Whether these numbers of demands are a list that is planned: 1 to 40 of them, each once.
pub fn can_be_planned(numbers: &[u32]) -> bool
    ensures { result ≡ not (are_bad_numbers numbers.now) }
{
    !(numbers.is_empty() || numbers.len() > MAX_WANTS || stands_twice(numbers))
}

fn demand_refusal(material: &Code, found: &FoundDemand) -> Option<Refusal>
    ensures refusal { result ≡ planning.demand_refusal material.now found.now.number
        found.now.demand }
    ensures number { IfNone result (HasNumber found.now) }
    ensures store { result ≢ Some StoreFault }
{
    match &found.demand {
        None => Some(Refusal::NoDemand),
        Some(demand) => {
            if found.number < 1 || found.number > MAX_NUMBERS {
                Some(Refusal::NoDemand)
            } else if demand.material.order(material) != Ordering::Equal {
                Some(Refusal::WrongMaterial)
            } else {
                None
            }
        }
    }
}

/// Why demands aren't planned on this material, if they aren't: the first refusal of 42 and 61, demand by demand.
pub fn demands_refusal(material: &Code, found: &[FoundDemand]) -> Option<Refusal>
    ensures found { result ≡ planning.found_refusal material.now found.now }
    ensures refusal { (at : ℕ → Option DemandOf) → AreFound at found.now
        → result ≡ planning.demands_refusal at material.now (numbers_in found.now) }
    ensures numbers { IfNone result (All HasNumber found.now) }
    ensures store { result ≢ Some StoreFault }
{
    let [first, more @ ..] = found else {
        return None;
    };
    match demand_refusal(material, first) {
        Some(refusal) => Some(refusal),
        None => demands_refusal(material, more),
    }
}

/// How many pieces of a demand are neither reserved nor made.
pub fn left_of(demand: &Demand) -> u32
    ensures { result ≡ planning.left_of demand.now }
{
    demand
        .wanted
        .saturating_sub(demand.reserved)
        .saturating_sub(demand.made)
}

// What is left of a demand, if anything is.
fn want_of(found: &FoundDemand) -> Option<Want>
    ensures { result ≡ planning.want_of found.now.number found.now.demand }
{
    let demand = found.demand?;
    let left = left_of(&demand);
    if left == 0 {
        return None;
    }
    Some(Want {
        demand: found.number,
        size: demand.size,
        may_turn: demand.may_turn,
        left,
        worth: demand.worth,
    })
}

/// The wants for demands of which something is left, in their order. An Err is lack of memory.
pub fn wants_of(alloc: Global, found: &[FoundDemand]) -> Result<Vec<Want>, AllocError>
    requires { All HasNumber found.now }
    ensures wants { IfOk result
        (λ wants. wants.items ≡ planning.found_wants found.now) }
    ensures demands { IfOk result (λ wants. AreDemands wants.items) }
{
    found.iter().filter_map(want_of).collect(alloc)
}

// The wants for the demands of a query on a material, or why they aren't planned.
fn asked_wants(
    alloc: Global,
    material: &Code,
    demands: &Option<FoundList>,
) -> Result<Vec<Want>, Refusal>
    ensures ok { IfOk result (λ wants. (at : ℕ → Option DemandOf) (numbers : List ℕ)
        → AreAsked at numbers demands.now
        → (numbers_refusal at material.now numbers ≡ None)
        × (wants.items ≡ planning.wants_of at numbers)) }
    ensures err { IfErr result
        (λ refusal. refusal ≢ NoMemory → (at : ℕ → Option DemandOf) (numbers : List ℕ)
        → AreAsked at numbers demands.now
        → numbers_refusal at material.now numbers ≡ Some refusal) }
    ensures demands { IfOk result (λ wants. AreDemands wants.items) }
    ensures store { IfErr result (λ refusal. refusal ≢ StoreFault) }
{
    let Some(found) = demands else {
        return Err(Refusal::BadWant);
    };
    if let Some(refusal) = demands_refusal(material, found.as_slice()) {
        return Err(refusal);
    }
    match wants_of(alloc, found.as_slice()) {
        Ok(wants) => Ok(wants),
        Err(_) => Err(Refusal::NoMemory),
    }
}

/// The text of a plan's tree. An Err is lack of memory.
pub fn tree_text(alloc: Global, plan: &Plan) -> Result<Text, AllocError>
    ensures { IfOk result (λ text. text ≡ text_of plan.now.tree) }
{
    let mut text = String::new(alloc);
    plan.write(&mut text)?;
    Ok(Text::of(text))
}

/// The refusal that reports a planner's fault.
pub fn planner_refusal(fault: PlanFault) -> Refusal
    ensures value { result ≡ planning.planner_refusal fault }
    ensures store { result ≢ StoreFault }
{
    match fault {
        PlanFault::BadWant => Refusal::BadWant,
        PlanFault::BadStep => Refusal::BadStep,
        PlanFault::TableTooLarge => Refusal::TableTooLarge,
        PlanFault::NothingFits => Refusal::NothingFits,
        PlanFault::NoMemory => Refusal::NoMemory,
    }
}

// A plan of a bar of this length.
fn bar_reply(
    alloc: Global,
    size: Size,
    kerf: u32,
    step: u32,
    wants: &[Want],
) -> Result<Reply, Refusal>
    requires kerf { kerf ≤ MAX_KERF }
    requires demands { AreDemands wants.now }
    ensures reported { ReportsReply (IsPlanned Bar (planned_size Bar size) kerf step wants.now) result }
    ensures store { planning.SparesStore result }
{
    let Some(bar) = Size::new(Kind::Bar, size.w(), 1) else {
        unreachable!()
    };
    let proposal = match plan_bar(alloc, bar, kerf, wants) {
        Ok(proposal) => proposal,
        Err(fault) => return Err(planner_refusal(fault)),
    };
    proposal.plan.see();
    let Ok(tree) = tree_text(alloc, &proposal.plan) else {
        return Err(Refusal::NoMemory);
    };
    Ok(Reply::Plan {
        ceiling: proposal.worth,
        dropped: 0,
        tree,
        worth: proposal.worth,
    })
}

// A plan of a sheet.
fn sheet_reply(
    alloc: Global,
    size: Size,
    kerf: u32,
    step: u32,
    wants: &[Want],
) -> Result<Reply, Refusal>
    requires kerf { kerf ≤ MAX_KERF }
    requires demands { AreDemands wants.now }
    ensures reported { ReportsReply (IsPlanned Sheet size kerf step wants.now) result }
    ensures store { planning.SparesStore result }
{
    let proposal = match plan_sheet(alloc, size, kerf, step, wants) {
        Ok(proposal) => proposal,
        Err(fault) => return Err(planner_refusal(fault)),
    };
    proposal.plan.see();
    let Ok(tree) = tree_text(alloc, &proposal.plan) else {
        return Err(Refusal::NoMemory);
    };
    Ok(Reply::Plan {
        ceiling: proposal.ceiling,
        dropped: proposal.dropped,
        tree,
        worth: proposal.worth,
    })
}

// What the planner of the material's kind answers.
fn planned(
    alloc: Global,
    material: &Material,
    size: Size,
    step: u32,
    wants: &[Want],
) -> Result<Reply, Refusal>
    requires { AreDemands wants.now }
    ensures reported { ReportsReply (IsPlanned material.now.kind
        (planned_size material.now.kind size) material.now.limits.kerf step wants.now) result }
    ensures store { planning.SparesStore result }
{
    let kerf = material.limits.kerf();
    match material.kind {
        Kind::Bar => bar_reply(alloc, size, kerf, step, wants),
        Kind::Sheet => sheet_reply(alloc, size, kerf, step, wants),
    }
}

fn plan_reported(
    alloc: Global,
    part: Option<Part>,
    material: Option<Material>,
    demands: &Option<FoundList>,
    step: u32,
) -> Result<Reply, Refusal>
    ensures reported { (at : ℕ → Option DemandOf) (numbers : List ℕ) → AreAsked at numbers demands.now
        → ReportsReply (IsPlanAnswer part material at numbers step) result }
    ensures store { planning.SparesStore result }
{
    let Some(part) = part else {
        return Err(Refusal::NoPart);
    };
    if !part.state.is_free() {
        return Err(Refusal::NotStanding);
    }
    let Some(material) = material else {
        return Err(Refusal::NoMaterial);
    };
    match asked_wants(alloc, &part.material, demands) {
        Ok(wants) => planned(alloc, &material, part.size, step, &wants),
        Err(refusal) => Err(refusal),
    }
}

// The least number of units for wants.
fn bounded(
    alloc: Global,
    material: &Material,
    size: Size,
    step: u32,
    wants: &[Want],
) -> Result<Reply, Refusal>
    requires { material.now.kind ≡ Bar → size.h ≡ 1 }
    ensures reported { ReportsReply (IsBounded material.now.kind size material.now.limits.kerf step wants.now)
        result }
    ensures store { planning.SparesStore result }
{
    match least_units(
        alloc,
        material.kind,
        size,
        material.limits.kerf(),
        step,
        wants,
    ) {
        Ok(bound) => Ok(Reply::Bound {
            best: bound.best,
            units: bound.units,
        }),
        Err(fault) => Err(planner_refusal(fault)),
    }
}

fn bound_reported(
    alloc: Global,
    code: Code,
    material: Option<Material>,
    w: u32,
    h: u32,
    demands: &Option<FoundList>,
    step: u32,
) -> Result<Reply, Refusal>
    ensures reported { (at : ℕ → Option DemandOf) (numbers : List ℕ) → AreAsked at numbers demands.now
        → ReportsReply (IsBoundAnswer material code (record { w = w; h = h }) at numbers step) result }
    ensures store { planning.SparesStore result }
{
    let Some(material) = material else {
        return Err(Refusal::NoMaterial);
    };
    let Some(size) = Size::new(material.kind, w, h) else {
        return Err(Refusal::BadSize);
    };
    match asked_wants(alloc, &code, demands) {
        Ok(wants) => bounded(alloc, &material, size, step, &wants),
        Err(refusal) => Err(refusal),
    }
}

/// The answer to a query for a plan of a part, from the rows of the part and its material, and the demands of the query
/// with their rows, or none where they are no list of 1 to 40 numbers, each once. What is left of a demand is what is
/// neither reserved nor made; demands of which nothing is left are passed over. A bar is planned by its length; sides of a
/// sheet are counted in steps. Refused in this order: `NoPart`, `NotStanding`, `BadWant` for the list, then demand by
/// demand `NoDemand`, `WrongMaterial`, then the planner's faults; `NoMaterial` after `NotStanding` where no history gives
/// the content.
pub fn answer_plan(
    alloc: Global,
    part: Option<Part>,
    material: Option<Material>,
    demands: &Option<FoundList>,
    step: u32,
) -> Reply
    ensures answer { (at : ℕ → Option DemandOf) (numbers : List ℕ) → AreAsked at numbers demands.now
        → result ≢ Refused NoMemory → IsPlanAnswer part material at numbers step result }
    ensures store { result ≢ Refused StoreFault }
{
    match plan_reported(alloc, part, material, demands, step) {
        Ok(reply) => reply,
        Err(refusal) => Reply::Refused(refusal),
    }
}

/// The answer to a query for a bound: the least number of units of a material and these sides that it takes for what is
/// left of demands, which are handed over as to `answer_plan`. Refused in this order: `NoMaterial`, `BadSize`, then as a
/// plan from the list of demands on, but never for a plan of many cuts.
pub fn answer_bound(
    alloc: Global,
    code: Code,
    material: Option<Material>,
    w: u32,
    h: u32,
    demands: &Option<FoundList>,
    step: u32,
) -> Reply
    ensures answer { (at : ℕ → Option DemandOf) (numbers : List ℕ) → AreAsked at numbers demands.now
        → result ≢ Refused NoMemory
        → IsBoundAnswer material code (record { w = w; h = h }) at numbers step result }
    ensures store { result ≢ Refused StoreFault }
{
    match bound_reported(alloc, code, material, w, h, demands, step) {
        Ok(reply) => reply,
        Err(refusal) => Reply::Refused(refusal),
    }
}
