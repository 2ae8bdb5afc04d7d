//! The answer to a query: the plans with the parts that are cut by each, what is missing, and the prices.

ghost use Rattle.std.specs.Prelude.{◌≡◌, ◌≤◌, ◌<◌, ◌+◌, IfOk, IfSome, OnOk, drop, filter, length, map, slice_get, take};
ghost use Rattle.std.specs.List.Sorted.{IsPermutation, IsSorted};
ghost use Rattle.cut_bound.specs.declared.limits.TheConstants.{MAX_BOUGHT_SIZES, MAX_PARTS, MAX_ORDER_UNITS};
ghost use Rattle.cut_order.specs.Places.{unit_count};
ghost use Rattle.shop_planning.specs.Answers.{IsPlanOf, IsPlansReply, IsPlansText};
ghost use Rattle.shop_planning.specs.Answers as answers;
ghost use Rattle.shop_planning.specs.Entries as entries;

use crate::instance::{PlanInstance, StockPart};
use crate::rests::largest_rest;
use crate::shares::shares_of;
use cut_bound::{MAX_PARTS, PlannedUnit, Price, StockSize, units_at};
use cut_order::OrderPlan;
use cut_plan::Want;
use shop_answers::tree_text;
use shop_plans::{DemandPrice, MissingPieces, NameList, PlansReply, ReportedPlan, plans_text};
use shop_records::{RowList, Text};
use std::alloc::{AllocError, Global};

/// A plan as it is reported, and its place among the others: that in the stock's list of the part that stands there first, or
/// after all parts that of its size.
#[derive(Drop)]
pub struct Entry {
    pub place: usize,
    pub reported: ReportedPlan,
}

// Whether a part has this size.
fn is_of(part: &StockPart, stock: &StockSize) -> bool
    ensures { result ≡ entries.is_of stock.now part.now }
{
    part.size.w() == stock.size.w() && part.size.h() == stock.size.h() && part.cost == stock.cost
}

// The parts by rising name.
fn ranked(alloc: Global, parts: &[StockPart]) -> Result<Vec<StockPart>, AllocError>
    ensures { IfOk result (λ ranked. entries.IsRanked parts.now ranked.items) }
{
    let mut ranked = Vec::from_slice(alloc, parts)?;
    ranked.sort_by_key(|part| (part.name.act(), part.name.node()))?;
    Ok(ranked)
}

// The parts of a size.
fn parts_of(
    alloc: Global,
    ranked: &[StockPart],
    stock: &StockSize,
) -> Result<Vec<StockPart>, AllocError>
    ensures { IfOk result (λ parts. parts.items ≡ filter (entries.is_of stock.now) ranked.now) }
{
    ranked
        .iter()
        .filter(|part| is_of(part, stock))
        .copied()
        .collect(alloc)
}

// So many parts, after those that were taken before.
fn taken(parts: &[StockPart], before: u128, times: u32) -> &[StockPart]
    ensures { result.now ≡ take times (drop before parts.now) }
{
    let left = &parts[before.min(parts.len() as u128) as usize..];
    &left[..(times as usize).min(left.len())]
}

// The names of parts.
fn names_of(alloc: Global, parts: &[StockPart]) -> Result<NameList, AllocError>
    ensures { IfOk result (λ names. names ≡ map (λ p. p.name) parts.now) }
{
    let mut names = NameList::new(alloc);
    for part in parts {
        names.push(part.name)?;
    }
    Ok(names)
}

// The first place of parts in the stock's list.
fn first_place(parts: &[StockPart]) -> usize
    ensures { result ≡ entries.first_place parts.now }
{
    let mut first = MAX_PARTS as usize;
    for part in parts {
        first = first.min(part.place);
    }
    first
}

// A plan by which parts of a size are cut.
fn part_entry(
    alloc: Global,
    ranked: &[StockPart],
    stock: &StockSize,
    before: u128,
    unit: &PlannedUnit,
) -> Result<Entry, AllocError>
    ensures { IfOk result (λ entry. entry ≡ entries.part_entry ranked.now before unit.now stock.now) }
{
    let parts = parts_of(alloc, ranked, stock)?;
    let parts = taken(&parts, before, unit.times);
    let names = names_of(alloc, parts)?;
    let tree = tree_text(alloc, &unit.plan)?;
    Ok(Entry {
        place: first_place(parts),
        reported: ReportedPlan {
            buy: 0,
            h: stock.size.h(),
            parts: names,
            tree,
            w: stock.size.w(),
        },
    })
}

// A plan by which bought units are cut.
fn bought_entry(alloc: Global, stock: &StockSize, unit: &PlannedUnit) -> Result<Entry, AllocError>
    requires { unit.now.place ≤ MAX_PARTS + MAX_BOUGHT_SIZES }
    ensures { IfOk result (λ entry. entry ≡ entries.bought_entry unit.now stock.now) }
{
    let tree = tree_text(alloc, &unit.plan)?;
    Ok(Entry {
        place: MAX_PARTS as usize + unit.place,
        reported: ReportedPlan {
            buy: unit.times,
            h: stock.size.h(),
            parts: NameList::new(alloc),
            tree,
            w: stock.size.w(),
        },
    })
}

// A plan as it is reported.
fn entry_of(
    alloc: Global,
    ranked: &[StockPart],
    stock: &StockSize,
    before: u128,
    unit: &PlannedUnit,
) -> Result<Entry, AllocError>
    requires { unit.now.place ≤ MAX_PARTS + MAX_BOUGHT_SIZES }
    ensures { IfOk result (λ entry. entry ≡ entries.entry_of ranked.now before unit.now stock.now) }
{
    match stock.limit {
        Some(_) => part_entry(alloc, ranked, stock, before, unit),
        None => bought_entry(alloc, stock, unit),
    }
}

// The size at a place.
fn size_at(sizes: &[StockSize], place: usize) -> Option<StockSize>
    ensures value { result ≡ slice_get sizes.now place }
    ensures within { IfSome result (λ _. place < length sizes.now) }
{
    sizes.get(place).copied()
}

// The plans of units of these sizes.
fn entries_of(
    alloc: Global,
    sizes: &[StockSize],
    ranked: &[StockPart],
    shares: &[PlannedUnit],
) -> Result<Vec<Entry>, AllocError>
    requires { length sizes.now ≤ MAX_PARTS + MAX_BOUGHT_SIZES }
    ensures { IfOk result (λ list. list.items ≡ entries.entries_of sizes.now ranked.now shares.now) }
{
    let mut list = Vec::new(alloc);
    for i in 0..shares.len() {
        let unit = &shares[i];
        match size_at(sizes, unit.place) {
            Some(stock) => {
                let before = units_at(&shares[..i], unit.place);
                let entry = entry_of(alloc, ranked, &stock, before, unit)?;
                list.push(entry)?;
            }
            None => {}
        }
    }
    Ok(list)
}

// Puts plans in the order in which they are reported.
fn sort_entries(list: &mut Vec<Entry>) -> Result<(), AllocError>
    ensures { OnOk result (IsPermutation list.old.items list.new.items × IsSorted entries.in_order list.new.items) }
{
    list.sort_by(|a, b| {
        a.place
            .cmp(&b.place)
            .then(a.reported.tree.as_str().cmp(b.reported.tree.as_str()))
    })?;
    Ok(())
}

// The plans alone.
fn reported_entries(alloc: Global, list: Vec<Entry>) -> Result<Vec<ReportedPlan>, AllocError>
    ensures { IfOk result (λ plans. plans.items ≡ map (λ e. e.reported) list.items) }
{
    let mut plans = Vec::new(alloc);
    for entry in list {
        plans.push(entry.reported)?;
    }
    Ok(plans)
}

// The plans with the parts that are cut by each.
fn reported_plans(
    alloc: Global,
    instance: &PlanInstance,
    units: &[PlannedUnit],
) -> Result<Vec<ReportedPlan>, AllocError>
    requires { unit_count units.now ≤ MAX_ORDER_UNITS }
    ensures { IfOk result (λ plans. entries.AreReportedPlans instance.now units.now plans.items) }
{
    let ranked = ranked(alloc, &instance.parts)?;
    let shares = shares_of(alloc, units)?;
    let mut list = entries_of(alloc, &instance.sizes, &ranked, &shares)?;
    sort_entries(&mut list)?;
    let plans = reported_entries(alloc, list)?;
    Ok(plans)
}

// How many pieces are missing of the wants of which any is.
fn missing_rows(
    alloc: Global,
    wants: &[Want],
    missing: &[u32],
) -> Result<Vec<MissingPieces>, AllocError>
    ensures { IfOk result (λ rows. rows.items ≡ answers.missing_rows wants.now missing.now) }
{
    let mut rows = Vec::new(alloc);
    for i in 0..wants.len().min(missing.len()) {
        let want = &wants[i];
        let pieces = missing[i];
        if pieces != 0 {
            rows.push(MissingPieces {
                demand: want.demand,
                pieces,
            })?;
        }
    }
    Ok(rows)
}

// Copies of rows.
fn listed(alloc: Global, rows: &[MissingPieces]) -> Result<RowList<MissingPieces>, AllocError>
    ensures { IfOk result (λ list. list ≡ rows.now) }
{
    let mut list = RowList::new(alloc);
    for row in rows {
        list.push(*row)?;
    }
    Ok(list)
}

// What is missing, by rising demand.
fn reported_missing(
    alloc: Global,
    wants: &[Want],
    missing: &[u32],
) -> Result<RowList<MissingPieces>, AllocError>
    ensures { IfOk result (answers.AreReportedMissing wants.now missing.now) }
{
    let mut rows = missing_rows(alloc, wants, missing)?;
    rows.sort_by_key(|row| row.demand)?;
    let reported = listed(alloc, &rows)?;
    Ok(reported)
}

// The prices of the bound.
fn reported_prices(alloc: Global, prices: &[Price]) -> Result<RowList<DemandPrice>, AllocError>
    ensures { IfOk result (λ reported. reported ≡ map answers.reported_price prices.now) }
{
    let mut reported = RowList::new(alloc);
    for price in prices {
        reported.push(DemandPrice {
            demand: price.demand,
            worth: price.worth,
        })?;
    }
    Ok(reported)
}

// The answer that reports a plan.
fn reported_reply(
    alloc: Global,
    instance: &PlanInstance,
    plan: &OrderPlan,
) -> Result<PlansReply, AllocError>
    requires { IsPlanOf instance.now plan.now }
    ensures { IfOk result (IsPlansReply instance.now) }
{
    let missing = reported_missing(alloc, &instance.wants, &plan.missing)?;
    let prices = reported_prices(alloc, &plan.prices)?;
    let plans = reported_plans(alloc, instance, &plan.units)?;
    let rest = largest_rest(alloc, instance.limits, &plan.units)?;
    Ok(PlansReply {
        bound: plan.bound,
        cost: plan.cost,
        missing,
        plans,
        prices,
        proved: plan.proved,
        rest,
        short: plan.short,
        step: instance.step.unwrap_or(0),
    })
}

/// The text of the answer that reports a plan.
pub fn reported_text(
    alloc: Global,
    instance: &PlanInstance,
    plan: &OrderPlan,
) -> Result<Text, AllocError>
    requires { IsPlanOf instance.now plan.now }
    ensures { IfOk result (IsPlansText instance.now) }
{
    let reply = reported_reply(alloc, instance, plan)?;
    let text = plans_text(alloc, &reply)?;
    Ok(text)
}
