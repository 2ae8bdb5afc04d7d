//! The stock of a query: the parts with what they cost, and their sizes with those that may be bought.

ghost use Rattle.std.specs.Prelude.{◌≡◌, ◌≤◌, ◌++◌, All, IfOk, IfSome, OnOk, filter_map, length};
ghost use Rattle.std.specs.List.{list_any};
ghost use Rattle.cut_bound.specs.declared.limits.TheConstants.{MAX_BOUGHT_SIZES, MAX_PARTS};
ghost use Rattle.cut_order.specs.Stocks.{IsStock};
ghost use Rattle.cut_order.specs.declared.instance.TheConstants.{MAX_COST};
ghost use Rattle.shop_plans.specs.declared.limits.TheConstants.{UNIT_COST};
ghost use Rattle.shop_answers.specs.Planning.{planned_size};
ghost use Rattle.shop_planning.specs.Stock as spec;

use crate::instance::StockPart;
use cut_bound::StockSize;
use cut_measure::{Kind, Size};
use shop_plans::{BuySize, UNIT_COST};
use shop_records::Part;
use std::alloc::{AllocError, Global};

// The sides of a part as they are planned.
fn planned_size(kind: Kind, size: Size) -> Size
    ensures { result ≡ planned_size kind size }
{
    match kind {
        Kind::Sheet => size,
        Kind::Bar => match Size::new(Kind::Bar, size.w(), 1) {
            Some(bar) => bar,
            None => unreachable!(),
        },
    }
}

// What a part costs whose sides are these.
fn part_cost(part: &Part, size: Size, remnant: u32) -> u64
    requires { remnant ≤ UNIT_COST }
    ensures value { result ≡ spec.part_cost remnant part.now size }
    ensures most { result ≤ MAX_COST }
{
    let cells = size.cells();
    if part.is_whole() {
        cells * u64::from(UNIT_COST)
    } else {
        cells * u64::from(remnant)
    }
}

// A part of the stock.
fn stock_part(kind: Kind, remnant: u32, part: &Part, place: usize) -> StockPart
    requires { remnant ≤ UNIT_COST }
    ensures value { result ≡ spec.stock_part kind remnant place part.now }
    ensures well_formed { spec.IsStockPart kind result }
{
    let size = planned_size(kind, part.size);
    StockPart {
        name: part.name,
        size,
        cost: part_cost(part, size, remnant),
        place,
    }
}

/// The parts of the stock, in the order of the rows.
pub fn stock_parts(
    alloc: Global,
    kind: Kind,
    remnant: u32,
    found: &[Option<Part>],
) -> Result<Vec<StockPart>, AllocError>
    requires { remnant ≤ UNIT_COST }
    ensures items { IfOk result (λ parts. parts.items ≡ spec.stock_parts kind remnant found.now) }
    ensures few { IfOk result (λ parts. length parts.items ≤ length found.now) }
    ensures well_formed { IfOk result (λ parts. All (spec.IsStockPart kind) parts.items) }
{
    let mut parts = Vec::new(alloc);
    for row in found {
        if let Some(part) = row {
            let place = parts.len();
            parts.push(stock_part(kind, remnant, part, place))?;
        }
    }
    Ok(parts)
}

// Whether two parts have the same sides and cost the same.
fn are_alike(a: &StockPart, b: &StockPart) -> bool
    ensures { result ≡ spec.are_alike a.now b.now }
{
    a.size.w() == b.size.w() && a.size.h() == b.size.h() && a.cost == b.cost
}

// Whether one of the parts has the size of another part.
fn is_among(part: &StockPart, parts: &[StockPart]) -> bool
    ensures { result ≡ list_any (spec.are_alike part.now) parts.now }
{
    parts.iter().any(|other| are_alike(part, other))
}

// The size of a part, with how many of the parts have it.
fn part_size(parts: &[StockPart], part: &StockPart) -> StockSize
    requires { length parts.now ≤ MAX_PARTS }
    ensures { result ≡ spec.part_size parts.now part.now }
{
    let count = parts.iter().filter(|other| are_alike(part, other)).count();
    StockSize {
        size: part.size,
        cost: part.cost,
        limit: Some(count as u32),
    }
}

// The sizes of parts, each once, in the order in which the first part of each stands.
fn part_sizes(alloc: Global, parts: &[StockPart]) -> Result<Vec<StockSize>, AllocError>
    requires { length parts.now ≤ MAX_PARTS }
    ensures { IfOk result (λ sizes. sizes.items ≡ spec.part_sizes parts.now) }
{
    let mut sizes = Vec::new(alloc);
    for i in 0..parts.len() {
        let part = &parts[i];
        if !is_among(part, &parts[..i]) {
            sizes.push(part_size(parts, part))?;
        }
    }
    Ok(sizes)
}

// A size that may be bought, where units of the kind may have it.
fn bought_size(kind: Kind, buy: &BuySize) -> Option<StockSize>
    ensures value { result ≡ spec.bought_size kind buy.now }
    ensures well_formed { IfSome result (spec.IsStockSize kind) }
{
    let size = Size::new(kind, buy.w, buy.h)?;
    Some(StockSize {
        size,
        cost: size.cells() * u64::from(UNIT_COST),
        limit: None,
    })
}

// Appends the sizes that may be bought.
fn add_bought(sizes: &mut Vec<StockSize>, kind: Kind, buy: &[BuySize]) -> Result<(), AllocError>
    ensures items { OnOk result (sizes.new.items ≡ sizes.old.items ++ filter_map (spec.bought_size kind) buy.now) }
    ensures well_formed { All (spec.IsStockSize kind) sizes.old.items → OnOk result (All (spec.IsStockSize kind) sizes.new.items) }
{
    for one in buy {
        match bought_size(kind, one) {
            Some(size) => sizes.push(size)?,
            None => {}
        }
    }
    Ok(())
}

/// The sizes of the stock: those of the parts, and then those that may be bought.
pub fn sizes_of(
    alloc: Global,
    kind: Kind,
    parts: &[StockPart],
    buy: &[BuySize],
) -> Result<Vec<StockSize>, AllocError>
    requires parts { length parts.now ≤ MAX_PARTS }
    requires well_formed { All (spec.IsStockPart kind) parts.now }
    requires buy { length buy.now ≤ MAX_BOUGHT_SIZES }
    ensures sizes { IfOk result (λ sizes. sizes.items ≡ spec.sizes_of kind parts.now buy.now) }
    ensures stock { IfOk result (λ sizes. IsStock kind sizes.items) }
{
    let mut sizes = part_sizes(alloc, parts)?;
    add_bought(&mut sizes, kind, buy)?;
    Ok(sizes)
}

/// The step to which sides are rounded: none for a bar, which is planned to the tenth; else the one that is given, if one is.
pub fn step_for(kind: Kind, step: Option<u32>) -> Option<u32>
    ensures { result ≡ spec.step_for kind step }
{
    match kind {
        Kind::Bar => None,
        Kind::Sheet => step,
    }
}
