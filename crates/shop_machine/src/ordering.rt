//! An order is added: what its lines have to be, and the demands that they become.

ghost use Rattle.std.specs.Prelude.{◌≡◌, ◌≤◌, IfOk, IsTrue, ◌+◌, ℕ, List, Option, IfNone, All, length};
ghost use Rattle.cut_measure.specs.declared.ranges.TheConstants.{MAX_NUMBERS};
ghost use Rattle.cut_measure.specs.Measures.{is_size};
ghost use Rattle.shop_files.specs.declared.limits.TheConstants.{MAX_LINES};
ghost use Rattle.cut_measure.specs.declared.sizes.Kind.TheVariants.{Sheet};
ghost use Rattle.shop_records.specs.declared.records.Material.{Material as MaterialOf};
ghost use Rattle.shop_records.specs.Messages.{is_accepted};
ghost use Rattle.shop_machine.specs.Decisions.{Decides};
ghost use Rattle.shop_machine.specs.Ordering.{is_good_line, line_refusal, lines_refusal, order_refusal, order_change, new_demand, new_demands, lines_in, AreMaterialsFound};

use crate::decisions::no_change;
use cut_measure::{Code, Kind, MAX_COUNT, MAX_NUMBERS, MAX_WORTH, Size};
use shop_files::{MAX_LINES, OrderLine};
use shop_records::{Change, Demand, DemandList, Material, Refusal, Reply};
use std::alloc::{AllocError, Global};

/// A line of an order, with the row of its material.
#[derive(Clone, Copy, Debug)]
pub struct FoundLine {
    pub line: OrderLine,
    pub material: Option<Material>,
}

fn is_good_line(last: u32, line: &OrderLine, kind: Kind) -> bool
    ensures { result ≡ is_good_line last line.now kind }
{
    let turns = match kind {
        Kind::Bar => line.turn,
        Kind::Sheet => false,
    };
    last < line.line
        && Size::new(kind, line.w, line.h).is_some()
        && 1 <= line.count
        && line.count <= MAX_COUNT
        && 1 <= line.worth
        && line.worth <= MAX_WORTH
        && !turns
}

fn line_refusal(last: u32, found: &FoundLine) -> Option<Refusal>
    ensures { result ≡ line_refusal last found.now.line found.now.material }
{
    match &found.material {
        None => Some(Refusal::NoMaterial),
        Some(material) => {
            if is_good_line(last, &found.line, material.kind) {
                None
            } else {
                Some(Refusal::BadLine)
            }
        }
    }
}

/// Why lines are refused after the line of this number, if they are.
pub(crate) fn lines_refusal(last: u32, lines: &[FoundLine]) -> Option<Refusal>
    ensures refusal { (at : List ℕ → Option MaterialOf) → AreMaterialsFound at lines.now
        → result ≡ lines_refusal at last (lines_in lines.now) }
    ensures sized { IfNone result (All (λ f. IsTrue (is_size Sheet f.line.w f.line.h)) lines.now) }
{
    let [found, more @ ..] = lines else {
        return None;
    };
    match line_refusal(last, found) {
        Some(refusal) => Some(refusal),
        None => lines_refusal(found.line.line, more),
    }
}

fn new_demand(order: Code, number: u32, line: &OrderLine) -> Demand
    requires { IsTrue (is_size Sheet line.now.w line.now.h) }
    ensures { result ≡ new_demand order number line.now }
{
    let Some(size) = Size::new(Kind::Sheet, line.w, line.h) else {
        unreachable!()
    };
    Demand {
        number,
        order,
        line: line.line,
        material: line.material,
        size,
        may_turn: line.turn,
        worth: line.worth,
        wanted: line.count,
        reserved: 0,
        made: 0,
    }
}

/// The demands of lines, numbered from `first` on.
pub(crate) fn new_demands(
    alloc: Global,
    order: Code,
    first: u32,
    lines: &[FoundLine],
) -> Result<DemandList, AllocError>
    requires range { first + length lines.now ≤ MAX_NUMBERS + 1 }
    requires sized { All (λ f. IsTrue (is_size Sheet f.line.w f.line.h)) lines.now }
    ensures { IfOk result (λ rows. rows ≡ new_demands order first (lines_in lines.now)) }
{
    let mut rows = DemandList::new(alloc);
    let mut number = first;
    for found in lines {
        rows.push(new_demand(order, number, &found.line))?;
        number += 1;
    }
    Ok(rows)
}

/// Adds an order, from whether its code is used, its lines with the rows of their materials, and the next demand's number.
/// Refused, in this order, `OrderExists`, `BadLine` for no line or over 200, line by line `NoMaterial` and `BadLine`, and
/// `NumbersSpent`.
pub fn decide_order(
    alloc: Global,
    used: bool,
    order: Code,
    lines: &[FoundLine],
    first: u32,
) -> Result<Change, Refusal>
    requires { 1 ≤ first }
    ensures decision { (at : List ℕ → Option MaterialOf) → AreMaterialsFound at lines.now
        → Decides (order_refusal used at (lines_in lines.now) first)
        (λ change. change ≡ order_change order (lines_in lines.now) first) result }
    ensures reported { IfOk result (λ change. IsTrue (is_accepted change.reply)) }
    ensures few { IfOk result (λ _. length lines.now ≤ MAX_LINES) }
{
    if used {
        return Err(Refusal::OrderExists);
    }
    if lines.is_empty() || lines.len() > MAX_LINES {
        return Err(Refusal::BadLine);
    }
    if let Some(refusal) = lines_refusal(0, lines) {
        return Err(refusal);
    }
    let count = lines.len() as u32;
    if first > MAX_NUMBERS + 1 - count {
        return Err(Refusal::NumbersSpent);
    }
    let Ok(demands) = new_demands(alloc, order, first, lines) else {
        return Err(Refusal::NoMemory);
    };
    Ok(Change {
        order: Some(order),
        demands,
        demand: Some(first + count - 1),
        ..no_change(
            alloc,
            Reply::AddOrder {
                count,
                first,
                order,
            },
        )
    })
}
