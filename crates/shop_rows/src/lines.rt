//! The lines of an order: between which numbers its demands lie, and how they are reported by rising line.

ghost use Rattle.std.specs.Prelude.{◌≡◌, ◌++◌, ◌∷◌, [], ◌≤◌, ℕ, All, List, IfOk, IfSome, IsSome, IsTrue, None, Some, false, filter, nat_le, not, is_some};
ghost use Rattle.std.specs.Ordering.{nat_cmp};
ghost use Rattle.shop_records.specs.declared.records.Demand.{Demand as DemandOf};
ghost use Rattle.shop_rows.specs.Keys.{demand_key};
ghost use Rattle.shop_rows.specs.Lines.{is_within, line_key, AreByLine, HaveLines};
ghost use Rattle.shop_rows.specs.Rows.{rise, row_at, IsPut};

use crate::rows::{KeyedRow, put};
use cut_measure::Code;
use shop_records::{Demand, DemandList};
use std::alloc::{AllocError, Global};
use std::marker::Model;

/// Numbers of demands, from the first to the last.
#[derive(Clone, Copy, Debug)]
pub struct Span {
    pub first: u32,
    pub last: u32,
}

impl Span {
    ghost use Rattle.std.specs.Prelude.{◌≡◌, All, IsTrue};
    ghost use Rattle.shop_rows.specs.Lines.{is_within};

    /// From the least of these demands' numbers to the greatest.
    pub fn of(rows: &[Demand]) -> Span
        ensures { All (λ row. IsTrue (is_within result row.number)) rows.now }
    {
        let mut span = Span {
            first: u32::MAX,
            last: 0,
        };
        for row in rows {
            span = span.with(row.number);
        }
        span
    }

    /// From this number on, and up to it.
    pub fn with(self, number: u32) -> Span
        ensures own { IsTrue (is_within result number) }
        ensures all { (other : ℕ) → IsTrue (is_within self other) → IsTrue (is_within result other) }
    {
        Span {
            first: self.first.min(number),
            last: self.last.max(number),
        }
    }

    /// Whether a number is one of these.
    pub fn has(self, number: u32) -> bool
        ensures { result ≡ is_within self number }
    {
        self.first <= number && number <= self.last
    }
}

// The demands with this number or a greater one.
fn from_number(demands: &[Demand], first: u32) -> &[Demand]
    requires { IsTrue (rise demand_key nat_cmp demands.now) }
    ensures rows { result.now ≡ filter (λ demand. nat_le first demand.number) demands.now }
    ensures rising { IsTrue (rise demand_key nat_cmp result.now) }
{
    let from = demands.partition_point(|demand| demand.number < first);
    &demands[from..]
}

// The demands with this number or a smaller one.
fn upto_number(demands: &[Demand], last: u32) -> &[Demand]
    requires { IsTrue (rise demand_key nat_cmp demands.now) }
    ensures rows { result.now ≡ filter (λ demand. nat_le demand.number last) demands.now }
    ensures rising { IsTrue (rise demand_key nat_cmp result.now) }
{
    let to = demands.partition_point(|demand| demand.number <= last);
    &demands[..to]
}

/// The demands whose numbers are within a span.
pub fn between(demands: &[Demand], span: Span) -> &[Demand]
    requires { IsTrue (rise demand_key nat_cmp demands.now) }
    ensures rows { result.now ≡ filter (λ demand. is_within span demand.number) demands.now }
    ensures rising { IsTrue (rise demand_key nat_cmp result.now) }
{
    upto_number(from_number(demands, span.first), span.last)
}

/// A demand among the lines of an order.
#[derive(Clone, Copy)]
struct Line {
    demand: Demand,
}

impl Model for Line {
    ghost use Rattle.shop_records.specs.contracts.records.Demand as demand_type;
    ghost use Rattle.shop_records.specs.declared.records.Demand.{Demand as DemandOf};

    ghost Value = { DemandOf };

    ghost coded = { demand_type.the_row.coded };

    ghost view = { λ line. line.demand };

    ghost inverse = { λ demand. record { demand = demand } };
}

impl KeyedRow for Line {
    ghost use Rattle.shop_rows.specs.Lines.{line_key};

    type Key = u32;

    ghost key_of = { line_key };

    fn key(&self) -> u32 {
        self.demand.line
    }
}

// Puts a demand among lines, and returns whether its line was free.
fn put_line(lines: &mut Vec<Line>, demand: &Demand) -> Result<bool, AllocError>
    requires { IsTrue (rise line_key nat_cmp lines.old.items) }
    ensures rising { IsTrue (rise line_key nat_cmp lines.new.items) }
    ensures put { IfOk result (λ _. IsPut line_key nat_cmp demand.now lines.old.items lines.new.items) }
    ensures free { IfOk result (λ free. free
        ≡ not (is_some (row_at line_key nat_cmp demand.now.line lines.old.items))) }
{
    lines.reserve(1)?;
    let other = put(lines, Line { demand: *demand });
    Ok(other.is_none())
}

// Puts a demand among the lines of an order where it is of that one, and returns whether its line was free.
fn add_line(lines: &mut Vec<Line>, demand: &Demand, order: &Code) -> Result<bool, AllocError>
    requires { IsTrue (rise line_key nat_cmp lines.old.items) }
    ensures rising { IsTrue (rise line_key nat_cmp lines.new.items) }
    ensures added { IfOk result (λ free. IsTrue free → (rows : List DemandOf)
        → AreByLine order.now rows lines.old.items
        → AreByLine order.now (rows ++ demand.now ∷ []) lines.new.items) }
    ensures taken { IfOk result (λ free. free ≡ false → (demand.now.order ≡ order.now)
        × IsSome (row_at line_key nat_cmp demand.now.line lines.old.items)) }
{
    if !demand.order.is(order) {
        return Ok(true);
    }
    let free = put_line(lines, demand)?;
    Ok(free)
}

// The demands of lines.
fn demands_of(alloc: Global, lines: &[Line]) -> Result<DemandList, AllocError>
    ensures { IfOk result (λ list. list ≡ lines.now) }
{
    let mut list = DemandList::new(alloc);
    for line in lines {
        list.push(line.demand)?;
    }
    Ok(list)
}

/// The demands of an order among these, by rising line, where no two of them have the same.
pub fn by_line(
    alloc: Global,
    demands: &[Demand],
    order: Code,
) -> Result<Option<DemandList>, AllocError>
    requires { IsTrue (rise demand_key nat_cmp demands.now) }
    ensures lines { IfOk result (λ found. IfSome found (λ lines. AreByLine order demands.now lines)) }
    ensures sure { HaveLines order demands.now → IfOk result (λ found. IsSome found) }
{
    let mut lines = Vec::new(alloc);
    for demand in demands {
        if !add_line(&mut lines, demand, &order)? {
            return Ok(None);
        }
    }
    let list = demands_of(alloc, &lines)?;
    Ok(Some(list))
}
