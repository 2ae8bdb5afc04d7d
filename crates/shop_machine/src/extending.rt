//! An order gets further lines: what is decided on them.

ghost use Rattle.std.specs.Prelude.{◌≡◌, ◌≤◌, IfOk, IsTrue, ℕ, List, Option, length};
ghost use Rattle.shop_files.specs.declared.limits.TheConstants.{MAX_LINES};
ghost use Rattle.shop_records.specs.declared.records.Material.{Material as MaterialOf};
ghost use Rattle.shop_records.specs.declared.records.Demand.{Demand as DemandOf};
ghost use Rattle.shop_records.specs.Content.{last_line};
ghost use Rattle.shop_records.specs.Messages.{is_accepted};
ghost use Rattle.shop_machine.specs.Decisions.{Decides};
ghost use Rattle.shop_machine.specs.Ordering.{lines_in, AreMaterialsFound};
ghost use Rattle.shop_machine.specs.Extending.{extend_refusal, extend_change};

use crate::decisions::no_change;
use crate::ordering::{FoundLine, lines_refusal, new_demands};
use cut_measure::{Code, MAX_NUMBERS};
use shop_files::MAX_LINES;
use shop_records::{Change, Refusal, Reply};
use std::alloc::Global;

/// Adds lines to an order, from whether it is known, how many lines it has and the greatest of their numbers, 0 where it has
/// none, the new lines with the rows of their materials, and the next demand's number. Refused, in this order, `NoOrder`,
/// `BadLine` for no line or over 200 of the order in all, line by line `NoMaterial` and `BadLine`, and `NumbersSpent`.
pub fn decide_extend(
    alloc: Global,
    known: bool,
    order: Code,
    has: usize,
    last: u32,
    lines: &[FoundLine],
    first: u32,
) -> Result<Change, Refusal>
    requires { 1 ≤ first }
    ensures decision { (at : List ℕ → Option MaterialOf) → (there : List DemandOf)
        → AreMaterialsFound at lines.now → length there ≡ has → last_line there ≡ last
        → Decides (extend_refusal known at there (lines_in lines.now) first)
        (λ change. change ≡ extend_change order (lines_in lines.now) first) result }
    ensures reported { IfOk result (λ change. IsTrue (is_accepted change.reply)) }
    ensures few { IfOk result (λ _. length lines.now ≤ MAX_LINES) }
{
    if !known {
        return Err(Refusal::NoOrder);
    }
    if lines.is_empty() || has > MAX_LINES || lines.len() > MAX_LINES - has {
        return Err(Refusal::BadLine);
    }
    if let Some(refusal) = lines_refusal(last, lines) {
        return Err(refusal);
    }
    let count = lines.len() as u32;
    if first > MAX_NUMBERS + 1 - count {
        return Err(Refusal::NumbersSpent);
    }
    let Ok(demands) = new_demands(alloc, order, first, lines) else {
        return Err(Refusal::NoMemory);
    };
    Ok(Change {
        extended: Some(order),
        demands,
        demand: Some(first + count - 1),
        ..no_change(
            alloc,
            Reply::Extend {
                count,
                first,
                order,
            },
        )
    })
}
