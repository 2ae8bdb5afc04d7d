//! Units are received: what is decided on a receipt, and its new parts.

ghost use Rattle.std.specs.Prelude.{◌≡◌, ◌≤◌, IfOk, IsTrue};
ghost use Rattle.cut_measure.specs.declared.ranges.TheConstants.{MAX_NUMBERS};
ghost use Rattle.shop_records.specs.Messages.{is_accepted};
ghost use Rattle.shop_machine.specs.Decisions.{Decides};
ghost use Rattle.shop_machine.specs.Receiving.{receive_refusal, receive_change, unit_parts};

use crate::decisions::no_change;
use cut_measure::{Code, MAX_NUMBERS, PartName, Size};
use shop_records::{
    Change, MAX_RECEIVED, Material, MaterialTotals, Part, PartList, Refusal, Reply, State, Totals,
};
use std::alloc::{AllocError, Global};

/// The most units of one receipt.
pub const MAX_RECEIVED_UNITS: u32 = 100;

// The parts of units that were just received.
fn received_parts(
    alloc: Global,
    material: Code,
    batch: Code,
    size: Size,
    act: u32,
    count: u32,
) -> Result<PartList, AllocError>
    requires least { 1 ≤ act }
    requires most { act ≤ MAX_NUMBERS }
    ensures { IfOk result (λ rows. rows ≡ unit_parts material batch size act count) }
{
    let mut rows = PartList::new(alloc);
    for node in 0..count {
        let name = PartName::new(act, node);
        rows.push(Part {
            name,
            material,
            batch,
            root: name,
            x: 0,
            y: 0,
            size,
            state: State::Standing,
        })?;
    }
    Ok(rows)
}

/// Receives units of one size, from the row of their material, its totals, and the next act's number. Refused, in this order,
/// `NoMaterial`, `BadSize`, `BadCount`, `TooMuch`, `NumbersSpent`, and `StoreFault` where more is in stock than was received.
pub fn decide_receive(
    alloc: Global,
    known: Option<Material>,
    totals: Totals,
    act: u32,
    material: Code,
    batch: Code,
    w: u32,
    h: u32,
    count: u32,
) -> Result<Change, Refusal>
    requires { 1 ≤ act }
    ensures decision { Decides (receive_refusal known totals act w h count)
        (λ change. change ≡ receive_change material batch
        (record { w = w; h = h }) act count totals) result }
    ensures reported { IfOk result (λ change. IsTrue (is_accepted change.reply)) }
{
    let Some(known) = known else {
        return Err(Refusal::NoMaterial);
    };
    let Some(size) = Size::new(known.kind, w, h) else {
        return Err(Refusal::BadSize);
    };
    if count < 1 || count > MAX_RECEIVED_UNITS {
        return Err(Refusal::BadCount);
    }
    let cells = size.cells() * u64::from(count);
    if totals.received > MAX_RECEIVED || cells > MAX_RECEIVED - totals.received {
        return Err(Refusal::TooMuch);
    }
    if act > MAX_NUMBERS {
        return Err(Refusal::NumbersSpent);
    }
    if totals.stock > totals.received {
        return Err(Refusal::StoreFault);
    }
    let Ok(parts) = received_parts(alloc, material, batch, size, act, count) else {
        return Err(Refusal::NoMemory);
    };
    Ok(Change {
        parts,
        totals: Some(MaterialTotals {
            material,
            totals: Totals {
                received: totals.received + cells,
                stock: totals.stock + cells,
                ..totals
            },
        }),
        act: Some(act),
        ..no_change(alloc, Reply::Receive { act, count })
    })
}
