//! What is said of an order: what is decided on it.

ghost use Rattle.std.specs.Prelude.{◌≡◌, IfOk, IsTrue};
ghost use Rattle.shop_records.specs.Messages.{is_accepted};
ghost use Rattle.shop_machine.specs.Decisions.{Decides};
ghost use Rattle.shop_machine.specs.Noting.{note_refusal, note_change};

use crate::decisions::no_change;
use cut_measure::Code;
use shop_records::{Change, OrderNote, Refusal, Reply, Text, is_note};
use std::alloc::Global;

/// Says of an order on which day it is due and a text, from whether the order is known. Refused `NoOrder`, then `BadNote` for a
/// day that there isn't, or a text that is too long or has a control character.
pub fn decide_note(
    alloc: Global,
    known: bool,
    order: Code,
    due: u32,
    text: Text,
) -> Result<Change, Refusal>
    ensures decision { Decides (note_refusal known due text)
        (λ change. change ≡ note_change order due text) result }
    ensures reported { IfOk result (λ change. IsTrue (is_accepted change.reply)) }
{
    if !known {
        return Err(Refusal::NoOrder);
    }
    if !is_note(due, text.as_str()) {
        return Err(Refusal::BadNote);
    }
    Ok(Change {
        note: Some(OrderNote { order, due, text }),
        ..no_change(alloc, Reply::Note { order })
    })
}
