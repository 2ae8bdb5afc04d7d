//! A standing part becomes scrap as a whole, or a unit goes back to its supplier: what is decided on it.

ghost use Rattle.std.specs.Prelude.{◌≡◌, IfOk, IsTrue, MatchOption};
ghost use Rattle.shop_records.specs.declared.messages.Reply.TheVariants as reply;
ghost use Rattle.shop_records.specs.declared.records.State.TheVariants as state;
ghost use Rattle.shop_records.specs.Messages.{is_accepted};
ghost use Rattle.shop_machine.specs.Decisions.{Decides};
ghost use Rattle.shop_machine.specs.Moving.{has_cells};
ghost use Rattle.shop_machine.specs.Retiring.{scrap_refusal, return_refusal, state_change};

use crate::decisions::no_change;
use crate::moving::{has_cells, moved_totals, tally_one};
use shop_records::{Change, MaterialTotals, Part, Refusal, Reply, State, Totals};
use std::alloc::Global;

// The change of a part that as a whole gets another state.
fn turned(alloc: Global, part: Part, state: State, totals: &Totals, reply: Reply) -> Change
    requires { IsTrue (has_cells part totals.now) }
    ensures { result ≡ state_change state part totals.now reply }
{
    let moved = Part { state, ..part };
    let incoming = tally_one(&moved);
    Change {
        moved: Some(moved),
        totals: Some(MaterialTotals {
            material: part.material,
            totals: moved_totals(&part, &incoming, totals),
        }),
        ..no_change(alloc, reply)
    }
}

/// Makes a standing part scrap, from its row and the totals of its material. Refused, in this order, `NoPart`, `NotStanding`,
/// and `StoreFault` where the totals don't hold the part.
pub fn decide_scrap(alloc: Global, part: Option<Part>, totals: Totals) -> Result<Change, Refusal>
    ensures decision { Decides (scrap_refusal part totals)
        (λ change. MatchOption part ⊥
        (λ row. change ≡ state_change state.Scrap row totals (reply.Scrap row.name))) result }
    ensures reported { IfOk result (λ change. IsTrue (is_accepted change.reply)) }
{
    let Some(part) = part else {
        return Err(Refusal::NoPart);
    };
    if !part.state.is_free() {
        return Err(Refusal::NotStanding);
    }
    if !has_cells(&part, &totals) {
        return Err(Refusal::StoreFault);
    }
    let reply = Reply::Scrap { part: part.name };
    Ok(turned(alloc, part, State::Scrap, &totals, reply))
}

/// Returns a standing unit to its supplier, from its row and the totals of its material. Refused, in this order, `NoPart`,
/// `NotStanding`, `NotWhole`, and `StoreFault` where the totals don't hold the unit.
pub fn decide_give_back(
    alloc: Global,
    part: Option<Part>,
    totals: Totals,
) -> Result<Change, Refusal>
    ensures decision { Decides (return_refusal part totals)
        (λ change. MatchOption part ⊥
        (λ row. change ≡ state_change state.Returned row totals (reply.GiveBack row.name)))
        result }
    ensures reported { IfOk result (λ change. IsTrue (is_accepted change.reply)) }
{
    let Some(part) = part else {
        return Err(Refusal::NoPart);
    };
    if !part.state.is_free() {
        return Err(Refusal::NotStanding);
    }
    if !part.is_whole() {
        return Err(Refusal::NotWhole);
    }
    if !has_cells(&part, &totals) {
        return Err(Refusal::StoreFault);
    }
    let reply = Reply::GiveBack { part: part.name };
    Ok(turned(alloc, part, State::Returned, &totals, reply))
}
