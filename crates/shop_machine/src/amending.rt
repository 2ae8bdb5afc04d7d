//! A demand is amended: what is decided on how many of its pieces are wanted from now on.

ghost use Rattle.std.specs.Prelude.{◌≡◌, IfOk, IsTrue, MatchOption};
ghost use Rattle.shop_records.specs.Messages.{is_accepted};
ghost use Rattle.shop_machine.specs.Decisions.{Decides};
ghost use Rattle.shop_machine.specs.Amending.{amend_refusal, amend_change};

use crate::decisions::no_change;
use crate::recounts::wide;
use cut_measure::MAX_COUNT;
use shop_records::{Change, Demand, DemandList, Refusal, Reply};
use std::alloc::{AllocError, Global};

// The change of a demand of which so many pieces are wanted.
fn amended(alloc: Global, demand: Demand, wanted: u32) -> Result<Change, AllocError>
    ensures change { IfOk result (λ change. change ≡ amend_change demand wanted) }
    ensures reported { IfOk result (λ change. IsTrue (is_accepted change.reply)) }
{
    let mut demands = DemandList::new(alloc);
    demands.push(Demand { wanted, ..demand })?;
    let reply = Reply::Amend {
        demand: demand.number,
        wanted,
    };
    Ok(Change {
        demands,
        ..no_change(alloc, reply)
    })
}

/// Says how many pieces of a demand are wanted from now on, from its row. Refused `NoDemand`, then `BadLine` for more than
/// 1000000, then `TooMany` for fewer than are reserved and made.
pub fn decide_amend(alloc: Global, demand: Option<Demand>, wanted: u32) -> Result<Change, Refusal>
    ensures decision { Decides (amend_refusal demand wanted)
        (λ change. MatchOption demand ⊥ (λ row. change ≡ amend_change row wanted)) result }
    ensures reported { IfOk result (λ change. IsTrue (is_accepted change.reply)) }
{
    let Some(demand) = demand else {
        return Err(Refusal::NoDemand);
    };
    if wanted > MAX_COUNT {
        return Err(Refusal::BadLine);
    }
    if wide(wanted) < wide(demand.reserved) + wide(demand.made) {
        return Err(Refusal::TooMany);
    }
    let change = amended(alloc, demand, wanted)?;
    Ok(change)
}
