//! The change that changes nothing.

ghost use Rattle.std.specs.Prelude.{◌≡◌};
ghost use Rattle.shop_machine.specs.Decisions.{no_change};

use shop_records::{Change, DemandList, PartList, Reply};
use std::alloc::Global;

/// A change of nothing, with this reply.
pub fn no_change(alloc: Global, reply: Reply) -> Change
    ensures { result ≡ no_change reply }
{
    Change {
        material: None,
        parts: PartList::new(alloc),
        moved: None,
        undone: PartList::new(alloc),
        job: None,
        halt: None,
        begun: None,
        order: None,
        extended: None,
        note: None,
        demands: DemandList::new(alloc),
        totals: None,
        act: None,
        demand: None,
        import: None,
        kept: None,
        entry: None,
        reply,
    }
}
