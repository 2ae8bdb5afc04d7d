//! A change written as one transaction: as a whole, or not at all.

ghost use Rattle.std.specs.Prelude.{◌≡◌, false, OnOk, OnErr};
ghost use Rattle.sqlite.specs.State.{HasCleanDisk, Survives};
ghost use Rattle.sqlite.specs.Held.{state};
ghost use Rattle.shop_records.specs.Content.{Content, changed};
ghost use Rattle.shop_records.specs.WellFormed.{Fits};
ghost use Rattle.shop_statements.specs.Layout.{HasShopTables};
ghost use Rattle.shop_tables.specs.Held.{HoldsContent, StandsFor, LeavesOnly, LeavesOthers};

use crate::changing::write_change;
use shop_records::Change;
use shop_statements::TableFault;
use sqlite::{Alter, Connection};
use std::alloc::Global;

/// Makes a change that fits the content in one transaction: as a whole, or not at all. After an `Err` the content is what
/// it was, whatever the change. Tables of others stay as they were, whatever the content and the change.
pub fn commit_change<S: Alter>(
    alloc: Global,
    conn: &mut Connection<S>,
    change: &Change,
) -> Result<(), TableFault>
    requires { conn.old.in_transaction ≡ false }
    ensures mode { conn.new.in_transaction ≡ false }
    ensures ok { (m : Content) → HoldsContent (state S.Store conn.old) m → Fits m change.now
        → OnOk result (HoldsContent (state S.Store conn.new) (changed m change.now)) }
    ensures err { (m : Content) → HoldsContent (state S.Store conn.old) m
        → OnErr result (HoldsContent (state S.Store conn.new) m) }
    ensures crash { (m : Content) → HoldsContent (state S.Store conn.old) m → Fits m change.now
        → Survives (state S.Store conn.old) (state S.Store conn.new)
        (λ db. StandsFor db (changed m change.now)) }
    ensures lasts { (m : Content) → HoldsContent (state S.Store conn.old) m → Fits m change.now
        → OnOk result (LeavesOnly (state S.Store conn.new) (changed m change.now)) }
    ensures others { HasShopTables conn.old.schema
        → LeavesOthers (state S.Store conn.old) (state S.Store conn.new) }
    ensures earlier { HasCleanDisk (state S.Store conn.new)
        → HasCleanDisk (state S.Store conn.old) }
{
    let mut tx = conn.transaction();
    write_change(alloc, &mut tx, change)?;
    tx.commit()?;
    Ok(())
}
