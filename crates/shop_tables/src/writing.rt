//! Statements that write a row, and what writes a row that may be there, or rows one after another.

ghost use Rattle.std.specs.Prelude.{◌≡◌, ⊤, false, None, IfSome, OnOk};
ghost use Rattle.std.specs.FinMap.{get};
ghost use Rattle.sqlite.specs.Held.{state};
ghost use Rattle.shop_records.specs.Content.{material_at, part_at, has_order, demand_at, entry_at, import_at, in_state};
ghost use Rattle.shop_statements.specs.Beside.{Spares};
ghost use Rattle.shop_statements.specs.Layout.{our_trees};
ghost use Rattle.shop_statements.specs.Changes.{with_material, with_part, with_order, with_demand, with_import, with_entry, with_use, with_begun, with_note, with_last_act, with_last_demand};
ghost use Rattle.shop_statements.specs.Shown.{Books, Makes, Ran, Within};
ghost use Rattle.shop_tables.specs.Changing.{AreInTurn, IsOver, Writes, recounted, with_all, with_some};

use cut_measure::Code;
use shop_records::{Demand, Entry, ImportRow, JobBegin, Material, OrderNote, Part};
use shop_statements::{
    JobOrder, TableFault, count_demand, move_part, put_begun, put_demand, put_entry, put_import,
    put_material, put_note, put_order, put_part, put_use, set_last_act, set_last_demand,
};
use sqlite::{Alter, Transaction};

/// A statement that writes a row.
pub(crate) trait Writing<Row> {
    /// What it needs of the books.
    ghost needs: { Row → Books → Type 0 };

    /// What it makes of them.
    ghost makes: { Row → Books → Books };

    /// Runs it.
    fn write<S: Alter>(tx: &mut Transaction<'_, S>, row: &Row) -> Result<(), TableFault>
        ensures same_reference { tx.new.conn.ghost_name ≡ tx.old.conn.ghost_name }
        ensures ran { OnOk result
            (Ran (state S.Store tx.old.conn.now) (state S.Store tx.new.conn.now)) }
        ensures put { (b : Books) → needs row.now b
            → OnOk result (Makes (state S.Store tx.old.conn.now) (state S.Store tx.new.conn.now) b
            (makes row.now b)) }
        ensures others { OnOk result
            (Spares our_trees (state S.Store tx.old.conn.now) (state S.Store tx.new.conn.now)) }
        ensures within { Within (state S.Store tx.old.conn.now) (state S.Store tx.new.conn.now) };
}

/// The row is a new one.
pub(crate) struct New;

/// The row is there, in another state or with other counts.
pub(crate) struct Known;

/// The row is a new one, or takes the place of the one under its key.
pub(crate) struct Placed;

/// The number is that of the last act.
pub(crate) struct LastAct;

/// The number is that of the last demand.
pub(crate) struct LastDemand;

impl Writing<Material> for New {
    ghost needs = { λ row b. material_at b.content row.code ≡ None };

    ghost makes = { with_material };

    fn write<S: Alter>(tx: &mut Transaction<'_, S>, row: &Material) -> Result<(), TableFault> {
        put_material(tx, row)
    }
}

impl Writing<Part> for New {
    ghost needs = { λ row b. part_at b.content row.name ≡ None };

    ghost makes = { with_part };

    fn write<S: Alter>(tx: &mut Transaction<'_, S>, row: &Part) -> Result<(), TableFault> {
        put_part(tx, row)
    }
}

impl Writing<Part> for Known {
    ghost needs = { λ row b. IsOver b.content.parts row.name (in_state row.state) row };

    ghost makes = { with_part };

    fn write<S: Alter>(tx: &mut Transaction<'_, S>, row: &Part) -> Result<(), TableFault> {
        move_part(tx, row)
    }
}

impl Writing<Code> for New {
    ghost needs = { λ row b. has_order b.content row ≡ false };

    ghost makes = { with_order };

    fn write<S: Alter>(tx: &mut Transaction<'_, S>, row: &Code) -> Result<(), TableFault> {
        put_order(tx, *row)
    }
}

impl Writing<ImportRow> for New {
    ghost needs = { λ row b. import_at b.content row.order ≡ None };

    ghost makes = { with_import };

    fn write<S: Alter>(tx: &mut Transaction<'_, S>, row: &ImportRow) -> Result<(), TableFault> {
        put_import(tx, row)
    }
}

impl Writing<Demand> for New {
    ghost needs = { λ row b. demand_at b.content row.number ≡ None };

    ghost makes = { with_demand };

    fn write<S: Alter>(tx: &mut Transaction<'_, S>, row: &Demand) -> Result<(), TableFault> {
        put_demand(tx, row)
    }
}

impl Writing<Demand> for Known {
    ghost needs = { λ row b. IsOver b.content.demands row.number (recounted row) row };

    ghost makes = { with_demand };

    fn write<S: Alter>(tx: &mut Transaction<'_, S>, row: &Demand) -> Result<(), TableFault> {
        count_demand(tx, row)
    }
}

impl Writing<Entry> for New {
    ghost needs = { λ row b. entry_at b.content row.number ≡ None };

    ghost makes = { with_entry };

    fn write<S: Alter>(tx: &mut Transaction<'_, S>, row: &Entry) -> Result<(), TableFault> {
        put_entry(tx, row)
    }
}

impl Writing<JobOrder> for New {
    ghost needs = { λ row b. get b.uses row ≡ None };

    ghost makes = { with_use };

    fn write<S: Alter>(tx: &mut Transaction<'_, S>, row: &JobOrder) -> Result<(), TableFault> {
        put_use(tx, row)
    }
}

impl Writing<JobBegin> for Placed {
    ghost needs = { λ row b. ⊤ };

    ghost makes = { with_begun };

    fn write<S: Alter>(tx: &mut Transaction<'_, S>, row: &JobBegin) -> Result<(), TableFault> {
        put_begun(tx, row)
    }
}

impl Writing<OrderNote> for Placed {
    ghost needs = { λ row b. ⊤ };

    ghost makes = { with_note };

    fn write<S: Alter>(tx: &mut Transaction<'_, S>, row: &OrderNote) -> Result<(), TableFault> {
        put_note(tx, row)
    }
}

impl Writing<u32> for LastAct {
    ghost needs = { λ row b. ⊤ };

    ghost makes = { with_last_act };

    fn write<S: Alter>(tx: &mut Transaction<'_, S>, row: &u32) -> Result<(), TableFault> {
        set_last_act(tx, *row)
    }
}

impl Writing<u32> for LastDemand {
    ghost needs = { λ row b. ⊤ };

    ghost makes = { with_last_demand };

    fn write<S: Alter>(tx: &mut Transaction<'_, S>, row: &u32) -> Result<(), TableFault> {
        set_last_demand(tx, *row)
    }
}

/// Writes a row, if there is one.
pub(crate) fn write_some<W: Writing<Row>, Row, S: Alter>(
    tx: &mut Transaction<'_, S>,
    row: &Option<Row>,
) -> Result<(), TableFault>
    ensures same_reference { tx.new.conn.ghost_name ≡ tx.old.conn.ghost_name }
    ensures writes { Writes (state S.Store tx.old.conn.now) (state S.Store tx.new.conn.now) result
        (λ b. IfSome row.now (λ row. W.needs row b)) (with_some W.makes row.now) }
{
    match row {
        Some(row) => W::write(tx, row),
        None => Ok(()),
    }
}

/// Writes rows one after another: of more than one those of either half.
#[tactic(auto, using(crate::proofs::InTurn::stops))]
pub(crate) fn write_all<W: Writing<Row>, Row, S: Alter>(
    tx: &mut Transaction<'_, S>,
    rows: &[Row],
) -> Result<(), TableFault>
    ensures same_reference { tx.new.conn.ghost_name ≡ tx.old.conn.ghost_name }
    ensures writes { Writes (state S.Store tx.old.conn.now) (state S.Store tx.new.conn.now) result
        (AreInTurn W.needs W.makes rows.now) (with_all W.makes rows.now) }
{
    if rows.len() == 0 {
        return Ok(());
    }
    if rows.len() == 1 {
        return W::write(tx, &rows[0]);
    }
    let (first, others) = rows.split_at(rows.len() / 2);
    write_all::<W, Row, S>(tx, first)?;
    write_all::<W, Row, S>(tx, others)
}
