//! The table of demands: read, put and counted.

ghost use Rattle.std.specs.Prelude.{◌≡◌, ◌++◌, IfOk};
ghost use Rattle.sqlite.specs.Held.{state};
ghost use Rattle.sqlite_value.specs.Order.{Row as Values};
ghost use Rattle.shop_records.specs.Content.{demand_at};
ghost use Rattle.shop_records.specs.declared.records.Demand.{Demand as DemandRecord};
ghost use Rattle.shop_statements.specs.Beside.{Spares};
ghost use Rattle.shop_statements.specs.Rows.{demand_columns};
ghost use Rattle.std.specs.Prelude.{Some, None, OnOk};
ghost use Rattle.shop_statements.specs.Changes.{with_demand};
ghost use Rattle.shop_statements.specs.Shown.{Books, Makes, Ran, Within};
ghost use Rattle.shop_statements.specs.Found.{columns_of};
ghost use Rattle.shop_statements.specs.Layout.{demands_table};
ghost use Rattle.std.specs.Prelude.{[], ◌∷◌};

use crate::TableFault;
use crate::columns::{code_in, number_in, number_of_turn, size_in, turn_in};
use crate::running::run;
use shop_records::Demand;
use sqlite::{Alter, Row, Transaction, params};

/// The demand of a number, of its columns; the columns after them don't matter.
pub fn read_demand(number: u32, row: &Row) -> Result<Demand, TableFault>
    ensures key { IfOk result (λ read. read.number ≡ number) }
    ensures row { (demand : DemandRecord) (after : Values) → demand.number ≡ number
        → row.now ≡ demand_columns demand ++ after → IfOk result (λ read. read ≡ demand) }
    ensures exact { IfOk result (λ read. columns_of 10 0 row.now ≡ demand_columns read) }
{
    Ok(Demand {
        number,
        order: code_in(row, 0)?,
        line: number_in(row, 1)?,
        material: code_in(row, 2)?,
        size: size_in(row, 3)?,
        may_turn: turn_in(row, 5)?,
        worth: number_in(row, 6)?,
        wanted: number_in(row, 7)?,
        reserved: number_in(row, 8)?,
        made: number_in(row, 9)?,
    })
}

/// Puts a new demand.
pub fn put_demand<S: Alter>(tx: &mut Transaction<'_, S>, demand: &Demand) -> Result<(), TableFault>
    ensures same_reference { tx.new.conn.ghost_name ≡ tx.old.conn.ghost_name }
    ensures ran { OnOk result
        (Ran (state S.Store tx.old.conn.now) (state S.Store tx.new.conn.now)) }
    ensures put { (b : Books) → demand_at b.content demand.now.number ≡ None
        → OnOk result (Makes (state S.Store tx.old.conn.now) (state S.Store tx.new.conn.now) b
        (with_demand demand.now b)) }
    ensures others { OnOk result (Spares (demands_table.tree ∷ [])
        (state S.Store tx.old.conn.now) (state S.Store tx.new.conn.now)) }
    ensures within { Within (state S.Store tx.old.conn.now) (state S.Store tx.new.conn.now) }
{
    run(
        tx,
        "INSERT INTO demands (number, ord, line, material, w, h, turn, worth, wanted, reserved, made) VALUES (?1, ?2, ?3, ?4, ?5, ?6, ?7, ?8, ?9, ?10, ?11)",
        params![
            demand.number,
            demand.order.as_str(),
            demand.line,
            demand.material.as_str(),
            demand.size.w(),
            demand.size.h(),
            number_of_turn(demand.may_turn),
            demand.worth,
            demand.wanted,
            demand.reserved,
            demand.made
        ],
    )
}

/// Gives a demand that is there the number wanted and the counts of this one, which is the same but for them.
pub fn count_demand<S: Alter>(
    tx: &mut Transaction<'_, S>,
    demand: &Demand,
) -> Result<(), TableFault>
    ensures same_reference { tx.new.conn.ghost_name ≡ tx.old.conn.ghost_name }
    ensures ran { OnOk result
        (Ran (state S.Store tx.old.conn.now) (state S.Store tx.new.conn.now)) }
    ensures put { (b : Books) → (was : DemandRecord)
        → demand_at b.content demand.now.number ≡ Some was
        → demand.now ≡ record was { wanted = demand.now.wanted; reserved = demand.now.reserved; made = demand.now.made }
        → OnOk result (Makes (state S.Store tx.old.conn.now) (state S.Store tx.new.conn.now) b
        (with_demand demand.now b)) }
    ensures others { OnOk result (Spares (demands_table.tree ∷ [])
        (state S.Store tx.old.conn.now) (state S.Store tx.new.conn.now)) }
    ensures within { Within (state S.Store tx.old.conn.now) (state S.Store tx.new.conn.now) }
{
    run(
        tx,
        "UPDATE demands SET wanted = ?2, reserved = ?3, made = ?4 WHERE number = ?1",
        params![demand.number, demand.wanted, demand.reserved, demand.made],
    )
}
