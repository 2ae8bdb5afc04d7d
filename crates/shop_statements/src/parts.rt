//! The table of parts: put and moved.

ghost use Rattle.std.specs.Prelude.{◌≡◌};
ghost use Rattle.sqlite.specs.Held.{state};
ghost use Rattle.shop_records.specs.Content.{part_at};
ghost use Rattle.shop_records.specs.declared.records.Part.{Part as PartRecord};
ghost use Rattle.shop_statements.specs.Beside.{Spares};
ghost use Rattle.std.specs.Prelude.{Some, None, OnOk};
ghost use Rattle.shop_records.specs.Content.{in_state};
ghost use Rattle.shop_statements.specs.Changes.{with_part};
ghost use Rattle.shop_statements.specs.Shown.{Books, Makes, Ran, Within};
ghost use Rattle.shop_statements.specs.Values.{IsPartValue};
ghost use Rattle.shop_statements.specs.Layout.{parts_table};
ghost use Rattle.std.specs.Prelude.{[], ◌∷◌};

use crate::TableFault;
use crate::columns::number_of_state;
use crate::running::run;
use shop_records::Part;
use sqlite::{Alter, Transaction, params};

// A part of the program is a value.
fn in_ranges(part: Part)
    ensures { IsPartValue part }
{
    let _of = part.state.of();
}

/// Puts a new part.
pub fn put_part<S: Alter>(tx: &mut Transaction<'_, S>, part: &Part) -> Result<(), TableFault>
    ensures same_reference { tx.new.conn.ghost_name ≡ tx.old.conn.ghost_name }
    ensures ran { OnOk result
        (Ran (state S.Store tx.old.conn.now) (state S.Store tx.new.conn.now)) }
    ensures put { (b : Books) → part_at b.content part.now.name ≡ None
        → OnOk result (Makes (state S.Store tx.old.conn.now) (state S.Store tx.new.conn.now) b
        (with_part part.now b)) }
    ensures others { OnOk result (Spares (parts_table.tree ∷ [])
        (state S.Store tx.old.conn.now) (state S.Store tx.new.conn.now)) }
    ensures within { Within (state S.Store tx.old.conn.now) (state S.Store tx.new.conn.now) }
{
    in_ranges(*part);
    run(
        tx,
        "INSERT INTO parts (act, node, material, batch, root_act, root_node, x, y, w, h, state, detail) VALUES (?1, ?2, ?3, ?4, ?5, ?6, ?7, ?8, ?9, ?10, ?11, ?12)",
        params![
            part.name.act(),
            part.name.node(),
            part.material.as_str(),
            part.batch.as_str(),
            part.root.act(),
            part.root.node(),
            part.x,
            part.y,
            part.size.w(),
            part.size.h(),
            number_of_state(part.state),
            part.state.of()
        ],
    )
}

/// Gives a part that is there the state of this one, which is the same but for it.
pub fn move_part<S: Alter>(tx: &mut Transaction<'_, S>, part: &Part) -> Result<(), TableFault>
    ensures same_reference { tx.new.conn.ghost_name ≡ tx.old.conn.ghost_name }
    ensures ran { OnOk result
        (Ran (state S.Store tx.old.conn.now) (state S.Store tx.new.conn.now)) }
    ensures put { (b : Books) → (was : PartRecord) → part_at b.content part.now.name ≡ Some was
        → part.now ≡ in_state part.now.state was
        → OnOk result (Makes (state S.Store tx.old.conn.now) (state S.Store tx.new.conn.now) b
        (with_part part.now b)) }
    ensures others { OnOk result (Spares (parts_table.tree ∷ [])
        (state S.Store tx.old.conn.now) (state S.Store tx.new.conn.now)) }
    ensures within { Within (state S.Store tx.old.conn.now) (state S.Store tx.new.conn.now) }
{
    run(
        tx,
        "UPDATE parts SET state = ?3, detail = ?4 WHERE act = ?1 AND node = ?2",
        params![
            part.name.act(),
            part.name.node(),
            number_of_state(part.state),
            part.state.of()
        ],
    )
}
