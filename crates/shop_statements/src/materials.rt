//! The table of materials: read and put.

ghost use Rattle.std.specs.Prelude.{◌≡◌, ◌++◌, IfOk};
ghost use Rattle.sqlite.specs.Held.{state};
ghost use Rattle.sqlite_value.specs.Order.{Row as Values};
ghost use Rattle.shop_records.specs.Content.{material_at};
ghost use Rattle.shop_records.specs.declared.records.Material.{Material as MaterialRecord};
ghost use Rattle.shop_statements.specs.Beside.{Spares};
ghost use Rattle.shop_statements.specs.Rows.{material_columns};
ghost use Rattle.std.specs.Prelude.{None, OnOk};
ghost use Rattle.shop_statements.specs.Changes.{with_material};
ghost use Rattle.shop_statements.specs.Shown.{Books, Makes, Ran, Within};
ghost use Rattle.shop_statements.specs.Found.{columns_of};
ghost use Rattle.shop_statements.specs.Layout.{materials_table};
ghost use Rattle.std.specs.Prelude.{[], ◌∷◌};

use crate::TableFault;
use crate::columns::{kind_in, limits_in, number_of_kind};
use crate::running::run;
use cut_measure::Code;
use shop_records::Material;
use sqlite::{Alter, Row, Transaction, params};

/// The material of a code, of its columns; the columns after them don't matter.
pub fn read_material(code: Code, row: &Row) -> Result<Material, TableFault>
    ensures row { (material : MaterialRecord) (after : Values) → material.code ≡ code
        → row.now ≡ material_columns material ++ after → IfOk result (λ read. read ≡ material) }
    ensures exact { IfOk result (λ read. columns_of 4 0 row.now ≡ material_columns read) }
{
    let kind = kind_in(row, 0)?;
    Ok(Material {
        code,
        kind,
        limits: limits_in(kind, row, 1)?,
    })
}

/// Puts a new material.
pub fn put_material<S: Alter>(
    tx: &mut Transaction<'_, S>,
    material: &Material,
) -> Result<(), TableFault>
    ensures same_reference { tx.new.conn.ghost_name ≡ tx.old.conn.ghost_name }
    ensures ran { OnOk result
        (Ran (state S.Store tx.old.conn.now) (state S.Store tx.new.conn.now)) }
    ensures put { (b : Books) → material_at b.content material.now.code ≡ None
        → OnOk result (Makes (state S.Store tx.old.conn.now) (state S.Store tx.new.conn.now) b
        (with_material material.now b)) }
    ensures others { OnOk result (Spares (materials_table.tree ∷ [])
        (state S.Store tx.old.conn.now) (state S.Store tx.new.conn.now)) }
    ensures within { Within (state S.Store tx.old.conn.now) (state S.Store tx.new.conn.now) }
{
    run(
        tx,
        "INSERT INTO materials (code, kind, kerf, min_long, min_short) VALUES (?1, ?2, ?3, ?4, ?5)",
        params![
            material.code.as_str(),
            number_of_kind(material.kind),
            material.limits.kerf(),
            material.limits.min_long(),
            material.limits.min_short()
        ],
    )
}
