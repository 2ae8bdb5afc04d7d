//! Adds up parts that are handed out, for the materials that it was made for.

ghost use Rattle.std.specs.Prelude.{◌<◌, ◌^◌, ℕ, List, IsTrue, vec_len, vec_capacity};
ghost use Rattle.cut_measure.specs.Codes.{code_cmp};
ghost use Rattle.shop_records.specs.declared.records.Column.{Column};
ghost use Rattle.shop_rows.specs.Rows.{rise};
ghost use Rattle.shop_rows.specs.Sums.{sum_at, sums_key};

use shop_rows::Sums;

/// Adds up the parts that are handed out, for the materials that it was made for. It stops at a part of another material
/// that a column counts, and where 64 bits don't hold a sum.
#[derive(Drop)]
pub struct PartAdder {
    pub sums: Vec<Sums>,
    ghost rising: { IsTrue (rise sums_key code_cmp sums.items) },
    ghost spare: { vec_len sums < vec_capacity sums },
    ghost small: { (column : Column) (code : List ℕ) → sum_at column code sums.items < 2 ^ 64 },
}
