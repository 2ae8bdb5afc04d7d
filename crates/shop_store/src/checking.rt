//! Whether the totals of tables are the sums of their parts.

ghost use Rattle.std.specs.Prelude.{◌≡◌, ◌<◌, ◌^◌, ℕ, List, IfOk, IsTrue};
ghost use Rattle.std.specs.Bool.{Decides};
ghost use Rattle.cut_measure.specs.Codes.{code_cmp};
ghost use Rattle.shop_records.specs.declared.records.Column.{Column as ColumnOf};
ghost use Rattle.shop_rows.specs.Adding.{has_sums};
ghost use Rattle.shop_store.specs.Checking.{AddsPart, AreNarrow, AreSumsIn, are_totals_for};
ghost use Rattle.shop_rows.specs.Rows.{rise};
ghost use Rattle.shop_rows.specs.Sums.{sum_at, sums_key, total_in};

use crate::adders::PartAdder;
use shop_records::{MaterialTotals, Part, PartVisitor, Totals};
use shop_rows::{Sums, count_part, has_totals, no_sums, put};
use std::alloc::{AllocError, Global};

impl PartVisitor for PartAdder {
    ghost looks = { AddsPart };

    fn part(&mut self, part: &Part) -> bool {
        count_part(&mut self.sums, part)
    }
}

// Totals of the program are held by 64 bits.
fn in_range(totals: Totals)
    ensures { (column : ColumnOf) → total_in column totals < 2 ^ 64 }
{
    let _returned = totals.returned;
}

// Sums of nothing for each of these materials.
pub(crate) fn adder_for(alloc: Global, totals: &[MaterialTotals]) -> Result<PartAdder, AllocError>
    ensures none { IfOk result
        (λ adder. (column : ColumnOf) (code : List ℕ) → sum_at column code adder.sums.items ≡ 0) }
    ensures there { IfOk result
        (λ adder. (code : List ℕ)
        → has_sums code adder.sums.items ≡ are_totals_for code totals.now) }
    ensures narrow { IfOk result (λ _. AreNarrow totals.now) }
{
    let mut sums = Vec::new(alloc);
    for row in totals {
        in_range(row.totals);
        sums.reserve(1)?;
        let _ = put(&mut sums, no_sums(row.material));
    }
    sums.reserve(1)?;
    Ok(PartAdder { sums })
}

// Whether these totals are the sums.
pub(crate) fn are_sums(sums: &[Sums], totals: &[MaterialTotals]) -> bool
    requires rising { IsTrue (rise sums_key code_cmp sums.now) }
    requires small { (column : ColumnOf) (code : List ℕ) → sum_at column code sums.now < 2 ^ 64 }
    ensures { Decides result (AreSumsIn sums.now totals.now) }
{
    for row in totals {
        if !has_totals(sums, row) {
            return false;
        }
    }
    true
}
