//! The totals of all materials, in order.

ghost use Rattle.std.specs.Prelude.{◌≡◌, ◌≢◌, [], ◌∷◌, ℕ, List, map, false, IfOk, IfSome, IsNone};
ghost use Rattle.std.specs.FinMap.{entries};
ghost use Rattle.sqlite.specs.Held.{state};
ghost use Rattle.shop_records.specs.declared.records.Totals.{Totals as TotalsRecord};
ghost use Rattle.shop_statements.specs.Earlier.{OnBooksEarlier, OnBooksSecond};
ghost use Rattle.shop_tables.specs.Listing.{AreAllTotals, AreCodes, code_row, key_of, listed_row, named};
ghost use Rattle.shop_statements.specs.Shown.{Leaves, OnBooks};

use crate::invalid::{has_word, may_be_totals};
use shop_records::MaterialTotals;
use shop_statements::{TableFault, all_rows, code_in, read_totals};
use sqlite::{Alter, Connection, Error, Row};
use std::alloc::Global;

/// The codes of all materials, in order.
pub(crate) fn material_rows<S: Alter>(conn: &mut Connection<S>) -> Result<Vec<Row>, Error>
    ensures rows { OnBooks (state S.Store conn.old) (state S.Store conn.new)
        (λ books. IfOk result (λ rows. rows.items
        ≡ map (λ e. code_row (key_of e)) (entries books.content.materials))) }
    ensures earlier { OnBooksEarlier (state S.Store conn.old) (state S.Store conn.new)
        (λ books. IfOk result (λ rows. rows.items
        ≡ map (λ e. code_row (key_of e)) (entries books.content.materials))) }
    ensures second { OnBooksSecond (state S.Store conn.old) (state S.Store conn.new)
        (λ books. IfOk result (λ rows. rows.items
        ≡ map (λ e. code_row (key_of e)) (entries books.content.materials))) }
    ensures coded { OnBooks (state S.Store conn.old) (state S.Store conn.new)
        (λ books. IfOk result (λ _. AreCodes (map key_of (entries books.content.materials)))) }
    ensures earlier_coded { OnBooksEarlier (state S.Store conn.old) (state S.Store conn.new)
        (λ books. IfOk result (λ _. AreCodes (map key_of (entries books.content.materials)))) }
    ensures second_coded { OnBooksSecond (state S.Store conn.old) (state S.Store conn.new)
        (λ books. IfOk result (λ _. AreCodes (map key_of (entries books.content.materials)))) }
    ensures leaves { Leaves (state S.Store conn.old) (state S.Store conn.new) }
    ensures mode { conn.old.in_transaction ≡ false → conn.new.in_transaction ≡ false }
{
    all_rows(conn, "SELECT code FROM materials ORDER BY code", &[])
}

fn totals_rows<S: Alter>(conn: &mut Connection<S>) -> Result<Vec<Row>, Error>
    ensures rows { OnBooks (state S.Store conn.old) (state S.Store conn.new)
        (λ books. IfOk result (λ rows. rows.items ≡ map listed_row (entries books.totals))) }
    ensures second { OnBooksSecond (state S.Store conn.old) (state S.Store conn.new)
        (λ books. IfOk result (λ rows. rows.items ≡ map listed_row (entries books.totals))) }
    ensures leaves { Leaves (state S.Store conn.old) (state S.Store conn.new) }
    ensures mode { conn.old.in_transaction ≡ false → conn.new.in_transaction ≡ false }
{
    all_rows(
        conn,
        "SELECT received, stock, rack, pieces, kerf, scrap, returned, material FROM totals2 ORDER BY material",
        &[],
    )
}

// The totals of a row, their material after them.
fn read_named(row: &Row) -> Result<MaterialTotals, TableFault>
    ensures { (e : List ℕ × TotalsRecord) → row.now ≡ listed_row e
        → IfOk result (λ read. read ≡ named e) }
{
    Ok(MaterialTotals {
        material: code_in(row, 7)?,
        totals: read_totals(row)?,
    })
}

/// The totals of these rows, where their codes are these, in this order.
pub(crate) fn read_all(
    alloc: Global,
    codes: &[Row],
    rows: &[Row],
) -> Result<Option<Vec<MaterialTotals>>, TableFault>
    ensures { (cs : List (List ℕ)) (es : List (List ℕ × TotalsRecord)) → codes.now ≡ map code_row cs
        → rows.now ≡ map listed_row es
        → IfOk result (λ read. IfSome read
        (λ list. (list.items ≡ map named es) × (cs ≡ map key_of es))
        × (IsNone read → AreCodes cs → cs ≢ map key_of es)) }
{
    if codes.len() != rows.len() {
        return Ok(None);
    }
    let mut list = Vec::new(alloc);
    for i in 0..rows.len() {
        let row = &rows[i];
        if !may_be_totals(row) {
            return Ok(None);
        }
        let totals = read_named(row)?;
        if !has_word(&codes[i], 0, totals.material.as_str()) {
            return Ok(None);
        }
        if list.push(totals).is_err() {
            return Err(TableFault::NoMemory);
        }
    }
    Ok(Some(list))
}

/// The totals of all materials, by rising code; None where a material has none, or another code has some, or a row is none
/// of totals.
pub fn list_totals<S: Alter>(
    alloc: Global,
    conn: &mut Connection<S>,
) -> Result<Option<Vec<MaterialTotals>>, TableFault>
    ensures rows { OnBooks (state S.Store conn.old) (state S.Store conn.new)
        (λ books. IfOk result (AreAllTotals books)) }
    ensures second { OnBooksSecond (state S.Store conn.old) (state S.Store conn.new)
        (λ books. IfOk result (AreAllTotals books)) }
    ensures leaves { Leaves (state S.Store conn.old) (state S.Store conn.new) }
    ensures mode { conn.old.in_transaction ≡ false → conn.new.in_transaction ≡ false }
{
    let materials = material_rows(conn)?;
    let totals = totals_rows(conn)?;
    read_all(alloc, &materials, &totals)
}
