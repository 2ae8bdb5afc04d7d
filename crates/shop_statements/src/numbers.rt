//! The last act's and the last demand's numbers, which stand in the table `meta`: read and set.

ghost use Rattle.std.specs.Prelude.{◌≡◌, ℕ, pos, false, [], ◌∷◌, codes, filter, IfOk, IfSome};
ghost use Rattle.sqlite_value.specs.declared.value.Value.TheVariants.{Int};
ghost use Rattle.std.specs.Ordering.{eq_by_cmp};
ghost use Rattle.sqlite.specs.Held.{state};
ghost use Rattle.cut_measure.specs.Codes.{code_cmp};
ghost use Rattle.sqlite.specs.State.{HasCleanDisk};
ghost use Rattle.shop_statements.specs.Beside.{Spares};
ghost use Rattle.shop_statements.specs.Found.{IsNumberRow};
ghost use Rattle.shop_statements.specs.Earlier.{HasSomeTables, OnBooksEarlier, OnBooksSecond, earlier_entries, second_entries};
ghost use Rattle.shop_statements.specs.Layout.{HasShopTables, meta_table};
ghost use Rattle.shop_statements.specs.Rows.{meta_entries};
ghost use Rattle.shop_statements.specs.Shown.{Leaves, OnBooks, GivesNumber};
ghost use Rattle.std.specs.Prelude.{OnOk};
ghost use Rattle.shop_statements.specs.Changes.{with_last_act, with_last_demand};
ghost use Rattle.shop_statements.specs.Shown.{Books, Makes, Ran, Within};

use crate::TableFault;
use crate::columns::number_in;
use crate::rows::row_by_text;
use crate::running::run;
use sqlite::{Alter, Connection, Error, Row, Transaction, params};

/// The row of the number under a word.
pub fn number_row<S: Alter>(conn: &mut Connection<S>, word: &str) -> Result<Option<Row>, Error>
    ensures row { OnBooks (state S.Store conn.old) (state S.Store conn.new)
        (λ books. (n : ℕ) → filter (λ e. eq_by_cmp code_cmp e.0 word.now)
        (meta_entries books.content) ≡ (word.now, n) ∷ [] → IfOk result (GivesNumber n)) }
    ensures earlier { OnBooksEarlier (state S.Store conn.old) (state S.Store conn.new)
        (λ books. (n : ℕ) → filter (λ e. eq_by_cmp code_cmp e.0 word.now)
        (earlier_entries books.content) ≡ (word.now, n) ∷ [] → IfOk result (GivesNumber n)) }
    ensures second { OnBooksSecond (state S.Store conn.old) (state S.Store conn.new)
        (λ books. (n : ℕ) → filter (λ e. eq_by_cmp code_cmp e.0 word.now)
        (second_entries books.content) ≡ (word.now, n) ∷ [] → IfOk result (GivesNumber n)) }
    ensures stands { HasCleanDisk (state S.Store conn.new) → HasSomeTables conn.old.schema
        → IfOk result (λ row. IfSome row (IsNumberRow (state S.Store conn.old) word.now)) }
    ensures leaves { Leaves (state S.Store conn.old) (state S.Store conn.new) }
    ensures mode { conn.old.in_transaction ≡ false → conn.new.in_transaction ≡ false }
{
    row_by_text(conn, "SELECT value FROM meta WHERE name = ?1", word)
}

// The number that stands under a word.
fn number_of<S: Alter>(conn: &mut Connection<S>, word: &str) -> Result<u32, TableFault>
    ensures number { OnBooks (state S.Store conn.old) (state S.Store conn.new)
        (λ books. (n : ℕ) → filter (λ e. eq_by_cmp code_cmp e.0 word.now)
        (meta_entries books.content) ≡ (word.now, n) ∷ []
        → IfOk result (λ number. number ≡ n)) }
    ensures earlier { OnBooksEarlier (state S.Store conn.old) (state S.Store conn.new)
        (λ books. (n : ℕ) → filter (λ e. eq_by_cmp code_cmp e.0 word.now)
        (earlier_entries books.content) ≡ (word.now, n) ∷ []
        → IfOk result (λ number. number ≡ n)) }
    ensures second { OnBooksSecond (state S.Store conn.old) (state S.Store conn.new)
        (λ books. (n : ℕ) → filter (λ e. eq_by_cmp code_cmp e.0 word.now)
        (second_entries books.content) ≡ (word.now, n) ∷ []
        → IfOk result (λ number. number ≡ n)) }
    ensures stands { HasCleanDisk (state S.Store conn.new) → HasShopTables conn.old.schema
        → IfOk result (λ number. IsNumberRow (state S.Store conn.old) word.now
        (Int (pos number) ∷ [])) }
    ensures leaves { Leaves (state S.Store conn.old) (state S.Store conn.new) }
    ensures mode { conn.old.in_transaction ≡ false → conn.new.in_transaction ≡ false }
{
    let Some(row) = number_row(conn, word)? else {
        return Err(TableFault::Store);
    };
    number_in(&row, 0)
}

/// The number of the last act, 0 at first.
pub fn find_last_act<S: Alter>(conn: &mut Connection<S>) -> Result<u32, TableFault>
    ensures number { OnBooks (state S.Store conn.old) (state S.Store conn.new)
        (λ books. IfOk result (λ number. number ≡ books.content.last_act)) }
    ensures earlier { OnBooksEarlier (state S.Store conn.old) (state S.Store conn.new)
        (λ books. IfOk result (λ number. number ≡ books.content.last_act)) }
    ensures second { OnBooksSecond (state S.Store conn.old) (state S.Store conn.new)
        (λ books. IfOk result (λ number. number ≡ books.content.last_act)) }
    ensures stands { HasCleanDisk (state S.Store conn.new) → HasShopTables conn.old.schema
        → IfOk result (λ number. IsNumberRow (state S.Store conn.old) (codes "act")
        (Int (pos number) ∷ [])) }
    ensures leaves { Leaves (state S.Store conn.old) (state S.Store conn.new) }
    ensures mode { conn.old.in_transaction ≡ false → conn.new.in_transaction ≡ false }
{
    number_of(conn, "act")
}

/// The number of the last demand, 0 at first.
pub fn find_last_demand<S: Alter>(conn: &mut Connection<S>) -> Result<u32, TableFault>
    ensures number { OnBooks (state S.Store conn.old) (state S.Store conn.new)
        (λ books. IfOk result (λ number. number ≡ books.content.last_demand)) }
    ensures earlier { OnBooksEarlier (state S.Store conn.old) (state S.Store conn.new)
        (λ books. IfOk result (λ number. number ≡ books.content.last_demand)) }
    ensures second { OnBooksSecond (state S.Store conn.old) (state S.Store conn.new)
        (λ books. IfOk result (λ number. number ≡ books.content.last_demand)) }
    ensures stands { HasCleanDisk (state S.Store conn.new) → HasShopTables conn.old.schema
        → IfOk result (λ number. IsNumberRow (state S.Store conn.old) (codes "demand")
        (Int (pos number) ∷ [])) }
    ensures leaves { Leaves (state S.Store conn.old) (state S.Store conn.new) }
    ensures mode { conn.old.in_transaction ≡ false → conn.new.in_transaction ≡ false }
{
    number_of(conn, "demand")
}

/// Gives the last act this number.
pub fn set_last_act<S: Alter>(tx: &mut Transaction<'_, S>, act: u32) -> Result<(), TableFault>
    ensures same_reference { tx.new.conn.ghost_name ≡ tx.old.conn.ghost_name }
    ensures ran { OnOk result
        (Ran (state S.Store tx.old.conn.now) (state S.Store tx.new.conn.now)) }
    ensures put { (b : Books)
        → OnOk result (Makes (state S.Store tx.old.conn.now) (state S.Store tx.new.conn.now) b
        (with_last_act act b)) }
    ensures others { OnOk result (Spares (meta_table.tree ∷ [])
        (state S.Store tx.old.conn.now) (state S.Store tx.new.conn.now)) }
    ensures within { Within (state S.Store tx.old.conn.now) (state S.Store tx.new.conn.now) }
{
    run(
        tx,
        "UPDATE meta SET value = ?2 WHERE name = ?1",
        params!["act", act],
    )
}

/// Gives the last demand this number.
pub fn set_last_demand<S: Alter>(tx: &mut Transaction<'_, S>, demand: u32) -> Result<(), TableFault>
    ensures same_reference { tx.new.conn.ghost_name ≡ tx.old.conn.ghost_name }
    ensures ran { OnOk result
        (Ran (state S.Store tx.old.conn.now) (state S.Store tx.new.conn.now)) }
    ensures put { (b : Books)
        → OnOk result (Makes (state S.Store tx.old.conn.now) (state S.Store tx.new.conn.now) b
        (with_last_demand demand b)) }
    ensures others { OnOk result (Spares (meta_table.tree ∷ [])
        (state S.Store tx.old.conn.now) (state S.Store tx.new.conn.now)) }
    ensures within { Within (state S.Store tx.old.conn.now) (state S.Store tx.new.conn.now) }
{
    run(
        tx,
        "UPDATE meta SET value = ?2 WHERE name = ?1",
        params!["demand", demand],
    )
}
