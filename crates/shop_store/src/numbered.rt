//! Tables whose keys are numbers, which are loaded some rows at a time.

ghost use Rattle.std.specs.Prelude.{◌≡◌, ℕ, List, false, map, take, filter, nat_le, IsTrue, None, IfOk};
ghost use Rattle.std.specs.FinMap.{values};
ghost use Rattle.std.specs.Ordering.{nat_cmp};
ghost use Rattle.sqlite.specs.Held.{state};
ghost use Rattle.shop_records.specs.Content.{Content};
ghost use Rattle.shop_statements.specs.Earlier.{OnBooksEither};
ghost use Rattle.shop_statements.specs.Shown.{Leaves};
ghost use Rattle.shop_book.specs.Ledgers.{content_in};
ghost use Rattle.shop_rows.specs.Rows.{rise};
ghost use Rattle.shop_store.specs.Loading.{FitInTurn, IsChunk, with_each};

use crate::loadable::{Loadable, load_each};
use shop_book::Ledger;
use shop_records::{Demand, Job, JobBegin};
use shop_statements::number_in;
use shop_tables::{NoRow, TableFault, begun_rows_from, demand_rows_from, job_rows_from};
use sqlite::{Alter, Connection, Row};
use std::alloc::Global;

/// How many rows are read at a time.
const ROWS_AT_ONCE: usize = 1000;

/// More times than a table of numbers has rows.
const MAX_CHUNKS: u64 = 4294967296;

/// Where the rows after some go on.
#[derive(Clone, Copy, Debug)]
pub(crate) enum Chunk {
    /// There was none, so there are none.
    End,
    /// From this number on.
    From(usize),
    /// A row stands for no value.
    Stranger(NoRow),
}

/// A value of a table whose keys are numbers.
pub(crate) trait Numbered: Loadable {
    /// All values of a content, by rising number.
    ghost all: { Content → List Self };

    /// The number of a value.
    ghost number: { Self → ℕ };

    /// The rows of the first values from a number on: at most so many.
    fn rows_from<S: Alter>(
        conn: &mut Connection<S>,
        from: usize,
        most: usize,
    ) -> Result<Vec<Row>, TableFault>
        ensures rows { OnBooksEither (state S.Store conn.old) (state S.Store conn.new)
            (λ books. IfOk result (λ rows. rows.items ≡ map Self.row_of (take most
            (filter (λ (value : Self). nat_le from (number value)) (all books.content))))) }
        ensures rising { OnBooksEither (state S.Store conn.old) (state S.Store conn.new)
            (λ books. IfOk result (λ _. IsTrue (rise number nat_cmp (all books.content)))) }
        ensures leaves { Leaves (state S.Store conn.old) (state S.Store conn.new) }
        ensures mode { conn.old.in_transaction ≡ false → conn.new.in_transaction ≡ false };

    /// The number in a row.
    fn number_of(row: &Row) -> Result<u32, TableFault>
        ensures { (value : Self) → row.now ≡ Self.row_of value
            → IfOk result (λ read. read ≡ number value) };
}

impl Numbered for Job {
    ghost use Rattle.shop_rows.specs.Keys.{job_key};

    ghost all = { λ m. values m.jobs };

    ghost number = { job_key };

    fn rows_from<S: Alter>(
        conn: &mut Connection<S>,
        from: usize,
        most: usize,
    ) -> Result<Vec<Row>, TableFault> {
        job_rows_from(conn, from, most)
    }

    fn number_of(row: &Row) -> Result<u32, TableFault> {
        number_in(row, 4)
    }
}

impl Numbered for JobBegin {
    ghost use Rattle.shop_rows.specs.Keys.{begin_key};

    ghost all = { λ m. values m.begun };

    ghost number = { begin_key };

    fn rows_from<S: Alter>(
        conn: &mut Connection<S>,
        from: usize,
        most: usize,
    ) -> Result<Vec<Row>, TableFault> {
        begun_rows_from(conn, from, most)
    }

    fn number_of(row: &Row) -> Result<u32, TableFault> {
        number_in(row, 1)
    }
}

impl Numbered for Demand {
    ghost use Rattle.shop_rows.specs.Keys.{demand_key};

    ghost all = { λ m. values m.demands };

    ghost number = { demand_key };

    fn rows_from<S: Alter>(
        conn: &mut Connection<S>,
        from: usize,
        most: usize,
    ) -> Result<Vec<Row>, TableFault> {
        demand_rows_from(conn, from, most)
    }

    fn number_of(row: &Row) -> Result<u32, TableFault> {
        number_in(row, 10)
    }
}

// Puts the values of these rows, and reports where the next ones begin.
fn load_chunk<T: Numbered>(
    alloc: Global,
    ledger: &mut Ledger,
    rows: &[Row],
) -> Result<Chunk, TableFault>
    ensures { (values : List T) → rows.now ≡ map T.row_of values
        → FitInTurn T.fits T.put values (content_in ledger.old)
        → IfOk result (λ chunk. IsChunk T.number values chunk
        × (content_in ledger.new ≡ with_each T.put values (content_in ledger.old))) }
{
    let Some(last) = rows.last() else {
        return Ok(Chunk::End);
    };
    let number = T::number_of(last)?;
    match load_each::<T>(alloc, ledger, rows)? {
        Some(row) => Ok(Chunk::Stranger(row)),
        None => Ok(Chunk::From(number as usize + 1)),
    }
}

/// Puts all values of a table, by rising number; the key of the first row that stands for none, if there is one.
pub(crate) fn load_numbered<S: Alter, T: Numbered>(
    alloc: Global,
    conn: &mut Connection<S>,
    ledger: &mut Ledger,
) -> Result<Option<NoRow>, TableFault>
    ensures loaded { OnBooksEither (state S.Store conn.old) (state S.Store conn.new)
        (λ books. FitInTurn T.fits T.put (T.all books.content) (content_in ledger.old)
        → IfOk result (λ none. (none ≡ None)
        × (content_in ledger.new ≡ with_each T.put (T.all books.content) (content_in ledger.old)))) }
    ensures leaves { Leaves (state S.Store conn.old) (state S.Store conn.new) }
    ensures mode { conn.old.in_transaction ≡ false → conn.new.in_transaction ≡ false }
{
    let mut from = 0;
    'chunks: for _ in 0..MAX_CHUNKS {
        let rows = T::rows_from(conn, from, ROWS_AT_ONCE)?;
        match load_chunk::<T>(alloc, ledger, &rows)? {
            Chunk::End => return Ok(None),
            Chunk::Stranger(row) => return Ok(Some(row)),
            Chunk::From(next) => from = next,
        }
    }
    Err(TableFault::Store)
}
