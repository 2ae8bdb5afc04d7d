//! All parts, loaded and added up in one pass.

ghost use Rattle.std.specs.Prelude.{◌≡◌, ℕ, List, false, IfOk};
ghost use Rattle.std.specs.FinMap.{values};
ghost use Rattle.sqlite.specs.Held.{state};
ghost use Rattle.shop_records.specs.declared.records.Column.{Column as ColumnOf};
ghost use Rattle.shop_rows.specs.Adding.{has_sums};
ghost use Rattle.shop_rows.specs.Sums.{sum_at};
ghost use Rattle.shop_tables.specs.Changing.{HasSums};
ghost use Rattle.shop_statements.specs.Earlier.{OnBooksEither};
ghost use Rattle.shop_statements.specs.Shown.{Leaves};
ghost use Rattle.shop_book.specs.Ledgers.{content_in};
ghost use Rattle.shop_store.specs.Checking.{AreNarrow, AreSumsIn, IsListOf, are_totals_for};
ghost use Rattle.shop_store.specs.declared.loaded.Loaded.TheVariants.{OtherSums};
ghost use Rattle.shop_store.specs.Loading.{IsLoaded, LoadsPart, loading_in, put_part, with_each};

use crate::checking::{adder_for, are_sums};
use crate::loaded::Loaded;
use crate::part_loader::PartLoader;
use shop_book::{Ledger, ReadRows};
use shop_records::{DemandList, MaterialTotals, Part, PartList, PartVisitor};
use shop_tables::{TableFault, VisitEnd, part_key_at, visit_all_parts};
use sqlite::{Alter, Connection};
use std::alloc::{AllocError, Global};

/// How many parts are put into a ledger at a time.
const PARTS_AT_ONCE: usize = 4096;

impl PartLoader {
    ghost use Rattle.std.specs.Prelude.{[], OnOk};

    // Puts the parts that wait.
    fn flush(&mut self) -> Result<(), AllocError>
        ensures ledger { OnOk result (content_in self.new.ledger ≡ loading_in self.old) }
        ensures waiting { OnOk result (self.new.waiting ≡ []) }
        ensures adder { self.new.adder ≡ self.old.adder }
    {
        let parts = std::mem::replace(&mut self.waiting, PartList::new(self.alloc));
        self.ledger.load_rows(
            self.alloc,
            ReadRows {
                material: None,
                parts,
                job: None,
                begun: None,
                order: None,
                note: None,
                demands: DemandList::new(self.alloc),
            },
        )
    }

    // Puts the parts that wait, if they are many.
    fn flush_many(&mut self) -> Result<(), AllocError>
        ensures loading { OnOk result (loading_in self.new ≡ loading_in self.old) }
        ensures adder { self.new.adder ≡ self.old.adder }
    {
        if self.waiting.as_slice().len() < PARTS_AT_ONCE {
            return Ok(());
        }
        self.flush()
    }

    // Puts a part, now or later.
    fn keep(&mut self, part: &Part) -> Result<(), AllocError>
        ensures loading { OnOk result (loading_in self.new ≡ put_part part.now (loading_in self.old)) }
        ensures adder { self.new.adder ≡ self.old.adder }
    {
        self.flush_many()?;
        self.waiting.push(*part)?;
        self.seen = self.seen.saturating_add(1);
        Ok(())
    }
}

impl PartVisitor for PartLoader {
    ghost looks = { LoadsPart };

    fn part(&mut self, part: &Part) -> bool {
        if !self.adder.part(part) {
            return false;
        }
        if self.keep(part).is_err() {
            self.wanting = true;
            return false;
        }
        true
    }
}

// After all parts: the ledger with them, where these totals are their sums.
fn conclude(mut loader: PartLoader, totals: &[MaterialTotals]) -> Result<Loaded, TableFault>
    ensures { IfOk result (IsLoaded (AreSumsIn loader.adder.sums.items totals.now)
        (loading_in loader)) }
{
    loader.flush()?;
    if are_sums(&loader.adder.sums, totals) {
        Ok(Loaded::Ledger(loader.ledger))
    } else {
        Ok(Loaded::OtherSums)
    }
}

// Before all parts.
fn loader_for(
    alloc: Global,
    ledger: Ledger,
    totals: &[MaterialTotals],
) -> Result<PartLoader, AllocError>
    ensures none { IfOk result
        (λ loader. (column : ColumnOf) (code : List ℕ)
        → sum_at column code loader.adder.sums.items ≡ 0) }
    ensures there { IfOk result
        (λ loader. (code : List ℕ)
        → has_sums code loader.adder.sums.items ≡ are_totals_for code totals.now) }
    ensures narrow { IfOk result (λ _. AreNarrow totals.now) }
    ensures loading { IfOk result (λ loader. loading_in loader ≡ content_in ledger) }
{
    let adder = adder_for(alloc, totals)?;
    Ok(PartLoader {
        alloc,
        adder,
        ledger,
        waiting: PartList::new(alloc),
        seen: 0,
        wanting: false,
    })
}

// After a stop, which is because memory ran out, or else at a part that the totals haven't.
fn stopped(wanting: bool) -> Result<Loaded, TableFault>
    ensures { IfOk result (λ loaded. (loaded ≡ OtherSums) × (wanting ≡ false)) }
{
    if wanting {
        Err(TableFault::NoMemory)
    } else {
        Ok(Loaded::OtherSums)
    }
}

/// Puts all parts, by rising act and then node, where these totals are their sums.
pub(crate) fn load_parts<S: Alter>(
    alloc: Global,
    conn: &mut Connection<S>,
    ledger: Ledger,
    totals: &[MaterialTotals],
) -> Result<Loaded, TableFault>
    ensures loaded { OnBooksEither (state S.Store conn.old) (state S.Store conn.new)
        (λ books. IsListOf books totals.now → IfOk result (IsLoaded (HasSums books)
        (with_each put_part (values books.content.parts) (content_in ledger)))) }
    ensures leaves { Leaves (state S.Store conn.old) (state S.Store conn.new) }
    ensures mode { conn.old.in_transaction ≡ false → conn.new.in_transaction ≡ false }
{
    let mut loader = loader_for(alloc, ledger, totals)?;
    match visit_all_parts(conn, &mut loader)? {
        VisitEnd::All => conclude(loader, totals),
        VisitEnd::Stopped => stopped(loader.wanting),
        VisitEnd::Invalid => Ok(Loaded::NoRow(part_key_at(conn, loader.seen)?)),
    }
}
