//! All tables, loaded into a ledger.

ghost use Rattle.std.specs.Prelude.{◌≡◌, false, None, IfOk, OnOk};
ghost use Rattle.sqlite.specs.Held.{state};
ghost use Rattle.shop_records.specs.Content.{Content, changed};
ghost use Rattle.shop_records.specs.Lists.{materials_of, order_codes};
ghost use Rattle.std.specs.FinMap.{empty, values};
ghost use Rattle.shop_statements.specs.Earlier.{HasNoneLater, OnBooksEarlier, OnBooksEither, OnBooksSecond};
ghost use Rattle.shop_statements.specs.Rows.{IsKeyed};
ghost use Rattle.shop_statements.specs.Shown.{Leaves, OnBooks};
ghost use Rattle.shop_tables.specs.Changing.{HasSums};
ghost use Rattle.shop_book.specs.Ledgers.{bare, content_in};
ghost use Rattle.shop_store.specs.Checking.{IsListOf};
ghost use Rattle.shop_store.specs.Loading.{IsLoaded, put_material, put_note, put_order, unsaid, with_each, with_said, with_work};

use crate::loadable::load_each;
use crate::loaded::Loaded;
use crate::loading_parts::load_parts;
use crate::numbered::load_numbered;
use cut_measure::Code;
use shop_book::Ledger;
use shop_records::{
    Change, Demand, DemandList, Job, JobBegin, Material, MaterialTotals, OrderNote, PartList, Reply,
};
use shop_tables::{
    NoRow, TableFault, find_last_act, find_last_demand, list_earlier_totals, list_totals,
    material_rows, note_rows, order_rows,
};
use sqlite::{Alter, Connection};
use std::alloc::Global;

/// More orders than a shop has.
const MAX_ORDERS: usize = 4294967295;

fn load_materials<S: Alter>(
    alloc: Global,
    conn: &mut Connection<S>,
    ledger: &mut Ledger,
) -> Result<Option<NoRow>, TableFault>
    ensures loaded { OnBooksEither (state S.Store conn.old) (state S.Store conn.new)
        (λ books. IfOk result (λ none. (none ≡ None)
        × (content_in ledger.new
        ≡ with_each put_material (materials_of books.content) (content_in ledger.old))
        × IsKeyed books.content)) }
    ensures second { OnBooksSecond (state S.Store conn.old) (state S.Store conn.new)
        (λ books. IfOk result (λ _. HasNoneLater books.content)) }
    ensures earlier { OnBooksEarlier (state S.Store conn.old) (state S.Store conn.new)
        (λ books. IfOk result (λ _. HasNoneLater books.content)) }
    ensures leaves { Leaves (state S.Store conn.old) (state S.Store conn.new) }
    ensures mode { conn.old.in_transaction ≡ false → conn.new.in_transaction ≡ false }
{
    let rows = material_rows(conn)?;
    load_each::<Material>(alloc, ledger, &rows)
}

fn load_orders<S: Alter>(
    alloc: Global,
    conn: &mut Connection<S>,
    ledger: &mut Ledger,
) -> Result<Option<NoRow>, TableFault>
    ensures loaded { OnBooksEither (state S.Store conn.old) (state S.Store conn.new)
        (λ books. IfOk result (λ none. (none ≡ None)
        × (content_in ledger.new
        ≡ with_each put_order (order_codes books.content) (content_in ledger.old)))) }
    ensures leaves { Leaves (state S.Store conn.old) (state S.Store conn.new) }
    ensures mode { conn.old.in_transaction ≡ false → conn.new.in_transaction ≡ false }
{
    let rows = order_rows(conn, MAX_ORDERS)?;
    if rows.len() >= MAX_ORDERS {
        return Err(TableFault::Store);
    }
    load_each::<Code>(alloc, ledger, &rows)
}

// The change that gives the last numbers and nothing else.
fn numbers_alone(alloc: Global, act: u32, demand: u32) -> Change
    ensures { (m : Content)
        → changed m result ≡ record m { last_act = act; last_demand = demand } }
{
    Change {
        material: None,
        parts: PartList::new(alloc),
        moved: None,
        undone: PartList::new(alloc),
        job: None,
        halt: None,
        begun: None,
        order: None,
        extended: None,
        note: None,
        demands: DemandList::new(alloc),
        totals: None,
        act: Some(act),
        demand: Some(demand),
        import: None,
        kept: None,
        entry: None,
        reply: Reply::Release { job: 0 },
    }
}

fn load_numbers<S: Alter>(
    alloc: Global,
    conn: &mut Connection<S>,
    ledger: &mut Ledger,
) -> Result<(), TableFault>
    ensures loaded { OnBooksEither (state S.Store conn.old) (state S.Store conn.new)
        (λ books. OnOk result (content_in ledger.new ≡ record (content_in ledger.old) {
          last_act = books.content.last_act;
          last_demand = books.content.last_demand;
        })) }
    ensures leaves { Leaves (state S.Store conn.old) (state S.Store conn.new) }
    ensures mode { conn.old.in_transaction ≡ false → conn.new.in_transaction ≡ false }
{
    let act = find_last_act(conn)?;
    let demand = find_last_demand(conn)?;
    ledger.load(numbers_alone(alloc, act, demand))?;
    Ok(())
}

// Jobs, orders, demands and the last numbers, into a ledger that has the materials and the parts.
fn load_work<S: Alter>(
    alloc: Global,
    conn: &mut Connection<S>,
    mut ledger: Ledger,
) -> Result<Loaded, TableFault>
    ensures loaded { OnBooksEither (state S.Store conn.old) (state S.Store conn.new)
        (λ books. IsKeyed books.content
        → (content_in ledger).materials ≡ books.content.materials
        → (content_in ledger).parts ≡ books.content.parts
        → IfOk result (IsLoaded (Unit {0}) (with_work books.content (content_in ledger)))) }
    ensures leaves { Leaves (state S.Store conn.old) (state S.Store conn.new) }
    ensures mode { conn.old.in_transaction ≡ false → conn.new.in_transaction ≡ false }
{
    if let Some(row) = load_numbered::<S, Job>(alloc, conn, &mut ledger)? {
        return Ok(Loaded::NoRow(row));
    }
    if let Some(row) = load_orders(alloc, conn, &mut ledger)? {
        return Ok(Loaded::NoRow(row));
    }
    if let Some(row) = load_numbered::<S, Demand>(alloc, conn, &mut ledger)? {
        return Ok(Loaded::NoRow(row));
    }
    load_numbers(alloc, conn, &mut ledger)?;
    Ok(Loaded::Ledger(ledger))
}

// What is said of orders, into a ledger.
fn load_notes<S: Alter>(
    alloc: Global,
    conn: &mut Connection<S>,
    ledger: &mut Ledger,
) -> Result<Option<NoRow>, TableFault>
    ensures loaded { OnBooks (state S.Store conn.old) (state S.Store conn.new)
        (λ books. IfOk result (λ none. (none ≡ None)
        × (content_in ledger.new
        ≡ with_each put_note (values books.content.notes) (content_in ledger.old))
        × IsKeyed books.content)) }
    ensures leaves { Leaves (state S.Store conn.old) (state S.Store conn.new) }
    ensures mode { conn.old.in_transaction ≡ false → conn.new.in_transaction ≡ false }
{
    let rows = note_rows(conn)?;
    load_each::<OrderNote>(alloc, ledger, &rows)
}

// Begun jobs and what is said of orders, into a ledger that has all else and none of them.
fn load_said<S: Alter>(
    alloc: Global,
    conn: &mut Connection<S>,
    mut ledger: Ledger,
) -> Result<Loaded, TableFault>
    ensures loaded { OnBooks (state S.Store conn.old) (state S.Store conn.new)
        (λ books. (content_in ledger).begun ≡ empty → (content_in ledger).notes ≡ empty
        → IfOk result (IsLoaded (Unit {0}) (with_said books.content (content_in ledger)))) }
    ensures leaves { Leaves (state S.Store conn.old) (state S.Store conn.new) }
    ensures mode { conn.old.in_transaction ≡ false → conn.new.in_transaction ≡ false }
{
    if let Some(row) = load_numbered::<S, JobBegin>(alloc, conn, &mut ledger)? {
        return Ok(Loaded::NoRow(row));
    }
    if let Some(row) = load_notes(alloc, conn, &mut ledger)? {
        return Ok(Loaded::NoRow(row));
    }
    Ok(Loaded::Ledger(ledger))
}

// All tables of any version but the totals, which were read already.
fn load_behind<S: Alter>(
    alloc: Global,
    conn: &mut Connection<S>,
    totals: &[MaterialTotals],
) -> Result<Loaded, TableFault>
    ensures loaded { OnBooksEither (state S.Store conn.old) (state S.Store conn.new)
        (λ books. IsListOf books totals.now
        → IfOk result (IsLoaded (HasSums books) (unsaid (bare books.content)))) }
    ensures second { OnBooksSecond (state S.Store conn.old) (state S.Store conn.new)
        (λ books. IfOk result (λ _. HasNoneLater books.content)) }
    ensures earlier { OnBooksEarlier (state S.Store conn.old) (state S.Store conn.new)
        (λ books. IfOk result (λ _. HasNoneLater books.content)) }
    ensures leaves { Leaves (state S.Store conn.old) (state S.Store conn.new) }
    ensures mode { conn.old.in_transaction ≡ false → conn.new.in_transaction ≡ false }
{
    let mut ledger = Ledger::new(alloc);
    if let Some(row) = load_materials(alloc, conn, &mut ledger)? {
        return Ok(Loaded::NoRow(row));
    }
    match load_parts(alloc, conn, ledger, totals)? {
        Loaded::Ledger(ledger) => load_work(alloc, conn, ledger),
        Loaded::OtherSums => Ok(Loaded::OtherSums),
        Loaded::NoRow(row) => Ok(Loaded::NoRow(row)),
    }
}

/// Reads each table of version 3 once, in the order of its keys, into a ledger. Tables that stand for books give the ledger of
/// all their rows except long texts, entries and where the work on jobs halted if their totals are the sums of their parts, and
/// else `OtherSums`; only other tables give `NoRow`. A number or a code that is out of the range of its type is a
/// `TableFault::Store`, but for those of parts.
pub fn load_ledger<S: Alter>(alloc: Global, conn: &mut Connection<S>) -> Result<Loaded, TableFault>
    ensures loaded { OnBooks (state S.Store conn.old) (state S.Store conn.new)
        (λ books. IfOk result (IsLoaded (HasSums books) (bare books.content))) }
    ensures leaves { Leaves (state S.Store conn.old) (state S.Store conn.new) }
    ensures mode { conn.old.in_transaction ≡ false → conn.new.in_transaction ≡ false }
{
    let Some(totals) = list_totals(alloc, conn)? else {
        return Ok(Loaded::OtherSums);
    };
    match load_behind(alloc, conn, &totals)? {
        Loaded::Ledger(ledger) => load_said(alloc, conn, ledger),
        Loaded::OtherSums => Ok(Loaded::OtherSums),
        Loaded::NoRow(row) => Ok(Loaded::NoRow(row)),
    }
}

/// The same of tables of version 2.
pub fn load_second_ledger<S: Alter>(
    alloc: Global,
    conn: &mut Connection<S>,
) -> Result<Loaded, TableFault>
    ensures loaded { OnBooksSecond (state S.Store conn.old) (state S.Store conn.new)
        (λ books. IfOk result (IsLoaded (HasSums books) (bare books.content))) }
    ensures leaves { Leaves (state S.Store conn.old) (state S.Store conn.new) }
    ensures mode { conn.old.in_transaction ≡ false → conn.new.in_transaction ≡ false }
{
    let Some(totals) = list_totals(alloc, conn)? else {
        return Ok(Loaded::OtherSums);
    };
    load_behind(alloc, conn, &totals)
}

/// The same of tables of version 1.
pub fn load_earlier_ledger<S: Alter>(
    alloc: Global,
    conn: &mut Connection<S>,
) -> Result<Loaded, TableFault>
    ensures loaded { OnBooksEarlier (state S.Store conn.old) (state S.Store conn.new)
        (λ books. IfOk result (IsLoaded (HasSums books) (bare books.content))) }
    ensures leaves { Leaves (state S.Store conn.old) (state S.Store conn.new) }
    ensures mode { conn.old.in_transaction ≡ false → conn.new.in_transaction ≡ false }
{
    let Some(totals) = list_earlier_totals(alloc, conn)? else {
        return Ok(Loaded::OtherSums);
    };
    load_behind(alloc, conn, &totals)
}
