//! Tables of version 1, read and brought to version 2, and tables of version 2, brought to version 3.

ghost use Rattle.std.specs.Prelude.{◌≡◌, false, map, IfOk, IsTrue, OnErr, OnOk};
ghost use Rattle.std.specs.FinMap.{entries};
ghost use Rattle.sqlite.specs.Effect.{Database};
ghost use Rattle.sqlite.specs.State.{HasCleanDisk, State, Survives};
ghost use Rattle.sqlite.specs.Held.{Held, state};
ghost use Rattle.shop_tables.specs.Adopting.{HoldsMade, IsAsBefore, LeavesBooks, MakesSecond, MakesTables, StandsMade};
ghost use Rattle.shop_tables.specs.Renewing.{HoldsExtended, HoldsRenewed, IsBroughtOn, IsExtended, IsRenewed, SeesEarlier, StandsExtended, StandsRenewed};
ghost use Rattle.shop_tables.specs.Stays.{earlier_stays, second_stays};
ghost use Rattle.shop_tables.specs.Laying.{Adds, ClearsTotals, CopiesTotals, Does, SetsLastVersion, SetsVersion};
ghost use Rattle.shop_tables.specs.declared.laying.TheConstants.{TOTALS2};
ghost use Rattle.shop_tables.specs.declared.renewing.TheConstants.{COPY_TOTALS, CLEAR_TOTALS, SET_LAST_VERSION, SET_VERSION};
ghost use Rattle.shop_statements.specs.Layout.{shop_schema, totals2_table};
ghost use Rattle.shop_statements.specs.Earlier.{HoldsEarlier, HoldsSecond, OnBooksEarlier, ShowsEarlier, ShowsSecond, second_schema};
ghost use Rattle.shop_tables.specs.Listing.{AreAllTotals, listed_row};
ghost use Rattle.shop_statements.specs.Shown.{Books, HasShopSchema, Holds, Leaves, Ran, StandsIn, Within};

use crate::laying::{BEGUN, HALTS, JOURNAL, NOTES, TOTALS2, USES, run_all};
use crate::listing::{material_rows, read_all};
use shop_records::MaterialTotals;
use shop_statements::{TableFault, all_rows};
use sqlite::{Alter, Connection, Error, Row, Transaction};
use std::alloc::Global;

fn earlier_totals_rows<S: Alter>(conn: &mut Connection<S>) -> Result<Vec<Row>, Error>
    ensures rows { OnBooksEarlier (state S.Store conn.old) (state S.Store conn.new)
        (λ books. IfOk result (λ rows. rows.items ≡ map listed_row (entries books.totals))) }
    ensures leaves { Leaves (state S.Store conn.old) (state S.Store conn.new) }
    ensures mode { conn.old.in_transaction ≡ false → conn.new.in_transaction ≡ false }
{
    all_rows(
        conn,
        "SELECT received, stock, rack, pieces, kerf, scrap, 0, material FROM totals ORDER BY material",
        &[],
    )
}

/// The totals of all materials in tables of version 1, by rising code; None where a material has none, or another code has
/// some.
pub fn list_earlier_totals<S: Alter>(
    alloc: Global,
    conn: &mut Connection<S>,
) -> Result<Option<Vec<MaterialTotals>>, TableFault>
    ensures rows { OnBooksEarlier (state S.Store conn.old) (state S.Store conn.new)
        (λ books. IfOk result (AreAllTotals books)) }
    ensures leaves { Leaves (state S.Store conn.old) (state S.Store conn.new) }
    ensures mode { conn.old.in_transaction ≡ false → conn.new.in_transaction ≡ false }
{
    let materials = material_rows(conn)?;
    let totals = earlier_totals_rows(conn)?;
    read_all(alloc, &materials, &totals)
}

// The totals of version 1, as those of version 2: 0 of each material was returned.
const COPY_TOTALS: &str =
    "INSERT INTO totals2 (material, received, stock, rack, pieces, kerf, scrap, returned) SELECT material, received, stock, rack, pieces, kerf, scrap, 0 FROM totals";

const CLEAR_TOTALS: &str = "DELETE FROM totals";

const SET_VERSION: &str = "UPDATE meta SET value = 2 WHERE name = 'version'";

const SET_LAST_VERSION: &str = "UPDATE meta SET value = 3 WHERE name = 'version'";

// The steps from version 1 to version 2, in the order in which they run.
const STEPS: [&str; 4] = [TOTALS2, COPY_TOTALS, CLEAR_TOTALS, SET_VERSION];

// The steps from version 2 to version 3, in the order in which they run.
const LAST_STEPS: [&str; 6] = [JOURNAL, USES, NOTES, BEGUN, HALTS, SET_LAST_VERSION];

/// What each step from version 1 to version 2 does, and the last from version 2 to version 3; those before it make tables.
pub fn steps_renew_tables<S: Alter>()
    ensures totals2 { Adds S.Store TOTALS2.now totals2_table }
    ensures copy { Does S.Store COPY_TOTALS.now second_schema CopiesTotals }
    ensures clear { Does S.Store CLEAR_TOTALS.now second_schema ClearsTotals }
    ensures version { Does S.Store SET_VERSION.now second_schema SetsVersion }
    ensures last { Does S.Store SET_LAST_VERSION.now shop_schema SetsLastVersion }
{}

/// Brings tables of version 1 to version 2: the totals move to a table of their own, where 0 of each material was returned.
pub(crate) fn renew_tables<S: Alter>(tx: &mut Transaction<'_, S>) -> Result<(), Error>
    ensures same_reference { tx.new.conn.ghost_name ≡ tx.old.conn.ghost_name }
    ensures renewed { (b : Books)
        → (HasCleanDisk (state S.Store tx.old.conn.now)
        → IsTrue (state S.Store tx.old.conn.now).is_open
        → ShowsEarlier (state S.Store tx.old.conn.now) b)
        → OnOk result
        (MakesSecond (state S.Store tx.old.conn.now) (state S.Store tx.new.conn.now) b) }
    ensures ran { OnOk result (Ran (state S.Store tx.old.conn.now)
        (state S.Store tx.new.conn.now)) }
    ensures beside { SeesEarlier (state S.Store tx.old.conn.now)
        → HasCleanDisk (state S.Store tx.new.conn.now)
        → OnOk result (IsRenewed (state S.Store tx.old.conn.now).now
        (state S.Store tx.new.conn.now).now) }
    ensures was_open { HasCleanDisk (state S.Store tx.new.conn.now)
        → OnOk result (IsTrue (state S.Store tx.old.conn.now).is_open) }
    ensures within { Within (state S.Store tx.old.conn.now) (state S.Store tx.new.conn.now) }
{
    run_all(tx, &STEPS)
}

/// Brings tables of version 2 to version 3, whose tables are made empty.
pub(crate) fn extend_tables<S: Alter>(tx: &mut Transaction<'_, S>) -> Result<(), Error>
    ensures same_reference { tx.new.conn.ghost_name ≡ tx.old.conn.ghost_name }
    ensures extended { (b : Books)
        → (HasCleanDisk (state S.Store tx.old.conn.now)
        → IsTrue (state S.Store tx.old.conn.now).is_open
        → ShowsSecond (state S.Store tx.old.conn.now) b)
        → OnOk result
        (MakesTables (state S.Store tx.old.conn.now) (state S.Store tx.new.conn.now) b) }
    ensures ran { OnOk result (Ran (state S.Store tx.old.conn.now)
        (state S.Store tx.new.conn.now)) }
    ensures beside { SeesEarlier (state S.Store tx.old.conn.now)
        → HasCleanDisk (state S.Store tx.new.conn.now)
        → OnOk result (IsExtended (state S.Store tx.old.conn.now).now
        (state S.Store tx.new.conn.now).now) }
    ensures within { Within (state S.Store tx.old.conn.now) (state S.Store tx.new.conn.now) }
{
    run_all(tx, &LAST_STEPS)
}

/// What brings tables of an earlier version to version 3.
trait Upgrade<S: Alter> {
    /// The connection holds the books in that version.
    ghost holds: { State → Books → Type 0 };

    /// What a database is brought to.
    ghost brings: { Database → Database → Type 0 };

    /// Runs it inside a transaction.
    fn run(tx: &mut Transaction<'_, S>) -> Result<(), Error>
        ensures same_reference { tx.new.conn.ghost_name ≡ tx.old.conn.ghost_name }
        ensures makes { (b : Books) → holds (state S.Store tx.old.conn.now) b
            → OnOk result
            (MakesTables (state S.Store tx.old.conn.now) (state S.Store tx.new.conn.now) b) }
        ensures ran { OnOk result (Ran (state S.Store tx.old.conn.now)
            (state S.Store tx.new.conn.now)) }
        ensures beside { SeesEarlier (state S.Store tx.old.conn.now)
            → HasCleanDisk (state S.Store tx.new.conn.now)
            → OnOk result (brings (state S.Store tx.old.conn.now).now
            (state S.Store tx.new.conn.now).now) }
        ensures within { Within (state S.Store tx.old.conn.now) (state S.Store tx.new.conn.now) };

    /// Where the connection sees what it saw, it holds the books still.
    ghost stays: { (old new : Held S) (b : Books)
        → (HasCleanDisk (state S.Store new) → HasCleanDisk (state S.Store old))
        → IsAsBefore (state S.Store old) (state S.Store new)
        → holds (state S.Store old) b → holds (state S.Store new) b };
}

/// From version 1 to version 2, and from it to version 3.
struct FromFirst;

impl<S: Alter> Upgrade<S> for FromFirst {
    ghost holds = { HoldsEarlier };

    ghost brings = { IsBroughtOn };

    #[tactic(auto, using(shop_statements::proofs::Steps::within_then))]
    fn run(tx: &mut Transaction<'_, S>) -> Result<(), Error> {
        renew_tables(tx)?;
        extend_tables(tx)
    }

    ghost stays = { λ _ _. earlier_stays _ _ };
}

/// From version 2 to version 3.
struct FromSecond;

impl<S: Alter> Upgrade<S> for FromSecond {
    ghost holds = { HoldsSecond };

    ghost brings = { IsExtended };

    fn run(tx: &mut Transaction<'_, S>) -> Result<(), Error> {
        extend_tables(tx)
    }

    ghost stays = { λ _ _. second_stays _ _ };
}

// Brings tables of an earlier version to version 3 in one transaction.
fn upgrade_shop<S: Alter, U: Upgrade<S>>(conn: &mut Connection<S>) -> Result<(), TableFault>
    requires outside { conn.old.in_transaction ≡ false }
    ensures mode { conn.new.in_transaction ≡ false }
    ensures earlier { HasCleanDisk (state S.Store conn.new)
        → HasCleanDisk (state S.Store conn.old) }
    ensures upgraded { (b : Books) → U.holds (state S.Store conn.old) b
        → OnOk result (Holds (state S.Store conn.new) b) }
    ensures as_before { (b : Books) → U.holds (state S.Store conn.old) b
        → OnErr result (U.holds (state S.Store conn.new) b) }
    ensures crash { (b : Books) → U.holds (state S.Store conn.old) b
        → Survives (state S.Store conn.old) (state S.Store conn.new) (λ db. StandsIn db b) }
    ensures after { (b : Books) → U.holds (state S.Store conn.old) b
        → OnOk result (LeavesBooks (state S.Store conn.new) b) }
    ensures schema { (b : Books) → U.holds (state S.Store conn.old) b
        → OnOk result (HasShopSchema (state S.Store conn.new)) }
    ensures beside { SeesEarlier (state S.Store conn.old)
        → OnOk result (HoldsMade U.brings (state S.Store conn.old) (state S.Store conn.new)) }
    ensures undone { OnErr result (IsAsBefore (state S.Store conn.old) (state S.Store conn.new)) }
    ensures beside_crash { SeesEarlier (state S.Store conn.old)
        → Survives (state S.Store conn.old) (state S.Store conn.new)
        (λ db. IsTrue (state S.Store conn.old).is_open
        × StandsMade U.brings (state S.Store conn.old).now db) }
{
    let _outside = conn.is_autocommit();
    let mut tx = conn.transaction();
    U::run(&mut tx)?;
    tx.commit()?;
    Ok(())
}

/// Brings tables of version 1 to version 2 and from it to version 3, in one transaction: as a whole, or not at all.
pub fn renew_shop<S: Alter>(conn: &mut Connection<S>) -> Result<(), TableFault>
    requires outside { conn.old.in_transaction ≡ false }
    ensures mode { conn.new.in_transaction ≡ false }
    ensures earlier { HasCleanDisk (state S.Store conn.new)
        → HasCleanDisk (state S.Store conn.old) }
    ensures renewed { (b : Books) → HoldsEarlier (state S.Store conn.old) b
        → OnOk result (Holds (state S.Store conn.new) b) }
    ensures as_before { (b : Books) → HoldsEarlier (state S.Store conn.old) b
        → OnErr result (HoldsEarlier (state S.Store conn.new) b) }
    ensures crash { (b : Books) → HoldsEarlier (state S.Store conn.old) b
        → Survives (state S.Store conn.old) (state S.Store conn.new) (λ db. StandsIn db b) }
    ensures after { (b : Books) → HoldsEarlier (state S.Store conn.old) b
        → OnOk result (LeavesBooks (state S.Store conn.new) b) }
    ensures schema { (b : Books) → HoldsEarlier (state S.Store conn.old) b
        → OnOk result (HasShopSchema (state S.Store conn.new)) }
    ensures beside { SeesEarlier (state S.Store conn.old)
        → OnOk result (HoldsRenewed (state S.Store conn.old) (state S.Store conn.new)) }
    ensures undone { OnErr result (IsAsBefore (state S.Store conn.old) (state S.Store conn.new)) }
    ensures beside_crash { SeesEarlier (state S.Store conn.old)
        → Survives (state S.Store conn.old) (state S.Store conn.new)
        (StandsRenewed (state S.Store conn.old)) }
{
    upgrade_shop::<S, FromFirst>(conn)
}

/// Brings tables of version 2 to version 3 in one transaction: as a whole, or not at all.
pub fn extend_shop<S: Alter>(conn: &mut Connection<S>) -> Result<(), TableFault>
    requires outside { conn.old.in_transaction ≡ false }
    ensures mode { conn.new.in_transaction ≡ false }
    ensures earlier { HasCleanDisk (state S.Store conn.new)
        → HasCleanDisk (state S.Store conn.old) }
    ensures extended { (b : Books) → HoldsSecond (state S.Store conn.old) b
        → OnOk result (Holds (state S.Store conn.new) b) }
    ensures as_before { (b : Books) → HoldsSecond (state S.Store conn.old) b
        → OnErr result (HoldsSecond (state S.Store conn.new) b) }
    ensures crash { (b : Books) → HoldsSecond (state S.Store conn.old) b
        → Survives (state S.Store conn.old) (state S.Store conn.new) (λ db. StandsIn db b) }
    ensures after { (b : Books) → HoldsSecond (state S.Store conn.old) b
        → OnOk result (LeavesBooks (state S.Store conn.new) b) }
    ensures schema { (b : Books) → HoldsSecond (state S.Store conn.old) b
        → OnOk result (HasShopSchema (state S.Store conn.new)) }
    ensures beside { SeesEarlier (state S.Store conn.old)
        → OnOk result (HoldsExtended (state S.Store conn.old) (state S.Store conn.new)) }
    ensures undone { OnErr result (IsAsBefore (state S.Store conn.old) (state S.Store conn.new)) }
    ensures beside_crash { SeesEarlier (state S.Store conn.old)
        → Survives (state S.Store conn.old) (state S.Store conn.new)
        (StandsExtended (state S.Store conn.old)) }
{
    upgrade_shop::<S, FromSecond>(conn)
}
