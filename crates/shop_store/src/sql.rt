//! The book in SQL tables, and how it takes a database over.

ghost use Rattle.std.specs.Prelude.{◌≡◌, ◌≢◌, false, true, Err, IfOk, IfErr, IsTrue, OnOk, OnErr, []};
ghost use Rattle.sqlite.specs.Held.{state};
ghost use Rattle.sqlite.specs.Does.{lacks_sequence};
ghost use Rattle.sqlite.specs.State.{HasCleanDisk, Survives};
ghost use Rattle.sqlite.specs.Steps.{over_memory};
ghost use Rattle.shop_records.specs.Content.{Content, fresh};
ghost use Rattle.shop_records.specs.WellFormed.{HasLines};
ghost use Rattle.shop_tables.specs.Adopting.{HasVersion, HoldsBeside, IsAsBefore, IsVacant, StandsBeside, names_are_earlier, names_are_free, names_are_second};
ghost use Rattle.shop_tables.specs.Renewing.{HoldsExtended, HoldsRenewed, SeesEarlier, StandsExtended, StandsRenewed};
ghost use Rattle.shop_statements.specs.Earlier.{earlier_schema, second_schema};
ghost use Rattle.shop_tables.specs.Held.{HoldsContent, IsSettledAt, LeavesOnly, StandsFor};
ghost use Rattle.shop_statements.specs.Layout.{no_schema, HasShopTables};
ghost use Rattle.shop_tables.specs.Changing.{HasSums, HasTrail};
ghost use Rattle.shop_statements.specs.Shown.{Books, HasShopSchema, Holds, IsSettled, Leaves};
ghost use Rattle.shop_book.specs.Ledgers.{bare, content_in};
ghost use Rattle.shop_store.specs.EarlierBooks.{HoldsEarlierContent, HoldsFirstContent, HoldsSecondContent, IsSettledEarlierAt};
ghost use Rattle.shop_store.specs.SqlBooks.{adopt_fault, book_fault, EitherWay};
ghost use Rattle.shop_store.specs.Storing.{IsRemembered};
ghost use Rattle.shop_book.specs.declared.books.BookFault.TheVariants.{WrongVersion};

use crate::entries::{find_remembered, no_entries};
use crate::loaded::Loaded;
use crate::loading::{load_earlier_ledger, load_ledger, load_second_ledger};
use crate::posted::LedgerBook;
use crate::remembered::Remembered;
use crate::sql_storage::SqlStorage;
use shop_book::{BookFault, Ledger};
use shop_tables::{AdoptFault, Adopted, TableFault, adopt_tables, extend_shop, renew_shop};
use sqlite::{Alter, Connection, MemStore};
use std::alloc::Global;

/// A book in SQL tables, over any store of `sqlite`.
pub type SqlBook<S> = LedgerBook<SqlStorage<S>>;

// What the tables' fault is to a book.
fn fault_of_adopt(fault: AdoptFault) -> BookFault
    ensures { result ≡ adopt_fault fault }
{
    match fault {
        AdoptFault::NoMemory => BookFault::NoMemory,
        AdoptFault::Store => BookFault::Store,
        AdoptFault::WrongVersion => BookFault::WrongVersion,
    }
}

fn fault_of_tables(fault: TableFault) -> BookFault
    ensures { result ≡ book_fault fault }
{
    match fault {
        TableFault::NoMemory => BookFault::NoMemory,
        TableFault::Store => BookFault::Store,
    }
}

// A book over an empty database.
fn fresh_book<S: Alter + Drop>(alloc: Global, conn: Connection<S>) -> Result<SqlBook<S>, BookFault>
    requires outside { conn.in_transaction ≡ false }
    requires vacant { conn.schema ≡ no_schema }
    ensures fresh { IfOk result (λ book. HoldsContent (state S.Store book.storage.conn) fresh) }
    ensures after { IfOk result (λ book. LeavesOnly (state S.Store book.storage.conn) fresh) }
    ensures failures { IfOk result (λ book. book.failures ≡ 0) }
    ensures version { IfErr result (λ fault. fault ≢ WrongVersion) }
{
    match SqlBook::adopt(alloc, conn) {
        Ok(book) => Ok(book),
        Err((fault, _)) => Err(fault),
    }
}

// Brings tables of version 1 to version 3 in one transaction, where their totals are the sums of their parts.
fn renew<S: Alter>(alloc: Global, conn: &mut Connection<S>) -> Result<Ledger, BookFault>
    requires { conn.old.in_transaction ≡ false }
    ensures mode { conn.new.in_transaction ≡ false }
    ensures earlier { HasCleanDisk (state S.Store conn.new)
        → HasCleanDisk (state S.Store conn.old) }
    ensures renewed { (m : Content) → HoldsFirstContent (state S.Store conn.old) m
        → OnOk result (HoldsContent (state S.Store conn.new) m) }
    ensures as_before { (m : Content) → HoldsFirstContent (state S.Store conn.old) m
        → OnErr result (HoldsFirstContent (state S.Store conn.new) m) }
    ensures crash { (m : Content) → HoldsFirstContent (state S.Store conn.old) m
        → Survives (state S.Store conn.old) (state S.Store conn.new) (λ db. StandsFor db m) }
    ensures after { (m : Content) → HoldsFirstContent (state S.Store conn.old) m
        → OnOk result (LeavesOnly (state S.Store conn.new) m) }
    ensures schema { (m : Content) → HoldsFirstContent (state S.Store conn.old) m
        → OnOk result (HasShopSchema (state S.Store conn.new)) }
    ensures loaded { (m : Content) → HoldsFirstContent (state S.Store conn.old) m
        → HasCleanDisk (state S.Store conn.new)
        → IfOk result (λ ledger. content_in ledger ≡ bare m) }
    ensures unwritten { result ≡ Err WrongVersion
        → Leaves (state S.Store conn.old) (state S.Store conn.new) }
    ensures neither { result ≡ Err WrongVersion → HasCleanDisk (state S.Store conn.new)
        → (m : Content) → HoldsFirstContent (state S.Store conn.old) m → ⊥ }
    ensures beside { SeesEarlier (state S.Store conn.old)
        → OnOk result (HoldsRenewed (state S.Store conn.old) (state S.Store conn.new)) }
    ensures undone { OnErr result (IsAsBefore (state S.Store conn.old) (state S.Store conn.new)) }
    ensures beside_crash { SeesEarlier (state S.Store conn.old)
        → Survives (state S.Store conn.old) (state S.Store conn.new)
        (StandsRenewed (state S.Store conn.old)) }
{
    let _outside = conn.is_autocommit();
    let ledger = match load_earlier_ledger(alloc, conn) {
        Ok(Loaded::Ledger(ledger)) => ledger,
        Ok(Loaded::OtherSums) => return Err(BookFault::WrongVersion),
        Ok(Loaded::NoRow(_)) => return Err(BookFault::WrongVersion),
        Err(fault) => return Err(fault_of_tables(fault)),
    };
    match renew_shop(conn) {
        Ok(()) => Ok(ledger),
        Err(fault) => Err(fault_of_tables(fault)),
    }
}

// Brings tables of version 2 to version 3 in one transaction, where their totals are the sums of their parts.
fn extend<S: Alter>(alloc: Global, conn: &mut Connection<S>) -> Result<Ledger, BookFault>
    requires { conn.old.in_transaction ≡ false }
    ensures mode { conn.new.in_transaction ≡ false }
    ensures earlier { HasCleanDisk (state S.Store conn.new)
        → HasCleanDisk (state S.Store conn.old) }
    ensures extended { (m : Content) → HoldsSecondContent (state S.Store conn.old) m
        → OnOk result (HoldsContent (state S.Store conn.new) m) }
    ensures as_before { (m : Content) → HoldsSecondContent (state S.Store conn.old) m
        → OnErr result (HoldsSecondContent (state S.Store conn.new) m) }
    ensures crash { (m : Content) → HoldsSecondContent (state S.Store conn.old) m
        → Survives (state S.Store conn.old) (state S.Store conn.new) (λ db. StandsFor db m) }
    ensures after { (m : Content) → HoldsSecondContent (state S.Store conn.old) m
        → OnOk result (LeavesOnly (state S.Store conn.new) m) }
    ensures schema { (m : Content) → HoldsSecondContent (state S.Store conn.old) m
        → OnOk result (HasShopSchema (state S.Store conn.new)) }
    ensures loaded { (m : Content) → HoldsSecondContent (state S.Store conn.old) m
        → HasCleanDisk (state S.Store conn.new)
        → IfOk result (λ ledger. content_in ledger ≡ bare m) }
    ensures unwritten { result ≡ Err WrongVersion
        → Leaves (state S.Store conn.old) (state S.Store conn.new) }
    ensures neither { result ≡ Err WrongVersion → HasCleanDisk (state S.Store conn.new)
        → (m : Content) → HoldsSecondContent (state S.Store conn.old) m → ⊥ }
    ensures beside { SeesEarlier (state S.Store conn.old)
        → OnOk result (HoldsExtended (state S.Store conn.old) (state S.Store conn.new)) }
    ensures undone { OnErr result (IsAsBefore (state S.Store conn.old) (state S.Store conn.new)) }
    ensures beside_crash { SeesEarlier (state S.Store conn.old)
        → Survives (state S.Store conn.old) (state S.Store conn.new)
        (StandsExtended (state S.Store conn.old)) }
{
    let _outside = conn.is_autocommit();
    let ledger = match load_second_ledger(alloc, conn) {
        Ok(Loaded::Ledger(ledger)) => ledger,
        Ok(Loaded::OtherSums) => return Err(BookFault::WrongVersion),
        Ok(Loaded::NoRow(_)) => return Err(BookFault::WrongVersion),
        Err(fault) => return Err(fault_of_tables(fault)),
    };
    match extend_shop(conn) {
        Ok(()) => Ok(ledger),
        Err(fault) => Err(fault_of_tables(fault)),
    }
}

impl SqlBook<MemStore> {
    /// A book in memory, in which nothing was done yet.
    pub fn in_memory(alloc: Global) -> Result<SqlBook<MemStore>, BookFault>
        ensures fresh { IfOk result (λ book. HoldsContent (state over_memory book.storage.conn) fresh) }
        ensures after { IfOk result (λ book. LeavesOnly (state over_memory book.storage.conn) fresh) }
        ensures failures { IfOk result (λ book. book.failures ≡ 0) }
        ensures version { IfErr result (λ fault. fault ≢ WrongVersion) }
    {
        let conn = Connection::open_in_memory(alloc)?;
        fresh_book(alloc, conn)
    }
}

impl<S: Alter> SqlBook<S> {
    /// Takes over the database of a connection that is outside a transaction. It makes the tables where no table, index or
    /// view has one of their names, in one transaction, goes on with tables of version 3, and brings those of versions 2 and 1
    /// to version 3, in one transaction, with no entry. It hands the connection back beside its fault, which is `WrongVersion`
    /// where a name is taken and the tables aren't there, or are of another version, or their totals aren't the sums of their
    /// parts, or their entries have a gap, or versions 3 or 2 have rows in the totals of version 1, or versions 2 or 1 have an
    /// undone job or part; nothing is written then.
    pub fn adopt(
        alloc: Global,
        mut conn: Connection<S>,
    ) -> Result<SqlBook<S>, (BookFault, Connection<S>)>
        requires outside { conn.in_transaction ≡ false }
        ensures mode { IfErr result (λ back. back.1.in_transaction ≡ false) }
        ensures failures { IfOk result (λ book. book.failures ≡ 0) }
        ensures earlier { EitherWay (λ book. book.storage.conn)
            (λ after. HasCleanDisk (state S.Store after)
            → HasCleanDisk (state S.Store conn)) result }
        ensures fresh { conn.schema ≡ no_schema
            → IfOk result (λ book. HoldsContent (state S.Store book.storage.conn) fresh) }
        ensures vacant { conn.schema ≡ no_schema
            → IfErr result (λ back. IsVacant (state S.Store back.1)) }
        ensures crash { conn.schema ≡ no_schema
            → EitherWay (λ book. book.storage.conn)
            (λ after. Survives (state S.Store conn) (state S.Store after)
            (λ db. StandsFor db fresh)) result }
        ensures after { conn.schema ≡ no_schema
            → IfOk result (λ book. LeavesOnly (state S.Store book.storage.conn) fresh) }
        ensures held { (m : Content) → IsSettledAt (state S.Store conn) m
            → EitherWay (λ book. book.storage.conn) (λ after. HoldsContent (state S.Store after) m) result }
        ensures sums { IfOk result
            (λ book. HasCleanDisk (state S.Store book.storage.conn) → (b : Books)
            → IsSettled (state S.Store conn) b → HasSums b
            × Holds (state S.Store book.storage.conn) b) }
        ensures loaded { (m : Content) → IsSettledAt (state S.Store conn) m
            → IfOk result (λ book. HasCleanDisk (state S.Store book.storage.conn)
            → content_in book.ledger ≡ bare m) }
        ensures renewed_loaded { (m : Content) → IsSettledEarlierAt (state S.Store conn) m
            → IfOk result (λ book. HasCleanDisk (state S.Store book.storage.conn)
            → content_in book.ledger ≡ bare m) }
        ensures fresh_loaded { names_are_free conn.schema ≡ true
            → IfOk result (λ book. content_in book.ledger ≡ fresh) }
        ensures last { (m : Content) → IsSettledAt (state S.Store conn) m
            → IfOk result (λ book. HasCleanDisk (state S.Store book.storage.conn)
            → IsRemembered m book.storage.remembered) }
        ensures renewed_last { (m : Content) → IsSettledEarlierAt (state S.Store conn) m
            → IfOk result (λ book. IsRemembered m book.storage.remembered) }
        ensures fresh_last { names_are_free conn.schema ≡ true
            → IfOk result (λ book. IsRemembered fresh book.storage.remembered) }
        ensures still { HasShopTables conn.schema
            → EitherWay (λ book. book.storage.conn)
            (λ after. Survives (state S.Store conn) (state S.Store after) (λ _. ⊥)) result }
        ensures foreign { IfErr result (λ back. back.0 ≡ WrongVersion → conn.schema ≢ no_schema) }
        ensures unwritten { IfErr result
            (λ back. back.0 ≡ WrongVersion → Leaves (state S.Store conn) (state S.Store back.1)) }
        ensures neither { IfErr result
            (λ back. back.0 ≡ WrongVersion → HasCleanDisk (state S.Store back.1) → (m : Content)
            → IsSettledAt (state S.Store conn) m → ⊥) }
        ensures renewed { (m : Content) → IsSettledEarlierAt (state S.Store conn) m
            → IfOk result (λ book. HoldsContent (state S.Store book.storage.conn) m) }
        ensures as_before { (m : Content) → IsSettledEarlierAt (state S.Store conn) m
            → IfErr result (λ back. HoldsEarlierContent (state S.Store back.1) m) }
        ensures renewed_crash { (m : Content) → IsSettledEarlierAt (state S.Store conn) m
            → EitherWay (λ book. book.storage.conn)
            (λ after. Survives (state S.Store conn) (state S.Store after)
            (λ db. StandsFor db m)) result }
        ensures renewed_after { (m : Content) → IsSettledEarlierAt (state S.Store conn) m
            → IfOk result (λ book. LeavesOnly (state S.Store book.storage.conn) m) }
        ensures not_earlier { IfErr result
            (λ back. back.0 ≡ WrongVersion → HasCleanDisk (state S.Store back.1) → (m : Content)
            → IsSettledEarlierAt (state S.Store conn) m → ⊥) }
        ensures schema { conn.schema ≡ no_schema
            → IfOk result (λ book. HasShopSchema (state S.Store book.storage.conn)) }
        ensures renewed_schema { (m : Content) → IsSettledEarlierAt (state S.Store conn) m
            → IfOk result (λ book. HasShopSchema (state S.Store book.storage.conn)) }
        ensures held_after { (m : Content) → IsSettledAt (state S.Store conn) m
            → IsTrue (state S.Store conn).is_open
            → EitherWay (λ book. book.storage.conn) (λ after. LeavesOnly (state S.Store after) m) result }
        ensures version { HasShopTables conn.schema
            → IfOk result (λ book. HasCleanDisk (state S.Store book.storage.conn)
            → HasVersion (state S.Store conn) 3) }
        ensures no_old_totals { HasShopTables conn.schema
            → IfOk result (λ book. HasCleanDisk (state S.Store book.storage.conn)
            → (state S.Store conn).now.trees 15 ≡ []) }
        ensures second_version { conn.schema ≡ second_schema
            → IfOk result (λ book. HasCleanDisk (state S.Store book.storage.conn)
            → HasVersion (state S.Store conn) 2) }
        ensures second_old_totals { conn.schema ≡ second_schema
            → IfOk result (λ book. HasCleanDisk (state S.Store book.storage.conn)
            → (state S.Store conn).now.trees 15 ≡ []) }
        ensures earlier_version { conn.schema ≡ earlier_schema
            → IfOk result (λ book. HasCleanDisk (state S.Store book.storage.conn)
            → HasVersion (state S.Store conn) 1) }
        ensures read_only { HasShopTables conn.schema
            → EitherWay (λ book. book.storage.conn)
            (λ after. Leaves (state S.Store conn) (state S.Store after)) result }
        ensures second_read_only { conn.schema ≡ second_schema
            → (¬ HasVersion (state S.Store conn) 2)
            → EitherWay (λ book. book.storage.conn)
            (λ after. HasCleanDisk (state S.Store after)
            → Leaves (state S.Store conn) (state S.Store after)) result }
        ensures earlier_read_only { conn.schema ≡ earlier_schema
            → (¬ HasVersion (state S.Store conn) 1)
            → EitherWay (λ book. book.storage.conn)
            (λ after. HasCleanDisk (state S.Store after)
            → Leaves (state S.Store conn) (state S.Store after)) result }
        ensures free { names_are_free conn.schema ≡ true
            → IfErr result (λ back. back.0 ≢ WrongVersion) }
        ensures beside { names_are_free conn.schema ≡ true → lacks_sequence conn.schema ≡ false
            → IfOk result (λ book. HoldsBeside (state S.Store conn) (state S.Store book.storage.conn)) }
        ensures beside_undone { names_are_free conn.schema ≡ true
            → IfErr result (λ back. IsAsBefore (state S.Store conn) (state S.Store back.1)) }
        ensures beside_crash { names_are_free conn.schema ≡ true
            → lacks_sequence conn.schema ≡ false
            → EitherWay (λ book. book.storage.conn)
            (λ after. Survives (state S.Store conn) (state S.Store after)
            (StandsBeside (state S.Store conn).now)) result }
        ensures extended_beside { names_are_second conn.schema ≡ true
            → SeesEarlier (state S.Store conn)
            → IfOk result
            (λ book. HoldsExtended (state S.Store conn) (state S.Store book.storage.conn)) }
        ensures second_undone { names_are_second conn.schema ≡ true
            → IfErr result (λ back. IsAsBefore (state S.Store conn) (state S.Store back.1)) }
        ensures extended_beside_crash { names_are_second conn.schema ≡ true
            → SeesEarlier (state S.Store conn)
            → EitherWay (λ book. book.storage.conn)
            (λ after. Survives (state S.Store conn) (state S.Store after)
            (StandsExtended (state S.Store conn))) result }
        ensures renewed_beside { names_are_earlier conn.schema ≡ true
            → SeesEarlier (state S.Store conn)
            → IfOk result (λ book. HoldsRenewed (state S.Store conn) (state S.Store book.storage.conn)) }
        ensures earlier_undone { names_are_earlier conn.schema ≡ true
            → IfErr result (λ back. IsAsBefore (state S.Store conn) (state S.Store back.1)) }
        ensures renewed_beside_crash { names_are_earlier conn.schema ≡ true
            → SeesEarlier (state S.Store conn)
            → EitherWay (λ book. book.storage.conn)
            (λ after. Survives (state S.Store conn) (state S.Store after)
            (StandsRenewed (state S.Store conn))) result }
    {
        match adopt_tables(&mut conn) {
            Ok(Adopted::Made) => Ok(SqlBook::over(
                alloc,
                conn,
                Ledger::new(alloc),
                no_entries(alloc),
            )),
            Ok(Adopted::Found) => SqlBook::checked(alloc, conn),
            Ok(Adopted::Second) => SqlBook::extended(alloc, conn),
            Ok(Adopted::Earlier) => SqlBook::renewed(alloc, conn),
            Err(fault) => Err((fault_of_adopt(fault), conn)),
        }
    }

    // Over tables of version 3, where their totals are the sums of their parts and their entries have no gap.
    fn checked(
        alloc: Global,
        mut conn: Connection<S>,
    ) -> Result<SqlBook<S>, (BookFault, Connection<S>)>
        requires outside { conn.in_transaction ≡ false }
        ensures mode { IfErr result (λ back. back.1.in_transaction ≡ false) }
        ensures failures { IfOk result (λ book. book.failures ≡ 0) }
        ensures leaves { EitherWay (λ book. book.storage.conn)
            (λ after. Leaves (state S.Store conn) (state S.Store after)) result }
        ensures sums { IfOk result
            (λ book. HasCleanDisk (state S.Store book.storage.conn) → (b : Books)
            → Holds (state S.Store conn) b → HasSums b) }
        ensures loaded { IfOk result
            (λ book. HasCleanDisk (state S.Store book.storage.conn) → (b : Books)
            → Holds (state S.Store conn) b → HasLines b.content
            → content_in book.ledger ≡ bare b.content) }
        ensures last { IfOk result
            (λ book. HasCleanDisk (state S.Store book.storage.conn) → (b : Books)
            → Holds (state S.Store conn) b → HasTrail b
            → IsRemembered b.content book.storage.remembered) }
        ensures neither { IfErr result
            (λ back. back.0 ≡ WrongVersion → HasCleanDisk (state S.Store back.1) → (b : Books)
            → Holds (state S.Store conn) b → HasSums b → HasTrail b → ⊥) }
    {
        match load_ledger(alloc, &mut conn) {
            Ok(Loaded::Ledger(ledger)) => SqlBook::counted(alloc, conn, ledger),
            Ok(Loaded::OtherSums) => Err((BookFault::WrongVersion, conn)),
            Ok(Loaded::NoRow(_)) => Err((BookFault::WrongVersion, conn)),
            Err(fault) => Err((fault_of_tables(fault), conn)),
        }
    }

    // Over tables of version 3 that were loaded, where their entries have no gap.
    fn counted(
        alloc: Global,
        mut conn: Connection<S>,
        ledger: Ledger,
    ) -> Result<SqlBook<S>, (BookFault, Connection<S>)>
        requires outside { conn.in_transaction ≡ false }
        ensures mode { IfErr result (λ back. back.1.in_transaction ≡ false) }
        ensures failures { IfOk result (λ book. book.failures ≡ 0) }
        ensures ledger { IfOk result (λ book. book.ledger ≡ ledger) }
        ensures leaves { EitherWay (λ book. book.storage.conn)
            (λ after. Leaves (state S.Store conn) (state S.Store after)) result }
        ensures last { IfOk result
            (λ book. HasCleanDisk (state S.Store book.storage.conn) → (b : Books)
            → Holds (state S.Store conn) b → HasTrail b
            → IsRemembered b.content book.storage.remembered) }
        ensures neither { IfErr result
            (λ back. back.0 ≡ WrongVersion → HasCleanDisk (state S.Store back.1) → (b : Books)
            → Holds (state S.Store conn) b → HasTrail b → ⊥) }
    {
        match find_remembered(alloc, &mut conn) {
            Ok(Some(it)) => Ok(SqlBook::over(alloc, conn, ledger, it)),
            Ok(None) => Err((BookFault::WrongVersion, conn)),
            Err(lost) => Err((fault_of_tables(lost), conn)),
        }
    }

    // Over tables of version 1, which are brought to version 3 where their totals are the sums of their parts.
    fn renewed(
        alloc: Global,
        mut conn: Connection<S>,
    ) -> Result<SqlBook<S>, (BookFault, Connection<S>)>
        requires outside { conn.in_transaction ≡ false }
        ensures mode { IfErr result (λ back. back.1.in_transaction ≡ false) }
        ensures failures { IfOk result (λ book. book.failures ≡ 0) }
        ensures earlier { EitherWay (λ book. book.storage.conn)
            (λ after. HasCleanDisk (state S.Store after)
            → HasCleanDisk (state S.Store conn)) result }
        ensures renewed { (m : Content) → HoldsFirstContent (state S.Store conn) m
            → IfOk result (λ book. HoldsContent (state S.Store book.storage.conn) m) }
        ensures as_before { (m : Content) → HoldsFirstContent (state S.Store conn) m
            → IfErr result (λ back. HoldsFirstContent (state S.Store back.1) m) }
        ensures crash { (m : Content) → HoldsFirstContent (state S.Store conn) m
            → EitherWay (λ book. book.storage.conn)
            (λ after. Survives (state S.Store conn) (state S.Store after)
            (λ db. StandsFor db m)) result }
        ensures after { (m : Content) → HoldsFirstContent (state S.Store conn) m
            → IfOk result (λ book. LeavesOnly (state S.Store book.storage.conn) m) }
        ensures schema { (m : Content) → HoldsFirstContent (state S.Store conn) m
            → IfOk result (λ book. HasShopSchema (state S.Store book.storage.conn)) }
        ensures unwritten { IfErr result
            (λ back. back.0 ≡ WrongVersion → Leaves (state S.Store conn) (state S.Store back.1)) }
        ensures neither { IfErr result
            (λ back. back.0 ≡ WrongVersion → HasCleanDisk (state S.Store back.1) → (m : Content)
            → HoldsFirstContent (state S.Store conn) m → ⊥) }
        ensures loaded { (m : Content) → HoldsFirstContent (state S.Store conn) m
            → IfOk result (λ book. HasCleanDisk (state S.Store book.storage.conn)
            → content_in book.ledger ≡ bare m) }
        ensures last { (m : Content) → HoldsFirstContent (state S.Store conn) m
            → IfOk result (λ book. IsRemembered m book.storage.remembered) }
        ensures beside { SeesEarlier (state S.Store conn)
            → IfOk result (λ book. HoldsRenewed (state S.Store conn) (state S.Store book.storage.conn)) }
        ensures undone { IfErr result
            (λ back. IsAsBefore (state S.Store conn) (state S.Store back.1)) }
        ensures beside_crash { SeesEarlier (state S.Store conn)
            → EitherWay (λ book. book.storage.conn)
            (λ after. Survives (state S.Store conn) (state S.Store after)
            (StandsRenewed (state S.Store conn))) result }
    {
        match renew(alloc, &mut conn) {
            Ok(ledger) => Ok(SqlBook::over(alloc, conn, ledger, no_entries(alloc))),
            Err(fault) => Err((fault, conn)),
        }
    }

    // Over tables of version 2, which are brought to version 3 where their totals are the sums of their parts.
    fn extended(
        alloc: Global,
        mut conn: Connection<S>,
    ) -> Result<SqlBook<S>, (BookFault, Connection<S>)>
        requires outside { conn.in_transaction ≡ false }
        ensures mode { IfErr result (λ back. back.1.in_transaction ≡ false) }
        ensures failures { IfOk result (λ book. book.failures ≡ 0) }
        ensures earlier { EitherWay (λ book. book.storage.conn)
            (λ after. HasCleanDisk (state S.Store after)
            → HasCleanDisk (state S.Store conn)) result }
        ensures extended { (m : Content) → HoldsSecondContent (state S.Store conn) m
            → IfOk result (λ book. HoldsContent (state S.Store book.storage.conn) m) }
        ensures as_before { (m : Content) → HoldsSecondContent (state S.Store conn) m
            → IfErr result (λ back. HoldsSecondContent (state S.Store back.1) m) }
        ensures crash { (m : Content) → HoldsSecondContent (state S.Store conn) m
            → EitherWay (λ book. book.storage.conn)
            (λ after. Survives (state S.Store conn) (state S.Store after)
            (λ db. StandsFor db m)) result }
        ensures after { (m : Content) → HoldsSecondContent (state S.Store conn) m
            → IfOk result (λ book. LeavesOnly (state S.Store book.storage.conn) m) }
        ensures schema { (m : Content) → HoldsSecondContent (state S.Store conn) m
            → IfOk result (λ book. HasShopSchema (state S.Store book.storage.conn)) }
        ensures unwritten { IfErr result
            (λ back. back.0 ≡ WrongVersion → Leaves (state S.Store conn) (state S.Store back.1)) }
        ensures neither { IfErr result
            (λ back. back.0 ≡ WrongVersion → HasCleanDisk (state S.Store back.1) → (m : Content)
            → HoldsSecondContent (state S.Store conn) m → ⊥) }
        ensures loaded { (m : Content) → HoldsSecondContent (state S.Store conn) m
            → IfOk result (λ book. HasCleanDisk (state S.Store book.storage.conn)
            → content_in book.ledger ≡ bare m) }
        ensures last { (m : Content) → HoldsSecondContent (state S.Store conn) m
            → IfOk result (λ book. IsRemembered m book.storage.remembered) }
        ensures beside { SeesEarlier (state S.Store conn)
            → IfOk result (λ book. HoldsExtended (state S.Store conn) (state S.Store book.storage.conn)) }
        ensures undone { IfErr result
            (λ back. IsAsBefore (state S.Store conn) (state S.Store back.1)) }
        ensures beside_crash { SeesEarlier (state S.Store conn)
            → EitherWay (λ book. book.storage.conn)
            (λ after. Survives (state S.Store conn) (state S.Store after)
            (StandsExtended (state S.Store conn))) result }
    {
        match extend(alloc, &mut conn) {
            Ok(rows) => Ok(SqlBook::over(alloc, conn, rows, no_entries(alloc))),
            Err(fault) => Err((fault, conn)),
        }
    }

    // Over a connection outside a transaction; no failure is counted yet.
    fn over(
        alloc: Global,
        conn: Connection<S>,
        ledger: Ledger,
        remembered: Remembered,
    ) -> SqlBook<S>
        requires { conn.in_transaction ≡ false }
        ensures conn { result.storage.conn ≡ conn }
        ensures remembered { result.storage.remembered ≡ remembered }
        ensures ledger { result.ledger ≡ ledger }
        ensures failures { result.failures ≡ 0 }
    {
        LedgerBook {
            ledger,
            storage: SqlStorage {
                alloc,
                conn,
                remembered,
            },
            failures: 0,
        }
    }

    /// The connection that it was over.
    pub fn into_connection(self) -> Connection<S>
        ensures { result ≡ self.storage.conn }
    {
        let LedgerBook {
            ledger: _,
            storage,
            failures: _,
        } = self;
        let SqlStorage {
            alloc: _,
            conn,
            remembered: _,
        } = storage;
        conn
    }
}
