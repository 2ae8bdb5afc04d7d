//! A book over files that is closed and opened again.

ghost use Rattle.std.specs.Prelude.{◌≡◌, ◌⊎◌, IfSome, IsTrue};
ghost use Rattle.sqlite.specs.Closing.{IsCopied};
ghost use Rattle.sqlite.specs.Files.{file_state, image_of, IsOpened, Finds};
ghost use Rattle.sqlite.specs.Held.{Held, AreDatabases};
ghost use Rattle.sqlite.specs.State.{HasCleanDisk, Survives};
ghost use Rattle.sqlite_disk.specs.declared.Files.{Files as FilesOf};
ghost use Rattle.sqlite_store.specs.FileStore as store;
ghost use Rattle.sqlite_store.specs.declared.store.FileStore.{FileStore as StoreOf};
ghost use Rattle.sqlite_trees.specs.Tree.{Trees};
ghost use Rattle.sqlite_wal.specs.Reads.{AreClean};
ghost use Rattle.sqlite_wal.specs.Recovery.{Image};
ghost use Rattle.shop_records.specs.Content.{Content};
ghost use Rattle.shop_store.specs.Crashes.{IsFoundAfter};
ghost use Rattle.shop_store.specs.EarlierBooks.{IsSettledEarlierAt, IsSettledEitherAt};
ghost use Rattle.shop_store.specs.SqlBooks.{HoldsLedger};
ghost use Rattle.shop_tables.specs.Held.{HoldsContent, IsSettledAt, LeavesOnly, StandsFor};

use crate::SqlBook;
use sqlite::{Connection, FileStore, Files, Options};
use sqlite_disk::Disk;
use std::alloc::Global;

fn close<D: Disk + Drop>(conn: Connection<FileStore<D>>) -> Option<Files<D>>
    ensures copied { IfSome result
        (λ files. AreClean D.Disk files.log files.db → IsCopied conn files) }
    ensures usable { IfSome result
        (λ files. IsTrue (D.Disk.is_usable files.log) × IsTrue (D.Disk.is_usable files.db)) }
{
    match conn.close_files() {
        Ok(files) => Some(files),
        Err((_, store)) => {
            drop(store.close());
            None
        }
    }
}

/// Takes the connection back, closes its files, opens them and adopts them again. The book holds the content that it held,
/// kept replies included, as `holds` of `Book` has it. None where one of these failed.
pub fn reopen_book<D: Disk + Drop>(
    alloc: Global,
    book: SqlBook<FileStore<D>>,
    options: Options,
) -> Option<SqlBook<FileStore<D>>>
    ensures { IfSome result (λ again. (m : Content) → HoldsContent (file_state book.storage.conn) m
        → HoldsLedger (file_state again.storage.conn) again.storage.remembered
        again.ledger m) }
{
    let files = close(book.into_connection())?;
    let Ok(conn) = Connection::open_files(alloc, files, options) else {
        return None;
    };
    match SqlBook::adopt(alloc, conn) {
        Ok(again) => Some(again),
        Err(_) => None,
    }
}

/// What a crash in a renewal leaves is found again. A connection was settled at a content in tables of version 2 or 1, and
/// an adopt of it came to another state, whatever exit that was (its clause `renewed_crash`); the store of that state was
/// taken back. A connection that opened on files with what a crash then leaves is settled at the same content, in version 3
/// or in that version. So a book that is adopted from it holds that content.
pub fn left_renewals_are_found<D: Disk>()
    ensures { (old after : Held (StoreOf D D.Disk)) (m : Content) → IsTrue (file_state old).is_open
        → IsSettledEarlierAt (file_state old) m
        → HasCleanDisk (file_state after)
        → Survives (file_state old) (file_state after) (λ db. StandsFor db m)
        → (it : StoreOf D D.Disk)
        → ((db : Trees) → store.recovers it db → (file_state after).may_leave db)
        → IsTrue (store.view it).is_numbered → AreDatabases (store.recovers it)
        → (left : Image) → (store.state it).may_leave left → (files : FilesOf D)
        → image_of D.Disk files ≡ left
        → (new : Held (StoreOf D D.Disk)) → IsOpened new → Finds files new
        → ∥ IsSettledEitherAt (file_state new) m ∥₁ }
{}

/// What a crash in a commit leaves is found again. A connection that is settled at a content leaves that content alone, and
/// so does one of which `after`, `held_after` or `renewed_after` of an adopt or `lasts` of a commit says it. A commit on it
/// of a change to the next content came to any exit (its clause `crash`): a connection that opened on files with what a crash
/// then leaves is settled at the content before or at the next, and after an `Ok` (its clause `lasts`) at the next. So a book
/// that is adopted from it holds that content.
pub fn left_commits_are_found<D: Disk>()
    ensures settled { (at : Held (StoreOf D D.Disk)) (m : Content) → IsTrue (file_state at).is_open
        → IsSettledAt (file_state at) m → LeavesOnly (file_state at) m }
    ensures either { (old last new : Held (StoreOf D D.Disk)) (m next : Content)
        → HasCleanDisk (file_state old) → LeavesOnly (file_state old) m
        → ((db : Trees) → (file_state last).may_leave db → (file_state old).may_leave db
        ⊎ StandsFor db next) → IsFoundAfter last new
        → ∥ (IsSettledAt (file_state new) m ⊎ IsSettledAt (file_state new) next) ∥₁ }
    ensures only { (last new : Held (StoreOf D D.Disk)) (next : Content)
        → HasCleanDisk (file_state last) → LeavesOnly (file_state last) next → IsFoundAfter last new
        → ∥ IsSettledAt (file_state new) next ∥₁ }
{}
