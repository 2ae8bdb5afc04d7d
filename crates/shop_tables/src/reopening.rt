//! Files that are opened after a crash.

ghost use Rattle.std.specs.Prelude.{◌≡◌, IsTrue};
ghost use Rattle.sqlite.specs.Files.{file_state, image_of, IsOpened, Finds};
ghost use Rattle.sqlite.specs.Held.{Held, AreDatabases};
ghost use Rattle.sqlite_disk.specs.declared.Files.{Files};
ghost use Rattle.sqlite_store.specs.FileStore as store;
ghost use Rattle.sqlite_store.specs.declared.store.FileStore.{FileStore};
ghost use Rattle.sqlite_trees.specs.Tree.{Trees};
ghost use Rattle.sqlite_wal.specs.Recovery.{Image};
ghost use Rattle.shop_records.specs.Content.{Content};
ghost use Rattle.shop_tables.specs.Held.{IsSettledAt, StandsFor};

use sqlite_disk::Disk;

/// What a crash leaves is found again: a connection that opened on files with what a crash of a store of `into_store` may
/// leave sees one of the databases that the store allows, and is settled at the content for which that stands. So
/// `adopt_tables` goes on with it.
pub fn left_contents_are_found<D: Disk>()
    ensures { (it : FileStore D D.Disk) → IsTrue (store.view it).is_numbered
        → AreDatabases (store.recovers it)
        → (left : Image) → (store.state it).may_leave left → (files : Files D)
        → image_of D.Disk files ≡ left
        → (new : Held (FileStore D D.Disk)) → IsOpened new → Finds files new
        → ∥ ((db : Trees) × store.recovers it db
        × ((m : Content) → StandsFor db m → IsSettledAt (file_state new) m)) ∥₁ }
{}
