//! What a crash leaves of an open store, and what the next opening of it finds.

ghost use Rattle.std.specs.Prelude.{IsTrue, List, ℕ};
ghost use Rattle.sqlite.specs.Files.{file_state};
ghost use Rattle.sqlite.specs.Held.{Held};
ghost use Rattle.sqlite.specs.State.{HasCleanDisk};
ghost use Rattle.sqlite_store.specs.declared.store.FileStore.{FileStore as StoreOf};
ghost use Rattle.sqlite_wal.specs.Recovery.{Image};
ghost use Rattle.shop_records.specs.Content.{Content};
ghost use Rattle.shop_records.specs.declared.messages.Message.{Message as MessageOf};
ghost use Rattle.shop_records.specs.declared.messages.Reply.{Reply as ReplyOf};
ghost use Rattle.shop_tables.specs.Held.{HoldsContent, LeavesOnly, StandsFor};
ghost use Rattle.shop_desk.specs.Handled.{Leads};
ghost use Rattle.shop_forms.specs.Forms.{json_texts};
ghost use Rattle.shop_book.specs.declared.ledger.Ledger.{Ledger as LedgerOf};
ghost use Rattle.shop_store.specs.SqlBooks.{HoldsLedger};
ghost use Rattle.shop_store.specs.declared.remembered.Remembered.{Remembered as RememberedOf};
ghost use Rattle.shop_opening.specs.Openings.{IsOpenedOn, LeavesShown, ShowsContent};
ghost use Rattle.shop_opening.specs.Stops.{IsAfter, IsLeftOf, WasRefused};

use sqlite_disk::Disk;

/// The files that a crash of an open store leaves show the content after each answer that was given, and the book that
/// the next opening of these files gives (`open_file`) holds it.
///
/// - `only`: if the connection leaves only one content, as one of a book just opened does, the files show it.
/// - `held`: so they do if the connection holds one, and no disk error has shut it.
/// - `refused`: so they do if the tables of opened files weren't taken over.
/// - `after`: if a book that left only one content had messages handled, whatever happened to its disk (`Leads`, of
///   `run`, `replay` and `serve_on`), the files show the content after the last answer, or one step further, by a
///   message that was refused.
/// - `again`: if files that show a content were opened as a book, perhaps in another run of the program, it holds that
///   content.
pub fn stopped_stores_are_found<D: Disk>()
    ensures only { (last : Held (StoreOf D D.Disk)) (m : Content) → HasCleanDisk (file_state last)
        → LeavesOnly (file_state last) m → (image : Image) → IsLeftOf last image
        → ∥ ShowsContent image m ∥₁ }
    ensures held { (last : Held (StoreOf D D.Disk)) (m : Content) → HasCleanDisk (file_state last)
        → IsTrue (file_state last).is_open → HoldsContent (file_state last) m → (image : Image)
        → IsLeftOf last image → ∥ ShowsContent image m ∥₁ }
    ensures refused { (last : Held (StoreOf D D.Disk)) (m : Content) → HasCleanDisk (file_state last)
        → LeavesShown (file_state last) m → (image : Image) → IsLeftOf last image
        → ∥ ShowsContent image m ∥₁ }
    ensures after { (first last : Held (StoreOf D D.Disk)) (old next : Content)
        (messages : List MessageOf) (answers : List ReplyOf) → HasCleanDisk (file_state first)
        → LeavesOnly (file_state first) old
        → Leads json_texts StandsFor (file_state first).may_leave old messages answers next
        (file_state last).may_leave
        → (image : Image) → IsLeftOf last image
        → ∥ ((found : Content) × IsAfter (WasRefused messages answers) next found
        × ShowsContent image found) ∥₁ }
    ensures again { (image : Image) (m : Content) → ∥ ShowsContent image m ∥₁
        → (next : Held (StoreOf D D.Disk)) (it : RememberedOf) (ledger : LedgerOf) (failures : ℕ)
        → IsOpenedOn image next it ledger failures
        → ∥ HoldsLedger (file_state next) it ledger m ∥₁ }
{}
