//! The book in memory.

use crate::posted::LedgerBook;
use shop_book::{Ledger, MemStorage};
use std::alloc::{AllocError, Global};

/// A book in memory, which ends with the program. No store can fail under it, so each of its faults means that memory ran out.
/// It says so, too, of a number or a sum that is out of range and of two lines of an order with the same number, none of which
/// a shop's history leads to.
pub type MemBook = LedgerBook<MemStorage>;

impl MemBook {
    ghost use Rattle.std.specs.Prelude.{◌≡◌, ◌↔◌, IfOk, IsTrue};
    ghost use Rattle.shop_records.specs.Content.{fresh};
    ghost use Rattle.shop_book.specs.Ledgers.{content_in};
    ghost use Rattle.shop_book.specs.MemStorages.{HoldsTexts};
    ghost use Rattle.shop_store.specs.MemBooks.{content_of};

    /// A book of a shop in which nothing was done yet.
    pub fn new(alloc: Global) -> MemBook
        ensures content { content_of result ≡ fresh }
        ensures rows { content_in result.ledger ≡ fresh }
        ensures texts { HoldsTexts result.storage fresh }
        ensures failures { result.failures ≡ 0 }
    {
        LedgerBook {
            ledger: Ledger::new(alloc),
            storage: MemStorage::new(alloc),
            failures: 0,
        }
    }

    /// A book with the same content.
    pub fn copy(&self, alloc: Global) -> Result<MemBook, AllocError>
        ensures content { IfOk result (λ copy. content_of copy ≡ content_of self.now) }
        ensures failures { IfOk result (λ copy. copy.failures ≡ self.now.failures) }
    {
        let ledger = self.ledger.copy(alloc)?;
        let storage = self.storage.copy(alloc)?;
        Ok(LedgerBook {
            ledger,
            storage,
            failures: self.failures,
        })
    }

    // Whether the contents are equal.
    fn has_content_of(&self, other: &MemBook) -> bool
        ensures { IsTrue result ↔ (content_of self.now ≡ content_of other.now) }
    {
        self.ledger.has_rows_of(&other.ledger) && self.storage.has_texts_of(&other.storage)
    }
}

/// Two books are equal exactly where their contents are, whatever failed.
impl PartialEq for MemBook {
    ghost use Rattle.std.specs.Prelude.{◌≡◌, ◌↔◌, IsTrue};
    ghost use Rattle.shop_store.specs.MemBooks.{content_of, same_books, same_books_laws};

    ghost eq = { same_books };

    ghost laws = { same_books_laws };

    fn eq(&self, other: &MemBook) -> bool
        ensures test { result ≡ same_books self.now other.now }
        ensures same { IsTrue result ↔ (content_of self.now ≡ content_of other.now) }
    {
        self.has_content_of(other)
    }
}
