//! A ledger with the rows of another, and whether two have the same rows.

ghost use Rattle.std.specs.Prelude.{◌≡◌, ◌↔◌, IfOk, IsTrue};
ghost use Rattle.shop_book.specs.Ledgers.{content_in};

use crate::ledger::Ledger;
use crate::memory_lists::{copy_jobs, copy_notes};
use std::alloc::{AllocError, Global};

impl Ledger {
    /// A ledger with the same rows.
    pub fn copy(&self, alloc: Global) -> Result<Ledger, AllocError>
        ensures { IfOk result (λ copy. content_in copy ≡ content_in self.now) }
    {
        let materials = Vec::from_slice(alloc, &self.materials)?;
        let parts = self.parts.copy(alloc)?;
        let totals = Vec::from_slice(alloc, &self.totals)?;
        let jobs = copy_jobs(&self.jobs)?;
        let begun = Vec::from_slice(alloc, &self.begun)?;
        let orders = Vec::from_slice(alloc, &self.orders)?;
        let notes = copy_notes(alloc, &self.notes)?;
        let demands = Vec::from_slice(alloc, &self.demands)?;
        let lists = self.lists.copy(alloc)?;
        let pieces = self.pieces.copy()?;
        let works = self.works.copy()?;
        Ok(Ledger {
            alloc,
            materials,
            parts,
            totals,
            jobs,
            begun,
            orders,
            notes,
            demands,
            strays: self.strays,
            last_act: self.last_act,
            last_demand: self.last_demand,
            lists,
            pieces,
            works,
        })
    }

    fn has_materials_of(&self, other: &Ledger) -> bool
        ensures { IsTrue result
            ↔ ((content_in self.now).materials ≡ (content_in other.now).materials) }
    {
        self.materials == other.materials
    }

    fn has_parts_of(&self, other: &Ledger) -> bool
        ensures { IsTrue result ↔ ((content_in self.now).parts ≡ (content_in other.now).parts) }
    {
        self.parts.has_parts_of(&other.parts)
    }

    fn has_jobs_of(&self, other: &Ledger) -> bool
        ensures { IsTrue result ↔ ((content_in self.now).jobs ≡ (content_in other.now).jobs) }
    {
        self.jobs == other.jobs
    }

    fn has_begun_of(&self, other: &Ledger) -> bool
        ensures { IsTrue result ↔ ((content_in self.now).begun ≡ (content_in other.now).begun) }
    {
        self.begun == other.begun
    }

    fn has_notes_of(&self, other: &Ledger) -> bool
        ensures { IsTrue result ↔ ((content_in self.now).notes ≡ (content_in other.now).notes) }
    {
        self.notes == other.notes
    }

    fn has_orders_of(&self, other: &Ledger) -> bool
        ensures { IsTrue result ↔ ((content_in self.now).orders ≡ (content_in other.now).orders) }
    {
        self.orders == other.orders
    }

    fn has_demands_of(&self, other: &Ledger) -> bool
        ensures { IsTrue result ↔ ((content_in self.now).demands ≡ (content_in other.now).demands) }
    {
        self.demands == other.demands
    }

    /// Whether another ledger has the same rows.
    pub fn has_rows_of(&self, other: &Ledger) -> bool
        ensures { IsTrue result ↔ (content_in self.now ≡ content_in other.now) }
    {
        self.has_materials_of(other)
            && self.has_parts_of(other)
            && self.has_jobs_of(other)
            && self.has_begun_of(other)
            && self.has_orders_of(other)
            && self.has_notes_of(other)
            && self.has_demands_of(other)
            && self.last_act == other.last_act
            && self.last_demand == other.last_demand
    }
}
