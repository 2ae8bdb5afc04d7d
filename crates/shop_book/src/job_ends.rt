//! How it is kept in memory when jobs were done or broken.

ghost use Rattle.std.specs.Prelude.{◌≡◌, ◌<◌, ℕ, IsTrue, [], ◌∷◌, vec_len, vec_capacity};
ghost use Rattle.std.specs.Option.{option_or};
ghost use Rattle.std.specs.Ordering.{nat_cmp};
ghost use Rattle.shop_records.specs.Content.{of_found};
ghost use Rattle.shop_records.specs.declared.journal.Entry.{Entry as EntryOf};
ghost use Rattle.shop_rows.specs.Rows.{rise};
ghost use Rattle.shop_book.specs.EndRows.{end_key};
ghost use Rattle.shop_book.specs.Ends.{end_time, first_end, is_end_of, row_time};

use crate::end_rows::{JobEnd, JobEnds};
use crate::stories::ends_job;
use shop_records::Entry;
use shop_rows::{find, put, reserve_rows};
use std::alloc::{AllocError, Global};

// Whether an entry's message ended a job.
fn is_end_of(job: u32, entry: &Entry) -> bool
    ensures { result ≡ is_end_of job entry.now }
{
    ends_job(entry.word) && entry.job == job
}

/// When a job was done or broken, by the first of entries that reports it; 0 where none does.
pub(crate) fn time_of_end(job: u32, entries: &[Entry]) -> u64
    ensures { result ≡ of_found (λ (entry : EntryOf). entry.at) (first_end job entries.now) }
{
    for entry in entries {
        if is_end_of(job, entry) {
            return entry.at;
        }
    }
    0
}

// Puts when the job of an entry ended, if that ended it and no entry did before.
fn put_end(rows: &mut Vec<JobEnd>, entry: &Entry)
    requires rising { IsTrue (rise end_key nat_cmp rows.old.items) }
    requires spare { vec_len rows.old < vec_capacity rows.old }
    ensures rising { IsTrue (rise end_key nat_cmp rows.new.items) }
    ensures times { (job : ℕ) → row_time job rows.new.items
        ≡ option_or (row_time job rows.old.items) (end_time job (entry.now ∷ [])) }
{
    if !ends_job(entry.word) {
        return;
    }
    if find(rows, entry.job).is_some() {
        return;
    }
    let _ = put(
        rows,
        JobEnd {
            job: entry.job,
            at: entry.at,
        },
    );
}

impl JobEnds {
    ghost use Rattle.std.specs.Prelude.{◌≡◌, ◌∷◌, [], ℕ, OnOk, unwrap_or};
    ghost use Rattle.shop_book.specs.Ends.{AddEnds, AreEnds, HasSpareEnd, kept_time};

    /// No job was done or broken.
    pub fn new(alloc: Global) -> JobEnds
        ensures { AreEnds [] result }
    {
        JobEnds {
            rows: Vec::new(alloc),
        }
    }

    /// When a job was done or broken, 0 if it is kept of none.
    pub fn at(&self, job: u32) -> u64
        ensures { result ≡ unwrap_or (kept_time job self.now) 0 }
    {
        match find(&self.rows, job) {
            Some(row) => row.at,
            None => 0,
        }
    }

    /// Makes room for one more. Changes nothing else, even if memory runs out.
    pub fn reserve(&mut self) -> Result<(), AllocError>
        ensures same { (job : ℕ) → kept_time job self.new ≡ kept_time job self.old }
        ensures spare { OnOk result (HasSpareEnd self.new) }
    {
        reserve_rows(&mut self.rows, 1)
    }

    /// Puts what an entry reports behind those before.
    pub fn put(&mut self, entry: &Entry)
        requires { HasSpareEnd self.old }
        ensures { AddEnds (entry.now ∷ []) self.old self.new }
    {
        put_end(&mut self.rows, entry);
    }

    /// Puts what entries report behind those before, in their order.
    pub fn put_all(&mut self, entries: &[Entry]) -> Result<(), AllocError>
        ensures { OnOk result (AddEnds entries.now self.old self.new) }
    {
        for entry in entries {
            self.reserve()?;
            self.put(entry);
        }
        Ok(())
    }
}
