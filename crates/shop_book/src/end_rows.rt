//! When jobs were done or broken, in memory.

ghost use Rattle.std.specs.Prelude.{IsTrue};
ghost use Rattle.std.specs.Ordering.{nat_cmp};
ghost use Rattle.shop_rows.specs.Rows.{rise};
ghost use Rattle.shop_book.specs.EndRows.{end_key};

use shop_rows::KeyedRow;

/// When the job of a number was done or broken.
#[derive(Clone, Copy, Debug)]
pub struct JobEnd {
    pub(crate) job: u32,
    pub(crate) at: u64,
}

impl KeyedRow for JobEnd {
    ghost use Rattle.shop_book.specs.EndRows.{end_key};

    type Key = u32;

    ghost key_of = { end_key };

    fn key(&self) -> u32 {
        self.job
    }
}

/// When jobs were done or broken: of each job the time of the first entry that reports it.
#[derive(Drop)]
pub struct JobEnds {
    pub(crate) rows: Vec<JobEnd>,
    ghost rising: { IsTrue (rise end_key nat_cmp rows.items) },
}
