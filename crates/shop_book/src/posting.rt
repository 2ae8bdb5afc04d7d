//! A ledger takes a change in two steps: reserving capacity may fail and changes no row, putting the rows can't fail.

ghost use Rattle.std.specs.Prelude.{OnOk};
ghost use Rattle.std.specs.Option.{option_to_list};
ghost use Rattle.shop_book.specs.FiledJobs.{AreJobsFiled};
ghost use Rattle.shop_book.specs.Filing.{StaysFiled};
ghost use Rattle.shop_book.specs.Ledgers.{bare, content_in, HasSpareCapacityFor};
ghost use Rattle.shop_book.specs.Pieces.{AreFiled};
ghost use Rattle.shop_records.specs.Content.{changed, fresh};

use crate::known_orders::{put_order, reach_all};
use crate::ledger::Ledger;
use crate::memory_lists::{put_demands, put_job, reserve_both};
use crate::memory_parts::{put_stock, reserve_parts};
use crate::number_index::NumberIndex;
use shop_records::Change;
use shop_rows::{OpenRows, PartRows, put_some, reserve_names, reserve_rows};
use std::alloc::{AllocError, Global};

// Files the acts of a change's pieces, and its job.
fn file_change(
    alloc: Global,
    pieces: &mut NumberIndex,
    works: &mut NumberIndex,
    change: &Change,
) -> Result<(), AllocError>
    ensures rows { OnOk result (AreFiled pieces.new change.now.parts) }
    ensures undone { OnOk result (AreFiled pieces.new change.now.undone) }
    ensures moved { OnOk result (AreFiled pieces.new (option_to_list change.now.moved)) }
    ensures job { OnOk result (AreJobsFiled works.new (option_to_list change.now.job)) }
    ensures pieces { StaysFiled pieces.old pieces.new }
    ensures works { StaysFiled works.old works.new }
{
    pieces.file_moved(&change.moved)?;
    pieces.file_all(change.undone.as_slice())?;
    pieces.file_all(change.parts.as_slice())?;
    works.file_some_job(alloc, &change.job)
}

impl Ledger {
    ghost use Rattle.std.specs.Prelude.{◌≡◌, OnOk, OnErr};

    /// The ledger of a new shop.
    pub fn new(alloc: Global) -> Ledger
        ensures { content_in result ≡ fresh }
    {
        Ledger {
            alloc,
            materials: Vec::new(alloc),
            parts: PartRows::new(alloc),
            totals: Vec::new(alloc),
            jobs: Vec::new(alloc),
            begun: Vec::new(alloc),
            orders: Vec::new(alloc),
            notes: Vec::new(alloc),
            demands: Vec::new(alloc),
            strays: false,
            last_act: 0,
            last_demand: 0,
            lists: OpenRows::new(alloc),
            pieces: NumberIndex::new(alloc),
            works: NumberIndex::new(alloc),
        }
    }

    /// Reserves capacity for every row of a change, and files the acts of its pieces and its job. Changes no row, even if memory runs out.
    pub fn reserve_change(&mut self, change: &Change) -> Result<(), AllocError>
        ensures content { content_in self.new ≡ content_in self.old }
        ensures spare { OnOk result (HasSpareCapacityFor change.now self.new) }
    {
        let rows = change.parts.as_slice();
        let undone = change.undone.as_slice();
        let count = change.demands.as_slice().len();
        file_change(self.alloc, &mut self.pieces, &mut self.works, change)?;
        self.materials.reserve(1)?;
        let parts = undone.len() + rows.len() + 1;
        reserve_parts(&mut self.parts, &mut self.totals, parts)?;
        reserve_names(&mut self.lists.parts, &change.moved, undone, rows)?;
        reserve_both(&mut self.jobs, &mut self.lists.jobs, 1)?;
        reserve_both(&mut self.begun, &mut self.notes, 1)?;
        reserve_rows(&mut self.orders, 2)?;
        reserve_both(&mut self.demands, &mut self.lists.demands, count)
    }

    /// Puts the rows of a change, once `reserve_change` has reserved their capacity.
    pub fn post(&mut self, change: Change)
        requires { HasSpareCapacityFor change self.old }
        ensures { content_in self.new ≡ bare (changed (content_in self.old) change) }
    {
        let demands = change.demands;
        let wanted = demands.as_slice();
        put_order(&mut self.orders, change.order, wanted);
        self.strays |= !reach_all(&mut self.orders, wanted);
        put_some(&mut self.materials, change.material);
        let parts = change.parts;
        let undone = change.undone;
        put_stock(
            &mut self.parts,
            &mut self.totals,
            &mut self.lists.parts,
            change.moved,
            undone.as_slice(),
            parts.as_slice(),
        );
        put_job(&mut self.jobs, &mut self.lists.jobs, change.job);
        put_some(&mut self.begun, change.begun);
        put_some(&mut self.notes, change.note);
        put_demands(&mut self.demands, &mut self.lists.demands, wanted);
        self.last_act = change.act.unwrap_or(self.last_act);
        self.last_demand = change.demand.unwrap_or(self.last_demand);
    }

    /// Puts rows from tables, as a change with nothing else does. After an `Err` no row has changed.
    pub fn load(&mut self, rows: Change) -> Result<(), AllocError>
        ensures ok { OnOk result (content_in self.new ≡ bare (changed (content_in self.old) rows)) }
        ensures err { OnErr result (content_in self.new ≡ content_in self.old) }
    {
        self.reserve_change(&rows)?;
        self.post(rows);
        Ok(())
    }
}
