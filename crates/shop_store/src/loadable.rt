//! Values of tables that are loaded into a ledger, one row at a time.

ghost use Rattle.std.specs.Prelude.{◌≡◌, List, map, None, IfOk};
ghost use Rattle.sqlite.specs.Order.{Row as Values};
ghost use Rattle.shop_records.specs.Content.{Content};
ghost use Rattle.shop_book.specs.Ledgers.{content_in};
ghost use Rattle.shop_store.specs.Loading.{FitInTurn, with_each};

use cut_measure::Code;
use shop_book::{Ledger, ReadRows};
use shop_records::{Demand, DemandList, Job, JobBegin, Material, OrderNote, PartList};
use shop_statements::code_in;
use shop_tables::{
    NoRow, TableFault, begun_key_of, begun_of_row, demand_key_of, demand_of_row, job_key_of,
    job_of_row, material_key_of, material_of_row, note_key_of, note_of_row, plan_of_row,
};
use sqlite::Row;
use std::alloc::{AllocError, Global};

/// A value of a table that is loaded into a ledger.
pub(crate) trait Loadable: Drop {
    ghost use Rattle.std.specs.Prelude.{Some, OnOk};

    /// The row of a value.
    ghost row_of: { Self → Values };

    /// What has to be known of a value on the content that is there.
    ghost fits: { Content → Self → Type 0 };

    /// The content with a value.
    ghost put: { Self → Content → Content };

    /// The value of a row; None if the row stands for none.
    fn read(alloc: Global, ledger: &Ledger, row: &Row) -> Result<Option<Self>, TableFault>
        ensures { (value : Self) → fits (content_in ledger.now) value → row.now ≡ row_of value
            → IfOk result (λ read. read ≡ Some value) };

    /// The key of a row.
    fn key(row: &Row) -> NoRow;

    /// Puts a value.
    fn load(self, alloc: Global, ledger: &mut Ledger) -> Result<(), AllocError>
        ensures { OnOk result (content_in ledger.new ≡ put self (content_in ledger.old)) };
}

impl Loadable for Material {
    ghost use Rattle.shop_tables.specs.ListedRows.{listed_material};
    ghost use Rattle.shop_store.specs.Loading.{AnyFits, put_material};

    ghost row_of = { listed_material };

    ghost fits = { AnyFits };

    ghost put = { put_material };

    fn read(_alloc: Global, _ledger: &Ledger, row: &Row) -> Result<Option<Material>, TableFault> {
        material_of_row(row)
    }

    fn key(row: &Row) -> NoRow {
        material_key_of(row)
    }

    fn load(self, alloc: Global, ledger: &mut Ledger) -> Result<(), AllocError> {
        ledger.load_rows(
            alloc,
            ReadRows {
                material: Some(self),
                parts: PartList::new(alloc),
                job: None,
                begun: None,
                order: None,
                note: None,
                demands: DemandList::new(alloc),
            },
        )
    }
}

impl Loadable for Job {
    ghost use Rattle.shop_tables.specs.ListedRows.{listed_job};
    ghost use Rattle.shop_store.specs.Loading.{JobFits, put_job};

    ghost row_of = { listed_job };

    ghost fits = { JobFits };

    ghost put = { put_job };

    fn read(alloc: Global, ledger: &Ledger, row: &Row) -> Result<Option<Job>, TableFault> {
        let Some(stored) = job_of_row(row)? else {
            return Ok(None);
        };
        let Some(part) = ledger.part(stored.part) else {
            return Ok(None);
        };
        let Some(material) = ledger.material(part.material) else {
            return Ok(None);
        };
        let kerf = material.limits.kerf();
        let Some(plan) = plan_of_row(alloc, row, part.size, kerf)? else {
            return Ok(None);
        };
        Ok(Some(Job {
            act: stored.number,
            part: stored.part,
            kerf,
            plan,
            state: stored.state,
        }))
    }

    fn key(row: &Row) -> NoRow {
        job_key_of(row)
    }

    fn load(self, alloc: Global, ledger: &mut Ledger) -> Result<(), AllocError> {
        ledger.load_rows(
            alloc,
            ReadRows {
                material: None,
                parts: PartList::new(alloc),
                job: Some(self),
                begun: None,
                order: None,
                note: None,
                demands: DemandList::new(alloc),
            },
        )
    }
}

impl Loadable for JobBegin {
    ghost use Rattle.shop_tables.specs.ListedRows.{listed_begun};
    ghost use Rattle.shop_store.specs.Loading.{AnyFits, put_begun};

    ghost row_of = { listed_begun };

    ghost fits = { AnyFits };

    ghost put = { put_begun };

    fn read(_alloc: Global, _ledger: &Ledger, row: &Row) -> Result<Option<JobBegin>, TableFault> {
        begun_of_row(row)
    }

    fn key(row: &Row) -> NoRow {
        begun_key_of(row)
    }

    fn load(self, alloc: Global, ledger: &mut Ledger) -> Result<(), AllocError> {
        ledger.load_rows(
            alloc,
            ReadRows {
                material: None,
                parts: PartList::new(alloc),
                job: None,
                begun: Some(self),
                order: None,
                note: None,
                demands: DemandList::new(alloc),
            },
        )
    }
}

impl Loadable for OrderNote {
    ghost use Rattle.shop_tables.specs.ListedRows.{listed_note};
    ghost use Rattle.shop_store.specs.Loading.{AnyFits, put_note};

    ghost row_of = { listed_note };

    ghost fits = { AnyFits };

    ghost put = { put_note };

    fn read(_alloc: Global, _ledger: &Ledger, row: &Row) -> Result<Option<OrderNote>, TableFault> {
        note_of_row(row)
    }

    fn key(row: &Row) -> NoRow {
        note_key_of(row)
    }

    fn load(self, alloc: Global, ledger: &mut Ledger) -> Result<(), AllocError> {
        ledger.load_rows(
            alloc,
            ReadRows {
                material: None,
                parts: PartList::new(alloc),
                job: None,
                begun: None,
                order: None,
                note: Some(self),
                demands: DemandList::new(alloc),
            },
        )
    }
}

impl Loadable for Code {
    ghost use Rattle.shop_tables.specs.Listing.{code_row};
    ghost use Rattle.shop_store.specs.Loading.{AnyFits, put_order};

    ghost row_of = { code_row };

    ghost fits = { AnyFits };

    ghost put = { put_order };

    fn read(_alloc: Global, _ledger: &Ledger, row: &Row) -> Result<Option<Code>, TableFault> {
        let code = code_in(row, 0)?;
        Ok(Some(code))
    }

    fn key(row: &Row) -> NoRow {
        NoRow::Order(code_in(row, 0).ok())
    }

    fn load(self, alloc: Global, ledger: &mut Ledger) -> Result<(), AllocError> {
        ledger.load_rows(
            alloc,
            ReadRows {
                material: None,
                parts: PartList::new(alloc),
                job: None,
                begun: None,
                order: Some(self),
                note: None,
                demands: DemandList::new(alloc),
            },
        )
    }
}

impl Loadable for Demand {
    ghost use Rattle.shop_tables.specs.ListedRows.{listed_demand};
    ghost use Rattle.shop_store.specs.Loading.{AnyFits, put_demand};

    ghost row_of = { listed_demand };

    ghost fits = { AnyFits };

    ghost put = { put_demand };

    fn read(_alloc: Global, _ledger: &Ledger, row: &Row) -> Result<Option<Demand>, TableFault> {
        demand_of_row(row)
    }

    fn key(row: &Row) -> NoRow {
        demand_key_of(row)
    }

    fn load(self, alloc: Global, ledger: &mut Ledger) -> Result<(), AllocError> {
        let mut demands = DemandList::new(alloc);
        demands.push(self)?;
        ledger.load_rows(
            alloc,
            ReadRows {
                material: None,
                parts: PartList::new(alloc),
                job: None,
                begun: None,
                order: None,
                note: None,
                demands,
            },
        )
    }
}

/// Puts the values of these rows, in order; the key of the first row that stands for none, if there is one.
pub(crate) fn load_each<T: Loadable>(
    alloc: Global,
    ledger: &mut Ledger,
    rows: &[Row],
) -> Result<Option<NoRow>, TableFault>
    ensures { (values : List T) → rows.now ≡ map T.row_of values
        → FitInTurn T.fits T.put values (content_in ledger.old)
        → IfOk result (λ none. (none ≡ None)
        × (content_in ledger.new ≡ with_each T.put values (content_in ledger.old))) }
{
    for row in rows {
        let Some(value) = T::read(alloc, ledger, row)? else {
            return Ok(Some(T::key(row)));
        };
        value.load(alloc, ledger)?;
    }
    Ok(None)
}
