//! The keys by which materials, parts, jobs, demands, imports, entries, numbers and names are kept in order.

use crate::rows::{KeyedRow, RowKey};
use cut_measure::{Code, PartName};
use shop_records::{Demand, Entry, ImportRow, Job, JobBegin, JobHalt, Material, OrderNote, Part};
use std::cmp::Ordering;

/// Codes in the order of their bytes.
impl RowKey for Code {
    ghost use Rattle.cut_measure.specs.Codes.{code_cmp};
    ghost use Rattle.std.specs.Cmp.Lexicographic.{nat_list_cmp_total};
    ghost use Rattle.shop_rows.specs.Keys.{codes_exact};

    ghost cmp = { code_cmp };

    fn compare_to(self, other: Code) -> Ordering {
        self.order(&other)
    }

    ghost total = { nat_list_cmp_total };

    ghost exact = { codes_exact };
}

impl RowKey for PartName {
    ghost use Rattle.cut_measure.specs.Names.{name_cmp};
    ghost use Rattle.shop_rows.specs.Keys.{names_total, names_exact};

    ghost cmp = { name_cmp };

    fn compare_to(self, other: PartName) -> Ordering {
        self.order(&other)
    }

    ghost total = { names_total };

    ghost exact = { names_exact };
}

impl RowKey for u32 {
    ghost use Rattle.std.specs.Ordering.{nat_cmp};
    ghost use Rattle.std.specs.Cmp.{nat_cmp_total};
    ghost use Rattle.std.specs.FinMap.{nat_cmp-IsAntisymmetric};

    ghost cmp = { nat_cmp };

    fn compare_to(self, other: u32) -> Ordering {
        self.cmp(&other)
    }

    ghost total = { nat_cmp_total };

    ghost exact = { nat_cmp-IsAntisymmetric };
}

impl RowKey for u64 {
    ghost use Rattle.std.specs.Ordering.{nat_cmp};
    ghost use Rattle.std.specs.Cmp.{nat_cmp_total};
    ghost use Rattle.std.specs.FinMap.{nat_cmp-IsAntisymmetric};

    ghost cmp = { nat_cmp };

    fn compare_to(self, other: u64) -> Ordering {
        self.cmp(&other)
    }

    ghost total = { nat_cmp_total };

    ghost exact = { nat_cmp-IsAntisymmetric };
}

impl KeyedRow for Material {
    ghost use Rattle.shop_rows.specs.Keys.{material_key};

    type Key = Code;

    ghost key_of = { material_key };

    fn key(&self) -> Code {
        self.code
    }
}

impl KeyedRow for Part {
    ghost use Rattle.shop_rows.specs.Keys.{part_key};

    type Key = PartName;

    ghost key_of = { part_key };

    fn key(&self) -> PartName {
        self.name
    }
}

impl KeyedRow for Job {
    ghost use Rattle.shop_rows.specs.Keys.{job_key};

    type Key = u32;

    ghost key_of = { job_key };

    fn key(&self) -> u32 {
        self.act
    }
}

impl KeyedRow for JobHalt {
    ghost use Rattle.shop_rows.specs.Keys.{halt_key};

    type Key = u32;

    ghost key_of = { halt_key };

    fn key(&self) -> u32 {
        self.job
    }
}

impl KeyedRow for JobBegin {
    ghost use Rattle.shop_rows.specs.Keys.{begin_key};

    type Key = u32;

    ghost key_of = { begin_key };

    fn key(&self) -> u32 {
        self.job
    }
}

impl KeyedRow for OrderNote {
    ghost use Rattle.shop_rows.specs.Keys.{note_key};

    type Key = Code;

    ghost key_of = { note_key };

    fn key(&self) -> Code {
        self.order
    }
}

impl KeyedRow for Demand {
    ghost use Rattle.shop_rows.specs.Keys.{demand_key};

    type Key = u32;

    ghost key_of = { demand_key };

    fn key(&self) -> u32 {
        self.number
    }

    // demands are numbered from 1 on
    fn near(number: u32, _len: usize) -> usize {
        number.saturating_sub(1) as usize
    }
}

impl KeyedRow for ImportRow {
    ghost use Rattle.shop_rows.specs.Keys.{import_key};

    type Key = Code;

    ghost key_of = { import_key };

    fn key(&self) -> Code {
        self.order
    }
}

impl KeyedRow for Entry {
    ghost use Rattle.shop_rows.specs.Keys.{entry_key};

    type Key = u64;

    ghost key_of = { entry_key };

    fn key(&self) -> u64 {
        self.number
    }

    // entries are numbered from 1 on
    fn near(number: u64, _len: usize) -> usize {
        number.saturating_sub(1) as usize
    }
}

/// A number of a list is its own row.
impl KeyedRow for u32 {
    ghost use Rattle.shop_rows.specs.Open.{own_key};

    type Key = u32;

    ghost key_of = { own_key };

    fn key(&self) -> u32 {
        *self
    }
}

/// A name of a list is its own row.
impl KeyedRow for PartName {
    ghost use Rattle.shop_rows.specs.Open.{own_key};

    type Key = PartName;

    ghost key_of = { own_key };

    fn key(&self) -> PartName {
        *self
    }
}
