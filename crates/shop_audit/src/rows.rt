//! The rows by which two books may differ.

ghost use Rattle.std.specs.Prelude.{◌≡◌, ◌++◌, OnOk, codes, string_bytes};
ghost use Rattle.std.specs.Fmt.{decimal};
ghost use Rattle.shop_audit.specs.Rows.{row_key, row_table};

use cut_measure::{Code, PartName};
use shop_records::MessageId;
use std::alloc::AllocError;

/// A row of a store's tables, by its key.
#[derive(Clone, Copy, Debug, PartialEq)]
pub enum Row {
    /// Which terminal has begun the job of this number.
    Begun(u32),
    Demand(u32),
    /// Where the work on the job of this number halted.
    Halt(u32),
    /// A halt of no job.
    OtherHalt,
    /// The import of this order.
    Import(Code),
    /// An import that no order has.
    OtherImport,
    Job(u32),
    /// The entry of this number.
    Journal(u64),
    Kept(MessageId),
    Material(Code),
    /// The last number of an act.
    LastAct,
    /// The last number of a demand.
    LastDemand,
    /// What is said of this order.
    Note(Code),
    Order(Code),
    Part(PartName),
    /// This order of the job of this number.
    Use(u32, Code),
    /// An order of a job that is none.
    OtherUse,
}

// Appends the number of a job and the code of an order.
fn write_use(text: &mut String, job: u32, order: Code) -> Result<(), AllocError>
    ensures { OnOk result (string_bytes text.new
        ≡ string_bytes text.old ++ decimal job ++ codes "/" ++ order) }
{
    write!(text, "{job}/")?;
    order.write(text)
}

impl Row {
    /// The name of its table.
    pub fn table(&self) -> &'static str
        ensures { result.now ≡ row_table self.now }
    {
        match self {
            Row::Begun(_) => "begun",
            Row::Demand(_) => "demands",
            Row::Halt(_) => "halts",
            Row::OtherHalt => "halts",
            Row::Import(_) => "imports",
            Row::OtherImport => "imports",
            Row::Job(_) => "jobs",
            Row::Journal(_) => "journal",
            Row::Kept(_) => "kept",
            Row::Material(_) => "materials",
            Row::LastAct => "meta",
            Row::LastDemand => "meta",
            Row::Note(_) => "notes",
            Row::Order(_) => "orders",
            Row::Part(_) => "parts",
            Row::Use(..) => "uses",
            Row::OtherUse => "uses",
        }
    }

    /// Appends its key, the columns of which are joined by `/`.
    pub fn write_key(self, text: &mut String) -> Result<(), AllocError>
        ensures { OnOk result (string_bytes text.new ≡ string_bytes text.old ++ row_key self) }
    {
        match self {
            Row::Begun(number) => write!(text, "{number}"),
            Row::Demand(number) => write!(text, "{number}"),
            Row::Halt(number) => write!(text, "{number}"),
            Row::OtherHalt => text.push_str("a job that isn't there"),
            Row::Import(code) => code.write(text),
            Row::OtherImport => text.push_str("an order that isn't there"),
            Row::Job(number) => write!(text, "{number}"),
            Row::Journal(number) => write!(text, "{number}"),
            Row::Kept(message_id) => write!(text, "{}/{}", message_id.terminal, message_id.number),
            Row::Material(code) => code.write(text),
            Row::LastAct => text.push_str("act"),
            Row::LastDemand => text.push_str("demand"),
            Row::Note(code) => code.write(text),
            Row::Order(code) => code.write(text),
            Row::Part(name) => write!(text, "{}/{}", name.act(), name.node()),
            Row::Use(job, order) => write_use(text, job, order),
            Row::OtherUse => text.push_str("a job or an order that isn't there"),
        }
    }
}
