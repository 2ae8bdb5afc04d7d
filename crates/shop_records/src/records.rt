//! The rows of which the shop's content consists: materials, parts, jobs, demands and totals.

ghost use Rattle.std.specs.Prelude.{◌≡◌};
ghost use Rattle.shop_records.specs.Content.{no_totals};

use crate::texts::Text;
use cut_measure::{Code, Kind, Limits, PartName, Size};
use cut_tree::{Halt, Plan};
use std::alloc::{AllocError, Global};
use std::cmp::Ordering;

/// The most cells of a material that may be received in all.
pub const MAX_RECEIVED: u64 = 1_000_000_000_000_000;

/// A material that was added, with limits of its kind.
#[derive(Clone, Copy, Debug, PartialEq)]
pub struct Material {
    pub code: Code,
    pub kind: Kind,
    pub limits: Limits,
}

/// What became of a part.
#[derive(Clone, Copy, Debug, PartialEq, Eq)]
pub enum State {
    Standing,
    Reserved(u32),
    Cut(u32),
    Piece(u32),
    Kerf,
    Scrap,
    Returned,
    /// This job made it, and was undone: it owns no cell.
    Undone(u32),
}

/// A state without its number, as it is reported.
#[derive(Clone, Copy, Debug, PartialEq, Eq)]
pub enum StateWord {
    Standing,
    Reserved,
    Cut,
    Piece,
    Kerf,
    Scrap,
    Returned,
    Undone,
}

impl State {
    ghost use Rattle.std.specs.Prelude.{◌≡◌};
    ghost use Rattle.shop_records.specs.Columns.{is_free, is_reserved_for, state_word, state_of};

    /// Standing and not reserved.
    pub fn is_free(self) -> bool
        ensures { result ≡ is_free self }
    {
        matches!(self, State::Standing)
    }

    /// Reserved for this job.
    pub fn is_reserved_for(self, number: u32) -> bool
        ensures { result ≡ is_reserved_for number self }
    {
        match self {
            State::Reserved(job) => job == number,
            _ => false,
        }
    }

    /// The state without its number.
    pub fn word(self) -> StateWord
        ensures { result ≡ state_word self }
    {
        match self {
            State::Standing => StateWord::Standing,
            State::Reserved(_) => StateWord::Reserved,
            State::Cut(_) => StateWord::Cut,
            State::Piece(_) => StateWord::Piece,
            State::Kerf => StateWord::Kerf,
            State::Scrap => StateWord::Scrap,
            State::Returned => StateWord::Returned,
            State::Undone(_) => StateWord::Undone,
        }
    }

    /// The job of a reserved, a cut or an undone part, the demand of a piece, else 0.
    pub fn of(self) -> u32
        ensures { result ≡ state_of self }
    {
        match self {
            State::Reserved(job) | State::Cut(job) | State::Undone(job) => job,
            State::Piece(demand) => demand,
            State::Standing | State::Kerf | State::Scrap | State::Returned => 0,
        }
    }
}

/// A part of a received unit, by its place in that unit. It lies in a rectangle of 200000 by 60000 tenths of a millimetre.
#[derive(Clone, Copy, Debug, PartialEq)]
pub struct Part {
    pub name: PartName,
    pub material: Code,
    pub batch: Code,
    /// The received unit that it is a part of.
    pub root: PartName,
    /// Its place along the unit's width, in tenths of a millimetre: 0 to 199999.
    pub x: u32,
    /// Its place along the unit's height, in tenths of a millimetre: 0 to 59999.
    pub y: u32,
    pub size: Size,
    pub state: State,
}

/// How far a job is.
#[derive(Clone, Copy, Debug, PartialEq, Eq)]
pub enum JobState {
    Waiting,
    Done,
    Broken,
    Released,
    /// It was done or broken, and its part stands again.
    Undone,
}

impl JobState {
    ghost use Rattle.std.specs.Prelude.{◌≡◌};
    ghost use Rattle.shop_records.specs.Columns.{is_waiting};

    /// Reserved, and neither finished nor released.
    pub fn is_waiting(self) -> bool
        ensures { result ≡ is_waiting self }
    {
        matches!(self, JobState::Waiting)
    }
}

/// A part that was reserved for a cutting plan, under the number of the reservation's act.
#[derive(Drop, PartialEq)]
pub struct Job {
    /// The number of the act, which is the job's: 1 to 2147483647.
    pub act: u32,
    pub part: PartName,
    /// How wide the saw cuts, in tenths of a millimetre: 0 to 200.
    pub kerf: u32,
    pub plan: Plan,
    pub state: JobState,
}

impl Job {
    ghost use Rattle.std.specs.Prelude.{◌≡◌, IfOk};

    /// The same job. It shares the nodes of its plan.
    pub fn copy(&self, alloc: Global) -> Result<Job, AllocError>
        ensures { IfOk result (λ copy. copy ≡ self.now) }
    {
        let plan = self.plan.copy(alloc)?;
        Ok(Job {
            act: self.act,
            part: self.part,
            kerf: self.kerf,
            plan,
            state: self.state,
        })
    }
}

impl Clone for Job {
    ghost use Rattle.std.specs.Prelude.{◌≡◌};

    ghost is_clone = { λ s t. t ≡ s };

    fn clone(&self) -> Result<Job, AllocError> {
        let plan = self.plan.clone()?;
        Ok(Job {
            act: self.act,
            part: self.part,
            kerf: self.kerf,
            plan,
            state: self.state,
        })
    }
}

/// Where the work on a broken job's plan halted.
#[derive(Debug, Drop)]
pub struct JobHalt {
    pub job: u32,
    pub halt: Halt,
    /// How many columns or rows, in tenths of a millimetre, are left of the rectangle of the cut that went wrong.
    pub rest: Option<u32>,
}

impl JobHalt {
    ghost use Rattle.std.specs.Prelude.{◌≡◌, IfOk};

    /// The same halt in memory of its own.
    pub fn copy(&self, alloc: Global) -> Result<JobHalt, AllocError>
        ensures { IfOk result (λ copy. copy ≡ self.now) }
    {
        let halt = self.halt.copy(alloc)?;
        Ok(JobHalt {
            job: self.job,
            halt,
            rest: self.rest,
        })
    }
}

/// The terminal that has begun to cut a job.
#[derive(Clone, Copy, Debug, PartialEq, Eq)]
pub struct JobBegin {
    pub job: u32,
    pub terminal: u32,
}

/// What is wanted of one size: how many pieces in all, how many of them are reserved in plans of waiting jobs, and how
/// many are made.
#[derive(Clone, Copy, Debug, PartialEq)]
pub struct Demand {
    /// 1 to 2147483647.
    pub number: u32,
    pub order: Code,
    /// The number of its line in the order, from 1 on.
    pub line: u32,
    pub material: Code,
    pub size: Size,
    pub may_turn: bool,
    /// What a piece is worth: 1 to 1000000000.
    pub worth: u32,
    /// 0 to 1000000, and never under `reserved` and `made` together.
    pub wanted: u32,
    pub reserved: u32,
    pub made: u32,
}

/// A part on the rack, as it is reported. Its sides are tenths of a millimetre.
#[derive(Clone, Copy, Debug, PartialEq)]
pub struct RackRow {
    pub h: u32,
    pub part: PartName,
    pub state: StateWord,
    pub w: u32,
}

/// A waiting job, as it is reported: how many cuts its plan has, 0 to 255, and its part with that one's material and sides, in
/// tenths of a millimetre.
#[derive(Clone, Copy, Debug, PartialEq)]
pub struct JobRow {
    /// The terminal that has begun it, or 0.
    pub begun: u32,
    pub cuts: u32,
    /// The least day on which an order is due that has a piece in the plan, or 0 where none has a day.
    pub due: u32,
    pub h: u32,
    pub job: u32,
    pub material: Code,
    pub part: PartName,
    pub w: u32,
}

/// An order as it is reported: what is said of it, how many lines it has, and how many pieces of all of them are made, reserved
/// and wanted.
#[derive(Debug, Drop, PartialEq)]
pub struct OrderRow {
    /// The day on which it is due, as 20261203, or 0.
    pub due: u32,
    pub lines: u64,
    pub made: u64,
    pub order: Code,
    pub reserved: u64,
    pub text: Text,
    pub wanted: u64,
}

/// A demand as it is reported, with the day on which its order is due, or 0.
#[derive(Clone, Copy, Debug, PartialEq)]
pub struct DemandRow {
    pub demand: Demand,
    pub due: u32,
}

/// What is reported of a material, in cells: 0 to 1000000000000000 each, and the others add up to `received`.
#[derive(Clone, Copy, Debug, PartialEq, Eq)]
pub struct Totals {
    pub received: u64,
    /// Of units as they were received, standing or reserved.
    pub stock: u64,
    /// Of parts that jobs left, standing or reserved.
    pub rack: u64,
    pub pieces: u64,
    pub kerf: u64,
    pub scrap: u64,
    pub returned: u64,
}

/// The totals of a material of which nothing was received yet.
pub fn no_totals() -> Totals
    ensures { result ≡ no_totals }
{
    Totals {
        received: 0,
        stock: 0,
        rack: 0,
        pieces: 0,
        kerf: 0,
        scrap: 0,
        returned: 0,
    }
}

/// One of the totals.
#[derive(Clone, Copy, Debug, PartialEq, Eq)]
pub enum Column {
    Received,
    Stock,
    Rack,
    Pieces,
    Kerf,
    Scrap,
    Returned,
}

impl Part {
    ghost use Rattle.std.specs.Prelude.{◌≡◌};
    ghost use Rattle.shop_records.specs.Columns.{is_whole, is_counted, rack_row};
    ghost use Rattle.shop_records.specs.Content.{is_listed};

    /// Whether it is a part of the material that stands, reserved or not.
    pub fn is_listed(&self, material: &Code) -> bool
        ensures { result ≡ is_listed material.now self.now }
    {
        self.material.order(material) == Ordering::Equal
            && matches!(self.state, State::Standing | State::Reserved(_))
    }

    /// Whether it is a unit as it was received.
    pub fn is_whole(&self) -> bool
        ensures { result ≡ is_whole self.now }
    {
        self.name.act() == self.root.act() && self.name.node() == self.root.node()
    }

    /// How the rack shows it.
    pub fn rack_row(&self) -> RackRow
        ensures { result ≡ rack_row self.now }
    {
        RackRow {
            h: self.size.h(),
            part: self.name,
            state: self.state.word(),
            w: self.size.w(),
        }
    }

    /// Whether its cells are counted in a column.
    pub fn counts_in(&self, column: Column) -> bool
        ensures { result ≡ is_counted column self.now }
    {
        let whole = self.is_whole();
        match (column, self.state) {
            (Column::Received, _) => whole,
            (Column::Stock, State::Standing | State::Reserved(_)) => whole,
            (Column::Rack, State::Standing | State::Reserved(_)) => !whole,
            (Column::Pieces, State::Piece(_)) => true,
            (Column::Kerf, State::Kerf) => true,
            (Column::Scrap, State::Scrap) => true,
            (Column::Returned, State::Returned) => true,
            _ => false,
        }
    }
}
