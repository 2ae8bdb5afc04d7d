//! Pieces, and the nodes of a job's plan, as they are reported.

use crate::records::StateWord;
use cut_measure::{Code, PartName};
use cut_tree::Step;

/// Whose pieces are asked for.
#[derive(Clone, Copy, Debug, PartialEq)]
pub enum PieceSource {
    /// The order of this code.
    Order(Code),
    /// The units of this batch.
    Batch(Code),
    /// The received unit of this name.
    Unit(PartName),
}

/// A piece as it is reported. Its sides are tenths of a millimetre.
#[derive(Clone, Copy, Debug, PartialEq)]
pub struct PieceRow {
    /// When the job was done or broken that made it, in seconds since 1970-01-01 00:00 UTC; 0 where that has no entry.
    pub at: u64,
    pub batch: Code,
    pub demand: u32,
    pub h: u32,
    pub line: u32,
    pub material: Code,
    pub order: Code,
    pub part: PartName,
    /// The received unit that it is a part of.
    pub root: PartName,
    pub w: u32,
}

/// A node of a job's plan as it is reported, and what became of it.
#[derive(Clone, Copy, Debug, PartialEq)]
pub struct StepRow {
    /// Its number, its whole rectangle in the part that is cut, and what is done there.
    pub step: Step,
    /// The line and the order of a piece's demand, else 0 and none.
    pub line: u32,
    pub order: Option<Code>,
    /// The part that has the job's and the node's number, and its state today, where there is one.
    pub part: Option<PartName>,
    pub state: Option<StateWord>,
}
