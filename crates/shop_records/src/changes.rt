//! What an accepted command changes of the shop: its new rows, the rows that move, and its reply.

use crate::imports::ImportRow;
use crate::journal::Entry;
use crate::messages::Reply;
use crate::notes::OrderNote;
use crate::records::{Demand, Job, JobBegin, JobHalt, Material, Part, Totals};
use crate::texts::KeptMessage;
use cut_measure::{Code, RowList};

/// Rows of materials, in order.
pub type MaterialList = RowList<Material>;

/// Rows of parts, in order.
pub type PartList = RowList<Part>;

/// Rows of demands, in order.
pub type DemandList = RowList<Demand>;

/// The totals of a material.
#[derive(Clone, Copy, Debug, PartialEq)]
pub struct MaterialTotals {
    pub material: Code,
    pub totals: Totals,
}

/// What an accepted command changes, and its reply. Each row is either new or one that is there and moves, and the change
/// says which.
#[derive(Drop)]
pub struct Change {
    /// A new material.
    pub material: Option<Material>,
    /// New parts, by rising names.
    pub parts: PartList,
    /// A part that is there, in another state.
    pub moved: Option<Part>,
    /// Parts that are there and own no cell from now on, in the state of the undone job that made them, by rising names.
    pub undone: PartList,
    /// A job: a new one where an act is numbered, else one that is there, in another state.
    pub job: Option<Job>,
    /// Where the work on the job's plan halted: a new row.
    pub halt: Option<JobHalt>,
    /// The terminal that has begun a job that is there: a new row, or one that takes the place of the job's own.
    pub begun: Option<JobBegin>,
    /// An order's code that is used from now on.
    pub order: Option<Code>,
    /// An order that is there and gets further lines. A change has no new order beside it.
    pub extended: Option<Code>,
    /// What is said of an order that is there: a new row, or one that takes the place of the order's own.
    pub note: Option<OrderNote>,
    /// Demands: new ones of the order that is new or gets further lines, or, without such an order, ones that are there, with
    /// other counts or another number wanted.
    pub demands: DemandList,
    /// The totals of the material whose totals change: a new row where the material is new, else one that is there.
    pub totals: Option<MaterialTotals>,
    /// The last act number from now on, where an act was numbered.
    pub act: Option<u32>,
    /// The last demand number from now on, where demands were numbered.
    pub demand: Option<u32>,
    /// What is kept of the import that the new order came by.
    pub import: Option<ImportRow>,
    /// The message to keep, once its texts are known.
    pub kept: Option<KeptMessage>,
    /// The message's entry, once the last one and the time are known.
    pub entry: Option<Entry>,
    pub reply: Reply,
}
