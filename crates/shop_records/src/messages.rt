//! What a terminal says to the shop, a command or a query, and what it is answered.

use crate::changes::{MaterialList, PartList};
use crate::imports::Form;
use crate::journal::{Entry, ReportedEntry, Subject};
use crate::pieces::{PieceRow, PieceSource, StepRow};
use crate::records::{DemandRow, JobRow, JobState, OrderRow, RackRow, StateWord};
use crate::refusals::Refusal;
use crate::texts::Text;
use cut_measure::{Code, Kind, PartName, RowList};
use cut_tree::Halt;
use shop_files::OrderLine;

/// Lines of an order, in order.
pub type LineList = RowList<OrderLine>;

/// Parts on the rack, in order.
pub type RackList = RowList<RackRow>;

/// Waiting jobs as they are reported, in order.
pub type JobList = RowList<JobRow>;

/// Orders as they are reported, in order.
pub type OrderList = RowList<OrderRow>;

/// Demands as they are reported, in order.
pub type DemandRows = RowList<DemandRow>;

/// Pieces as they are reported, in order.
pub type PieceList = RowList<PieceRow>;

/// Nodes of a plan as they are reported, in order.
pub type StepList = RowList<StepRow>;

/// Codes of orders, in order.
pub type CodeList = RowList<Code>;

/// Entries as they are reported, in order.
pub type EntryList = RowList<ReportedEntry>;

/// Entries as they are written, in order.
pub type EntryRows = RowList<Entry>;

/// Numbers of demands or of jobs, in order.
pub type NumberList = RowList<u32>;

/// What a terminal wants done. Lengths are tenths of a millimetre. Numbers are as they came: the shop judges their ranges.
#[derive(Debug, Drop)]
pub enum Command {
    AddMaterial {
        material: Code,
        kind: Kind,
        kerf: u32,
        min_long: u32,
        min_short: u32,
    },
    Receive {
        material: Code,
        batch: Code,
        w: u32,
        h: u32,
        count: u32,
    },
    AddOrder {
        order: Code,
        lines: LineList,
    },
    /// Reserves a part for the cutting plan that the text spells on it.
    Reserve {
        part: PartName,
        tree: Text,
    },
    Done {
        job: u32,
    },
    /// The work on a job's plan halted; of the rectangle of the cut that went wrong a rest is left, if one is given.
    Break {
        job: u32,
        halt: Halt,
        rest: Option<u32>,
    },
    Release {
        job: u32,
    },
    /// Makes a standing part scrap.
    Scrap {
        part: PartName,
    },
    /// Returns a standing unit to its supplier.
    GiveBack {
        part: PartName,
    },
    /// Makes an order from the text of a file; a problem's rectangle is received as a unit, too.
    Import {
        order: Code,
        form: Form,
        text: Text,
    },
    /// Says how many pieces of a demand are wanted from now on.
    Amend {
        demand: u32,
        wanted: u32,
    },
    /// Takes back that a job was done or broken.
    Undo {
        job: u32,
    },
    /// Says of an order on which day it is due, as 20261203, or 0 for none, and a text.
    Note {
        order: Code,
        due: u32,
        text: Text,
    },
    /// Adds lines to an order that is there.
    Extend {
        order: Code,
        lines: LineList,
    },
    /// The terminal has begun to cut a waiting job.
    Begin {
        job: u32,
    },
}

/// A command with the message ID that it is known by. Terminal 0 is the shop file's.
#[derive(Debug, Drop)]
pub struct Message {
    pub terminal: u32,
    pub number: u32,
    pub command: Command,
}

/// What a terminal asks. Sides and steps are tenths of a millimetre.
#[derive(Debug, Drop)]
pub enum Query {
    Totals {
        material: Code,
    },
    Rack {
        material: Code,
    },
    Trace {
        part: PartName,
    },
    Demand {
        demand: u32,
    },
    /// Which plan to cut a standing part by, for what is left of demands. Sides are counted in steps.
    Plan {
        part: PartName,
        demands: NumberList,
        step: u32,
    },
    /// How many units of a size it takes at least for what is left of demands.
    Bound {
        material: Code,
        w: u32,
        h: u32,
        demands: NumberList,
        step: u32,
    },
    /// All materials.
    Materials,
    /// The first standing and reserved parts of a material after a name, or from the first on.
    Parts {
        material: Code,
        after: Option<PartName>,
    },
    /// The first open demands with greater numbers, of one material or of all.
    Demands {
        after: u32,
        material: Option<Code>,
    },
    /// The first waiting jobs with greater numbers.
    Jobs {
        after: u32,
    },
    /// A job, whatever its state, and its plan.
    Job {
        job: u32,
    },
    /// The greatest number under which a message of a terminal is kept.
    Terminal {
        terminal: u32,
    },
    /// The first orders after a code, or from the first on.
    Orders {
        after: Option<Code>,
    },
    /// All lines of an order.
    Lines {
        order: Code,
    },
    /// How many entries there are, and when the first and the last one were accepted.
    Shop,
    /// The first entries with greater numbers.
    History {
        after: u32,
    },
    /// The first entries about a subject with greater numbers.
    Story {
        about: Subject,
        after: u32,
    },
    /// The first pieces of an order, a batch or a unit after a name, or from the first on.
    Pieces {
        of: PieceSource,
        after: Option<PartName>,
    },
    /// The nodes of a job's plan, whatever its state, and what became of each.
    Steps {
        job: u32,
    },
}

/// What a message or a query is answered. Sides and places are tenths of a millimetre.
#[derive(Debug, Drop)]
pub enum Reply {
    AddMaterial {
        material: Code,
    },
    Receive {
        act: u32,
        count: u32,
    },
    /// How many lines the order has, and the number of its first demand.
    AddOrder {
        count: u32,
        first: u32,
        order: Code,
    },
    Reserve {
        cuts: u32,
        job: u32,
    },
    /// Cells of the job's new parts.
    Done {
        job: u32,
        kerf: u64,
        pieces: u64,
        rack: u64,
        scrap: u64,
    },
    /// The same of a broken job.
    Break {
        job: u32,
        kerf: u64,
        pieces: u64,
        rack: u64,
        scrap: u64,
    },
    Release {
        job: u32,
    },
    Scrap {
        part: PartName,
    },
    GiveBack {
        part: PartName,
    },
    /// The act of the unit that was received, 0 for an order file; how many lines the order has, and the number of its
    /// first demand.
    Import {
        act: u32,
        count: u32,
        first: u32,
        order: Code,
    },
    /// How many pieces of the demand are wanted from now on.
    Amend {
        demand: u32,
        wanted: u32,
    },
    /// The part that stands again.
    Undo {
        job: u32,
        part: PartName,
    },
    Note {
        order: Code,
    },
    /// How many lines were added, and the number of the first one's demand.
    Extend {
        count: u32,
        first: u32,
        order: Code,
    },
    /// The terminal that had begun the job before, or 0.
    Begin {
        before: u32,
        job: u32,
    },
    /// Cells of a material.
    Totals {
        material: Code,
        received: u64,
        stock: u64,
        rack: u64,
        pieces: u64,
        kerf: u64,
        scrap: u64,
        returned: u64,
    },
    /// A material's parts that stand, reserved or not, with a job's name: by rising act and then node.
    Rack {
        material: Code,
        parts: RackList,
    },
    /// A part by its place in the received unit; `of` is the job of a reserved or a cut part, the demand of a piece,
    /// else 0.
    Trace {
        batch: Code,
        h: u32,
        of: u32,
        part: PartName,
        root: PartName,
        state: StateWord,
        w: u32,
        x: u32,
        y: u32,
    },
    Demand {
        demand: u32,
        line: u32,
        made: u32,
        material: Code,
        order: Code,
        reserved: u32,
        wanted: u32,
    },
    /// A plan's text, what its pieces are worth, how many pieces were dropped, and a worth that no plan exceeds. Of a bar
    /// nothing is dropped, and its plan is worth the ceiling.
    Plan {
        ceiling: u64,
        dropped: u32,
        tree: Text,
        worth: u64,
    },
    /// What no unit is worth more than, and the least number of units.
    Bound {
        best: u64,
        units: u64,
    },
    /// All materials, by rising code.
    Materials {
        materials: MaterialList,
    },
    /// Standing and reserved parts of a material, by rising act and then node, and whether others follow the last one.
    Parts {
        material: Code,
        more: bool,
        parts: PartList,
    },
    /// Open demands, by rising number, and whether others follow the last one.
    Demands {
        demands: DemandRows,
        more: bool,
    },
    /// Waiting jobs, by rising number, and whether others follow the last one.
    Jobs {
        jobs: JobList,
        more: bool,
    },
    /// A job with its plan's text, the terminal that has begun it, or 0, and the material and the sides of its part. Lengths
    /// are tenths of a millimetre.
    Job {
        begun: u32,
        cuts: u32,
        h: u32,
        job: u32,
        kerf: u32,
        material: Code,
        part: PartName,
        state: JobState,
        tree: Text,
        w: u32,
    },
    /// The greatest number kept of a terminal, 0 where none is.
    Terminal {
        last: u32,
        terminal: u32,
    },
    /// Orders by rising code, and whether others follow the last one.
    Orders {
        more: bool,
        orders: OrderList,
    },
    /// All lines of an order, by rising line.
    Lines {
        lines: DemandRows,
        order: Code,
    },
    /// The time of the first entry, how many there are, and the time of the last one, in seconds since 1970-01-01 00:00
    /// UTC; 0 if there is none.
    Shop {
        began: u64,
        entries: u64,
        last: u64,
    },
    /// Entries by rising number, and whether others follow the last one.
    History {
        entries: EntryList,
        more: bool,
    },
    /// The same of the entries about a subject.
    Story {
        entries: EntryList,
        more: bool,
    },
    /// Pieces by rising act and then node, and whether others follow the last one.
    Pieces {
        more: bool,
        pieces: PieceList,
    },
    /// The nodes of a job's plan, by rising number, with the kerf, the material and the part that it is cut from. Lengths are
    /// tenths of a millimetre.
    Steps {
        job: u32,
        kerf: u32,
        material: Code,
        part: PartName,
        state: JobState,
        steps: StepList,
    },
    Refused(Refusal),
}
