//! The words of the command line, and the requests that they may be.

ghost use Rattle.std.specs.Prelude.{◌≡◌};
ghost use Rattle.shop_words.specs.CommandLine as line;

use crate::mistakes::Mistake;
use cut_measure::Code;

/// The longest step, in tenths of a millimetre.
pub const MAX_STEP_LENGTH: u32 = 200_000;

/// The last port.
pub const LAST_PORT: u32 = 65535;

/// The most steps of the search for the plans of a whole order.
pub const MAX_CALLS: u32 = 5000;

/// The least limit of a plan's stages.
pub const MIN_STAGES: u32 = 2;

/// The greatest limit of a plan's stages.
pub const MAX_STAGES: u32 = 255;

/// The greatest limit of connections, which also holds without a limit if there is no page.
pub const MAX_CONNECTIONS: u32 = 1_000_000;

/// The greatest terminal, and the greatest number of a message.
pub const MAX_PAIR: u32 = 4_294_967_295;

/// The greatest number of an entry after which entries are asked for.
pub const MAX_AFTER: u32 = 4_294_967_295;

/// The most backups that stay by `--keep`.
pub const MAX_KEPT: u32 = 10_000;

/// The most host names, and the most origins, that a server takes for its own.
pub const MAX_NAMES: usize = 10;

/// The most sizes of units from which an order file is planned.
pub const MAX_SIZES: usize = 10;

/// The program's version. A program built without proofs reports it followed by ` (unproved)`.
pub const VERSION: &str = "1.1.0";

/// Which message an order file becomes.
#[derive(Clone, Copy, Debug)]
pub struct ImportAs {
    pub order: Code,
    /// 1 to 4294967295.
    pub terminal: u32,
    /// 0 to 4294967295.
    pub number: u32,
}

/// What a server serves, and how.
#[derive(Debug, Drop)]
pub struct Serving<'a> {
    /// 1 to 65535.
    pub port: u32,
    pub store: &'a str,
    pub shop: &'a str,
    /// How many connections, 1 to 1000000. None: no limit.
    pub limit: Option<u32>,
    pub page: Option<&'a str>,
    /// The folder of backups.
    pub backup: Option<&'a str>,
    /// Whether a missing store is an error.
    pub existing: bool,
    /// How many of the newest backups stay, 1 to 10000. None: all.
    pub keep: Option<u32>,
    /// The host names besides this machine's, at most 10, as they were given.
    pub hosts: Vec<&'a str>,
    /// The origins of its pages besides this machine's, at most 10: `http://` or `https://`, a host, and maybe a port.
    pub origins: Vec<&'a str>,
}

/// The material and the units from which the lines of an order file are planned, and for how long.
#[derive(Debug, Drop)]
pub struct OrderPlan<'a> {
    pub file: &'a str,
    pub shop: &'a str,
    /// The material whose lines are planned, as it was given.
    pub material: &'a str,
    /// The sizes of its units, 1 to 10, as they were given.
    pub sizes: Vec<&'a str>,
    /// The most steps of the search: 1 to 5000. None: the usual number.
    pub calls: Option<u32>,
    /// The most stages of a plan: 2 to 255. None: no limit.
    pub stages: Option<u32>,
}

/// What a command line asks for.
#[derive(Debug, Drop)]
pub enum Request<'a> {
    /// Answer the lines of the input.
    Replay,
    /// Plan the rectangle of a problem file.
    Plan {
        file: &'a str,
        /// In tenths of a millimetre: 0 to 200.
        kerf: u32,
        /// In tenths of a millimetre: 0 to 200000.
        step: u32,
    },
    /// Plan all pieces of a problem file from as many of its rectangles as it takes.
    PlanOrder {
        file: &'a str,
        /// In tenths of a millimetre: 0 to 200.
        kerf: u32,
        /// In tenths of a millimetre: 0 to 200000. None: sides aren't rounded.
        step: Option<u32>,
        /// The most steps of the search: 1 to 5000. None: the usual number.
        calls: Option<u32>,
        /// The most stages of a plan: 2 to 255. None: no limit.
        stages: Option<u32>,
    },
    /// Plan all lines of a material of an order file from as many units of some sizes as it takes.
    PlanLines(OrderPlan<'a>),
    /// Read an order file, and report how many lines it has, or the message that it becomes.
    Orders {
        file: &'a str,
        /// The shop file by whose materials its lines are judged, too.
        shop: Option<&'a str>,
        reported: Option<ImportAs>,
    },
    /// Serve a store on a port.
    Serve(Serving<'a>),
    /// Print the ticket of a job of a store.
    Ticket {
        store: &'a str,
        /// 1 to 2147483647.
        job: u32,
        /// Whether the store's files are only read.
        read_only: bool,
    },
    /// Print the yield report of a material of a store.
    Yield {
        store: &'a str,
        material: Code,
        /// Whether the store's files are only read.
        read_only: bool,
    },
    /// Print the entries of a store's history.
    History {
        store: &'a str,
        /// Only those with greater numbers, 0 to 4294967295. None: all.
        after: Option<u32>,
        /// Whether the store's files are only read.
        read_only: bool,
    },
    /// Report whether a store is whole.
    Audit {
        store: &'a str,
        /// Whether the store's files are only read.
        read_only: bool,
    },
    /// Put a backup in the place of a store.
    Restore {
        store: &'a str,
        /// The folder of one backup.
        from: &'a str,
    },
}

/// What words that `clap` accepts are: a request, or a mistake.
#[derive(Debug, Drop)]
pub enum Reading<'a> {
    Request(Request<'a>),
    Mistake(Mistake<'a>),
}

/// The word of a command.
#[derive(Clone, Copy, Debug, PartialEq, Eq)]
pub(crate) enum Word {
    Replay,
    Plan,
    Orders,
    Serve,
    Ticket,
    Yield,
    History,
    Audit,
    Restore,
}

/// An argument of a command.
#[derive(Clone, Copy)]
pub(crate) enum Argument {
    File,
    Kerf,
    Step,
    Whole,
    Calls,
    Stages,
    PlanShop,
    PlanMaterial,
    Size,
    OrderFile,
    OrdersShop,
    Order,
    Terminal,
    Number,
    Port,
    Store,
    Shop,
    Limit,
    Page,
    Backup,
    Existing,
    Keep,
    Host,
    Origin,
    Job,
    Material,
    PrintedStore,
    KeptStore,
    ReplacedStore,
    After,
    ReadOnly,
    From,
}

/// The words, in the order in which help lists their commands.
pub(crate) const WORDS: [Word; 9] = [
    Word::Replay,
    Word::Plan,
    Word::Orders,
    Word::Serve,
    Word::Ticket,
    Word::Yield,
    Word::History,
    Word::Audit,
    Word::Restore,
];

/// The command of this word.
pub(crate) fn word_of(name: &str) -> Option<Word>
    ensures { line.AsAsked result (λ word. name.now ≡ line.word_text word) }
{
    if name == "replay" {
        Some(Word::Replay)
    } else if name == "plan" {
        Some(Word::Plan)
    } else if name == "orders" {
        Some(Word::Orders)
    } else if name == "serve" {
        Some(Word::Serve)
    } else if name == "ticket" {
        Some(Word::Ticket)
    } else if name == "yield" {
        Some(Word::Yield)
    } else if name == "history" {
        Some(Word::History)
    } else if name == "audit" {
        Some(Word::Audit)
    } else if name == "restore" {
        Some(Word::Restore)
    } else {
        None
    }
}
