//! Why a command stopped, and the line that reports it.

ghost use Rattle.std.specs.Prelude.{◌≡◌};
ghost use Rattle.shop_commands.specs.Faults as spec;

use cut_plan::PlanFault;
use shop_advice::{BackupCause, StoreCause, VersionCause};
use shop_audit::{LinesFault as HistoryFault, Row};
use shop_backup::{BackupFault, RestoreFault};
use shop_files::{ShopFault, TextCause, TextFault};
use shop_opening::{AddFault, EntryRefused, OpenFault};
use shop_problems::{BadEntry, EntryFault, LinesFault};
use shop_records::Refusal;
use shop_serve::{PortCause, ServeFault};
use shop_store::BookFault;
use shop_text::PrintFault;
use shop_wire::ReplayFault;
use std::alloc::AllocError;
use std::error::Error;
use std::fmt;

/// What the first error of an order file is.
#[derive(Clone, Copy, Debug, PartialEq, Eq)]
pub enum OrderCause {
    /// The text is over 65536 bytes long.
    Long,
    /// The first line has semicolons, and no comma.
    Semicolons,
    /// The first line isn't the header.
    Header,
    /// A row has more or fewer than seven fields.
    Fields,
    /// There are over 200 rows.
    Many,
    /// There is no row below the header.
    None,
    /// A field of this name.
    Line,
    Material,
    Length,
    Width,
    Turn,
    Count,
    Worth,
    /// A line's number isn't above the one before it, or is 0.
    Rising,
    /// The shop file has no such material.
    Unknown,
    /// A number that is out of its range.
    FarLength,
    FarWidth,
    FarCount,
    FarWorth,
    /// A bar's piece may be turned.
    Turned,
}

/// The first error of an order file: the number of the first bad record (the header is 0), its first bad field from 0,
/// and what is wrong there.
#[derive(Clone, Copy, Debug, PartialEq, Eq)]
pub struct OrderFault {
    pub row: usize,
    pub field: usize,
    pub cause: OrderCause,
}

/// Why the work stopped.
#[derive(Clone, Copy, Debug, PartialEq)]
pub enum Fault {
    /// The file can't be read.
    File,
    /// The file's text isn't a problem: its first error, and the byte where it shows.
    Text(TextFault),
    /// The shop file's text isn't a document with a list of materials.
    ShopText,
    /// The order file's first error.
    Order(OrderFault),
    /// The first bad entry of the shop file, from 1.
    ShopEntry(usize),
    /// An entry of the shop file was refused.
    Entry(EntryRefused),
    /// There is no plan, no ticket or no report.
    Refused(Refusal),
    /// The input can't be read to its end.
    Read,
    /// The output can't be written.
    Write,
    /// Memory ran out.
    NoMemory,
    /// The store can't be read and written, or isn't a database.
    Store(StoreCause),
    /// The store has another program's tables, or those of another version.
    Version(VersionCause),
    /// The port can't be listened to, or no connection can be accepted.
    Port(PortCause),
    /// No backup can be made in the folder, or the folder isn't a backup.
    Backup(BackupCause),
    /// A store isn't whole.
    Audit(Torn),
}

/// Why a store isn't whole.
#[derive(Clone, Copy, Debug, PartialEq)]
pub enum Torn {
    /// This many messages were kept before entries began.
    Before(u64),
    /// The message of this entry gets another reply.
    Reply(u64),
    /// This row differs, or is only on one side.
    Row(Row),
}

impl From<HistoryFault> for Fault {
    ghost use Rattle.std.specs.Prelude.{◌≡◌};
    ghost use Rattle.shop_commands.specs.Faults.{written_fault};

    ghost from_gives = { λ fault result. result ≡ written_fault fault };

    fn from(fault: HistoryFault) -> Fault {
        match fault {
            HistoryFault::NoMemory => Fault::NoMemory,
            HistoryFault::Store => Fault::Store(StoreCause::Failed),
            HistoryFault::Write => Fault::Write,
        }
    }
}

impl From<BookFault> for Fault {
    ghost use Rattle.std.specs.Prelude.{◌≡◌};
    ghost use Rattle.shop_commands.specs.Faults.{book_fault};

    ghost from_gives = { λ fault result. result ≡ book_fault fault };

    fn from(fault: BookFault) -> Fault {
        match fault {
            BookFault::NoMemory => Fault::NoMemory,
            BookFault::Store => Fault::Store(StoreCause::Failed),
            BookFault::WrongVersion => Fault::Store(StoreCause::Failed),
        }
    }
}

impl From<AllocError> for Fault {
    ghost use Rattle.std.specs.Prelude.{◌≡◌};
    ghost use Rattle.shop_commands.specs.declared.faults.Fault.TheVariants.{NoMemory};

    ghost from_gives = { λ _ fault. fault ≡ NoMemory };

    fn from(_error: AllocError) -> Fault {
        Fault::NoMemory
    }
}

impl From<PlanFault> for Fault {
    ghost use Rattle.std.specs.Prelude.{◌≡◌};
    ghost use Rattle.shop_commands.specs.Faults.{planner_fault};

    ghost from_gives = { λ fault result. result ≡ planner_fault fault };

    fn from(fault: PlanFault) -> Fault {
        match fault {
            PlanFault::NothingFits => Fault::Refused(Refusal::NothingFits),
            PlanFault::TableTooLarge => Fault::Refused(Refusal::TableTooLarge),
            PlanFault::BadStep => Fault::Refused(Refusal::BadStep),
            PlanFault::BadWant => Fault::Refused(Refusal::BadWant),
            PlanFault::NoMemory => Fault::NoMemory,
        }
    }
}

impl From<LinesFault> for Fault {
    ghost use Rattle.std.specs.Prelude.{◌≡◌};
    ghost use Rattle.shop_commands.specs.Faults.{lines_fault};

    ghost from_gives = { λ fault result. result ≡ lines_fault fault };

    fn from(fault: LinesFault) -> Fault {
        match fault {
            LinesFault::NoMaterial => Fault::Refused(Refusal::NoMaterial),
            LinesFault::BadSize => Fault::Refused(Refusal::BadSize),
            LinesFault::Plan(fault) => Fault::from(fault),
        }
    }
}

impl From<BadEntry> for Fault {
    ghost use Rattle.std.specs.Prelude.{◌≡◌};
    ghost use Rattle.shop_commands.specs.Faults.{entry_fault};

    ghost from_gives = { λ bad result. result ≡ entry_fault bad };

    fn from(bad: BadEntry) -> Fault {
        let refusal = match bad.fault {
            EntryFault::Bad => Refusal::BadMaterial,
            EntryFault::Exists => Refusal::MaterialExists,
        };
        Fault::Entry(EntryRefused {
            entry: bad.entry,
            refusal,
        })
    }
}

impl From<TextFault> for Fault {
    ghost use Rattle.std.specs.Prelude.{◌≡◌};
    ghost use Rattle.shop_commands.specs.Faults.{file_fault};

    ghost from_gives = { λ fault result. result ≡ file_fault fault };

    fn from(fault: TextFault) -> Fault {
        match fault.cause {
            TextCause::NoMemory => Fault::NoMemory,
            _ => Fault::Text(fault),
        }
    }
}

impl From<ShopFault> for Fault {
    ghost use Rattle.std.specs.Prelude.{◌≡◌};
    ghost use Rattle.shop_commands.specs.Faults.{shop_fault};

    ghost from_gives = { λ fault result. result ≡ shop_fault fault };

    fn from(fault: ShopFault) -> Fault {
        match fault {
            ShopFault::NoMemory => Fault::NoMemory,
            ShopFault::Text => Fault::ShopText,
            ShopFault::Entry(entry) => Fault::ShopEntry(entry),
        }
    }
}

impl From<OpenFault> for Fault {
    ghost use Rattle.std.specs.Prelude.{◌≡◌};
    ghost use Rattle.shop_commands.specs.Faults.{store_fault};

    ghost from_gives = { λ fault result. result ≡ store_fault fault };

    fn from(fault: OpenFault) -> Fault {
        match fault {
            OpenFault::NoMemory => Fault::NoMemory,
            OpenFault::Store(cause) => Fault::Store(cause),
            OpenFault::Version(cause) => Fault::Version(cause),
        }
    }
}

impl From<BackupFault> for Fault {
    ghost use Rattle.std.specs.Prelude.{◌≡◌};
    ghost use Rattle.shop_commands.specs.Faults.{backup_fault};

    ghost from_gives = { λ fault result. result ≡ backup_fault fault };

    fn from(fault: BackupFault) -> Fault {
        match fault {
            BackupFault::NoMemory => Fault::NoMemory,
            BackupFault::Failed(cause) => Fault::Backup(cause),
        }
    }
}

impl From<RestoreFault> for Fault {
    ghost use Rattle.std.specs.Prelude.{◌≡◌};
    ghost use Rattle.shop_commands.specs.Faults.{restore_fault};

    ghost from_gives = { λ fault result. result ≡ restore_fault fault };

    fn from(fault: RestoreFault) -> Fault {
        match fault {
            RestoreFault::NoMemory => Fault::NoMemory,
            RestoreFault::Store(cause) => Fault::Store(cause),
            RestoreFault::NoBackup => Fault::Backup(BackupCause::NoBackup),
            RestoreFault::Before => Fault::Store(StoreCause::Before),
        }
    }
}

impl From<AddFault> for Fault {
    ghost use Rattle.std.specs.Prelude.{◌≡◌};
    ghost use Rattle.shop_commands.specs.Faults.{add_fault};

    ghost from_gives = { λ fault result. result ≡ add_fault fault };

    fn from(fault: AddFault) -> Fault {
        match fault {
            AddFault::NoMemory => Fault::NoMemory,
            AddFault::Refused(refused) => Fault::Entry(refused),
        }
    }
}

impl From<PrintFault> for Fault {
    ghost use Rattle.std.specs.Prelude.{◌≡◌};
    ghost use Rattle.shop_commands.specs.Faults.{print_fault};

    ghost from_gives = { λ fault result. result ≡ print_fault fault };

    fn from(fault: PrintFault) -> Fault {
        match fault {
            PrintFault::Refused(refusal) => Fault::Refused(refusal),
            PrintFault::Write => Fault::Write,
        }
    }
}

impl From<ServeFault> for Fault {
    ghost use Rattle.std.specs.Prelude.{◌≡◌};
    ghost use Rattle.shop_commands.specs.Faults.{serve_fault};

    ghost from_gives = { λ fault result. result ≡ serve_fault fault };

    fn from(fault: ServeFault) -> Fault {
        match fault {
            ServeFault::NoMemory => Fault::NoMemory,
            ServeFault::Port => Fault::Port(PortCause::Refused),
            ServeFault::Moved => Fault::Store(StoreCause::Moved),
        }
    }
}

impl From<ReplayFault> for Fault {
    ghost use Rattle.std.specs.Prelude.{◌≡◌};
    ghost use Rattle.shop_commands.specs.Faults.{replay_fault};

    ghost from_gives = { λ fault result. result ≡ replay_fault fault };

    fn from(fault: ReplayFault) -> Fault {
        match fault {
            ReplayFault::Read => Fault::Read,
            ReplayFault::Write => Fault::Write,
            ReplayFault::NoMemory => Fault::NoMemory,
        }
    }
}

fn cause_word(cause: TextCause) -> &'static str
    ensures { result.now ≡ spec.cause_word cause }
{
    match cause {
        TextCause::Long => "Long",
        TextCause::Byte => "Byte",
        TextCause::Number => "Number",
        TextCause::Short => "Short",
        TextCause::NoMemory => "NoMemory",
    }
}

// What is wrong in a field that can be read, and what to write.
fn judged_sentence(cause: OrderCause) -> &'static str
    ensures { result.now ≡ spec.judged_sentence cause }
{
    match cause {
        OrderCause::Rising => {
            "the line isn't greater than that of the row above, or is 0; write rising numbers from 1 on"
        }
        OrderCause::Unknown =>
            "the shop file has no such material; write the code of one that it has",
        OrderCause::FarLength => "the length is out of its range; write 0.1 to 20000.0",
        OrderCause::FarWidth =>
            "the width is out of its range; write 0.1 to 6000.0, and 0.1 for a bar",
        OrderCause::Turned => "a bar's piece isn't turned; write no",
        OrderCause::FarCount => "the count is out of its range; write 1 to 1000000",
        OrderCause::FarWorth => "the worth is out of its range; write 1 to 1000000000",
        _ => "the field is another",
    }
}

// What is wrong in an order file, and what to write.
fn order_sentence(cause: OrderCause) -> &'static str
    ensures { result.now ≡ spec.order_sentence cause }
{
    match cause {
        OrderCause::Long => "the text is too long; write at most 65536 bytes",
        OrderCause::Semicolons => {
            "the first line has semicolons; write commas between fields and a point before a tenth"
        }
        OrderCause::Header => {
            "the first line is another; write line,material,length,width,turn,count,worth"
        }
        OrderCause::Fields => {
            "the row has not seven fields; write seven with a comma between each two, and a point before a tenth"
        }
        OrderCause::Many => "the row is one too many; write at most 200 below the first line",
        OrderCause::None => "there is no row below the first line; write one for each line",
        OrderCause::Line => {
            "the line is a whole number of 1 to 10 digits, greater than that of the row above; write it as 12"
        }
        OrderCause::Material => {
            "the material is a code of 1 to 16 of A-Z, 0-9 and -; write it as STEEL-40"
        }
        OrderCause::Length => {
            "the length is in millimetres; write 1 to 6 digits, and after a point one digit, as 1250.5"
        }
        OrderCause::Width => {
            "the width is in millimetres; write 1 to 6 digits, and after a point one digit, as 600.5, and 0.1 for a bar"
        }
        OrderCause::Turn => "the turn says whether the piece may be turned; write yes or no",
        OrderCause::Count => {
            "the count is the number of pieces, a whole number of 1 to 10 digits; write it as 3"
        }
        OrderCause::Worth => {
            "the worth is that of one piece, a whole number of 1 to 10 digits; write it as 30"
        }
        other => judged_sentence(other),
    }
}

impl fmt::Display for Fault {
    ghost use Rattle.std.specs.Prelude.{Some};
    ghost use Rattle.shop_commands.specs.Faults.{fault_text};

    ghost output = { λ fault. Some (fault_text fault) };

    fn fmt<W: fmt::Write>(&self, f: &mut fmt::Formatter<W>) -> fmt::Result {
        match self {
            Fault::File => f.write_str("fault file"),
            Fault::Text(fault) => {
                write!(f, "fault text {} {}", fault.offset, cause_word(fault.cause))
            }
            Fault::Order(fault) => write!(
                f,
                "fault order row {} field {}: {}",
                fault.row,
                fault.field,
                order_sentence(fault.cause)
            ),
            Fault::ShopText => f.write_str("fault shop text"),
            Fault::ShopEntry(entry) => write!(f, "fault shop entry {entry}"),
            Fault::Entry(refused) => {
                write!(
                    f,
                    "shop entry {} refused {} {}",
                    refused.entry,
                    refused.refusal.number(),
                    refused.refusal.name()
                )
            }
            Fault::Refused(refusal) => {
                write!(f, "refused {} {}", refusal.number(), refusal.name())
            }
            Fault::Read => f.write_str("fault read"),
            Fault::Write => f.write_str("fault write"),
            Fault::NoMemory => f.write_str("fault memory"),
            Fault::Store(_) => f.write_str("fault store"),
            Fault::Version(_) => f.write_str("fault version"),
            Fault::Port(_) => f.write_str("fault port"),
            Fault::Backup(_) => f.write_str("fault backup"),
            Fault::Audit(_) => f.write_str("fault audit"),
        }
    }
}

impl Error for Fault {}
