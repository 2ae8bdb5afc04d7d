//! Why a message or a query is refused, with the numbers and the names that replies print.

ghost use Rattle.std.specs.Prelude.{◌≡◌};
ghost use Rattle.shop_records.specs.Refusals.{refusal_number, refusal_name};

use std::alloc::AllocError;

/// Why a message or a query is refused. Each has a number and a name, which never change.
#[derive(Clone, Copy, Debug, PartialEq, Eq)]
pub enum Refusal {
    /// 10: no message or query.
    BadMessage,
    /// 11: the message ID is kept with another command.
    NumberReused,
    /// 20: unknown material.
    NoMaterial,
    /// 21: known with other values.
    MaterialExists,
    /// 22: no kerf and limits of the kind.
    BadMaterial,
    /// 30: no size of the material's kind.
    BadSize,
    /// 31: a receipt's count outside 1..=100.
    BadCount,
    /// 32: over 1000000000000000 cells of the material would have been received.
    TooMuch,
    /// 33: an act or demand number would pass 2147483647.
    NumbersSpent,
    /// 40: the order code is used.
    OrderExists,
    /// 41: a bad order line.
    BadLine,
    /// 42: unknown demand.
    NoDemand,
    /// 43: unknown order.
    NoOrder,
    /// 44: no note: a day that there isn't, a text that is too long, or one with a control character.
    BadNote,
    /// 50: unknown part.
    NoPart,
    /// 51: the part isn't standing.
    NotStanding,
    /// 52: the part isn't a unit as it was received.
    NotWhole,
    /// 60: no tree of the part, or one without a piece.
    BadTree,
    /// 61: the demand's material is another.
    WrongMaterial,
    /// 62: the leaf isn't of the demand's size.
    WrongSize,
    /// 63: more than wanted would be reserved and made.
    TooMany,
    /// 70: unknown job.
    NoJob,
    /// 71: the job isn't waiting.
    JobOver,
    /// 72: the plan hasn't such a cut.
    BadCut,
    /// 73: the job is neither done nor broken, or it isn't kept how it was broken.
    NotOver,
    /// 74: a part that the job made isn't as the job left it.
    PartsMoved,
    /// 80: an import's text is refused.
    BadText,
    /// 90: nothing that is wanted fits the unit.
    NothingFits,
    /// 91: the planner's table would be too large.
    TableTooLarge,
    /// 92: no step for the planner.
    BadStep,
    /// 93: no list of wants for the planner.
    BadWant,
    /// 98: memory ran out.
    NoMemory,
    /// 99: the store failed.
    StoreFault,
}

impl From<AllocError> for Refusal {
    ghost use Rattle.std.specs.Prelude.{◌≡◌};
    ghost use Rattle.shop_records.specs.declared.refusals.Refusal.TheVariants.{NoMemory};

    ghost from_gives = { λ _ refusal. refusal ≡ NoMemory };

    fn from(_error: AllocError) -> Refusal {
        Refusal::NoMemory
    }
}

impl Refusal {
    /// Its number.
    pub fn number(self) -> u32
        ensures { result ≡ refusal_number self }
    {
        match self {
            Refusal::BadMessage => 10,
            Refusal::NumberReused => 11,
            Refusal::NoMaterial => 20,
            Refusal::MaterialExists => 21,
            Refusal::BadMaterial => 22,
            Refusal::BadSize => 30,
            Refusal::BadCount => 31,
            Refusal::TooMuch => 32,
            Refusal::NumbersSpent => 33,
            Refusal::OrderExists => 40,
            Refusal::BadLine => 41,
            Refusal::NoDemand => 42,
            Refusal::NoOrder => 43,
            Refusal::BadNote => 44,
            Refusal::NoPart => 50,
            Refusal::NotStanding => 51,
            Refusal::NotWhole => 52,
            Refusal::BadTree => 60,
            Refusal::WrongMaterial => 61,
            Refusal::WrongSize => 62,
            Refusal::TooMany => 63,
            Refusal::NoJob => 70,
            Refusal::JobOver => 71,
            Refusal::BadCut => 72,
            Refusal::NotOver => 73,
            Refusal::PartsMoved => 74,
            Refusal::BadText => 80,
            Refusal::NothingFits => 90,
            Refusal::TableTooLarge => 91,
            Refusal::BadStep => 92,
            Refusal::BadWant => 93,
            Refusal::NoMemory => 98,
            Refusal::StoreFault => 99,
        }
    }

    /// Its name, as replies print it.
    pub fn name(self) -> &'static str
        ensures { result.now ≡ refusal_name self }
    {
        match self {
            Refusal::BadMessage => "BadMessage",
            Refusal::NumberReused => "NumberReused",
            Refusal::NoMaterial => "NoMaterial",
            Refusal::MaterialExists => "MaterialExists",
            Refusal::BadMaterial => "BadMaterial",
            Refusal::BadSize => "BadSize",
            Refusal::BadCount => "BadCount",
            Refusal::TooMuch => "TooMuch",
            Refusal::NumbersSpent => "NumbersSpent",
            Refusal::OrderExists => "OrderExists",
            Refusal::BadLine => "BadLine",
            Refusal::NoDemand => "NoDemand",
            Refusal::NoOrder => "NoOrder",
            Refusal::BadNote => "BadNote",
            Refusal::NoPart => "NoPart",
            Refusal::NotStanding => "NotStanding",
            Refusal::NotWhole => "NotWhole",
            Refusal::BadTree => "BadTree",
            Refusal::WrongMaterial => "WrongMaterial",
            Refusal::WrongSize => "WrongSize",
            Refusal::TooMany => "TooMany",
            Refusal::NoJob => "NoJob",
            Refusal::JobOver => "JobOver",
            Refusal::BadCut => "BadCut",
            Refusal::NotOver => "NotOver",
            Refusal::PartsMoved => "PartsMoved",
            Refusal::BadText => "BadText",
            Refusal::NothingFits => "NothingFits",
            Refusal::TableTooLarge => "TableTooLarge",
            Refusal::BadStep => "BadStep",
            Refusal::BadWant => "BadWant",
            Refusal::NoMemory => "NoMemory",
            Refusal::StoreFault => "StoreFault",
        }
    }
}
