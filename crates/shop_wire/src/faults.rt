//! Why a replay stopped, and why a request wasn't answered.

use std::error::Error;
use std::fmt;

/// Why a replay stopped.
#[derive(Clone, Copy, Debug, PartialEq, Eq)]
pub enum ReplayFault {
    /// The source failed, or 1000000000 reads didn't come to its end.
    Read,
    /// The sink failed.
    Write,
    /// Lack of memory.
    NoMemory,
}

impl fmt::Display for ReplayFault {
    ghost use Rattle.std.specs.Prelude.{Some};
    ghost use Rattle.shop_wire.specs.FaultTexts.{fault_text};

    ghost output = { λ fault. Some (fault_text fault) };

    fn fmt<W: fmt::Write>(&self, f: &mut fmt::Formatter<W>) -> fmt::Result {
        f.write_str(match self {
            ReplayFault::Read => "fault read",
            ReplayFault::Write => "fault write",
            ReplayFault::NoMemory => "fault memory",
        })
    }
}

impl Error for ReplayFault {}

/// Why a request wasn't answered.
#[derive(Clone, Copy, Debug, PartialEq, Eq)]
pub enum WireFault {
    /// The source failed.
    Read,
    /// The sink failed.
    Write,
    /// Lack of memory.
    NoMemory,
}

impl fmt::Display for WireFault {
    ghost use Rattle.std.specs.Prelude.{Some};
    ghost use Rattle.shop_wire.specs.FaultTexts.{wire_fault_text};

    ghost output = { λ fault. Some (wire_fault_text fault) };

    fn fmt<W: fmt::Write>(&self, f: &mut fmt::Formatter<W>) -> fmt::Result {
        f.write_str(match self {
            WireFault::Read => "fault read",
            WireFault::Write => "fault write",
            WireFault::NoMemory => "fault memory",
        })
    }
}

impl Error for WireFault {}
