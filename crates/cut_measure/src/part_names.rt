//! Names of parts: the number of the act that made one, a slash, and its node in that act, as `12/3`.

ghost use Rattle.cut_measure.specs.Names.{IsNameOf};

use crate::numbers::read_number;
use crate::ranges::MAX_NUMBERS;
use std::alloc::AllocError;
use std::cmp::Ordering;
use std::marker::Model;

/// What a part is called: the number of the act that made it, 1 to 2147483647, and its node in that act.
#[derive(Clone, Copy, Debug, PartialEq, Eq)]
pub struct PartName {
    act: u32,
    node: u32,
}

impl Model for PartName {
    ghost use Rattle.std.specs.Prelude.{◌≤◌};
    ghost use Rattle.cut_measure.specs.declared.ranges.TheConstants.{MAX_NUMBERS};
    ghost use Rattle.cut_measure.specs.Names.{Name};

    ghost Value = { Name };

    ghost view = { λ n. record { act = n.act; node = n.node } };

    ghost invariant = { λ n. (1 ≤ n.act) × (n.act ≤ MAX_NUMBERS) };

    ghost inverse = { λ n. record { act = n.act; node = n.node } };
}

// The part that a text names.
fn named(text: &str) -> Option<PartName>
    ensures { IsNameOf result text.now }
{
    let (act, node) = text.split_once('/')?;
    let act = read_number(act.as_bytes())?;
    let node = read_number(node.as_bytes())?;
    if act < 1 || act > MAX_NUMBERS {
        return None;
    }
    Some(PartName { act, node })
}

impl PartName {
    ghost use Rattle.std.specs.Prelude.{◌≡◌, ◌≤◌, ◌++◌, OnOk, OnErr, string_bytes};
    ghost use Rattle.cut_measure.specs.Names.{name_cmp, name_text, spelled_name, IsNameOf};

    /// The name of a node of an act.
    pub fn new(act: u32, node: u32) -> PartName
        requires least { 1 ≤ act }
        requires most { act ≤ MAX_NUMBERS }
        ensures { result ≡ record { act = act; node = node } }
    {
        PartName { act, node }
    }

    /// The part that a text names: its act and its node in decimal digits without leading zeros, joined by a slash.
    pub fn read(text: &str) -> Option<PartName>
        ensures named { IsNameOf result text.now }
        ensures value { result ≡ spelled_name text.now }
    {
        named(text)
    }

    /// Appends its text, or leaves the string as it was.
    pub fn write(&self, text: &mut String) -> Result<(), AllocError>
        ensures ok { OnOk result (string_bytes text.new ≡ string_bytes text.old
            ++ name_text self.now) }
        ensures err { OnErr result (string_bytes text.new ≡ string_bytes text.old) }
    {
        let alloc = *text.allocator();
        let name = format!(in alloc; "{}/{}", self.act, self.node)?;
        text.push_str(name.as_str())
    }

    /// The number of the act that made it.
    pub fn act(&self) -> u32
        ensures value { result ≡ self.now.act }
        ensures least { 1 ≤ result }
        ensures most { result ≤ MAX_NUMBERS }
    {
        self.act
    }

    /// The order of two names, by act and then by node.
    pub fn order(&self, other: &PartName) -> Ordering
        ensures { result ≡ name_cmp self.now other.now }
    {
        self.act.cmp(&other.act).then(self.node.cmp(&other.node))
    }

    /// Its node in that act.
    pub fn node(&self) -> u32
        ensures { result ≡ self.now.node }
    {
        self.node
    }
}
