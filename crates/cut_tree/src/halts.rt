//! Where the work on a plan ended: which of its cuts were made, and which one went wrong.

ghost use Rattle.std.specs.Prelude.{◌≡◌, ◌+◌, ◌^◌, ◌<◌, ◌≤◌, ◌↔◌, ◌||◌, ℕ, IsTrue, IfOk, true, false};
ghost use Rattle.std.specs.List.Sorted.{IsStrictlyIncreasing};
ghost use Rattle.cut_tree.specs.Tree.{cut_count};
ghost use Rattle.cut_tree.specs.Nodes.{tree_of};
ghost use Rattle.cut_tree.specs.Stops.{is_among, outcome_after, outcome_saved, outcome_of, halted, is_tried, UnmadeBy, rest_in, AreClosed};

use crate::lay::Owner;
use crate::node::{Node, count_cuts};
use cut_measure::RowList;
use std::alloc::{AllocError, Global};

/// Numbers of cuts, in order.
pub type CutList = RowList<u32>;

/// Which cuts were made before the work on a plan halted. Cuts are numbered from 0 in preorder.
#[derive(Debug, Drop)]
pub enum Halt {
    /// The first `cuts` cuts were made; the next one went wrong if `lost`.
    First { cuts: u32, lost: bool },
    /// The listed cuts were made; `lost` went wrong, if it is one.
    Listed { cuts: CutList, lost: Option<u32> },
}

impl Halt {
    ghost use Rattle.std.specs.Prelude.{◌≡◌, IfOk};
    ghost use Rattle.cut_tree.specs.Stops.{is_made, is_lost};

    /// Whether the cut of this number was made.
    pub fn is_made(&self, cut: u32) -> bool
        ensures { result ≡ is_made self.now cut }
    {
        match self {
            Halt::First { cuts, .. } => cut < *cuts,
            Halt::Listed { cuts, .. } => is_among(cuts.as_slice(), cut),
        }
    }

    /// Whether it is the one that went wrong.
    pub fn is_lost(&self, cut: u32) -> bool
        ensures { result ≡ is_lost self.now cut }
    {
        match self {
            Halt::First { cuts, lost } => *lost && *cuts == cut,
            Halt::Listed { lost, .. } => *lost == Some(cut),
        }
    }

    /// The same halt in memory of its own.
    pub fn copy(&self, alloc: Global) -> Result<Halt, AllocError>
        ensures { IfOk result (λ copy. copy ≡ self.now) }
    {
        match self {
            Halt::First { cuts, lost } => Ok(Halt::First {
                cuts: *cuts,
                lost: *lost,
            }),
            Halt::Listed { cuts, lost } => {
                let cuts = copy_cuts(alloc, cuts.as_slice())?;
                Ok(Halt::Listed { cuts, lost: *lost })
            }
        }
    }
}

// The same numbers in memory of their own.
fn copy_cuts(alloc: Global, cuts: &[u32]) -> Result<CutList, AllocError>
    ensures { IfOk result (λ copy. copy ≡ cuts.now) }
{
    let mut copy = CutList::new(alloc);
    for cut in cuts {
        copy.push(*cut)?;
    }
    Ok(copy)
}

/// Where the work on a plan ended.
#[derive(Debug, Drop)]
pub enum Stop {
    /// All cuts were made.
    All,
    /// Some of them were.
    After(Halt),
    /// Some of them were, and of the rectangle of the one that went wrong so many columns or rows are left, the last ones.
    Saved(Halt, u32),
}

/// Where the work halted, with the rest that is left of the rectangle of the cut that went wrong, if there is one.
pub fn halted(halt: Halt, rest: Option<u32>) -> Stop
    ensures { result ≡ halted halt rest }
{
    match rest {
        None => Stop::After(halt),
        Some(rest) => Stop::Saved(halt, rest),
    }
}

/// Whether a cut is among these.
pub fn is_among(cuts: &[u32], cut: u32) -> bool
    ensures { result ≡ is_among cuts.now cut }
{
    cuts.contains(&cut)
}

/// Whether numbers rise strictly.
pub fn rise(cuts: &[u32]) -> bool
    ensures { IsTrue result ↔ IsStrictlyIncreasing cuts.now }
{
    for i in 1..cuts.len() {
        if cuts[i - 1] >= cuts[i] {
            return false;
        }
    }
    true
}

// Whether a cut was made or went wrong.
fn is_tried(cuts: &[u32], lost: Option<u32>, cut: u32) -> bool
    ensures { result ≡ is_tried cuts.now lost cut }
{
    is_among(cuts, cut) || lost == Some(cut)
}

// Whether none of the cuts from one number to another was tried.
fn none_tried(cuts: &[u32], lost: Option<u32>, from: u32, end: u32) -> bool
    ensures { IsTrue result ↔ ((d : ℕ) → from ≤ d → d < end → is_tried cuts.now lost d ≡ false) }
{
    for cut in from..end {
        if is_tried(cuts, lost, cut) {
            return false;
        }
    }
    true
}

/// Whether every cut above one that was tried is among the cuts that were made, in a tree whose first cut has this number.
pub fn are_closed(node: &Node, number: u32, cuts: &[u32], lost: Option<u32>) -> bool
    requires { number + cut_count (tree_of node.now) < 2 ^ 32 }
    ensures { IsTrue result ↔ AreClosed (tree_of node.now) number cuts.now lost }
{
    let end = number + count_cuts(node);
    match node {
        Node::Piece(..) | Node::Rest => true,
        Node::Trim(_, _, first) => {
            if is_among(cuts, number) {
                are_closed(first, number + 1, cuts, lost)
            } else {
                none_tried(cuts, lost, number + 1, end)
            }
        }
        Node::Cut(_, _, first, second) => {
            if is_among(cuts, number) {
                let after = number + 1 + count_cuts(first);
                are_closed(first, number + 1, cuts, lost) && are_closed(second, after, cuts, lost)
            } else {
                none_tried(cuts, lost, number + 1, end)
            }
        }
    }
}

// What the rectangle of this cut is where the cut isn't made, the work having halted so.
fn unmade_after(halt: &Halt, cut: u32) -> Option<Owner>
    ensures { UnmadeBy (outcome_after halt.now cut) result }
{
    if halt.is_made(cut) {
        return None;
    }
    if halt.is_lost(cut) {
        Some(Owner::Lost)
    } else {
        Some(Owner::Uncut)
    }
}

// The same where a rest is left of the cut that went wrong.
fn unmade_saved(halt: &Halt, rest: u32, cut: u32) -> Option<Owner>
    ensures { UnmadeBy (outcome_saved halt.now rest cut) result }
{
    let _rest = rest;
    if halt.is_made(cut) {
        return None;
    }
    if halt.is_lost(cut) {
        Some(Owner::Lost)
    } else {
        Some(Owner::Uncut)
    }
}

fn no_rest(halt: &Halt, cut: u32) -> u32
    ensures { result ≡ rest_in (outcome_after halt.now cut) }
{
    let _made = halt.is_made(cut);
    let _lost = halt.is_lost(cut);
    0
}

fn rest_of_lost(halt: &Halt, rest: u32, cut: u32) -> u32
    ensures { result ≡ rest_in (outcome_saved halt.now rest cut) }
{
    if halt.is_made(cut) {
        return 0;
    }
    if halt.is_lost(cut) { rest } else { 0 }
}

/// What the rectangle of this cut is where the cut isn't made.
pub fn unmade(stop: &Stop, cut: u32) -> Option<Owner>
    ensures { UnmadeBy (outcome_of stop.now cut) result }
{
    match stop {
        Stop::All => None,
        Stop::After(halt) => unmade_after(halt, cut),
        Stop::Saved(halt, rest) => unmade_saved(halt, *rest, cut),
    }
}

/// How many columns or rows are left of the rectangle of this cut where the cut went wrong.
pub fn rest_left(stop: &Stop, cut: u32) -> u32
    ensures { result ≡ rest_in (outcome_of stop.now cut) }
{
    match stop {
        Stop::All => 0,
        Stop::After(halt) => no_rest(halt, cut),
        Stop::Saved(halt, rest) => rest_of_lost(halt, *rest, cut),
    }
}
