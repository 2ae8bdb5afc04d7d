//! The cutting tree of pieces that are cut off a bar one after another, and why there may be none.

ghost use Rattle.std.specs.Prelude.{◌≡◌, ◌+◌, ◌-◌, ◌≤◌, ◌<◌, IfOk, IfErr, OnOk, All, length, sum_by};
ghost use Rattle.std.specs.Option.{SomeIff};
ghost use Rattle.cut_tree.specs.Tree.{cut_count};
ghost use Rattle.cut_tree.specs.Nodes.{tree_of};
ghost use Rattle.cut_tree.specs.Bars.{IsBarPiece, bar_length, bar_tree, IsBarFault};

use crate::node::Node;
use crate::token::MAX_CUTS;
use cut_measure::{Axis, MAX_KERF, MAX_WIDTH};
use std::alloc::{AllocError, Global};
use std::error::Error;
use std::fmt;

/// Why there is no plan of a bar's pieces, in this order.
#[derive(Clone, Copy, PartialEq, Eq, Debug)]
pub enum BarFault {
    /// The pieces with a kerf between each two are longer than the bar.
    TooLong,
    /// Their plan has over 255 cuts.
    TooManyCuts,
    /// Want of memory.
    NoMemory,
}

impl fmt::Display for BarFault {
    ghost use Rattle.std.specs.Prelude.{Some};
    ghost use Rattle.cut_tree.specs.Messages.{bar_fault_text};

    ghost output = { λ fault. Some (bar_fault_text fault) };

    fn fmt<W: fmt::Write>(&self, f: &mut fmt::Formatter<W>) -> fmt::Result {
        match self {
            BarFault::TooLong => f.write_str("the pieces are longer than the bar"),
            BarFault::TooManyCuts => f.write_str("the pieces take too many cuts"),
            BarFault::NoMemory => f.write_str("memory ran out"),
        }
    }
}

impl Error for BarFault {}

// What is left of a room once each piece has taken its length and a kerf, if the room is enough.
fn span_after(pieces: &[(u32, u32)], span: u32, kerf: u32) -> Option<u32>
    ensures { SomeIff result (sum_by (λ p. p.1 + kerf) pieces.now ≤ span)
        (span - sum_by (λ p. p.1 + kerf) pieces.now) }
{
    let mut span = span;
    for piece in pieces {
        span = span.checked_sub(piece.1)?.checked_sub(kerf)?;
    }
    Some(span)
}

// The nodes of a bar's plan.
fn bar_node(
    alloc: Global,
    pieces: &[(u32, u32)],
    length: u32,
    kerf: u32,
) -> Result<Node, AllocError>
    requires narrow { kerf ≤ MAX_KERF }
    requires fits { sum_by (λ p. p.1 + kerf) pieces.now ≤ length + kerf }
    ensures { IfOk result (λ node. tree_of node ≡ bar_tree pieces.now length kerf) }
{
    let [(demand, place), more @ ..] = pieces else {
        return Ok(Node::Rest);
    };
    let piece = Node::Piece(*demand, false);
    if *place == length {
        return Ok(piece);
    }
    let first = Box::new(alloc, piece)?;
    if length - *place <= kerf {
        return Ok(Node::Trim(Axis::X, *place, first));
    }
    let after = bar_node(alloc, more, length - *place - kerf, kerf)?;
    let second = Box::new(alloc, after)?;
    Ok(Node::Cut(Axis::X, *place, first, second))
}

/// The nodes of the plan of pieces on a bar of this length, or why there is none.
pub fn bar_root(
    alloc: Global,
    length: u32,
    kerf: u32,
    pieces: &[(u32, u32)],
) -> Result<Node, BarFault>
    requires narrow { kerf ≤ MAX_KERF }
    requires some { 1 ≤ length }
    requires short { length ≤ MAX_WIDTH }
    requires pieces { All IsBarPiece pieces.now }
    ensures tree { IfOk result (λ node. tree_of node ≡ bar_tree pieces.now length kerf) }
    ensures fits { OnOk result (bar_length pieces.now kerf ≤ length) }
    ensures few_cuts { OnOk result (cut_count (bar_tree pieces.now length kerf) ≤ MAX_CUTS) }
    ensures fault { IfErr result (λ f. IsBarFault f pieces.now length kerf) }
{
    let Some(span) = span_after(pieces, length + kerf, kerf) else {
        return Err(BarFault::TooLong);
    };
    // A last piece that fills its part needs no cut.
    let most = if span == 0 {
        MAX_CUTS as usize + 1
    } else {
        MAX_CUTS as usize
    };
    if pieces.len() > most {
        return Err(BarFault::TooManyCuts);
    }
    match bar_node(alloc, pieces, length, kerf) {
        Ok(node) => Ok(node),
        Err(_) => Err(BarFault::NoMemory),
    }
}
