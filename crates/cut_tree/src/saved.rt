//! What may be left of the rectangle of a cut that went wrong.

ghost use Rattle.std.specs.Prelude.{◌≡◌, ◌+◌, ◌^◌, ◌<◌, ◌≤◌};
ghost use Rattle.cut_tree.specs.Tree.{IsShaped, cut_count};
ghost use Rattle.cut_tree.specs.Nodes.{tree_of, FarSidesFit};
ghost use Rattle.cut_tree.specs.Cells.{is_split};
ghost use Rattle.cut_tree.specs.Stops.{cut_side, lost_cut};

use crate::halts::Halt;
use crate::lay::{Rect, first_of, rest_of, side_of};
use crate::node::{Node, count_cuts};
use cut_measure::MAX_KERF;

/// The side that the cut of a number was to divide, in a tree whose first cut has the number `number`.
pub fn cut_side(node: &Node, rect: Rect, kerf: u32, number: u32, cut: u32) -> Option<u32>
    requires shaped { IsShaped (tree_of node.now) rect.w rect.h kerf }
    requires in_range { FarSidesFit rect }
    requires kerf { kerf ≤ MAX_KERF }
    requires cuts { number + cut_count (tree_of node.now) < 2 ^ 32 }
    ensures { result ≡ cut_side (tree_of node.now) rect.w rect.h kerf number cut }
{
    match node {
        Node::Piece(..) | Node::Rest => None,
        Node::Trim(axis, place, first) => {
            if number == cut {
                return Some(side_of(rect, *axis));
            }
            cut_side(first, first_of(rect, *axis, *place), kerf, number + 1, cut)
        }
        Node::Cut(axis, place, first, second) => {
            if number == cut {
                return Some(side_of(rect, *axis));
            }
            let after = rest_of(rest_of(rect, *axis, *place), *axis, kerf);
            let found = cut_side(first, first_of(rect, *axis, *place), kerf, number + 1, cut);
            match found {
                Some(side) => Some(side),
                None => cut_side(second, after, kerf, number + 1 + count_cuts(first), cut),
            }
        }
    }
}

/// The cut that went wrong, if one did.
pub fn lost_cut(halt: &Halt) -> Option<u32>
    ensures { result ≡ lost_cut halt.now }
{
    match halt {
        Halt::First { cuts, lost } => { if *lost { Some(*cuts) } else { None } }
        Halt::Listed { lost, .. } => *lost,
    }
}

/// Whether a rest is some of a side, and not all of it.
pub fn is_split(rest: u32, side: u32) -> bool
    ensures { result ≡ is_split rest side }
{
    0 < rest && rest < side
}
