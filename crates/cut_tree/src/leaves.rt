//! The pieces that a cutting tree lists: demand, sides, and whether one is turned.

ghost use Rattle.std.specs.Prelude.{◌≡◌, ◌≤◌, ◌++◌, OnOk};
ghost use Rattle.cut_tree.specs.Tree.{IsShaped};
ghost use Rattle.cut_tree.specs.Nodes.{tree_of, FarSidesFit};
ghost use Rattle.cut_tree.specs.Leaves.{leaves_of};

use crate::lay::{Rect, first_of, rest_of};
use crate::node::Node;
use cut_measure::MAX_KERF;
use std::alloc::AllocError;

/// A piece leaf of a plan: its demand, whether it is turned, and its sides in tenths of a millimetre.
#[derive(Clone, Copy, PartialEq, Eq, Debug)]
pub struct Leaf {
    /// 1 to 2147483647.
    pub demand: u32,
    pub turned: bool,
    /// 1 to 200000.
    pub w: u32,
    /// 1 to 60000.
    pub h: u32,
}

/// Appends the piece leaves of a node and the parts below it.
pub fn add_leaves(
    node: &Node,
    rect: Rect,
    kerf: u32,
    leaves: &mut Vec<Leaf>,
) -> Result<(), AllocError>
    requires shaped { IsShaped (tree_of node.now) rect.w rect.h kerf }
    requires in_range { FarSidesFit rect }
    requires kerf { kerf ≤ MAX_KERF }
    ensures { OnOk result (leaves.new.items ≡ leaves.old.items
        ++ leaves_of (tree_of node.now) rect.w rect.h kerf) }
{
    match node {
        Node::Piece(demand, turned) => {
            leaves.push(Leaf {
                demand: *demand,
                turned: *turned,
                w: rect.w,
                h: rect.h,
            })?;
            Ok(())
        }
        Node::Rest => Ok(()),
        Node::Trim(axis, place, first) => {
            add_leaves(first, first_of(rect, *axis, *place), kerf, leaves)
        }
        Node::Cut(axis, place, first, second) => {
            add_leaves(first, first_of(rect, *axis, *place), kerf, leaves)?;
            let after = rest_of(rest_of(rect, *axis, *place), *axis, kerf);
            add_leaves(second, after, kerf, leaves)
        }
    }
}
