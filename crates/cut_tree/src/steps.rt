//! A plan node by node in the order of its text, each with its rectangle and with what is done there.

ghost use Rattle.std.specs.Prelude.{◌≡◌, ◌+◌, ◌^◌, ◌<◌, ◌≤◌, ◌++◌, OnOk};
ghost use Rattle.cut_tree.specs.Tree.{IsShaped, node_count};
ghost use Rattle.cut_tree.specs.Nodes.{tree_of, FarSidesFit};
ghost use Rattle.cut_tree.specs.StepRows.{one_step, steps_of};

use crate::lay::{Rect, first_of, rest_of};
use crate::node::{Node, count_nodes};
use crate::token::Token;
use cut_measure::MAX_KERF;
use std::alloc::AllocError;

/// A node of a plan, numbered from 0 in preorder, with its whole rectangle in tenths of a millimetre and what is done
/// there: the cut, the piece or the rest.
#[derive(Clone, Copy, PartialEq, Eq, Debug)]
pub struct Step {
    /// 0 to 510.
    pub node: u32,
    /// 0 to 199999.
    pub x: u32,
    /// 0 to 59999.
    pub y: u32,
    /// 1 to 200000.
    pub w: u32,
    /// 1 to 60000.
    pub h: u32,
    pub what: Token,
}

fn push(steps: &mut Vec<Step>, node: u32, rect: Rect, what: Token) -> Result<(), AllocError>
    ensures { OnOk result (steps.new.items ≡ steps.old.items
        ++ one_step node rect.x rect.y rect.w rect.h what) }
{
    steps.push(Step {
        node,
        x: rect.x,
        y: rect.y,
        w: rect.w,
        h: rect.h,
        what,
    })?;
    Ok(())
}

/// Appends the steps of a node and the parts below it, the node's number being `number`.
pub fn step_node(
    node: &Node,
    rect: Rect,
    kerf: u32,
    number: u32,
    steps: &mut Vec<Step>,
) -> Result<(), AllocError>
    requires shaped { IsShaped (tree_of node.now) rect.w rect.h kerf }
    requires in_range { FarSidesFit rect }
    requires kerf { kerf ≤ MAX_KERF }
    requires nodes { number + node_count (tree_of node.now) < 2 ^ 32 }
    ensures { OnOk result (steps.new.items ≡ steps.old.items
        ++ steps_of (tree_of node.now) rect.x rect.y rect.w rect.h kerf number) }
{
    match node {
        Node::Piece(demand, turned) => push(steps, number, rect, Token::Piece(*demand, *turned)),
        Node::Rest => push(steps, number, rect, Token::Rest),
        Node::Trim(axis, place, first) => {
            push(steps, number, rect, Token::Cut(*axis, *place))?;
            step_node(
                first,
                first_of(rect, *axis, *place),
                kerf,
                number + 1,
                steps,
            )
        }
        Node::Cut(axis, place, first, second) => {
            push(steps, number, rect, Token::Cut(*axis, *place))?;
            step_node(
                first,
                first_of(rect, *axis, *place),
                kerf,
                number + 1,
                steps,
            )?;
            let after = rest_of(rest_of(rect, *axis, *place), *axis, kerf);
            let number = number + 1 + count_nodes(first);
            step_node(second, after, kerf, number, steps)
        }
    }
}
