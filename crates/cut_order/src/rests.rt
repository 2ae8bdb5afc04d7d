//! The largest rest of a plan, by which of two plans that cost as much the better one is chosen.

use cut_measure::Axis;
use cut_tree::Node;

/// The cells of the largest rest that nodes leave of w by h. The nodes needn't be a plan.
pub fn largest_rest(node: &Node, w: u32, h: u32, kerf: u32) -> u64 {
    match node {
        Node::Piece(..) => 0,
        Node::Rest => w as u64 * h as u64,
        Node::Trim(Axis::X, at, first) => largest_rest(first, *at, h, kerf),
        Node::Trim(Axis::Y, at, first) => largest_rest(first, w, *at, kerf),
        Node::Cut(Axis::X, at, first, second) => {
            let behind = w.saturating_sub(at.saturating_add(kerf));
            largest_rest(first, *at, h, kerf).max(largest_rest(second, behind, h, kerf))
        }
        Node::Cut(Axis::Y, at, first, second) => {
            let behind = h.saturating_sub(at.saturating_add(kerf));
            largest_rest(first, w, *at, kerf).max(largest_rest(second, w, behind, kerf))
        }
    }
}
