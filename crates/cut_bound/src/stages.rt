//! The stages of a plan: a saw that cuts in stages makes all parallel cuts of a part, and turns it
//! for the next ones (Gilmore and Gomory 1965).

ghost use Rattle.std.specs.Prelude.{◌≡◌, ◌+◌, ◌≤◌, ◌<◌, ◌^◌, ◌↔◌, ℕ, Bool, IsTrue};
ghost use Rattle.cut_measure.specs.declared.sizes.Axis.TheVariants.{X, Y};
ghost use Rattle.cut_tree.specs.Nodes.{tree_of};
ghost use Rattle.cut_tree.specs.Tree.{Tree, Piece, Rest, Trim, Cut, cut_count};
ghost use Rattle.cut_tree.specs.declared.token.TheConstants.{MAX_CUTS};
ghost use Rattle.cut_bound.specs.Stages as stages;
ghost use Rattle.cut_bound.specs.Stages.{IsStaged, stage_count};

use cut_measure::Axis;
use cut_tree::{MAX_CUTS, Node};

// 1 if a cut along an axis begins a run behind one along another, or is the first; else 0.
fn turn(last: Option<Axis>, axis: Axis) -> u32
    ensures value { result ≡ stages.turn last axis }
    ensures one { result ≤ 1 }
{
    match (last, axis) {
        (Some(Axis::X), Axis::X) => 0,
        (Some(Axis::Y), Axis::Y) => 0,
        _ => 1,
    }
}

// The most runs on a way to a piece below a node, if so many are above it, the lowest along `last`.
fn stages_below(node: &Node, last: Option<Axis>, taken: u32) -> u32
    requires { taken + cut_count (tree_of node.now) < 2 ^ 32 }
    ensures { result ≡ stages.stages_below last taken (tree_of node.now) }
{
    match node {
        Node::Piece(..) => taken,
        Node::Rest => 0,
        Node::Trim(axis, _, first) => {
            stages_below(first, Some(*axis), taken + turn(last, *axis))
        }
        Node::Cut(axis, _, first, second) => {
            let taken = taken + turn(last, *axis);
            let firsts = stages_below(first, Some(*axis), taken);
            let seconds = stages_below(second, Some(*axis), taken);
            firsts.max(seconds)
        }
    }
}

/// How many stages a plan's nodes take: the most runs of parallel cuts, trims among them, on a way
/// from the root to a piece; 0 if no piece is cut. The nodes have at most 255 cuts.
pub fn count_stages(node: &Node) -> u32
    requires { cut_count (tree_of node.now) ≤ MAX_CUTS }
    ensures { result ≡ stage_count (tree_of node.now) }
{
    let _most = MAX_CUTS;
    stages_below(node, None, 0)
}

/// Whether a plan's nodes take at most so many stages, if there is a limit.
pub fn is_staged(node: &Node, most: Option<u32>) -> bool
    requires { cut_count (tree_of node.now) ≤ MAX_CUTS }
    ensures { IsTrue result ↔ IsStaged most (tree_of node.now) }
{
    match most {
        None => true,
        Some(most) => count_stages(node) <= most,
    }
}

/// Examples of stages: a piece alone takes none; cuts of one axis behind each other one, trims
/// among them; each change of the axis one more; the way to a rest counts nothing; and of two parts
/// the one that takes more counts.
pub fn stages_of_examples()
    ensures piece { (d : ℕ) (b : Bool) → stage_count (Piece d b) ≡ 0 }
    ensures run { (d : ℕ) (b : Bool) → stage_count (Cut X 5 (Piece d b) (Cut X 6 (Piece d b) (Trim X 7 (Piece d b)))) ≡ 1 }
    ensures turned { (d : ℕ) (b : Bool) → stage_count (Cut X 5 (Cut Y 4 (Piece d b) Rest) Rest) ≡ 2 }
    ensures trimmed { (d : ℕ) (b : Bool) → stage_count (Cut X 5 (Cut Y 4 (Trim X 3 (Piece d b)) Rest) Rest) ≡ 3 }
    ensures rest { (d : ℕ) (b : Bool) → stage_count (Cut X 5 (Piece d b) (Cut Y 4 Rest (Trim X 3 Rest))) ≡ 1 }
    ensures second { (d : ℕ) (b : Bool) → stage_count (Cut Y 5 (Piece d b) (Cut X 4 Rest (Cut Y 3 (Piece d b) Rest))) ≡ 3 }
{}
