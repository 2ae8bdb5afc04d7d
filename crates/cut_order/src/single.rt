//! The plan of a unit from which one piece is cut.

ghost use Rattle.std.specs.Prelude.{◌≡◌, ◌+◌, ◌≤◌, IfOk, IsTrue};
ghost use Rattle.cut_measure.specs.declared.sizes.Axis.TheVariants.{X, Y};
ghost use Rattle.cut_tree.specs.Nodes.{tree_of};
ghost use Rattle.cut_plan.specs.Faults.{is_fitting};
ghost use Rattle.cut_plan.specs.Proposals.{HasDemandNumber};
ghost use Rattle.cut_order.specs.Singles as singles;

use cut_measure::{Axis, MAX_KERF, Size};
use cut_plan::Want;
use cut_tree::{Node, Plan};
use std::alloc::{AllocError, Global};

// A node on the first columns or rows of a rectangle, whose side is divided at a place.
fn cut_off(
    alloc: Global,
    axis: Axis,
    place: u32,
    side: u32,
    kerf: u32,
    first: Node,
) -> Result<Node, AllocError>
    requires inside { place ≤ side }
    requires kerf { kerf ≤ MAX_KERF }
    ensures { IfOk result
        (λ node. tree_of node ≡ singles.cut_off axis place side kerf (tree_of first)) }
{
    if place == side {
        return Ok(first);
    }
    let first = Box::new(alloc, first)?;
    if side - place <= kerf {
        return Ok(Node::Trim(axis, place, first));
    }
    let rest = Box::new(alloc, Node::Rest)?;
    Ok(Node::Cut(axis, place, first, rest))
}

// A piece of w by h in the corner of a unit.
fn cornered(
    alloc: Global,
    kerf: u32,
    size: Size,
    piece: Node,
    w: u32,
    h: u32,
) -> Result<Node, AllocError>
    requires wide { w ≤ size.w }
    requires high { h ≤ size.h }
    requires kerf { kerf ≤ MAX_KERF }
    ensures { IfOk result (λ node. tree_of node
        ≡ singles.cut_off X w size.w kerf (singles.cut_off Y h size.h kerf (tree_of piece))) }
{
    let column = cut_off(alloc, Axis::Y, h, size.h(), kerf, piece)?;
    let node = cut_off(alloc, Axis::X, w, size.w(), kerf, column)?;
    Ok(node)
}

// Whether a want's piece fits without being turned.
fn is_upright(size: Size, want: &Want) -> bool
    ensures { result ≡ singles.is_upright size want.now }
{
    want.size.w() <= size.w() && want.size.h() <= size.h()
}

// The nodes of one piece on a unit that it fits.
fn single_node(alloc: Global, kerf: u32, size: Size, want: &Want) -> Result<Node, AllocError>
    requires fits { IsTrue (is_fitting size want.now) }
    requires kerf { kerf ≤ MAX_KERF }
    ensures tree { IfOk result (λ node. tree_of node ≡ singles.single kerf size want.now) }
    ensures sides { (1 ≤ want.now.size.w) × (1 ≤ want.now.size.h) }
{
    let (w, h) = (want.size.w(), want.size.h());
    if is_upright(size, want) {
        let node = cornered(alloc, kerf, size, Node::Piece(want.demand, false), w, h)?;
        return Ok(node);
    }
    let node = cornered(alloc, kerf, size, Node::Piece(want.demand, true), h, w)?;
    Ok(node)
}

/// The plan of one piece of a want on a unit that it fits, turned where it has to be.
pub fn single_plan(alloc: Global, kerf: u32, size: Size, want: &Want) -> Result<Plan, AllocError>
    requires fits { IsTrue (is_fitting size want.now) }
    requires demand { HasDemandNumber want.now }
    requires kerf { kerf ≤ MAX_KERF }
    ensures plan { IfOk result (λ plan. (plan.tree ≡ singles.single kerf size want.now)
        × (plan.w ≡ size.w) × (plan.h ≡ size.h) × (plan.kerf ≡ kerf)) }
    ensures sides { (1 ≤ want.now.size.w) × (1 ≤ want.now.size.h) }
{
    let node = single_node(alloc, kerf, size, want)?;
    let (_width, _height) = (size.w(), size.h());
    let plan = Plan::of(alloc, node, size, kerf)?;
    Ok(plan)
}
