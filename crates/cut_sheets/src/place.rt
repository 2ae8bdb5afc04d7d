//! Where the pieces of a tree that was found in steps lie on the sheet itself.

ghost use Rattle.std.specs.Prelude.{◌≡◌, ◌+◌, ◌^◌, ◌<◌, ◌≤◌, IfOk, IfSome, IfNone, Contains};
ghost use Rattle.cut_measure.specs.declared.sizes.Axis.TheVariants.{X, Y};
ghost use Rattle.cut_tree.specs.Tree.{Piece, Cut};
ghost use Rattle.cut_tree.specs.Nodes.{tree_of};
ghost use Rattle.cut_wants.specs.declared.wants.Want.{Want};
ghost use Rattle.cut_wants.specs.Legal.{HaveOwnDemands};
ghost use Rattle.cut_sheets.specs.Kept.{IsInside, IsPruned, HasPlaces, Places};
ghost use Rattle.cut_sheets.specs.Kept as kept;

use cut_measure::{Axis, MAX_KERF, Size};
use cut_tree::Node;
use cut_wants::wants::Want;
use std::alloc::{AllocError, Global};

fn cut(alloc: Global, axis: Axis, place: u32, first: Node, second: Node) -> Result<Node, AllocError>
    ensures { IfOk result (λ cut. tree_of cut ≡ Cut axis place (tree_of first) (tree_of second)) }
{
    let first = Box::new(alloc, first)?;
    let second = Box::new(alloc, second)?;
    Ok(Node::Cut(axis, place, first, second))
}

// What is cut off at a length, where the side is longer.
fn cut_off(
    alloc: Global,
    axis: Axis,
    length: u32,
    side: u32,
    kerf: u32,
    node: Node,
) -> Result<Node, AllocError>
    requires { length + kerf < 2 ^ 32 }
    ensures { IfOk result (λ cut. tree_of cut ≡ kept.cut_off axis length side kerf (tree_of node)) }
{
    if length == side {
        return Ok(node);
    }
    let first = Box::new(alloc, node)?;
    if length + kerf < side {
        let second = Box::new(alloc, Node::Rest)?;
        return Ok(Node::Cut(axis, length, first, second));
    }
    Ok(Node::Trim(axis, length, first))
}

// The size of the want with a demand.
fn size_of(wants: &[Want], demand: u32) -> Option<Size>
    ensures found { IfSome result
        (λ size. (x : Want) × Contains wants.now x × (x.demand ≡ demand) × (x.size ≡ size)) }
    ensures none { IfNone result ((x : Want) → Contains wants.now x → x.demand ≡ demand → ⊥) }
{
    for want in wants {
        if want.demand == demand {
            return Some(want.size);
        }
    }
    None
}

// A piece in the corner of a rectangle, cut off in both directions.
fn put(
    alloc: Global,
    piece: Node,
    length: u32,
    width: u32,
    w: u32,
    h: u32,
    kerf: u32,
) -> Result<Node, AllocError>
    requires length { length + kerf < 2 ^ 32 }
    requires width { width + kerf < 2 ^ 32 }
    ensures { IfOk result (λ node. tree_of node
        ≡ kept.cut_off X length w kerf (kept.cut_off Y width h kerf (tree_of piece))) }
{
    let row = cut_off(alloc, Axis::Y, width, h, kerf, piece)?;
    let node = cut_off(alloc, Axis::X, length, w, kerf, row)?;
    Ok(node)
}

fn place_piece(
    alloc: Global,
    wants: &[Want],
    demand: u32,
    turned: bool,
    w: u32,
    h: u32,
    kerf: u32,
) -> Result<Node, AllocError>
    requires own { HaveOwnDemands wants.now }
    requires kerf { kerf ≤ MAX_KERF }
    requires inside { IsInside wants.now demand turned w h }
    ensures { IfOk result (λ node. Places wants.now kerf (Piece demand turned) w h (tree_of node)) }
{
    match size_of(wants, demand) {
        Some(size) => {
            let piece = Node::Piece(demand, turned);
            if turned {
                let node = put(alloc, piece, size.h(), size.w(), w, h, kerf)?;
                Ok(node)
            } else {
                let node = put(alloc, piece, size.w(), size.h(), w, h, kerf)?;
                Ok(node)
            }
        }
        None => Ok(Node::Rest),
    }
}

/// The kept tree, whose cuts are counted in steps, laid out on a sheet of these sides under this kerf.
pub fn place(
    alloc: Global,
    wants: &[Want],
    node: &Node,
    w: u32,
    h: u32,
    kerf: u32,
    step: u32,
) -> Result<Node, AllocError>
    requires own { HaveOwnDemands wants.now }
    requires kerf { kerf ≤ MAX_KERF }
    requires pruned { IsPruned (tree_of node.now) }
    requires places { HasPlaces wants.now kerf step (tree_of node.now) w h }
    ensures { IfOk result (λ placed. Places wants.now kerf (tree_of node.now) w h
        (tree_of placed)) }
{
    match node {
        Node::Rest => Ok(Node::Rest),
        Node::Trim(..) => Ok(Node::Rest),
        Node::Piece(demand, turned) => {
            let piece = place_piece(alloc, wants, *demand, *turned, w, h, kerf)?;
            Ok(piece)
        }
        Node::Cut(axis, steps, first, second) => {
            let far = *steps * step;
            match axis {
                Axis::X => {
                    let first = place(alloc, wants, first, far - kerf, h, kerf, step)?;
                    let second = place(alloc, wants, second, w - far, h, kerf, step)?;
                    let cut = cut(alloc, Axis::X, far - kerf, first, second)?;
                    Ok(cut)
                }
                Axis::Y => {
                    let first = place(alloc, wants, first, w, far - kerf, kerf, step)?;
                    let second = place(alloc, wants, second, w, h - far, kerf, step)?;
                    let cut = cut(alloc, Axis::Y, far - kerf, first, second)?;
                    Ok(cut)
                }
            }
        }
    }
}
