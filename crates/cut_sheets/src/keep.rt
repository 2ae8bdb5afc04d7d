//! Which piece leaves of a sheet's best tree are kept: of each want as many as are left, and of these the first ones.

ghost use Rattle.std.specs.Prelude.{◌≡◌, ℕ, ◌+◌, ◌*◌, ◌^◌, ◌<◌, ◌≤◌, ◌⊎◌, ◌↔◌, length, slice_index, slice_get, slice_set, Some, IfOk, OnOk, IsTrue};
ghost use Rattle.cut_tree.specs.Tree.{Rest};
ghost use Rattle.cut_tree.specs.Nodes.{tree_of};
ghost use Rattle.cut_wants.specs.declared.wants.Want.{Want};
ghost use Rattle.cut_wants.specs.Legal.{HaveOwnDemands};
ghost use Rattle.cut_sheets.specs.Table.{IsTable, heights, HaveSidesAndBoundedWorths};
ghost use Rattle.cut_sheets.specs.Kept.{joined, rejoined, KeepsPiece, KeepsFirst, IsKept};

use crate::read::{Choice, choose, worth_at};
use crate::sheet::{MAX_STEPS, Table};
use cut_measure::Axis;
use cut_tree::{MAX_CUTS, Node};
use cut_wants::wants::Scaled;
use std::alloc::{AllocError, Global};

/// The tree of the first pieces that are kept of a best tree, no more than any plan has, and whether they are all of them.
#[derive(Drop)]
pub struct Kept {
    pub tree: Node,
    pub is_whole: bool,
}

/// The first part of a cut, of which the second isn't known yet.
#[derive(Drop)]
pub struct Part {
    pub axis: Axis,
    pub place: u32,
    pub first: Node,
}

fn is_rest(node: &Node) -> bool
    ensures { IsTrue result ↔ (tree_of node.now ≡ Rest) }
{
    match node {
        Node::Rest => true,
        Node::Piece(..) => false,
        Node::Trim(..) => false,
        Node::Cut(..) => false,
    }
}

// A cut of two parts, or the one part that isn't a rest.
fn join(
    alloc: Global,
    axis: Axis,
    place: u32,
    first: Node,
    second: Node,
) -> Result<Node, AllocError>
    ensures { IfOk result (λ node. tree_of node
        ≡ joined axis place (tree_of first) (tree_of second)) }
{
    if is_rest(&first) {
        return Ok(second);
    }
    if is_rest(&second) {
        return Ok(first);
    }
    let first = Box::new(alloc, first)?;
    let second = Box::new(alloc, second)?;
    Ok(Node::Cut(axis, place, first, second))
}

// Parts joined from the last to the first, each with what comes after it.
fn rejoin(alloc: Global, parts: Vec<Part>, last: Node) -> Result<Node, AllocError>
    ensures { IfOk result (λ node. tree_of node ≡ rejoined parts.items (tree_of last)) }
{
    let mut parts = parts;
    let mut node = last;
    while let Some(part) = parts.pop() {
        let Part { axis, place, first } = part;
        node = join(alloc, axis, place, first, node)?;
    }
    Ok(node)
}

// A piece that is kept. It stands in the tree where few were kept before it.
fn keep_piece(demand: u32, turned: bool, pieces: &mut u32) -> Node
    ensures { KeepsPiece demand turned pieces.old pieces.new (tree_of result) }
{
    let before = *pieces;
    *pieces = before.saturating_add(1);
    if before <= MAX_CUTS {
        Node::Piece(demand, turned)
    } else {
        Node::Rest
    }
}

// A leaf, which is kept where fewer than are left came before it.
fn keep_leaf(wants: &[Scaled], i: usize, turned: bool, counts: &mut [u32], pieces: &mut u32) -> Node
    requires place { i < length wants.now }
    requires len { length counts.old ≡ length wants.now }
    requires fits { slice_index counts.old i + 1 < 2 ^ 32 }
    ensures counted { counts.new ≡ slice_set counts.old i (slice_index counts.old i + 1) }
    ensures kept { (x : Want) → slice_get wants.now i ≡ Some x
        → ((slice_index counts.old i < x.left)
        × KeepsPiece x.demand turned pieces.old pieces.new (tree_of result))
        ⊎ ((x.left ≤ slice_index counts.old i) × (pieces.new ≡ pieces.old)
        × (tree_of result ≡ Rest)) }
{
    let want = &wants[i];
    let count = counts[i];
    counts[i] = count + 1;
    if count < want.left {
        keep_piece(want.demand, turned, pieces)
    } else {
        Node::Rest
    }
}

// The first part of a cut has at most half of a side: it is gone down by a call, and the second one in the loop.
fn keep_first(
    alloc: Global,
    wants: &[Scaled],
    table: &Table,
    places: usize,
    w: usize,
    h: usize,
    counts: &mut [u32],
    pieces: &mut u32,
) -> Result<Node, AllocError>
    requires own { HaveOwnDemands wants.now }
    requires small { HaveSidesAndBoundedWorths wants.now }
    requires places { places ≤ MAX_STEPS + 1 }
    requires heights { heights table.now ≤ MAX_STEPS + 1 }
    requires table { IsTable wants.now places table.now }
    requires w { w < places }
    requires h { h < heights table.now }
    requires len { length counts.old ≡ length wants.now }
    requires fits { (i : ℕ) → i < length counts.old → slice_index counts.old i + w * h < 2 ^ 32 }
    ensures kept { IfOk result (λ node. KeepsFirst wants.now w h
        counts.old counts.new pieces.old pieces.new (tree_of node)) }
    ensures grown { OnOk result
        ((i : ℕ) → i < length counts.old
        → slice_index counts.new i ≤ slice_index counts.old i + w * h) }
{
    let mut parts = Vec::new(alloc);
    let mut across = w;
    let mut down = h;
    loop {
        let best = worth_at(wants, table, places, across, down);
        match choose(wants, table, places, across, down, best) {
            Choice::Waste => {
                let node = rejoin(alloc, parts, Node::Rest)?;
                return Ok(node);
            }
            Choice::Whole(i, turned) => {
                let leaf = keep_leaf(wants, i, turned, counts, pieces);
                let node = rejoin(alloc, parts, leaf)?;
                return Ok(node);
            }
            Choice::CutX(a) => {
                let first = keep_first(alloc, wants, table, places, a, down, counts, pieces)?;
                parts.push(Part {
                    axis: Axis::X,
                    place: a as u32,
                    first,
                })?;
                across -= a;
            }
            Choice::CutY(a) => {
                let first = keep_first(alloc, wants, table, places, across, a, counts, pieces)?;
                parts.push(Part {
                    axis: Axis::Y,
                    place: a as u32,
                    first,
                })?;
                down -= a;
            }
        }
    }
}

/// Counts the leaves of a best tree of a rectangle by want, and keeps of each want as many as are left. The first ones of
/// these are joined to a tree.
pub fn keep(
    alloc: Global,
    wants: &[Scaled],
    table: &Table,
    places: usize,
    w: usize,
    h: usize,
    counts: &mut [u32],
) -> Result<Kept, AllocError>
    requires own { HaveOwnDemands wants.now }
    requires small { HaveSidesAndBoundedWorths wants.now }
    requires places { places ≤ MAX_STEPS + 1 }
    requires heights { heights table.now ≤ MAX_STEPS + 1 }
    requires table { IsTable wants.now places table.now }
    requires w { w < places }
    requires h { h < heights table.now }
    requires len { length counts.old ≡ length wants.now }
    requires fits { (i : ℕ) → i < length counts.old → slice_index counts.old i + w * h < 2 ^ 32 }
    ensures kept { IfOk result (λ kept. IsKept wants.now w h counts.old counts.new kept) }
    ensures grown { OnOk result
        ((i : ℕ) → i < length counts.old
        → slice_index counts.new i ≤ slice_index counts.old i + w * h) }
{
    let mut pieces = 0u32;
    let tree = keep_first(alloc, wants, table, places, w, h, counts, &mut pieces)?;
    Ok(Kept {
        tree,
        is_whole: pieces <= MAX_CUTS + 1,
    })
}
