//! A cutting tree read from its text, and the rectangles that it lays on a sheet, printed.

ghost use Rattle.std.specs.Prelude.{◌≤◌, IfOk};
ghost use Rattle.cut_tree.specs.Tree.{Tree};
ghost use Rattle.cut_tree.specs.Cells.{all_made};
ghost use Rattle.cut_tree.specs.Laying.{IsLaid};
ghost use Rattle.cut_tree.specs.Spelling.{IsSpelling};

use anyhow::{Context, Result};
use cut_measure::{Kind, MAX_KERF, Size};
use cut_tree::{Plan, Row, Stop};
use std::alloc::Global;

/// The rectangles into which the cuts that a text spells part a unit.
fn rows_of(alloc: Global, text: &str, size: Size, kerf: u32) -> Result<Vec<Row>>
    requires { kerf ≤ MAX_KERF }
    ensures { IfOk result (λ rows. (t : Tree) × IsSpelling text.now t size.w size.h kerf
        × IsLaid t size.w size.h kerf all_made rows.items) }
{
    let plan = Plan::read(alloc, text, size, kerf)?;
    Ok(plan.lay(alloc, Stop::All)?)
}

/// The rectangles of a sheet of 10 by 8, cut under a kerf of 1.
pub fn print_rows(rt: &(impl Print + AllocGlobal)) -> Result<()> {
    let size = Size::new(Kind::Sheet, 10, 8).context("no size")?;
    for row in rows_of(rt.alloc(), "x4 y3 p1 p2 r", size, 1)?.as_slice() {
        let Row {
            node,
            x,
            y,
            w,
            h,
            owner,
        } = *row;
        println!(rt; "node {node} at ({x}, {y}), {w} by {h}: {owner:?}")?;
    }
    Ok(())
}
