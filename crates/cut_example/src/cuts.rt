//! Lines about plans: what a text spells, how it is laid and what is left of it where work halted.

ghost use Rattle.std.specs.Prelude.{◌≤◌, ◌↔◌, All, IfOk, IsTrue};
ghost use Rattle.cut_tree.specs.Bars.{IsBarPiece};

use anyhow::{Context, Error, Result};
use cut_measure::{Kind, MAX_KERF, Size};
use cut_tree::{BarFault, CutList, Halt, Plan, Row, SpellFault, Stop, bar_plan};
use std::alloc::Global;

/// Sides of a unit, and the kerf that it is cut under, in tenths of a millimetre as a line says them.
#[derive(Clone, Copy)]
pub struct Unit {
    pub w: u32,
    pub h: u32,
    pub kerf: u32,
}

/// The size of a unit under a kerf that a saw may have.
pub fn size_of(kind: Kind, unit: Unit) -> Result<Size>
    ensures { IfOk result (λ _. unit.kerf ≤ MAX_KERF) }
{
    if unit.kerf > MAX_KERF {
        return Err(Error::msg("no kerf"));
    }
    Size::new(kind, unit.w, unit.h).context("no size")
}

// The plan that a text spells, or the text's fault.
fn read(alloc: Global, unit: Unit, text: &str) -> Result<Result<Plan, SpellFault>> {
    let size = size_of(Kind::Sheet, unit)?;
    Ok(Plan::read(alloc, text, size, unit.kerf))
}

/// The plan that a text spells.
pub fn plan_of(alloc: Global, unit: Unit, text: &str) -> Result<Plan> {
    Ok(read(alloc, unit, text)??)
}

/// How many cuts a plan has, how many pieces of demands 1 and 3, and its text; or the text's fault.
pub fn plan_reported(alloc: Global, unit: Unit, text: &str) -> Result<String> {
    let plan = match read(alloc, unit, text)? {
        Ok(plan) => plan,
        Err(fault) => {
            let (token, cause) = (fault.token, fault.cause);
            return Ok(format!(in alloc; "token {token}: {cause:?}")?);
        }
    };
    let (cuts, first, third) = (plan.cuts(), plan.count(1), plan.count(3));
    let mut reported = format!(in alloc; "{cuts} cuts, {first} of 1, {third} of 3 =")?;
    plan.write(&mut reported)?;
    Ok(reported)
}

/// Whether two texts spell the same plan, each on its unit. A plan is its copy.
pub fn same_reported(alloc: Global, unit: Unit, other: Unit, texts: &str) -> Result<String> {
    let (first, second) = texts.split_once(": ").unwrap_or((texts, ""));
    let plan = plan_of(alloc, unit, first)?;
    let other = plan_of(alloc, other, second)?;
    if !plan.copy(alloc)?.is(&plan) || plan.clone()? != plan {
        return Err(Error::msg("a copy is another plan"));
    }
    let same = plan == other;
    Ok(format!(in alloc; "{same}")?)
}

/// The steps of a plan.
pub fn steps_reported(alloc: Global, plan: &Plan) -> Result<String> {
    let steps = plan.steps(alloc)?;
    let mut reported = String::new(alloc);
    for step in &steps {
        let (node, what) = (step.node, step.what);
        let (x, y, w, h) = (step.x, step.y, step.w, step.h);
        writeln!(reported, "{node} at ({x}, {y}), {w} by {h}: {what:?}")?;
    }
    Ok(reported)
}

/// The pieces of a plan, in order.
pub fn leaves_reported(alloc: Global, plan: &Plan) -> Result<String> {
    let leaves = plan.leaves(alloc)?;
    let mut reported = String::new(alloc);
    for leaf in &leaves {
        let (demand, turned, w, h) = (leaf.demand, leaf.turned, leaf.w, leaf.h);
        writeln!(reported, "{demand}, {w} by {h}, turned {turned}")?;
    }
    Ok(reported)
}

// Rows, each a line.
fn rows_reported(alloc: Global, rows: &[Row]) -> Result<String> {
    let mut reported = String::new(alloc);
    for row in rows {
        let (node, owner) = (row.node, row.owner);
        let (x, y, w, h) = (row.x, row.y, row.w, row.h);
        writeln!(reported, "{node} at ({x}, {y}), {w} by {h}: {owner:?}")?;
    }
    Ok(reported)
}

/// What a plan leaves of its unit.
pub fn laid_reported(alloc: Global, plan: &Plan) -> Result<String> {
    let rows = plan.lay(alloc, Stop::All)?;
    rows_reported(alloc, rows.as_slice())
}

// What is left of a unit where the work on its plan halted, where it may have halted so.
fn halted_reported(alloc: Global, plan: &Plan, halt: Halt) -> Result<String> {
    if !plan.allows(&halt) {
        return Ok(String::from_str(alloc, "not allowed")?);
    }
    let rows = plan.lay(alloc, Stop::After(halt))?;
    rows_reported(alloc, rows.as_slice())
}

/// What is left of a unit where work halted after the first cuts, at the next of which a part may be lost.
pub fn first_reported(alloc: Global, plan: &Plan, cuts: u32, lost: bool) -> Result<String> {
    halted_reported(alloc, plan, Halt::First { cuts, lost })
}

// The number of a cut, where there is one.
fn cut_of(word: &str) -> Result<Option<u32>> {
    match word.trim() {
        "" => Ok(None),
        cut => Ok(Some(cut.parse()?)),
    }
}

/// What is left of a unit where work halted after the cuts of a list, and maybe a part was lost at the cut after a
/// semicolon: `0 2; 1`.
pub fn listed_reported(alloc: Global, plan: &Plan, words: &str) -> Result<String> {
    let (made, lost) = words.split_once(';').unwrap_or((words, ""));
    let lost = cut_of(lost)?;
    let mut cuts = CutList::new(alloc);
    for cut in made.split_whitespace() {
        cuts.push(cut.parse()?)?;
    }
    halted_reported(alloc, plan, Halt::Listed { cuts, lost })
}

/// The fault of so many cuts without an end, on a bar of 200000.
pub fn endless_reported(alloc: Global, cuts: u32) -> Result<String> {
    let mut text = String::new(alloc);
    for i in 0..cuts {
        write!(text, "x{} ", 199999u32.saturating_sub(i))?;
    }
    let unit = Unit {
        w: 200000,
        h: 1,
        kerf: 1,
    };
    plan_reported(alloc, unit, text.as_str().trim_end())
}

fn are_bar_pieces(pieces: &[(u32, u32)]) -> bool
    ensures { IsTrue result ↔ All IsBarPiece pieces.now }
{
    pieces.iter().all(|piece| 1 <= piece.0 && piece.0 <= 2147483647 && 1 <= piece.1)
}

// The plan of a bar of some pieces.
fn bar(alloc: Global, unit: Unit, pieces: &[(u32, u32)]) -> Result<Result<Plan, BarFault>> {
    let size = size_of(Kind::Bar, unit)?;
    if size.h() != 1 || !are_bar_pieces(pieces) {
        return Err(Error::msg("no pieces of a bar"));
    }
    Ok(bar_plan(alloc, size, unit.kerf, pieces))
}

/// The text of the plan of a bar of a piece of demand 1 and one of demand 2, or its fault.
pub fn two_pieces_reported(alloc: Global, unit: Unit, first: u32, second: u32) -> Result<String> {
    match bar(alloc, unit, &[(1, first), (2, second)])? {
        Ok(plan) => {
            let mut reported = String::new(alloc);
            plan.write(&mut reported)?;
            Ok(reported)
        }
        Err(fault) => Ok(format!(in alloc; "{fault:?}")?),
    }
}

/// How many cuts the plan of a bar of so many pieces of 1 has, or its fault.
pub fn many_pieces_reported(alloc: Global, unit: Unit, count: u32) -> Result<String> {
    let pieces = [(1, 1); 300];
    let some = pieces.get(..count as usize).context("too many pieces")?;
    match bar(alloc, unit, some)? {
        Ok(plan) => Ok(format!(in alloc; "{} cuts", plan.cuts())?),
        Err(fault) => Ok(format!(in alloc; "{fault:?}")?),
    }
}
