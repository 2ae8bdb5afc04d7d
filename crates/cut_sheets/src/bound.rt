//! The ceiling of a sheet, which no legal plan is worth more than, and the least number of units.

ghost use Rattle.std.specs.Prelude.{◌≡◌, ℕ, ◌+◌, ◌*◌, ◌/◌, ◌^◌, ◌<◌, ◌≤◌, length, IfOk, List};
ghost use Rattle.std.specs.Int.{div_ceil};
ghost use Rattle.std.specs.List.{list_all};
ghost use Rattle.cut_wants.specs.declared.wants.Want.{Want};
ghost use Rattle.cut_tree.specs.Tree.{Tree};
ghost use Rattle.cut_wants.specs.Legal.{HaveOwnDemands, Legal, IsWithinCounts, worth_of};
ghost use Rattle.cut_wants.specs.Best.{IsBestOf};
ghost use Rattle.cut_sheets.specs.Rounded.{want_down, wants_down, want_up, wants_up, steps_down, IsStep, is_exact};
ghost use Rattle.cut_sheets.specs.Bound.{Meets, worth_left};
ghost use Rattle.cut_sheets.specs.Table.{HaveBoundedWorths, HaveSides, HaveSidesAndBoundedWorths};

use crate::read::worth_at;
use crate::sheet::{MAX_STEPS, best_table};
use cut_measure::{MAX_KERF, Size};
use cut_wants::wants::{Scaled, Want};
use std::alloc::{AllocError, Global};

fn down(want: &Want, kerf: u32, step: u32) -> Scaled
    requires kerf { kerf ≤ MAX_KERF }
    requires step { 1 ≤ step }
    ensures { result ≡ want_down kerf step want.now }
{
    Scaled {
        demand: want.demand,
        w: (want.size.w() + kerf) / step,
        h: (want.size.h() + kerf) / step,
        may_turn: want.may_turn,
        left: want.left,
        worth: want.worth,
    }
}

/// The wants in steps, with sides rounded down.
pub fn all_down(
    alloc: Global,
    wants: &[Want],
    kerf: u32,
    step: u32,
) -> Result<Vec<Scaled>, AllocError>
    requires kerf { kerf ≤ MAX_KERF }
    requires step { 1 ≤ step }
    ensures { IfOk result (λ down. down.items ≡ wants_down kerf step wants.now) }
{
    let mut rounded = Vec::new(alloc);
    for want in wants {
        let want = down(want, kerf, step);
        rounded.push(want)?;
    }
    Ok(rounded)
}

fn up(want: &Want, kerf: u32, step: u32) -> Scaled
    requires kerf { kerf ≤ MAX_KERF }
    requires step { 1 ≤ step }
    requires within { step ≤ want.now.size.w + kerf }
    ensures value { result ≡ want_up kerf step want.now }
    ensures sides { (1 ≤ want.now.size.w) × (1 ≤ want.now.size.h) }
{
    Scaled {
        demand: want.demand,
        w: (want.size.w() + kerf).div_ceil(step),
        h: (want.size.h() + kerf).div_ceil(step),
        may_turn: want.may_turn,
        left: want.left,
        worth: want.worth,
    }
}

/// The wants in steps, with sides rounded up.
pub fn all_up(
    alloc: Global,
    wants: &[Want],
    kerf: u32,
    step: u32,
) -> Result<Vec<Scaled>, AllocError>
    requires kerf { kerf ≤ MAX_KERF }
    requires step { IsStep kerf step wants.now }
    ensures value { IfOk result (λ up. up.items ≡ wants_up kerf step wants.now) }
    ensures sides { IfOk result (λ _. HaveSides wants.now) }
{
    let mut rounded = Vec::new(alloc);
    for want in wants {
        let want = up(want, kerf, step);
        rounded.push(want)?;
    }
    Ok(rounded)
}

/// The best worth of a sheet in steps.
fn table_worth(
    alloc: Global,
    wants: &[Scaled],
    across: usize,
    down: usize,
) -> Result<u64, AllocError>
    requires own { HaveOwnDemands wants.now }
    requires small { HaveSidesAndBoundedWorths wants.now }
    requires across { across ≤ MAX_STEPS }
    requires down { down ≤ MAX_STEPS }
    ensures { IfOk result (IsBestOf wants.now 0 across down) }
{
    let table = best_table(alloc, wants, across, down)?;
    Ok(worth_at(wants, &table, across + 1, across, down))
}

/// The best worth of the sheet in steps, with sides rounded down: no legal plan is worth more.
pub fn ceiling(
    alloc: Global,
    wants: &[Want],
    size: Size,
    kerf: u32,
    step: u32,
) -> Result<u64, AllocError>
    requires own { HaveOwnDemands wants.now }
    requires worthy { HaveBoundedWorths wants.now }
    requires kerf { kerf ≤ MAX_KERF }
    requires step { IsStep kerf step wants.now }
    requires wide { steps_down kerf step size.w ≤ MAX_STEPS }
    requires tall { steps_down kerf step size.h ≤ MAX_STEPS }
    ensures best { IfOk result
        (IsBestOf (wants_down kerf step wants.now) 0 (steps_down kerf step size.w)
        (steps_down kerf step size.h)) }
    ensures most { IfOk result
        (λ best. (t : Tree) → Legal wants.now kerf t size.w size.h → worth_of wants.now t ≤ best) }
    ensures small { IfOk result (λ best. best < 2 ^ 62) }
{
    let rounded = all_down(alloc, wants, kerf, step)?;
    let across = ((size.w() + kerf) / step) as usize;
    let down = ((size.h() + kerf) / step) as usize;
    let best = table_worth(alloc, &rounded, across, down)?;
    Ok(best)
}

/// Whether each side and a kerf are whole steps, so that rounding up and down give the same wants.
fn are_exact(wants: &[Want], kerf: u32, step: u32) -> bool
    requires kerf { kerf ≤ MAX_KERF }
    requires step { 1 ≤ step }
    ensures { result ≡ list_all (is_exact kerf step) wants.now }
{
    wants.iter().all(|want| {
        (want.size.w() + kerf) % step == 0 && (want.size.h() + kerf) % step == 0
    })
}

/// The same, beside the best worth with sides rounded up: where rounding down gives the same wants it is that worth, and
/// no second table is made.
pub fn ceiling_beside(
    alloc: Global,
    wants: &[Want],
    size: Size,
    kerf: u32,
    step: u32,
    best_up: u64,
) -> Result<u64, AllocError>
    requires own { HaveOwnDemands wants.now }
    requires worthy { HaveBoundedWorths wants.now }
    requires kerf { kerf ≤ MAX_KERF }
    requires step { IsStep kerf step wants.now }
    requires wide { steps_down kerf step size.w ≤ MAX_STEPS }
    requires tall { steps_down kerf step size.h ≤ MAX_STEPS }
    requires best { IsBestOf (wants_up kerf step wants.now) 0 (steps_down kerf step size.w)
        (steps_down kerf step size.h) best_up }
    ensures best { IfOk result
        (IsBestOf (wants_down kerf step wants.now) 0 (steps_down kerf step size.w)
        (steps_down kerf step size.h)) }
    ensures most { IfOk result
        (λ best. (t : Tree) → Legal wants.now kerf t size.w size.h → worth_of wants.now t ≤ best) }
{
    if are_exact(wants, kerf, step) {
        return Ok(best_up);
    }
    ceiling(alloc, wants, size, kerf, step)
}

/// What all that is left is worth.
pub fn total_left(wants: &[Want]) -> u64
    requires { worth_left wants.now < 2 ^ 64 }
    ensures { result ≡ worth_left wants.now }
{
    wants
        .iter()
        .map(|want| want.worth as u64 * want.left as u64)
        .sum()
}

/// How many units it takes at least, where no unit is worth more than `best`.
pub fn units(wants: &[Want], best: u64) -> u64
    requires own { HaveOwnDemands wants.now }
    requires best { 1 ≤ best }
    requires small { worth_left wants.now + best < 2 ^ 64 }
    ensures exact { result ≡ div_ceil (worth_left wants.now) best }
    ensures bound { (k w h : ℕ) (trees : List Tree)
        → ((t : Tree) → Legal wants.now k t w h → IsWithinCounts wants.now t
        → worth_of wants.now t ≤ best)
        → Meets wants.now k w h trees → result ≤ length trees }
{
    let total = total_left(wants);
    total.div_ceil(best)
}
