//! How the best worth of a rectangle is reached, read from a table: by a cut, a piece or a rest.

ghost use Rattle.std.specs.Prelude.{◌≡◌, ℕ, ◌+◌, ◌-◌, ◌*◌, ◌^◌, ◌<◌, ◌≤◌, ◌≢◌, length, IfSome, IfNone, Bool, Contains, IsTrue, ◌↔◌, true, false};
ghost use Rattle.cut_wants.specs.declared.wants.Want.{Want};
ghost use Rattle.cut_wants.specs.Best.{IsBestOf};
ghost use Rattle.cut_wants.specs.Legal.{HaveOwnDemands, HasSides};
ghost use Rattle.cut_sheets.specs.Table.{IsTable, AreBestRows, heights, HaveSidesAndBoundedWorths, IsCutX, IsCutY, IsPieceAt, Explains};

use crate::sheet::{MAX_STEPS, Table};
use cut_wants::number::Number;
use cut_wants::wants::Scaled;

/// What stands first in a best tree of a rectangle.
#[derive(Clone, Copy)]
pub enum Choice {
    /// A rest.
    Waste,
    /// A piece of the want at this place, and whether it is turned.
    Whole(usize, bool),
    /// A cut of the width after so many steps.
    CutX(usize),
    /// A cut of the height after so many steps.
    CutY(usize),
}

fn worth_in<T: Number>(wants: &[Scaled], rows: &[Vec<T>], places: usize, w: usize, h: usize) -> u64
    requires table { AreBestRows T.value wants.now places rows.now }
    requires w { w < places }
    requires h { h < length rows.now }
    ensures { IsBestOf wants.now 0 w h result }
{
    rows[h][w].worth()
}

/// The best worth of a rectangle.
pub fn worth_at(wants: &[Scaled], table: &Table, places: usize, w: usize, h: usize) -> u64
    requires table { IsTable wants.now places table.now }
    requires w { w < places }
    requires h { h < heights table.now }
    ensures { IsBestOf wants.now 0 w h result }
{
    match table {
        Table::Narrow(rows) => worth_in(wants, rows, places, w, h),
        Table::Wide(rows) => worth_in(wants, rows, places, w, h),
    }
}

fn find_cut_x(
    wants: &[Scaled],
    table: &Table,
    places: usize,
    w: usize,
    h: usize,
    best: u64,
) -> Option<usize>
    requires own { HaveOwnDemands wants.now }
    requires small { HaveSidesAndBoundedWorths wants.now }
    requires places { places ≤ MAX_STEPS + 1 }
    requires heights { heights table.now ≤ MAX_STEPS + 1 }
    requires table { IsTable wants.now places table.now }
    requires w { w < places }
    requires h { h < heights table.now }
    ensures found { IfSome result (IsCutX wants.now w h best) }
    ensures none { IfNone result ((a : ℕ) → a + a ≤ w → IsCutX wants.now w h best a → ⊥) }
{
    for a in 1..w / 2 + 1 {
        let first = worth_at(wants, table, places, a, h);
        let second = worth_at(wants, table, places, w - a, h);
        if first + second == best {
            return Some(a);
        }
    }
    None
}

fn find_cut_y(
    wants: &[Scaled],
    table: &Table,
    places: usize,
    w: usize,
    h: usize,
    best: u64,
) -> Option<usize>
    requires own { HaveOwnDemands wants.now }
    requires small { HaveSidesAndBoundedWorths wants.now }
    requires places { places ≤ MAX_STEPS + 1 }
    requires heights { heights table.now ≤ MAX_STEPS + 1 }
    requires table { IsTable wants.now places table.now }
    requires w { w < places }
    requires h { h < heights table.now }
    ensures found { IfSome result (IsCutY wants.now w h best) }
    ensures none { IfNone result ((a : ℕ) → a + a ≤ h → IsCutY wants.now w h best a → ⊥) }
{
    for a in 1..h / 2 + 1 {
        let first = worth_at(wants, table, places, w, a);
        let second = worth_at(wants, table, places, w, h - a);
        if first + second == best {
            return Some(a);
        }
    }
    None
}

fn stands(want: &Scaled, w: usize, h: usize, best: u64) -> bool
    ensures { IsTrue result ↔ (HasSides want.now false w h × (want.now.worth ≡ best)) }
{
    want.w as usize == w && want.h as usize == h && want.worth as u64 == best
}

fn stands_turned(want: &Scaled, w: usize, h: usize, best: u64) -> bool
    ensures { IsTrue result ↔ (HasSides want.now true w h × (want.now.worth ≡ best)) }
{
    want.may_turn && want.h as usize == w && want.w as usize == h && want.worth as u64 == best
}

fn find_piece(wants: &[Scaled], w: usize, h: usize, best: u64) -> Option<(usize, bool)>
    ensures found { IfSome result (λ found. IsPieceAt wants.now w h best found.0 found.1) }
    ensures none { IfNone result
        ((x : Want) (turned : Bool) → Contains wants.now x → HasSides x turned w h → x.worth ≡ best
        → ⊥) }
{
    for (i, want) in wants.iter().enumerate() {
        if stands(want, w, h, best) {
            return Some((i, false));
        }
        if stands_turned(want, w, h, best) {
            return Some((i, true));
        }
    }
    None
}

/// How the best worth of a rectangle is reached.
pub fn choose(
    wants: &[Scaled],
    table: &Table,
    places: usize,
    w: usize,
    h: usize,
    best: u64,
) -> Choice
    requires own { HaveOwnDemands wants.now }
    requires small { HaveSidesAndBoundedWorths wants.now }
    requires places { places ≤ MAX_STEPS + 1 }
    requires heights { heights table.now ≤ MAX_STEPS + 1 }
    requires table { IsTable wants.now places table.now }
    requires w { w < places }
    requires h { h < heights table.now }
    requires best { IsBestOf wants.now 0 w h best }
    ensures { Explains wants.now w h best result }
{
    match find_piece(wants, w, h, best) {
        Some((i, turned)) => Choice::Whole(i, turned),
        None => match find_cut_x(wants, table, places, w, h, best) {
            Some(a) => Choice::CutX(a),
            None => match find_cut_y(wants, table, places, w, h, best) {
                Some(a) => Choice::CutY(a),
                None => Choice::Waste,
            },
        },
    }
}
