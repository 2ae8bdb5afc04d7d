//! Whether a plan of an order leaves out only what nothing at hand holds.

ghost use Rattle.std.specs.Prelude.{◌≡◌, ◌<◌, ◌↔◌, All, IfSome, IsTrue};
ghost use Rattle.cut_plan.specs.Faults as faults;
ghost use Rattle.cut_bound.specs.Solutions.{units_at};
ghost use Rattle.cut_bound.specs.Planned.{IsFilled, IsUnheld, solution_of};

use crate::planned::{PlannedUnit, pieces_of, units_at};
use crate::stock::StockSize;
use cut_plan::{Want, is_fitting};

// Whether there is a unit at hand beside so many that are used.
fn has_unused(limit: Option<u32>, used: u128) -> bool
    ensures { IsTrue result ↔ IfSome limit (λ n. used < n) }
{
    match limit {
        None => true,
        Some(limit) => used < limit as u128,
    }
}

// Whether an unused unit of the size at a place holds a piece of a want.
fn is_held_at(stock: &StockSize, place: usize, want: &Want, units: &[PlannedUnit]) -> bool
    ensures { IsTrue result
        ↔ (IsTrue (faults.is_fitting stock.now.size want.now)
        × IfSome stock.now.limit (λ n. units_at (solution_of units.now) place < n)) }
{
    is_fitting(stock.size, want) && has_unused(stock.limit, units_at(units, place))
}

// Whether no unused unit holds a piece of a want.
fn is_unheld(sizes: &[StockSize], want: &Want, units: &[PlannedUnit]) -> bool
    ensures { IsTrue result ↔ IsUnheld sizes.now (solution_of units.now) want.now }
{
    for place in 0..sizes.len() {
        let stock = &sizes[place];
        if is_held_at(stock, place, want, units) {
            return false;
        }
    }
    true
}

// Whether no piece of a want is missing, or no unused unit holds one.
fn is_want_filled(sizes: &[StockSize], want: &Want, units: &[PlannedUnit]) -> bool
    ensures { IsTrue result ↔ IsFilled sizes.now (solution_of units.now) want.now }
{
    want.left as u128 <= pieces_of(units, want.demand) || is_unheld(sizes, want, units)
}

/// Whether of each want a piece is missing only where no unit at hand that is not used holds one,
/// turned where it may be.
pub fn is_filled(sizes: &[StockSize], wants: &[Want], units: &[PlannedUnit]) -> bool
    ensures { IsTrue result ↔ All (IsFilled sizes.now (solution_of units.now)) wants.now }
{
    for want in wants {
        if !is_want_filled(sizes, want, units) {
            return false;
        }
    }
    true
}
