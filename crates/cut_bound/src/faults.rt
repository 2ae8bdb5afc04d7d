//! Why an order can't be planned.

ghost use Rattle.std.specs.Prelude.{◌≡◌, ◌≤◌, ℕ, Some, false};
ghost use Rattle.std.specs.List.{list_any};
ghost use Rattle.cut_measure.specs.declared.sizes.Kind.TheVariants.{Sheet};
ghost use Rattle.cut_plan.specs.Faults as faults;
ghost use Rattle.cut_bound.specs.UnitBounds as unit_bounds;
ghost use Rattle.cut_bound.specs.Orders as orders;

use crate::limits::MAX_ORDER_WANTS;
use crate::stock::StockSize;
use cut_measure::{Kind, MAX_KERF, Size};
use cut_plan::{PlanFault, Want, are_bad_wants, some_fits};

// Whether a sheet's step is 0.
fn is_no_step(kind: Kind, step: Option<u32>) -> bool
    ensures { result ≡ orders.is_no_step kind step }
{
    match kind {
        Kind::Bar => false,
        Kind::Sheet => match step {
            None => false,
            Some(step) => step == 0,
        },
    }
}

// Whether a sheet's step is 0, or longer than some want's side and a kerf.
fn is_bad_step(kind: Kind, wants: &[Want], kerf: u32, step: Option<u32>) -> bool
    requires { kerf ≤ MAX_KERF }
    ensures { result ≡ orders.is_bad_step kind kerf step wants.now }
{
    match step {
        None => false,
        Some(step) => cut_plan::is_bad_step(kind, wants, kerf, step),
    }
}

// Whether a size is too large for a unit bound. No sheet is without a step.
fn is_large(kind: Kind, size: Size, kerf: u32, step: Option<u32>) -> bool
    requires kerf { kerf ≤ MAX_KERF }
    requires step { kind ≡ Sheet → (s : ℕ) → step ≡ Some s → 1 ≤ s }
    ensures { result ≡ unit_bounds.is_large kind size kerf step }
{
    match kind {
        Kind::Bar => cut_plan::is_large(Kind::Bar, size, kerf, 0),
        Kind::Sheet => match step {
            None => false,
            Some(step) => cut_plan::is_large(Kind::Sheet, size, kerf, step),
        },
    }
}

// Whether some size is too large to be planned.
fn has_large_size(kind: Kind, kerf: u32, step: Option<u32>, sizes: &[StockSize]) -> bool
    requires kerf { kerf ≤ MAX_KERF }
    requires step { kind ≡ Sheet → (s : ℕ) → step ≡ Some s → 1 ≤ s }
    ensures { result ≡ list_any (λ z. unit_bounds.is_large kind z.size kerf step) sizes.now }
{
    sizes
        .iter()
        .any(|stock| is_large(kind, stock.size, kerf, step))
}

// Whether some want fits some size.
fn some_fits_some(sizes: &[StockSize], wants: &[Want]) -> bool
    ensures { result ≡ list_any (λ z. list_any (faults.is_fitting z.size) wants.now) sizes.now }
{
    sizes.iter().any(|stock| some_fits(stock.size, wants))
}

// The first fault, where it is known whether the step is one.
fn fault_by(
    bad_step: bool,
    kind: Kind,
    kerf: u32,
    step: Option<u32>,
    sizes: &[StockSize],
    wants: &[Want],
) -> Option<PlanFault>
    requires kerf { kerf ≤ MAX_KERF }
    requires step { bad_step ≡ false → kind ≡ Sheet → (s : ℕ) → step ≡ Some s → 1 ≤ s }
    ensures { result ≡ orders.fault_by bad_step kind kerf step sizes.now wants.now }
{
    if are_bad_wants(MAX_ORDER_WANTS, kind, wants) {
        return Some(PlanFault::BadWant);
    }
    if bad_step {
        return Some(PlanFault::BadStep);
    }
    if has_large_size(kind, kerf, step, sizes) {
        return Some(PlanFault::TableTooLarge);
    }
    if !some_fits_some(sizes, wants) {
        return Some(PlanFault::NothingFits);
    }
    None
}

/// The first fault of an order, in the order of `PlanFault`: there is no want or there are more
/// than 100, or one is out of range or stands twice; a sheet's step is 0; a size is too large; no
/// want fits any of the sizes. A step that is longer than a piece and a kerf is no fault here, and
/// without a step no sheet is too large.
pub fn order_fault(
    kind: Kind,
    kerf: u32,
    step: Option<u32>,
    sizes: &[StockSize],
    wants: &[Want],
) -> Option<PlanFault>
    requires { kerf ≤ MAX_KERF }
    ensures { result ≡ orders.order_fault kind kerf step sizes.now wants.now }
{
    fault_by(is_no_step(kind, step), kind, kerf, step, sizes, wants)
}

/// The same, but that a step longer than a piece and a kerf is a fault.
pub fn cost_fault(
    kind: Kind,
    kerf: u32,
    step: Option<u32>,
    sizes: &[StockSize],
    wants: &[Want],
) -> Option<PlanFault>
    requires { kerf ≤ MAX_KERF }
    ensures { result ≡ orders.cost_fault kind kerf step sizes.now wants.now }
{
    let bad_step = is_bad_step(kind, wants, kerf, step);
    fault_by(bad_step, kind, kerf, step, sizes, wants)
}
