//! What no unit is worth more than, and how many units it takes at least to make all that is left.

ghost use Rattle.std.specs.Prelude.{◌≡◌, ◌+◌, ◌≤◌, ◌<◌, ◌^◌, ◌⊎◌, IfOk, IfErr, IfSome, Some, None};
ghost use Rattle.cut_measure.specs.declared.sizes.Kind.TheVariants.{Bar, Sheet};
ghost use Rattle.cut_plan.specs.Faults.{plan_fault, SomeFits};
ghost use Rattle.cut_plan.specs.Bounds.{IsUnitBest, IsBound};
ghost use Rattle.cut_plan.specs.declared.faults.PlanFault.TheVariants.{NoMemory};

use crate::faults::{PlanFault, first_fault};
use cut_bars::bar::{best_counts, counted_worth};
use cut_measure::{Kind, MAX_KERF, Size};
use cut_sheets::bound::{ceiling, units};
use cut_wants::wants::Want;
use std::alloc::{AllocError, Global};

/// What no unit is worth more than, and how many units of a size it takes at least to make all that is left.
#[derive(Clone, Copy, Debug, PartialEq, Eq)]
pub struct Bound {
    /// A sum of worths of pieces, at least 1 and below 2^62.
    pub best: u64,
    /// At least 1, and at most 40000000000000000.
    pub units: u64,
}

// The best worth of a bar within the counts, or a sheet's ceiling.
fn unit_best(
    alloc: Global,
    kind: Kind,
    size: Size,
    kerf: u32,
    step: u32,
    wants: &[Want],
) -> Result<u64, AllocError>
    requires kerf { kerf ≤ MAX_KERF }
    requires flat { kind ≡ Bar → size.h ≡ 1 }
    requires faultless { plan_fault kind size kerf step wants.now ≡ None }
    ensures best { IfOk result (IsUnitBest kind size kerf step wants.now) }
    ensures small { IfOk result (λ best. best < 2 ^ 62) }
{
    match kind {
        Kind::Bar => {
            let counts = best_counts(alloc, wants, size.w(), kerf)?;
            let worth = counted_worth(wants, &counts);
            Ok(worth)
        }
        Kind::Sheet => ceiling(alloc, wants, size, kerf, step),
    }
}

// The bound where no fault stands before the tables.
fn faultless_bound(
    alloc: Global,
    kind: Kind,
    size: Size,
    kerf: u32,
    step: u32,
    wants: &[Want],
) -> Result<Bound, AllocError>
    requires kerf { kerf ≤ MAX_KERF }
    requires flat { kind ≡ Bar → size.h ≡ 1 }
    requires faultless { plan_fault kind size kerf step wants.now ≡ None }
    requires fits { SomeFits size wants.now }
    ensures { IfOk result (IsBound kind size kerf step wants.now) }
{
    let best = unit_best(alloc, kind, size, kerf, step, wants)?;
    let units = units(wants, best);
    Ok(Bound { best, units })
}

/// What no unit is worth more than (for a bar the worth of its best plan, for a sheet its ceiling), and how many units it
/// takes at least: what all that is left is worth, divided by that and rounded up (Gilmore and Gomory 1961). A bar
/// ignores the step. Faults in the order of `PlanFault`, but never for a plan of many cuts.
pub fn least_units(
    alloc: Global,
    kind: Kind,
    size: Size,
    kerf: u32,
    step: u32,
    wants: &[Want],
) -> Result<Bound, PlanFault>
    requires kerf { kerf ≤ MAX_KERF }
    requires flat { kind ≡ Bar → size.h ≡ 1 }
    ensures ok { IfOk result (IsBound kind size kerf step wants.now) }
    ensures faulty { IfSome (plan_fault kind size kerf step wants.now) (λ fault. result ≡ Err fault) }
    ensures err { IfErr result
        (λ fault. (fault ≡ NoMemory) ⊎ (plan_fault kind size kerf step wants.now ≡ Some fault)) }
{
    match first_fault(kind, size, kerf, step, wants) {
        Some(fault) => Err(fault),
        None => match faultless_bound(alloc, kind, size, kerf, step, wants) {
            Ok(bound) => Ok(bound),
            Err(_) => Err(PlanFault::NoMemory),
        },
    }
}
