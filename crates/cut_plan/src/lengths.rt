//! Which lengths of a bar pieces take together, each with the greatest worth of such pieces.

ghost use Rattle.std.specs.Prelude.{◌≡◌, ◌+◌, ◌≤◌, ◌⊎◌, IfOk, IfErr, IfSome, Some, None, Err};
ghost use Rattle.std.specs.BTreeMap.{get};
ghost use Rattle.std.specs.Ordering.{nat_cmp};
ghost use Rattle.cut_measure.specs.declared.sizes.Kind.TheVariants.{Bar};
ghost use Rattle.cut_bars.specs.Reached.{AreRising, IsReached};
ghost use Rattle.cut_plan.specs.declared.faults.PlanFault.TheVariants.{NoMemory};
ghost use Rattle.cut_plan.specs.Faults.{plan_fault};
ghost use Rattle.cut_plan.specs.Lengths.{IsMapOf};
ghost use Rattle.cut_plan.specs.Proposals.{AreDemands};

use crate::faults::{PlanFault, first_fault};
use cut_bars::bar::{Entry, reach};
use cut_measure::{Kind, MAX_KERF, Size};
use cut_wants::wants::Want;
use std::alloc::{AllocError, Global};
use std::collections::BTreeMap;

// The entries as a map.
fn map_of(alloc: Global, entries: &[Entry]) -> Result<BTreeMap<u32, u64>, AllocError>
    requires { AreRising entries.now }
    ensures { IfOk result (λ map. IsMapOf entries.now (get nat_cmp map)) }
{
    let mut map = BTreeMap::new(alloc);
    for entry in entries {
        map.insert(entry.span, entry.worth)?;
    }
    Ok(map)
}

// The map where no fault stands before the tables.
fn faultless_map(
    alloc: Global,
    size: Size,
    kerf: u32,
    wants: &[Want],
) -> Result<BTreeMap<u32, u64>, AllocError>
    requires kerf { kerf ≤ MAX_KERF }
    requires faultless { plan_fault Bar size kerf 0 wants.now ≡ None }
    ensures { IfOk result (λ map. IsReached kerf wants.now (size.w + kerf) (get nat_cmp map)) }
{
    let entries = reach(alloc, wants, size.w(), kerf)?;
    let map = map_of(alloc, &entries)?;
    Ok(map)
}

/// What pieces of the wants, each at most as often as is left and each with a kerf after it, take together of a bar and
/// a kerf, and for each such sum the greatest worth of counts that have it (an integer knapsack). Faults in the order of
/// `PlanFault`, but never for a plan of many cuts; the bar has a height of 1, and demands are in 1..=2147483647.
pub fn reached(
    alloc: Global,
    size: Size,
    kerf: u32,
    wants: &[Want],
) -> Result<BTreeMap<u32, u64>, PlanFault>
    requires kerf { kerf ≤ MAX_KERF }
    requires flat { size.h ≡ 1 }
    requires demands { AreDemands wants.now }
    ensures ok { IfOk result (λ map. (plan_fault Bar size kerf 0 wants.now ≡ None)
        × IsReached kerf wants.now (size.w + kerf) (get nat_cmp map)) }
    ensures faulty { IfSome (plan_fault Bar size kerf 0 wants.now) (λ fault. result ≡ Err fault) }
    ensures err { IfErr result
        (λ fault. (fault ≡ NoMemory) ⊎ (plan_fault Bar size kerf 0 wants.now ≡ Some fault)) }
{
    match first_fault(Kind::Bar, size, kerf, 0, wants) {
        Some(fault) => Err(fault),
        None => match faultless_map(alloc, size, kerf, wants) {
            Ok(map) => Ok(map),
            Err(_) => Err(PlanFault::NoMemory),
        },
    }
}
