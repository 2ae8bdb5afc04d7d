//! A material is added: what is decided on it.

ghost use Rattle.std.specs.Prelude.{◌≡◌, IfOk, IsTrue};
ghost use Rattle.cut_measure.specs.Measures.{CutParams};
ghost use Rattle.shop_records.specs.Messages.{is_accepted};
ghost use Rattle.shop_machine.specs.Decisions.{Decides};
ghost use Rattle.shop_machine.specs.Adding.{material_refusal, material_change};

use crate::decisions::no_change;
use cut_measure::{Code, Kind, Limits};
use shop_records::{Change, Material, MaterialTotals, Refusal, Reply, no_totals};
use std::alloc::Global;

/// Adds a material: one that is known is accepted again with equal values. Refused `BadMaterial`, then `MaterialExists` with
/// other values.
pub fn decide_material(
    alloc: Global,
    known: Option<Material>,
    material: Code,
    kind: Kind,
    kerf: u32,
    min_long: u32,
    min_short: u32,
) -> Result<Change, Refusal>
    ensures decision { let params : CutParams = record {
      kerf = kerf;
      min_long = min_long;
      min_short = min_short;
    } in
        Decides (material_refusal known kind params)
        (λ change. change ≡ material_change known material kind params) result }
    ensures reported { IfOk result (λ change. IsTrue (is_accepted change.reply)) }
{
    let Some(limits) = Limits::new(kind, kerf, min_long, min_short) else {
        return Err(Refusal::BadMaterial);
    };
    let same = no_change(alloc, Reply::AddMaterial { material });
    match known {
        None => Ok(Change {
            material: Some(Material {
                code: material,
                kind,
                limits,
            }),
            totals: Some(MaterialTotals {
                material,
                totals: no_totals(),
            }),
            ..same
        }),
        Some(m) if m.kind == kind && m.limits == limits => Ok(same),
        Some(_) => Err(Refusal::MaterialExists),
    }
}
