//! Limits of rows, tied to their numbers.

ghost use Rattle.std.specs.Prelude.{◌≡◌};
ghost use Rattle.shop_rows.specs.declared.part_rows.TheConstants.{MAX_ORIGINS};

/// How many origins parts in memory may have: as many as 32 bits number.
pub fn origin_limits()
    ensures origins { MAX_ORIGINS ≡ 4294967296 }
{}
