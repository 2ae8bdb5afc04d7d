//! Limits of a visit of rows, tied to their numbers.

ghost use Rattle.std.specs.Prelude.{◌≡◌};
ghost use Rattle.shop_tables.specs.declared.visiting.TheConstants.{MAX_ROWS};

/// How many rows of a table are gone through at most.
pub fn visiting_limits()
    ensures rows { MAX_ROWS ≡ 18446744073709551615 }
{}
