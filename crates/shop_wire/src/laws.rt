//! Limits of what is read, tied to their numbers.

ghost use Rattle.std.specs.Prelude.{◌≡◌};
ghost use Rattle.shop_wire.specs.declared.limits.TheConstants.{BUFFER_SIZE};

/// How many bytes of lines a read brings at most.
pub fn read_limits()
    ensures spare { BUFFER_SIZE ≡ 65536 }
{}
