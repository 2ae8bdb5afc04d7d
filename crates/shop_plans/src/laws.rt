//! Limits of queries, tied to their numbers.

ghost use Rattle.std.specs.Prelude.{◌≡◌};
ghost use Rattle.shop_plans.specs.declared.limits.TheConstants.{MIN_STAGES, MAX_CALLS, MAX_STAGES, UNIT_COST, DEFAULT_CALLS, DEFAULT_REMNANT};

/// What cells cost, how many tables a search makes, the most and what is usual, and which limits
/// of a plan's stages there are.
pub fn query_limits()
    ensures unit { UNIT_COST ≡ 100 }
    ensures remnant { DEFAULT_REMNANT ≡ 90 }
    ensures calls { MAX_CALLS ≡ 5000 }
    ensures usual { DEFAULT_CALLS ≡ 500 }
    ensures least_stages { MIN_STAGES ≡ 2 }
    ensures stages { MAX_STAGES ≡ 255 }
{}
