//! The limits that definitions cite, with their numbers.

ghost use Rattle.shop_commands.specs.Limits.{AreMeasures, ArePlans, AreFiles, AreCounts, AreRequests, AreConnections, AreWords};

/// Each limit has its number. Definitions cite the constants of the code, so a changed constant is refused here.
pub fn limits_have_numbers()
    ensures measures { AreMeasures }
    ensures plans { ArePlans }
    ensures files { AreFiles }
    ensures counts { AreCounts }
    ensures requests { AreRequests }
    ensures connections { AreConnections }
    ensures words { AreWords }
{}
