//! What looks at parts that are handed out one at a time.

ghost use Rattle.std.specs.Prelude.{Bool};
ghost use Rattle.shop_records.specs.declared.records.Part.{Part as PartRow};

use crate::records::Part;

/// Looks at parts that are handed out one at a time.
///
/// It is given no memory. One that needs memory brings its own, and if that runs out it keeps the fault and answers
/// false.
pub trait PartVisitor {
    /// What it was, a part that it looked at, its answer, and what it is then.
    ghost looks: { Self → PartRow → Bool → Self → Type 0 };

    /// Looks at a part: true asks for the next one.
    fn part(&mut self, part: &Part) -> bool
        ensures { looks self.old part.now result self.new };
}
