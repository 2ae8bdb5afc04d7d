//! What holds of tickets and reports: what a history's content has to say is never 99, a failed store.

ghost use Rattle.std.specs.Prelude.{◌≢◌, ℕ, List, Err};
ghost use Rattle.shop_records.specs.declared.refusals.Refusal.TheVariants.{StoreFault};
ghost use Rattle.shop_records.specs.Messages.{Texts};
ghost use Rattle.shop_records.specs.Content.{Content};
ghost use Rattle.shop_records.specs.WellFormed.{IsWellFormed};
ghost use Rattle.shop_text.specs.Tickets.{ticket_of};
ghost use Rattle.shop_text.specs.Yields.{yield_of};

/// On a content that histories give no rows of a ticket contradict each other, and none of a report on any content: what
/// there is to say is never 99, so that 99 is reported only where the store failed.
pub fn texts_are_reported()
    ensures ticket { (texts : Texts) (m : Content) (number : ℕ) → IsWellFormed texts m
        → ticket_of m number ≢ Err StoreFault }
    ensures report { (m : Content) (code : List ℕ) → yield_of m code ≢ Err StoreFault }
{}
