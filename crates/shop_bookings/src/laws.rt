//! What holds of reservations that were planned together.

ghost use Rattle.std.specs.Prelude.{List, All};
ghost use Rattle.shop_records.specs.declared.messages.Message.{Message};
ghost use Rattle.shop_records.specs.declared.messages.Reply.{Reply};
ghost use Rattle.shop_records.specs.Content.{Content};
ghost use Rattle.shop_records.specs.Messages.{Texts};
ghost use Rattle.shop_records.specs.WellFormed.{IsWellFormed};
ghost use Rattle.shop_machine.specs.Machine.{Run};
ghost use Rattle.shop_plans.specs.declared.answers.PlansReply.{PlansReply};
ghost use Rattle.shop_plans.specs.declared.queries.PlansQuery.{PlansQuery};
ghost use Rattle.shop_planning.specs.declared.instance.PlanInstance.{PlanInstance as InstanceOfQuery};
ghost use Rattle.shop_planning.specs.Answers.{IsPlansReply};
ghost use Rattle.shop_planning.specs.Queries.{IsInstance};
ghost use Rattle.shop_bookings.specs.Bookings.{Booking, AreBookable, OnlySpent, sent_by};
ghost use Rattle.shop_bookings.specs.Reported.{AreBookedBy};

/// Reservations of different standing parts, whose plans have together no more pieces of a demand than are left of it, are
/// accepted one after another, in whatever order they come: unless memory runs out or the store fails, refused are only those for
/// which numbers are spent.
pub fn bookings_stand_together()
    ensures { (texts : Texts) (old new : Content) (bookings : List Booking) (answers : List Reply)
        → IsWellFormed texts old → AreBookable old bookings
        → Run texts old (sent_by bookings) answers new → All OnlySpent answers }
{}

/// As long as nothing else happens in between, each plan that is reported for a part can be reserved, in any order, all of them
/// or some: refused are only those for which numbers are spent, lack of memory and a failed store aside.
pub fn reported_plans_are_reserved()
    ensures { (texts : Texts) (old new : Content) (q : PlansQuery) (instance : InstanceOfQuery)
        (reply : PlansReply) (messages : List Message) (answers : List Reply)
        → IsWellFormed texts old → IsInstance old q instance → IsPlansReply instance reply
        → AreBookedBy old reply messages → Run texts old messages answers new
        → All OnlySpent answers }
{}
