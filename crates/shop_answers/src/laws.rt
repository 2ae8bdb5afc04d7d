//! What holds of every plan that is reported for a part, and of what is reported about orders.

ghost use Rattle.std.specs.Prelude.{◌≡◌, ◌≢◌, ◌⊎◌, ℕ, List, Option, None};
ghost use Rattle.cut_measure.specs.Names.{Name};
ghost use Rattle.shop_records.specs.declared.messages.Message.{Message};
ghost use Rattle.shop_records.specs.declared.messages.Command.TheVariants.{Reserve};
ghost use Rattle.shop_records.specs.declared.records.Demand.{Demand};
ghost use Rattle.shop_records.specs.declared.messages.Query.TheVariants.{Plan, Orders, Lines};
ghost use Rattle.shop_records.specs.declared.messages.Reply.{Reply};
ghost use Rattle.shop_records.specs.declared.messages.Reply.TheVariants as reported;
ghost use Rattle.shop_records.specs.declared.refusals.Refusal.{Refusal};
ghost use Rattle.shop_records.specs.declared.refusals.Refusal.TheVariants.{BadTree, NumbersSpent, NoMemory, StoreFault};
ghost use Rattle.shop_records.specs.Messages.{Texts, message_id_of};
ghost use Rattle.shop_records.specs.Content.{Content, kept_at};
ghost use Rattle.shop_machine.specs.Reserving.{HasNoPiece};
ghost use Rattle.shop_machine.specs.Machine.{Step};
ghost use Rattle.shop_records.specs.Lists.{AreLines};
ghost use Rattle.shop_answers.specs.Queries.{IsAnswer, Answers};
ghost use Rattle.shop_records.specs.WellFormed.{IsWellFormed};

/// The tree of a plan that is reported for a part can be reserved on it, as long as nothing else happens: sent under a new
/// message ID it is refused only `BadTree` for a tree without a piece, `NumbersSpent`, and because memory ran out or a failed
/// store.
pub fn reported_plans_can_be_reserved()
    ensures { (texts : Texts) (m : Content) (part : Name) (demands : List ℕ)
        (step ceiling dropped worth : ℕ) (tree : List ℕ) (message : Message) (refusal : Refusal)
        (next : Content)
        → IsWellFormed texts m → Answers m (Plan part demands step)
        (reported.Plan ceiling dropped tree worth)
        → message.command ≡ Reserve part tree → kept_at m (message_id_of message) ≡ None
        → Step texts m message (reported.Refused refusal) next
        → refusal ≢ NoMemory → refusal ≢ StoreFault → (refusal ≡ NumbersSpent)
        ⊎ ((refusal ≡ BadTree) × HasNoPiece m part tree) }
{}

/// The lines of an order are one list, and so a content has one answer to a query for orders, and one for the lines of an
/// order.
pub fn orders_have_one_answer()
    ensures lines { (m : Content) (order : List ℕ) (one other : List Demand)
        → AreLines m order one → AreLines m order other → one ≡ other }
    ensures orders { (m : Content) (after : Option (List ℕ)) (one other : Reply)
        → IsAnswer m (Orders after) one → IsAnswer m (Orders after) other → one ≡ other }
    ensures order { (m : Content) (order : List ℕ) (one other : Reply)
        → IsAnswer m (Lines order) one → IsAnswer m (Lines order) other → one ≡ other }
{}
