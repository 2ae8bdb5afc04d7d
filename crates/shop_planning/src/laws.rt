//! What holds of every answer.

ghost use Rattle.std.specs.Prelude.{◌≤◌};
ghost use Rattle.cut_measure.specs.Names.{Name};
ghost use Rattle.shop_records.specs.Content.{Content};
ghost use Rattle.shop_plans.specs.declared.answers.PlansReply.{PlansReply};
ghost use Rattle.shop_plans.specs.declared.queries.PlansQuery.{PlansQuery};
ghost use Rattle.shop_planning.specs.declared.instance.PlanInstance.{PlanInstance};
ghost use Rattle.shop_planning.specs.Answers.{IsPlansReply};
ghost use Rattle.shop_planning.specs.Naming.{parts_named, times_named};
ghost use Rattle.shop_planning.specs.Queries.{IsInstance};

/// The plans of an answer name no part more often than it stands in the stock: none twice, and no other part.
pub fn parts_are_named_once()
    ensures { (m : Content) (query : PlansQuery) (instance : PlanInstance) (reply : PlansReply) (name : Name)
        → IsInstance m query instance → IsPlansReply instance reply
        → times_named reply.plans.items name ≤ parts_named instance.parts.items name }
{}
