//! What holds of all prices and stocks: worths bound what it costs to make all that is left, and
//! report a stock that doesn't suffice.

ghost use Rattle.std.specs.Prelude.{◌≡◌, ◌≤◌, ◌<◌, ◌^◌, ℕ, List, [], ◌∷◌, All, Contains, IsSome, IsTrue, None};
ghost use Rattle.std.specs.Int.{div_ceil};
ghost use Rattle.cut_measure.specs.Measures.{Size};
ghost use Rattle.cut_wants.specs.declared.wants.Want.{Want};
ghost use Rattle.cut_wants.specs.Legal.{HaveOwnDemands};
ghost use Rattle.cut_sheets.specs.Bound.{worth_left};
ghost use Rattle.cut_plan.specs.Faults.{is_fitting};
ghost use Rattle.cut_bound.specs.declared.stock.StockSize.{StockSize};
ghost use Rattle.cut_bound.specs.declared.stock.BoundedSize.{BoundedSize};
ghost use Rattle.cut_bound.specs.Solutions.{Solution, IsCostBound, IsSolution, MakesAll, cost_at_hand};
ghost use Rattle.cut_bound.specs.Bounds.{AreBounded, IsGreatestCost, SetsPrice, cost_at, sizes_of};
ghost use Rattle.cut_bound.specs.Prices.{ArePicked};
ghost use Rattle.cut_bound.specs.Orders.{IsCommonDivisor, reported_cost};
ghost use Rattle.cut_bound.specs.Planned.{HoldsPiece};
ghost use Rattle.cut_bound.specs.declared.limits.TheConstants.{MAX_BOUGHT_SIZES, MAX_BOUND, MAX_CALLS, MAX_ORDER_WANTS, MAX_PARTS, MAX_ORDER_UNITS};

/// Whatever the wants are worth, and whatever worths no legal plan of a unit of each size exceeds:
/// whoever makes all that is left from the sizes at hand pays at least what its worth costs at the
/// rate of a size that sets the price (weak duality of linear programming, Gilmore and Gomory
/// 1961). So the greatest of those costs is a bound. Of one size without a limit and a cost of 1 it
/// is that worth, divided by the best worth of a unit and rounded up.
pub fn priced_bound()
    ensures bound { (wants : List Want) (k : ℕ) (bounded : List BoundedSize) (t : BoundedSize)
        → HaveOwnDemands wants → AreBounded wants k bounded → SetsPrice t bounded
        → IsCostBound wants k (sizes_of bounded) (cost_at t bounded (worth_left wants)) }
    ensures greatest { (wants : List Want) (k : ℕ) (bounded : List BoundedSize) (cost : ℕ)
        → HaveOwnDemands wants → AreBounded wants k bounded
        → IsGreatestCost bounded (worth_left wants) cost
        → IsCostBound wants k (sizes_of bounded) cost }
    ensures units { (t : BoundedSize) (worth cost : ℕ) → t.stock.cost ≡ 1 → t.stock.limit ≡ None
        → 1 ≤ t.best → IsGreatestCost (t ∷ []) worth cost → cost ≡ div_ceil worth t.best }
{}

/// Whoever makes all wants makes all that are picked of them, at whatever worths: a bound for those
/// is one for all. So a want without a price may be left out.
pub fn picked_wants_bound()
    ensures { (wants picked : List Want) (k : ℕ) (sizes : List StockSize) (bound : ℕ)
        → HaveOwnDemands wants → ArePicked wants picked → IsCostBound picked k sizes bound
        → IsCostBound wants k sizes bound }
{}

/// Each solution's cost is a multiple of what divides all costs, so that a bound, rounded up to one,
/// is a bound; and so is whatever is less.
pub fn bounds_are_multiples()
    ensures { (wants : List Want) (k : ℕ) (sizes : List StockSize) (bound divisor : ℕ)
        → IsCommonDivisor sizes divisor → IsCostBound wants k sizes bound
        → IsCostBound wants k sizes (reported_cost divisor bound) }
{}

/// The limits of an order, in numbers.
pub fn order_limits()
    ensures wants { MAX_ORDER_WANTS ≡ 100 }
    ensures parts { MAX_PARTS ≡ 1000 }
    ensures bought { MAX_BOUGHT_SIZES ≡ 10 }
    ensures calls { MAX_CALLS ≡ 5000 }
    ensures units { MAX_ORDER_UNITS ≡ 100000 }
    ensures bound { MAX_BOUND ≡ 10 ^ 18 }
{}

/// Where each size is limited, and a bound is more than all units at hand cost, they don't suffice
/// to make all that is left.
pub fn stock_falls_short()
    ensures { (wants : List Want) (k : ℕ) (sizes : List StockSize) (bound : ℕ)
        → All (λ s. IsSome s.limit) sizes → IsCostBound wants k sizes bound
        → cost_at_hand sizes < bound → (solution : Solution) → IsSolution wants k sizes solution
        → MakesAll wants solution → ⊥ }
{}

/// A size holds a piece of a want exactly where its sides are no longer than those of the size,
/// turned where it may be.
pub fn fitting_pieces_are_held()
    ensures held { (wants : List Want) (k : ℕ) (size : Size) (x : Want) → Contains wants x
        → 1 ≤ x.size.w → 1 ≤ x.size.h → IsTrue (is_fitting size x) → HoldsPiece wants k size x }
    ensures fitting { (wants : List Want) (k : ℕ) (size : Size) (x : Want) → HaveOwnDemands wants
        → Contains wants x → HoldsPiece wants k size x → IsTrue (is_fitting size x) }
{}
