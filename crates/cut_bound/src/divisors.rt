//! The greatest common divisor of the costs of sizes.

ghost use Rattle.std.specs.Int.{IsGcd};
ghost use Rattle.cut_bound.specs.Orders.{IsCommonDivisor};

use crate::stock::StockSize;

// The greatest common divisor of two numbers (Euclid).
fn common_divisor(a: u64, b: u64) -> u64
    ensures { IsGcd a b result }
{
    if b == 0 { a } else { common_divisor(b, a % b) }
}

/// The greatest common divisor of the costs, 0 where each costs nothing.
pub fn divisor_of(sizes: &[StockSize]) -> u64
    ensures { IsCommonDivisor sizes.now result }
{
    let mut divisor = 0;
    for stock in sizes {
        divisor = common_divisor(stock.cost, divisor);
    }
    divisor
}
