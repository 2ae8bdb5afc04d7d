//! The worths that tables hold, in 32 bits or in 64.

ghost use Rattle.std.specs.Prelude.{◌≡◌, ℕ, ◌+◌, ◌^◌, ◌<◌, ◌↔◌, max, map, All, IfOk, IsTrue, vec_len};

use std::alloc::{AllocError, Global};

/// A worth in a table: narrower numbers make it faster.
pub trait Number: Copy {
    /// The worth.
    ghost value: { Self → ℕ };

    /// Every worth is less.
    ghost limit: { ℕ };

    /// A row of worths of 0.
    fn zeros(alloc: Global, count: usize) -> Result<Vec<Self>, AllocError>
        ensures len { IfOk result (λ row. vec_len row ≡ count) }
        ensures zeros { IfOk result (λ row. All (λ v. v ≡ 0) (map value row.items)) };

    /// The number of a worth.
    fn of(worth: u64) -> Self
        requires { worth < limit }
        ensures { value result ≡ worth };

    /// The worth of a number.
    fn worth(self) -> u64
        ensures { result ≡ value self };

    /// Whether the worth is less than another.
    fn is_less(self, other: Self) -> bool
        ensures { IsTrue result ↔ (value self < value other) };

    /// The number or the sum of two others, whichever is worth more.
    fn raised(self, low: Self, high: Self) -> Self
        requires { value low + value high < limit }
        ensures { value result ≡ max (value self) (value low + value high) };
}

impl Number for u32 {
    ghost value = { λ v. v };

    ghost limit = { 2 ^ 32 };

    fn zeros(alloc: Global, count: usize) -> Result<Vec<u32>, AllocError> {
        let row = vec![in alloc; 0u32; count]?;
        Ok(row)
    }

    #[inline]
    fn of(worth: u64) -> u32 {
        worth as u32
    }

    #[inline]
    fn worth(self) -> u64 {
        self as u64
    }

    #[inline]
    fn is_less(self, other: u32) -> bool {
        self < other
    }

    #[inline]
    fn raised(self, low: u32, high: u32) -> u32 {
        let sum = low + high;
        if self < sum { sum } else { self }
    }
}

impl Number for u64 {
    ghost value = { λ v. v };

    ghost limit = { 2 ^ 64 };

    fn zeros(alloc: Global, count: usize) -> Result<Vec<u64>, AllocError> {
        let row = vec![in alloc; 0u64; count]?;
        Ok(row)
    }

    #[inline]
    fn of(worth: u64) -> u64 {
        worth
    }

    #[inline]
    fn worth(self) -> u64 {
        self
    }

    #[inline]
    fn is_less(self, other: u64) -> bool {
        self < other
    }

    #[inline]
    fn raised(self, low: u64, high: u64) -> u64 {
        let sum = low + high;
        if self < sum { sum } else { self }
    }
}
