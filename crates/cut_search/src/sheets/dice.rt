//! Chance from a fixed seed.

/// A generator of numbers (Marsaglia 2003).
#[derive(Clone, Copy)]
pub struct Dice {
    state: u64,
}

impl Dice {
    /// A generator that begins with a seed.
    pub fn new(seed: u64) -> Dice {
        Dice { state: seed | 1 }
    }

    /// The next number.
    fn roll(&mut self) -> u64 {
        let mut x = self.state;
        x ^= x << 13;
        x ^= x >> 7;
        x ^= x << 17;
        self.state = x;
        x >> 11
    }

    /// A number below another; 0 where that is 0.
    pub fn below(&mut self, most: u64) -> u64 {
        self.roll().checked_rem(most).unwrap_or(0)
    }

    /// A number from one to another.
    pub fn within(&mut self, low: u64, high: u64) -> u64 {
        let span = high.saturating_sub(low).saturating_add(1);
        low.saturating_add(self.below(span))
    }

    /// A place below a length.
    pub fn place(&mut self, count: usize) -> usize {
        usize::try_from(self.below(count as u64)).unwrap_or(0)
    }

    /// A value, more or less by up to so many 1000ths; at least 1.
    pub fn noisy(&mut self, value: u64, noise: u64) -> u64 {
        let low = 1000u64.saturating_sub(noise);
        let share = self.within(low, noise.saturating_add(1000));
        (value.saturating_mul(share) / 1000).max(1)
    }
}
