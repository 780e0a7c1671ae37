//! Numbers that look random, and are the same in each run.

/// A linear congruential generator.
#[derive(Drop)]
pub struct Random {
    state: u64,
}

impl Random {
    /// From a start.
    pub fn new(start: u64) -> Self {
        Random { state: start }
    }

    /// A number below this one, or 0.
    pub fn below(&mut self, end: u32) -> u32 {
        self.state = self
            .state
            .wrapping_mul(6_364_136_223_846_793_005)
            .wrapping_add(1_442_695_040_888_963_407);
        ((self.state >> 33) % u64::from(end.max(1))) as u32
    }
}
