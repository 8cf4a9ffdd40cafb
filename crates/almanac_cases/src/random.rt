// Numbers that look random, from a fixed seed. Each crate of tests has its own, so that it reads alone.

#[derive(Clone, Copy)]
pub(super) struct Dice {
    state: u64,
}

impl Dice {
    pub(super) fn new(seed: u64) -> Dice {
        Dice { state: seed }
    }

    // The next number below a bound that is not 0; 0 if the bound is.
    pub(super) fn below(&mut self, bound: u64) -> u64 {
        self.state = self
            .state
            .wrapping_mul(6_364_136_223_846_793_005)
            .wrapping_add(1_442_695_040_888_963_407);
        let bits = self.state >> 33;
        if bound == 0 { 0 } else { bits % bound }
    }

    // A number of either sign, of at most this size, if that is within 2^24.
    pub(super) fn within(&mut self, size: u32) -> i32 {
        let most = size.min(16_777_216) as u64;
        let n = self.below(2 * most + 1);
        (n.min(2 * most) as i64 - most as i64) as i32
    }
}
