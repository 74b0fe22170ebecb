//! Pseudorandom numbers, the same for the same seed: a linear congruential generator of 64 bits,
//! whose high half is mixed into the low one.
ghost use Rattle.std.specs.Prelude.{◌<◌};

/// A sequence of numbers.
#[derive(Drop)]
pub(crate) struct Random {
    state: u64,
}

impl Random {
    /// Begins the sequence of a seed.
    pub(crate) fn new(seed: u64) -> Random {
        let mut random = Random { state: seed };
        // Seeds that lie close together begin far apart.
        random.bits();
        random.bits();
        random
    }

    /// Returns the next number.
    pub(crate) fn bits(&mut self) -> u64 {
        self.state = self
            .state
            .wrapping_mul(6364136223846793005)
            .wrapping_add(1442695040888963407);
        self.state ^ (self.state >> 32)
    }

    /// Returns the next number, below a bound.
    pub(crate) fn below(&mut self, bound: u32) -> u32
        requires { 0 < bound }
        ensures { result < bound }
    {
        (self.bits() >> 33) as u32 % bound
    }
}

/// Returns the lowest byte of a number.
pub(crate) fn byte(bits: u64) -> u8 {
    (bits & 255) as u8
}
