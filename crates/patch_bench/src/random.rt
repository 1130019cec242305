//! Numbers that look random.
ghost use Rattle.std.specs.Prelude.{◌<◌};

/// Numbers that look random, the same for the same seed: splitmix64, as Steele, Lea and Flood describe it.
#[derive(Drop)]
pub struct Random {
    state: u64,
}

impl Random {
    /// Those of a seed, for one of several uses.
    pub fn new(seed: u32, use_of: u32) -> Random {
        Random {
            state: u64::from(seed) << 32 | u64::from(use_of),
        }
    }

    /// The next number.
    pub fn draw(&mut self) -> u64 {
        self.state = self.state.wrapping_add(0x9e37_79b9_7f4a_7c15);
        let mut x = self.state;
        x = (x ^ x >> 30).wrapping_mul(0xbf58_476d_1ce4_e5b9);
        x = (x ^ x >> 27).wrapping_mul(0x94d0_49bb_1331_11eb);
        x ^ x >> 31
    }

    /// The next number, below a bound.
    pub fn below(&mut self, bound: u32) -> u32
        requires { 0 < bound }
        ensures { result < bound }
    {
        (self.draw() % u64::from(bound)) as u32
    }
}
