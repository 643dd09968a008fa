//! A stream of numbers that a seed determines, for generated loads.
//!
//! It is splitmix64: the state advances by an odd constant, and each number is the state with its bits mixed. No clause says
//! which numbers come. It serves no secrets.

ghost use Rattle.std.specs.Prelude.{◌<◌};

// The constant by which the state advances.
const STEP: u64 = 0x9E37_79B9_7F4A_7C15;

/// A stream of 64-bit numbers.
#[derive(Clone, Copy, Debug, PartialEq, Eq)]
pub struct Random {
    state: u64,
}

impl Random {
    /// Makes the stream that goes on from this state.
    pub fn of_state(state: u64) -> Self {
        Random { state }
    }

    /// Makes the stream of a seed. Each lane of a seed begins at a state of its own.
    pub fn new(seed: u64, lane: u64) -> Self {
        let mut lanes = Random::of_state(lane.wrapping_mul(STEP));
        Random::of_state(seed.wrapping_add(lanes.number()))
    }

    /// Returns the next number of the stream.
    pub fn number(&mut self) -> u64 {
        self.state = self.state.wrapping_add(STEP);
        mixed(self.state)
    }

    /// Returns a number below `bound`, and 0 if `bound` is 0. It takes the next number of the stream.
    pub fn below(&mut self, bound: u32) -> u32
        ensures { 0 < bound → result < bound }
    {
        let number = self.number();
        if bound == 0 {
            return 0;
        }
        (number % u64::from(bound)) as u32
    }
}

// Returns the bits of a number mixed.
fn mixed(number: u64) -> u64 {
    let number = (number ^ (number >> 30)).wrapping_mul(0xBF58_476D_1CE4_E5B9);
    let number = (number ^ (number >> 27)).wrapping_mul(0x94D0_49BB_1331_11EB);
    number ^ (number >> 31)
}
