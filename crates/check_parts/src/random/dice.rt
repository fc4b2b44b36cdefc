//! Numbers that look random, the same at each run.

ghost use Rattle.std.specs.Prelude.{◌≤◌};

use rand_core::{Rng, SeedableRng};
use rand_pcg::Pcg32;

/// A generator.
#[derive(Drop)]
pub struct Dice {
    rng: Pcg32,
}

impl Dice {
    /// The generator of a seed.
    pub fn new(seed: u64) -> Dice {
        Dice {
            rng: Pcg32::seed_from_u64(seed),
        }
    }

    /// A number below 256.
    pub fn byte(&mut self) -> u8 {
        (self.rng.next_u64() % 256) as u8
    }

    /// A number from 0 to this.
    pub fn up_to(&mut self, most: u8) -> u8
        ensures { result ≤ most }
    {
        (self.rng.next_u64() % (u64::from(most) + 1)) as u8
    }

    /// Whether one of so many throws is it.
    pub fn one_in(&mut self, count: u8) -> bool {
        self.up_to(count.saturating_sub(1)) == 0
    }
}
