//! Numbers that are drawn.
use rand_core::{Rng, SeedableRng};
use rand_pcg::Pcg64;

/// Draws numbers from a seed.
#[derive(Drop)]
pub(crate) struct Draws {
    generator: Pcg64,
}

impl Draws {
    pub(crate) fn new(seed: u64) -> Draws {
        Draws {
            generator: Pcg64::seed_from_u64(seed),
        }
    }

    /// A number below a bound; 0 for the bound 0.
    pub(crate) fn below(&mut self, bound: u64) -> u64 {
        let drawn = self.generator.next_u64();
        match drawn.checked_rem(bound) {
            Some(rest) => rest,
            None => 0,
        }
    }
}
