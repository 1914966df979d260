//! The seed of the hash maps over ids.

use std::hash::{BuildHasher, DefaultHasher, Hasher};

/// Seeds the hash maps of a graph, of a source in memory, and of names.
///
/// Whoever knows the seed can choose ids whose hashes collide, and then each look-up takes time in
/// proportion to their number. A program that reads ids of strangers therefore takes a random seed.
/// No answer depends on the seed: a model of a graph or a source does not have it, so no contract
/// can refer to it.
#[derive(Clone, Copy)]
pub struct Seed {
    /// The state of a hasher that has read the seed.
    initial: DefaultHasher,
}

impl Seed {
    /// Makes a seed of a number that strangers cannot guess.
    pub fn new(seed: u64) -> Seed {
        let mut initial = DefaultHasher::new();
        initial.write_u64(seed);
        Seed { initial }
    }
}

/// Is the same seed each time, for ids that no stranger chooses.
impl Default for Seed {
    ghost is_default = { λ _. Unit {0} };

    fn default() -> Seed {
        Seed::new(0)
    }
}

impl BuildHasher for Seed {
    type Hasher = DefaultHasher;

    ghost build_hasher = { λ seed. seed.initial };

    fn build_hasher(&self) -> DefaultHasher {
        self.initial
    }
}
