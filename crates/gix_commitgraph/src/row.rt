//! Reads the level and the date of a commit from the last 64 bits of its row (gitformat-commit-graph,
//! "Commit Data").
//!
//! The upper 32 of these bits are a number `high`, and the lower 32 a number `low`.

ghost use Rattle.std.specs.Prelude.{◌≡◌, ◌^◌, ◌<◌};
ghost use Rattle.gix_commitgraph.specs.FileCommits.{date_of, level_of};

/// Returns the topological level, the generation number of the commit.
///
/// It is 0 if git did not compute it. Git 2.18 wrote such files. Every level that git computed is
/// greater (git's technical/commit-graph, "generation number").
pub fn level(high: u32) -> u32
    // The answer is the upper 30 bits of `high`.
    ensures value { result ≡ level_of high }

    // The answer is less than 2^30.
    ensures bound { result < 2 ^ 30 }
{
    high / 4
}

/// Returns the commit date, in seconds since the Unix epoch. It has 34 bits.
pub fn date(high: u32, low: u32) -> i64
    // The answer is the number whose upper 2 bits are the lower 2 of `high`, and whose lower 32 are
    // `low`.
    ensures { result ≡ date_of high low }
{
    (u64::from(high % 4) * 0x1_0000_0000 + u64::from(low)) as i64
}
