//! Finds the file of a chain that has the commit at a position (technical/commit-graph,
//! "Commit-Graph Chains").

ghost use Rattle.std.specs.Prelude.{◌≡◌, ℕ, ◌≤◌, ◌<◌, IfSome, MatchOption, length, sum_by};
ghost use Rattle.gix_commitgraph.specs.PlaceForm.{IsPlace};

/// Says where a commit is: the number of its file in the chain, and the number of its row there.
#[derive(Clone, Copy, PartialEq, Eq)]
pub struct Place {
    pub layer: usize,
    pub row: u32,
}

/// Is a file of a chain.
pub trait Counted {
    // The number of commits of a file.
    ghost commits: { Self → ℕ };

    /// Returns the number of commits of the file.
    fn count(&self) -> u32
        // The answer is the number of commits of the file.
        ensures { result ≡ commits self.now };
}

/// Returns where the commit at a position of a chain is.
///
/// Returns `None` if the files have no commit there.
pub fn locate<F: Counted>(files: &[F], position: u32) -> Option<Place>
    // The answer says which row of which file is at `position` of the chain. It is `None` exactly
    // if the files have no commit at `position`.
    ensures place { MatchOption result (sum_by F.commits files.now ≤ position)
        (λ p. IsPlace F.commits files.now position p.layer p.row) }

    // The number of the file is less than the number of files.
    ensures within { IfSome result (λ p. p.layer < length files.now) }
{
    let mut row = position;
    for layer in 0..files.len() {
        let count = files[layer].count();
        if row < count {
            return Some(Place { layer, row });
        }
        row -= count;
    }
    None
}
