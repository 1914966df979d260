//! Names the commits of a list by their places.

ghost use Rattle.std.specs.Prelude.{◌≡◌, ◌-◌, take, drop};

/// Says in which order commits come (git-rev-list, "Commit Ordering").
#[derive(Clone, Copy)]
pub enum Order {
    /// The newest free commit comes next (`--date-order`).
    Dated,
    /// The commit that became free last comes next (`--topo-order`).
    Topological,
}

/// Has a list of commits, which are named by their places in the list.
///
/// A commit has the parents from the end of the commit before it up to its own end.
#[derive(Drop)]
pub struct Commits {
    /// The parents of all commits, those of the first commit first.
    pub parents: Vec<usize>,
    /// The end of the parents of each commit. There are as many commits as ends.
    pub ends: Vec<usize>,
    /// The date of each commit.
    pub times: Vec<i64>,
}

impl Commits {
    ghost use Rattle.gix_order.specs.Orders.{listed};

    /// Returns the number of commits.
    pub(crate) fn len(&self) -> usize
        ensures { result ≡ (listed self.now).count }
    {
        self.ends.len()
    }

    /// Returns the date of a commit; 0 if it has none.
    pub(crate) fn time(&self, place: usize) -> i64
        ensures { result ≡ (listed self.now).time place }
    {
        self.times.get(place).copied().unwrap_or(0)
    }

    /// Returns the parents of a commit; none if it is not in the list.
    pub(crate) fn parents(&self, place: usize) -> &[usize]
        ensures { result.now ≡ (listed self.now).parents place }
    {
        let begin = match place.checked_sub(1) {
            Some(before) => self.ends.get(before).copied().unwrap_or(0),
            None => 0,
        };
        let end = self.ends.get(place).copied().unwrap_or(0);
        between(&self.parents, begin, end)
    }
}

/// Returns the items from a place up to another.
fn between(items: &[usize], begin: usize, end: usize) -> &[usize]
    ensures { result.now ≡ take (end - begin) (drop begin items.now) }
{
    let end = end.min(items.len());
    if begin < end { &items[begin..end] } else { &[] }
}
