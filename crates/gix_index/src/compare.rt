//! Compares an entry with what the system says of its file, as git does before it reads the file
//! (git-update-index, "Notes"; git-config, "core.fileMode", "core.trustctime", "core.checkStat").

ghost use Rattle.std.specs.Prelude.{◌≡◌, ◌↔◌, true, false};
ghost use Rattle.gix_index.specs.Compare.{has_kind, has_other_size, is_as_noted, may_be_same};

use crate::entry::{Entry, Stat};
use crate::status::Status;
use gix_base::hash::ObjectId;
use std::alloc::Allocator;

/// The id of an empty blob.
const EMPTY: ObjectId = ObjectId([
    0xe6, 0x9d, 0xe2, 0x9b, 0xb2, 0xd1, 0xd6, 0x43, 0x4b, 0x8b, 0x29, 0xae, 0x77, 0x5a, 0xd8, 0xc2,
    0xe4, 0x8c, 0x53, 0x91,
]);

/// Says what is compared.
#[derive(Clone, Copy)]
pub struct Checks {
    /// Whether a file that may be executed differs from one that may not (`core.fileMode`).
    pub mode: bool,
    /// Whether the time of the last change of metadata counts, if `owner` is set
    /// (`core.trustctime`).
    pub ctime: bool,
    /// Whether owner, group and inode count, and, if `ctime` is set, the time of the last change of
    /// metadata (`core.checkStat`).
    pub owner: bool,
}

/// Says how a file and its entry compare.
#[derive(Clone, Copy)]
pub enum Change {
    /// The size and the times in whole seconds are as noted, and so are owner, group and inode, as
    /// far as they are compared.
    Kept,
    /// The kind of the file, its mode or its size is another one.
    Changed,
    /// The content decides.
    Unsure,
}

/// Tests whether a file is of the kind of its entry and, if modes are compared, may be executed
/// exactly if the entry says so.
#[tactic(auto, unfolding(crate::specs::Compare::has_kind))]
fn has_kind(mode: u32, status: &Status, checks: Checks) -> bool
    ensures { result ≡ has_kind mode status.now checks }
{
    mode / 4096 == status.mode / 4096
        && (!checks.mode || mode / 4096 != 8 || mode / 64 % 2 == status.mode / 64 % 2)
}

/// Tests whether a size was noted, and the file has another one.
#[tactic(auto, unfolding(crate::specs::Compare::has_other_size))]
fn has_other_size(stat: &Stat, status: &Status) -> bool
    ensures { result ≡ has_other_size stat.now status.now }
{
    stat.size != 0 && stat.size != status.size
}

/// Tests whether what was noted is as it was, as far as it is compared.
#[tactic(auto, unfolding(crate::specs::Compare::is_as_noted))]
fn is_as_noted(stat: &Stat, status: &Status, checks: Checks) -> bool
    ensures { result ≡ is_as_noted stat.now status.now checks }
{
    stat.size == status.size
        && stat.mtime == status.mtime
        && (!checks.owner || !checks.ctime || stat.ctime == status.ctime)
        && (!checks.owner
            || (stat.uid == status.uid && stat.gid == status.gid && stat.ino == status.ino))
}

/// Tests whether a file is of the kind of its entry, and has no other size than the one noted.
#[tactic(auto, unfolding(crate::specs::Compare::may_be_same))]
fn may_be_same(stat: &Stat, mode: u32, status: &Status, checks: Checks) -> bool
    ensures { result ≡ may_be_same stat.now mode status.now checks }
{
    has_kind(mode, status, checks) && !has_other_size(stat, status)
}

impl Change {
    /// Compares an entry with what the system says of its file.
    ///
    /// Times are compared by their seconds. An entry whose size is 0 may have that size because git
    /// has to read the file.
    pub fn of<A: Allocator>(entry: &Entry<A>, status: &Status, checks: Checks) -> Change
        // `Changed` exactly if the file is of another kind than its entry says, or has another size
        // than the one noted (`may_be_same`).
        ensures changed { (result ≡ Change.Changed)
            ↔ (may_be_same entry.now.stat entry.now.mode status.now checks ≡ false) }

        // `Kept` only if size, times in whole seconds, owner, group and inode are as noted, as far
        // as `checks` compares them (`is_as_noted`).
        ensures kept { result ≡ Change.Kept → is_as_noted entry.now.stat status.now checks ≡ true }
    {
        if !may_be_same(&entry.stat, entry.mode, status, checks) {
            Change::Changed
        } else if is_as_noted(&entry.stat, status, checks)
            && (entry.stat.size != 0 || entry.id == EMPTY)
        {
            Change::Kept
        } else {
            Change::Unsure
        }
    }
}
