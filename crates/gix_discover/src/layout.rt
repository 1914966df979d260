//! Says where the parts of a repository are.

use std::alloc::{Allocator, Global};

/// Is where the parts of a repository are (gitrepository-layout).
///
/// A path that is not absolute begins at the current folder of the process.
#[derive(Drop)]
pub struct Layout<A: Allocator = Global> {
    /// The git folder: `HEAD` and what belongs to one worktree.
    pub git_dir: Vec<u8, A>,
    /// The folder that all worktrees share: `config`, `packed-refs` and most of `refs`.
    pub common_dir: Vec<u8, A>,
    /// The folder of objects. Its file `info/alternates` names more of them.
    pub objects: Vec<u8, A>,
    /// The folders of objects that `GIT_ALTERNATE_OBJECT_DIRECTORIES` names.
    pub alternates: Vec<Vec<u8, A>, A>,
    /// The top folder of the work tree, if there is one. An empty path is the current folder.
    pub work_tree: Option<Vec<u8, A>>,
    /// Says whether git takes the repository for bare.
    pub is_bare: bool,
    /// The path of the current folder in the work tree, with a slash at its end, or empty at the
    /// top. `None` if the current folder is outside of the work tree.
    pub prefix: Option<Vec<u8, A>>,
    /// Says whether the current folder, or the top of the work tree if git goes there, is inside of
    /// the git folder. git then takes no revision for the name of a file.
    pub is_in_git_dir: bool,
    /// The file `shallow`.
    pub shallow: Vec<u8, A>,
    /// The file `info/grafts`.
    pub grafts: Vec<u8, A>,
    /// Says whether each worktree has a `config.worktree`.
    pub worktree_config: bool,
}
