//! Has the kinds of files that modes say (gitformat-index, "Index entry"; stat(2)).

/// The kind of a file.
#[derive(Clone, Copy, PartialEq, Eq)]
pub enum FileKind {
    /// A folder, or a tree in a tree.
    Folder,
    /// A file, which may be executable.
    File,
    /// A symbolic link.
    Link,
    /// The commit of a submodule.
    Submodule,
    /// Something that git does not track, such as a pipe.
    Other,
}

impl FileKind {
    /// Returns the kind that a mode of an index, a tree or stat(2) says.
    pub fn of(mode: u32) -> FileKind {
        match mode / 4096 {
            4 => FileKind::Folder,
            8 => FileKind::File,
            10 => FileKind::Link,
            14 => FileKind::Submodule,
            _ => FileKind::Other,
        }
    }
}
