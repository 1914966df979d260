//! The codes that functions return. -3 is reserved for a source that fails, which none here does.

/// The call succeeded.
pub const OK: i32 = 0;
/// The call succeeded, and the answer is "none" or "no".
pub const NONE: i32 = 1;
/// An allocation failed.
pub const OUT_OF_MEMORY: i32 = -1;
/// The history already has a commit with that id, and keeps it.
pub const ALREADY_THERE: i32 = -2;
/// The history does not have the commit that was to be described.
pub const NO_COMMIT: i32 = -4;
/// There are more commits than 32 bits can count.
pub const TOO_MANY: i32 = -5;
/// The kind of a span is none of the known ones.
pub const NO_KIND: i32 = -6;
/// The bytes are not a supported commit-graph file.
pub const NO_GRAPH: i32 = -7;
/// A commit of a commit-graph file has no level, or a parent's level is not less than its child's.
pub const NO_LEVELS: i32 = -8;
/// The id of a commit is not the hash of its content.
pub const ALTERED: i32 = -9;
/// A content is not read as a commit.
pub const MISSHAPEN: i32 = -10;
/// The size of the options is not one that this library knows.
pub const NO_HOW: i32 = -11;
/// The question needs a commit that was not put into a partial history.
pub const WANTS: i32 = -12;
/// A revision was refused. The code is this one plus the number of the fault, from 1 to 27.
pub const FAULT: i32 = 100;
