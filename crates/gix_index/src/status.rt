//! What the system says of a file.

/// What the system says of a file (stat(2)), each number modulo 2^32 as the index has it.
#[derive(Clone, Copy)]
pub struct Status {
    pub mode: u32,
    pub size: u32,
    pub mtime: u32,
    pub mtime_nanos: u32,
    pub ctime: u32,
    pub ctime_nanos: u32,
    pub ino: u32,
    pub uid: u32,
    pub gid: u32,
}
