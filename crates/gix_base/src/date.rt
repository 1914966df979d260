//! Has moments in time.

/// Is a moment, with the offset of the clock that it was read from.
///
/// Times are ordered by `seconds`, then by `offset`.
#[derive(Clone, Copy, Debug, PartialEq, Eq, PartialOrd, Ord, Hash)]
pub struct Time {
    /// Counts the seconds since 1970-01-01 00:00:00 UTC; it is negative before that.
    pub seconds: i64,
    /// Says how many seconds the clock is ahead of UTC; it is negative if it is behind.
    pub offset: i32,
}
