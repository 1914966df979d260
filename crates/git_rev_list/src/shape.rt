//! Says how commits are printed.

/// Names an end of `A...B`.
#[derive(Clone, Copy, PartialEq, Eq)]
pub(crate) enum End {
    Left,
    Right,
}

/// Says how commits are printed, and of which side.
#[derive(Clone, Copy)]
pub(crate) struct Shape {
    /// The side of `A...B` that is printed; both if there is none.
    pub(crate) only: Option<End>,
    /// Tells whether parents are printed.
    pub(crate) has_parents: bool,
    /// Tells whether dates are printed.
    pub(crate) has_dates: bool,
    /// Tells whether ids are abbreviated.
    pub(crate) is_short: bool,
    /// The least number of digits of abbreviated ids, or as many as the setting says.
    pub(crate) digits: Option<usize>,
    /// Tells whether no commit is printed.
    pub(crate) is_quiet: bool,
    /// Tells whether a line with the id comes before the text of a format.
    pub(crate) has_header: bool,
    pub(crate) is_reversed: bool,
}

impl Shape {
    /// Prints each commit as a line with its id.
    pub(crate) fn new() -> Shape {
        Shape {
            only: None,
            has_parents: false,
            has_dates: false,
            is_short: false,
            digits: None,
            is_quiet: false,
            has_header: true,
            is_reversed: false,
        }
    }
}
