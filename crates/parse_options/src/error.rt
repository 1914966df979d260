//! Says why an option is not read.

/// Says why an option is not read.
///
/// The text is the option: without its dashes, or the letters that are left.
#[derive(Clone, Copy)]
pub enum Error<'w> {
    /// No option of the table has this name or letter, or several have a name that begins so.
    Unread(&'w [u8]),
    /// The option needs a value and has none, or has one and takes none.
    BadValue(&'w [u8]),
}
