//! Describes options, and what is read from a command line.

/// Says whether an option has a value.
#[derive(Clone, Copy)]
pub enum Value {
    /// It has none.
    Never,
    /// It has one: `--name=VALUE`, or the next word.
    Always,
    /// It may have one, joined to the name: `--name=VALUE`.
    Joined,
    /// It has one, as with `Always`, unless it is the last word.
    UnlessLast,
}

/// Describes an option.
#[derive(Clone, Copy)]
pub struct Choice<K> {
    /// Says which option it is.
    pub key: K,
    /// The letter of its short form, or 0.
    pub short: u8,
    /// Its long name, which may be empty.
    pub long: &'static str,
    /// Says whether it has a value.
    pub value: Value,
    /// Whether it has the form `--no-NAME`.
    pub has_no: bool,
}

/// An option that was given.
#[derive(Clone, Copy)]
pub struct Given<'w, K> {
    /// Says which option it is.
    pub key: K,
    /// Its value, if it has one.
    pub value: Option<&'w [u8]>,
    /// Whether it was given as `--no-NAME`.
    pub is_no: bool,
}

/// The next thing on a command line.
#[derive(Clone, Copy)]
pub enum Item<'w, K> {
    /// An option.
    Option(Given<'w, K>),
    /// An argument, a word that is no option.
    Argument(&'w [u8]),
}
