//! Goes over the words of a command line.

/// The words of a command line, and the place of the next one.
#[derive(Clone, Copy)]
pub struct Words<'w> {
    all: &'w [&'w [u8]],
    next: usize,
}

impl<'w> Words<'w> {
    /// Begins with the first word.
    pub fn new(all: &'w [&'w [u8]]) -> Words<'w> {
        Words { all, next: 0 }
    }

    /// Returns the word that was taken last; `None` before the first and after the last.
    pub fn taken(&self) -> Option<&'w [u8]> {
        self.all.get(self.next.checked_sub(1)?).copied()
    }

    /// Returns the next word; `None` after the last.
    pub fn take(&mut self) -> Option<&'w [u8]> {
        let word = self.all.get(self.next).copied();
        self.next = self.next.saturating_add(1);
        word
    }
}
