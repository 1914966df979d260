//! Looks names up in reflogs (gitrevisions, `<refname>@{<date>}`, `<refname>@{<n>}`, `@{-<n>}`).

use crate::dates::push_full_date;
use crate::error::{Refusal, Unsupported};
use crate::marks::Doubt;
use crate::names::{Named, read, unabbreviated};
use crate::repository::Repository;
use gix_base::hash::ObjectId;
use gix_files::Folders;
use gix_ref::{AtDate, Logged, Reflog, Target};
use gix_spec::spec::parse::delegate::ReflogLookup;
use std::alloc::Allocator;
use std::io::Write;

/// Tests whether a reflog has one entry for all dates that are in doubt. None of them may be before
/// 1970.
fn is_sure<A: Allocator>(reflog: &Reflog<A>, seconds: i64, doubt: Doubt) -> bool {
    let first = seconds.saturating_sub(doubt.before);
    let last = seconds.saturating_add(doubt.after);
    first > 0 && reflog.place_at(first.cast_unsigned()) == reflog.place_at(last.cast_unsigned())
}

impl<F: Folders + Drop, A: Allocator + Copy> Repository<F, A> {
    /// Returns the object that an entry of a reflog names, by the first rule that reads the name as
    /// a reference with a reflog.
    ///
    /// # Errors
    ///
    /// - `Unknown` if no rule does.
    /// - `Fatal` if the reflog has too few entries. The message has the name as it was written.
    /// - `NotSupported` if the reflog has several entries for the dates that are in doubt.
    pub(crate) fn logged(
        &mut self,
        written: &[u8],
        query: ReflogLookup,
        doubt: Doubt,
    ) -> Result<ObjectId, Refusal> {
        let Some(logged) = self.references.short_logged(unabbreviated(written))? else {
            return Err(Refusal::Unknown);
        };
        if logged.is_ambiguous || self.is_one_id(written)? {
            self.warn_ambiguous(written)?;
        }
        self.entry_of(&logged, written, query, doubt)
    }

    /// Returns the object that an entry of the current branch's reflog names. As in git, the branch
    /// is what the short name `HEAD` stands for: a tag of this name, say, if there are no commits yet.
    pub(crate) fn logged_here(
        &mut self,
        query: ReflogLookup,
        doubt: Doubt,
    ) -> Result<ObjectId, Refusal> {
        let Some(named) = self.short(b"HEAD")? else {
            return Err(Refusal::Unknown);
        };
        let gix_ref::Named {
            name: _,
            reference,
            is_ambiguous,
        } = named;
        if is_ambiguous {
            self.warn_ambiguous(b"")?;
        }
        let reflog = match self.references.reflog(&reference.name)? {
            Some(reflog) => reflog,
            None => Reflog {
                entries: Vec::new(self.alloc),
            },
        };
        let short = reference.name.strip_prefix(b"refs/heads/".as_slice());
        let written = short.unwrap_or(b"HEAD").to_vec(self.alloc)?;
        let logged = Logged {
            name: reference.name,
            id: reference.id,
            reflog,
            is_ambiguous: false,
        };
        self.entry_of(&logged, &written, query, doubt)
    }

    /// Returns the object that an entry of a reflog names.
    fn entry_of(
        &mut self,
        logged: &Logged<A>,
        written: &[u8],
        query: ReflogLookup,
        doubt: Doubt,
    ) -> Result<ObjectId, Refusal> {
        match query {
            ReflogLookup::Entry(0) => Ok(logged.reflog.nth(0).unwrap_or(logged.id)),
            _ if logged.reflog.entries.is_empty() => {
                self.say(b"fatal: log for ", &logged.name, b" is empty")?;
                Err(Refusal::Fatal)
            }
            ReflogLookup::Entry(number) => self.nth_entry(logged, written, number),
            ReflogLookup::Date(time) if !is_sure(&logged.reflog, time.seconds, doubt) => {
                Err(Refusal::NotSupported(Unsupported::Entry))
            }
            ReflogLookup::Date(time) => self.entry_at(logged, written, time.seconds),
        }
    }

    /// Returns the object that a reflog with entries names by a number, from 1 on.
    fn nth_entry(
        &mut self,
        logged: &Logged<A>,
        written: &[u8],
        number: usize,
    ) -> Result<ObjectId, Refusal> {
        let Some(id) = logged.reflog.nth(number) else {
            return self.too_short(&logged.reflog, written);
        };
        if let Some(place) = logged.reflog.place_of_nth(number) {
            self.warn_of_gap(logged, place)?;
        }
        Ok(id)
    }

    /// Returns the object that a reflog with entries names at a date.
    fn entry_at(
        &mut self,
        logged: &Logged<A>,
        written: &[u8],
        seconds: i64,
    ) -> Result<ObjectId, Refusal> {
        let date = seconds.max(0).cast_unsigned();
        if let Some(place) = logged.reflog.place_at(date) {
            self.warn_of_gap(logged, place)?;
        }
        match logged.reflog.at(date) {
            Some(AtDate::Id(id)) => Ok(id),
            Some(AtDate::Now) => {
                self.warn_of_end(logged, date)?;
                Ok(logged.id)
            }
            Some(AtDate::Before(id, _)) if seconds > 0 => {
                self.warn_of_begin(&logged.reflog, written)?;
                Ok(id)
            }
            // git takes second 0 for the number of an entry here.
            _ => self.too_short(&logged.reflog, written),
        }
    }

    /// Warns if changes are missing in a reflog after the entry at a place.
    fn warn_of_gap(&mut self, logged: &Logged<A>, place: usize) -> Result<(), Refusal> {
        if logged.reflog.has_gap_after(place) {
            self.warn_of_log(logged, place, b" has gap after ")?;
        }
        Ok(())
    }

    /// Warns if the newest entry that is not after a date has another id than the reference now.
    fn warn_of_end(&mut self, logged: &Logged<A>, date: u64) -> Result<(), Refusal> {
        let Some(place) = logged.reflog.place_at(date) else {
            return Ok(());
        };
        match logged.reflog.entries.get(place) {
            Some(entry) if entry.new != logged.id => {
                self.warn_of_log(logged, place, b" unexpectedly ended on ")
            }
            _ => Ok(()),
        }
    }

    /// Adds a warning about a reflog, with the date of the entry at a place. git prints it even if
    /// it is to be quiet.
    fn warn_of_log(
        &mut self,
        logged: &Logged<A>,
        place: usize,
        what: &[u8],
    ) -> Result<(), Refusal> {
        let Some(entry) = logged.reflog.entries.get(place) else {
            return Ok(());
        };
        let mut behind = what.to_vec(self.alloc)?;
        push_full_date(&mut behind, entry.seconds, entry.zone)?;
        self.say_even_quietly(b"warning: log for ref ", &logged.name, &behind)?;
        Ok(())
    }

    /// Says that a reflog has too few entries.
    fn too_short(&mut self, reflog: &Reflog<A>, written: &[u8]) -> Result<ObjectId, Refusal> {
        let entries = reflog.entries.len();
        let mut behind = Vec::new(self.alloc);
        if write!(behind, "' only has {entries} entries").is_err() {
            return Err(Refusal::OutOfMemory);
        }
        self.say(b"fatal: log for '", written, &behind)?;
        Err(Refusal::Fatal)
    }

    /// Warns of the date of a reflog's first entry, since it does not go back further.
    fn warn_of_begin(&mut self, reflog: &Reflog<A>, written: &[u8]) -> Result<(), Refusal> {
        let Some(oldest) = reflog.entries.first() else {
            return Ok(());
        };
        let mut behind = b"' only goes back to ".to_vec(self.alloc)?;
        push_full_date(&mut behind, oldest.seconds, oldest.zone)?;
        self.say(b"warning: log for '", written, &behind)?;
        Ok(())
    }

    /// Returns the branch or commit that was checked out before.
    pub(crate) fn checked_out_before(&mut self, number: usize) -> Result<Named<A>, Refusal> {
        let Some(reflog) = self.references.reflog(b"HEAD")? else {
            return Err(Refusal::Unknown);
        };
        let Some(name) = reflog.checked_out_before(number) else {
            return Err(Refusal::Unknown);
        };
        if let Ok(id) = ObjectId::from_hex(name) {
            return Ok(Named {
                id,
                reference: None,
            });
        }
        let Some(named) = self.references.short(name)? else {
            return Err(Refusal::Unknown);
        };
        if named.is_ambiguous {
            self.warn_of_earlier(number)?;
        }
        Ok(read(named))
    }

    /// Warns that the name of the branch that was checked out before is ambiguous.
    fn warn_of_earlier(&mut self, number: usize) -> Result<(), Refusal> {
        let mut written = Vec::new(self.alloc);
        if write!(written, "@{{-{number}}}").is_err() {
            return Err(Refusal::OutOfMemory);
        }
        self.warn_ambiguous(&written)?;
        Ok(())
    }

    /// Returns what a reference stood for, the oldest first, by its reflog; what it stands for if
    /// it has none (git-merge-base, "--fork-point").
    ///
    /// # Errors
    ///
    /// - `Unknown` if the text names no reference.
    /// - `Ambiguous` if several rules read the name, unless `core.warnAmbiguousRefs` is unset.
    /// - `Fatal` for a branch that has no sibling. The message is among the messages.
    /// - `Reference` if a file was not read.
    /// - `OutOfMemory` if an allocation failed.
    pub fn logged_ids(&mut self, text: &[u8]) -> Result<Vec<ObjectId, A>, Refusal> {
        let found = if ObjectId::from_hex(text).is_ok() {
            self.reference_of_digits(text)?
        } else {
            self.reference_unwarned(text)?
        };
        let Some((id, target)) = found else {
            return Err(Refusal::Unknown);
        };
        match self.references.reflog(&target)? {
            Some(reflog) if !reflog.entries.is_empty() => self.ids_of(&reflog),
            _ => self.only(id),
        }
    }

    /// Returns the object and the full name of the reference that is named like an id, at the end of
    /// symbolic references; `None` if there is none. In a revision such a text means the id.
    ///
    /// # Errors
    ///
    /// - `Ambiguous` if several rules read the name, unless `core.warnAmbiguousRefs` is unset.
    /// - `Reference` if a file was not read.
    /// - `OutOfMemory` if an allocation failed.
    pub fn reference_of_digits(
        &mut self,
        digits: &[u8],
    ) -> Result<Option<(ObjectId, Vec<u8, A>)>, Refusal> {
        match self.references.short(digits)? {
            Some(named) if named.is_ambiguous && self.warns => Err(Refusal::Ambiguous),
            Some(named) => Ok(Some((named.reference.id, named.reference.name))),
            None => Ok(None),
        }
    }

    /// Returns all ids of a reflog, the oldest first.
    fn ids_of(&self, reflog: &Reflog<A>) -> Result<Vec<ObjectId, A>, Refusal> {
        let mut ids = Vec::new(self.alloc);
        for entry in reflog.entries.iter() {
            if ids.is_empty() {
                ids.push(entry.old)?;
            }
            ids.push(entry.new)?;
        }
        Ok(ids)
    }

    /// Returns a list of one id.
    fn only(&self, id: ObjectId) -> Result<Vec<ObjectId, A>, Refusal> {
        let mut ids = Vec::new(self.alloc);
        ids.push(id)?;
        Ok(ids)
    }

    /// Returns the full name of the current branch, which may have no commits yet; `None` if HEAD
    /// leads to no branch.
    pub fn branch(&mut self) -> Result<Option<Vec<u8, A>>, Refusal> {
        let Some(Target::Symbolic(name)) = self.references.find(b"HEAD")? else {
            return Ok(None);
        };
        match self.references.follow(&name)? {
            Some(reference) => Ok(Some(reference.name)),
            None => Ok(Some(name)),
        }
    }
}
