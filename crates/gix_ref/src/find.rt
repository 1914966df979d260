//! Finds a reference by its full name, and follows symbolic references.
//!
//! # Algorithm
//!
//! `gix_ref` reads the files (`store.rt`, `short.rt`). The other files are of `gix_ref_text`.
//!
//! 1. Read the loose file of the name, unless this answer has read it before (`store.rt`). If there
//!    is a loose file, its content is what the reference says (`loose.rt`). A symbolic link to a
//!    name below `refs/` counts as a symbolic reference. For a link to nothing, or a name below a
//!    file, the call fails if `packed-refs` has the reference.
//! 2. If there is none, read `packed-refs`, unless it was read before. One pass checks each line,
//!    and notes where the lines `ID NAME` begin (`snapshot.rt`: `places_in`). The pass also
//!    compares each name with the one before it. If the names do not rise, they are sorted once,
//!    and a file with one name twice is refused (`sound_places`).
//! 3. If the names rise in byte order, bisect the places (`find_sorted`). A look-up then reads
//!    about log N of N lines. Otherwise read the lines in their order (`find_first`).
//! 4. The line `^ID` behind the line is the object to which a tag leads (`packed.rt`:
//!    `first_told`).
//! 5. To follow a reference, repeat this for each one that it leads to, at most five in all
//!    (`follow_on`). `leads.rt` (`next_step`) decides where a reference leads by what was found.
//! 6. For a short name, follow its full names by git's six rules, the last rule first (`short.rt`:
//!    `first_found`). `rules.rt` (`winner`) decides whether a rule wins over the further ones.
//!
//! The places take 8 bytes a reference. Both searches are proved to return what the first line of
//! the file with this name says.

ghost use Rattle.std.specs.Prelude.{◌≡◌, [], IfOk, IfSome, OnErr, Some};
ghost use Rattle.std.specs.Option.{option_map, unwrap_or};
ghost use Rattle.gix_ref_text.specs.Loose.{loose_says};
ghost use Rattle.gix_ref_text.specs.Packed.{packed_says};
ghost use Rattle.gix_ref_text.specs.Known.{Known, Grows, says};
ghost use Rattle.gix_ref_text.specs.Leads.{leads, name_leads, name_says, Settles};
ghost use Rattle.gix_ref_text.specs.Found.{found_says, led_to};
ghost use Rattle.gix_ref.specs.Known.{known};
ghost use Rattle.gix_ref.specs.Found.{answer_says, answer_leads};

use crate::error::{Error, ErrorName, Fault};
use crate::store::References;
use gix_base::hash::ObjectId;
use gix_files::Folders;
use gix_ref_text::leads::{Found, Led, Reference, Step, next_step};
use gix_ref_text::loose::{self, Said};
use gix_ref_text::name::is_full_name;
use gix_ref_text::packed::Packed;
use std::alloc::{Allocator, Global};

/// How many references are read at most, one leading to the next, as in git.
pub(crate) const MOST_READ: u32 = 5;

/// What a reference says.
#[derive(Drop)]
pub enum Target<A: Allocator = Global> {
    /// An id. `packed-refs` may also say the object to which a tag of this id leads.
    Id {
        id: ObjectId,
        peeled: Option<ObjectId>,
    },
    /// The full name of a reference (git-symbolic-ref).
    Symbolic(Vec<u8, A>),
}

impl<F: Folders + Drop, A: Allocator + Copy> References<F, A> {
    /// Returns what the loose reference with a name says.
    fn loose_found(&self, name: &[u8], content: &[u8]) -> Result<Option<Found<A>>, Fault>
        ensures { IfOk result (λ f. Some (loose_says name.now content.now) ≡ option_map found_says f) }
    {
        match loose::read(name, content) {
            Said::Id(id) => Ok(Some(Found::Id(id, None))),
            Said::LeadsTo(next) => match next.to_vec(self.alloc) {
                Ok(next) => Ok(Some(Found::LeadsTo(next))),
                Err(_) => Err(Fault::OutOfMemory),
            },
            Said::Garbage => Ok(Some(Found::Garbage)),
        }
    }

    /// Returns what `packed-refs` says of a reference.
    fn packed_found(&self, name: &[u8]) -> Option<Found<A>>
        ensures { packed_says (unwrap_or (known self.now).packed []) name.now ≡ option_map found_says result }
    {
        let Some(snapshot) = &self.packed else {
            return None;
        };
        match snapshot.find(name) {
            Some(Packed { id, peeled }) => Some(Found::Id(id, peeled)),
            None => None,
        }
    }

    /// Returns what a reference says. Reads its file unless the answer has read it.
    pub(crate) fn look_up(&mut self, name: &[u8]) -> Result<Option<Found<A>>, Fault>
        // What was read of a file before is kept, so that one answer does not mix two values of a
        // reference.
        ensures grows { Grows (known self.old) (known self.new) }

        // What the loose file says that was read. Without a loose file: what the first line of
        // `packed-refs` with the name says. More that is read later does not change this.
        ensures found { IfOk result (λ f. Settles (known self.new) (λ k. says k name.now) (option_map found_says f)) }
    {
        self.read_loose(name)?;
        if let Some(content) = self.content(name) {
            return self.loose_found(name, content);
        }
        self.read_packed()?;
        Ok(self.packed_found(name))
    }

    /// Returns where a reference leads. Reads at most so many references.
    pub(crate) fn follow_on(&mut self, name: &[u8], most: u32) -> Result<Led<A>, Fault>
        ensures grows { Grows (known self.old) (known self.new) }
        ensures led { IfOk result (λ l. Settles (known self.new) (λ k. leads most k name.now) (led_to l)) }
    {
        let mut last = name.to_vec(self.alloc)?;
        for _ in 0..most {
            let found = self.look_up(&last)?;
            match next_step(last, found) {
                Step::Done(led) => return Ok(led),
                Step::Next(next) => last = next,
            }
        }
        Ok(Led::TooFar)
    }

    /// Returns where the reference with a full name leads. What is no name leads nowhere.
    pub(crate) fn follow_name(&mut self, name: &[u8]) -> Result<Led<A>, Fault>
        ensures grows { Grows (known self.old) (known self.new) }
        ensures led { IfOk result (λ l. Settles (known self.new) (λ k. name_leads k name.now) (led_to l)) }
    {
        if is_full_name(name) {
            self.follow_on(name, MOST_READ)
        } else {
            Ok(Led::Nowhere)
        }
    }

    /// Returns what the reference with this full name says; `None` if there is none.
    ///
    /// The loose reference counts. If there is none, the line of `packed-refs` with the name counts.
    /// A name that git-check-ref-format refuses names no reference.
    ///
    /// # Errors
    ///
    /// - `Broken` if the loose file says neither an id nor the name of a reference.
    /// - `Failed` if a file cannot be read, and `NotUtf8` if the path is not UTF-8.
    /// - `Damaged` if `packed-refs` has a line that git does not write, or a name twice.
    /// - `OutOfMemory` if an allocation failed.
    pub fn find(&mut self, name: &[u8]) -> Result<Option<Target<A>>, Error>
        // The answer is what the loose file says that was read, and without one what the first line
        // of `packed-refs` with the name says. `None`: nothing does, or the text is no full name.
        // `Broken`: it is garbage. More that is read later does not change this (`name_says`).
        ensures found { IfSome (answer_says result) (Settles (known self.new) (λ k. name_says k name.now)) }
    {
        self.begin();
        if !is_full_name(name) {
            return Ok(None);
        }
        match self.look_up(name) {
            Ok(Some(Found::Id(id, peeled))) => Ok(Some(Target::Id { id, peeled })),
            Ok(Some(Found::LeadsTo(next))) => Ok(Some(Target::Symbolic(next))),
            Ok(Some(Found::Garbage)) => Err(Error::Broken(ErrorName::new(name))),
            Ok(None) => Ok(None),
            Err(fault) => Err(fault.error()),
        }
    }

    /// Returns the id at the end of symbolic references; `None` if one of them is not there.
    ///
    /// It reads at most five references, as git does: four symbolic ones and the last.
    ///
    /// # Errors
    ///
    /// - Those of [`References::find`].
    /// - `TooDeep` if the fifth reference is symbolic, too.
    pub fn follow(&mut self, name: &[u8]) -> Result<Option<Reference<A>>, Error>
        // The answer is where the reference leads by what was read (`name_leads`). `None`: a
        // reference is not there, or the text is no full name. `Broken`: a reference says garbage.
        // `TooDeep`: five references lead to no id. More that is read later does not change this.
        ensures followed { IfSome (answer_leads result) (Settles (known self.new) (λ k. name_leads k name.now)) }
    {
        self.begin();
        match self.follow_name(name) {
            Ok(Led::Ends(reference)) => Ok(Some(reference)),
            Ok(Led::Nowhere) => Ok(None),
            Ok(Led::Breaks(broken)) => Err(Error::Broken(ErrorName::new(&broken))),
            Ok(Led::TooFar) => Err(Error::TooDeep(ErrorName::new(name))),
            Err(fault) => Err(fault.error()),
        }
    }
}
