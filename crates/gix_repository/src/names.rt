//! Looks up what names stand for, in git's order (gitrevisions, "Specifying Revisions").

use crate::error::{Refusal, Unsupported};
use crate::repository::Repository;
use gix_base::hash::{ObjectId, Prefix};
use gix_base::object::Kind;
use gix_files::Folders;
use std::alloc::Allocator;

/// How many objects are looked at if digits are ambiguous and a commit is wanted.
const MOST_CANDIDATES: usize = 4096;

/// Which object is meant if several objects begin with the same digits.
#[derive(Clone, Copy, PartialEq, Eq)]
pub(crate) enum Wanted {
    /// Any object.
    Any,
    /// A commit alone.
    OnlyCommit,
    /// A commit, or a tag that leads to one.
    Committish,
    /// A commit or a tree, or a tag that leads to one.
    Treeish,
}

/// The reference that a revision names.
#[derive(Drop)]
pub(crate) struct NamedReference<A: Allocator> {
    /// The full name at the end of symbolic references.
    pub(crate) target: Vec<u8, A>,
    /// Whether a further rule reads the short name, too.
    pub(crate) is_ambiguous: bool,
}

/// The object that a name stands for, and the names of the reference if it is one.
#[derive(Drop)]
pub(crate) struct Named<A: Allocator> {
    pub(crate) id: ObjectId,
    pub(crate) reference: Option<NamedReference<A>>,
}

/// Returns what was read by the rules of short names.
pub(crate) fn read<A: Allocator>(named: gix_ref::Named<A>) -> Named<A> {
    let gix_ref::Named {
        name: _,
        reference,
        is_ambiguous,
    } = named;
    Named {
        id: reference.id,
        reference: Some(NamedReference {
            target: reference.name,
            is_ambiguous,
        }),
    }
}

/// Returns the name that `@` is short for, and any other name as it is.
pub(crate) fn unabbreviated(name: &[u8]) -> &[u8] {
    if name == b"@".as_slice() {
        b"HEAD"
    } else {
        name
    }
}

/// Returns the digits behind the last `-g` of a name that `git describe` may have printed.
fn described_digits(name: &[u8]) -> Option<&[u8]> {
    for end in 2..name.len() {
        let at = name.len().saturating_sub(end);
        if name.get(at..at.saturating_add(2)) == Some(b"-g".as_slice()) {
            return name.get(at.saturating_add(2)..);
        }
    }
    None
}

impl<F: Folders + Drop, A: Allocator + Copy> Repository<F, A> {
    /// Returns the object that a name stands for: an id, a reference, the output of `git describe`,
    /// or an abbreviated object name. A name comes before digits, but not before all 40. `@` is
    /// short for `HEAD`.
    ///
    /// Of several objects with the same digits the one is meant that is `wanted`.
    pub(crate) fn look_up(&mut self, name: &[u8], wanted: Wanted) -> Result<Named<A>, Refusal> {
        if let Ok(id) = ObjectId::from_hex(name) {
            self.warn_of_id(name)?;
            return Ok(Named {
                id,
                reference: None,
            });
        }
        if let Some(named) = self.reference(name)? {
            return Ok(named);
        }
        let id = self.unnamed(name, wanted)?;
        Ok(Named {
            id,
            reference: None,
        })
    }

    /// Returns the object that digits name, alone or behind `-g`.
    fn unnamed(&mut self, name: &[u8], wanted: Wanted) -> Result<ObjectId, Refusal> {
        if let Some(digits) = described_digits(name) {
            match self.completed(digits, Wanted::OnlyCommit) {
                Err(Refusal::Unknown | Refusal::Ambiguous) => {}
                found => return found,
            }
        }
        match self.completed(name, wanted) {
            Err(Refusal::Ambiguous) => {
                if let Ok(prefix) = Prefix::from_hex(name) {
                    self.say_ambiguous(prefix, name, wanted)?;
                }
                Err(Refusal::Ambiguous)
            }
            found => found,
        }
    }

    /// Warns if a reference has the name of an id.
    fn warn_of_id(&mut self, name: &[u8]) -> Result<(), Refusal> {
        if self.warns && self.references.short(name)?.is_some() {
            self.say(b"warning: refname '", name, b"' is ambiguous.")?;
            self.say(OBJECT_NAME_ADVICE, b"", b"")?;
        }
        Ok(())
    }

    /// Returns the reference with a short name, and warns of those that are passed over.
    pub(crate) fn short(&mut self, name: &[u8]) -> Result<Option<gix_ref::Named<A>>, Refusal> {
        let found = self.references.short(name)?;
        if self.warns || found.is_none() {
            self.warn_of_passed()?;
        }
        Ok(found)
    }

    /// Returns the reference with a short name, and warns if the name is ambiguous.
    fn reference(&mut self, name: &[u8]) -> Result<Option<Named<A>>, Refusal> {
        let Some(named) = self.short(unabbreviated(name))? else {
            return Ok(None);
        };
        if named.is_ambiguous || self.is_one_id(name)? {
            self.warn_ambiguous(name)?;
        }
        Ok(Some(read(named)))
    }

    /// Returns whether exactly one object begins with the digits.
    pub(crate) fn is_one_id(&mut self, digits: &[u8]) -> Result<bool, Refusal> {
        let Ok(prefix) = Prefix::from_hex(digits) else {
            return Ok(false);
        };
        let alloc = self.alloc;
        let found = self.history.reader.store.completions(alloc, prefix, 2)?;
        Ok(found.len() == 1)
    }

    /// Returns the object that begins with the digits.
    ///
    /// # Errors
    ///
    /// - `Unknown` if none does, or these are not at least four digits.
    /// - `Ambiguous` if more than one does, and not exactly one of them is wanted.
    /// - `NotSupported` if more than one does, and `core.disambiguate` says which one is wanted.
    /// - `Object` if it has to be known which one is wanted, and an object was not read.
    fn completed(&mut self, digits: &[u8], wanted: Wanted) -> Result<ObjectId, Refusal> {
        let Ok(prefix) = Prefix::from_hex(digits) else {
            return Err(Refusal::Unknown);
        };
        let most = if wanted != Wanted::Any {
            MOST_CANDIDATES
        } else {
            2
        };
        let alloc = self.alloc;
        let found = self.history.reader.store.completions(alloc, prefix, most)?;
        match found.as_slice() {
            [] => Err(Refusal::Unknown),
            [id] => Ok(*id),
            ids if wanted != Wanted::Any => self.only_wanted(ids, wanted),
            _ if self.has_preference() => Err(Refusal::NotSupported(Unsupported::Preference)),
            _ => Err(Refusal::Ambiguous),
        }
    }

    /// Returns whether a setting says which objects digits rather mean (git-config,
    /// `core.disambiguate`).
    fn has_preference(&self) -> bool {
        self.settings
            .value(b"core", None, b"disambiguate")
            .is_some()
    }

    /// Returns the one object of several that is wanted.
    fn only_wanted(&mut self, ids: &[ObjectId], wanted: Wanted) -> Result<ObjectId, Refusal> {
        let mut found = None;
        for id in ids {
            if self.is_wanted(*id, wanted)? {
                if found.is_some() {
                    return Err(Refusal::Ambiguous);
                }
                found = Some(*id);
            }
        }
        found.ok_or(Refusal::Ambiguous)
    }

    /// Returns whether an object is wanted. A tag whose object is missing is wanted only if any
    /// object is, unless a remote has promised it.
    pub(crate) fn is_wanted(&mut self, id: ObjectId, wanted: Wanted) -> Result<bool, Refusal> {
        match self.peeled(id) {
            Ok((_, Kind::Commit)) if wanted == Wanted::Committish => Ok(true),
            Ok((peeled, Kind::Commit)) if wanted == Wanted::OnlyCommit => Ok(peeled == id),
            Ok((_, Kind::Commit | Kind::Tree)) => Ok(wanted == Wanted::Treeish),
            Err(refusal) if self.is_partial() || !refusal.is_missing() => Err(refusal),
            Ok(_) | Err(_) => Ok(wanted == Wanted::Any),
        }
    }
}

/// What git prints if a reference has the name of an id.
const OBJECT_NAME_ADVICE: &[u8] =
    b"Git normally never creates a ref that ends with 40 hex characters
because it will be ignored when you just specify 40-hex. These refs
may be created by mistake. For example,

  git switch -c $br $(git rev-parse ...)

where \"$br\" is somehow empty and a 40-hex ref is created. Please
examine these refs and maybe delete them. Turn this message off by
running \"git config advice.objectNameWarning false\"";
