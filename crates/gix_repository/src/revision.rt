//! Reads revisions (gitrevisions, "Specifying Revisions"): the delegate that answers the parser.

use crate::error::{Refusal, Unsupported};
use crate::marks::{doubt_about, first_mark};
use crate::names::{Named, NamedReference, Wanted};
use crate::repository::Repository;
use gix_base::error::Exn;
use gix_base::hash::{ObjectId, Prefix};
use gix_base::object;
use gix_date::date::Time;
use gix_files::Folders;
use gix_spec::spec;
use gix_spec::spec::parse::delegate::{
    Kind, Listener, Navigate, PeelTo, PrefixHint, ReflogLookup, Revision, SiblingBranch, Traversal,
};
use gix_spec::spec::parse::{Delegate, parse};
use memchr::{memchr, memchr3, memmem, memrchr};
use std::alloc::Allocator;

/// Looks up what a revision names, call by call.
#[derive(Drop)]
struct Lookup<'r, 't, F: Folders + Drop, A: Allocator + Copy> {
    repository: &'r mut Repository<F, A>,
    /// The revision as it was written.
    text: &'t [u8],
    /// What the digits of several objects mean.
    wanted: Wanted,
    /// The name with which the revision begins, until it is known what follows: a name before
    /// `@{..}` is read by other rules.
    name: Option<Vec<u8, A>>,
    /// The object so far.
    at: Option<ObjectId>,
    /// The reference with which the revision begins.
    reference: Option<NamedReference<A>>,
    /// Why the revision names nothing.
    refusal: Option<Refusal>,
}

/// Returns the name and the mark with which a text begins, such as `main@{u}`.
fn marked(text: &[u8]) -> &[u8] {
    let Some(at) = memmem::find(text, b"@{") else {
        return text;
    };
    let mark = text.get(at..).unwrap_or(&[]);
    match memchr(b'}', mark) {
        Some(len) => text.get(..=at.saturating_add(len)).unwrap_or(text),
        None => text,
    }
}

/// Tests whether a text ends with a mark such as `@{4294967297}`, of a number that does not fit 31
/// bits. git then counts modulo 2^32.
fn is_too_great(marked: &[u8]) -> bool {
    let Some(at) = memrchr(b'{', marked) else {
        return false;
    };
    let mark = marked.get(at.saturating_add(1)..).unwrap_or(&[]);
    let digits = mark.strip_suffix(b"}").unwrap_or(&[]);
    let Some(zeros) = digits.iter().position(|b| *b != b'0') else {
        return false;
    };
    let number = digits.get(zeros..).unwrap_or(&[]);
    let most = b"2147483647".as_slice();
    number.iter().all(|b| b.is_ascii_digit())
        && (number.len() > most.len() || (number.len() == most.len() && number > most))
}

/// Tests whether a further rule reads the name of a reference, too.
fn is_ambiguous<A: Allocator>(named: &Named<A>) -> bool {
    match &named.reference {
        Some(reference) => reference.is_ambiguous,
        None => false,
    }
}

impl<'r, 't, F: Folders + Drop, A: Allocator + Copy> Lookup<'r, 't, F, A> {
    /// Answers a call: notes the object to which it leads, or why it leads to none.
    fn answer(&mut self, found: Result<ObjectId, Refusal>) -> Result<(), Exn> {
        match found {
            Ok(id) => {
                self.at = Some(id);
                Ok(())
            }
            Err(Refusal::OutOfMemory) => {
                self.refusal = Some(Refusal::OutOfMemory);
                Err(Exn::out_of_memory(self.repository.refusals))
            }
            Err(refusal) => {
                self.refusal = Some(refusal);
                Err(Exn::new(self.repository.refusals, "names nothing"))
            }
        }
    }

    /// Notes the object and the reference that a name stands for.
    fn begin(&mut self, found: Result<Named<A>, Refusal>) -> Result<(), Exn> {
        match found {
            Ok(Named { id, reference }) => {
                self.reference = reference;
                self.answer(Ok(id))
            }
            Err(refusal) => self.answer(Err(refusal)),
        }
    }

    /// Looks up the name with which the revision begins, unless that was done.
    fn settle(&mut self) -> Result<(), Refusal> {
        let Some(name) = self.name.take() else {
            return Ok(());
        };
        let Named { id, reference } = self.repository.look_up(&name, self.wanted)?;
        self.at = Some(id);
        self.reference = reference;
        Ok(())
    }

    /// Looks up the name with which the revision begins at its end.
    fn end(&mut self) -> Result<(), Exn> {
        match self.settle() {
            Ok(()) => Ok(()),
            Err(refusal) => self.answer(Err(refusal)),
        }
    }

    /// Returns the object so far.
    fn current(&mut self) -> Result<ObjectId, Refusal> {
        self.settle()?;
        match self.at {
            Some(id) => Ok(id),
            None => Err(Refusal::Unknown),
        }
    }

    /// Returns the object to which a step leads.
    fn stepped(&mut self, kind: Traversal) -> Result<ObjectId, Refusal> {
        let id = self.current()?;
        match self.repository.commit(id)? {
            Some(commit) => self.repository.stepped(commit, kind),
            None => Err(Refusal::Unknown),
        }
    }

    /// Returns the object that the revision is peeled to.
    fn peeled(&mut self, to: PeelTo<'_>) -> Result<ObjectId, Refusal> {
        let id = self.current()?;
        match to {
            PeelTo::ObjectKind(kind) => self.repository.peeled_to(id, kind),
            PeelTo::ValidObject => {
                let kind = self.repository.kind(id)?;
                self.repository.expect_sound(id, kind)?;
                Ok(id)
            }
            PeelTo::RecursiveTagObject => {
                let (id, kind) = self.repository.peeled(id)?;
                self.repository.expect_sound(id, kind)?;
                Ok(id)
            }
            PeelTo::Path(path) => self.repository.at_path(id, path),
        }
    }

    /// Returns the object that an entry of the reflog names.
    fn logged(&mut self, query: ReflogLookup) -> Result<ObjectId, Refusal> {
        let Some(doubt) = doubt_about(first_mark(self.text), query) else {
            return Err(Refusal::NotSupported(Unsupported::Date));
        };
        if is_too_great(marked(self.text)) {
            return Err(Refusal::NotSupported(Unsupported::Date));
        }
        let name = self.name.take();
        match name {
            Some(name) => self.repository.logged(&name, query, doubt),
            None if self.at.is_some() => Err(Refusal::NotSupported(Unsupported::Form)),
            None => self.repository.logged_here(query, doubt),
        }
    }

    /// Returns what the sibling branch stands for.
    fn sibling(&mut self, kind: SiblingBranch) -> Result<Named<A>, Refusal> {
        let name = self.name.take();
        match name {
            Some(name) => self.repository.sibling_of(&name, kind),
            None if self.at.is_some() => Err(Refusal::NotSupported(Unsupported::Form)),
            None => self.repository.sibling_here(kind),
        }
    }

    /// Returns what the sibling branch stands for, and warns if its short name is ambiguous.
    fn warned_sibling(&mut self, kind: SiblingBranch) -> Result<Named<A>, Refusal> {
        let found = self.sibling(kind)?;
        if is_ambiguous(&found) {
            self.repository.warn_ambiguous(marked(self.text))?;
        }
        Ok(found)
    }

    /// Returns the commit whose message contains a text.
    fn searched(&mut self, regex: &[u8], negated: bool) -> Result<ObjectId, Refusal> {
        self.settle()?;
        self.repository.searched(self.at, regex, negated)
    }

    /// Returns why a form of revisions is not supported.
    fn unsupported(&mut self) -> Refusal {
        match self.settle() {
            Ok(()) => Refusal::NotSupported(Unsupported::Form),
            Err(refusal) => refusal,
        }
    }
}

impl<F: Folders + Drop, A: Allocator + Copy> Listener for Lookup<'_, '_, F, A> {
    ghost step = { λ before call answer after. Unit {0} };
}

impl<F: Folders + Drop, A: Allocator + Copy> Revision for Lookup<'_, '_, F, A> {
    fn find_ref(&mut self, name: &[u8]) -> Result<(), Exn> {
        match name.to_vec(self.repository.alloc) {
            Ok(name) => {
                self.name = Some(name);
                Ok(())
            }
            Err(_) => self.answer(Err(Refusal::OutOfMemory)),
        }
    }

    /// Refuses each prefix: the whole name is looked up first, as in git.
    fn disambiguate_prefix(
        &mut self,
        prefix: Prefix,
        hint: Option<PrefixHint<'_>>,
    ) -> Result<(), Exn> {
        Err(Exn::new(self.repository.refusals, "a name comes first"))
    }

    fn reflog(&mut self, query: ReflogLookup) -> Result<(), Exn> {
        let found = self.logged(query);
        self.answer(found)
    }

    fn nth_checked_out_branch(&mut self, branch_no: usize) -> Result<(), Exn> {
        let found = self.repository.checked_out_before(branch_no);
        self.begin(found)
    }

    fn sibling_branch(&mut self, kind: SiblingBranch) -> Result<(), Exn> {
        let found = self.warned_sibling(kind);
        self.begin(found)
    }
}

impl<F: Folders + Drop, A: Allocator + Copy> Kind for Lookup<'_, '_, F, A> {
    /// Refuses each kind: a single revision has none, and the ends of ranges are read separately.
    fn kind(&mut self, kind: spec::Kind) -> Result<(), Exn> {
        let refusal = self.unsupported();
        self.answer(Err(refusal))
    }
}

impl<F: Folders + Drop, A: Allocator + Copy> Navigate for Lookup<'_, '_, F, A> {
    fn traverse(&mut self, kind: Traversal) -> Result<(), Exn> {
        let found = self.stepped(kind);
        self.reference = None;
        self.answer(found)
    }

    fn peel_until(&mut self, kind: PeelTo<'_>) -> Result<(), Exn> {
        let found = self.peeled(kind);
        self.reference = None;
        self.answer(found)
    }

    fn find(&mut self, regex: &[u8], negated: bool) -> Result<(), Exn> {
        let found = self.searched(regex, negated);
        self.reference = None;
        self.answer(found)
    }

    fn index_lookup(&mut self, path: &[u8], stage: u8) -> Result<(), Exn> {
        self.answer(Err(Refusal::NotSupported(Unsupported::Path)))
    }
}

impl<F: Folders + Drop, A: Allocator + Copy> Delegate for Lookup<'_, '_, F, A> {
    fn done(&mut self) -> Result<(), Exn> {
        self.end()
    }
}

/// Parses a text, and returns whether that succeeded.
fn is_parsed<D: Delegate, A: Allocator + Copy>(
    alloc: A,
    text: &[u8],
    now: Time,
    delegate: &mut D,
) -> bool {
    parse(alloc, text, now, delegate).is_ok()
}

/// Parses a text for a look-up, and returns whether that succeeded.
fn is_looked_up<F: Folders + Drop, A: Allocator + Copy>(
    alloc: A,
    text: &[u8],
    now: Time,
    lookup: &mut Lookup<'_, '_, F, A>,
) -> bool {
    is_parsed(alloc, text, now, lookup)
}

/// Returns whether a text has `@{`.
fn has_braces(text: &[u8]) -> bool {
    text.windows(2).any(|two| two == b"@{".as_slice())
}

/// Returns whether a mark follows another one, as in `@{-1}@{u}`. git reads more of these than the
/// parser.
fn has_two_marks(text: &[u8]) -> bool {
    text.windows(3).any(|three| three == b"}@{".as_slice())
}

/// Returns whether a step follows an `@` that ends a name, as in `x@^`. To git it is part of the
/// name, and the parser does not read it.
fn has_bare_at(text: &[u8]) -> bool {
    let behind = text.get(1..).unwrap_or(&[]);
    behind
        .windows(2)
        .any(|two| matches!(two, [b'@', b'^' | b'~']))
}

/// What came of a look-up.
#[derive(Drop)]
struct Outcome<A: Allocator> {
    parsed: bool,
    at: Option<ObjectId>,
    reference: Option<NamedReference<A>>,
    refusal: Option<Refusal>,
}

/// Returns what the digits with which a text begins mean, by what stands behind them.
fn wanted_by(text: &[u8]) -> Wanted {
    let Some(at) = memchr3(b'~', b'^', b':', text) else {
        return Wanted::Any;
    };
    let rest = text.get(at..).unwrap_or(&[]);
    if rest.starts_with(b":") || rest.starts_with(b"^{tree}") {
        return Wanted::Treeish;
    }
    if rest.starts_with(b"^{") && !rest.starts_with(b"^{commit}") && !rest.starts_with(b"^{/") {
        return Wanted::Any;
    }
    Wanted::Committish
}

impl<F: Folders + Drop, A: Allocator + Copy> Repository<F, A> {
    /// Returns the parent of a commit with a number, from 1 on.
    fn parent(&mut self, commit: ObjectId, number: usize) -> Result<ObjectId, Refusal> {
        let entry = self.entry(commit)?;
        match entry.parents.get(number.saturating_sub(1)) {
            Some(parent) => Ok(*parent),
            None => Err(Refusal::Unknown),
        }
    }

    /// Returns the commit to which a step leads. Only the commits on the way are read.
    pub(crate) fn stepped(
        &mut self,
        commit: ObjectId,
        kind: Traversal,
    ) -> Result<ObjectId, Refusal> {
        match kind {
            Traversal::NthParent(0) => Ok(commit),
            Traversal::NthParent(number) => self.parent(commit, number),
            Traversal::NthAncestor(number) => {
                let mut at = commit;
                for _ in 0..number {
                    at = self.parent(at, 1)?;
                }
                Ok(at)
            }
        }
    }

    /// Fails if an object is damaged, or is a commit or a tag and is malformed.
    pub(crate) fn expect_sound(&mut self, id: ObjectId, kind: object::Kind) -> Result<(), Refusal> {
        match kind {
            object::Kind::Commit => self.check(id),
            object::Kind::Tag => {
                self.tag(id)?;
                Ok(())
            }
            object::Kind::Tree | object::Kind::Blob => {
                self.read_object(id)?;
                Ok(())
            }
        }
    }

    /// Returns the object of a kind to which an object leads: through tags, and from a commit to
    /// its tree. Tags and commits on the way have to be well formed.
    pub(crate) fn peeled_to(
        &mut self,
        id: ObjectId,
        kind: object::Kind,
    ) -> Result<ObjectId, Refusal> {
        let (id, found) = if kind == object::Kind::Tag {
            (id, self.kind(id)?)
        } else {
            self.peeled(id)?
        };
        self.expect_sound(id, found)?;
        match found {
            found if found == kind => Ok(id),
            object::Kind::Commit if kind == object::Kind::Tree => self.tree(id),
            _ => Err(Refusal::Unknown),
        }
    }

    /// Returns the object that a single revision names (gitrevisions, "Specifying Revisions").
    ///
    /// # Errors
    ///
    /// - `Unknown` if it names nothing, and `Ambiguous` if its digits are those of several objects.
    /// - `Fatal` for what a branch or a reflog lacks. The message is among the messages.
    /// - `NotSupported` for a path, a range, and a search by a regular expression.
    /// - `Commit`, `Object` or `Reference` if something was not read that the answer needs.
    /// - `OutOfMemory` if an allocation failed.
    pub fn object(&mut self, text: &[u8]) -> Result<ObjectId, Refusal> {
        self.object_as(text, wanted_by(text))
    }

    /// Returns the object that a single revision names, whose digits mean a commit.
    ///
    /// # Errors
    ///
    /// Those of [`Repository::object`].
    pub fn committish(&mut self, text: &[u8]) -> Result<ObjectId, Refusal> {
        self.object_as(text, Wanted::Committish)
    }

    /// Returns the full name of the reference that a text names, at the end of symbolic references;
    /// `None` if it names an object otherwise (git-rev-parse, "--symbolic-full-name").
    ///
    /// It adds no message: [`Repository::object`] has added those about the text.
    ///
    /// # Errors
    ///
    /// - `Ambiguous` if several rules read the name, unless `core.warnAmbiguousRefs` is unset. git
    ///   prints no name then.
    /// - Those of [`Repository::object`].
    pub fn reference_of(&mut self, text: &[u8]) -> Result<Option<Vec<u8, A>>, Refusal> {
        let was_silent = self.is_silent;
        self.is_silent = true;
        let found = self.reference_unwarned(text);
        self.is_silent = was_silent;
        match found? {
            Some((_, target)) => Ok(Some(target)),
            None => Ok(None),
        }
    }

    /// Returns the object and the full name of the reference that a text names, at the end of
    /// symbolic references; `None` if it names an object otherwise. Adds no warnings.
    ///
    /// # Errors
    ///
    /// Those of [`Repository::reference_of`].
    pub(crate) fn reference_unwarned(
        &mut self,
        text: &[u8],
    ) -> Result<Option<(ObjectId, Vec<u8, A>)>, Refusal> {
        let warns = self.warns;
        self.warns = false;
        let found = self.read(text, Wanted::Any);
        self.warns = warns;
        match found {
            Ok((_, Some(reference))) if reference.is_ambiguous && warns => Err(Refusal::Ambiguous),
            Ok((id, Some(reference))) => Ok(Some((id, reference.target))),
            // Digits name no reference, whether they are ambiguous or not.
            Ok((_, None)) | Err(Refusal::Ambiguous) => Ok(None),
            Err(refusal) => Err(refusal),
        }
    }

    /// Returns the object that a single revision names.
    fn object_as(&mut self, text: &[u8], wanted: Wanted) -> Result<ObjectId, Refusal> {
        let (id, _) = self.read(text, wanted)?;
        Ok(id)
    }

    /// Returns the object that a single revision names, and the names of the reference if it is
    /// one.
    fn read(
        &mut self,
        text: &[u8],
        wanted: Wanted,
    ) -> Result<(ObjectId, Option<NamedReference<A>>), Refusal> {
        if has_bare_at(text) || has_two_marks(text) {
            return Err(Refusal::NotSupported(Unsupported::Form));
        }
        let Outcome {
            parsed,
            at,
            reference,
            refusal,
        } = self.looked_up(text, wanted);
        match (refusal, at) {
            (Some(refusal), _) => Err(refusal),
            (None, Some(id)) if parsed => Ok((id, reference)),
            // git reads more than the grammar.
            _ if has_braces(text) => Err(Refusal::NotSupported(Unsupported::Date)),
            _ => Err(Refusal::Unknown),
        }
    }

    /// Parses a single revision, and looks up what it names.
    fn looked_up(&mut self, text: &[u8], wanted: Wanted) -> Outcome<A> {
        let (alloc, now) = (self.alloc, self.now);
        let mut lookup = Lookup {
            repository: self,
            text,
            wanted,
            name: None,
            at: None,
            reference: None,
            refusal: None,
        };
        let is_parsed = is_looked_up(alloc, text, now, &mut lookup);
        // The name may still wait if the rest of the text was refused.
        let is_settled = lookup.end().is_ok();
        let Lookup {
            repository: _,
            text: _,
            wanted: _,
            name: _,
            at,
            reference,
            refusal,
        } = lookup;
        Outcome {
            parsed: is_parsed && is_settled,
            at,
            reference,
            refusal,
        }
    }
}
