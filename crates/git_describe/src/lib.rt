//! Answers `describe` (git-describe).
//!
//! The names are those of references ([`table`]). The nearest one is that of the question `Describe`,
//! which walks in git's order ([`ask`]).
#![tactic(auto)]

mod ask;
mod asked;
mod dirty;
mod head;
mod patterns;
mod table;
mod work_tree;

use crate::ask::{Near, nearest, question};
pub use crate::asked::add_options;
use crate::asked::{Abbrev, Asked};
use crate::dirty::is_dirty;
use crate::patterns::refuse_odd;
use crate::table::{Name, Priority, Table, tag_of};
use git_revisions::ranges::revision;
use git_session::commits::commit_of;
use git_session::session::Session;
use git_session::stop::{Stop, fatal, missing, not_supported};
use gix_base::hash::ObjectId;
use gix_base::object::Kind;
use gix_questions::Describe;
use gix_repository::Refusal;
use std::alloc::Global;

/// Describes commits, one after another.
#[derive(Drop)]
struct Describer<'w> {
    asked: Asked<'w>,
    table: Table,
    /// The question with all names that are taken, once it was needed.
    question: Option<Describe<'static>>,
    /// Is printed behind each description.
    mark: &'w [u8],
}

/// Is what is known of a name once it was printed.
#[derive(Clone, Copy)]
struct Printed {
    /// Whether the annotated tag says another name.
    is_misnamed: bool,
    /// What the annotated tag leads to.
    target: Option<ObjectId>,
}

/// Ends if the words ask for what is not read, or exclude each other.
fn refuse(session: &Session<'_>, asked: &Asked<'_>) -> Result<(), Stop> {
    let alloc = session.alloc;
    if asked.long && asked.abbrev == Abbrev::Nothing {
        return Err(fatal(
            alloc,
            &[b"options '--long' and '--abbrev=0' cannot be used together"],
        ));
    }
    if asked.contains || asked.debug {
        return Err(not_supported(
            alloc,
            &[b"the options '--contains' and '--debug' are not supported"],
        ));
    }
    if asked.texts.is_empty() && asked.broken {
        return Err(not_supported(alloc, &[b"the option '--broken' is not supported"]));
    }
    refuse_odd(alloc, &asked.matched)?;
    refuse_odd(alloc, &asked.excluded)
}

/// Ends if there are no names, or if an option asks about the work tree that other words exclude.
fn refuse_names(session: &Session<'_>, asked: &Asked<'_>, table: &Table) -> Result<(), Stop> {
    let alloc = session.alloc;
    if table.is_empty() && !asked.always {
        return Err(fatal(alloc, &[b"No names found, cannot describe anything."]));
    }
    if !asked.texts.is_empty() && (asked.dirty.is_some() || asked.broken) {
        let option = if asked.dirty.is_some() {
            b"--dirty".as_slice()
        } else {
            b"--broken".as_slice()
        };
        return Err(fatal(
            alloc,
            &[
                b"option '",
                option,
                b"' and commit-ishes cannot be used together",
            ],
        ));
    }
    Ok(())
}

/// Returns git's end for a commit that has no name of its own, if only such names count.
fn unmatched(alloc: Global, commit: ObjectId) -> Stop {
    let mut text = [0u8; 40];
    let written = commit.write_hex(40, &mut text);
    fatal(
        alloc,
        &[b"no tag exactly matches '", &text[..written], b"'"],
    )
}

/// Returns how many digits of an id are printed.
fn digits(session: &mut Session<'_>, abbrev: Abbrev, id: ObjectId) -> Result<usize, Stop> {
    let least = match abbrev {
        Abbrev::Nothing => return Ok(40),
        Abbrev::Least(least) => least,
        Abbrev::Usual => session.repository.least_digits()?,
    };
    Ok(session.repository.unique_digits(id, least)?)
}

/// Prints how many commits are ahead, and digits of an id.
fn print_suffix(
    session: &mut Session<'_>,
    abbrev: Abbrev,
    depth: u32,
    id: ObjectId,
) -> Result<(), Stop> {
    let digits = digits(session, abbrev, id)?;
    session.print(b"-")?;
    session.print_number(depth as usize)?;
    session.print(b"-g")?;
    session.print_digits(id, digits)?;
    Ok(())
}

/// Returns the object that a text names, and the commit to which it leads.
fn described(session: &mut Session<'_>, text: &[u8]) -> Result<(ObjectId, ObjectId), Stop> {
    let alloc = session.alloc;
    let Some(id) = revision(session, text)? else {
        return Err(fatal(alloc, &[b"Not a valid object name ", text]));
    };
    if let Some(commit) = commit_of(session, id)? {
        return Ok((id, commit));
    }
    match session.repository.kind(id) {
        Ok(Kind::Blob) => Err(not_supported(alloc, &[b"'", text, b"': blobs are not supported"])),
        Ok(_) | Err(Refusal::Object(gix_odb::Error::Missing(_))) => {
            Err(fatal(alloc, &[text, b" is neither a commit nor blob"]))
        }
        Err(refusal) => Err(Stop::from(refusal)),
    }
}

/// Ends if a tag says another kind than that of its object. git then reads the object as that kind,
/// and fails.
fn expect_kind(
    session: &mut Session<'_>,
    tag: ObjectId,
    target: ObjectId,
    said: Kind,
) -> Result<(), Stop> {
    match session.repository.kind(target) {
        Ok(kind) if kind != said => Err(Stop::from(Refusal::TagKind(tag))),
        Ok(_) | Err(Refusal::Object(gix_odb::Error::Missing(_))) => Ok(()),
        Err(refusal) => Err(Stop::from(refusal)),
    }
}

/// Returns what an annotated tag says: its target, and its name.
fn read_tag(
    session: &mut Session<'_>,
    name: &Name,
    path: &[u8],
) -> Result<(ObjectId, Vec<u8>), Stop> {
    let Some(tag) = tag_of(session, name.id)? else {
        return Err(fatal(session.alloc, &[b"annotated tag ", path, b" not available"]));
    };
    if tag.name.contains(&0) {
        return Err(not_supported(
            session.alloc,
            &[b"a tag whose name has a zero byte is not supported"],
        ));
    }
    expect_kind(session, name.id, tag.target, tag.kind)?;
    Ok((tag.target, tag.name))
}

impl<'w> Describer<'w> {
    /// Prints the name that an annotated tag says, and warns if the reference has another one.
    fn print_annotated(&mut self, session: &mut Session<'_>, name: &Name) -> Result<Printed, Stop> {
        let path = self.table.path(name);
        let (target, said) = read_tag(session, name, path)?;
        // As in git, what stands behind `tags/` is compared.
        let own = if self.asked.all {
            path.get(5..)
        } else {
            Some(path)
        };
        let Some(own) = own else {
            return Err(not_supported(
                session.alloc,
                &[b"a tag outside of refs/tags/ is not supported"],
            ));
        };
        let is_misnamed = own != said.as_slice();
        if self.asked.all {
            session.print(b"tags/")?;
        }
        session.print(&said)?;
        if is_misnamed {
            let path = path.to_vec(session.alloc)?;
            if !self.table.check(name.object) {
                session.say(&[
                    b"warning: tag '",
                    &path,
                    b"' is externally known as '",
                    &said,
                    b"'",
                ])?;
            }
        }
        Ok(Printed {
            is_misnamed,
            target: Some(target),
        })
    }

    /// Prints a name.
    fn print_name(&mut self, session: &mut Session<'_>, name: &Name) -> Result<Printed, Stop> {
        if name.priority == Priority::Annotated {
            return self.print_annotated(session, name);
        }
        session.print(self.table.path(name))?;
        Ok(Printed {
            is_misnamed: false,
            target: None,
        })
    }

    /// Prints the name of the commit itself. `object` is what the text named.
    fn print_own(
        &mut self,
        session: &mut Session<'_>,
        name: &Name,
        object: ObjectId,
    ) -> Result<(), Stop> {
        let printed = self.print_name(session, name)?;
        if printed.is_misnamed || self.asked.long {
            let id = printed.target.unwrap_or(object);
            print_suffix(session, self.asked.abbrev, 0, id)?;
        }
        session.print_line(self.mark)?;
        Ok(())
    }

    /// Prints the name of an ancestor, and how many commits are ahead of it.
    fn print_near(
        &mut self,
        session: &mut Session<'_>,
        commit: ObjectId,
        near: Near,
    ) -> Result<(), Stop> {
        let Some(name) = self.table.name_of(near.id) else {
            return Err(missing(near.id));
        };
        let printed = self.print_name(session, &name)?;
        if printed.is_misnamed || self.asked.abbrev != Abbrev::Nothing {
            print_suffix(session, self.asked.abbrev, near.depth, commit)?;
        }
        session.print_line(self.mark)?;
        Ok(())
    }

    /// Returns the nearest name of an ancestor; `None` if there is none.
    fn nearest(
        &mut self,
        session: &mut Session<'_>,
        commit: ObjectId,
    ) -> Result<Option<Near>, Stop> {
        if !self.table.has_taken() {
            return Ok(None);
        }
        if self.question.is_none() {
            let (most, first_parent) = (self.asked.candidates, self.asked.first_parent);
            self.question = Some(question(session, &self.table, true, most, first_parent)?);
        }
        let Some(question) = self.question.as_mut() else {
            return Ok(None);
        };
        question.commit = commit;
        let near = nearest(session, question)?;
        if let Some(near) = near {
            session.repository.check(near.id)?;
        }
        Ok(near)
    }

    /// Returns git's end for a commit that has no name.
    fn undescribed(&self, session: &mut Session<'_>, commit: ObjectId) -> Result<Stop, Stop> {
        let mut text = [0u8; 40];
        let written = commit.write_hex(40, &mut text);
        let id = &text[..written];
        let mut others = question(session, &self.table, false, 1, self.asked.first_parent)?;
        others.commit = commit;
        if nearest(session, &others)?.is_some() {
            return Ok(fatal(
                session.alloc,
                &[
                    b"No annotated tags can describe '",
                    id,
                    b"'.\nHowever, there were unannotated tags: try --tags.",
                ],
            ));
        }
        Ok(fatal(
            session.alloc,
            &[
                b"No tags can describe '",
                id,
                b"'.\nTry --always, or create some tags.",
            ],
        ))
    }

    /// Prints the digits of a commit that has no name, if that was asked for.
    fn print_nameless(&self, session: &mut Session<'_>, commit: ObjectId) -> Result<(), Stop> {
        if !self.asked.always {
            return Err(self.undescribed(session, commit)?);
        }
        let digits = digits(session, self.asked.abbrev, commit)?;
        session.print_digits(commit, digits)?;
        session.print_line(self.mark)?;
        Ok(())
    }

    /// Prints a line for the commit that a text names.
    fn describe(&mut self, session: &mut Session<'_>, text: &[u8]) -> Result<(), Stop> {
        let (object, commit) = described(session, text)?;
        // The commit is read alone, and not with its ancestors.
        session.repository.entry(commit)?;
        if let Some(name) = self.table.name_of(commit) {
            return self.print_own(session, &name, object);
        }
        if self.asked.candidates == 0 {
            return Err(unmatched(session.alloc, commit));
        }
        match self.nearest(session, commit)? {
            Some(near) => self.print_near(session, commit, near),
            None => self.print_nameless(session, commit),
        }
    }

    /// Prints a line for each text, or for `HEAD` if there is none.
    fn describe_all(&mut self, session: &mut Session<'_>) -> Result<(), Stop> {
        if self.asked.texts.is_empty() {
            return self.describe(session, b"HEAD");
        }
        for place in 0..self.asked.texts.len() {
            if let Some(text) = self.asked.texts.get(place).copied() {
                self.describe(session, text)?;
            }
        }
        Ok(())
    }
}

/// Returns what is printed behind a description: the mark of a working tree that is dirty.
fn mark<'w>(session: &mut Session<'_>, asked: &Asked<'w>) -> Result<&'w [u8], Stop> {
    let Some(mark) = asked.dirty else {
        return Ok(b"");
    };
    if is_dirty(session)? {
        Ok(mark)
    } else {
        Ok(b"")
    }
}

/// Answers `describe`, and returns the status.
pub fn describe(session: &mut Session<'_>, words: &[&[u8]]) -> Result<u8, Stop> {
    let asked = Asked::read(session.alloc, words)?;
    refuse(session, &asked)?;
    let table = Table::collect(session, &asked)?;
    refuse_names(session, &asked, &table)?;
    let mark = mark(session, &asked)?;
    let mut describer = Describer {
        asked,
        table,
        question: None,
        mark,
    };
    describer.describe_all(session)?;
    Ok(0)
}
