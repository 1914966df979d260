//! Searches the messages of commits (gitrevisions, `<rev>^{/<text>}`, `:/<text>`).
//!
//! Only texts without signs that have a meaning in regular expressions are supported.

use crate::error::{Refusal, Unsupported};
use crate::repository::Repository;
use gix_base::hash::ObjectId;
use gix_files::Folders;
use memchr::memmem;
use std::alloc::Allocator;
use std::collections::{BinaryHeap, HashMap};

/// A commit that was met and not searched. The newest is the greatest, and of those with the same
/// date the one that was met first.
#[derive(Clone, Copy, PartialEq, Eq, PartialOrd, Ord)]
struct Waiting {
    time: i64,
    before: u64,
    id: ObjectId,
}

/// Returns whether a text means itself as a regular expression.
fn is_plain(text: &[u8]) -> bool {
    text.iter().all(|b| b.is_ascii_alphanumeric()
        || b" _-,:;/'\"#%&=<>~@".contains(b)
        || !b.is_ascii())
}

/// Returns the message of a commit's content; `None` if no empty line ends the headers. As in git,
/// the content ends at its first zero byte.
fn message_of(content: &[u8]) -> Option<&[u8]> {
    let text = content.split(|b| *b == 0).next().unwrap_or(&[]);
    let at = memmem::find(text, b"\n\n")?;
    text.get(at.saturating_add(2)..)
}

/// Returns whether a text contains another one.
fn contains(text: &[u8], part: &[u8]) -> bool {
    memmem::find(text, part).is_some()
}

impl<F: Folders + Drop, A: Allocator + Copy> Repository<F, A> {
    /// Returns the commits to which HEAD and all references lead: HEAD first, and then the names from
    /// the last one to the first, as git searches those with the same date.
    fn all_tips(&mut self) -> Result<Vec<ObjectId, A>, Refusal> {
        let listing = self.list_references(b"refs/")?;
        let mut tips = Vec::new(self.alloc);
        for listed in listing.references.iter() {
            if let Some(commit) = self.commit_of_reference(listed.id)? {
                tips.push(commit)?;
            }
        }
        if let Some(head) = self.references.follow(b"HEAD")? {
            if let Some(commit) = self.commit_of_reference(head.id)? {
                tips.push(commit)?;
            }
        }
        tips.reverse();
        Ok(tips)
    }

    /// Returns whether the message of a commit contains a text. A commit without a message contains
    /// none.
    fn says(&mut self, id: ObjectId, text: &[u8]) -> Result<bool, Refusal> {
        let object = self.read_object(id)?;
        Ok(message_of(&object.content).is_some_and(|message| contains(message, text)))
    }

    /// Adds those of some commits that were not met before to the ones that wait.
    fn wait_for(
        &mut self,
        ids: &[ObjectId],
        met: &mut HashMap<ObjectId, (), gix_revwalk::Seed, A>,
        waiting: &mut BinaryHeap<Waiting, A>,
    ) -> Result<(), Refusal> {
        for id in ids {
            if !met.contains_key(id) {
                let time = self.entry(*id)?.time;
                let before = u64::MAX.saturating_sub(met.len() as u64);
                met.insert(*id, ())?;
                waiting.push(Waiting {
                    time,
                    before,
                    id: *id,
                })?;
            }
        }
        Ok(())
    }

    /// Returns the first commit, from the newest on, whose message contains a text, or does not if
    /// `negated`.
    fn searched_from(
        &mut self,
        tips: &[ObjectId],
        text: &[u8],
        negated: bool,
    ) -> Result<ObjectId, Refusal> {
        let mut met = HashMap::with_hasher(self.alloc, self.seed);
        let mut waiting = BinaryHeap::new(self.alloc);
        self.wait_for(tips, &mut met, &mut waiting)?;
        for _ in 0..u64::MAX {
            let Some(next) = waiting.pop() else {
                break;
            };
            if self.says(next.id, text)? != negated {
                return Ok(next.id);
            }
            let parents = self.entry(next.id)?.parents;
            self.wait_for(&parents, &mut met, &mut waiting)?;
        }
        Err(Refusal::Unknown)
    }

    /// Returns the youngest commit whose message contains a text, or does not if `negated`: of
    /// those that an object reaches, or else of those that references reach.
    ///
    /// # Errors
    ///
    /// - `NotSupported` if a byte of the text has a meaning in regular expressions.
    /// - `Unknown` if there is no such commit.
    pub(crate) fn searched(
        &mut self,
        from: Option<ObjectId>,
        text: &[u8],
        negated: bool,
    ) -> Result<ObjectId, Refusal> {
        if !is_plain(text) {
            return Err(Refusal::NotSupported(Unsupported::Regex));
        }
        let Some(id) = from else {
            let tips = self.all_tips()?;
            return self.searched_from(&tips, text, negated);
        };
        match self.commit(id)? {
            Some(commit) => self.searched_from(&[commit], text, negated),
            None => Err(Refusal::Unknown),
        }
    }
}
