//! Lists the objects that ambiguous digits may mean, as git does in a hint.

use crate::dates::{offset_of, push_date};
use crate::error::{Refusal, Unsupported};
use crate::names::Wanted;
use crate::repository::Repository;
use gix_base::hash::{ObjectId, Prefix};
use gix_base::object::Kind;
use gix_files::Folders;
use gix_odb::Object;
use memchr::memmem;
use std::alloc::Allocator;

/// How many objects are listed at most.
const MOST_LISTED: usize = 1024;

/// Returns the place of a kind in git's list: tags, commits, trees, blobs.
fn rank(kind: Kind) -> u8 {
    match kind {
        Kind::Tag => 0,
        Kind::Commit => 1,
        Kind::Tree => 2,
        Kind::Blob => 3,
    }
}

/// Returns the line that begins with a word; `None` if the header of a commit has none.
fn header_line<'t>(content: &'t [u8], word: &[u8]) -> Option<&'t [u8]> {
    for line in content.split(|b| *b == b'\n') {
        if line.is_empty() {
            return None;
        }
        if let Some(rest) = line.strip_prefix(word) {
            return Some(rest);
        }
    }
    None
}

/// Returns a number in decimal digits, with an optional sign.
fn number(text: &[u8]) -> Option<i64> {
    let Ok(text) = str::from_utf8(text) else {
        return None;
    };
    text.parse::<i64>().ok()
}

/// Returns the seconds and the offset at the end of the line of an author.
fn moment(line: &[u8]) -> Option<(i64, i64)> {
    let mut fields = line.rsplit(|b| *b == b' ');
    let zone = fields.next()?;
    let seconds = fields.next()?;
    Some((number(seconds)?, offset_of(number(zone)?)?))
}

/// Adds the subject of a commit: the first paragraph of its message, on one line.
fn push_subject<A: Allocator>(to: &mut Vec<u8, A>, content: &[u8]) -> Result<(), Refusal> {
    let Some(begin) = memmem::find(content, b"\n\n") else {
        return Ok(());
    };
    let message = content.get(begin.saturating_add(2)..).unwrap_or(&[]);
    let mut is_first = true;
    for line in message.split(|b| *b == b'\n') {
        let line = line.trim_ascii_end();
        if line.is_empty() && is_first {
            continue;
        }
        if line.is_empty() {
            break;
        }
        if !is_first {
            to.push(b' ')?;
        }
        to.extend_from_slice(line)?;
        is_first = false;
    }
    Ok(())
}

impl<F: Folders + Drop, A: Allocator + Copy> Repository<F, A> {
    /// Adds what the hint says of an object behind its digits.
    fn push_object(
        &mut self,
        to: &mut Vec<u8, A>,
        id: ObjectId,
        object: &Object<A>,
    ) -> Result<(), Refusal> {
        match object.kind {
            Kind::Tree => to.extend_from_slice(b" tree")?,
            Kind::Blob => to.extend_from_slice(b" blob")?,
            Kind::Tag => match self.tag(id) {
                Ok(tag) => {
                    to.extend_from_slice(b" tag ")?;
                    push_date(to, i64::try_from(tag.date).unwrap_or(0), 0)?;
                    to.extend_from_slice(b" - ")?;
                    to.extend_from_slice(&tag.name)?;
                }
                Err(Refusal::Object(gix_odb::Error::MalformedTag(..))) => {
                    to.extend_from_slice(b" [bad tag, could not parse it]")?;
                }
                Err(refusal) => return Err(refusal),
            },
            Kind::Commit => {
                to.extend_from_slice(b" commit ")?;
                let line = header_line(&object.content, b"author ").unwrap_or(&[]);
                let (seconds, offset) = moment(line).unwrap_or((0, 0));
                push_date(to, seconds, offset)?;
                to.extend_from_slice(b" - ")?;
                push_subject(to, &object.content)?;
            }
        }
        Ok(())
    }

    /// Returns the line of the hint about an object, and its rank.
    ///
    /// # Errors
    ///
    /// `Object` if the object is not read, also if it is missing by now. git then says more,
    /// which depends on the damage.
    fn candidate(&mut self, id: ObjectId) -> Result<(u8, Vec<u8, A>), Refusal> {
        let least = self.least_digits()?;
        let count = self.unique_digits(id, least)?;
        let mut digits = [0u8; 40];
        let written = id.write_hex(count, &mut digits);
        let mut line = digits[..written].to_vec(self.alloc)?;
        let object = match self.read_object(id) {
            Ok(object) => object,
            Err(refusal) => return Err(refusal),
        };
        self.push_object(&mut line, id, &object)?;
        Ok((rank(object.kind), line))
    }

    /// Returns the lines of the hint about some objects, in git's order.
    fn candidates(&mut self, ids: &[ObjectId]) -> Result<Vec<Vec<u8, A>, A>, Refusal> {
        let mut ranked = Vec::new(self.alloc);
        for (place, id) in ids.iter().enumerate() {
            let (rank, line) = self.candidate(*id)?;
            ranked.push((rank, place, line))?;
        }
        ranked.sort_unstable();
        let mut lines = Vec::new(self.alloc);
        for (_, _, line) in ranked {
            lines.push(line)?;
        }
        Ok(lines)
    }

    /// Says that digits are ambiguous, and which objects they may mean. If several of these are
    /// wanted, only they are listed.
    ///
    /// # Errors
    ///
    /// - `NotSupported` if there are more objects than are listed.
    /// - Those of [`Repository::candidate`].
    pub(crate) fn say_ambiguous(
        &mut self,
        prefix: Prefix,
        digits: &[u8],
        wanted: Wanted,
    ) -> Result<(), Refusal> {
        if self.is_quiet || self.is_silent {
            return Ok(());
        }
        let alloc = self.alloc;
        let store = &mut self.history.reader.store;
        let found = store.completions(alloc, prefix, MOST_LISTED.saturating_add(1))?;
        if found.len() > MOST_LISTED {
            return Err(Refusal::NotSupported(Unsupported::Candidates));
        }
        let listed = self.all_wanted(&found, wanted)?;
        let lines = self.candidates(&listed)?;
        // git writes the digits in lower case.
        let mut text = [0u8; 40];
        let written = prefix.as_oid().write_hex(digits.len(), &mut text);
        self.say(
            b"error: short object ID ",
            &text[..written],
            b" is ambiguous",
        )?;
        self.say(b"hint: The candidates are:", b"", b"")?;
        for line in lines.iter() {
            self.say(b"hint:   ", line, b"")?;
        }
        Ok(())
    }

    /// Returns those of some objects that are wanted, if there are several; else all.
    fn all_wanted(
        &mut self,
        ids: &[ObjectId],
        wanted: Wanted,
    ) -> Result<Vec<ObjectId, A>, Refusal> {
        let mut found = Vec::new(self.alloc);
        for id in ids {
            if wanted != Wanted::Any && self.is_wanted(*id, wanted)? {
                found.push(*id)?;
            }
        }
        if found.len() > 1 {
            Ok(found)
        } else {
            Ok(ids.to_vec(self.alloc)?)
        }
    }
}
