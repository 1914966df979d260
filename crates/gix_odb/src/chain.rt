//! Makes objects of their chains of deltas (gitformat-pack, "Deltified representation").

use crate::cache::Cache;
use crate::error::{Damage, Feature};
use crate::failure::Fault;
use crate::index::Index;
use crate::source::Source;
use crate::stream::inflated;
use crate::windows::Windows;
use gix_base::object::Kind;
use gix_files::Opened;
use gix_pack::delta::{ApplyError, apply};
use gix_pack::entry::{self, Body as Form, Entry};
use std::alloc::Allocator;

/// An open pack, with the number under which its objects are kept.
#[derive(Drop)]
pub(crate) struct Body<O: Opened, A: Allocator + Copy> {
    source: Source<O>,
    windows: Windows<A>,
    number: u64,
}

impl<O: Opened, A: Allocator + Copy> Body<O, A> {
    /// Returns an open pack.
    pub(crate) fn new(alloc: A, source: Source<O>, number: u64) -> Body<O, A> {
        Body {
            source,
            windows: Windows::new(alloc),
            number,
        }
    }

    /// Reads the header of the object that begins at an offset.
    fn entry(&mut self, alloc: A, at: u64) -> Result<Entry, Fault> {
        match entry::header(self.windows.show(alloc, &self.source, at)?) {
            Some(entry) => Ok(entry),
            None => Err(self.source.damaged(at, Damage::Header)),
        }
    }

    /// Inflates what a link says.
    fn inflated(&mut self, alloc: A, link: Link, limit: usize) -> Result<Vec<u8, A>, Fault> {
        if link.size > limit as u64 {
            return Err(self.source.unsupported(Feature::LargeObject));
        }
        let shown = self.windows.show(alloc, &self.source, link.start)?;
        inflated(alloc, &self.source, link.start, shown, link.size as usize)
    }
}

/// One object of a chain: where it begins, where its stream does, and the size of the content.
#[derive(Clone, Copy)]
struct Link {
    at: u64,
    start: u64,
    size: u64,
}

/// Makes objects, and keeps those that it made last.
#[derive(Drop)]
pub(crate) struct Chains<A: Allocator + Copy> {
    cache: Cache<A>,
    links: Vec<Link, A>,
    limit: usize,
    last_number: u64,
}

/// Returns where the base of a delta begins.
fn base_of<O: Opened, A: Allocator + Copy>(
    alloc: A,
    index: &mut Index<O, A>,
    body: &Body<O, A>,
    at: u64,
    form: Form,
) -> Result<u64, Fault> {
    let base = match form {
        Form::OffsetDelta(distance) => entry::base_offset(at, distance),
        Form::IdDelta(id) => index.find(alloc, id)?,
        Form::Whole(_) => None,
    };
    match base {
        Some(base) => Ok(base),
        None => Err(body.source.damaged(at, Damage::Base)),
    }
}

impl<A: Allocator + Copy> Chains<A> {
    /// Returns a maker of objects that have at most `limit` bytes.
    pub(crate) fn new(alloc: A, limit: usize) -> Chains<A> {
        Chains {
            cache: Cache::new(alloc),
            links: Vec::new(alloc),
            limit,
            last_number: 0,
        }
    }

    /// Sets the limit.
    pub(crate) fn set_limit(&mut self, limit: usize) {
        self.limit = limit;
    }

    /// Returns the limit.
    pub(crate) fn limit(&self) -> usize {
        self.limit
    }

    /// Returns a number that it has not returned before.
    pub(crate) fn next_number(&mut self) -> u64 {
        self.last_number = self.last_number.wrapping_add(1);
        self.last_number
    }

    /// Follows a chain from an object down to one that is whole or kept, and returns that one.
    ///
    /// Puts the links on the way into `links`, the first first.
    fn descend<O: Opened>(
        &mut self,
        alloc: A,
        index: &mut Index<O, A>,
        body: &mut Body<O, A>,
        at: u64,
    ) -> Result<(Kind, Vec<u8, A>), Fault> {
        self.links.clear();
        let mut at = at;
        for _ in 0..=index.count() {
            if let Some(kept) = self.cache.get(alloc, body.number, at)? {
                return Ok(kept);
            }
            let entry = body.entry(alloc, at)?;
            let link = Link {
                at,
                start: at.saturating_add(entry.len as u64),
                size: entry.size,
            };
            if let Form::Whole(kind) = entry.body {
                return self.whole(alloc, body, kind, link);
            }
            self.links.push(link)?;
            at = base_of(alloc, index, body, at, entry.body)?;
        }
        Err(body.source.damaged(at, Damage::Circle))
    }

    /// Inflates and keeps an object that is whole.
    fn whole<O: Opened>(
        &mut self,
        alloc: A,
        body: &mut Body<O, A>,
        kind: Kind,
        link: Link,
    ) -> Result<(Kind, Vec<u8, A>), Fault> {
        let content = body.inflated(alloc, link, self.limit)?;
        self.cache.put(alloc, body.number, link.at, kind, &content)?;
        Ok((kind, content))
    }

    /// Inflates the delta of a link, and applies it to the base.
    fn target<O: Opened>(
        &mut self,
        alloc: A,
        body: &mut Body<O, A>,
        kind: Kind,
        base: &[u8],
        link: Link,
    ) -> Result<Vec<u8, A>, Fault> {
        let delta = body.inflated(alloc, link, self.limit)?;
        match apply(alloc, base, &delta, self.limit) {
            Ok(target) => {
                self.cache.put(alloc, body.number, link.at, kind, &target)?;
                Ok(target)
            }
            Err(ApplyError::OutOfMemory) => Err(Fault::OutOfMemory),
            Err(ApplyError::TooLarge) => Err(body.source.unsupported(Feature::LargeObject)),
            Err(_) => Err(body.source.damaged(link.at, Damage::Delta)),
        }
    }

    /// Returns the kind and the content of the object that begins at an offset.
    pub(crate) fn content<O: Opened>(
        &mut self,
        alloc: A,
        index: &mut Index<O, A>,
        body: &mut Body<O, A>,
        at: u64,
    ) -> Result<(Kind, Vec<u8, A>), Fault> {
        let (kind, mut content) = self.descend(alloc, index, body, at)?;
        for _ in 0..self.links.len() {
            let Some(link) = self.links.pop() else {
                break;
            };
            content = self.target(alloc, body, kind, &content, link)?;
        }
        Ok((kind, content))
    }

    /// Returns the kind of the object that begins at an offset: the one that the header at the end of
    /// its chain says.
    pub(crate) fn kind<O: Opened>(
        &self,
        alloc: A,
        index: &mut Index<O, A>,
        body: &mut Body<O, A>,
        at: u64,
    ) -> Result<Kind, Fault> {
        let mut at = at;
        for _ in 0..=index.count() {
            if let Some(kind) = self.cache.kind(body.number, at) {
                return Ok(kind);
            }
            let entry = body.entry(alloc, at)?;
            if let Form::Whole(kind) = entry.body {
                return Ok(kind);
            }
            at = base_of(alloc, index, body, at, entry.body)?;
        }
        Err(body.source.damaged(at, Damage::Circle))
    }
}
