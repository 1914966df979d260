//! Graphs whose values are numbers, such as the marks of `describe`.

ghost use Rattle.std.specs.Prelude.{◌≡◌, ◌+◌, IfOk, IfErr, OnOk, OnErr, Some};
ghost use Rattle.std.specs.Prelude.{is_some, if◌then◌else◌};
ghost use Rattle.std.specs.Option.{option_copied_mut, option_map};
ghost use Rattle.std.specs.Borrow.{sem};
ghost use Rattle.gix_base.specs.declared.hash.ObjectId.{ObjectId};
ghost use Rattle.gix_revwalk.specs.Faults.{count_after, is_source_fault};
ghost use Rattle.gix_revwalk.specs.History.{same_id};
ghost use Rattle.gix_revwalk.specs.Graph.{held_at, held_len};
ghost use Rattle.gix_revwalk.specs.Followed.{timed, followed_at};
ghost use Rattle.gix_revwalk.specs.declared.graph.Error.TheVariants.{OutOfMemory};

use crate::graph::{Error, Find, Graph, Held};
use crate::numbers;
use gix_base::hash::ObjectId;
use std::alloc::Allocator;

impl Held for u32 {
    ghost agrees = { λ _ _. Unit {0} };
}

impl<S: Find, A: Allocator + Copy> Graph<S, u32, A> {
    ghost use Rattle.gix_revwalk.specs.MarkLends.{lends_mark};

    /// Holds `id` with `value`, whether or not the source has it, and returns its old value.
    ///
    /// The answer is `None` if `id` was not held.
    ///
    /// # Errors
    ///
    /// Only [`Error::OutOfMemory`]: an allocation failed. The graph is then unchanged.
    pub fn insert(&mut self, id: ObjectId, value: u32) -> Result<Option<u32>, Error>
        // The source is unchanged, also after an error.
        ensures source { self.new.source ≡ self.old.source }

        // The answer is the value of the id before the call. The answer is `None` exactly if the id
        // was not held.
        ensures old { IfOk result (λ old. old ≡ held_at self.old id) }

        // After a success the id is held with `value`. Every other id has the value that it had, or
        // is not held, as before.
        ensures put { OnOk result ((q : ObjectId)
            → held_at self.new q ≡ (if same_id id q then Some value else held_at self.old q)) }

        // The number of held ids is one more if the answer is `None`. After another answer the
        // number is unchanged.
        ensures len { IfOk result
            (λ old. held_len self.new ≡ held_len self.old + (if is_some old then 0 else 1)) }

        // After an error the graph is unchanged.
        ensures refused { OnErr result (self.new ≡ self.old) }

        // The only error is `OutOfMemory`.
        ensures cause { IfErr result (λ e. e ≡ OutOfMemory) }
    {
        if let Some(number) = numbers::number_of(self, &id) {
            return Ok(Some(numbers::put(self, number, value)));
        }
        match numbers::add(self, id, value) {
            Ok(_) => Ok(None),
            Err(_) => Err(Error::OutOfMemory),
        }
    }

    /// Lends the value of `id`; `None` if `id` is not held.
    pub fn get_mut(&mut self, id: &ObjectId) -> Option<&mut u32>
        // What is written through the answer becomes the value of the id. The source and the other
        // ids with their values are unchanged. After `None` the graph is unchanged.
        ensures* writes_back { sem 𝓛
            (lends_mark S.row A.row S.Find A.Allocator self.entry id.now result) }

        // The answer is the value of the id. The answer is `None` exactly if the id is not held.
        ensures value { option_copied_mut result ≡ held_at self.old id.now }
    {
        let Some(number) = numbers::number_of(self, id) else {
            return None;
        };
        let node = &mut self.nodes[number.place()];
        Some(&mut node.value)
    }

    /// Returns those of `parents` that the source has, with their times.
    fn with_times(
        &mut self,
        alloc: A,
        parents: &[ObjectId],
    ) -> Result<Vec<(ObjectId, i64), A>, Error>
        ensures held { self.new.held ≡ self.old.held }
        ensures history { S.history self.new.source ≡ S.history self.old.source }
        ensures timed { IfOk result
            (λ v. v.items ≡ timed (S.history self.old.source) parents.now) }
        ensures count { S.fault_count self.new.source
            ≡ count_after (is_source_fault result) (S.fault_count self.old.source) }
    {
        let mut all = Vec::new(alloc);
        for parent in parents {
            if let Some(found) = self.ask(alloc, *parent)? {
                all.push((*parent, found.time))?;
            }
        }
        Ok(all)
    }

    /// Returns those parents of a commit that are followed and that the source has, with their
    /// times.
    ///
    /// They are in order, and the times are in seconds. The answer is `None` if the source does not
    /// have the commit.
    ///
    /// With `first_parent` only the first parent is followed (git-describe, "--first-parent"). If
    /// the source does not have that one, no parent is followed. No id becomes held.
    ///
    /// # Errors
    ///
    /// - [`Error::Source`]: the source failed. Its [fault count](crate#fault-count) has grown by
    ///   one, or is `u64::MAX`.
    /// - [`Error::OutOfMemory`]: an allocation failed.
    ///
    /// The graph holds what it held.
    pub fn followed_parents(
        &mut self,
        alloc: A,
        id: ObjectId,
        first_parent: bool,
    ) -> Result<Option<Vec<(ObjectId, i64), A>>, Error>
        // The same ids are held, in the same order and with the same values, also after an error.
        ensures held { self.new.held ≡ self.old.held }

        // The history is unchanged, also after an error.
        ensures history { S.history self.new.source ≡ S.history self.old.source }

        // The answer is those parents of the commit that are followed and that the history has, in
        // order, with their times. If `first_parent`, only the first parent is followed. The answer
        // is `None` exactly if the history does not have the commit.
        ensures parents { IfOk result (λ found. option_map (λ v. v.items) found
            ≡ followed_at first_parent (S.history self.old.source) id) }

        // After the error `Source` the fault count is one more, or stays at the greatest `u64`.
        // Otherwise the count is unchanged.
        ensures count { S.fault_count self.new.source
            ≡ count_after (is_source_fault result) (S.fault_count self.old.source) }
    {
        let Some(found) = self.ask(alloc, id)? else {
            return Ok(None);
        };
        let mut parents = found.parents;
        if first_parent {
            parents.truncate(1);
        }
        Ok(Some(self.with_times(alloc, &parents)?))
    }
}
