//! The newest versions, with the updates that made them (own).
ghost use Rattle.std.specs.Prelude.{◌≡◌, ℕ, List, [], ◌∷◌, map, min, IfOk};
ghost use Rattle.dns_rdata.specs.Record.{Record};
ghost use Rattle.dns_message.specs.declared.update.Update.{Update};
ghost use Rattle.dns_engine.specs.Held.{KEPT};
ghost use Rattle.journal.specs.declared.heads.Head.{Head};
ghost use Rattle.journal.specs.Batch.{Messages, batch_of};
ghost use Rattle.store_compaction.specs.RecentUpdates.{pushed, followed};
ghost use Rattle.update_batches.specs.Batch.{updates_of};
ghost use Rattle.store_compaction.specs.Marked.{bodies_of as bodies_in, number_of, IsMarked};
ghost use Rattle.store_compaction.specs.End.{IsEndOf};

use crate::marked::Compaction;
use crate::steps::bodies_of;
use dns_engine::{KEPT, SharedVersion};
use std::alloc::{AllocError, Global};
use std::marker::Model;
use std::sync::Wait;
use update_batches::VersionUpdate;

/// The newest published versions: the last one and at most `keep` older ones, each but the oldest with the bytes of the update that made it. They are shared with the engine.
/// Where the engine keeps as many, none is held longer than it keeps them. Contracts see the oldest version, the steps after it, and how many are kept.
pub struct RecentUpdates {
    oldest: SharedVersion,
    steps: Vec<VersionUpdate>,
    keep: usize,
}

impl Drop for RecentUpdates {
    fn drop(self) {
        let RecentUpdates {
            oldest: _,
            steps: _,
            keep: _,
        } = self;
    }
}

impl Model for RecentUpdates {
    ghost use Rattle.std.specs.Prelude.{◌≤◌, ◌<◌, length};
    ghost use Rattle.std.specs.Vec.{vec_capacity};
    ghost use Rattle.dns_engine.specs.Held.{KEPT};
    ghost use Rattle.store_compaction.specs.RecentUpdates.{RecentState};

    ghost Value = { RecentState };

    ghost view = { λ a. record { oldest = a.oldest; steps = a.steps.items; keep = a.keep } };

    ghost invariant = { λ a. (length a.steps.items ≤ a.keep) × (a.keep ≤ KEPT) × (a.keep < vec_capacity a.steps) };
}

impl RecentUpdates {
    /// Starts with a single version, to keep `keep` older versions besides the last, or [`KEPT`] if that is less. Allocates memory for as many as it ever holds.
    pub fn of(
        alloc: Global,
        version: SharedVersion,
        keep: usize,
    ) -> Result<RecentUpdates, AllocError>
        ensures { IfOk result (λ recent. recent ≡ record { oldest = version; steps = []; keep = min keep KEPT }) }
    {
        let keep = keep.min(KEPT);
        Ok(RecentUpdates {
            oldest: version,
            steps: Vec::with_capacity(alloc, keep + 1)?,
            keep,
        })
    }

    /// Appends the steps of published versions. Only the newest are kept. Allocates no memory.
    pub fn follow(&mut self, steps: Vec<VersionUpdate>)
        ensures { self.new ≡ followed self.old steps.items }
    {
        for step in steps {
            self.push(step);
        }
    }

    /// Appends a step. Only the newest are kept.
    fn push(&mut self, step: VersionUpdate)
        ensures { self.new ≡ pushed self.old step }
    {
        if self.steps.push(step).is_err() {
            unreachable!()
        }
        if self.steps.len() > self.keep {
            self.oldest = self.steps.remove(0).into_version();
        }
    }

    /// Starts a compaction. Returns the oldest version, which is written as the next zone text with this number, and what is kept for the journal of that text, which at first are
    /// the updates after that version, each as a batch of its own. Allocates memory. If there is none, the recent updates are unchanged and a compaction can be started later.
    pub fn mark<R: Wait>(
        &self,
        rt: &R,
        alloc: Global,
        number: u64,
    ) -> Result<(SharedVersion, Compaction), AllocError>
        ensures oldest { IfOk result (λ r. r.0 ≡ self.now.oldest) }
        ensures number { IfOk result (λ r. number_of r.1 ≡ number) }
        ensures bodies { IfOk result (λ r. bodies_in r.1 ≡ map (λ messages. batch_of (messages ∷ [])) (updates_of self.now.steps)) }
        ensures marked { IfOk result (λ r. (text : List ℕ) (head : Head) (batches : List (List Messages)) (zone : List Record) (updates : List Update) (k : ℕ)
            → IsEndOf text head batches zone updates self.now k → IsMarked k batches r.1) }
    {
        let compaction = Compaction::of(number, bodies_of(alloc, &self.steps)?);
        Ok((self.oldest.share(rt), compaction))
    }
}
