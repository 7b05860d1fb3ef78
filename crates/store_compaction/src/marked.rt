//! The data kept for the next journal while its zone text is written (own).
ghost use Rattle.std.specs.Prelude.{◌≡◌, ◌<◌, ◌≤◌, ℕ, List, [], ◌∷◌, ◌++◌, length, map, All, IfOk, OnOk, OnErr, string_bytes};
ghost use Rattle.journal.specs.Batch.{Messages, batch_of, IsRequest};
ghost use Rattle.journal.specs.Frame.{body_limit};
ghost use Rattle.journal.specs.Recovered.{updates_in};
ghost use Rattle.store_recovery.specs.Created.{IsCreated};
ghost use Rattle.store_compaction.specs.Marked.{bodies_of, number_of, IsMarked, IsNextJournal};

use crate::body::Body;
use crate::next::{NextJournal, NextText};
use journal::{Head, write_frame, write_head};
use std::alloc::{AllocError, Global};
use store_recovery::create_store;

/// The data kept for the journal of the next zone text while that text is written: the number of the text, and the batches after its version, with those appended meanwhile.
pub struct Compaction {
    pub(crate) number: u64,
    pub(crate) bodies: Vec<Body>,
}

impl Drop for Compaction {
    fn drop(self) {
        let Compaction {
            number: _,
            bodies: _,
        } = self;
    }
}

impl Compaction {
    /// A compaction for the text with a number, with these batches.
    pub(crate) fn of(number: u64, bodies: Vec<Body>) -> Compaction
        ensures number { number_of result ≡ number }
        ensures bodies { bodies_of result ≡ map (λ body. body.octets.items) bodies.items }
    {
        Compaction { number, bodies }
    }

    /// Adds a batch that is appended to the store's journal. Allocates memory. If there is none, it keeps what it had and is of no use, so another compaction is started.
    pub fn follow(&mut self, alloc: Global, body: &[u8]) -> Result<(), AllocError>
        requires { length body.now < body_limit }
        ensures followed { OnOk result (bodies_of self.new ≡ bodies_of self.old ++ body.now ∷ []) }
        ensures same { OnErr result (bodies_of self.new ≡ bodies_of self.old) }
        ensures marked { OnOk result ((k : ℕ) (batches : List (List Messages)) (batch : List Messages) → IsMarked k batches self.old
            → k ≤ length (updates_in batches) → All IsRequest batch → body.now ≡ batch_of batch → IsMarked k (batches ++ batch ∷ []) self.new) }
        ensures number { number_of self.new ≡ number_of self.old }
    {
        let octets = body.to_vec(alloc)?;
        self.bodies.push(Body { octets })?;
        Ok(())
    }

    /// The journal of its batches under a head. Their frames are numbered from 0 and have that head's salt. Allocates memory.
    pub fn journal(&self, alloc: Global, head: &Head) -> Result<NextJournal, AllocError>
        ensures { IfOk result (λ next. IsNextJournal head.now (bodies_of self.now) next) }
    {
        let (mut octets, salt) = write_head(alloc, head)?;
        for (number, body) in self.bodies.iter().enumerate() {
            let frame = write_frame(alloc, &salt, number as u64, &body.octets)?;
            octets.extend_from_slice(&frame)?;
        }
        Ok(NextJournal {
            octets,
            salt,
            number: self.bodies.len() as u64,
        })
    }
}

/// The next zone text of a store with this head, and the head of its journal, with random bytes that nobody outside knows. The sum of the original text is kept. Allocates memory
/// and needs nothing else, so a thread of its own runs it while updates continue.
pub fn next_text(
    alloc: Global,
    next: &NextText,
    before: &Head,
    random: [u8; 16],
) -> Result<(String, Head), AllocError>
    ensures { IfOk result (λ r. IsCreated next.now.version.zone next.now.number random before.now.origin (string_bytes r.0) r.1) }
{
    let zone = next.version.get().zone();
    create_store(alloc, zone, next.number, random, before.origin)
}
