//! What a start reads from a zone text and a journal (own).
ghost use Rattle.std.specs.Prelude.{◌≡◌, ◌+◌, ◌*◌, ◌≤◌, ℕ, List, length, map, IfOk, IfErr};
ghost use Rattle.journal.specs.declared.start.Refused.TheVariants.{BadHead, NoMemory};
ghost use Rattle.journal.specs.Batch.{Messages};
ghost use Rattle.journal.specs.Head.{salt_of};
ghost use Rattle.journal.specs.Recovered.{AreBatches, updates_in, IsRefusedBatch, IsRecovered, IsRefused};

use crate::batch::read_batch;
use crate::frame::SUM;
use crate::frames::read_all;
use crate::head_octets::read_head;
use crate::heads::{Head, HeadFault};
use crate::tails::{Tail, tail_of};
use std::alloc::{AllocError, Global};

/// What a start has read from a journal.
#[derive(Drop)]
pub struct Recovered<'a> {
    /// The journal's head.
    pub head: Head,
    /// The salt of its frames.
    pub salt: [u8; SUM],
    /// The updates of its batches, each as the messages of its request, in the order of their versions.
    pub updates: Vec<Vec<&'a [u8]>>,
    /// The number of batches, which is the number of the next frame.
    pub number: u64,
    /// The position after the last batch: how many octets of the journal are read.
    pub end: usize,
    /// Whether octets other than zeros, left by a crash, are after it.
    pub torn: bool,
}

/// Why a start refuses a zone text and a journal. The first fault is reported.
#[derive(Clone, Copy, Debug, PartialEq, Eq)]
pub enum Refused {
    /// The journal doesn't begin with a head.
    BadHead(HeadFault),
    /// The zone text isn't the one that the head names.
    OtherText,
    /// At this octet of the journal, after octets that are no frame, begins a later frame, or octets that begin as one and overlap a further mark: batches that
    /// were synced to the disk are damaged.
    Damaged(usize),
    /// The frame of this number is whole, but its body is no batch.
    NoBatch(u64),
    /// There is no memory.
    NoMemory,
}

impl From<HeadFault> for Refused {
    ghost from_gives = { λ fault refused. refused ≡ BadHead fault };

    fn from(fault: HeadFault) -> Refused {
        Refused::BadHead(fault)
    }
}

impl From<AllocError> for Refused {
    ghost from_gives = { λ _ refused. refused ≡ NoMemory };

    fn from(_: AllocError) -> Refused {
        Refused::NoMemory
    }
}

/// The updates of a zone text's journal: those of all batches that follow one another from the first. It allocates memory.
pub fn recover<'a>(alloc: Global, text: &[u8], journal: &'a [u8]) -> Result<Recovered<'a>, Refused>
    ensures recovered { IfOk result (λ r. (r.salt ≡ salt_of r.head)
        × IsRecovered text.now journal.now r.head (map (λ request. map (λ message. message.now) request.items) r.updates.items) r.number r.end r.torn) }
    ensures refused { IfErr result (λ why. IsRefused text.now journal.now why) }
{
    let mut digested = 0;
    recover_counted(alloc, &mut digested, text, journal)
}

/// Like `recover`. The number of octets digested for the checksums of frames is added to `digested`: each octet of the journal at most twice, whatever
/// they are and whatever is found.
pub fn recover_counted<'a>(
    alloc: Global,
    digested: &mut u64,
    text: &[u8],
    journal: &'a [u8],
) -> Result<Recovered<'a>, Refused>
    ensures recovered { IfOk result (λ r. (r.salt ≡ salt_of r.head)
        × IsRecovered text.now journal.now r.head (map (λ request. map (λ message. message.now) request.items) r.updates.items) r.number r.end r.torn) }
    ensures refused { IfErr result (λ why. IsRefused text.now journal.now why) }
    ensures count { digested.new ≤ digested.old + 2 * length journal.now }
{
    let (head, salt, behind) = read_head(journal)?;
    if !head.text.is_of(text) {
        return Err(Refused::OtherText);
    }
    let (bodies, rest) = read_all(alloc, &salt, digested, behind)?;
    let number = bodies.len() as u64;
    let end = journal.len() - rest.len();
    let torn = match tail_of(&salt, digested, number, rest) {
        Tail::Blank => false,
        Tail::Torn => true,
        Tail::Later(place) => return Err(Refused::Damaged(end + place)),
    };
    let updates = updates_of(alloc, &bodies)?;
    Ok(Recovered {
        head,
        salt,
        updates,
        number,
        end,
        torn,
    })
}

/// The updates of these batches, in order.
fn updates_of<'a>(alloc: Global, bodies: &[&'a [u8]]) -> Result<Vec<Vec<&'a [u8]>>, Refused>
    ensures ok { IfOk result (λ updates. (batches : List (List Messages)) × AreBatches (map (λ body. body.now) bodies.now) batches
        × (map (λ request. map (λ message. message.now) request.items) updates.items ≡ updates_in batches)) }
    ensures refused { IfErr result (λ why. IsRefusedBatch (map (λ body. body.now) bodies.now) why) }
{
    let mut updates = Vec::new(alloc);
    for (number, body) in bodies.iter().enumerate() {
        match read_batch(alloc, body)? {
            Some(batch) => {
                let mut batch = batch;
                updates.append(&mut batch)?;
            }
            None => return Err(Refused::NoBatch(number as u64)),
        }
    }
    Ok(updates)
}
