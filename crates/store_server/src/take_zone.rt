//! The journal of a store that is changed to the zone of a zone file (own).
ghost use Rattle.std.specs.Prelude.{◌≡◌, ℕ, List, true, length, IfOk, IfErr};
ghost use Rattle.dns_name.specs.Name.{is_same};
ghost use Rattle.zone_tree.specs.Zone.{apex_of};
ghost use Rattle.journal.specs.declared.heads.Head.{Head as HeadState};
ghost use Rattle.journal.specs.Head.{salt_of};
ghost use Rattle.journal.specs.Log.{octets_of};
ghost use Rattle.journal.specs.Recovered.{IsOpened};
ghost use Rattle.store_server.specs.Private.{of_prepare};
ghost use Rattle.store_server.specs.Started.{IsNotTaken};
ghost use Rattle.store_server.specs.TakeZone.{IsTakenJournal};

use crate::refusal::Refusal;
use dns_rdata::Serial;
use journal::{Head, SUM, TextSum, read_all, read_head, write_frame, write_head, write_request};
use std::alloc::{AllocError, Global};
use store_recovery::Recovery;
use update_messages::{PrepareFault, Prepared, prepare_change};
use zone_change::{ChangeFault, ChangeSummary};
use zone_tree::{Zone, ZoneRead};

/// What a store that is changed to the zone of a zone file was changed by.
#[derive(Clone, Copy, Debug, PartialEq, Eq)]
pub enum TakenZone {
    /// Nothing: its zone, which has this serial, is that of the zone file.
    Unchanged(Serial),
    /// An update, with what it changes.
    Changed(ChangeSummary),
}

/// The octets of a store's journal, under a head with these random octets by which the store was created from this text, with its batches and, after them, the change to this
/// zone, if its zone is another one. It allocates memory.
pub(crate) fn taken_journal(
    alloc: Global,
    journal: &[u8],
    start: &Recovery,
    given: &[u8],
    random: [u8; 16],
    zone: &Zone,
) -> Result<(Vec<u8>, TakenZone), Refusal>
    requires opened { (bodies : List (List ℕ)) × (rest : List ℕ) × IsOpened journal.now start.now.head bodies rest }
    requires apex { is_same (apex_of zone.now) (apex_of start.now.newest.last.zone) ≡ true }
    ensures journal { IfOk result (λ r. IsTakenJournal journal.now start.now zone.now given.now random r.1 r.0.items) }
    ensures refused { IfErr result (λ refusal. IsNotTaken start.now.newest.last.zone zone.now refusal) }
{
    let head = Head {
        random,
        origin: TextSum::of(given),
        ..start.head
    };
    let (mut octets, salt, number) = journal_under(alloc, &head, journal)?;
    match prepare_change(alloc, start.newest.last.zone(), zone) {
        Ok(Prepared::Unchanged(serial)) => Ok((octets, TakenZone::Unchanged(serial))),
        Ok(Prepared::Change(change)) => {
            let body = write_request(alloc, &change.messages)?;
            octets.extend_from_slice(&write_frame(alloc, &salt, number, &body)?)?;
            Ok((octets, TakenZone::Changed(change.summary)))
        }
        Err(fault) => Err(refusal_of(fault)),
    }
}

/// The octets of a journal under a head, with the frames of another journal; the salt of its frames, and their number. It allocates memory.
fn journal_under(
    alloc: Global,
    head: &Head,
    journal: &[u8],
) -> Result<(Vec<u8>, [u8; SUM], u64), AllocError>
    requires { (before : HeadState) × (bodies : List (List ℕ)) × (rest : List ℕ) × IsOpened journal.now before bodies rest }
    ensures { IfOk result (λ r. (before : HeadState) (bodies : List (List ℕ)) (rest : List ℕ) → IsOpened journal.now before bodies rest
        → (r.0.items ≡ octets_of head.now bodies) × (r.1 ≡ salt_of head.now) × (r.2 ≡ length bodies)) }
{
    let (mut octets, salt) = write_head(alloc, head)?;
    let (_, own_salt, behind) = match read_head(journal) {
        Ok(found) => found,
        Err(_) => unreachable!(),
    };
    let mut digested = 0;
    let (bodies, _) = read_all(alloc, &own_salt, &mut digested, behind)?;
    for (number, body) in bodies.iter().enumerate() {
        octets.extend_from_slice(&write_frame(alloc, &salt, number as u64, body)?)?;
    }
    Ok((octets, salt, bodies.len() as u64))
}

/// Why a store isn't changed to a zone.
fn refusal_of(fault: PrepareFault) -> Refusal
    ensures { result ≡ of_prepare fault }
{
    match fault {
        PrepareFault::Change(ChangeFault::NoMemory) | PrepareFault::NoMemory => Refusal::NoMemory,
        PrepareFault::Change(fault) => Refusal::NoChange(fault),
        PrepareFault::TooLarge => Refusal::TooLarge,
    }
}
