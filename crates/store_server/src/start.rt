//! Starting from a directory (own).
ghost use Rattle.std.specs.Prelude.{◌≡◌, ◌≢◌, ◌≤◌, ℕ, true, [], length, drop, IfOk, IfErr, MatchOption};
ghost use Rattle.dns_name.specs.Name.{is_same};
ghost use Rattle.zone_tree.specs.Zone.{apex_of};
ghost use Rattle.store_files.specs.File.{written};
ghost use Rattle.store_recovery.specs.Start.{IsStarted};
ghost use Rattle.store_recovery.specs.Choice.{IsChoice};
ghost use Rattle.store_server.specs.Started.{AreLastUpdates, GoesOn, IsOfFolder, IsOwnFault, IsNoText, IsNotTaken, IsServed, IsServedOf, IsRefused, IsRefusedBy, IsRefusedOf, IsTakenAs, IsEndKept, IsEndKeptBy, IsEndKeptOf};
ghost use Rattle.store_files.specs.Store.{IsAsNoted};
ghost use Rattle.store_server.specs.Private.{IsNotAgain, of_again};

use crate::create::create_first;
use crate::refusal::Refusal;
use crate::resume::{OpenStore, resume_pair};
use crate::take_zone::{TakenZone, taken_journal};
use crate::updates::start_with_updates;
use dns_name::Name;
use dns_rdata::Serial;
use journal::RequestMessages;
use master_file::read_zone;
use std::alloc::Global;
use std::fs::{File, Files};
use store_files::{
    OpenedFolder, Pair, StoreLock, drop_others, keep_torn, open_store, replace_journal,
};
use store_recovery::{Choice, Ending, Recovery, StartFault, Take, choose};
use zone_change::ChangeFault;
use zone_tree::{Zone, ZoneRead};

/// The operator's zone file and options for a store.
#[derive(Clone, Copy)]
pub struct Given<'a> {
    /// The text of the zone file.
    pub text: &'a [u8],
    /// The origin of its relative names.
    pub origin: &'a Name,
    /// Which of the two to serve if the text has changed since the store was created.
    pub taken: Option<Take>,
}

/// Which of the two is served.
#[derive(Debug, Drop)]
pub enum Served {
    /// The zone file: the directory had no store.
    Created,
    /// The store, which was created from the zone file.
    Same,
    /// The store, as the operator chose.
    Store,
    /// The store, although the zone file has changed: its zone has this serial, which is not greater.
    StoreThoughOther(Serial),
    /// The store, changed to the zone file, as the operator chose.
    Zone(TakenZone),
}

/// What a server begins with.
#[derive(Drop)]
pub struct Started {
    /// The lock of the directory.
    pub lock: StoreLock,
    /// The store.
    pub store: OpenStore,
    /// Which of the two is served.
    pub served: Served,
    /// The path of the file with the bytes after the journal's last batch that were no frame, if there were any.
    pub torn: Option<String>,
}

/// Locks the store of an existing directory, and gives what a server begins with. `random` are bytes unknown to anyone else, for a new journal. It allocates memory.
pub fn start_store<R: Files<File = File> + Alloc + Clone + Drop>(
    rt: &R,
    alloc: Global,
    dir: &str,
    given: Given<'_>,
    random: [u8; 16],
) -> Result<Started, Refusal>
    ensures served { IfOk result (λ started. IsServed given.entry.text.now given.entry.origin.now given.entry.taken random started) }
    ensures refused { IfErr result (λ refusal. IsRefused given.entry.text.now given.entry.origin.now given.entry.taken refusal) }
{
    let opened = open_store(rt, alloc, dir)?;
    start_opened(rt, alloc, dir, given, random, opened)
}

/// What a server begins with, given what its directory has: the zone file alone only if there is no store.
fn start_opened<R: Files<File = File> + Alloc + Clone + Drop>(
    rt: &R,
    alloc: Global,
    dir: &str,
    given: Given<'_>,
    random: [u8; 16],
    opened: OpenedFolder,
) -> Result<Started, Refusal>
    requires noted { IsAsNoted opened }
    ensures served { IfOk result (λ started. IsServed given.entry.text.now given.entry.origin.now given.entry.taken random started) }
    ensures found { IfOk result (λ started. IsOfFolder given.entry.text.now given.entry.origin.now given.entry.taken random opened started) }
    ensures torn { IfOk result (λ started. IsEndKeptBy opened started.torn) }
    ensures refused { IfErr result (λ refusal. IsRefused given.entry.text.now given.entry.origin.now given.entry.taken refusal) }
    ensures why { IfErr result (λ refusal. IsRefusedBy given.entry.text.now given.entry.origin.now given.entry.taken opened refusal) }
{
    match opened {
        OpenedFolder::Locked => Err(Refusal::Held),
        OpenedFolder::NoJournal(number) => Err(Refusal::NoJournal(number)),
        OpenedFolder::NoText(number) => Err(Refusal::NoText(number)),
        OpenedFolder::Empty(lock) => {
            let zone = read_zone(alloc, given.text, given.origin)?;
            let store = create_first(rt, alloc, dir, zone, random, given.text)?;
            Ok(Started {
                lock,
                store,
                served: Served::Created,
                torn: None,
            })
        }
        OpenedFolder::Found(lock, pair) => start_found(rt, alloc, dir, given, random, lock, pair),
    }
}

/// What a server begins with if the directory has a store.
fn start_found<R: Files<File = File> + Alloc + Clone + Drop>(
    rt: &R,
    alloc: Global,
    dir: &str,
    given: Given<'_>,
    random: [u8; 16],
    lock: StoreLock,
    pair: Pair,
) -> Result<Started, Refusal>
    requires noted { written pair.disk ≡ pair.journal.items }
    ensures served { IfOk result (λ started. IsServedOf pair.text.items pair.journal.items given.entry.text.now given.entry.origin.now given.entry.taken random started.store started.served) }
    ensures torn { IfOk result (λ started. IsEndKeptOf pair.text.items pair.journal.items started.torn) }
    ensures refused { IfErr result (λ refusal. IsRefusedOf pair.text.items pair.journal.items given.entry.text.now given.entry.origin.now given.entry.taken refusal) }
{
    let (start, updates) = start_with_updates(alloc, &pair.text, &pair.journal)?;
    match choice_of(alloc, &start, given)? {
        Choice::Same => go_on(rt, alloc, dir, lock, pair, start, updates, Served::Same),
        Choice::Store => go_on(rt, alloc, dir, lock, pair, start, updates, Served::Store),
        Choice::StoreThoughOther(serial) => {
            go_on(
                rt,
                alloc,
                dir,
                lock,
                pair,
                start,
                updates,
                Served::StoreThoughOther(serial),
            )
        }
        Choice::RefuseNewer(given) => {
            let has = start.newest.last.serial();
            Err(Refusal::Newer { has, given })
        }
        Choice::RefuseOtherApex(given) => {
            let has = start.newest.last.zone().apex().copy();
            Err(Refusal::OtherApex { has, given })
        }
        Choice::Zone(zone) => take_text(rt, alloc, dir, given, random, lock, pair, &start, &zone),
    }
}

/// Chooses between a recovered store and the operator's zone file.
fn choice_of(alloc: Global, start: &Recovery, given: Given<'_>) -> Result<Choice, Refusal>
    ensures chosen { IfOk result (λ choice. IsChoice start.now.head.origin start.now.newest.last.zone given.entry.origin.now given.entry.text.now given.entry.taken choice) }
    ensures refused { IfErr result (λ refusal. IsNoText given.entry.text.now given.entry.origin.now refusal) }
{
    Ok(choose(
        alloc,
        &start.head.origin,
        start.newest.last.zone(),
        given.text,
        given.origin,
        given.taken,
    )?)
}

/// Goes on with a store from which `start` was recovered, and whose last updates made the recovered versions after the oldest one.
fn go_on<R: Files<File = File> + Alloc + Clone + Drop>(
    rt: &R,
    alloc: Global,
    dir: &str,
    lock: StoreLock,
    pair: Pair,
    start: Recovery,
    updates: Vec<RequestMessages>,
    served: Served,
) -> Result<Started, Refusal>
    requires noted { written pair.disk ≡ pair.journal.items }
    requires started { IsStarted pair.text.items pair.journal.items start }
    requires updates { AreLastUpdates pair.text.items pair.journal.items (length start.newest.older.items) updates.items }
    ensures store { IfOk result (λ started. GoesOn pair.text.items pair.journal.items start started.store) }
    ensures served { IfOk result (λ started. started.served ≡ served) }
    ensures torn { IfOk result (λ started. IsEndKept (length pair.journal.items) start.ending started.torn) }
    ensures refused { IfErr result IsOwnFault }
{
    let torn = keep_end(rt, alloc, dir, &pair.journal, start.ending)?;
    let store = resume_pair(pair, start, updates)?;
    drop_others(rt, dir, store.head.number)?;
    Ok(Started {
        lock,
        store,
        served,
        torn,
    })
}

/// Changes the store to the zone of the zone file that the operator chose: its journal is replaced by one that has the same batches, the change after them, and a head by which
/// the store was created from that zone file. It is replaced only once a store is recovered from that journal. A crash leaves the store as it was or changed.
fn take_text<R: Files<File = File> + Alloc + Clone + Drop>(
    rt: &R,
    alloc: Global,
    dir: &str,
    given: Given<'_>,
    random: [u8; 16],
    lock: StoreLock,
    pair: Pair,
    start: &Recovery,
    zone: &Zone,
) -> Result<Started, Refusal>
    requires started { IsStarted pair.text.items pair.journal.items start.now }
    requires apex { is_same (apex_of zone.now) (apex_of start.now.newest.last.zone) ≡ true }
    ensures served { IfOk result (λ started. IsTakenAs pair.text.items pair.journal.items start.now zone.now given.entry.text.now random started.store started.served) }
    ensures torn { IfOk result (λ started. IsEndKept (length pair.journal.items) start.now.ending started.torn) }
    ensures refused { IfErr result (λ refusal. IsNotTaken start.now.newest.last.zone zone.now refusal) }
{
    // From here on it is known that the records of both are a zone.
    let (_soa, _soa_of_store) = (zone.soa(), start.newest.last.zone().soa());
    let (journal, taken) = taken_journal(alloc, &pair.journal, start, given.text, random, zone)?;
    let (later, updates) = start_again(alloc, &pair.text, &journal)?;
    let torn = keep_end(rt, alloc, dir, &pair.journal, start.ending)?;
    let disk = replace_journal(rt, alloc, dir, &journal)?;
    let Pair {
        text,
        journal: _,
        disk: _,
    } = pair;
    let pair = Pair {
        text,
        journal,
        disk,
    };
    let store = resume_pair(pair, later, updates)?;
    drop_others(rt, dir, store.head.number)?;
    Ok(Started {
        lock,
        store,
        served: Served::Zone(taken),
        torn,
    })
}

/// Recovers a store's zone file and the journal that a change gives it, with the updates that made the recovered versions after the oldest one. It allocates memory.
fn start_again(
    alloc: Global,
    text: &[u8],
    journal: &[u8],
) -> Result<(Recovery, Vec<RequestMessages>), Refusal>
    ensures started { IfOk result (λ r. IsStarted text.now journal.now r.0) }
    ensures updates { IfOk result (λ r. AreLastUpdates text.now journal.now (length r.0.newest.older.items) r.1.items) }
    ensures refused { IfErr result (λ refusal. IsNotAgain text.now journal.now refusal) }
{
    match start_with_updates(alloc, text, journal) {
        Ok(found) => Ok(found),
        Err(Refusal::NoStart(fault)) => Err(refusal_again(fault)),
        Err(refusal) => Err(refusal),
    }
}

/// Why a store that a change gives isn't started: there is no memory; or the change can't be applied, since no NS can come before the others go (RFC 2136, 3.4.2.4).
fn refusal_again(fault: StartFault) -> Refusal
    ensures { result ≡ of_again fault }
{
    match fault {
        StartFault::NoMemory => Refusal::NoMemory,
        _ => Refusal::NoChange(ChangeFault::NoRoom),
    }
}

/// Copies what follows a journal's last batch to a file, if it is torn, and gives the file's path; None where nothing follows, or only zeros.
fn keep_end<R: Files<File = File>>(
    rt: &R,
    alloc: Global,
    dir: &str,
    journal: &[u8],
    ending: Ending,
) -> Result<Option<String>, Refusal>
    ensures kept { IfOk result (λ torn. IsEndKept (length journal.now) ending torn) }
    ensures refused { IfErr result IsOwnFault }
{
    match ending {
        Ending::Torn(end) => match torn_end(journal, end) {
            Some(octets) => Ok(Some(keep_torn(rt, alloc, dir, octets)?)),
            None => Ok(None),
        },
        Ending::Clean | Ending::Blank => Ok(None),
    }
}

/// The bytes of a journal after its last batch, which ends at this byte. None if there are none.
fn torn_end(journal: &[u8], end: usize) -> Option<&[u8]>
    ensures { MatchOption result (length journal.now ≤ end) (λ octets. (octets.now ≡ drop end journal.now) × (octets.now ≢ [])) }
{
    let octets = journal.get(end..)?;
    if octets.is_empty() {
        return None;
    }
    Some(octets)
}
