//! What follows each step of a call: its next phase, or its end.
ghost use Rattle.std.specs.Prelude.{◌≡◌, IfOk, IfErr};
ghost use Rattle.world_run.specs.declared.phase.Phase.TheVariants.{Swap};
ghost use Rattle.world_run.specs.declared.phase.Progress.TheVariants.{On};
ghost use Rattle.world_run.specs.Phases.{after, load_after, look_after, raise_after, note_after, probe_after, settle_after, keep_after, enter_after, entry_of as says_entry_of, seek_after, gain_after, gained_after, with_got, sent_after, release_after, bury_after, fade_after, gone as says_gone, past as says_past, leaving_after, oldest_after};

use crate::entries::Entry;
use crate::fault::WorldFault;
use crate::lent::Handle;
use crate::owner_list::OwnerList;
use crate::phase::{End, Keeping, Phase, Progress, Purpose};
use crate::published::Published;
use crate::sending::{Seeking, Sending};
use crate::step::Answer;
use cell_core::{WordEvent, WordMachine};
use dns_rdata::Serial;
use serve_core::Heading;
use std::mem;

impl<'a> Phase<'a> {
    /// What follows the step, given the words after it and the event that it reported.
    ///
    /// `NoMemory` where an allocation was refused, or where a version that the call has got has so many references that they can't be counted.
    pub fn after(
        self,
        machine: &WordMachine<Published>,
        event: WordEvent,
    ) -> Result<Progress<'a>, WorldFault>
        ensures ok { IfOk result (λ progress. progress ≡ after machine.now self.entry event) }
        ensures refused { IfErr result (λ fault. fault ≡ WorldFault.NoMemory) }
    {
        let progress = match self {
            Phase::Load(name) => after_load(name, event),
            Phase::Look(name, owner) => after_look(name, owner, event),
            Phase::Raise(name, owner) => after_raise(name, owner, event),
            Phase::Note(name, owner) => after_note(name, owner, event),
            Phase::Probe(version, keeping) => after_probe(version, keeping, event),
            Phase::Prepare(version, keeping) => after_prepare(version, keeping),
            Phase::Swap(keeping) => Progress::On(Phase::Settle(keeping)),
            Phase::Settle(keeping) => after_settle(keeping, event),
            Phase::Keep(given, keeping) => after_keep(given, keeping, event),
            Phase::Enter(given, kept, keeping) => after_enter(given, kept, keeping, event),
            Phase::Seek(owner, seeking) => after_seek(owner, seeking, event),
            Phase::Gain(owner, seeking) => return after_gain(machine, owner, seeking, event),
            Phase::Release(owner, purpose) => after_release(owner, purpose, event),
            Phase::Bury(owner, purpose) => after_bury(owner, purpose, event),
            Phase::Fade(owner, number, purpose) => after_fade(owner, number, purpose, event),
            Phase::Reset(owner, number, purpose) => {
                Progress::On(Phase::Free(owner, number, purpose))
            }
            Phase::Free(_, number, purpose) => purpose.past(gone(number)),
        };
        Ok(progress)
    }
}

impl<'a> Purpose<'a> {
    /// What follows once the owner is gone; a drop gives this answer.
    fn past(self, answer: Answer) -> Progress<'a>
        ensures { result ≡ says_past self.entry answer }
    {
        match self {
            Purpose::Drop => Progress::Done(End::Replied(answer)),
            Purpose::Publish(keeping, kept, entry) => {
                mem::drop(answer);
                after_published(keeping, kept, entry)
            }
            Purpose::Oldest(heading, kept, entry, leaving) => {
                mem::drop(answer);
                leaving_after(heading, kept, entry, leaving)
            }
            Purpose::Leaves(heading, kept, entry, leaving) => {
                mem::drop(answer);
                leaving_after(heading, kept, entry, leaving)
            }
            Purpose::Sent(sending, owners) => {
                mem::drop(answer);
                sent_after(sending, owners)
            }
        }
    }
}

/// What follows once the owner that a publication returned is gone.
fn after_published<'a>(keeping: Keeping, kept: usize, entry: Option<Entry>) -> Progress<'a>
    ensures { result ≡ oldest_after keeping.heading kept entry keeping.leaving keeping.oldest }
{
    let Keeping {
        heading,
        oldest,
        leaving,
        ..
    } = keeping;
    oldest_after(heading, kept, entry, leaving, oldest)
}

/// The same, given the owner of the oldest version, if it is to be released.
fn oldest_after<'a>(
    heading: Heading,
    kept: usize,
    entry: Option<Entry>,
    leaving: OwnerList,
    oldest: Option<usize>,
) -> Progress<'a>
    ensures { result ≡ oldest_after heading kept entry leaving oldest }
{
    match oldest {
        None => leaving_after(heading, kept, entry, leaving),
        Some(owner) => Progress::On(Phase::Release(
            owner,
            Purpose::Oldest(heading, kept, entry, leaving),
        )),
    }
}

/// What follows once the oldest version that was kept, or an entry that left the window, is gone.
fn leaving_after<'a>(
    heading: Heading,
    kept: usize,
    entry: Option<Entry>,
    leaving: OwnerList,
) -> Progress<'a>
    ensures { result ≡ leaving_after heading kept entry leaving }
{
    let mut left = leaving;
    match left.take_first() {
        None => Progress::Done(End::Kept(heading, kept, entry)),
        Some(owner) => Progress::On(Phase::Fade(
            owner,
            None,
            Purpose::Leaves(heading, kept, entry, left),
        )),
    }
}

/// What follows where a transfer is to release the owners that it has got.
fn sent_after<'a>(sending: Sending<'a>, owners: OwnerList) -> Progress<'a>
    ensures { result ≡ sent_after sending.entry owners }
{
    let mut left = owners;
    match left.take_first() {
        None => Progress::Done(End::Sent(sending)),
        Some(owner) => Progress::On(Phase::Release(owner, Purpose::Sent(sending, left))),
    }
}

/// What follows where a transfer looks for no further version.
fn sought<'a>(seeking: Seeking<'a>) -> Progress<'a>
    ensures { result ≡ sent_after seeking.entry.sending seeking.entry.owners }
{
    let Seeking {
        sending,
        left,
        owners,
    } = seeking;
    mem::drop(left);
    sent_after(sending, owners)
}

/// What follows a load.
fn after_load<'a>(name: Handle<'a>, event: WordEvent) -> Progress<'a>
    ensures { result ≡ load_after name.entry event }
{
    match event {
        WordEvent::Loaded { owner, number } => { Progress::Done(End::Owned(name, owner, number)) }
        _ => Progress::On(Phase::Load(name)),
    }
}

/// What follows a look.
fn after_look<'a>(name: Handle<'a>, owner: usize, event: WordEvent) -> Progress<'a>
    ensures { result ≡ look_after name.entry owner event }
{
    match event {
        WordEvent::Alive => Progress::On(Phase::Raise(name, owner)),
        WordEvent::Dead => Progress::Done(End::Replied(Answer::Nothing)),
        _ => Progress::On(Phase::Look(name, owner)),
    }
}

/// What follows a raise.
fn after_raise<'a>(name: Handle<'a>, owner: usize, event: WordEvent) -> Progress<'a>
    ensures { result ≡ raise_after name.entry owner event }
{
    match event {
        WordEvent::Raised {
            owner: next,
            number,
        } => Progress::Done(End::Owned(name, next, number)),
        WordEvent::Dead => Progress::Done(End::Replied(Answer::Nothing)),
        _ => Progress::On(Phase::Raise(name, owner)),
    }
}

/// What follows a note.
fn after_note<'a>(name: Handle<'a>, owner: usize, event: WordEvent) -> Progress<'a>
    ensures { result ≡ note_after name.entry owner event }
{
    match event {
        WordEvent::Noted {
            owner: next,
            number,
        } => Progress::Done(End::OwnedWeakly(name, next, number)),
        _ => Progress::On(Phase::Note(name, owner)),
    }
}

/// What follows a probe.
fn after_probe<'a>(version: Published, keeping: Keeping, event: WordEvent) -> Progress<'a>
    ensures { result ≡ probe_after version keeping event }
{
    match event {
        WordEvent::Taken => Progress::On(Phase::Prepare(version, keeping)),
        WordEvent::NoSlot => Progress::Done(End::NoSlot(keeping.heading)),
        _ => Progress::On(Phase::Probe(version, keeping)),
    }
}

/// What follows a prepare of a version; the words now have a reference of their own to it.
fn after_prepare<'a>(_version: Published, keeping: Keeping) -> Progress<'a>
    ensures { result ≡ On (Swap keeping) }
{
    Progress::On(Phase::Swap(keeping))
}

/// What follows a settle.
fn after_settle<'a>(keeping: Keeping, event: WordEvent) -> Progress<'a>
    ensures { result ≡ settle_after keeping event }
{
    match event {
        WordEvent::Settled { owner, number: _ } => Progress::On(Phase::Keep(owner, keeping)),
        _ => Progress::On(Phase::Settle(keeping)),
    }
}

/// What follows the load of the version that was published.
fn after_keep<'a>(given: usize, keeping: Keeping, event: WordEvent) -> Progress<'a>
    ensures { result ≡ keep_after given keeping event }
{
    match event {
        WordEvent::Loaded { owner, number: _ } if keeping.enters.is_some() => {
            Progress::On(Phase::Enter(given, owner, keeping))
        }
        WordEvent::Loaded { owner, number: _ } => {
            Progress::On(Phase::Release(given, Purpose::Publish(keeping, owner, None)))
        }
        _ => Progress::On(Phase::Keep(given, keeping)),
    }
}

/// The window's entry for a version, where it gets one.
fn entry_of(serial: Option<Serial>, number: u64, owner: usize) -> Option<Entry>
    ensures { result ≡ says_entry_of serial number owner }
{
    match serial {
        None => None,
        Some(serial) => Some(Entry {
            number,
            serial,
            owner,
        }),
    }
}

/// What follows the note of the version that was published.
fn after_enter<'a>(given: usize, kept: usize, keeping: Keeping, event: WordEvent) -> Progress<'a>
    ensures { result ≡ enter_after given kept keeping event }
{
    match event {
        WordEvent::Noted { owner, number } => {
            let entry = entry_of(keeping.enters, number, owner);
            Progress::On(Phase::Release(given, Purpose::Publish(keeping, kept, entry)))
        }
        _ => Progress::On(Phase::Enter(given, kept, keeping)),
    }
}

/// What follows a look at the version of an entry.
fn after_seek<'a>(owner: usize, seeking: Seeking<'a>, event: WordEvent) -> Progress<'a>
    ensures { result ≡ seek_after owner seeking.entry event }
{
    match event {
        WordEvent::Alive => Progress::On(Phase::Gain(owner, seeking)),
        WordEvent::Dead => sought(seeking),
        _ => Progress::On(Phase::Seek(owner, seeking)),
    }
}

/// What follows a raise of the version of an entry.
fn after_gain<'a>(
    machine: &WordMachine<Published>,
    owner: usize,
    seeking: Seeking<'a>,
    event: WordEvent,
) -> Result<Progress<'a>, WorldFault>
    ensures ok { IfOk result (λ progress. progress ≡ gain_after machine.now owner seeking.entry event) }
    ensures refused { IfErr result (λ fault. fault ≡ WorldFault.NoMemory) }
{
    match event {
        WordEvent::Raised {
            owner: next,
            number: _,
        } => match machine.value(next) {
            None => Ok(Progress::On(Phase::Gain(owner, seeking))),
            Some(version) => after_got(next, version, seeking),
        },
        WordEvent::Dead => Ok(sought(seeking)),
        _ => Ok(Progress::On(Phase::Gain(owner, seeking))),
    }
}

/// What follows where a transfer has got one more owner, which finds this version.
fn after_got<'a>(
    owner: usize,
    version: &Published,
    seeking: Seeking<'a>,
) -> Result<Progress<'a>, WorldFault>
    ensures ok { IfOk result (λ progress. progress ≡ gained_after (with_got owner version.now seeking.entry) seeking.entry.left) }
    ensures refused { IfErr result (λ fault. fault ≡ WorldFault.NoMemory) }
{
    let mut further = seeking;
    match further.put_got(owner, version) {
        Ok(()) => Ok(gained_after(further)),
        Err(fault) => {
            mem::drop(further);
            Err(fault)
        }
    }
}

/// What follows once that version is recorded.
fn gained_after<'a>(seeking: Seeking<'a>) -> Progress<'a>
    ensures { result ≡ gained_after seeking.entry seeking.entry.left }
{
    let mut further = seeking;
    match further.left.take_first() {
        None => {
            further.sending.whole = true;
            sought(further)
        }
        Some(owner) => Progress::On(Phase::Seek(owner, further)),
    }
}

/// What follows a release.
fn after_release<'a>(owner: usize, purpose: Purpose<'a>, event: WordEvent) -> Progress<'a>
    ensures { result ≡ release_after owner purpose.entry event }
{
    match event {
        WordEvent::Emptied => Progress::On(Phase::Bury(owner, purpose)),
        _ => purpose.past(Answer::Left),
    }
}

/// What follows a bury.
fn after_bury<'a>(owner: usize, purpose: Purpose<'a>, event: WordEvent) -> Progress<'a>
    ensures { result ≡ bury_after owner purpose.entry event }
{
    match event {
        WordEvent::Buried(number) => Progress::On(Phase::Fade(owner, Some(number), purpose)),
        _ => purpose.past(Answer::Left),
    }
}

/// The answer of a release that has buried the version of this number, or of the release of a weak owner.
fn gone(number: Option<u64>) -> Answer
    ensures { result ≡ says_gone number }
{
    match number {
        None => Answer::Faded,
        Some(number) => Answer::Buried(number),
    }
}

/// What follows a fade.
fn after_fade<'a>(
    owner: usize,
    number: Option<u64>,
    purpose: Purpose<'a>,
    event: WordEvent,
) -> Progress<'a>
    ensures { result ≡ fade_after owner number purpose.entry event }
{
    match event {
        WordEvent::Closed => Progress::On(Phase::Reset(owner, number, purpose)),
        _ => purpose.past(gone(number)),
    }
}
