//! The phases of calls: the step that each takes next.
ghost use Rattle.std.specs.Prelude.{◌≡◌, IfOk, IfErr};
ghost use Rattle.world_run.specs.Phases.{word_step, step_name, reserves as says_reserves, reserves_weakly as says_reserves_weakly, uses as says_uses, uses_for, updates as says_updates, is_for_update, seeks as says_seeks, bars as says_bars};

use crate::entries::Entry;
use crate::fault::WorldFault;
use crate::lent::Handle;
use crate::owner_list::OwnerList;
use crate::published::Published;
use crate::sending::{Seeking, Sending};
use crate::step::{Answer, StepName};
use cell_core::WordStep;
use dns_rdata::Serial;
use serve_core::Heading;

/// What an update does after its publication.
#[derive(Drop)]
pub struct Keeping {
    /// The heading of the reply, from the update.
    pub heading: Heading,
    /// The owner of the oldest version that is kept, where it is to be released for the new one.
    pub oldest: Option<usize>,
    /// The serial of the new version, where it is entered in the window.
    pub enters: Option<Serial>,
    /// The weak owners of the entries that leave the window for it, the oldest first.
    pub leaving: OwnerList,
}

/// What an owner is released for.
#[derive(Drop)]
pub enum Purpose<'a> {
    /// A name is dropped.
    Drop,
    /// An update has published a version, and has loaded it under this owner, with this entry where it has one. What is released is the version before it,
    /// whose owner the publication returned.
    Publish(Keeping, usize, Option<Entry>),
    /// The oldest version that is kept is released, for the one that an update has loaded under this owner, with this entry; the reply has this
    /// heading. Then these weak owners are released.
    Oldest(Heading, usize, Option<Entry>, OwnerList),
    /// An entry leaves the window for that version, and then these weak owners are released.
    Leaves(Heading, usize, Option<Entry>, OwnerList),
    /// A transfer releases an owner that it has got, and then these.
    Sent(Sending<'a>, OwnerList),
}

/// The phase of a call: the step that it takes next.
#[derive(Drop)]
pub enum Phase<'a> {
    /// A load, under this name.
    Load(Handle<'a>),
    /// A look at the version of this weak owner, to get a strong owner of it under this name.
    Look(Handle<'a>, usize),
    /// A raise of this owner's version, under this name.
    Raise(Handle<'a>, usize),
    /// A note of this owner's version, under this name.
    Note(Handle<'a>, usize),
    /// A probe of the next slot, for this version.
    Probe(Published, Keeping),
    /// A prepare of this version.
    Prepare(Published, Keeping),
    /// A swap.
    Swap(Keeping),
    /// A settle.
    Settle(Keeping),
    /// A load of the version that was published. The publication returned this owner.
    Keep(usize, Keeping),
    /// A note of that version, which the second owner has, to enter it in the window. The publication returned the first owner.
    Enter(usize, usize, Keeping),
    /// A look at the version of this weak owner, which an entry of the window has, to get a strong owner of it for a transfer.
    Seek(usize, Seeking<'a>),
    /// A raise of that version.
    Gain(usize, Seeking<'a>),
    /// A release of this owner.
    Release(usize, Purpose<'a>),
    /// A bury by this owner.
    Bury(usize, Purpose<'a>),
    /// A fade by this owner: it has buried the version of this number, or it is a weak owner.
    Fade(usize, Option<u64>, Purpose<'a>),
    /// A reset by this owner, after its fade.
    Reset(usize, Option<u64>, Purpose<'a>),
    /// A free by this owner, after its reset.
    Free(usize, Option<u64>, Purpose<'a>),
}

/// The end of a call.
#[derive(Drop)]
pub enum End<'a> {
    /// The name is in use, for this owner, of the version of this number.
    Owned(Handle<'a>, usize, u64),
    /// The name is in use, for this weak owner, of the version of this number.
    OwnedWeakly(Handle<'a>, usize, u64),
    /// The call gives this answer.
    Replied(Answer),
    /// An update has found no free slot; its reply has this heading.
    NoSlot(Heading),
    /// An update has made a version, which is kept under this owner, with this entry where it has one; its reply has this heading.
    Kept(Heading, usize, Option<Entry>),
    /// A transfer has got as many as it can of the versions that it asks for, and has released them.
    Sent(Sending<'a>),
}

/// What follows a step.
#[derive(Drop)]
pub enum Progress<'a> {
    /// Another step.
    On(Phase<'a>),
    /// The end of the call.
    Done(End<'a>),
}

impl<'a> Phase<'a> {
    /// The step on a word that the call takes next.
    ///
    /// `NoMemory` where the version that it takes has so many references that they can't be counted.
    pub fn word_step(&self) -> Result<WordStep<Published>, WorldFault>
        ensures ok { IfOk result (λ step. step ≡ word_step self.now) }
        ensures refused { IfErr result (λ fault. fault ≡ WorldFault.NoMemory) }
    {
        Ok(match self {
            Phase::Load(_) | Phase::Keep(_, _) => WordStep::Load,
            Phase::Look(_, owner) | Phase::Seek(owner, _) => WordStep::Look(*owner),
            Phase::Raise(_, owner) | Phase::Gain(owner, _) => WordStep::Raise(*owner),
            Phase::Note(_, owner) | Phase::Enter(_, owner, _) => WordStep::Note(*owner),
            Phase::Probe(_, _) => WordStep::Probe,
            Phase::Prepare(version, _) => match version.share() {
                Ok(version) => WordStep::Prepare(version),
                Err(fault) => return Err(fault),
            },
            Phase::Swap(_) => WordStep::Swap,
            Phase::Settle(_) => WordStep::Settle,
            Phase::Release(owner, _) => WordStep::Release(*owner),
            Phase::Bury(owner, _) => WordStep::Bury(*owner),
            Phase::Fade(owner, _, _) => WordStep::Fade(*owner),
            Phase::Reset(owner, _, _) => WordStep::Reset(*owner),
            Phase::Free(owner, _, _) => WordStep::Free(*owner),
        })
    }

    /// The name of that step.
    pub fn step_name(&self) -> StepName
        ensures { result ≡ step_name self.now }
    {
        match self {
            Phase::Load(_) | Phase::Keep(_, _) => StepName::Load,
            Phase::Look(_, _) | Phase::Seek(_, _) => StepName::Look,
            Phase::Raise(_, _) | Phase::Gain(_, _) => StepName::Raise,
            Phase::Note(_, _) | Phase::Enter(_, _, _) => StepName::Note,
            Phase::Probe(_, _) => StepName::Probe,
            Phase::Prepare(_, _) => StepName::Prepare,
            Phase::Swap(_) => StepName::Swap,
            Phase::Settle(_) => StepName::Settle,
            Phase::Release(_, _) => StepName::Release,
            Phase::Bury(_, _) => StepName::Bury,
            Phase::Fade(_, _, _) => StepName::Fade,
            Phase::Reset(_, _, _) => StepName::Reset,
            Phase::Free(_, _, _) => StepName::Free,
        }
    }

    /// Whether the call reserves this name for a strong owner.
    pub fn reserves(&self, name: &Handle<'_>) -> bool
        ensures { result ≡ says_reserves name.now self.now }
    {
        match self {
            Phase::Load(other) | Phase::Look(other, _) | Phase::Raise(other, _) => {
                other.as_slice() == name.as_slice()
            }
            _ => false,
        }
    }

    /// Whether the call reserves this name for a weak owner.
    pub fn reserves_weakly(&self, name: &Handle<'_>) -> bool
        ensures { result ≡ says_reserves_weakly name.now self.now }
    {
        match self {
            Phase::Note(other, _) => other.as_slice() == name.as_slice(),
            _ => false,
        }
    }

    /// Whether the call uses this owner, so that its name can't be dropped.
    pub fn uses(&self, owner: usize) -> bool
        ensures { result ≡ says_uses owner self.now }
    {
        match self {
            Phase::Look(_, other) | Phase::Raise(_, other) | Phase::Note(_, other) => {
                *other == owner
            }
            Phase::Seek(_, seeking) | Phase::Gain(_, seeking) => seeking.sending.served == owner,
            Phase::Release(_, purpose)
            | Phase::Bury(_, purpose)
            | Phase::Fade(_, _, purpose)
            | Phase::Reset(_, _, purpose)
            | Phase::Free(_, _, purpose) => purpose.uses(owner),
            _ => false,
        }
    }

    /// Whether the call is an update.
    fn updates(&self) -> bool
        ensures { result ≡ says_updates self.now }
    {
        match self {
            Phase::Load(_) | Phase::Look(_, _) | Phase::Raise(_, _) | Phase::Note(_, _) => false,
            Phase::Seek(_, _) | Phase::Gain(_, _) => false,
            Phase::Release(_, purpose)
            | Phase::Bury(_, purpose)
            | Phase::Fade(_, _, purpose)
            | Phase::Reset(_, _, purpose)
            | Phase::Free(_, _, purpose) => purpose.is_for_update(),
            _ => true,
        }
    }

    /// Whether the call upgrades entries of the window.
    fn seeks(&self) -> bool
        ensures { result ≡ says_seeks self.now }
    {
        matches!(self, Phase::Seek(_, _) | Phase::Gain(_, _))
    }

    /// Whether the call, an update or one that upgrades entries, needs the window unchanged.
    pub fn bars(&self) -> bool
        ensures { result ≡ says_bars self.now }
    {
        self.updates() || self.seeks()
    }
}

impl<'a> Purpose<'a> {
    /// Whether this is the owner of the version that the transfer serves, so that its name can't be dropped.
    fn uses(&self, owner: usize) -> bool
        ensures { result ≡ uses_for owner self.now }
    {
        match self {
            Purpose::Sent(sending, _) => sending.served == owner,
            _ => false,
        }
    }

    /// Whether an owner is released for an update.
    fn is_for_update(&self) -> bool
        ensures { result ≡ is_for_update self.now }
    {
        !matches!(self, Purpose::Drop | Purpose::Sent(_, _))
    }
}
