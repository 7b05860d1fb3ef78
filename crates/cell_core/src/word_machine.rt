//! A cell of words on plain data, one atomic act at a time.
ghost use Rattle.std.specs.Prelude.{◌≡◌, ◌<◌, ◌+◌, ◌↔◌, nat_lt, nat_le, Option, Some, None, IfOk, IfErr, OnErr, length, ◌∷◌, replicate};
ghost use Rattle.std.specs.List.{slice_get};
ghost use Rattle.std.specs.Option.{option_copied, option_and_then, option_map};
ghost use Rattle.std.specs.Result.{IsErrOf};
ghost use Rattle.cell_core.specs.Words.{State, grants, notes, found_by, found_last, slot_of, given_of, version_in, number_in, owned_of, fading_of, dead_word, begun, first_slot, free_slot};
ghost use Rattle.cell_core.specs.Cell.{Cell, start};
ghost use Rattle.cell_core.specs.Shows.{Shows, ShowsStep};
ghost use Rattle.cell_core.specs.WordSteps.{Makes, HasWordStep, GrowsOwners, with_new_owner, with_owner, with_slot, with_shares, with_weak_word, with_version, owned_in};

use crate::fault::StepFault;
use crate::words::{
    BULK, DEAD, FREE, GRANTS, NOTES, Owner, Publisher, SLOTS, SPAN, Slot, Version, WordEvent,
    WordStep,
};
use std::alloc::Global;
use std::marker::Model;

/// A cell as words: W, a table of 64 slots with their words, and how far its publisher and each of its owners have come.
#[derive(Drop)]
pub struct WordMachine<T> {
    latest: u64,
    table: Vec<Slot<T>>,
    publisher: Publisher,
    owners: Vec<Owner>,
    pub(crate) granted: u64,
    pub(crate) noted: u64,
}

impl<T> Model for WordMachine<T> {
    ghost use Rattle.cell_core.specs.Words.{State};

    ghost Value = { State T };

    ghost view = { λ a. record {
      latest = a.latest;
      table = a.table.items;
      publisher = a.publisher;
      owners = a.owners.items;
      granted = a.granted;
      noted = a.noted;
    } };
}

impl<T: Drop> WordMachine<T> {
    /// The machine in which one value is published, and nobody owns anything.
    ///
    /// `NoMemory` where a growth was refused.
    pub fn new(alloc: Global, first: T) -> Result<WordMachine<T>, StepFault>
        ensures made { IfOk result (λ machine. machine ≡ begun first) }
        ensures shows { IfOk result (λ machine. Shows machine (start first)) }
        ensures refused { IfErr result (λ fault. fault ≡ StepFault.NoMemory) }
    {
        let table = first_table(alloc, first)?;
        Ok(WordMachine {
            latest: 0,
            table,
            publisher: Publisher::Probing(0),
            owners: Vec::new(alloc),
            granted: 0,
            noted: 0,
        })
    }

    /// Makes a step on one word.
    ///
    /// `NotEnabled` exactly where there is no such step, and `NoMemory` where a growth was refused, which only a step that
    /// makes an owner asks for. In both cases the machine is as it was.
    pub fn step(&mut self, step: WordStep<T>) -> Result<WordEvent, StepFault>
        ensures word { IfOk result (λ event. Makes self.old step event self.new) }
        ensures shows { IfOk result (λ event. (cell : Cell T) → Shows self.old cell
            → (next : Cell T) × ShowsStep self.old step event cell next × Shows self.new next) }
        ensures not_enabled { IsErrOf result StepFault.NotEnabled ↔ (HasWordStep self.old step → ⊥) }
        ensures no_memory { IsErrOf result StepFault.NoMemory → GrowsOwners step }
        ensures unchanged { OnErr result (self.new ≡ self.old) }
    {
        match step {
            WordStep::Load => self.load(),
            WordStep::Probe => self.probe(),
            WordStep::Prepare(value) => self.prepare(value),
            WordStep::Swap => self.swap(),
            WordStep::Settle => self.settle(),
            WordStep::Release(owner) => self.release(owner),
            WordStep::Bury(owner) => self.bury(owner),
            WordStep::Free(owner) => self.free(owner),
            WordStep::Look(owner) => self.look(owner),
            WordStep::Raise(owner) => self.raise(owner),
            WordStep::Note(owner) => self.note(owner),
            WordStep::Fade(owner) => self.fade(owner),
            WordStep::Reset(owner) => self.reset(owner),
        }
    }

    /// Whether a share is left to give out: a load can be made.
    pub fn has_shares(&self) -> bool
        ensures { result ≡ nat_lt self.now.granted grants }
    {
        self.granted < GRANTS
    }

    /// Whether so many shares are left to give out: so many loads and raises can be made.
    pub fn has_shares_for(&self, count: usize) -> bool
        ensures { result ≡ nat_le (self.now.granted + count) grants }
    {
        match GRANTS.checked_sub(self.granted) {
            Some(left) => count as u64 <= left,
            None => false,
        }
    }

    /// Whether one more weak owner can be made: a note can be made.
    pub fn has_notes(&self) -> bool
        ensures { result ≡ nat_lt self.now.noted notes }
    {
        self.noted < NOTES
    }

    /// The value that an owner finds in its slot; none where it owns nothing, or owns it weakly.
    pub fn value(&self, owner: usize) -> Option<&T>
        ensures { option_copied result ≡ found_by self.now owner }
    {
        let Owner::Holding { number: _, slot } = self.owner(owner)? else {
            return None;
        };
        Some(&self.version_in(slot)?.value)
    }

    /// The value that lies in the slot in W.
    pub fn last(&self) -> Option<&T>
        ensures { option_copied result ≡ found_last self.now }
    {
        Some(&self.version_in(self.last_slot())?.value)
    }

    /// The slot in W.
    fn last_slot(&self) -> usize
        ensures { result ≡ slot_of self.now.latest }
    {
        (self.latest / SPAN) as usize
    }

    /// The number of the version that lies in a slot.
    fn number_in(&self, slot: usize) -> Option<u64>
        ensures { result ≡ number_in self.now slot }
    {
        Some(self.version_in(slot)?.number)
    }

    /// The version that lies in a slot.
    fn version_in(&self, slot: usize) -> Option<&Version<T>>
        ensures { option_copied result ≡ version_in self.now slot }
    {
        self.table.get(slot)?.version.as_ref()
    }

    /// How far an owner has come.
    pub(crate) fn owner(&self, owner: usize) -> Option<Owner>
        ensures { result ≡ slice_get self.now.owners owner }
    {
        self.owners.get(owner).copied()
    }

    /// The word S of a slot.
    pub(crate) fn shares(&self, slot: usize) -> Option<u64>
        ensures { result ≡ option_map (λ (there : Slot T). there.shares) (slice_get self.now.table slot) }
    {
        Some(self.table.get(slot)?.shares)
    }

    /// Writes the word S of a slot.
    pub(crate) fn set_shares(&mut self, slot: usize, shares: u64)
        ensures { (there : Slot T) → slice_get self.old.table slot ≡ Some there
            → self.new ≡ with_slot slot (with_shares shares there) self.old }
    {
        if let Some(there) = self.table.get_mut(slot) {
            there.shares = shares;
        }
    }

    /// The word K of a slot.
    pub(crate) fn weak(&self, slot: usize) -> Option<u64>
        ensures { result ≡ option_map (λ (there : Slot T). there.weak) (slice_get self.now.table slot) }
    {
        Some(self.table.get(slot)?.weak)
    }

    /// Writes the word K of a slot.
    pub(crate) fn set_weak(&mut self, slot: usize, weak: u64)
        ensures { (there : Slot T) → slice_get self.old.table slot ≡ Some there
            → self.new ≡ with_slot slot (with_weak_word weak there) self.old }
    {
        if let Some(there) = self.table.get_mut(slot) {
            there.weak = weak;
        }
    }

    /// The number and the slot of the version that an owner has, weakly or not.
    pub(crate) fn owned(&self, owner: usize) -> Option<(u64, usize)>
        ensures { result ≡ owned_in self.now owner }
    {
        owned_version(self.owner(owner)?)
    }

    /// One owner more, after the others: its place.
    pub(crate) fn new_owner(&mut self, how: Owner) -> Result<usize, StepFault>
        ensures ok { IfOk result (λ owner. (owner ≡ length self.old.owners) × (self.new ≡ with_new_owner how self.old)) }
        ensures refused { IfErr result (λ fault. (fault ≡ StepFault.NoMemory) × (self.new ≡ self.old)) }
    {
        let owner = self.owners.len();
        match self.owners.push(how) {
            Ok(()) => Ok(owner),
            Err(_) => Err(StepFault::NoMemory),
        }
    }

    /// An owner has come further.
    pub(crate) fn set_owner(&mut self, owner: usize, how: Owner)
        ensures { (before : Owner) → slice_get self.old.owners owner ≡ Some before
            → self.new ≡ with_owner owner how self.old }
    {
        if let Some(seat) = self.owners.get_mut(owner) {
            *seat = how;
        }
    }

    /// Writes DEAD into the word S of a slot, and takes the version out.
    fn destroy(&mut self, slot: usize)
        ensures { (there : Slot T) → slice_get self.old.table slot ≡ Some there
            → self.new ≡ with_slot slot (with_shares dead_word (with_version None there)) self.old }
    {
        if let Some(there) = self.table.get_mut(slot) {
            there.shares = DEAD;
            there.version = None;
        }
    }

    /// One share more is given out of W.
    fn load(&mut self) -> Result<WordEvent, StepFault>
        ensures word { IfOk result (λ event. Makes {T = T} self.old WordStep.Load event self.new) }
        ensures not_enabled { IsErrOf result StepFault.NotEnabled → HasWordStep {T = T} self.old WordStep.Load → ⊥ }
        ensures no_memory { IsErrOf result StepFault.NoMemory → HasWordStep {T = T} self.old WordStep.Load }
        ensures unchanged { OnErr result (self.new ≡ self.old) }
    {
        let slot = self.last_slot();
        let Some(number) = self.number_in(slot) else {
            return Err(StepFault::NotEnabled);
        };
        if self.granted >= GRANTS {
            return Err(StepFault::NotEnabled);
        }
        let owner = self.new_owner(Owner::Holding { number, slot })?;
        self.latest = self.latest.wrapping_add(1);
        self.granted += 1;
        Ok(WordEvent::Loaded { owner, number })
    }

    /// The publisher takes the next slot where it is free.
    fn probe(&mut self) -> Result<WordEvent, StepFault>
        ensures word { IfOk result (λ event. Makes {T = T} self.old WordStep.Probe event self.new) }
        ensures not_enabled { IsErrOf result StepFault.NotEnabled → HasWordStep {T = T} self.old WordStep.Probe → ⊥ }
        ensures no_memory { IsErrOf result StepFault.NoMemory → ⊥ }
        ensures unchanged { OnErr result (self.new ≡ self.old) }
    {
        let Publisher::Probing(slot) = self.publisher else {
            return Err(StepFault::NotEnabled);
        };
        let Some(shares) = self.shares(slot) else {
            return Err(StepFault::NotEnabled);
        };
        if shares == FREE {
            self.publisher = Publisher::Preparing(slot);
            Ok(WordEvent::Taken)
        } else if slot + 1 == SLOTS {
            self.publisher = Publisher::Probing(0);
            Ok(WordEvent::NoSlot)
        } else {
            self.publisher = Publisher::Probing(slot + 1);
            Ok(WordEvent::Passed)
        }
    }

    /// The publisher puts a value into its slot, and its shares into S.
    fn prepare(&mut self, value: T) -> Result<WordEvent, StepFault>
        ensures word { IfOk result (λ event. Makes self.old (WordStep.Prepare value) event self.new) }
        ensures not_enabled { IsErrOf result StepFault.NotEnabled → HasWordStep self.old (WordStep.Prepare value) → ⊥ }
        ensures no_memory { IsErrOf result StepFault.NoMemory → ⊥ }
        ensures unchanged { OnErr result (self.new ≡ self.old) }
    {
        let Publisher::Preparing(slot) = self.publisher else {
            return Err(StepFault::NotEnabled);
        };
        let Some(last) = self.number_in(self.last_slot()) else {
            return Err(StepFault::NotEnabled);
        };
        let Some(number) = last.checked_add(1) else {
            return Err(StepFault::NotEnabled);
        };
        let Some(there) = self.table.get_mut(slot) else {
            return Err(StepFault::NotEnabled);
        };
        there.version = Some(Version { number, value });
        there.shares = BULK;
        self.publisher = Publisher::Swapping(slot);
        Ok(WordEvent::Prepared)
    }

    /// The publisher puts its slot into W, and owns the version that was there.
    fn swap(&mut self) -> Result<WordEvent, StepFault>
        ensures word { IfOk result (λ event. Makes {T = T} self.old WordStep.Swap event self.new) }
        ensures not_enabled { IsErrOf result StepFault.NotEnabled → HasWordStep {T = T} self.old WordStep.Swap → ⊥ }
        ensures no_memory { IsErrOf result StepFault.NoMemory → ⊥ }
        ensures unchanged { OnErr result (self.new ≡ self.old) }
    {
        let Publisher::Swapping(place) = self.publisher else {
            return Err(StepFault::NotEnabled);
        };
        let slot = self.last_slot();
        let Some(number) = self.number_in(slot) else {
            return Err(StepFault::NotEnabled);
        };
        if place >= SLOTS {
            return Err(StepFault::NotEnabled);
        }
        let given = self.latest % SPAN;
        self.latest = place as u64 * SPAN;
        self.publisher = Publisher::Settling {
            number,
            slot,
            given,
        };
        Ok(WordEvent::Swapped(number))
    }

    /// The publisher gives the shares of the version before back, but one.
    fn settle(&mut self) -> Result<WordEvent, StepFault>
        ensures word { IfOk result (λ event. Makes {T = T} self.old WordStep.Settle event self.new) }
        ensures not_enabled { IsErrOf result StepFault.NotEnabled → HasWordStep {T = T} self.old WordStep.Settle → ⊥ }
        ensures no_memory { IsErrOf result StepFault.NoMemory → HasWordStep {T = T} self.old WordStep.Settle }
        ensures unchanged { OnErr result (self.new ≡ self.old) }
    {
        let Publisher::Settling {
            number,
            slot,
            given,
        } = self.publisher
        else {
            return Err(StepFault::NotEnabled);
        };
        let Some(shares) = self.shares(slot) else {
            return Err(StepFault::NotEnabled);
        };
        let owner = self.new_owner(Owner::Holding { number, slot })?;
        let back = BULK.saturating_sub(given).saturating_sub(1);
        self.set_shares(slot, shares.wrapping_sub(back));
        self.publisher = Publisher::Probing(0);
        Ok(WordEvent::Settled { owner, number })
    }

    /// An owner gives its share back.
    fn release(&mut self, owner: usize) -> Result<WordEvent, StepFault>
        ensures word { IfOk result (λ event. Makes {T = T} self.old (WordStep.Release owner) event self.new) }
        ensures not_enabled { IsErrOf result StepFault.NotEnabled → HasWordStep {T = T} self.old (WordStep.Release owner) → ⊥ }
        ensures no_memory { IsErrOf result StepFault.NoMemory → ⊥ }
        ensures unchanged { OnErr result (self.new ≡ self.old) }
    {
        let Some(Owner::Holding { number: _, slot }) = self.owner(owner) else {
            return Err(StepFault::NotEnabled);
        };
        let Some(shares) = self.shares(slot) else {
            return Err(StepFault::NotEnabled);
        };
        let left = shares.wrapping_sub(1);
        self.set_shares(slot, left);
        if left == 0 {
            self.set_owner(owner, Owner::Burying(slot));
            Ok(WordEvent::Emptied)
        } else {
            self.set_owner(owner, Owner::Spent);
            Ok(WordEvent::Left)
        }
    }

    /// An owner tries to bury what lies in the slot that it left without an owner.
    fn bury(&mut self, owner: usize) -> Result<WordEvent, StepFault>
        ensures word { IfOk result (λ event. Makes {T = T} self.old (WordStep.Bury owner) event self.new) }
        ensures not_enabled { IsErrOf result StepFault.NotEnabled → HasWordStep {T = T} self.old (WordStep.Bury owner) → ⊥ }
        ensures no_memory { IsErrOf result StepFault.NoMemory → ⊥ }
        ensures unchanged { OnErr result (self.new ≡ self.old) }
    {
        let Some(Owner::Burying(slot)) = self.owner(owner) else {
            return Err(StepFault::NotEnabled);
        };
        let Some(shares) = self.shares(slot) else {
            return Err(StepFault::NotEnabled);
        };
        if shares != 0 {
            self.set_owner(owner, Owner::Spent);
            return Ok(WordEvent::Kept);
        }
        let Some(number) = self.number_in(slot) else {
            return Err(StepFault::NotEnabled);
        };
        self.destroy(slot);
        self.set_owner(owner, Owner::Fading(slot));
        Ok(WordEvent::Buried(number))
    }

    /// The owner that has reset K gives the slot free.
    fn free(&mut self, owner: usize) -> Result<WordEvent, StepFault>
        ensures word { IfOk result (λ event. Makes {T = T} self.old (WordStep.Free owner) event self.new) }
        ensures not_enabled { IsErrOf result StepFault.NotEnabled → HasWordStep {T = T} self.old (WordStep.Free owner) → ⊥ }
        ensures no_memory { IsErrOf result StepFault.NoMemory → ⊥ }
        ensures unchanged { OnErr result (self.new ≡ self.old) }
    {
        let Some(Owner::Freeing(slot)) = self.owner(owner) else {
            return Err(StepFault::NotEnabled);
        };
        if self.shares(slot).is_none() {
            return Err(StepFault::NotEnabled);
        }
        self.set_shares(slot, FREE);
        self.set_owner(owner, Owner::Spent);
        Ok(WordEvent::Freed)
    }
}

/// The number and the slot of the version that an owner has, weakly or not, and nothing besides.
fn owned_version(how: Owner) -> Option<(u64, usize)>
    ensures { result ≡ owned_of how }
{
    match how {
        Owner::Holding { number, slot } => Some((number, slot)),
        Owner::Weakly { number, slot } => Some((number, slot)),
        _ => None,
    }
}

/// The slots at first: a value in slot 0, and the others free.
fn first_table<T: Drop>(alloc: Global, first: T) -> Result<Vec<Slot<T>>, StepFault>
    ensures made { IfOk result (λ table. table.items ≡ first_slot first ∷ replicate 63 free_slot) }
    ensures refused { IfErr result (λ fault. fault ≡ StepFault.NoMemory) }
{
    let mut table = Vec::new(alloc);
    let slot = Slot {
        shares: BULK,
        weak: 1,
        version: Some(Version {
            number: 0,
            value: first,
        }),
    };
    table.push(slot).map_err(|_| StepFault::NoMemory)?;
    for i in 1..SLOTS {
        table.push(free_slot()).map_err(|_| StepFault::NoMemory)?;
    }
    Ok(table)
}

/// A slot that nobody has used.
fn free_slot<T>() -> Slot<T>
    ensures { result ≡ free_slot }
{
    Slot {
        shares: FREE,
        weak: 1,
        version: None,
    }
}
