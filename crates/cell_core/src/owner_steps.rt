//! The steps of an owner on words that others may bury meanwhile: it is looked, raised, noted and faded.
ghost use Rattle.std.specs.Prelude.{◌≡◌, IfOk, OnErr};
ghost use Rattle.std.specs.List.{slice_get};
ghost use Rattle.std.specs.Option.{option_and_then};
ghost use Rattle.std.specs.Result.{IsErrOf};
ghost use Rattle.cell_core.specs.Words.{fading_of};
ghost use Rattle.cell_core.specs.WordSteps.{Makes, HasWordStep};

use crate::fault::StepFault;
use crate::word_machine::WordMachine;
use crate::words::{DEAD, GRANTS, NOTES, Owner, WordEvent, WordStep};

impl<T: Drop> WordMachine<T> {
    /// It is seen whether the version that an owner has is buried.
    pub(crate) fn look(&mut self, owner: usize) -> Result<WordEvent, StepFault>
        ensures word { IfOk result (λ event. Makes {T = T} self.old (WordStep.Look owner) event self.new) }
        ensures not_enabled { IsErrOf result StepFault.NotEnabled → HasWordStep {T = T} self.old (WordStep.Look owner) → ⊥ }
        ensures no_memory { IsErrOf result StepFault.NoMemory → ⊥ }
        ensures unchanged { OnErr result (self.new ≡ self.old) }
    {
        let Some((_, slot)) = self.owned(owner) else {
            return Err(StepFault::NotEnabled);
        };
        let Some(shares) = self.shares(slot) else {
            return Err(StepFault::NotEnabled);
        };
        if shares < DEAD {
            Ok(WordEvent::Alive)
        } else {
            Ok(WordEvent::Dead)
        }
    }

    /// One share more of what an owner has is given out, unless it is buried.
    pub(crate) fn raise(&mut self, owner: usize) -> Result<WordEvent, StepFault>
        ensures word { IfOk result (λ event. Makes {T = T} self.old (WordStep.Raise owner) event self.new) }
        ensures not_enabled { IsErrOf result StepFault.NotEnabled → HasWordStep {T = T} self.old (WordStep.Raise owner) → ⊥ }
        ensures no_memory { IsErrOf result StepFault.NoMemory → HasWordStep {T = T} self.old (WordStep.Raise owner) }
        ensures unchanged { OnErr result (self.new ≡ self.old) }
    {
        let Some((number, slot)) = self.owned(owner) else {
            return Err(StepFault::NotEnabled);
        };
        let Some(shares) = self.shares(slot) else {
            return Err(StepFault::NotEnabled);
        };
        if self.granted >= GRANTS {
            return Err(StepFault::NotEnabled);
        }
        let granted = self.granted + 1;
        if shares >= DEAD {
            self.set_shares(slot, shares.wrapping_add(1));
            self.granted = granted;
            return Ok(WordEvent::Dead);
        }
        let next = self.new_owner(Owner::Holding { number, slot })?;
        self.set_shares(slot, shares.wrapping_add(1));
        self.granted = granted;
        Ok(WordEvent::Raised {
            owner: next,
            number,
        })
    }

    /// The publisher makes a weak owner of the version that an owner has.
    pub(crate) fn note(&mut self, owner: usize) -> Result<WordEvent, StepFault>
        ensures word { IfOk result (λ event. Makes {T = T} self.old (WordStep.Note owner) event self.new) }
        ensures not_enabled { IsErrOf result StepFault.NotEnabled → HasWordStep {T = T} self.old (WordStep.Note owner) → ⊥ }
        ensures no_memory { IsErrOf result StepFault.NoMemory → HasWordStep {T = T} self.old (WordStep.Note owner) }
        ensures unchanged { OnErr result (self.new ≡ self.old) }
    {
        let Some(Owner::Holding { number, slot }) = self.owner(owner) else {
            return Err(StepFault::NotEnabled);
        };
        let Some(weak) = self.weak(slot) else {
            return Err(StepFault::NotEnabled);
        };
        if self.noted >= NOTES {
            return Err(StepFault::NotEnabled);
        }
        let noted = self.noted + 1;
        let next = self.new_owner(Owner::Weakly { number, slot })?;
        self.set_weak(slot, weak.wrapping_add(1));
        self.noted = noted;
        Ok(WordEvent::Noted {
            owner: next,
            number,
        })
    }

    /// A weak owner, or the owner whose bury won, is counted in K no more.
    pub(crate) fn fade(&mut self, owner: usize) -> Result<WordEvent, StepFault>
        ensures word { IfOk result (λ event. Makes {T = T} self.old (WordStep.Fade owner) event self.new) }
        ensures not_enabled { IsErrOf result StepFault.NotEnabled → HasWordStep {T = T} self.old (WordStep.Fade owner) → ⊥ }
        ensures no_memory { IsErrOf result StepFault.NoMemory → ⊥ }
        ensures unchanged { OnErr result (self.new ≡ self.old) }
    {
        let Some(slot) = self.fading(owner) else {
            return Err(StepFault::NotEnabled);
        };
        let Some(weak) = self.weak(slot) else {
            return Err(StepFault::NotEnabled);
        };
        let others = weak.wrapping_sub(1);
        self.set_weak(slot, others);
        if others == 0 {
            self.set_owner(owner, Owner::Resetting(slot));
            Ok(WordEvent::Closed)
        } else {
            self.set_owner(owner, Owner::Spent);
            Ok(WordEvent::Faded)
        }
    }

    /// The slot whose K counts an owner that is to fade.
    fn fading(&self, owner: usize) -> Option<usize>
        ensures { result ≡ option_and_then fading_of (slice_get self.now.owners owner) }
    {
        fading_slot(self.owner(owner)?)
    }

    /// The owner that has brought K to 0 sets it to 1.
    pub(crate) fn reset(&mut self, owner: usize) -> Result<WordEvent, StepFault>
        ensures word { IfOk result (λ event. Makes {T = T} self.old (WordStep.Reset owner) event self.new) }
        ensures not_enabled { IsErrOf result StepFault.NotEnabled → HasWordStep {T = T} self.old (WordStep.Reset owner) → ⊥ }
        ensures no_memory { IsErrOf result StepFault.NoMemory → ⊥ }
        ensures unchanged { OnErr result (self.new ≡ self.old) }
    {
        let Some(Owner::Resetting(slot)) = self.owner(owner) else {
            return Err(StepFault::NotEnabled);
        };
        if self.weak(slot).is_none() {
            return Err(StepFault::NotEnabled);
        }
        self.set_weak(slot, 1);
        self.set_owner(owner, Owner::Freeing(slot));
        Ok(WordEvent::Restored)
    }
}

/// The slot whose K counts an owner that is to fade.
fn fading_slot(how: Owner) -> Option<usize>
    ensures { result ≡ fading_of how }
{
    match how {
        Owner::Weakly { number: _, slot } => Some(slot),
        Owner::Fading(slot) => Some(slot),
        _ => None,
    }
}
