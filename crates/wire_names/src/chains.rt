//! Chains of the entries of a table that have one parent, the newest first.
//!
//! Names can be chosen at will, so a number that is made of labels can be the same for many of them. A chain has the entries of one parent
//! alone: where the labels of a name are sought one after the other, all their chains together have each entry once at most.
ghost use Rattle.std.specs.Prelude.{◌≡◌, ◌+◌, ◌<◌, ◌≤◌, ◌++◌, ◌∷◌, [], ◌⊎◌, List, length, slice_index_or};
ghost use Rattle.wire_names.specs.Entry.{Entry};
ghost use Rattle.wire_names.specs.Chains.{AreChained};

use crate::table::MAX_POSITIONS;

/// For how many parents there is a chain: for each entry, for one after the last, and for the root.
pub(crate) const CHAINS: usize = 258;

/// The parent of an entry whose name has one label: the root.
pub(crate) const ROOT: usize = 257;

/// The parent of an entry after whose first label stands a name that no entry spells is this and how many octets that name takes.
pub(crate) const UNKNOWN: usize = 258;

/// Stands for no index.
const NONE: u16 = 256;

/// For each parent the index of the newest entry that has it; and for each entry that of the next older one that has the same. Where there
/// is none, the number is no index.
#[derive(Clone, Copy)]
pub(crate) struct Chains {
    pub(crate) newest: [u16; CHAINS],
    pub(crate) older: [u16; MAX_POSITIONS],
}

impl Chains {
    /// Those of no entry.
    pub(crate) fn new() -> Chains
        ensures { AreChained [] result.newest result.older }
    {
        Chains {
            newest: [NONE; CHAINS],
            older: [NONE; MAX_POSITIONS],
        }
    }

    /// Forgets all entries.
    pub(crate) fn clear(&mut self)
        ensures { AreChained [] self.new.newest self.new.older }
    {
        self.newest[0] = NONE;
        self.newest[ROOT] = NONE;
    }

    /// The index of the newest entry that has a parent.
    pub(crate) fn newest_of(&self, parent: usize) -> usize
        requires { parent < 258 }
        ensures { result ≡ slice_index_or self.now.newest parent 0 }
    {
        usize::from(self.newest[parent])
    }

    /// The index of the next older entry that has the same parent as the one at an index.
    pub(crate) fn older_than(&self, index: usize) -> usize
        requires { index < 256 }
        ensures { result ≡ slice_index_or self.now.older index 0 }
    {
        usize::from(self.older[index])
    }

    /// Puts the entry at an index, after all others, before those that have its parent.
    pub(crate) fn push(&mut self, index: usize, parent: usize)
        requires few { index < 256 }
        ensures { (entries : List Entry) (entry : Entry) → AreChained entries self.old.newest self.old.older → length entries ≡ index → entry.parent ≡ parent → (parent ≤ index + 1) ⊎ (257 ≤ parent) → AreChained (entries ++ entry ∷ []) self.new.newest self.new.older }
    {
        self.newest[index + 1] = NONE;
        if parent < CHAINS {
            self.older[index] = self.newest[parent];
            self.newest[parent] = index as u16;
        }
    }
}
