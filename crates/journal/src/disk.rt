//! The disk that a journal is written to (own).
ghost use Rattle.std.specs.Prelude.{◌≡◌, ℕ, ◌≤◌, ◌+◌, List, ◌∷◌, ◌++◌, length, take, OnOk, OnErr};
ghost use Rattle.journal.specs.Disk.{BeginsWith};

/// Octets that can be appended to, synced and cut.
pub trait Disk: Drop {
    /// Why a call failed. Only a disk makes a value of this type.
    type Fault: Drop;

    /// The octets as they are.
    ghost written: { Self → List ℕ };

    /// The octets that are on the disk: what a crash leaves begins with these, and what it leaves after them is unknown.
    ghost synced: { Self → List ℕ };

    /// What was on the disk after each call so far, the last call first. A crash during a call leaves what a crash before it or after it leaves.
    ghost history: { Self → List (List ℕ) };

    /// How many of its syncs and cuts have failed, each of which leaves it unknown what is written.
    ghost lost: { Self → ℕ };

    /// Appends octets. At an error some of them may have been appended.
    fn append(&mut self, octets: &[u8]) -> Result<(), Self::Fault>
        ensures ok { OnOk result (written self.new ≡ written self.old ++ octets.now) }
        ensures failed { OnErr result (BeginsWith (written self.new) (written self.old)) }
        ensures synced { synced self.new ≡ synced self.old }
        ensures noted { history self.new ≡ synced self.new ∷ history self.old }
        ensures same { lost self.new ≡ lost self.old };

    /// Syncs all octets to the disk. At an error it is unknown what is written: a later sync may succeed though these octets were dropped.
    fn sync(&mut self) -> Result<(), Self::Fault>
        ensures ok { OnOk result ((synced self.new ≡ written self.old) × (written self.new ≡ written self.old)) }
        ensures failed { OnErr result (synced self.new ≡ synced self.old) }
        ensures noted { history self.new ≡ synced self.new ∷ history self.old }
        ensures same { OnOk result (lost self.new ≡ lost self.old) }
        ensures counted { OnErr result (lost self.new ≡ lost self.old + 1) };

    /// Cuts off all octets after the first so many. At an error it is unknown what is written.
    fn cut(&mut self, len: u64) -> Result<(), Self::Fault>
        ensures ok { OnOk result (len ≤ length (written self.old) → written self.new ≡ take len (written self.old)) }
        ensures synced { synced self.new ≡ take len (synced self.old) }
        ensures noted { history self.new ≡ synced self.new ∷ history self.old }
        ensures same { OnOk result (lost self.new ≡ lost self.old) }
        ensures counted { OnErr result (lost self.new ≡ lost self.old + 1) };
}
