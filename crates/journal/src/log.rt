//! A journal that batches are appended to (own).
use crate::disk::Disk;
use crate::frame::{SUM, write_frame};
use std::alloc::{AllocError, Global};

/// A journal that batches are appended to.
#[derive(Drop)]
pub struct Log<D: Disk> {
    disk: D,
    salt: [u8; SUM],
    number: u64,
    end: u64,
    stuck: bool,
}

/// Why a batch isn't appended.
#[derive(Drop)]
pub enum LogFault<F> {
    /// An earlier append failed and what it left couldn't be cut off, or a sync failed: nothing more is appended.
    Stuck,
    /// There are 2^64 - 1 batches already, or the journal's octets would be 2^64.
    Full,
    /// There is no memory. The journal is as it was.
    NoMemory,
    /// The disk failed.
    Disk(F),
}

impl<F> From<AllocError> for LogFault<F> {
    ghost use Rattle.std.specs.Prelude.{◌≡◌};
    ghost use Rattle.journal.specs.declared.log.LogFault.TheVariants.{NoMemory};

    ghost from_gives = { λ _ fault. fault ≡ NoMemory };

    fn from(_: AllocError) -> LogFault<F> {
        LogFault::NoMemory
    }
}

impl<D: Disk> Log<D> {
    ghost use Rattle.std.specs.Prelude.{◌≡◌, ℕ, ◌+◌, ◌^◌, ◌<◌, ◌≤◌, ◌⊎◌, ◌↔◌, true, false, List, [], ◌∷◌, ◌++◌, length, OnOk, OnErr, IfOk, IsErrOf};
    ghost use Rattle.journal.specs.declared.heads.Head.{Head};
    ghost use Rattle.journal.specs.Frame.{body_limit, Fit};
    ghost use Rattle.journal.specs.Head.{salt_of, IsHead};
    ghost use Rattle.journal.specs.Disk.{BeginsWith, LeavesOnly};
    ghost use Rattle.journal.specs.Log.{octets_of, Holds, IsStuck, disk_of, is_stuck, IsFull};

    /// Continues a journal of so many batches that ends at this octet: what is after it is cut off, and that cut is on the disk at Ok.
    pub fn resume(disk: D, salt: &[u8; SUM], number: u64, end: u64) -> Result<Log<D>, D::Fault>
        ensures holds { IfOk result (λ log. (head : Head) (bodies : List (List ℕ)) → BeginsWith (D.written disk) (octets_of head bodies)
            → salt.now ≡ salt_of head → number ≡ length bodies → end ≡ length (octets_of head bodies) → Fit 0 bodies
            → Holds D.written D.synced head log bodies) }
        ensures crash { IfOk result (λ log. (octets : List ℕ) → BeginsWith (D.synced disk) octets → BeginsWith (D.written disk) octets → end ≡ length octets
            → LeavesOnly (D.history disk) (D.history (disk_of log)) octets) }
    {
        let mut disk = disk;
        disk.cut(end)?;
        disk.sync()?;
        Ok(Log {
            disk,
            salt: *salt,
            number,
            end,
            stuck: false,
        })
    }

    /// Appends a batch: at Ok it is on the disk. At an error the journal has what it had, or nothing more can be appended. It allocates memory, before
    /// anything is written.
    pub fn append(&mut self, alloc: Global, body: &[u8]) -> Result<(), LogFault<D::Fault>>
        requires { length body.now < body_limit }
        ensures appended { OnOk result ((head : Head) (bodies : List (List ℕ)) → Holds D.written D.synced head self.old bodies
            → Holds D.written D.synced head self.new (bodies ++ body.now ∷ [])) }
        ensures kept { OnErr result ((head : Head) (bodies : List (List ℕ)) → Holds D.written D.synced head self.old bodies
            → Holds D.written D.synced head self.new bodies ⊎ IsStuck D.synced head self.new bodies) }
        // Whether it succeeds or fails, a crash at any moment of it leaves what the journal had.
        ensures crash { (head : Head) (bodies : List (List ℕ)) → Holds D.written D.synced head self.old bodies
            → LeavesOnly (D.history (disk_of self.old)) (D.history (disk_of self.new)) (octets_of head bodies) }
        // An append that fails and is cut off again leaves the journal usable: a disk that was full is written again once it has room.
        ensures goes_on { OnErr result (D.lost (disk_of self.new) ≡ D.lost (disk_of self.old) → is_stuck self.new ≡ is_stuck self.old) }
        ensures stuck { IsErrOf result LogFault.Stuck ↔ (is_stuck self.old ≡ true) }
        ensures stays { is_stuck self.old ≡ true → self.new ≡ self.old }
        ensures full { IsErrOf result LogFault.Full → IsFull self.old (length body.now) }
        ensures no_memory { IsErrOf result LogFault.NoMemory → self.new ≡ self.old }
    {
        if self.stuck {
            return Err(LogFault::Stuck);
        }
        let Ok(frame) = write_frame(alloc, &self.salt, self.number, body) else {
            return Err(LogFault::NoMemory);
        };
        let Some(number) = self.number.checked_add(1) else {
            return Err(LogFault::Full);
        };
        let Some(end) = self.end.checked_add(frame.len() as u64) else {
            return Err(LogFault::Full);
        };
        if let Err(fault) = self.disk.append(&frame) {
            self.stuck = self.disk.cut(self.end).is_err();
            return Err(LogFault::Disk(fault));
        }
        if let Err(fault) = self.disk.sync() {
            self.stuck = true;
            return Err(LogFault::Disk(fault));
        }
        self.number = number;
        self.end = end;
        Ok(())
    }

    /// Continues with another journal of so many batches, which ends at this octet and is on its disk; a log that is stuck can append again by it. The disk
    /// of the journal before is dropped.
    pub fn switch(&mut self, disk: D, salt: &[u8; SUM], number: u64, end: u64)
        ensures holds { (head : Head) (bodies : List (List ℕ)) → D.written disk ≡ octets_of head bodies → D.synced disk ≡ octets_of head bodies
            → salt.now ≡ salt_of head → number ≡ length bodies → end ≡ length (octets_of head bodies) → Fit 0 bodies
            → Holds D.written D.synced head self.new bodies }
        ensures disk { disk_of self.new ≡ disk }
        ensures goes_on { is_stuck self.new ≡ false }
    {
        *self = Log {
            disk,
            salt: *salt,
            number,
            end,
            stuck: false,
        };
    }

    /// Appends nothing more until it continues with another journal: it is unknown whether a start would find this disk's octets.
    pub fn stop(&mut self)
        ensures stopped { (head : Head) (bodies : List (List ℕ)) → Holds D.written D.synced head self.old bodies → IsStuck D.synced head self.new bodies }
        ensures stuck { is_stuck self.new ≡ true }
        ensures disk { disk_of self.new ≡ disk_of self.old }
    {
        self.stuck = true;
    }

    /// The disk of the journal.
    pub fn disk(&self) -> &D
        ensures { result.now ≡ disk_of self.now }
    {
        &self.disk
    }

    /// Whether nothing more can be appended.
    pub fn is_stuck(&self) -> bool
        ensures { result ≡ is_stuck self.now }
    {
        self.stuck
    }

    /// The length of the journal in octets.
    pub fn len(&self) -> u64
        ensures { (head : Head) (bodies : List (List ℕ)) → Holds D.written D.synced head self.now bodies → result ≡ length (octets_of head bodies) }
    {
        self.end
    }
}
