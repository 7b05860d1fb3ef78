//! A disk in memory (own).
ghost use Rattle.std.specs.Prelude.{◌≡◌, ◌++◌, [], length, take, IfOk};
ghost use Rattle.journal.specs.Disk.{BeginsWith};

use journal::Disk;
use std::alloc::{AllocError, Global};
use store_files::{BEGUN, CallList, NOT_CUT, NOT_SYNCED};

/// Why a call of a disk in memory failed.
#[derive(Clone, Copy, Debug, PartialEq, Eq)]
pub enum DiskFault {
    /// It failed by plan.
    Planned,
    /// There is no memory.
    NoMemory,
}

/// A disk in memory: its octets as they are written, those of them that are on the disk, and what each of its next calls does.
#[derive(Drop)]
pub struct MemoryDisk {
    alloc: Global,
    written: Vec<u8>,
    synced: Vec<u8>,
    plan: Vec<u8>,
    /// How many of its syncs and cuts have failed.
    failures: CallList,
    /// What is on the disk after each of its calls, noted as a disk that is created with it.
    calls: CallList,
}

impl MemoryDisk {
    ghost use Rattle.std.specs.Prelude.{◌≡◌, [], IfOk};
    ghost use Rattle.journal.specs.Disk.{BeginsWith};
    ghost use Rattle.memory_devices.specs.MemoryDisk.{written, synced};

    /// A disk whose octets are all on it, as a start finds it. All its calls work.
    pub fn of(alloc: Global, octets: &[u8]) -> Result<MemoryDisk, AllocError>
        ensures written { IfOk result (λ disk. written disk ≡ octets.now) }
        ensures synced { IfOk result (λ disk. synced disk ≡ octets.now) }
    {
        Ok(MemoryDisk {
            alloc,
            written: octets.to_vec(alloc)?,
            synced: octets.to_vec(alloc)?,
            plan: Vec::new(alloc),
            failures: CallList::new(),
            calls: CallList::new(),
        })
    }

    /// This disk with a plan for its next calls, from the plan's last number to its first: at 0 a call works, at any other number it fails, and an append has then written
    /// one octet less than the number. After the plan all calls work.
    pub fn planned(mut self, plan: Vec<u8>) -> MemoryDisk
        ensures written { written result ≡ written self }
        ensures synced { synced result ≡ synced self }
    {
        self.plan = plan;
        self
    }

    /// The octets as they are written.
    pub fn octets(&self) -> &[u8]
        ensures { result.now ≡ written self.now }
    {
        &self.written
    }

    /// What a crash leaves: the octets that are on the disk, and after them, of those that are only written, as many as there are fates, each by
    /// its own: 0 loses the octet, which leaves a zero; 1 keeps it; any other turns some of its bits.
    pub fn crashed(&self, alloc: Global, fates: &[u8]) -> Result<Vec<u8>, AllocError>
        ensures { IfOk result (λ image. BeginsWith image.items (synced self.now)) }
    {
        let mut image = self.synced.to_vec(alloc)?;
        let start = self.synced.len().min(self.written.len());
        for (octet, fate) in self.written[start..].iter().zip(fates) {
            image.push(left_of(*octet, *fate))?;
        }
        Ok(image)
    }

    /// What the next call does: None works; else it fails, after so many octets.
    fn next_call(&mut self) -> Option<usize>
        ensures written { written self.new ≡ written self.old }
        ensures synced { synced self.new ≡ synced self.old }
        ensures failures { self.new.failures ≡ self.old.failures }
        ensures calls { self.new.calls ≡ self.old.calls }
    {
        match self.plan.pop() {
            None | Some(0) => None,
            Some(call) => Some(call as usize - 1),
        }
    }
}

/// What a crash leaves of an octet that is only written.
fn left_of(octet: u8, fate: u8) -> u8 {
    match fate {
        0 => 0,
        1 => octet,
        _ => octet ^ fate,
    }
}

impl Disk for MemoryDisk {
    ghost use Rattle.memory_devices.specs.MemoryDisk.{written as disk_written, synced as disk_synced, lost as disk_lost, history as disk_history};

    type Fault = DiskFault;

    ghost written = { disk_written };

    ghost synced = { disk_synced };

    ghost lost = { disk_lost };

    ghost history = { disk_history };

    fn append(&mut self, octets: &[u8]) -> Result<(), DiskFault> {
        self.calls.note(&[BEGUN, 0], &self.synced);
        match self.next_call() {
            None => match self.written.extend_from_slice(octets) {
                Ok(()) => Ok(()),
                Err(_) => Err(DiskFault::NoMemory),
            },
            Some(most) => {
                let part = &octets[..most.min(octets.len())];
                let _ = self.written.extend_from_slice(part);
                Err(DiskFault::Planned)
            }
        }
    }

    fn sync(&mut self) -> Result<(), DiskFault> {
        match self.next_call() {
            None => match self.written.to_vec(self.alloc) {
                Ok(copy) => {
                    self.synced = copy;
                    self.calls.note(&[BEGUN, 0], &self.synced);
                    Ok(())
                }
                Err(_) => {
                    self.failures.note(&[NOT_SYNCED, 0], &[]);
                    self.calls.note(&[BEGUN, 0], &self.synced);
                    Err(DiskFault::NoMemory)
                }
            },
            Some(_) => {
                // What wasn't synced is dropped, and the next sync reports nothing of it.
                let start = self.synced.len().min(self.written.len());
                self.written[start..].fill(0);
                self.failures.note(&[NOT_SYNCED, 0], &[]);
                self.calls.note(&[BEGUN, 0], &self.synced);
                Err(DiskFault::Planned)
            }
        }
    }

    fn cut(&mut self, len: u64) -> Result<(), DiskFault> {
        let most = len as usize;
        self.synced.truncate(most);
        self.calls.note(&[BEGUN, 0], &self.synced);
        match self.next_call() {
            None => {
                self.written.truncate(most);
                Ok(())
            }
            Some(_) => {
                self.failures.note(&[NOT_CUT, len], &[]);
                Err(DiskFault::Planned)
            }
        }
    }
}
