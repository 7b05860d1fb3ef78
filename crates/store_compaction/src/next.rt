//! A zone text and a journal that replace the store's (own).
use dns_engine::SharedVersion;
use journal::{Disk, Log, SUM};

/// The next zone text of a store: the text of a version, with a number that no text of the store had before.
pub struct NextText {
    /// The version.
    pub version: SharedVersion,
    /// The number.
    pub number: u64,
}

impl Drop for NextText {
    fn drop(self) {
        let NextText {
            version: _,
            number: _,
        } = self;
    }
}

/// A journal that replaces another, as it is to be on disk.
pub struct NextJournal {
    pub(crate) octets: Vec<u8>,
    pub(crate) salt: [u8; SUM],
    pub(crate) number: u64,
}

impl Drop for NextJournal {
    fn drop(self) {
        let NextJournal {
            octets: _,
            salt: _,
            number: _,
        } = self;
    }
}

impl NextJournal {
    ghost use Rattle.std.specs.Prelude.{◌≡◌, ℕ, List};
    ghost use Rattle.journal.specs.declared.heads.Head.{Head};
    ghost use Rattle.journal.specs.Log.{Holds, disk_of};
    ghost use Rattle.store_compaction.specs.Marked.{IsNextJournal};

    /// The bytes of the journal.
    pub fn octets(&self) -> &[u8]
        ensures { result.now ≡ self.now.octets.items }
    {
        &self.octets
    }

    /// Continues a log with this journal once it is the store's, on the disk that has its bytes. A stuck log continues too. Never fails.
    pub fn switch<D: Disk>(&self, log: &mut Log<D>, disk: D)
        ensures holds { (head : Head) (bodies : List (List ℕ)) → IsNextJournal head bodies self.now → D.written disk ≡ self.now.octets.items
            → D.synced disk ≡ self.now.octets.items → Holds D.written D.synced head log.new bodies }
        ensures disk { disk_of log.new ≡ disk }
    {
        log.switch(disk, &self.salt, self.number, self.octets.len() as u64);
    }
}
