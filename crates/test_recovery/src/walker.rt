//! A store whose compactions come in any order, and whose files cannot always be written.
use crate::found::{found_in, has_published};
use crate::random::Random;
use crate::updates::{WrittenStore, check, new_store, send};
use journal::Head;
use std::fs;
use std::sync::Wait;
use std::test::Fail;
use store_compaction::{
    NextText, create_next_text, drop_old_texts, replace_with_next, write_next_text,
};
use store_files::PairFault;

/// The directory of the test.
pub(crate) const DIR: &str = "test_recovery_walk";

/// Its journal.
const JOURNAL: &str = "test_recovery_walk/journal";

/// The store's new journal, before it is renamed.
const NEW_JOURNAL: &str = "test_recovery_walk/journal.new";

/// The path to which its journal is moved aside.
const ASIDE: &str = "test_recovery_walk/aside";

/// A store that is written, and its expected state.
#[derive(Drop)]
pub(crate) struct Walker {
    store: WrittenStore,
    random: Random,
    /// The number of the next address to add.
    next: u16,
    /// The number of updates that are stored.
    kept: u32,
    /// The greatest number that a text was given.
    given: u64,
    /// Whether a compaction is in progress.
    under_way: bool,
    /// The head of its text, once the text is written.
    head: Option<Head>,
    /// Whether it is unknown which of two journals a start finds.
    stuck: bool,
}

impl Walker {
    /// A new store.
    pub(crate) fn new(files: &HostRuntime, seed: u64) -> Result<Walker, Fail> {
        Ok(Walker {
            store: new_store(files, DIR)?,
            random: Random(seed),
            next: 1,
            kept: 0,
            given: 0,
            under_way: false,
            head: None,
            stuck: false,
        })
    }

    /// Does one step.
    pub(crate) fn step<R: Wait>(&mut self, rt: &R, files: &HostRuntime) -> Result<(), Fail> {
        match self.random.below(10) {
            0 => self.write_text(rt, files),
            1 => self.write_late(rt, files),
            2 => self.fail_to_create(rt, files),
            3 => self.replace(rt, files),
            4 => self.fail_to_lay(rt, files),
            5 => self.fail_to_rename(rt, files),
            6 => self.drop_old(files),
            _ => self.send(rt, files),
        }
    }

    /// Fails if a start from the directory does not recover the newest published versions, or its last version is not that of the stored
    /// updates.
    pub(crate) fn expect_all(&self, files: &HostRuntime) -> Result<(), Fail> {
        let start = found_in(files, DIR)?;
        let all = has_published(files.alloc(), &start, &self.store.published)?;
        check(all, "versions are lost")?;
        let serial = start.newest.last.serial().0;
        check(serial == self.kept.wrapping_add(7), "updates are lost")
    }

    /// Sends up to three updates as one batch.
    fn send<R: Wait>(&mut self, rt: &R, files: &HostRuntime) -> Result<(), Fail> {
        let from = self.next;
        let count = 1 + (self.random.below(3) & 3) as u16;
        self.next = from.saturating_add(count);
        let kept = send(rt, files.alloc(), &mut self.store, from, self.next)?;
        if kept {
            self.kept = self.kept.wrapping_add(u32::from(count));
        }
        check(kept != self.stuck, "a batch")
    }

    /// Starts a compaction. It replaces the one that is in progress, if any.
    fn begin_text<R: Wait>(&mut self, rt: &R, files: &HostRuntime) -> Result<NextText, Fail> {
        let Some(next) = self.store.writer.begin_compaction(rt, files.alloc())? else {
            return Err(Fail::from("no number is left"));
        };
        self.given = self.given.wrapping_add(1);
        self.under_way = true;
        self.head = None;
        check(next.number == self.given, "a number is given again")?;
        Ok(next)
    }

    /// Writes a text that was started, and returns the head of its journal.
    fn write(&self, files: &HostRuntime, next: &NextText) -> Result<Head, Fail> {
        let file = create_next_text(files, files.alloc(), DIR, next)?;
        let before = self.store.writer.head();
        Ok(write_next_text(files.alloc(), file, next, before, [9; 16])?)
    }

    /// Starts a compaction, and writes its text.
    fn write_text<R: Wait>(&mut self, rt: &R, files: &HostRuntime) -> Result<(), Fail> {
        let next = self.begin_text(rt, files)?;
        self.head = Some(self.write(files, &next)?);
        Ok(())
    }

    /// The head of the text that is written, if there is one. Otherwise, writes one.
    fn written<R: Wait>(&mut self, rt: &R, files: &HostRuntime) -> Result<Head, Fail> {
        if self.head.is_none() {
            self.write_text(rt, files)?;
        }
        match self.head {
            Some(head) => Ok(head),
            None => Err(Fail::from("no text is written")),
        }
    }

    /// Writes a text late, after that of a later compaction. It gets no journal.
    fn write_late<R: Wait>(&mut self, rt: &R, files: &HostRuntime) -> Result<(), Fail> {
        let early = self.begin_text(rt, files)?;
        self.write_text(rt, files)?;
        let head = self.write(files, &early)?;
        let done = replace_with_next(files, files.alloc(), DIR, &mut self.store.writer, head)?;
        check(!done, "a text that is written late has a journal")
    }

    /// Starts a compaction whose text cannot be written, because a directory has its name.
    fn fail_to_create<R: Wait>(&mut self, rt: &R, files: &HostRuntime) -> Result<(), Fail> {
        let next = self.begin_text(rt, files)?;
        let path = format!(in files.alloc(); "{DIR}/zone-{}", next.number)?;
        fs::create_dir(files, path.as_str())?;
        let outcome = create_next_text(files, files.alloc(), DIR, &next);
        check(outcome.is_err(), "a folder is written")?;
        fs::remove_dir(files, path.as_str())?;
        Ok(())
    }

    /// Puts the journal of a text in place.
    fn replace<R: Wait>(&mut self, rt: &R, files: &HostRuntime) -> Result<(), Fail> {
        let head = self.written(rt, files)?;
        self.head = None;
        self.under_way = false;
        self.stuck = false;
        let done = replace_with_next(files, files.alloc(), DIR, &mut self.store.writer, head)?;
        check(done, "no journal is in place")
    }

    /// The same, where the journal cannot be written: the store is as it was, and the same is tried again later.
    fn fail_to_lay<R: Wait>(&mut self, rt: &R, files: &HostRuntime) -> Result<(), Fail> {
        let head = self.written(rt, files)?;
        let _ = fs::remove_file(files, NEW_JOURNAL);
        fs::create_dir(files, NEW_JOURNAL)?;
        let outcome = replace_with_next(files, files.alloc(), DIR, &mut self.store.writer, head);
        fs::remove_dir(files, NEW_JOURNAL)?;
        check(matches!(outcome, Err(PairFault::Before(_))), "it is laid")
    }

    /// The same, where the journal cannot be renamed: it is unknown which of the two journals a start finds, but it is one of them.
    fn fail_to_rename<R: Wait>(&mut self, rt: &R, files: &HostRuntime) -> Result<(), Fail> {
        let head = self.written(rt, files)?;
        self.head = None;
        self.under_way = false;
        self.stuck = true;
        fs::rename(files, JOURNAL, ASIDE)?;
        fs::create_dir(files, JOURNAL)?;
        let outcome = replace_with_next(files, files.alloc(), DIR, &mut self.store.writer, head);
        fs::remove_dir(files, JOURNAL)?;
        check(
            matches!(outcome, Err(PairFault::Unknown(_))),
            "it is renamed",
        )?;
        self.find_either(files)
    }

    /// Puts one of the two journals in place; the next start finds it.
    fn find_either(&mut self, files: &HostRuntime) -> Result<(), Fail> {
        let found = if self.random.below(2) == 0 {
            ASIDE
        } else {
            NEW_JOURNAL
        };
        fs::rename(files, found, JOURNAL)?;
        Ok(())
    }

    /// Removes the texts that are not needed. Removes none where there may be one that is not the store's.
    fn drop_old(&mut self, files: &HostRuntime) -> Result<(), Fail> {
        let done = drop_old_texts(files, DIR, &self.store.writer)?;
        let settled = !self.under_way && !self.stuck;
        check(done == settled, "texts that are needed")
    }
}
