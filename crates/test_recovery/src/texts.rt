//! Texts that are written when their result is asked for, and stores that are compacted with them.
ghost use Rattle.std.specs.Prelude.{option_map, IfOk};
ghost use Rattle.store_compaction.specs.TextWriter.{wanted_of, IsWritten};

use crate::published::Published;
use crate::updates::{WrittenStore, new_store, updates_of};
use journal::Head;
use std::alloc::Global;
use std::io;
use std::sync::{Arc, Wait};
use std::test::Fail;
use store_compaction::{
    CompactedStore, CompactionEvent, CompactionLog, NextText, TextWriter, create_next_text,
    write_next_text,
};
use store_files::NewText;
use update_batches::{StoreState, UpdateStore};

/// A text to be written.
#[derive(Drop)]
struct Order {
    alloc: Global,
    file: NewText,
    next: NextText,
    before: Head,
}

impl Order {
    /// Writes the text.
    fn write(self) -> io::Result<Head>
        ensures { IfOk result (IsWritten (wanted_of self.next self.before)) }
    {
        let Order {
            alloc,
            file,
            next,
            before,
        } = self;
        write_next_text(alloc, file, &next, &before, [9; 16])
    }
}

/// A text writer that writes a text when it is asked for the result, after it has given none a number of times.
#[derive(Drop)]
pub(crate) struct TextsWhenAsked {
    files: HostRuntime,
    dir: &'static str,
    order: Option<Order>,
    /// How many times the present text gives no result yet.
    waits: u8,
    /// How many times each text gives no result. A text that is to be started later gives none once more.
    slow: u8,
}

impl TextWriter for TextsWhenAsked {
    ghost wanted = { λ texts. option_map (λ order. wanted_of order.next order.before) texts.order };

    fn write<R: Wait>(
        &mut self,
        _rt: &R,
        alloc: Global,
        next: NextText,
        before: &Head,
        later: bool,
    ) -> io::Result<()> {
        self.order = None;
        self.waits = self.slow.saturating_add(u8::from(later));
        let file = create_next_text(&self.files, alloc, self.dir, &next)?;
        self.order = Some(Order {
            alloc,
            file,
            next,
            before: *before,
        });
        Ok(())
    }

    fn is_writing(&self) -> bool {
        self.order.is_some()
    }

    fn take<R: Wait>(&mut self, _rt: &R) -> Option<io::Result<Head>> {
        if self.waits > 0 {
            self.waits -= 1;
            return None;
        }
        match self.order.take() {
            None => None,
            Some(order) => Some(order.write()),
        }
    }
}

/// Ignores compaction events.
#[derive(Drop)]
pub(crate) struct NoCompactionLog;

impl CompactionLog for NoCompactionLog {
    fn note<R: Wait>(&mut self, _rt: &R, _event: CompactionEvent) {}
}

/// A store that is compacted when its journal has more than 400 octets, and the versions that it is to have.
#[derive(Drop)]
pub(crate) struct Store {
    compacted: CompactedStore<HostRuntime, TextsWhenAsked, NoCompactionLog>,
    pub(crate) published: Published,
}

impl Store {
    /// Appends the updates with the numbers from `from` up to, but not including, `to` as one batch. Returns whether the batch is stored.
    pub(crate) fn append<R: Wait>(
        &mut self,
        rt: &R,
        alloc: Global,
        from: u16,
        to: u16,
    ) -> Result<bool, Fail> {
        let updates = updates_of(alloc, &self.published.last, from, to)?;
        let kept = self.compacted.append(rt, alloc, &updates).is_ok();
        if kept {
            self.published.add(updates)?;
        }
        Ok(kept)
    }

    /// Tends the store.
    pub(crate) fn tend<R: Wait>(&mut self, rt: &R, alloc: Global) {
        self.compacted.tend(rt, alloc);
    }
}

/// A new store in a directory. Each of its texts gives no result so many times.
pub(crate) fn create_store(
    files: &HostRuntime,
    dir: &'static str,
    slow: u8,
) -> Result<Store, Fail> {
    let WrittenStore { writer, published } = new_store(files, dir)?;
    let texts = TextsWhenAsked {
        files: *files,
        dir,
        order: None,
        waits: 0,
        slow,
    };
    let path = format!(in files.alloc(); "{dir}")?;
    let state = Arc::new(files.alloc(), StoreState::new())?;
    let compacted = CompactedStore::new(*files, path, writer, texts, NoCompactionLog, 400, state);
    Ok(Store {
        compacted,
        published,
    })
}
