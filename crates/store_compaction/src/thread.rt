//! Zone texts written on threads of their own (own).
ghost use Rattle.std.specs.Prelude.{◌≡◌, ◌<◌, Some, None, IfOk, OnOk, OnErr};
ghost use Rattle.store_compaction.specs.TextWriter.{wanted_of, IsWritten};

use crate::files::{create_next_text, write_next_text};
use crate::next::NextText;
use crate::text_writer::TextWriter;
use journal::Head;
use std::alloc::Global;
use std::fs::{File, Files};
use std::io;
use std::random::RandomSource;
use std::snapshot::Snapshot;
use std::sync::atomic::{AtomicBool, Ordering};
use std::sync::{Arc, Wait};
use std::thread::{self, Promise, PromisedHandle, Threads};
use std::time::{Clock, Duration};
use store_files::{NewText, remove_text};

/// The minimum time, in seconds, between the start of a text that fails and the start of the next one (own).
const LATER: u64 = 5;

/// The promise of a thread: it returns the head for this text once the text is on disk.
#[derive(Drop)]
struct Given {
    next: Snapshot<NextText>,
    before: Snapshot<Head>,
}

impl Promise<io::Result<Head>> for Given {
    ghost kept_by = { λ given reported. IfOk reported (IsWritten (wanted_of given.next.value given.before.value)) };
}

/// The data that a thread takes with it. It has no file name and cannot start a thread.
#[derive(Drop)]
struct TextJob {
    alloc: Global,
    file: NewText,
    next: NextText,
    before: Head,
    random: [u8; 16],
    over: Arc<AtomicBool, Global>,
}

impl TextJob {
    /// Writes the text and then marks the job as finished. Returns the head of the text's journal.
    fn run(self) -> io::Result<Head>
        ensures { IfOk result (IsWritten (wanted_of self.next self.before)) }
    {
        let TextJob {
            alloc,
            file,
            next,
            before,
            random,
            over,
        } = self;
        let reported = write_next_text(alloc, file, &next, &before, random);
        over.store(true, Ordering::SeqCst);
        reported
    }
}

/// A text whose thread is not started yet.
#[derive(Drop)]
struct TextOrder {
    alloc: Global,
    next: NextText,
    /// The head of the store's journal, which names an earlier text.
    before: Head,
    ghost later: { before.number < next.number },
}

/// A thread that writes the text with a number, and whether it has finished.
#[derive(Drop)]
struct Writing {
    alloc: Global,
    number: u64,
    /// The head of the store's journal, which names an earlier text.
    before: Head,
    handle: PromisedHandle<io::Result<Head>, Given>,
    over: Arc<AtomicBool, Global>,
    ghost later: { before.number < number },
}

/// Starts the thread that writes a text.
fn spawn_job<R: Threads>(rt: &R, job: TextJob) -> io::Result<Writing>
    requires later { job.before.number < job.next.number }
    ensures { IfOk result (λ writing. (writing.handle.promise.next.value ≡ job.next) × (writing.handle.promise.before.value ≡ job.before)) }
{
    let (alloc, number, before) = (job.alloc, job.next.number, job.before);
    let over = Arc::try_clone(&job.over)?;
    let given = Given {
        next: Snapshot::of(&job.next),
        before: Snapshot::of(&job.before),
    };
    let handle = thread::spawn_with(rt, given, move || job.run())?;
    Ok(Writing {
        alloc,
        number,
        before,
        handle,
        over,
    })
}

/// A requested text.
#[derive(Drop)]
enum Text {
    /// Its thread is not started yet.
    Ordered(TextOrder),
    /// Its thread is started.
    Started(Writing),
}

/// Writes the zone texts of a directory, each on a thread of its own that is never waited for. A thread whose text is dropped continues by itself until its program ends.
pub struct ThreadTextWriter<R: Files<File = File> + RandomSource + Clock + Threads + Drop> {
    rt: R,
    dir: String,
    text: Option<Text>,
    /// When the last thread was started, by a monotonic clock.
    begun: Option<Duration>,
}

impl<R: Files<File = File> + RandomSource + Clock + Threads + Drop> Drop for ThreadTextWriter<R> {
    fn drop(self) {
        let ThreadTextWriter {
            rt: _,
            dir: _,
            text: _,
            begun: _,
        } = self;
    }
}

impl<R: Files<File = File> + RandomSource + Clock + Threads + Drop> ThreadTextWriter<R> {
    ghost use Rattle.std.specs.Prelude.{option_map};
    ghost use Rattle.store_compaction.specs.declared.thread.Text.TheVariants.{Started};
    ghost use Rattle.store_compaction.specs.Threads.{text_of};

    /// A writer for a directory. No text is being written.
    pub fn new(rt: R, dir: String) -> ThreadTextWriter<R> {
        ThreadTextWriter {
            rt,
            dir,
            text: None,
            begun: None,
        }
    }

    /// Whether `LATER` seconds have passed since the last thread was started. Also true if no thread was started or the clock fails.
    fn is_due(&self) -> bool {
        match (self.begun, self.rt.monotonic()) {
            (Some(begun), Ok(now)) => now.saturating_sub(begun) >= Duration::from_secs(LATER),
            _ => true,
        }
    }

    /// Creates the file of a text and starts its thread.
    fn start_thread(&self, order: TextOrder) -> io::Result<Writing>
        ensures { IfOk result (λ writing. text_of (Started writing) ≡ wanted_of order.next order.before) }
    {
        let TextOrder {
            alloc,
            next,
            before,
        } = order;
        let mut random = [0u8; 16];
        self.rt.fill_bytes(&mut random)?;
        let over = Arc::new(alloc, AtomicBool::new(false))?;
        let file = create_next_text(&self.rt, alloc, &self.dir, &next)?;
        spawn_job(
            &self.rt,
            TextJob {
                alloc,
                file,
                next,
                before,
                random,
                over,
            },
        )
    }

    /// Starts the thread of a text, or leaves the text waiting. Fails if the thread or what it needs cannot be created.
    fn go_on(&mut self, order: TextOrder, waits: bool) -> io::Result<()>
        ensures wanted { OnOk result (option_map text_of self.new.text ≡ Some (wanted_of order.next order.before)) }
        ensures none { OnErr result (self.new.text ≡ None) }
    {
        self.text = None;
        let text = if waits {
            Text::Ordered(order)
        } else {
            self.begun = self.rt.monotonic().ok();
            Text::Started(self.start_thread(order)?)
        };
        self.text = Some(text);
        Ok(())
    }

    /// The result of a finished thread. Removes the file of a text that could not be written.
    fn told_by(&self, writing: Writing) -> io::Result<Head>
        ensures { IfOk result (IsWritten (text_of (Started writing))) }
    {
        let (alloc, number, before) = (writing.alloc, writing.number, writing.before);
        let reported = writing.handle.join(&self.rt);
        if reported.is_err() {
            let _ = remove_text(&self.rt, alloc, &self.dir, number, &before);
        }
        reported
    }
}

impl<R: Files<File = File> + RandomSource + Clock + Threads + Drop> TextWriter
    for ThreadTextWriter<R> {
    ghost use Rattle.std.specs.Prelude.{option_map};
    ghost use Rattle.store_compaction.specs.Threads.{text_of};

    ghost wanted = { λ texts. option_map text_of texts.text };

    fn write<W: Wait>(
        &mut self,
        _rt: &W,
        alloc: Global,
        next: NextText,
        before: &Head,
        later: bool,
    ) -> io::Result<()> {
        let waits = later && !self.is_due();
        let order = TextOrder {
            alloc,
            next,
            before: *before,
        };
        self.go_on(order, waits)
    }

    fn is_writing(&self) -> bool {
        self.text.is_some()
    }

    fn take<W: Wait>(&mut self, _rt: &W) -> Option<io::Result<Head>> {
        match self.text.take() {
            None => None,
            Some(Text::Ordered(order)) => {
                let waits = !self.is_due();
                match self.go_on(order, waits) {
                    Ok(()) => None,
                    Err(fault) => Some(Err(fault)),
                }
            }
            Some(Text::Started(writing)) => {
                if writing.over.load(Ordering::SeqCst) {
                    return Some(self.told_by(writing));
                }
                self.text = Some(Text::Started(writing));
                None
            }
        }
    }
}
