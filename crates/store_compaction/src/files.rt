//! The files of a compaction (own).
ghost use Rattle.std.specs.Prelude.{◌≡◌, IfOk, IfErr};
ghost use Rattle.store_compaction.specs.Writer.{recent_of};
ghost use Rattle.store_compaction.specs.Crash.{IsPlaced};
ghost use Rattle.store_compaction.specs.Files.{BeginsText, GoesOn, Stops, IsSettled};

use crate::marked::next_text;
use crate::next::NextText;
use crate::writer::StoreWriter;
use journal::Head;
use std::alloc::Global;
use std::fs::{File, Files};
use std::io;
use store_files::{FileDisk, NewText, PairFault, drop_others, replace_journal};

/// Creates the file of a next zone text. No other text has this file. Allocates memory.
pub fn create_next_text<R: Files<File = File>>(
    rt: &R,
    alloc: Global,
    dir: &str,
    next: &NextText,
) -> io::Result<NewText> {
    NewText::create(rt, alloc, dir, next.number)
}

/// Writes the next zone text of a store with this head to its file and syncs the file and its name to disk. Returns the head of its journal, with random bytes that nobody
/// outside knows. Allocates memory and needs nothing else, so a thread of its own runs it while updates continue.
pub fn write_next_text(
    alloc: Global,
    file: NewText,
    next: &NextText,
    before: &Head,
    random: [u8; 16],
) -> io::Result<Head>
    ensures { IfOk result (λ head. BeginsText next.now.version.zone next.now.number random before.now.origin head) }
{
    let (text, head) = next_text(alloc, next, before, random)?;
    file.write(text.as_bytes())?;
    Ok(head)
}

/// Makes a compaction's journal the store's, once its zone text, with this head, is on disk, and continues the writer with it. No batch may be appended meanwhile. Returns false
/// if no compaction is under way for the text of that number: a text that finishes after a later one was started gets no journal. If it is unknown which journal a crash leaves,
/// the writer stops until another pair is in place. After any other error the store is unchanged, and the same compaction can be tried again. Allocates memory.
pub fn replace_with_next<R: Files<File = File>>(
    rt: &R,
    alloc: Global,
    dir: &str,
    writer: &mut StoreWriter<FileDisk>,
    head: Head,
) -> Result<bool, PairFault>
    ensures goes_on { IfOk result (λ done. GoesOn head writer.old writer.new done) }
    ensures stops { IfErr result (λ fault. Stops fault writer.old writer.new) }
    ensures placed { IsPlaced writer.old writer.new }
    ensures recent { recent_of writer.new ≡ recent_of writer.old }
{
    let next = match writer.next_journal(alloc, &head) {
        Ok(Some(next)) => next,
        Ok(None) => return Ok(false),
        Err(fault) => return Err(PairFault::Before(io::Error::from(fault))),
    };
    match replace_journal(rt, alloc, dir, next.octets()) {
        Ok(disk) => {
            writer.switch(head, next, disk);
            Ok(true)
        }
        Err(PairFault::Before(fault)) => Err(PairFault::Before(fault)),
        Err(PairFault::Unknown(fault)) => {
            writer.stop(head.number);
            Err(PairFault::Unknown(fault))
        }
    }
}

/// Removes the zone texts that the store does not need: those with other numbers than its own and the previous one's (`store_files`). Returns false and removes nothing if a text
/// other than its own may be needed: a compaction is under way, or it is unknown which journal a crash leaves.
pub fn drop_old_texts<R: Files + Alloc + Clone + Drop>(
    rt: &R,
    dir: &str,
    writer: &StoreWriter<FileDisk>,
) -> io::Result<bool>
    ensures { IfOk result (λ done. IsSettled writer.now done) }
{
    let Some(number) = writer.settled() else {
        return Ok(false);
    };
    drop_others(rt, dir, number)?;
    Ok(true)
}
