//! Zone files with the files that they include as plain text, and the zones of these.
ghost use Rattle.std.specs.Prelude.{◌≡◌, ◌<◌, ◌^◌, ◌+◌, ◌⊎◌, ℕ, List, [], Ok, Err, Some, None, option_map, IfOk, IfErr, IfSome, OnOk, MatchOption};
ghost use Rattle.dns_name.specs.Name.{fold_name};
ghost use Rattle.master_file.specs.Fault as file;
ghost use Rattle.master_file.specs.Records.{records_of};
ghost use Rattle.wide_file.specs.Fault.{at_file, no_memory};
ghost use Rattle.wide_file.specs.Included.{entry_read, included_to, max_depth, read_to, text_at, whole_of};
ghost use Rattle.wide_file.specs.Mark.{after_mark};
ghost use Rattle.wide_file.specs.PlainText.{put, put_all, unwritten};
ghost use Rattle.wide_file.specs.Private.{AreOfZone, put_whole};
ghost use Rattle.wide_file.specs.WideRecords.{in_front, nothing, IsInForce, IsLawful};
ghost use Rattle.wide_file.specs.WideZone.{fault_in, laid_read, wide_zone, IsOfZone};
ghost use Rattle.wide_file.specs.declared.record_entry.WideEntry.TheVariants as entry;
ghost use Rattle.zone_tree.specs.Zone.{IsZone};

use crate::context::Context;
use crate::file_path::FilePath;
use crate::included::{IncludedFile, found_in};
use crate::mark::without_mark;
use crate::plain::PlainText;
use crate::record_entry::{IncludeEntry, LeftOut, WideEntry};
use crate::records::WideRecords;
use crate::wide_fault::{WideCause, WideFault};
use dns_name::Name;
use master_file::{Cause, FileFault, RecordEntry, read_zone};
use std::alloc::{AllocError, Global};
use zone_tree::Zone;

/// How many files at most stand between the zone file and a record, with the record's own (own).
#[tactic(auto, unfolding(crate::specs::Included::max_depth))]
pub fn max_depth() -> u8
    ensures { result ≡ max_depth }
{
    20
}

/// A zone file with the files that it includes as plain text, its names relative to the origin. As a zone's text it has the file's records, under any
/// origin.
///
/// The fault is that of the first entry that has one, on its line; `NoMemory`, at line 0, where a growth was refused.
pub fn plain_text(
    alloc: Global,
    files: &[IncludedFile],
    text: &[u8],
    origin: &Name,
) -> Result<PlainText, WideFault>
    ensures spelled { IfOk result (λ plain. ((whole_of (text_at files.now) origin.now text.now).fault ≡ None)
        × (put_all unwritten (whole_of (text_at files.now) origin.now text.now).entries ≡ plain)) }
    ensures records { IfOk result (λ plain. (other : List (List ℕ)) → records_of other plain.text ≡ laid_read (whole_of (text_at files.now) origin.now text.now).entries) }
    ensures fault { IfErr result (λ fault. (fault ≡ no_memory) ⊎ ((whole_of (text_at files.now) origin.now text.now).fault ≡ Some fault)) }
{
    let mut plain = PlainText::new(alloc);
    let zone = FilePath::zone(alloc);
    let context = Context::new(origin);
    spell_file(alloc, files, &zone, max_depth(), text, context, &mut plain)?;
    Ok(plain)
}

/// Writes the lines of the records of a file and of those that it includes, at most so many deep, after a plain text.
#[cycle(spelling)]
fn spell_file(
    alloc: Global,
    files: &[IncludedFile],
    file: &FilePath,
    depth: u8,
    text: &[u8],
    context: Context,
    plain: &mut PlainText,
) -> Result<(), WideFault>
    requires in_force { IsInForce context }
    ensures read { OnOk result (put_whole plain.old (read_to depth (text_at files.now) file.now context text.now) ≡ (plain.new, None)) }
    ensures lawful { OnOk result (AreOfZone (read_to depth (text_at files.now) file.now context text.now).entries) }
    ensures fault { IfErr result (λ fault. (fault ≡ no_memory) ⊎ ((read_to depth (text_at files.now) file.now context text.now).fault ≡ Some fault)) }
{
    let mut records = WideRecords::within(alloc, text, context);
    while let Some(own) = next_of(alloc, &mut records, file)? {
        spell_entry(alloc, files, file, depth, &own, plain)?;
    }
    Ok(())
}

/// Writes the line of a record of a file, or those of the records of a file that it includes, after a plain text.
#[cycle(spelling)]
fn spell_entry(
    alloc: Global,
    files: &[IncludedFile],
    file: &FilePath,
    depth: u8,
    own: &WideEntry,
    plain: &mut PlainText,
) -> Result<(), WideFault>
    requires lawful { IsLawful own.now }
    ensures read { OnOk result (put_whole plain.old (entry_read (included_to depth (text_at files.now) file.now) file.now own.now) ≡ (plain.new, None)) }
    ensures lawful { OnOk result (AreOfZone (entry_read (included_to depth (text_at files.now) file.now) file.now own.now).entries) }
    ensures fault { IfErr result (λ fault. (fault ≡ no_memory) ⊎ ((entry_read (included_to depth (text_at files.now) file.now) file.now own.now).fault ≡ Some fault)) }
{
    match own {
        WideEntry::Record(rr) => spell_record(alloc, file, rr, plain),
        WideEntry::LeftOut(left) => pass_record(alloc, file, left, plain),
        WideEntry::Include(own) => {
            let found = file_for(alloc, files, file, depth, own)?;
            let text = without_mark(found.file.text.as_slice());
            let context = own.context.copy();
            spell_file(
                alloc,
                files,
                &found.file.path,
                found.depth,
                text,
                context,
                plain,
            )
        }
    }
}

/// A file that is included, and how many more may be between it and a record.
#[derive(Drop)]
struct Opened<'f> {
    file: &'f IncludedFile,
    depth: u8,
}

/// The file that an entry of a file includes, where so many more may be between.
fn file_for<'f>(
    alloc: Global,
    files: &'f [IncludedFile],
    file: &FilePath,
    depth: u8,
    own: &IncludeEntry,
) -> Result<Opened<'f>, WideFault>
    ensures deeper { IfOk result (λ opened. depth ≡ opened.depth + 1) }
    ensures read { IfOk result (λ opened. included_to depth (text_at files.now) file.now own.now
        ≡ read_to opened.depth (text_at files.now) opened.file.now.path own.now.context (after_mark opened.file.now.text.items)) }
    ensures fault { IfErr result (λ fault. (fault ≡ no_memory) ⊎ ((included_to depth (text_at files.now) file.now own.now).fault ≡ Some fault)) }
{
    let Some(depth) = depth.checked_sub(1) else {
        return Err(fault_at(alloc, file, own.line, WideCause::Include));
    };
    match found_in(alloc, files, file, own.path.as_bytes()) {
        Ok(Some(file)) => Ok(Opened { file, depth }),
        Ok(None) => Err(fault_at(alloc, file, own.line, WideCause::Include)),
        Err(AllocError) => Err(WideFault::no_memory(alloc)),
    }
}

/// Writes the line of a record of a file after a plain text.
fn spell_record(
    alloc: Global,
    file: &FilePath,
    rr: &RecordEntry,
    plain: &mut PlainText,
) -> Result<(), WideFault>
    requires folded { rr.now.owner ≡ fold_name rr.now.owner }
    requires lasts { rr.now.ttl.0 < 2 ^ 31 }
    ensures put { OnOk result (plain.new ≡ put plain.old file.now (entry.Record rr.now)) }
    ensures lawful { OnOk result (IsOfZone rr.now) }
    ensures fault { IfErr result (λ fault. fault ≡ no_memory) }
{
    let Ok(()) = plain.put(alloc, file, rr) else {
        return Err(WideFault::no_memory(alloc));
    };
    Ok(())
}

/// Counts a record of a file that is left out of a plain text.
fn pass_record(
    alloc: Global,
    file: &FilePath,
    left: &LeftOut,
    plain: &mut PlainText,
) -> Result<(), WideFault>
    ensures put { OnOk result (plain.new ≡ put plain.old file.now (entry.LeftOut left.now)) }
    ensures fault { IfErr result (λ fault. fault ≡ no_memory) }
{
    let Ok(()) = plain.pass(alloc, file, left) else {
        return Err(WideFault::no_memory(alloc));
    };
    Ok(())
}

/// A fault of a file; want of memory where there is none for it.
fn fault_at(alloc: Global, file: &FilePath, line: u64, cause: WideCause) -> WideFault
    ensures { (result ≡ no_memory) ⊎ (result ≡ record { file = file.now; line = line; cause = cause }) }
{
    WideFault::or_no_memory(alloc, WideFault::at(alloc, file, line, cause))
}

/// The next entry of a file; a fault has the file's path.
fn next_of(
    alloc: Global,
    records: &mut WideRecords<'_>,
    file: &FilePath,
) -> Result<Option<WideEntry>, WideFault>
    ensures entry { IfOk result (λ found. MatchOption found
        (records.old ≡ nothing)
        (λ own. records.old ≡ in_front own records.new)) }
    ensures lawful { IfOk result (λ found. IfSome found IsLawful) }
    ensures fault { IfErr result (λ fault. (fault ≡ no_memory) ⊎ ((records.old.entries ≡ []) × (option_map (at_file file.now) records.old.fault ≡ Some fault))) }
{
    match records.next(alloc) {
        Ok(found) => Ok(found),
        Err(fault) if fault.cause == Cause::NoMemory => Err(WideFault::no_memory(alloc)),
        Err(fault) => Err(fault_at(alloc, file, fault.line, WideCause::Text(fault.cause))),
    }
}

/// The zone of a zone file and of the files that it includes, its names relative to the origin: it is read from their plain text (RFC 1035, 5).
///
/// The fault is that of the first entry that has one, else what makes the records no zone, on the line of the record that shows it, 0 where none
/// does; `NoMemory`, at line 0, where a growth was refused.
pub fn read_wide_zone(
    alloc: Global,
    files: &[IncludedFile],
    text: &[u8],
    origin: &Name,
) -> Result<Zone, WideFault>
    ensures zone { IfOk result (λ zone. wide_zone (text_at files.now) origin.now text.now ≡ Ok zone) }
    ensures lawful { IfOk result (λ zone. IsZone zone) }
    ensures fault { IfErr result (λ fault. (fault ≡ no_memory) ⊎ (wide_zone (text_at files.now) origin.now text.now ≡ Err fault)) }
{
    let plain = plain_text(alloc, files, text, origin)?;
    match read_zone(alloc, plain.text().as_bytes(), &Name::root()) {
        Ok(zone) => Ok(zone),
        Err(fault) => Err(placed(alloc, &plain, fault)),
    }
}

/// A fault of a plain text in the file of its line; want of memory on no line.
fn placed(alloc: Global, plain: &PlainText, fault: FileFault) -> WideFault
    ensures memory { fault ≡ file.no_memory → result ≡ no_memory }
    ensures placed { (result ≡ no_memory) ⊎ (result ≡ fault_in plain.now fault) }
{
    if fault.cause == Cause::NoMemory {
        return WideFault::no_memory(alloc);
    }
    match plain.place(fault.line) {
        Some((file, line)) => fault_at(alloc, file, line, WideCause::Text(fault.cause)),
        None => WideFault::no_memory(alloc),
    }
}
