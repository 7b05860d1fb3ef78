//! A zone file, read record by record (RFC 1035, 5.1; RFC 2308, 4).
ghost use Rattle.std.specs.Prelude.{◌≡◌, ◌<◌, ◌^◌, ◌⊎◌, List, [], map, Some, Ok, Err, IfOk, IfErr, OnErr, IfSome, MatchOption};
ghost use Rattle.record_text.specs.Data.{IsToldOf};
ghost use Rattle.master_file.specs.Fault.{no_memory};
ghost use Rattle.master_file.specs.Records.{fault_at, IsFirst};
ghost use Rattle.wide_file.specs.WideRecords.{after_entry, faulty, in_front, judged, nothing, obeyed, records_in, wide_records, IsInForce, IsLawful};
ghost use Rattle.zone_lexing.specs.Word.{written};

use crate::context::{Context, directive};
use crate::record_entry::{WideEntry, read_entry};
use dns_name::Name;
use master_file::FileFault;
use record_text::Cause;
use std::alloc::{AllocError, Global};
use std::marker::Model;
use zone_lexing::{Entries, EntryHead, Word};

/// What isn't read yet of a zone file. Contracts see its records and the files that it includes, up to the first fault, and that fault.
#[derive(Drop)]
pub struct WideRecords<'a> {
    entries: Entries<'a>,
    words: Vec<Word<'a>>,
    context: Context,
}

impl<'a> Model for WideRecords<'a> {
    ghost use Rattle.wide_file.specs.WideRecords.{records_from, IsInForce, WideRead};

    ghost Value = { WideRead };

    ghost view = { λ a. records_from a.context a.entries };

    ghost invariant = { λ a. IsInForce a.context };
}

impl<'a> WideRecords<'a> {
    /// All of a file's text, its names relative to the origin.
    pub fn new(alloc: Global, text: &'a [u8], origin: &Name) -> WideRecords<'a>
        ensures { result ≡ wide_records origin.now text.now }
    {
        WideRecords::within(alloc, text, Context::new(origin))
    }

    /// All of a text, where this is in force at its start.
    pub(crate) fn within(alloc: Global, text: &'a [u8], context: Context) -> WideRecords<'a>
        requires { IsInForce context }
        ensures { result ≡ records_in context text.now }
    {
        WideRecords {
            entries: Entries::new(text),
            words: Vec::new(alloc),
            context,
        }
    }

    /// The next record, one that is left out, or a file that is included; None after the last. Entries are read in order and the words of each from left to right, and the
    /// first fault is returned (RFC 1035, 5.1).
    ///
    /// `NoMemory` only where a growth was refused, at line 0. Nothing is said of the entries after a fault.
    pub fn next(&mut self, alloc: Global) -> Result<Option<WideEntry>, FileFault>
        ensures entry { IfOk result (λ found. MatchOption found
            (self.old ≡ nothing)
            (λ own. self.old ≡ in_front own self.new)) }
        ensures lawful { IfOk result (λ found. IfSome found IsLawful) }
        ensures fault { IfErr result (λ fault. (fault ≡ no_memory) ⊎ (self.old ≡ faulty fault)) }
    {
        loop {
            let Some(head) = next_entry(&mut self.entries, &mut self.words)? else {
                return Ok(None);
            };
            match judge(alloc, &mut self.context, head, &self.words) {
                Ok(Some(own)) => return Ok(Some(own)),
                Ok(None) => {}
                Err(cause) => return Err(fault(head, cause)),
            }
        }
    }
}

/// The next entry, with its words in the list that is given; a quote or a parenthesis without its other one stands
/// after them.
pub(crate) fn next_entry<'a>(
    entries: &mut Entries<'a>,
    words: &mut Vec<Word<'a>>,
) -> Result<Option<EntryHead>, AllocError>
    ensures first { IfOk result (λ found. MatchOption found
        ((entries.old ≡ []) × (entries.new ≡ []))
        (λ head. IsFirst entries.old entries.new head (map written words.new.items))) }
{
    let Some(head) = entries.next(words)? else {
        return Ok(None);
    };
    if head.unclosed.is_some() {
        let Ok(()) = words.push(Word::Unclosed) else {
            return Err(AllocError);
        };
    }
    Ok(Some(head))
}

/// A fault of an entry, on its line; that of a quote or a parenthesis without its other one on the line of that, and want
/// of memory on no line.
fn fault(head: EntryHead, cause: Cause) -> FileFault
    ensures { result ≡ fault_at head.line head.unclosed cause }
{
    let line = match cause {
        Cause::Unclosed => head.unclosed.unwrap_or(head.line),
        Cause::NoMemory => 0,
        _ => head.line,
    };
    FileFault { line, cause }
}

/// Reads an entry's words: a directive is put in force, and a record is read, or the file that is included; None where there is none.
fn judge(
    alloc: Global,
    context: &mut Context,
    head: EntryHead,
    words: &[Word<'_>],
) -> Result<Option<WideEntry>, Cause>
    requires in_force { IsInForce context.old }
    ensures judged { IfOk result (λ found. judged context.old head.line head.indented (map written words.now) ≡ Ok (context.new, found)) }
    ensures lawful { IfOk result (λ found. IfSome found IsLawful) }
    ensures fault { IfErr result (IsToldOf (judged context.old head.line head.indented (map written words.now))) }
    ensures in_force { IsInForce context.new }
{
    if let Some((directive, arguments)) = directive(head.indented, words) {
        return obey(alloc, context, head.line, directive, arguments);
    }
    let own = read_entry(alloc, context, head.line, head.indented, words)?;
    context.pass(&own);
    Ok(Some(own))
}

/// Obeys a directive: one that includes a file is returned, and another one is put in force.
#[tactic(auto, unfolding(crate::specs::WideRecords::obeyed))]
fn obey(
    alloc: Global,
    context: &mut Context,
    line: u64,
    directive: &[u8],
    arguments: &[Word<'_>],
) -> Result<Option<WideEntry>, Cause>
    requires in_force { IsInForce context.old }
    ensures obeyed { IfOk result (λ found. obeyed context.old line directive.now (map written arguments.now) ≡ Ok (context.new, found)) }
    ensures lawful { IfOk result (λ found. IfSome found IsLawful) }
    ensures fault { IfErr result (IsToldOf (obeyed context.old line directive.now (map written arguments.now))) }
    ensures in_force { IsInForce context.new }
{
    if directive.eq_ignore_ascii_case(b"$INCLUDE") {
        let own = context.include(alloc, line, arguments)?;
        return Ok(Some(WideEntry::Include(own)));
    }
    context.direct(directive, arguments)?;
    Ok(None)
}
