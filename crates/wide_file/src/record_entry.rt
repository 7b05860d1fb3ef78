//! The entries of a zone file that change nothing of what is in force (RFC 1035, 5.1).
ghost use Rattle.std.specs.Prelude.{◌≡◌, ◌<◌, ◌^◌, Ok, Err, map, IfOk, IfErr, IfSome};
ghost use Rattle.dns_name.specs.Name.{fold_name};
ghost use Rattle.record_text.specs.Data.{IsToldOf};
ghost use Rattle.record_text.specs.Front.{front_seen};
ghost use Rattle.wide_file.specs.WideRecords.{entry_of, entry_with, owned_of, rr_of, IsInForce, IsLawful};
ghost use Rattle.zone_lexing.specs.Word.{written};

use crate::context::Context;
use crate::file_path::FilePath;
use dns_name::Name;
use dns_rdata::Ttl;
use master_file::RecordEntry;
use record_text::{Cause, Front, owner};
use std::alloc::Global;
use wide_text::{is_left_out, read_wide_data, read_wide_front};
use zone_lexing::Word;

/// An entry of a zone file: a record, or a directive that includes a file.
#[derive(Drop)]
pub enum WideEntry {
    /// A record.
    Record(RecordEntry),
    /// A record that is left out.
    LeftOut(LeftOut),
    /// A file that is included.
    Include(IncludeEntry),
}

/// A record that is left out: its data isn't read.
#[derive(Drop)]
pub struct LeftOut {
    /// The line on which its entry begins, counted from 1.
    pub line: u64,
    /// The owner, in lower case.
    pub owner: Name,
    /// The TTL, in seconds, where it has one.
    pub ttl: Option<Ttl>,
}

/// A directive `$INCLUDE` (RFC 1035, 5.1).
#[derive(Drop)]
pub struct IncludeEntry {
    /// The line on which its entry begins, counted from 1.
    pub line: u64,
    /// The path, as it is written.
    pub path: FilePath,
    /// What is in force where the file begins.
    pub(crate) context: Context,
}

/// The record that an entry's words stand for: its owner, TTL and class in either order, its type and its data
/// (RFC 1035, 5.1). The words are read from left to right, and the first fault is returned.
pub(crate) fn read_entry(
    alloc: Global,
    context: &Context,
    line: u64,
    indented: bool,
    words: &[Word<'_>],
) -> Result<WideEntry, Cause>
    requires in_force { IsInForce context.now }
    ensures entry { IfOk result (λ entry. entry_of context.now line indented (map written words.now) ≡ Ok entry) }
    ensures lawful { IfOk result IsLawful }
    ensures fault { IfErr result (IsToldOf (entry_of context.now line indented (map written words.now))) }
{
    let (owner, after) = read_owner(context, indented, words)?;
    let front = read_wide_front(after)?;
    read_with_front(alloc, context, line, owner, front)
}

/// The owner of a record, and the words after it.
fn read_owner<'w, 'a>(
    context: &Context,
    indented: bool,
    words: &'w [Word<'a>],
) -> Result<(Name, &'w [Word<'a>]), Cause>
    requires in_force { IsInForce context.now }
    ensures folded { IfOk result (λ owned. owned.0 ≡ fold_name owned.0) }
    ensures owned { IfOk result (λ owned. owned_of context.now indented (map written words.now) ≡ Ok (owned.0, map written owned.1.now)) }
    ensures fault { IfErr result (λ cause. owned_of context.now indented (map written words.now) ≡ Err cause) }
{
    if indented {
        return match &context.owner {
            Some(owner) => Ok((owner.copy(), words)),
            None => Err(Cause::NoOwner),
        };
    }
    let [word, after @ ..] = words else {
        return Err(Cause::BadData);
    };
    Ok((owner(*word, &context.origin)?.fold(), after))
}

/// The record of an owner, by what stands before its data: left out, or with its data read.
fn read_with_front(
    alloc: Global,
    context: &Context,
    line: u64,
    owner: Name,
    front: Front<'_, '_>,
) -> Result<WideEntry, Cause>
    requires in_force { IsInForce context.now }
    requires folded { owner ≡ fold_name owner }
    requires lasts { IfSome front.ttl (λ ttl. ttl.0 < 2 ^ 31) }
    ensures entry { IfOk result (λ entry. entry_with context.now line owner (front_seen front.entry) ≡ Ok entry) }
    ensures lawful { IfOk result IsLawful }
    ensures fault { IfErr result (IsToldOf (entry_with context.now line owner (front_seen front.entry))) }
{
    if is_left_out(front.rtype, front.words)? {
        return Ok(WideEntry::LeftOut(LeftOut {
            line,
            owner,
            ttl: front.ttl,
        }));
    }
    Ok(WideEntry::Record(read_data_of(alloc, context, line, owner, front)?))
}

/// The record of an owner, by what stands before its data.
fn read_data_of(
    alloc: Global,
    context: &Context,
    line: u64,
    owner: Name,
    front: Front<'_, '_>,
) -> Result<RecordEntry, Cause>
    requires in_force { IsInForce context.now }
    requires folded { owner ≡ fold_name owner }
    requires lasts { IfSome front.ttl (λ ttl. ttl.0 < 2 ^ 31) }
    ensures rr { IfOk result (λ rr. rr_of context.now line owner (front_seen front.entry) ≡ Ok rr) }
    ensures lasts { IfOk result (λ rr. rr.ttl.0 < 2 ^ 31) }
    ensures folded { IfOk result (λ rr. rr.owner ≡ fold_name rr.owner) }
    ensures fault { IfErr result (IsToldOf (rr_of context.now line owner (front_seen front.entry))) }
{
    let rdata = read_wide_data(alloc, front.rtype, front.words, &context.origin)?;
    let ttl = context.ttl(front.ttl, &rdata)?;
    Ok(RecordEntry {
        line,
        owner,
        ttl,
        rdata,
    })
}
