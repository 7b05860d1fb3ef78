//! What is in force in a zone file, and the directives that change it (RFC 1035, 5.1; RFC 2308, 4).
ghost use Rattle.std.specs.Prelude.{◌≡◌, ◌<◌, ◌^◌, Ok, Err, Some, None, map, ok_or, IfOk, IfErr, OnOk, IfSome};
ghost use Rattle.std.specs.Option.{option_map};
ghost use Rattle.master_file.specs.Records.{argument_of, directive_of};
ghost use Rattle.record_text.specs.Data.{IsToldOf};
ghost use Rattle.record_text.specs.NameWord.{owner_of};
ghost use Rattle.wide_file.specs.WideRecords.{after_entry, directed, include_of, minimum_ttl, path_of, start, ttl_in, IsInForce, IsLawful};
ghost use Rattle.wide_text.specs.Times.{ttl_of};
ghost use Rattle.zone_lexing.specs.Word.{written};

use crate::file_path::FilePath;
use crate::record_entry::{IncludeEntry, WideEntry};
use dns_name::Name;
use dns_rdata::{RData, Ttl};
use record_text::{Cause, owner, surplus};
use std::alloc::Global;
use wide_text::wide_ttl;
use zone_lexing::Word;

/// What is in force where an entry begins.
#[derive(Drop)]
pub(crate) struct Context {
    /// What names without a final dot have after them.
    pub origin: Name,
    /// The TTL of `$TTL`.
    pub default_ttl: Option<Ttl>,
    /// The owner of the record before, in lower case.
    pub owner: Option<Name>,
    /// The TTL of the record before.
    pub ttl: Option<Ttl>,
}

/// The directive that an entry's words begin with, and its arguments; None of a record. Whether the entry's line begins
/// with a blank.
pub(crate) fn directive<'w, 'a>(
    indented: bool,
    words: &'w [Word<'a>],
) -> Option<(&'a [u8], &'w [Word<'a>])>
    ensures { option_map (λ d. (d.0.now, map written d.1.now)) result ≡ directive_of indented (map written words.now) }
{
    if indented {
        return None;
    }
    let [Word::Plain(text), arguments @ ..] = words else {
        return None;
    };
    match text {
        [b'$', ..] => Some((text, arguments)),
        _ => None,
    }
}

impl Context {
    /// What is in force where a file begins.
    pub fn new(origin: &Name) -> Context
        ensures start { result ≡ start origin.now }
        ensures in_force { IsInForce result }
    {
        Context {
            origin: origin.copy(),
            default_ttl: None,
            owner: None,
            ttl: None,
        }
    }

    /// Puts a directive in force: `$ORIGIN` and `$TTL`, in any case (RFC 1035, 5.1; RFC 2308, 4).
    ///
    /// `Directive` at another one, and without an argument; the argument's own fault; `BadData` at a word after it, and
    /// `Unclosed` where no word stands. Nothing changes then.
    #[tactic(auto, unfolding(crate::specs::WideRecords::directed))]
    pub fn direct(&mut self, directive: &[u8], arguments: &[Word<'_>]) -> Result<(), Cause>
        requires in_force { IsInForce self.old }
        ensures put { OnOk result (directed self.old directive.now (map written arguments.now) ≡ Ok self.new) }
        ensures fault { IfErr result (λ cause. directed self.old directive.now (map written arguments.now) ≡ Err cause) }
        ensures in_force { IsInForce self.new }
    {
        if directive.eq_ignore_ascii_case(b"$ORIGIN") {
            self.origin = origin_of(arguments, &self.origin)?;
            return Ok(());
        }
        if directive.eq_ignore_ascii_case(b"$TTL") {
            self.default_ttl = Some(ttl_of(arguments)?);
            return Ok(());
        }
        Err(Cause::Directive)
    }

    /// The same with another origin.
    fn under(&self, origin: Name) -> Context
        requires in_force { IsInForce self.now }
        ensures under { result ≡ record self.now { origin = origin } }
        ensures in_force { IsInForce result }
    {
        Context {
            origin,
            default_ttl: self.default_ttl,
            owner: self.owner.as_ref().map(|owner| owner.copy()),
            ttl: self.ttl,
        }
    }

    /// What is in force, once more.
    pub fn copy(&self) -> Context
        requires in_force { IsInForce self.now }
        ensures same { result ≡ self.now }
        ensures in_force { IsInForce result }
    {
        self.under(self.origin.copy())
    }

    /// The file that a directive `$INCLUDE` names. It begins with what is in force, with the origin after the path where there is one (RFC 1035, 5.1).
    ///
    /// `Directive` without a path; `Unclosed` where no word stands; the origin's own fault; `BadData` at a word after it; `NoMemory` where there is none
    /// for the path.
    pub fn include(
        &self,
        alloc: Global,
        line: u64,
        arguments: &[Word<'_>],
    ) -> Result<IncludeEntry, Cause>
        requires in_force { IsInForce self.now }
        ensures lawful { IfOk result (λ own. IsInForce own.context) }
        ensures included { IfOk result (λ own. include_of self.now line (map written arguments.now) ≡ Ok own) }
        ensures fault { IfErr result (IsToldOf (include_of self.now line (map written arguments.now))) }
    {
        let [path, after @ ..] = arguments else {
            return Err(Cause::Directive);
        };
        let octets = path_of(*path)?;
        let origin = match after {
            [] => self.origin.copy(),
            _ => origin_of(after, &self.origin)?,
        };
        let path = FilePath::of(alloc, octets)?;
        Ok(IncludeEntry {
            line,
            path,
            context: self.under(origin),
        })
    }

    /// The TTL of a record: its own, else that of `$TTL`, else that of the record before, else an SOA's MINIMUM; `NoTtl` where there is none.
    pub fn ttl(&self, own: Option<Ttl>, rdata: &RData) -> Result<Ttl, Cause>
        requires in_force { IsInForce self.now }
        requires lasts { IfSome own (λ ttl. ttl.0 < 2 ^ 31) }
        ensures ttl { result ≡ ttl_in self.now own rdata.now.rtype rdata.now.octets }
        ensures lasts { IfOk result (λ ttl. ttl.0 < 2 ^ 31) }
    {
        match (own, self.default_ttl, self.ttl) {
            (Some(ttl), _, _) => Ok(ttl),
            (None, Some(ttl), _) => Ok(ttl),
            (None, None, Some(ttl)) => Ok(ttl),
            (None, None, None) => minimum(rdata),
        }
    }

    /// Puts the owner and the TTL of a record in force; of one that is left out its TTL only where one is written.
    pub fn pass(&mut self, own: &WideEntry)
        requires in_force { IsInForce self.old }
        requires lawful { IsLawful own.now }
        ensures passed { self.new ≡ after_entry self.old own.now }
        ensures in_force { IsInForce self.new }
    {
        match own {
            WideEntry::Record(rr) => {
                self.owner = Some(rr.owner.copy());
                self.ttl = Some(rr.ttl);
            }
            WideEntry::LeftOut(left) => {
                self.owner = Some(left.owner.copy());
                self.ttl = left.ttl.or(self.ttl);
            }
            WideEntry::Include(_) => {}
        }
    }
}

/// The TTL that an SOA's MINIMUM is; `NoTtl` of another type, and where it is over 2^31 - 1.
fn minimum(rdata: &RData) -> Result<Ttl, Cause>
    ensures ttl { result ≡ ok_or (minimum_ttl rdata.now.rtype rdata.now.octets) Cause.NoTtl }
    ensures lasts { IfOk result (λ ttl. ttl.0 < 2 ^ 31) }
{
    match rdata.soa() {
        Some(soa) if soa.minimum.0 <= Ttl::MAX.0 => Ok(soa.minimum),
        _ => Err(Cause::NoTtl),
    }
}

/// The path that a word is, outside quotes or between two: its octets as they are written.
pub(crate) fn path_of<'a>(word: Word<'a>) -> Result<&'a [u8], Cause>
    ensures path { IfOk result (λ path. path_of (written word.entry) ≡ Ok path.now) }
    ensures fault { IfErr result (λ cause. path_of (written word.entry) ≡ Err cause) }
{
    match word {
        Word::Plain(path) | Word::Quoted(path) => Ok(path),
        Word::Unclosed => Err(Cause::Unclosed),
    }
}

/// The name that the one argument of `$ORIGIN` is.
fn origin_of(arguments: &[Word<'_>], origin: &Name) -> Result<Name, Cause>
    ensures { result ≡ argument_of (owner_of origin.now) (map written arguments.now) }
{
    let [argument, after @ ..] = arguments else {
        return Err(Cause::Directive);
    };
    let name = owner(*argument, origin)?;
    match after {
        [] => Ok(name),
        [word, ..] => Err(surplus(*word)),
    }
}

/// The TTL that the one argument of `$TTL` is.
fn ttl_of(arguments: &[Word<'_>]) -> Result<Ttl, Cause>
    ensures ttl { result ≡ argument_of ttl_of (map written arguments.now) }
    ensures lasts { IfOk result (λ ttl. ttl.0 < 2 ^ 31) }
{
    let [argument, after @ ..] = arguments else {
        return Err(Cause::Directive);
    };
    let ttl = wide_ttl(*argument)?;
    match after {
        [] => Ok(ttl),
        [word, ..] => Err(surplus(*word)),
    }
}
