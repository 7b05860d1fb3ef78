//! What is in force in a zone's text, and the directives that change it (RFC 1035, 5.1; RFC 2308, 4).
ghost use Rattle.std.specs.Prelude.{◌≡◌, ◌<◌, ◌^◌, Ok, Err, Some, None, map, IfOk, IfErr, OnOk, IfSome};
ghost use Rattle.std.specs.Option.{option_map};
ghost use Rattle.record_text.specs.Front.{ttl_of};
ghost use Rattle.record_text.specs.NameWord.{owner_of};
ghost use Rattle.master_file.specs.Records.{argument_of, directed, directive_of, ttl_in, start, IsInForce};
ghost use Rattle.zone_lexing.specs.Word.{written};

use dns_name::Name;
use dns_rdata::Ttl;
use record_text::{Cause, owner, surplus, ttl};
use zone_lexing::Word;

/// What is in force where an entry begins.
#[derive(Drop)]
pub(crate) struct Context {
    /// What names without a final dot have after them.
    pub origin: Name,
    /// The TTL of `$TTL`.
    pub default_ttl: Option<Ttl>,
    /// The owner of the record before, in lower case.
    pub owner: Option<Name>,
    /// The TTL of the record before.
    pub ttl: Option<Ttl>,
}

/// The directive that an entry's words begin with, and its arguments; None of a record. Whether the entry's line begins
/// with a blank.
pub(crate) fn directive<'w, 'a>(
    indented: bool,
    words: &'w [Word<'a>],
) -> Option<(&'a [u8], &'w [Word<'a>])>
    ensures { option_map (λ d. (d.0.now, map written d.1.now)) result ≡ directive_of indented (map written words.now) }
{
    if indented {
        return None;
    }
    let [Word::Plain(text), arguments @ ..] = words else {
        return None;
    };
    match text {
        [b'$', ..] => Some((text, arguments)),
        _ => None,
    }
}

impl Context {
    /// What is in force where a text begins.
    pub fn new(origin: &Name) -> Context
        ensures start { result ≡ start origin.now }
        ensures in_force { IsInForce result }
    {
        Context {
            origin: origin.copy(),
            default_ttl: None,
            owner: None,
            ttl: None,
        }
    }

    /// Puts a directive in force: `$ORIGIN` and `$TTL`, in upper case (RFC 1035, 5.1; RFC 2308, 4).
    ///
    /// `Directive` at another one, and without an argument; the argument's own fault; `BadData` at a word after it, and
    /// `Unclosed` where no word stands. Nothing changes then.
    #[tactic(auto, unfolding(crate::specs::Records::directed))]
    pub fn direct(&mut self, directive: &[u8], arguments: &[Word<'_>]) -> Result<(), Cause>
        requires in_force { IsInForce self.old }
        ensures put { OnOk result (directed self.old directive.now (map written arguments.now) ≡ Ok self.new) }
        ensures fault { IfErr result (λ cause. directed self.old directive.now (map written arguments.now) ≡ Err cause) }
        ensures in_force { IsInForce self.new }
    {
        if directive == b"$ORIGIN".as_slice() {
            self.origin = origin_of(arguments, &self.origin)?;
            return Ok(());
        }
        if directive == b"$TTL".as_slice() {
            self.default_ttl = Some(ttl_of(arguments)?);
            return Ok(());
        }
        Err(Cause::Directive)
    }

    /// The TTL of a record: its own, else that of `$TTL`, else that of the record before; `NoTtl` where there is none.
    pub fn ttl(&self, own: Option<Ttl>) -> Result<Ttl, Cause>
        requires in_force { IsInForce self.now }
        requires lasts { IfSome own (λ ttl. ttl.0 < 2 ^ 31) }
        ensures ttl { result ≡ ttl_in self.now own }
        ensures lasts { IfOk result (λ ttl. ttl.0 < 2 ^ 31) }
    {
        match (own, self.default_ttl, self.ttl) {
            (Some(ttl), _, _) => Ok(ttl),
            (None, Some(ttl), _) => Ok(ttl),
            (None, None, Some(ttl)) => Ok(ttl),
            (None, None, None) => Err(Cause::NoTtl),
        }
    }
}

/// The name that the one argument of `$ORIGIN` is.
fn origin_of(arguments: &[Word<'_>], origin: &Name) -> Result<Name, Cause>
    ensures { result ≡ argument_of (owner_of origin.now) (map written arguments.now) }
{
    let [argument, behind @ ..] = arguments else {
        return Err(Cause::Directive);
    };
    let name = owner(*argument, origin)?;
    match behind {
        [] => Ok(name),
        [word, ..] => Err(surplus(*word)),
    }
}

/// The TTL that the one argument of `$TTL` is.
fn ttl_of(arguments: &[Word<'_>]) -> Result<Ttl, Cause>
    ensures ttl { result ≡ argument_of ttl_of (map written arguments.now) }
    ensures lasts { IfOk result (λ ttl. ttl.0 < 2 ^ 31) }
{
    let [argument, behind @ ..] = arguments else {
        return Err(Cause::Directive);
    };
    let ttl = ttl(*argument)?;
    match behind {
        [] => Ok(ttl),
        [word, ..] => Err(surplus(*word)),
    }
}
