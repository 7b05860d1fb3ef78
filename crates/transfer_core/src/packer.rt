//! The messages of a transfer: whole records, as many in each as fit (RFC 5936, 2.2).
ghost use Rattle.std.specs.Prelude.{◌≡◌, true, ◌≤◌, List, [], ◌∷◌, ◌++◌, length, take, drop, map, MatchOption, IfSome, Some, None};
ghost use Rattle.std.specs.Option.{option_copied, option_map, option_to_list};
ghost use Rattle.dns_rdata.specs.Limits.{max_data};
ghost use Rattle.dns_name.specs.Name.{IsName};
ghost use Rattle.dns_rdata.specs.Record.{Record};
ghost use Rattle.dns_message.specs.Answers.{sent, first_of};
ghost use Rattle.dns_message.specs.declared.write.TheConstants.{MIN_LIMIT};
ghost use Rattle.transfer_core.specs.declared.packer.TheConstants.{MAX_MESSAGE};
ghost use Rattle.transfer_core.specs.Packed.{spelt, listed, opt_beside, packed, packed_from, packed_later, octets_of, datagram_of, datagram};

use crate::chain::ChainView;
use crate::changes::ChangesList;
use crate::list::{FullList, LentRecord, SetRecords};
use dns_message::{
    Head, MIN_LIMIT, Opt, Question, RecordList, Reply, SentRecord, write_answers, write_reply,
};
use dns_name::{Name, StoredName};
use dns_rdata::{LentName, RRset, Rcode, Shown};
use std::marker::Model;
use std::slice;

/// The most octets of a message of a transfer (own).
pub const MAX_MESSAGE: usize = 16384;

/// The records of a transfer that are left.
pub enum TransferRecords<'a, C: ChainView> {
    /// Those of a set: of the SOA alone, where the one who asks holds what is served (RFC 1995, 2).
    Set(SetRecords<'a>),
    /// Those of a zone in whole (RFC 5936, 2.2).
    Full(FullList<'a>),
    /// Those of what changed (RFC 1995, 4).
    Changes(ChangesList<'a, C>),
}

impl<'a, C: ChainView> Drop for TransferRecords<'a, C> {
    fn drop(self) {
        match self {
            TransferRecords::Set(_) => {}
            TransferRecords::Full(_) => {}
            TransferRecords::Changes(_) => {}
        }
    }
}

impl<'a, C: ChainView> TransferRecords<'a, C> {
    /// The next record.
    pub fn next_record(&mut self) -> Option<LentRecord<'a>>
        ensures { MatchOption result
            ((listed self.old ≡ []) × (listed self.new ≡ []))
            (λ r. listed self.old ≡ r ∷ listed self.new) }
    {
        match self {
            TransferRecords::Set(list) => list.next(),
            TransferRecords::Full(list) => list.next(),
            TransferRecords::Changes(list) => list.next(),
        }
    }
}

/// The records of a list as the one who asked for a name is shown them: that name keeps the spelling asked (own). The owner of the next
/// one is kept as it is shown, and whether that is as the zone keeps it.
pub(crate) struct SpeltList<'a, C: ChainView> {
    name: &'a Name,
    next: Option<LentRecord<'a>>,
    owner: Name,
    is_stored: bool,
    rest: TransferRecords<'a, C>,
    ghost stored: { (r : Record) → is_stored ≡ true → next ≡ Some r → owner ≡ r.owner },
    ghost owned: { (r : Record) → next ≡ Some r → record r { owner = owner } ≡ spelt name.now r },
    ghost ended: { next ≡ None → listed rest ≡ [] },
}

impl<'a, C: ChainView> Drop for SpeltList<'a, C> {
    fn drop(self) {
        let SpeltList {
            name: _,
            next: _,
            owner: _,
            is_stored: _,
            rest: _,
        } = self;
    }
}

impl<'a, C: ChainView> SpeltList<'a, C> {
    fn new(name: &'a Name, mut list: TransferRecords<'a, C>) -> SpeltList<'a, C>
        ensures { map (spelt result.name.now) (option_to_list result.next ++ listed result.rest) ≡ map (spelt name.now) (listed list.entry) }
    {
        let next = list.next_record();
        let mut owner = Name::root();
        let is_stored = spell_owner(&mut owner, name, None, &next);
        SpeltList {
            name,
            next,
            owner,
            is_stored,
            rest: list,
        }
    }
}

impl<'a, C: ChainView> SpeltList<'a, C> {
    /// The owner of the next record as the zone keeps it, where it is shown so.
    fn stored_owner(&self) -> Option<&'a StoredName>
        ensures { IfSome result (λ stored. stored.now ≡ self.now.owner) }
    {
        if !self.is_stored {
            return None;
        }
        match &self.next {
            Some(record) => Some(record.owner()),
            None => None,
        }
    }
}

impl<'a, C: ChainView> RecordList for SpeltList<'a, C> {
    ghost left = { λ list. map (spelt list.name.now) (option_to_list list.next ++ listed list.rest) };

    fn first(&self) -> Option<SentRecord<'_>>
        ensures shown { option_map sent result ≡ first_of (map (spelt self.now.name.now) (option_to_list self.now.next ++ listed self.now.rest)) }
        ensures lawful { IfSome result (λ r. IsName r.owner.now) }
        ensures short { IfSome result (λ r. length r.rdata.now ≤ max_data) }
    {
        match &self.next {
            None => None,
            Some(record) => Some(sent_to(&self.owner, record)),
        }
    }

    fn advance(&mut self) {
        let before = self.stored_owner();
        self.next = self.rest.next_record();
        self.is_stored = spell_owner(&mut self.owner, self.name, before, &self.next);
    }
}

/// Becomes the owner of the next record, where there is one, as the one who asked for a name is shown it, where it is the owner before, if one
/// is told, as the zone keeps it. Whether it is as the zone keeps it again.
fn spell_owner(
    owner: &mut Name,
    name: &Name,
    before: Option<&StoredName>,
    next: &Option<LentRecord<'_>>,
) -> bool
    requires { IfSome before (λ stored. owner.old ≡ stored.now) }
    ensures shown { (r : Record) → next.now ≡ Some r → record r { owner = owner.new } ≡ spelt name.now r }
    ensures stored { (r : Record) → result ≡ true → next.now ≡ Some r → owner.new ≡ r.owner }
{
    let Some(record) = next else {
        return false;
    };
    match before {
        Some(stored) if stored.octets() == record.owner().octets() => {}
        Some(stored) => owner.set_stored_behind(stored, record.owner()),
        None => owner.set_stored(record.owner()),
    }
    if *owner == *name {
        *owner = name.copy();
        return false;
    }
    true
}

/// A record whose owner is shown so.
fn sent_to<'a>(owner: &'a Name, lent: &LentRecord<'a>) -> SentRecord<'a>
    ensures shown { sent result ≡ record lent.now { owner = owner.now } }
    ensures lawful { IsName result.owner.now }
    ensures short { length result.rdata.now ≤ max_data }
{
    learn_lawful(owner);
    SentRecord {
        owner,
        rtype: lent.rtype(),
        ttl: lent.ttl(),
        rdata: lent.rdata().octets(),
    }
}

/// Looks at a name's octets for a proof alone, which learns by it that they are those of a name.
fn learn_lawful(name: &Name)
    ensures { IsName name.now }
{
    let _ = name.wire();
}

/// Writes the one message of a list over UDP: the list where all of it fits `out`; else the SOA alone, and where that
/// doesn't fit either, the header, the question and the OPT with TC 1 (RFC 1995, 2; own).
fn write_datagram<C: ChainView>(
    head: Head,
    question: &Question,
    opt: Option<Opt>,
    records: &mut SpeltList<'_, C>,
    soa: &RRset,
    out: &mut [u8],
) -> usize
    requires least { MIN_LIMIT ≤ length out.old }
    requires most { length out.old ≤ MAX_MESSAGE }
    ensures octets { take result out.new ≡ datagram_of head question.now opt (length out.old) (map (spelt records.old.name.now) (option_to_list records.old.next ++ listed records.old.rest)) soa.now }
    ensures len { result ≤ length out.old }
{
    let (len, _) = write_answers(head, Some(question), opt, records, out);
    let is_whole = records.first().is_none();
    if is_whole {
        return len;
    }
    let shown = Shown {
        owner: LentName::spelt(&question.name),
        ttl: None,
        sets: slice::from_ref(soa),
    };
    let reply = Reply {
        head,
        rcode: Rcode::NoError,
        aa: true,
        question: Some(question),
        answer: slice::from_ref(&shown),
        authority: &[],
        additional: &[],
        opt,
        below_cut: false,
    };
    write_reply(&reply, out.len(), out)
}

/// The OPT that stands beside a question, in the first message of a transfer alone (RFC 6891, 6.1.1; own).
fn opt_beside(question: Option<&Question>, opt: Option<Opt>) -> Option<Opt>
    ensures { result ≡ opt_beside (option_copied question.entry) opt }
{
    question?;
    opt
}

/// Writes the first message of records over TCP to the front of `out`, with a question that is still to be sent and the OPT beside it, or
/// without one: how many octets it has, and how many of the records; they are after these then. None where neither a question nor
/// a record is left (RFC 5936, 2.2; RFC 6891, 6.1.1; own).
fn write_first<C: ChainView>(
    head: Head,
    question: Option<&Question>,
    opt: Option<Opt>,
    records: &mut SpeltList<'_, C>,
    out: &mut [u8],
) -> Option<(usize, u16)>
    requires { MAX_MESSAGE ≤ length out.old }
    ensures message { MatchOption result
        ((option_copied question.entry ≡ None) × (map (spelt records.old.name.now) (option_to_list records.old.next ++ listed records.old.rest) ≡ []) × (map (spelt records.new.name.now) (option_to_list records.new.next ++ listed records.new.rest) ≡ []) × (out.new ≡ out.old))
        (λ m. (octets_of (packed_from head (option_copied question.entry) opt (map (spelt records.old.name.now) (option_to_list records.old.next ++ listed records.old.rest))) ≡ take m.0 out.new ∷ octets_of (packed_later head (map (spelt records.new.name.now) (option_to_list records.new.next ++ listed records.new.rest))))
        × (m.0 ≤ MAX_MESSAGE) × (map (spelt records.new.name.now) (option_to_list records.new.next ++ listed records.new.rest) ≡ drop m.1 (map (spelt records.old.name.now) (option_to_list records.old.next ++ listed records.old.rest)))) }
    ensures behind { drop MAX_MESSAGE out.new ≡ drop MAX_MESSAGE out.old }
{
    let ended = records.first().is_none();
    if ended && question.is_none() {
        return None;
    }
    let opt = opt_beside(question, opt);
    let room = &mut out[..MAX_MESSAGE];
    Some(write_answers(head, question, opt, records, room))
}

/// Writes the first message of a list over TCP to the front of `out`: with the question, where that is still to be sent, and the OPT
/// of the reply beside it, or none. The name is the one asked. Gives how many octets it has, and how many of the list's records; None
/// where neither a question nor a record is left. What is after the first [`MAX_MESSAGE`] octets stays (RFC 5936, 2.2; RFC 1995, 4;
/// RFC 6891, 6.1.1; own). It takes no memory.
pub fn write_message<'a, C: ChainView>(
    head: Head,
    name: &'a Name,
    question: Option<&Question>,
    opt: Option<Opt>,
    list: TransferRecords<'a, C>,
    out: &mut [u8],
) -> Option<(usize, u16)>
    requires { MAX_MESSAGE ≤ length out.old }
    ensures message { MatchOption result
        (octets_of (packed_from head (option_copied question.entry) opt (map (spelt name.now) (listed list.entry))) ≡ [])
        (λ m. octets_of (packed_from head (option_copied question.entry) opt (map (spelt name.now) (listed list.entry)))
        ≡ take m.0 out.new ∷ octets_of (packed_later head (map (spelt name.now) (drop m.1 (listed list.entry))))) }
    ensures len { IfSome result (λ m. m.0 ≤ MAX_MESSAGE) }
    ensures behind { drop MAX_MESSAGE out.new ≡ drop MAX_MESSAGE out.old }
{
    let mut records = SpeltList::new(name, list);
    write_first(head, question, opt, &mut records, out)
}

/// The messages of a transfer, one after another: whole records, as many in each as fit into [`MAX_MESSAGE`] octets. The first
/// has the question, and an OPT where the request has one; all have its header's ID, AA 1 and names with pointers into the same
/// message (RFC 5936, 2.2; RFC 6891, 6.1.1; own). Over UDP there is one message (RFC 1995, 2). It takes no memory. Contracts see the octets of the messages that are left.
pub struct Packer<'a, C: ChainView> {
    head: Head,
    question: Option<&'a Question>,
    opt: Option<Opt>,
    soa: Option<&'a RRset>,
    limit: usize,
    records: SpeltList<'a, C>,
    ghost least: { MIN_LIMIT ≤ limit },
    ghost most: { limit ≤ MAX_MESSAGE },
}

impl<'a, C: ChainView> Model for Packer<'a, C> {
    ghost use Rattle.std.specs.Prelude.{List, ℕ, map, ◌++◌};
    ghost use Rattle.std.specs.Option.{option_copied, option_to_list};
    ghost use Rattle.transfer_core.specs.Packed.{messages_left, spelt, listed};

    ghost Value = { List (List ℕ) };

    ghost view = { λ p. messages_left p.head (option_copied p.question) p.opt p.limit (option_copied p.soa) (map (spelt p.records.name.now) (option_to_list p.records.next ++ listed p.records.rest)) };
}

impl<'a, C: ChainView> Drop for Packer<'a, C> {
    fn drop(self) {
        let Packer {
            head: _,
            question: _,
            opt: _,
            soa: _,
            limit: _,
            records: _,
        } = self;
    }
}

impl<'a, C: ChainView> Packer<'a, C> {
    /// For a list that a question asks for over TCP, with the OPT of the reply, or none (RFC 5936, 2.2; RFC 1995, 4;
    /// RFC 6891, 6.1.1).
    pub fn new(
        head: Head,
        question: &'a Question,
        opt: Option<Opt>,
        list: TransferRecords<'a, C>,
    ) -> Packer<'a, C>
        ensures { result ≡ octets_of (packed head question.now opt (listed list.entry)) }
    {
        Packer {
            head,
            question: Some(question),
            opt,
            soa: None,
            limit: MAX_MESSAGE,
            records: SpeltList::new(&question.name, list),
        }
    }

    /// For a list that a question asks for over UDP, with the OPT of the reply, or none; the most octets of the datagram; and the
    /// set of the SOA that is sent where the list doesn't fit into so many (RFC 1995, 2; RFC 6891, 6.1.1 and 6.2.5; own).
    pub fn datagram(
        head: Head,
        question: &'a Question,
        opt: Option<Opt>,
        limit: usize,
        list: TransferRecords<'a, C>,
        soa: &'a RRset,
    ) -> Packer<'a, C>
        requires least { MIN_LIMIT ≤ limit }
        requires most { limit ≤ MAX_MESSAGE }
        ensures { result ≡ datagram head question.now opt limit (listed list.entry) soa.now ∷ [] }
    {
        Packer {
            head,
            question: Some(question),
            opt,
            soa: Some(soa),
            limit,
            records: SpeltList::new(&question.name, list),
        }
    }

    /// Writes the next message to the front of `out`, and gives how many octets it has; None at the end. What is after the
    /// first [`MAX_MESSAGE`] octets stays, and at the end all of it (RFC 5936, 2.2).
    pub fn next_message(&mut self, out: &mut [u8]) -> Option<usize>
        requires { MAX_MESSAGE ≤ length out.old }
        ensures message { MatchOption result
            ((self.old ≡ []) × (self.new ≡ []) × (out.new ≡ out.old))
            (λ len. (self.old ≡ take len out.new ∷ self.new) × (len ≤ MAX_MESSAGE)) }
        ensures behind { drop MAX_MESSAGE out.new ≡ drop MAX_MESSAGE out.old }
    {
        if let Some(soa) = self.soa {
            let question = self.question.take()?;
            let room = &mut out[..self.limit];
            return Some(write_datagram(
                self.head,
                question,
                self.opt,
                &mut self.records,
                soa,
                room,
            ));
        }
        let question = self.question.take();
        let (len, _) = write_first(self.head, question, self.opt, &mut self.records, out)?;
        Some(len)
    }
}
