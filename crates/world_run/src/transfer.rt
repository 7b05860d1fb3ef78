//! How a question for a transfer begins (RFC 1995, 2 and 4; RFC 5936, 2.2).
ghost use Rattle.std.specs.Prelude.{◌≡◌, [], if◌then◌else◌, IfOk, IfErr};
ghost use Rattle.cell_core.specs.Words.{found_by};
ghost use Rattle.world_run.specs.Transfers.{sent_answer};
ghost use Rattle.world_run.specs.declared.phase.Phase.TheVariants.{Seek};
ghost use Rattle.world_run.specs.declared.sending.Seeking.{Seeking as SeekingRow};
ghost use Rattle.world_run.specs.declared.start.Start.TheVariants.{Refused, Answers, Takes};
ghost use Rattle.world_run.specs.World.{none_got as says_none_got, seek_start, transfer_asked, transfer_of};

use crate::calls::is_barred;
use crate::entries::later;
use crate::fault::WorldFault;
use crate::lent::Request;
use crate::owner_list::OwnerList;
use crate::phase::Phase;
use crate::play::Play;
use crate::published::Published;
use crate::sending::{GotVersions, Seeking, Sending};
use crate::start::Start;
use dns_message::{Parsed, Query, parse};
use serve_core::{Peer, Transport, is_permitted};
use std::alloc::Global;
use std::mem;

/// A transfer of an owner's version, for which no version is got yet.
fn none_got<'a>(
    alloc: Global,
    owner: usize,
    version: &Published,
    request: &Request<'a>,
) -> Result<Sending<'a>, WorldFault>
    ensures ok { IfOk result (λ sending. sending ≡ says_none_got owner version.now request.now) }
    ensures refused { IfErr result (λ fault. fault ≡ WorldFault.NoMemory) }
{
    match version.share() {
        Ok(version) => Ok(Sending {
            served: owner,
            version,
            request: request.copy(),
            whole: false,
            got: GotVersions::new(alloc),
        }),
        Err(fault) => Err(fault),
    }
}

/// How a transfer begins that upgrades no entry.
fn sent_at_once<'a>(alloc: Global, sending: Sending<'a>) -> Result<Start<'a>, WorldFault>
    ensures ok { IfOk result (λ how. how ≡ Answers (sent_answer sending.entry)) }
    ensures refused { IfErr result (λ fault. fault ≡ WorldFault.NoMemory) }
{
    let answer = sending.answer(alloc);
    mem::drop(sending);
    match answer {
        Ok(answer) => Ok(Start::Answers(answer)),
        Err(fault) => Err(fault),
    }
}

/// How a transfer begins that upgrades the entry with this owner, and then those with the owners that are left, where shares are left for all of them.
fn first_sought<'a>(
    alloc: Global,
    has_shares: bool,
    owner: usize,
    sending: Sending<'a>,
    left: OwnerList,
) -> Start<'a>
    ensures { result ≡ (if has_shares then Takes (Seek owner (record { sending = sending.entry; left = left; owners = [] })) else Refused) }
{
    if !has_shares {
        mem::drop(sending);
        mem::drop(left);
        return Start::Refused;
    }
    Start::Takes(Phase::Seek(
        owner,
        Seeking {
            sending,
            left,
            owners: OwnerList::new(alloc),
        },
    ))
}

impl<'a> Play<'a> {
    /// How a request over TCP for a transfer of an owner's version begins.
    ///
    /// `NoMemory` where an allocation was refused, or where the version has so many references that they can't be counted.
    pub(crate) fn transfer(
        &self,
        alloc: Global,
        owner: usize,
        request: &Request<'a>,
    ) -> Result<Start<'a>, WorldFault>
        ensures ok { IfOk result (λ how. how ≡ transfer_of self.now owner request.now (found_by self.now.words owner)) }
        ensures refused { IfErr result (λ fault. fault ≡ WorldFault.NoMemory) }
    {
        let Some(version) = self.machine.value(owner) else {
            return Ok(Start::Refused);
        };
        let said = parse(alloc, request.as_slice());
        match &said {
            Parsed::Query(query) => self.transfer_asked(alloc, owner, version, request, query),
            Parsed::NoMemory(_) => Err(WorldFault::NoMemory),
            _ => Ok(Start::Refused),
        }
    }

    /// How a question over TCP for a transfer that may be sent begins. Any other isn't enabled, nor is one for an incremental transfer while another call
    /// under way needs the window unchanged.
    fn transfer_asked(
        &self,
        alloc: Global,
        owner: usize,
        version: &Published,
        request: &Request<'a>,
        query: &Query,
    ) -> Result<Start<'a>, WorldFault>
        ensures ok { IfOk result (λ how. how ≡ transfer_asked self.now (says_none_got owner version.now request.now) query.now) }
        ensures refused { IfErr result (λ fault. fault ≡ WorldFault.NoMemory) }
    {
        if !is_permitted(version.version(), query, Peer::over(Transport::Tcp, true)) {
            return Ok(Start::Refused);
        }
        if query.serial.is_some() && is_barred(&self.calls) {
            return Ok(Start::Refused);
        }
        let number = version.version().number();
        match later(alloc, &self.entries, number, query.serial) {
            Ok(owners) => self.transfer_by(alloc, owner, version, request, owners),
            Err(fault) => Err(fault),
        }
    }

    /// How a transfer of an owner's version begins that upgrades the entries with these owners.
    fn transfer_by(
        &self,
        alloc: Global,
        owner: usize,
        version: &Published,
        request: &Request<'a>,
        owners: OwnerList,
    ) -> Result<Start<'a>, WorldFault>
        ensures ok { IfOk result (λ how. how ≡ seek_start self.now.words (says_none_got owner version.now request.now) owners) }
        ensures refused { IfErr result (λ fault. fault ≡ WorldFault.NoMemory) }
    {
        match none_got(alloc, owner, version, request) {
            Ok(sending) => self.seek(alloc, sending, owners),
            Err(fault) => {
                mem::drop(owners);
                Err(fault)
            }
        }
    }

    /// How a transfer begins that upgrades the entries with these owners.
    fn seek(
        &self,
        alloc: Global,
        sending: Sending<'a>,
        owners: OwnerList,
    ) -> Result<Start<'a>, WorldFault>
        ensures ok { IfOk result (λ how. how ≡ seek_start self.now.words sending.entry owners) }
        ensures refused { IfErr result (λ fault. fault ≡ WorldFault.NoMemory) }
    {
        let has_shares = self.machine.has_shares_for(owners.len());
        let mut left = owners;
        match left.take_first() {
            None => {
                mem::drop(left);
                sent_at_once(alloc, sending)
            }
            Some(owner) => Ok(first_sought(alloc, has_shares, owner, sending, left)),
        }
    }
}
