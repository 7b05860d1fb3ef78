//! Incremental transfers under way: the versions that were got of those after the client's (RFC 1995, 4).
ghost use Rattle.std.specs.Prelude.{◌≡◌, ◌++◌, ◌∷◌, [], true, IfOk, IfErr, OnOk};
ghost use Rattle.serve_core.specs.declared.transport.Transport.TheVariants.{Tcp};
ghost use Rattle.serve_core.specs.Transfers.{peer_over, is_permitted, messages_to};
ghost use Rattle.transfer_core.specs.Chain.{told_changes};
ghost use Rattle.zone_tree.specs.Zone.{soa_of};
ghost use Rattle.world_run.specs.Phases.{with_got};
ghost use Rattle.world_run.specs.Transfers.{sent_for, sent_answer, messages_answer};
ghost use Rattle.dns_message.specs.declared.query.Parsed.TheVariants.{Query as Asks};

use crate::fault::WorldFault;
use crate::lent::Request;
use crate::message_list::{MessageList, all_messages};
use crate::owner_list::OwnerList;
use crate::published::Published;
use crate::step::Answer;
use dns_message::{Parsed, Query, parse};
use serve_core::{Peer, Transport, is_permitted, transfer_reply};
use std::alloc::Global;
use std::marker::Model;
use transfer_core::{ChainView, VersionList};
use zone_tree::Version;

/// Versions that were got, the oldest first. Contracts see the list of them.
#[derive(Drop)]
pub struct GotVersions {
    items: Vec<Published>,
}

impl Model for GotVersions {
    ghost use Rattle.std.specs.Prelude.{List};
    ghost use Rattle.zone_tree.specs.Version.{Version as Numbered};

    ghost Value = { List Numbered };

    ghost view = { λ a. a.items.items };
}

impl GotVersions {
    /// No versions yet.
    pub fn new(alloc: Global) -> GotVersions
        ensures { result ≡ [] }
    {
        GotVersions {
            items: Vec::new(alloc),
        }
    }

    /// Adds a version at the end.
    fn push(&mut self, version: Published) -> Result<(), WorldFault>
        ensures ok { OnOk result (self.new ≡ self.old ++ version ∷ []) }
        ensures refused { IfErr result (λ fault. fault ≡ WorldFault.NoMemory) }
    {
        match self.items.push(version) {
            Ok(()) => Ok(()),
            Err(_) => Err(WorldFault::NoMemory),
        }
    }
}

/// The versions after the client's, or that not all of them were got.
struct Chain<'a> {
    whole: bool,
    versions: &'a GotVersions,
}

impl<'a> Drop for Chain<'a> {
    fn drop(self) {
        let Chain {
            whole: _,
            versions: _,
        } = self;
    }
}

impl<'a> VersionList for Chain<'a> {
    ghost versions = { λ chain. chain.versions.now };

    fn len(&self) -> usize {
        let versions = self.versions;
        versions.items.len()
    }

    fn version(&self, at: usize) -> Option<&Version> {
        let versions = self.versions;
        let published = versions.items.get(at)?;
        Some(published.version())
    }
}

impl<'a> ChainView for Chain<'a> {
    ghost whole = { λ chain. chain.whole };

    fn is_whole(&self) -> bool {
        self.whole
    }
}

/// A transfer, with the versions that were got for it so far.
#[derive(Drop)]
pub struct Sending<'a> {
    /// The owner of the version that is served.
    pub served: usize,
    /// The version that is served.
    pub version: Published,
    /// The question.
    pub request: Request<'a>,
    /// Whether each version after the client's, up to the served one, was got.
    pub whole: bool,
    /// The versions that were got, the oldest first.
    pub got: GotVersions,
}

impl<'a> Sending<'a> {
    /// What the question gets: the messages of the transfer (RFC 5936, 2.2).
    ///
    /// `NoMemory` where an allocation was refused.
    pub fn answer(&self, alloc: Global) -> Result<Answer, WorldFault>
        ensures ok { IfOk result (λ answer. answer ≡ sent_answer self.now) }
        ensures refused { IfErr result (λ fault. fault ≡ WorldFault.NoMemory) }
    {
        let said = parse(alloc, self.request.as_slice());
        match &said {
            Parsed::Query(query) => self.answer_query(alloc, query),
            Parsed::NoMemory(_) => Err(WorldFault::NoMemory),
            _ => Ok(Answer::Silent),
        }
    }

    /// What a query gets; nothing where it doesn't ask for a transfer that may be sent.
    fn answer_query(&self, alloc: Global, query: &Query) -> Result<Answer, WorldFault>
        ensures ok { IfOk result (λ answer. answer ≡ messages_answer (sent_for self.now (Asks query.now))) }
        ensures refused { IfErr result (λ fault. fault ≡ WorldFault.NoMemory) }
    {
        if !self.is_permitted(query) {
            return Ok(Answer::Silent);
        }
        match self.messages(alloc, query) {
            Ok(messages) => Ok(Answer::Messages(messages)),
            Err(fault) => Err(fault),
        }
    }

    /// Whether a query asks for a transfer of the served version that may be sent.
    fn is_permitted(&self, query: &Query) -> bool
        ensures { result ≡ is_permitted self.now.version.zone (peer_over Tcp true) query.now }
    {
        is_permitted(
            self.version.version(),
            query,
            Peer::over(Transport::Tcp, true),
        )
    }

    /// The messages of the transfer: an incremental one where each version was got that it asks for (RFC 1995, 4).
    ///
    /// `NoMemory` where an allocation was refused.
    fn messages(&self, alloc: Global, query: &Query) -> Result<MessageList, WorldFault>
        requires { is_permitted self.now.version.zone (peer_over Tcp true) query.now ≡ true }
        ensures ok { IfOk result (λ messages. messages
            ≡ messages_to self.now.version.zone (told_changes self.now.whole (soa_of self.now.version.zone) self.now.got) (peer_over Tcp true) query.now) }
        ensures refused { IfErr result (λ fault. fault ≡ WorldFault.NoMemory) }
    {
        let chain = Chain {
            whole: self.whole,
            versions: &self.got,
        };
        let peer = Peer::over(Transport::Tcp, true);
        all_messages(
            alloc,
            transfer_reply(self.version.version(), &chain, query, peer),
        )
    }
}

/// A transfer while entries of the window are being upgraded for it.
#[derive(Drop)]
pub struct Seeking<'a> {
    /// The transfer so far.
    pub sending: Sending<'a>,
    /// The weak owners of the entries that are to be upgraded after the present one, the oldest first.
    pub left: OwnerList,
    /// The strong owners that were got, the oldest first.
    pub owners: OwnerList,
}

impl<'a> Seeking<'a> {
    /// Adds an owner that was got, which finds this version.
    ///
    /// `NoMemory` where an allocation was refused, or where the version has so many references that they can't be counted.
    pub fn put_got(&mut self, owner: usize, version: &Published) -> Result<(), WorldFault>
        ensures ok { OnOk result (self.new ≡ with_got owner version.now self.old) }
        ensures refused { IfErr result (λ fault. fault ≡ WorldFault.NoMemory) }
    {
        if let Err(fault) = self.owners.push(owner) {
            return Err(fault);
        }
        match version.share() {
            Ok(version) => self.sending.got.push(version),
            Err(fault) => Err(fault),
        }
    }
}
