//! The handler of the requests of connections, on top of a server.
ghost use Rattle.std.specs.Prelude.{◌≡◌, ◌≢◌, ◌≤◌, ◌⊎◌, ℕ, true, false, None, length, IfOk, IfErr, OnErr};
ghost use Rattle.dns_message.specs.Message.{message_limit};
ghost use Rattle.zone_tree.specs.Version.{Version};
ghost use Rattle.tcp_connections.specs.Requests.{EachGrows};
ghost use Rattle.tcp_connections.specs.Kept.{messages_of};
ghost use Rattle.tcp_connections.specs.declared.handler.Reply.{Reply as ReplyOf};
ghost use Rattle.requests.specs.declared.stream_end.StreamEnd.{StreamEnd as EndOf};
ghost use Rattle.zone_server.specs.Replied.{HasNoAnswer};
ghost use Rattle.zone_replies.specs.Going.{transfer_left};
ghost use Rattle.zone_replies.specs.PendingUpdates.{known_at, IsLater, IsMadeBy};

use crate::pending_updates::PendingUpdates;
use crate::transfer::Transfer;
use crate::transfer_reply::begin_transfer;
use dns_engine::{FirstZone, VersionReader};
use dns_message::Query;
use requests::{Allowed, StreamEnd};
use serve_core::Peer;
use std::alloc::Global;
use std::marker::Model;
use std::mem;
use std::net::SocketAddr;
use std::sync::Wait;
use tcp_connections::{Handler, Reply};
use wire_names::NameWriter;
use zone_server::{
    Answer, Server, ServerName, ServiceLog, UpdateSender, answer_request, tell_refused, tell_signed,
};

/// Answers the peers of connections from a server, with a worker's reader, and logs updates. Contracts see which versions the reader has seen
/// published. It can't be dropped, since updates may be pending: it ends by [`ConnectionHandler::into_reader`].
pub struct ConnectionHandler<'a, 's, Z: FirstZone, N: ServerName, L> {
    pub(crate) server: &'a Server<'s, Z, N>,
    pub(crate) reader: VersionReader<N>,
    pub(crate) log: &'a L,
    pub(crate) alloc: Global,
    pub(crate) peer: Peer,
    pub(crate) from: SocketAddr,
    /// The key of the peer's connection.
    pub(crate) asker: usize,
    query: Query,
    pub(crate) names: NameWriter,
    /// The rules by which the log names a record that isn't permitted.
    pub(crate) allowed: Option<Allowed<'a>>,
    /// The sender to the update thread. None where the engine answers updates at once.
    pub(crate) sender: Option<UpdateSender<'a>>,
    pub(crate) taken: PendingUpdates<N>,
}

impl<'a, 's, Z: FirstZone, N: ServerName, L> Model for ConnectionHandler<'a, 's, Z, N, L> {
    ghost use Rattle.std.specs.Prelude.{is_some};
    ghost use Rattle.zone_replies.specs.State.{HandlerState};
    ghost use Rattle.zone_replies.specs.PendingUpdates.{AreTakenUp};

    ghost Value = { HandlerState };

    ghost view = { λ a. record { reader = a.reader; peer = a.peer; asker = a.asker; taken = a.taken; submits = is_some a.sender } };

    ghost invariant = { λ a. AreTakenUp a.taken a.reader };
}

impl<'a, 's, Z: FirstZone, N: ServerName, L: ServiceLog> ConnectionHandler<'a, 's, Z, N, L> {
    /// A handler with a reader, turned to this peer at this address. It submits no updates.
    pub fn new(
        alloc: Global,
        server: &'a Server<'s, Z, N>,
        reader: VersionReader<N>,
        log: &'a L,
        peer: Peer,
        from: SocketAddr,
    ) -> ConnectionHandler<'a, 's, Z, N, L>
        ensures reader { result.reader ≡ reader }
        ensures peer { result.peer ≡ peer }
        ensures submits { result.submits ≡ false }
    {
        ConnectionHandler {
            server,
            reader,
            log,
            alloc,
            peer,
            from,
            asker: 0,
            query: Query::blank(),
            names: NameWriter::new(),
            allowed: None,
            sender: None,
            taken: PendingUpdates::new(alloc),
        }
    }

    /// The same handler, which submits updates of peers that may update to the update thread, and answers them later.
    pub fn with_sender(self, sender: UpdateSender<'a>) -> ConnectionHandler<'a, 's, Z, N, L>
        ensures reader { result.reader ≡ self.entry.reader }
        ensures peer { result.peer ≡ self.entry.peer }
        ensures asker { result.asker ≡ self.entry.asker }
        ensures taken { result.taken ≡ self.entry.taken }
        ensures submits { result.submits ≡ true }
    {
        let mut handler = self;
        handler.sender = Some(sender);
        handler
    }

    /// The same handler, whose log names the first record of an update that these rules don't permit.
    pub fn with_rules(self, allowed: Allowed<'a>) -> ConnectionHandler<'a, 's, Z, N, L>
        ensures reader { result.reader ≡ self.entry.reader }
        ensures peer { result.peer ≡ self.entry.peer }
        ensures asker { result.asker ≡ self.entry.asker }
        ensures taken { result.taken ≡ self.entry.taken }
        ensures submits { result.submits ≡ self.entry.submits }
    {
        let mut handler = self;
        handler.allowed = Some(allowed);
        handler
    }

    /// Gives back its reader. The results of updates that are still pending are dropped when they come.
    pub fn into_reader<R: Wait>(self, rt: &R) -> VersionReader<N>
        ensures { result ≡ self.entry.reader }
    {
        let ConnectionHandler {
            server,
            reader,
            log: _,
            alloc: _,
            peer: _,
            from: _,
            asker: _,
            query: _,
            names: _,
            allowed: _,
            sender: _,
            taken,
        } = self;
        taken.leave_all(rt, server);
        reader
    }
}

impl<'a, 's, Z: FirstZone, N: ServerName, L: ServiceLog> Handler<Transfer>
    for ConnectionHandler<'a, 's, Z, N, L> {
    // While updates are pending, what was known on their connection when the first of them was submitted is kept.
    ghost seen = { λ replies. known_at replies.taken replies.reader };

    ghost peer = { λ replies. replies.peer };

    ghost asker = { λ replies. replies.asker };

    ghost is_reply = { λ peer known later request messages. IsMadeBy Z.zone peer known later request messages };

    ghost is_later = { IsLater };

    ghost spent = { λ replies. replies.reader.left ≡ 0 };

    #[tactic(auto, using(tcp_connections::proofs::RequestLemmas::each_itself))]
    fn turn_to(&mut self, from: SocketAddr, key: usize) {
        self.from = from;
        self.asker = key;
    }

    fn set_peer(&mut self, other: Peer) {
        self.peer = other;
    }

    #[tactic(auto, using(zone_server::proofs::ReplyLemmas::limit_most, zone_server::proofs::ReplyLemmas::room_most, zone_server::proofs::ReplyLemmas::silent_replied, tcp_connections::proofs::RequestLemmas::each_itself))]
    fn reply<R: Wait>(
        &mut self,
        rt: &R,
        request: &[u8],
        out: &mut [u8],
    ) -> Result<Reply<Transfer>, StreamEnd>
        requires { message_limit ≤ length out.old }
        ensures same { self.new.peer ≡ self.old.peer }
        ensures asker { self.new.asker ≡ self.old.asker }
        ensures submits { self.new.submits ≡ self.old.submits }
        ensures grows { EachGrows {T = Version} (known_at self.new.taken self.new.reader) (known_at self.old.taken self.old.reader) }
        ensures bound { IfOk result (λ reply. (len : ℕ) → reply ≡ ReplyOf.One len → (len ≤ message_limit) × (len ≤ length out.new)) }
        ensures reply { IfOk result (λ reply. reply ≢ ReplyOf.Later → IsMadeBy Z.zone self.old.peer (known_at self.old.taken self.old.reader self.old.asker) (known_at self.new.taken self.new.reader self.old.asker) request.now (messages_of transfer_left reply out.new)) }
        ensures later { IfOk result (λ reply. reply ≡ ReplyOf.Later → IsLater self.old.peer request.now) }
        // Without a queue for updates each request gets its reply now.
        ensures submitted { IfOk result (λ reply. reply ≡ ReplyOf.Later → self.old.submits ≡ true) }
        ensures end { IfErr result (λ end. (end ≡ EndOf.Spent) ⊎ (end ≡ EndOf.NoMemory)) }
        ensures spent { IfErr result (λ end. end ≡ EndOf.Spent → self.new.reader.left ≡ 0) }
        // It never ends for want of memory.
        ensures ended { IfErr result (λ end. end ≡ EndOf.Spent) }
        // A request that can't be read as a query gets its reply, whether a version can be loaded or not.
        ensures unanswered { OnErr result (HasNoAnswer Z.zone self.old.peer request.now self.old.reader self.new.reader) }
    {
        self.settle(rt, request);
        let cell = self.server.cell();
        match answer_request(
            cell,
            &mut self.reader,
            &mut self.query,
            &mut self.names,
            self.peer,
            request,
            out,
        ) {
            Answer::Bytes(len) => {
                tell_refused(rt, self.log, self.peer, self.from, &self.query, &out[..len]);
                Ok(Reply::One(len))
            }
            Answer::Silent => Ok(Reply::Silent),
            Answer::Update => Ok(self.reply_update(rt, request, out)),
            Answer::Transfer(strong) => {
                tell_signed(rt, self.log, self.from, request);
                let query = mem::replace(&mut self.query, Query::blank());
                let (server, peer) = (self.server, self.peer);
                begin_transfer(rt, server, &mut self.reader, strong, query, peer, out)
            }
            Answer::Spent => Err(StreamEnd::Spent),
        }
    }

    #[tactic(auto, using(tcp_connections::proofs::RequestLemmas::each_itself))]
    fn prepare<R: Wait>(&mut self, rt: &R, between: usize, request: &[u8], out: &mut [u8]) -> bool {
        let Some(more) = self.taken.more(self.asker) else {
            return false;
        };
        if between < more {
            return true;
        }
        if between > more {
            return false;
        }
        let Some(sender) = self.sender_for(request) else {
            return false;
        };
        let is_pending = self.submit_more(rt, sender, request, out);
        if is_pending {
            tell_signed(rt, self.log, self.from, request);
        }
        is_pending
    }
}
