//! The replies to the updates of connections: at once, or once the update thread has them.
ghost use Rattle.std.specs.Prelude.{◌≡◌, ◌≢◌, ◌≤◌, ◌⊎◌, ℕ, true, false, List, [], ◌∷◌, None, length, take, IfSome, MatchOption};
ghost use Rattle.dns_message.specs.Message.{message_limit};
ghost use Rattle.zone_tree.specs.Version.{Version};
ghost use Rattle.serve_core.specs.Transport.{room_of};
ghost use Rattle.requests.specs.Served.{Grows};
ghost use Rattle.tcp_connections.specs.Requests.{EachGrows};
ghost use Rattle.tcp_connections.specs.Kept.{messages_of};
ghost use Rattle.tcp_connections.specs.declared.handler.Reply.{Reply as ReplyOf};
ghost use Rattle.zone_server.specs.Known.{learned_by};
ghost use Rattle.zone_server.specs.Replied.{IsReplied, IsUpdate};
ghost use Rattle.zone_server.specs.declared.open_ticket.WaitingTicket.{WaitingTicket as WaitingTicketOf};
ghost use Rattle.zone_replies.specs.Going.{transfer_left};
ghost use Rattle.zone_replies.specs.PendingUpdates.{known_at, place_in, with_more, IsLater, IsMadeBy, IsWritten};

use crate::connection_handler::ConnectionHandler;
use crate::pending_updates::{PendingUpdate, ReplyPlace, outcome_at};
use crate::transfer::Transfer;
use dns_engine::{FirstZone, VersionReader};
use dns_message::is_update;
use serve_core::Peer;
use std::alloc::Global;
use std::snapshot::Snapshot;
use std::sync::Wait;
use tcp_connections::Reply;
use zone_server::{
    Poll, Server, ServerName, ServiceLog, Submitted, UpdateResult, UpdateSender, serve_update,
    submit_stream, tell_served, tell_signed, tell_update, write_done,
};

/// The sender, where there is room for an update that waits.
fn sender_with<'a>(has_room: bool, sender: UpdateSender<'a>) -> Option<UpdateSender<'a>>
    ensures { has_room ≡ false → result ≡ None }
{
    if has_room { Some(sender) } else { None }
}

/// Submits an update of a peer that may update, while others are pending on its connection: gives these back, with its ticket after theirs if it is pending now, too, and whether it is. If it isn't
/// queued, it is submitted again in its turn.
fn submit_after<R: Wait, Z: FirstZone, N: ServerName>(
    rt: &R,
    alloc: Global,
    server: &Server<'_, Z, N>,
    reader: &mut VersionReader<N>,
    sender: UpdateSender<'_>,
    key: usize,
    peer: Peer,
    pending: PendingUpdate<N>,
    request: &[u8],
    out: &mut [u8],
) -> (PendingUpdate<N>, bool)
    requires update { IsUpdate request.now }
    requires may { peer.may_update ≡ true }
    requires room { room_of peer.transport ≤ length out.old }
    ensures pending { (more : List WaitingTicketOf) × (result.0 ≡ with_more pending more) }
    ensures grows { Grows {T = Version} (learned_by reader.new) (learned_by reader.old) }
{
    let mut all = pending;
    let Ok(()) = all.more.try_reserve(1) else {
        return (all, false);
    };
    let sender = Some(sender);
    match submit_stream(rt, alloc, server, reader, sender, key, peer, request, out) {
        Submitted::Replied(_, _) => (all, false),
        Submitted::Pending {
            ticket,
            number: _,
            put: _,
        } => {
            all.more.push_reserved(ticket);
            (all, true)
        }
    }
}

impl<'a, 's, Z: FirstZone, N: ServerName, L: ServiceLog> ConnectionHandler<'a, 's, Z, N, L> {
    /// The sender for a request: some exactly where the handler submits updates and the request is an update of a peer that may update.
    pub(crate) fn sender_for(&self, request: &[u8]) -> Option<UpdateSender<'a>>
        ensures { MatchOption result ((self.now.submits ≡ false) ⊎ (IsLater self.now.peer request.now → ⊥)) (λ _. IsLater self.now.peer request.now × (self.now.submits ≡ true)) }
    {
        let Some(sender) = self.sender else {
            return None;
        };
        if self.peer.may_update && is_update(request) {
            return Some(sender);
        }
        None
    }

    /// Abandons the pending updates under the current connection's key.
    fn abandon<R: Wait>(&mut self, rt: &R)
        ensures peer { self.new.peer ≡ self.old.peer }
        ensures asker { self.new.asker ≡ self.old.asker }
        ensures reader { self.new.reader ≡ self.old.reader }
        ensures submits { self.new.submits ≡ self.old.submits }
        ensures none { place_in self.new.taken self.old.asker ≡ None }
        ensures grows { EachGrows {T = Version} (known_at self.new.taken self.new.reader) (known_at self.old.taken self.old.reader) }
    {
        self.taken.leave(rt, self.server, self.asker);
    }

    /// Abandons the pending updates under the current connection's key where the request isn't one to submit, or where another connection has that key
    /// now: its address differs.
    pub(crate) fn settle<R: Wait>(&mut self, rt: &R, request: &[u8])
        ensures peer { self.new.peer ≡ self.old.peer }
        ensures asker { self.new.asker ≡ self.old.asker }
        ensures reader { self.new.reader ≡ self.old.reader }
        ensures submits { self.new.submits ≡ self.old.submits }
        ensures other { (self.old.submits ≡ false) ⊎ (IsLater self.old.peer request.now → ⊥) → place_in self.new.taken self.old.asker ≡ None }
        ensures grows { EachGrows {T = Version} (known_at self.new.taken self.new.reader) (known_at self.old.taken self.old.reader) }
    {
        let Some(place) = self.taken.at(self.asker) else {
            return;
        };
        let has_sender = self.sender_for(request).is_some();
        if has_sender && place.from == self.from {
            return;
        }
        self.abandon(rt);
    }

    /// Writes the reply to a pending update at the front of `out`, with the code of [`outcome_at`], and logs it. Gives its length in octets.
    fn reply_done<R: Wait>(
        &mut self,
        rt: &R,
        place: ReplyPlace,
        done: UpdateResult,
        out: &mut [u8],
    ) -> usize
        requires room { message_limit ≤ length out.old }
        ensures same { self.new ≡ self.old }
        ensures bound { (result ≤ message_limit) × (result ≤ length out.new) }
        ensures octets { IsWritten self.old.peer place done (take result out.new) }
    {
        let outcome = outcome_at(place, &done);
        tell_update(rt, self.log, self.peer, self.from, outcome);
        write_done(&mut self.names, &done.asked, outcome.code, self.peer, out)
    }

    /// Submits an update of a peer that may update. `Later` where it is now pending, and its reply is made later. It gets a reply at once where it
    /// wasn't queued.
    fn take_up<R: Wait>(
        &mut self,
        rt: &R,
        sender: UpdateSender<'a>,
        request: &[u8],
        out: &mut [u8],
    ) -> Reply<Transfer>
        requires later { IsLater self.old.peer request.now }
        requires none { place_in self.old.taken self.old.asker ≡ None }
        requires room { message_limit ≤ length out.old }
        ensures peer { self.new.peer ≡ self.old.peer }
        ensures asker { self.new.asker ≡ self.old.asker }
        ensures submits { self.new.submits ≡ self.old.submits }
        ensures grows { EachGrows {T = Version} (known_at self.new.taken self.new.reader) (known_at self.old.taken self.old.reader) }
        ensures bound { (len : ℕ) → result ≡ ReplyOf.One len → (len ≤ message_limit) × (len ≤ length out.new) }
        ensures replied { result ≢ ReplyOf.Later → IsMadeBy Z.zone self.old.peer (known_at self.old.taken self.old.reader self.old.asker) (known_at self.new.taken self.new.reader self.old.asker) request.now (messages_of transfer_left result out.new) }
    {
        let (key, peer) = (self.asker, self.peer);
        tell_signed(rt, self.log, self.from, request);
        let known = Snapshot::of(&self.reader);
        let has_room = self.taken.make_room(key);
        let sender = sender_with(has_room, sender);
        match submit_stream(
            rt,
            self.alloc,
            self.server,
            &mut self.reader,
            sender,
            key,
            peer,
            request,
            out,
        ) {
            Submitted::Replied(len, outcome) => {
                tell_update(rt, self.log, peer, self.from, outcome);
                Reply::One(len)
            }
            Submitted::Pending {
                ticket,
                number,
                put: _,
            } => {
                let from = self.from;
                self.taken.put(
                    key,
                    PendingUpdate {
                        from,
                        ticket,
                        more: Vec::new(self.alloc),
                        number,
                        known,
                    },
                );
                Reply::Later
            }
        }
    }

    /// The reply to the first pending update under the current connection's key: written at the front of `out`, or `Later` while the update is still
    /// pending. None where no update is pending, or its ticket has no result for this request. Then none is pending: those after it are abandoned.
    fn reply_taken<R: Wait>(
        &mut self,
        rt: &R,
        request: &[u8],
        out: &mut [u8],
    ) -> Option<Reply<Transfer>>
        requires later { IsLater self.old.peer request.now }
        requires room { message_limit ≤ length out.old }
        ensures peer { self.new.peer ≡ self.old.peer }
        ensures asker { self.new.asker ≡ self.old.asker }
        ensures submits { self.new.submits ≡ self.old.submits }
        ensures grows { EachGrows {T = Version} (known_at self.new.taken self.new.reader) (known_at self.old.taken self.old.reader) }
        ensures none { result ≡ None → place_in self.new.taken self.old.asker ≡ None }
        ensures bound { IfSome result (λ reply. (len : ℕ) → reply ≡ ReplyOf.One len → (len ≤ message_limit) × (len ≤ length out.new)) }
        ensures replied { IfSome result (λ reply. reply ≢ ReplyOf.Later → IsMadeBy Z.zone self.old.peer (known_at self.old.taken self.old.reader self.old.asker) (known_at self.new.taken self.new.reader self.old.asker) request.now (messages_of transfer_left reply out.new)) }
    {
        let Some(place) = self.taken.at(self.asker) else {
            return None;
        };
        match self
            .taken
            .fetch(rt, self.server, &mut self.reader, self.asker)
        {
            Poll::Pending => Some(Reply::Later),
            Poll::Ready(done) => {
                if done.asked.may() && done.asked.messages().is_one(request) {
                    return Some(Reply::One(self.reply_done(rt, place, done, out)));
                }
                self.abandon(rt);
                None
            }
            Poll::Unknown => {
                self.abandon(rt);
                None
            }
        }
    }

    /// Writes the reply of the engine to an update at the front of `out`, and logs it. Gives its length in octets.
    #[tactic(auto, using(zone_server::proofs::ReplyLemmas::limit_most, zone_server::proofs::ReplyLemmas::room_most))]
    fn reply_served<R: Wait>(&mut self, rt: &R, request: &[u8], out: &mut [u8]) -> usize
        requires update { IsUpdate request.now }
        requires room { message_limit ≤ length out.old }
        ensures peer { self.new.peer ≡ self.old.peer }
        ensures asker { self.new.asker ≡ self.old.asker }
        ensures submits { self.new.submits ≡ self.old.submits }
        ensures taken { self.new.taken ≡ self.old.taken }
        ensures grows { Grows {T = Version} (learned_by self.new.reader) (learned_by self.old.reader) }
        ensures bound { (result ≤ message_limit) × (result ≤ length out.new) }
        ensures replied { IsReplied Z.zone self.old.peer (learned_by self.old.reader) (learned_by self.new.reader) request.now (take result out.new ∷ []) }
    {
        let peer = self.peer;
        tell_signed(rt, self.log, self.from, request);
        let (len, outcome) = serve_update(
            rt,
            self.alloc,
            self.server,
            &mut self.reader,
            peer,
            request,
            out,
        );
        tell_served(
            rt,
            self.log,
            self.allowed,
            peer,
            self.from,
            request,
            outcome,
        );
        len
    }

    /// The reply to an update: of the engine, where it isn't one to submit; otherwise once it is ready. The update is submitted where it isn't pending;
    /// those that are were another connection's. `Later` while it is pending, and so only for an update of a peer that may update.
    pub(crate) fn reply_update<R: Wait>(
        &mut self,
        rt: &R,
        request: &[u8],
        out: &mut [u8],
    ) -> Reply<Transfer>
        requires update { IsUpdate request.now }
        requires other { (self.old.submits ≡ false) ⊎ (IsLater self.old.peer request.now → ⊥) → place_in self.old.taken self.old.asker ≡ None }
        requires room { message_limit ≤ length out.old }
        ensures peer { self.new.peer ≡ self.old.peer }
        ensures asker { self.new.asker ≡ self.old.asker }
        ensures submits { self.new.submits ≡ self.old.submits }
        ensures grows { EachGrows {T = Version} (known_at self.new.taken self.new.reader) (known_at self.old.taken self.old.reader) }
        ensures bound { (len : ℕ) → result ≡ ReplyOf.One len → (len ≤ message_limit) × (len ≤ length out.new) }
        ensures replied { result ≢ ReplyOf.Later → IsMadeBy Z.zone self.old.peer (known_at self.old.taken self.old.reader self.old.asker) (known_at self.new.taken self.new.reader self.old.asker) request.now (messages_of transfer_left result out.new) }
        ensures later { result ≡ ReplyOf.Later → IsLater self.old.peer request.now }
        ensures submitted { result ≡ ReplyOf.Later → self.old.submits ≡ true }
    {
        let Some(sender) = self.sender_for(request) else {
            return Reply::One(self.reply_served(rt, request, out));
        };
        match self.reply_taken(rt, request, out) {
            Some(reply) => reply,
            None => self.take_up(rt, sender, request, out),
        }
    }

    /// Submits an update of a peer that may update, while others are pending on its connection. Whether it is pending now, too; if it wasn't queued, it
    /// is submitted again in its turn.
    pub(crate) fn submit_more<R: Wait>(
        &mut self,
        rt: &R,
        sender: UpdateSender<'a>,
        request: &[u8],
        out: &mut [u8],
    ) -> bool
        requires later { IsLater self.old.peer request.now }
        requires room { message_limit ≤ length out.old }
        ensures peer { self.new.peer ≡ self.old.peer }
        ensures asker { self.new.asker ≡ self.old.asker }
        ensures grows { EachGrows {T = Version} (known_at self.new.taken self.new.reader) (known_at self.old.taken self.old.reader) }
    {
        let (key, peer) = (self.asker, self.peer);
        let Some(pending) = self.taken.take(key) else {
            return false;
        };
        let (pending, is_pending) = submit_after(
            rt,
            self.alloc,
            self.server,
            &mut self.reader,
            sender,
            key,
            peer,
            pending,
            request,
            out,
        );
        self.taken.put(key, pending);
        is_pending
    }
}
