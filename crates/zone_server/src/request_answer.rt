//! The answer to a request in the version that is loaded for it (RFC 1034, 4.3.2).
ghost use Rattle.std.specs.Prelude.{◌≡◌, ◌↔◌, ◌≤◌, length};
ghost use Rattle.serve_core.specs.Transport.{room_of};
ghost use Rattle.zone_server.specs.Answer.{IsAnswer, HasRead};
ghost use Rattle.dns_message.specs.Request.{reads};
ghost use Rattle.zone_server.specs.Replied.{IsQuery};
ghost use Rattle.zone_server.specs.declared.request_answer.Answer.TheVariants as answer;

use dns_engine::{FirstZone, VersionCell, VersionOwner, VersionReader};
use dns_message::{Query, Said, is_update, parse_into};
use serve_core::{Heading, Peer, is_permitted, respond_by, write_code_by};
use snapshot_cell::Naming;
use wire_names::NameWriter;

/// The answer to a request in the version that is loaded for it.
#[derive(Drop)]
pub enum Answer<'c, Z: FirstZone, N: Naming> {
    /// A reply of so many bytes.
    Bytes(usize),
    /// There is no reply.
    Silent,
    /// The request is an update.
    Update,
    /// The request asks for a transfer, which is permitted in this version.
    Transfer(VersionOwner<'c, Z, N>),
    /// No load is left for a query.
    Spent,
}

/// Answers a request in the version that is loaded for it, unless it is an update or a permitted transfer: writes the reply to the front of `out`. A query is read into `query`, and of
/// one whose OPT is not obeyed the question. An
/// update is recognised by its header alone. A query takes one load, any other request none: [`Answer::Spent`] comes exactly for a query for which the reader has no load left. It
/// does not block and allocates no memory.
pub fn answer_request<'c, Z: FirstZone, N: Naming>(
    cell: &'c VersionCell<Z, N>,
    reader: &mut VersionReader<N>,
    query: &mut Query,
    names: &mut NameWriter,
    peer: Peer,
    request: &[u8],
    out: &mut [u8],
) -> Answer<'c, Z, N>
    requires { room_of peer.transport ≤ length out.old }
    ensures answer { IsAnswer Z.zone peer request.now reader.old reader.new query.new out.new result }
    ensures query { HasRead result (reads request.now) query.new }
    ensures spent { (result ≡ answer.Spent) ↔ (IsQuery request.now × (reader.old.left ≡ 0)) }
{
    if is_update(request) {
        return Answer::Update;
    }
    match parse_into(request, query) {
        Said::Silent => Answer::Silent,
        Said::Fault(head, code) => {
            let heading = Heading::header_alone(head);
            Answer::Bytes(write_code_by(names, &heading, code, peer.transport, out))
        }
        Said::BadOpt(head, code, dnssec_ok) => {
            let heading = Heading::of_bad(head, &query.question, dnssec_ok);
            Answer::Bytes(write_code_by(names, &heading, code, peer.transport, out))
        }
        Said::Query => {
            let Ok(strong) = cell.load(reader) else {
                return Answer::Spent;
            };
            let version = strong.get().get();
            if is_permitted(version, query, peer) {
                return Answer::Transfer(strong);
            }
            Answer::Bytes(respond_by(names, version.zone(), query, peer, out))
        }
    }
}
