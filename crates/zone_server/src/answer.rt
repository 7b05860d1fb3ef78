//! Answers to requests: at once in a version that is loaded (RFC 1034, 4.3.2), and to updates by the engine (RFC 2136, 3).
ghost use Rattle.std.specs.Prelude.{◌≡◌, ◌↔◌, ◌≤◌, Some, None, false, [], ◌∷◌, length, take, MatchResult};
ghost use Rattle.serve_core.specs.Transport.{room_of};
ghost use Rattle.serve_core.specs.Served.{limit_for};
ghost use Rattle.zone_server.specs.Known.{learned_by};
ghost use Rattle.zone_server.specs.Replied.{IsUpdate, IsQuery, IsNow, IsReplied};
ghost use Rattle.zone_server.specs.declared.answer.Now.{Now as AtOnce};
ghost use Rattle.dns_message.specs.Request.{reads};
ghost use Rattle.dns_message.specs.declared.query.Parsed.TheVariants.{Update as SaysUpdate};
ghost use Rattle.zone_server.specs.Updated.{IsJudged, IsToldOf, IsToldUnread, IsUpdateTold, told_with};
ghost use Rattle.update_core.specs.Verdict.{verdict};

use crate::request_answer::{Answer, answer_request};
use crate::right::ServerName;
use crate::server::Server;
use crate::update_result::UpdateResult;
use dns_engine::{FirstZone, VersionCell, VersionReader};
use dns_message::{Parsed, Query, Update, parse};
use dns_rdata::Rcode;
use serve_core::{Heading, Peer, write_code};
use snapshot_cell::Naming;
use std::alloc::Global;
use std::mem;
use std::sync::Wait;
use update_batches::Serials;
use update_core::check;
use wire_names::NameWriter;
use zone_tree::Version;

/// The result of answering a request at once.
#[derive(Clone, Copy)]
pub enum Now {
    /// A reply of so many bytes.
    Bytes(usize),
    /// There is no reply.
    Silent,
    /// The request is an update, or asks for a permitted transfer.
    Later,
    /// No load is left for a query.
    Spent,
}

/// The result of an update (RFC 2136, 3).
#[derive(Clone, Copy)]
pub struct UpdateOutcome {
    /// Its code.
    pub code: Rcode,
    /// Its own serials: those of the zone before and after it, equal if it changed nothing. None if its code is not NOERROR.
    pub serials: Option<Serials>,
}

impl UpdateOutcome {
    /// The outcome of an update that has waited.
    pub fn of(done: &UpdateResult) -> UpdateOutcome
        ensures code { result.code ≡ done.now.code }
        ensures serials { result.serials ≡ done.now.serials }
    {
        UpdateOutcome {
            code: done.code,
            serials: done.serials,
        }
    }

    /// A code with the serials of an update, which are kept only if the code is NOERROR.
    fn with(code: Rcode, serials: Serials) -> UpdateOutcome
        ensures code { result.code ≡ code }
        ensures serials { result.serials ≡ told_with code serials }
    {
        UpdateOutcome {
            code,
            serials: if code.number() == Rcode::NoError.number() {
                Some(serials)
            } else {
                None
            },
        }
    }

    /// A code without serials.
    pub fn code(code: Rcode) -> UpdateOutcome
        ensures code { result.code ≡ code }
        ensures serials { result.serials ≡ None }
    {
        UpdateOutcome {
            code,
            serials: None,
        }
    }
}

/// Answers a request at once, unless it is an update or a permitted transfer: writes the reply in the version that is loaded to the front of `out`. An update is recognised by
/// its header alone. A query takes one load, any other request none: [`Now::Spent`] comes exactly for a query for which the reader has no load left. It does not block and
/// allocates no memory.
pub fn answer_now<Z: FirstZone, N: Naming>(
    cell: &VersionCell<Z, N>,
    reader: &mut VersionReader<N>,
    peer: Peer,
    request: &[u8],
    out: &mut [u8],
) -> Now
    requires { room_of peer.transport ≤ length out.old }
    ensures now { IsNow Z.zone peer request.now reader.old reader.new out.new result }
    ensures spent { (result ≡ AtOnce.Spent) ↔ (IsQuery request.now × (reader.old.left ≡ 0)) }
{
    let mut query = Query::blank();
    let mut names = NameWriter::new();
    match answer_request(cell, reader, &mut query, &mut names, peer, request, out) {
        Answer::Bytes(len) => Now::Bytes(len),
        Answer::Silent => Now::Silent,
        Answer::Update => Now::Later,
        Answer::Transfer(strong) => {
            mem::drop(strong);
            Now::Later
        }
        Answer::Spent => Now::Spent,
    }
}

/// Answers an update: writes its reply to the front of `out` (RFC 2136, 3.8), and gives its length in octets and the update's outcome.
pub fn serve_update<R: Wait, Z: FirstZone, N: ServerName>(
    rt: &R,
    alloc: Global,
    server: &Server<'_, Z, N>,
    reader: &mut VersionReader<N>,
    peer: Peer,
    request: &[u8],
    out: &mut [u8],
) -> (usize, UpdateOutcome)
    requires update { IsUpdate request.now }
    requires room { room_of peer.transport ≤ length out.old }
    ensures bound { result.0 ≤ limit_for peer.transport (reads request.now) }
    ensures replied { IsReplied Z.zone peer (learned_by reader.old) (learned_by reader.new) request.now (take result.0 out.new ∷ []) }
    ensures reported { IsUpdateTold Z.zone peer request.now reader.old reader.new (take result.0 out.new) result.1 }
{
    let (heading, reported) = outcome_of(rt, alloc, server, reader, peer.may_update, request);
    let len = write_code(&heading, reported.code, peer.transport, out);
    (len, reported)
}

/// The outcome of a request that asks for an update, and what its reply repeats of it: the judged outcome of one that is read, otherwise what [`read_update`] gives.
fn outcome_of<R: Wait, Z: FirstZone, N: ServerName>(
    rt: &R,
    alloc: Global,
    server: &Server<'_, Z, N>,
    reader: &mut VersionReader<N>,
    may: bool,
    request: &[u8],
) -> (Heading, UpdateOutcome)
    requires { IsUpdate request.now }
    ensures { IsToldOf Z.zone may request.now reader.old reader.new result.0 result.1 }
{
    match read_update(alloc, request) {
        Ok(update) => {
            let heading = Heading::of_update(&update);
            (heading, judge(rt, alloc, server, reader, may, &update))
        }
        Err(reported) => reported,
    }
}

/// The update that a request asks for. One that cannot be read gives its outcome, and what its reply repeats of it: FORMERR (RFC 2136, 2), FORMERR or BADVERS if its OPT is not
/// obeyed (RFC 6891, 6.1.1 and 6.1.3), and SERVFAIL if there is no memory to read it (own).
pub(crate) fn read_update(alloc: Global, request: &[u8]) -> Result<Update, (Heading, UpdateOutcome)>
    requires { IsUpdate request.now }
    ensures { MatchResult result (λ update. reads request.now ≡ SaysUpdate update) (λ reported. IsToldUnread request.now reported.0 reported.1) }
{
    match parse(alloc, request) {
        Parsed::Update(update) => Ok(update),
        Parsed::NoMemory(head) => Err((
            Heading::header_alone(head),
            UpdateOutcome::code(Rcode::ServFail),
        )),
        Parsed::Fault(head, code) => Err((Heading::header_alone(head), UpdateOutcome::code(code))),
        Parsed::BadOpt(head, question, code, dnssec_ok) => Err((
            Heading::of_bad(head, &question, dnssec_ok),
            UpdateOutcome::code(code),
        )),
        Parsed::Silent => unreachable!(),
        Parsed::Query(_) => unreachable!(),
    }
}

/// The outcome of an update, as the engine gives it. An update of a peer that may not update is judged in the version that is loaded, so that it does not take the engine's
/// lock, and by the engine only if no load is left.
fn judge<R: Wait, Z: FirstZone, N: ServerName>(
    rt: &R,
    alloc: Global,
    server: &Server<'_, Z, N>,
    reader: &mut VersionReader<N>,
    may: bool,
    update: &Update,
) -> UpdateOutcome
    ensures { IsJudged Z.zone update.now may reader.old reader.new result }
{
    if !may {
        match server.cell().load(reader) {
            Ok(strong) => return UpdateOutcome::code(refusal_in(strong.get().get(), update)),
            Err(_) => {}
        }
    }
    let (code, serials) = server.update(rt, alloc, reader, update, may);
    UpdateOutcome::with(code, serials)
}

/// The code of an update from a peer that may not update: that of the first rule that it breaks. The permission is one of the rules, after the zone section and the
/// prerequisites (RFC 2136, 3.1 to 3.3).
fn refusal_in(version: &Version, update: &Update) -> Rcode
    ensures { verdict version.now.zone update.now false ≡ Some result }
{
    match check(version.zone(), update) {
        Ok(()) => Rcode::Refused,
        Err(code) => code,
    }
}
