//! A reload, as the thread that takes the operator's commands goes on with it (own).
ghost use Rattle.requests.specs.Served.{Grows};

use crate::control_text::{refused, reloaded, unchanged};
use crate::reload_slot::{FileChange, FileZone, ReloadOrder, ReloadResult, Reloads};
use dns_rdata::Rcode;
use std::alloc::{AllocError, Global};
use std::sync::Wait;
use zone_change::ChangeSummary;
use zone_server::{
    Event, LocalUpdates, Serials, ServiceLog, TicketPoll, UpdateResult, WaitingTicket,
};

/// How far a reload is. It can't be dropped: its update may wait for its result.
pub(crate) enum Reload {
    /// There is none.
    Idle,
    /// Its update is made; by whether the other updates are held meanwhile.
    Made {
        /// Whether they are held.
        is_held: bool,
    },
    /// Its update waits for its result at this ticket.
    Judged {
        /// The ticket.
        ticket: WaitingTicket,
        /// What the update changes.
        summary: ChangeSummary,
        /// Whether the other updates were held while it was made.
        is_held: bool,
    },
}

/// The end of a step of a reload.
pub(crate) enum Step {
    /// It goes on.
    GoesOn(Reload),
    /// It is done: the reply's lines.
    Done(String),
    /// It has failed, for this reason.
    Failed(String),
}

/// Orders the reading of the zone file, for the version that is published last.
pub(crate) fn order<R: Wait, A: LocalUpdates>(
    rt: &R,
    alloc: Global,
    handler: &mut A,
    slot: &Reloads,
) -> Result<Step, AllocError>
    ensures grows { Grows (A.seen handler.new) (A.seen handler.old) }
{
    let Ok(served) = handler.last_version(rt) else {
        return failed(alloc, "no version can be loaded");
    };
    if slot.order(rt, ReloadOrder::Read(served)) {
        Ok(Step::GoesOn(Reload::Made { is_held: false }))
    } else {
        failed(alloc, "a reload is under way")
    }
}

/// Orders the update anew, for the version that is published last, while other updates are held, so that none comes between.
fn order_held<R: Wait, A: LocalUpdates>(
    rt: &R,
    alloc: Global,
    handler: &mut A,
    slot: &Reloads,
) -> Result<Step, AllocError>
    ensures grows { Grows (A.seen handler.new) (A.seen handler.old) }
{
    handler.hold(rt);
    if let Ok(served) = handler.last_version(rt) {
        if slot.order(rt, ReloadOrder::Again(served)) {
            return Ok(Step::GoesOn(Reload::Made { is_held: true }));
        }
    }
    handler.release(rt);
    failed(alloc, "no version can be loaded")
}

/// Goes on with a reload whose update is made, if that is done.
pub(crate) fn after_making<R: Wait, A: LocalUpdates>(
    rt: &R,
    alloc: Global,
    handler: &mut A,
    slot: &Reloads,
    is_held: bool,
) -> Result<Step, AllocError>
    ensures grows { Grows (A.seen handler.new) (A.seen handler.old) }
{
    match slot.take(rt) {
        None => Ok(Step::GoesOn(Reload::Made { is_held })),
        Some(Ok(FileZone::Changed(change))) => submit(rt, alloc, handler, change, is_held),
        Some(made) => {
            if is_held {
                handler.release(rt);
            }
            without_change(alloc, made)
        }
    }
}

/// The end of a reload that submits no update.
fn without_change(alloc: Global, made: ReloadResult) -> Result<Step, AllocError> {
    match made {
        Ok(FileZone::Unchanged(serial)) => Ok(Step::Done(unchanged(alloc, serial)?)),
        Ok(FileZone::Changed(_)) => failed(alloc, "the update is lost"),
        Err(reason) => Ok(Step::Failed(reason)),
    }
}

/// Submits the update of a reload.
fn submit<R: Wait, A: LocalUpdates>(
    rt: &R,
    alloc: Global,
    handler: &mut A,
    change: FileChange,
    is_held: bool,
) -> Result<Step, AllocError>
    ensures grows { Grows (A.seen handler.new) (A.seen handler.old) }
{
    let FileChange { request, summary } = change;
    match handler.submit_own(rt, request, is_held) {
        Some(ticket) => Ok(Step::GoesOn(Reload::Judged {
            ticket,
            summary,
            is_held,
        })),
        None => failed(alloc, "the queue of updates has no room"),
    }
}

/// Goes on with a reload whose update was submitted, if its result is there. Where another update came between, it is made anew, while updates are held.
pub(crate) fn after_judging<R: Wait, A: LocalUpdates, L: ServiceLog>(
    rt: &R,
    alloc: Global,
    handler: &mut A,
    slot: &Reloads,
    log: &L,
    judged: (WaitingTicket, ChangeSummary, bool),
) -> Result<Step, AllocError>
    ensures grows { Grows (A.seen handler.new) (A.seen handler.old) }
{
    let (ticket, summary, is_held) = judged;
    let done = match handler.result_at(rt, ticket) {
        TicketPoll::Pending(ticket) => {
            return Ok(Step::GoesOn(Reload::Judged {
                ticket,
                summary,
                is_held,
            }));
        }
        TicketPoll::Unknown => return failed(alloc, "the update's result is lost"),
        TicketPoll::Ready(done) => done,
    };
    match done.code {
        Rcode::NoError => {
            log_reload(rt, log, &summary, &done);
            Ok(Step::Done(reloaded(alloc, &summary)?))
        }
        Rcode::NXRRSet if !is_held => order_held(rt, alloc, handler, slot),
        code => Ok(Step::Failed(refused(alloc, code)?)),
    }
}

/// Abandons a reload, and says whether one was under way.
pub(crate) fn abandon<R: Wait, A: LocalUpdates>(rt: &R, handler: &mut A, reload: Reload) -> bool
    ensures grows { Grows (A.seen handler.new) (A.seen handler.old) }
{
    match reload {
        Reload::Judged {
            ticket,
            summary: _,
            is_held: _,
        } => {
            handler.leave(rt, ticket);
            true
        }
        Reload::Made { is_held: true } => {
            handler.release(rt);
            true
        }
        Reload::Made { is_held: false } => true,
        Reload::Idle => false,
    }
}

/// Logs a reload that is done.
fn log_reload<R: Wait, L: ServiceLog>(
    rt: &R,
    log: &L,
    summary: &ChangeSummary,
    done: &UpdateResult,
) {
    let own = Serials {
        before: summary.from,
        after: summary.to,
    };
    log.tell(
        rt,
        Event::Reloaded {
            serials: done.serials.unwrap_or(own),
            deleted: summary.deleted,
            added: summary.added,
        },
    );
}

/// That a reload has failed, for this reason.
fn failed(alloc: Global, reason: &str) -> Result<Step, AllocError> {
    let mut text = String::new(alloc);
    text.push_str(reason)?;
    Ok(Step::Failed(text))
}
