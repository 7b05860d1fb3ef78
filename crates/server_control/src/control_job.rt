//! The worker that takes the commands of the operator (own).
ghost use Rattle.std.specs.Prelude.{◌≡◌, Some, IfOk};
ghost use Rattle.requests.specs.Served.{Grows};

use crate::control_reload::{Reload, Step, abandon, after_judging, after_making, order};
use crate::control_text::{Obeyed, ServedSince, StoreStatus, done, failed, replied, stats, status};
use crate::monotonic::millis_of;
use crate::process_files::ProcessFiles;
use crate::reload_slot::{ReloadOrder, Reloads};
use crate::served_facts::{RecordCount, metrics_of, put_system, store_facts};
use crate::shutdown::Shutdown;
use crate::udp_drops::UdpDrops;
use crate::work_since::{SharedWork, end_rounds, show_round};
use control_socket::{ControlClient, ControlCommand, Heard, accept_client};
use counters::ServerCounters;
use std::alloc::{AllocError, Global};
use std::os::unix::net::UnixListener;
use std::sync::Wait;
use std::thread;
use std::time::{Clock, Duration};
use update_batches::SharedStoreState;
use zone_server::{Event, JobEnd, LocalUpdates, ServiceLog};
use zone_tree::Version;

/// How long the worker waits before it looks again, in milliseconds (own).
const LOOK: u64 = 25;

/// How many clients it has at most at a time; others wait until it has room (own).
const CLIENTS: usize = 16;

/// The socket for the operator's commands, and what is needed to obey them.
pub struct ControlPlan {
    /// The socket, which doesn't block.
    pub listener: UnixListener,
    /// Where a reload is ordered; None where the zone has no file to be read again.
    pub reloads: Option<Reloads>,
    /// How many threads of the server answer no requests, with this one.
    pub beside: usize,
    /// The number of the version that is served first.
    pub first: u64,
    /// What is seen of the store; None where there is none.
    pub store: Option<SharedStoreState>,
    /// When the server was started, in seconds since 1970.
    pub started: u64,
    /// What the system dropped.
    pub drops: UdpDrops,
    /// What the system knows of the process.
    pub process: ProcessFiles,
    /// Where others see when a round began, if they do.
    pub work: Option<SharedWork>,
}

impl Drop for ControlPlan {
    fn drop(self) {
        let ControlPlan {
            listener: _,
            reloads: _,
            beside: _,
            first: _,
            store: _,
            started: _,
            drops: _,
            process: _,
            work: _,
        } = self;
    }
}

/// The job that takes the operator's commands, with its worker's number.
pub struct ControlJob<'a, C> {
    /// The number of its worker.
    pub number: usize,
    alloc: Global,
    plan: ControlPlan,
    /// What the server's threads count, if they do.
    counters: Option<&'a ServerCounters>,
    clients: Vec<ControlClient>,
    clock: &'a C,
    shutdown: &'a Shutdown,
    /// When it was made, in milliseconds of a monotonic clock.
    begun: u64,
    records: RecordCount,
    obeyed: u64,
    end: Option<JobEnd>,
}

impl<'a, C> Drop for ControlJob<'a, C> {
    fn drop(self) {
        let ControlJob {
            number: _,
            alloc: _,
            plan: _,
            counters: _,
            clients: _,
            clock: _,
            shutdown: _,
            begun: _,
            records: _,
            obeyed: _,
            end: _,
        } = self;
    }
}

/// How a look ends.
enum Look {
    /// The job goes on, with the reload that is under way.
    GoesOn(Reload),
    /// It has ended so.
    Ends(JobEnd),
}

impl<'a, C: Clock> ControlJob<'a, C> {
    /// The job of the worker with this number. `AllocError` where there is no memory.
    pub fn new(
        alloc: Global,
        number: usize,
        plan: ControlPlan,
        counters: Option<&'a ServerCounters>,
        clock: &'a C,
        shutdown: &'a Shutdown,
    ) -> Result<ControlJob<'a, C>, AllocError>
        ensures { IfOk result (λ job. job.number ≡ number) }
    {
        Ok(ControlJob {
            number,
            alloc,
            plan,
            counters,
            clients: Vec::with_capacity(alloc, CLIENTS)?,
            clock,
            shutdown,
            begun: millis_of(clock),
            records: RecordCount::new(),
            obeyed: 0,
            end: None,
        })
    }

    /// How the job has ended. None where it hasn't yet.
    pub fn end(&self) -> Option<JobEnd>
        ensures { result ≡ self.now.end }
    {
        self.end
    }

    /// Takes the operator's commands until the server is to end, or the threads that answer requests have ended.
    pub fn serve<R: Wait, A: LocalUpdates, L: ServiceLog>(
        &mut self,
        rt: &R,
        handler: &mut A,
        log: &L,
    ) -> JobEnd
        ensures grows { Grows (A.seen handler.new) (A.seen handler.old) }
        ensures end { self.new.end ≡ Some result }
        ensures number { self.new.number ≡ self.old.number }
    {
        let mut reload = Reload::Idle;
        for _ in rt.forever() {
            match self.look(rt, handler, log, reload) {
                Look::GoesOn(next) => reload = next,
                Look::Ends(end) => {
                    end_rounds(&self.plan.work);
                    self.end = Some(end);
                    return end;
                }
            }
        }
        unreachable!()
    }

    /// Does what there is to do, and waits. Gives the end where the server was to end before: then the reload is given up.
    fn look<R: Wait, A: LocalUpdates, L: ServiceLog>(
        &mut self,
        rt: &R,
        handler: &mut A,
        log: &L,
        reload: Reload,
    ) -> Look
        ensures grows { Grows (A.seen handler.new) (A.seen handler.old) }
        ensures number { self.new.number ≡ self.old.number }
    {
        let is_over = self.shutdown.is_ending() || self.shutdown.has_left(self.plan.beside);
        let now = millis_of(self.clock);
        show_round(&self.plan.work, now);
        self.accept(now);
        let reload = self.hear(rt, handler, reload, now);
        let reload = self.go_on(rt, handler, log, reload, now);
        if is_over {
            self.give_up(rt, handler, reload, now);
            self.write_replies(now);
            return Look::Ends(JobEnd::Done(self.obeyed));
        }
        self.write_replies(now);
        thread::sleep(self.clock, Duration::from_millis(LOOK));
        Look::GoesOn(reload)
    }

    /// Writes what the clients take of their replies. Those with which nothing is left to do are dropped.
    fn write_replies(&mut self, now: u64)
        ensures number { self.new.number ≡ self.old.number }
    {
        for client in &mut self.clients {
            client.write(now);
        }
        self.clients.retain(|client| !client.is_gone());
    }

    /// Takes the clients that have come, as many as there is room for.
    fn accept(&mut self, now: u64)
        ensures number { self.new.number ≡ self.old.number }
    {
        for _room in self.clients.len()..CLIENTS {
            let Some(client) = accept_client(&self.plan.listener, now) else {
                break;
            };
            if self.clients.push(client).is_err() {
                break;
            }
        }
    }

    /// Reads what the clients have sent, and obeys their commands. Gives how far the reload is then.
    fn hear<R: Wait, A: LocalUpdates>(
        &mut self,
        rt: &R,
        handler: &mut A,
        reload: Reload,
        now: u64,
    ) -> Reload
        ensures grows { Grows (A.seen handler.new) (A.seen handler.old) }
        ensures number { self.new.number ≡ self.old.number }
    {
        let mut reload = reload;
        for at in 0..self.clients.len() {
            reload = self.hear_at(rt, handler, reload, at, now);
        }
        reload
    }

    /// Reads what the client at a place has sent, and obeys its command once that is whole. Gives how far the reload is then.
    fn hear_at<R: Wait, A: LocalUpdates>(
        &mut self,
        rt: &R,
        handler: &mut A,
        reload: Reload,
        at: usize,
        now: u64,
    ) -> Reload
        ensures grows { Grows (A.seen handler.new) (A.seen handler.old) }
        ensures number { self.new.number ≡ self.old.number }
    {
        let (reload, obeyed) = match self.heard_from(at, now) {
            Heard::Nothing => return reload,
            Heard::Unknown => (
                reload,
                replied(failed(self.alloc, "no command: reload, status, stats or stop")),
            ),
            Heard::Command(command) => self.obey(rt, handler, reload, command),
        };
        self.obeyed = self.obeyed.saturating_add(1);
        self.settle(at, obeyed, now);
        reload
    }

    /// What the client at a place has sent.
    fn heard_from(&mut self, at: usize, now: u64) -> Heard
        ensures number { self.new.number ≡ self.old.number }
    {
        match self.clients.get_mut(at) {
            Some(client) => client.hear(now),
            None => Heard::Nothing,
        }
    }

    /// Gives a client its reply, or lets it wait for the end of the reload. Where there is no memory for a reply it gets none.
    fn settle(&mut self, at: usize, obeyed: Result<Obeyed, AllocError>, now: u64)
        ensures number { self.new.number ≡ self.old.number }
    {
        let text = match obeyed {
            Ok(Obeyed::Later) => return,
            Ok(Obeyed::Reply(text)) => text,
            Err(_) => String::new(self.alloc),
        };
        if let Some(client) = self.clients.get_mut(at) {
            client.reply(text, now);
        }
    }

    /// Obeys a command. Gives how far the reload is then, and what the command's client gets.
    fn obey<R: Wait, A: LocalUpdates>(
        &mut self,
        rt: &R,
        handler: &mut A,
        reload: Reload,
        command: ControlCommand,
    ) -> (Reload, Result<Obeyed, AllocError>)
        ensures grows { Grows (A.seen handler.new) (A.seen handler.old) }
        ensures number { self.new.number ≡ self.old.number }
    {
        match command {
            ControlCommand::Reload => self.begin_reload(rt, handler, reload),
            ControlCommand::Stop => {
                self.shutdown.end();
                (reload, replied(done(self.alloc)))
            }
            ControlCommand::Status => (reload, self.tell(rt, handler, false)),
            ControlCommand::Stats => (reload, self.tell(rt, handler, true)),
        }
    }

    /// Tells what is served, or the lines for Prometheus.
    fn tell<R: Wait, A: LocalUpdates>(
        &mut self,
        rt: &R,
        handler: &mut A,
        has_lines: bool,
    ) -> Result<Obeyed, AllocError>
        ensures grows { Grows (A.seen handler.new) (A.seen handler.old) }
        ensures number { self.new.number ≡ self.old.number }
    {
        let Ok(version) = handler.last_version(rt) else {
            return replied(failed(self.alloc, "no version can be loaded"));
        };
        let text = if has_lines {
            self.stats(rt, version.get())?
        } else {
            self.status(rt, version.get())?
        };
        Ok(Obeyed::Reply(text))
    }

    /// What is served, a line for each of it.
    fn status<R: Wait>(&self, rt: &R, version: &Version) -> Result<String, AllocError> {
        let store = match &self.plan.store {
            None => StoreStatus::None,
            Some(state) => StoreStatus::Kept {
                fault: state.fault(rt, self.alloc)?,
                journal: state.journal(),
                text: state.text(),
            },
        };
        let since = ServedSince {
            first: self.plan.first,
            uptime: millis_of(self.clock).saturating_sub(self.begun) / 1000,
        };
        status(self.alloc, version, since, &store)
    }

    /// The lines for Prometheus.
    fn stats<R: Wait>(&mut self, rt: &R, version: &Version) -> Result<String, AllocError>
        ensures number { self.new.number ≡ self.old.number }
    {
        let records = self.records.of(version);
        let started = self.plan.started;
        let store = store_facts(rt, self.alloc, &self.plan.store)?;
        let mut lines = match self.counters {
            Some(server) => {
                let mut rounds = Vec::new(self.alloc);
                let sum = server.sum(rt, &mut rounds);
                metrics_of(
                    self.alloc,
                    started,
                    version,
                    records,
                    Some((server, &sum)),
                    store,
                )?
            }
            None => metrics_of(self.alloc, started, version, records, None, store)?,
        };
        put_system(
            self.alloc,
            &mut lines,
            &mut self.plan.drops,
            &mut self.plan.process,
        )?;
        stats(self.alloc, &lines)
    }

    /// Begins a reload, if none is under way. Gives how far it is then, and what the command's client gets.
    fn begin_reload<R: Wait, A: LocalUpdates>(
        &mut self,
        rt: &R,
        handler: &mut A,
        reload: Reload,
    ) -> (Reload, Result<Obeyed, AllocError>)
        ensures grows { Grows (A.seen handler.new) (A.seen handler.old) }
        ensures number { self.new.number ≡ self.old.number }
    {
        let Some(slot) = &self.plan.reloads else {
            let text = failed(self.alloc, "the zone came by standard input");
            return (reload, replied(text));
        };
        match reload {
            Reload::Idle => {}
            under_way => {
                return (
                    under_way,
                    replied(failed(self.alloc, "a reload is under way")),
                );
            }
        }
        match order(rt, self.alloc, handler, slot) {
            Ok(Step::GoesOn(begun)) => (begun, Ok(Obeyed::Later)),
            Ok(Step::Done(text)) => (Reload::Idle, Ok(Obeyed::Reply(text))),
            Ok(Step::Failed(reason)) => (
                Reload::Idle,
                replied(failed(self.alloc, reason.as_str())),
            ),
            Err(fault) => (Reload::Idle, Err(fault)),
        }
    }

    /// Goes on with the reload, if one is under way, and gives how far it is then. Once it is over, its client gets its reply.
    fn go_on<R: Wait, A: LocalUpdates, L: ServiceLog>(
        &mut self,
        rt: &R,
        handler: &mut A,
        log: &L,
        reload: Reload,
        now: u64,
    ) -> Reload
        ensures grows { Grows (A.seen handler.new) (A.seen handler.old) }
        ensures number { self.new.number ≡ self.old.number }
    {
        let Some(slot) = &self.plan.reloads else {
            return reload;
        };
        let step = match reload {
            Reload::Idle => return Reload::Idle,
            Reload::Made { is_held } => after_making(rt, self.alloc, handler, slot, is_held),
            Reload::Judged {
                ticket,
                summary,
                is_held,
            } => after_judging(
                rt,
                self.alloc,
                handler,
                slot,
                log,
                (ticket, summary, is_held),
            ),
        };
        let text = match step {
            Ok(Step::GoesOn(next)) => return next,
            Ok(Step::Done(text)) => Ok(text),
            Ok(Step::Failed(reason)) => {
                let text = failed(self.alloc, reason.as_str());
                log.tell(rt, Event::NotReloaded(reason));
                text
            }
            Err(fault) => Err(fault),
        };
        // The zone that was read isn't needed any more.
        let _ = slot.order(rt, ReloadOrder::Drop);
        self.reply_waiting(text, now);
        Reload::Idle
    }

    /// Gives the client that waits for the reload's end this reply.
    fn reply_waiting(&mut self, text: Result<String, AllocError>, now: u64)
        ensures number { self.new.number ≡ self.old.number }
    {
        let waiting = self.clients.iter().position(|client| client.is_waiting());
        if let Some(at) = waiting {
            self.settle(at, replied(text), now);
        }
    }

    /// Gives up the reload that is under way, since the server ends.
    fn give_up<R: Wait, A: LocalUpdates>(
        &mut self,
        rt: &R,
        handler: &mut A,
        reload: Reload,
        now: u64,
    )
        ensures grows { Grows (A.seen handler.new) (A.seen handler.old) }
        ensures number { self.new.number ≡ self.old.number }
    {
        let is_under_way = abandon(rt, handler, reload);
        if is_under_way {
            let text = failed(self.alloc, "the server is ending");
            self.reply_waiting(text, now);
        }
        if let Some(slot) = &self.plan.reloads {
            slot.end(rt);
        }
    }
}
