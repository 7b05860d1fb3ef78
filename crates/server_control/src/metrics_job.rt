//! The worker that serves what is counted, over HTTP (RFC 9112; own).
ghost use Rattle.std.specs.Prelude.{◌≡◌, Some, IfOk};
ghost use Rattle.requests.specs.Served.{Grows};

use crate::metrics_client::{MetricsClient, accept_client};
use crate::monotonic::millis_of;
use crate::process_files::ProcessFiles;
use crate::rates::{Rates, is_due};
use crate::served_facts::{RecordCount, metrics_of, put_system, store_facts};
use crate::shutdown::Shutdown;
use crate::thread_rounds::ThreadRounds;
use crate::udp_drops::UdpDrops;
use crate::work_since::SharedWork;
use counters::{
    AddressFamily, Counter, Counters, Opcode, SecondaryCounters, ServerCounters, Transport,
};
use http_page::{
    Content, Health, Line, Overview, PageRequest, Secondary, Status, health_of, write_page,
    write_reply,
};
use log_lines::RecentLines;
use metric_families::StoreFacts;
use std::alloc::{AllocError, Global};
use std::net::TcpListener;
use std::sync::{Arc, Wait};
use std::thread;
use std::time::{Clock, Duration};
use update_batches::SharedStoreState;
use zone_server::{JobEnd, LocalUpdates};
use zone_tree::{Version, ZoneRead};

/// How long the worker waits before it looks again, in milliseconds (own).
const LOOK: u64 = 25;

/// How many clients it has at most at a time; further ones are closed at once (own).
const CLIENTS: usize = 16;

/// How many clients are accepted in a look at most (own).
const ACCEPTED: usize = 64;

/// How often it looks whether the threads go round, in milliseconds (own).
const ROUND: u64 = 1_000;

/// The socket for metrics, and what is needed to serve them.
pub struct MetricsPlan {
    /// The socket, which doesn't block.
    pub listener: TcpListener,
    /// What the system dropped.
    pub drops: UdpDrops,
    /// What the system knows of the process.
    pub process: ProcessFiles,
    /// The last lines of the log.
    pub lines: Arc<RecentLines, Global>,
    /// What the update thread shows of its batches.
    pub updating: SharedWork,
    /// What the log's thread shows of its writing.
    pub logging: SharedWork,
    /// What the thread that notifies secondaries shows of its rounds, if there is one.
    pub notifying: SharedWork,
    /// What the thread that takes the operator's commands shows of its rounds, if there is one.
    pub controlling: SharedWork,
    /// How many threads of the server answer no requests, with this one.
    pub beside: usize,
    /// What is seen of the store; None where there is none.
    pub store: Option<SharedStoreState>,
    /// When the server was started, in seconds since 1970.
    pub started: u64,
}

impl Drop for MetricsPlan {
    fn drop(self) {
        let MetricsPlan {
            listener: _,
            drops: _,
            process: _,
            lines: _,
            updating: _,
            logging: _,
            notifying: _,
            controlling: _,
            beside: _,
            store: _,
            started: _,
        } = self;
    }
}

/// The job that serves what is counted, with its worker's number.
pub struct MetricsJob<'a, C> {
    /// The number of its worker.
    pub number: usize,
    alloc: Global,
    plan: MetricsPlan,
    counters: Option<&'a ServerCounters>,
    clients: Vec<MetricsClient>,
    clock: &'a C,
    shutdown: &'a Shutdown,
    /// When it was made, in milliseconds of a monotonic clock.
    begun: u64,
    records: RecordCount,
    threads: ThreadRounds,
    /// When it was last looked whether the threads go round.
    looked_at: u64,
    queries: Rates,
    updates: Rates,
    /// When rates were last taken.
    rated_at: u64,
    served: u64,
    end: Option<JobEnd>,
}

impl<'a, C> Drop for MetricsJob<'a, C> {
    fn drop(self) {
        let MetricsJob {
            number: _,
            alloc: _,
            plan: _,
            counters: _,
            clients: _,
            clock: _,
            shutdown: _,
            begun: _,
            records: _,
            threads: _,
            looked_at: _,
            queries: _,
            updates: _,
            rated_at: _,
            served: _,
            end: _,
        } = self;
    }
}

impl<'a, C: Clock> MetricsJob<'a, C> {
    /// The job of the worker with this number, which serves these counters. `AllocError` where there is no memory.
    pub fn new(
        alloc: Global,
        number: usize,
        plan: MetricsPlan,
        counters: Option<&'a ServerCounters>,
        clock: &'a C,
        shutdown: &'a Shutdown,
    ) -> Result<MetricsJob<'a, C>, AllocError>
        ensures { IfOk result (λ job. job.number ≡ number) }
    {
        let begun = millis_of(clock);
        Ok(MetricsJob {
            number,
            alloc,
            plan,
            counters,
            clients: Vec::with_capacity(alloc, CLIENTS)?,
            clock,
            shutdown,
            begun,
            records: RecordCount::new(),
            threads: ThreadRounds::new(alloc),
            looked_at: 0,
            queries: Rates::new(alloc),
            updates: Rates::new(alloc),
            rated_at: begun,
            served: 0,
            end: None,
        })
    }

    /// How the job has ended. None where it hasn't yet.
    pub fn end(&self) -> Option<JobEnd>
        ensures { result ≡ self.now.end }
    {
        self.end
    }

    /// Tells what is counted until the server is to end, or the threads that answer requests have ended.
    pub fn serve<R: Wait, A: LocalUpdates>(&mut self, rt: &R, handler: &mut A) -> JobEnd
        ensures grows { Grows (A.seen handler.new) (A.seen handler.old) }
        ensures end { self.new.end ≡ Some result }
        ensures number { self.new.number ≡ self.old.number }
    {
        for _ in rt.forever() {
            if let Some(end) = self.look(rt, handler) {
                self.end = Some(end);
                return end;
            }
        }
        unreachable!()
    }

    /// Does what there is to do, and waits. Gives the end where the server was to end before.
    fn look<R: Wait, A: LocalUpdates>(&mut self, rt: &R, handler: &mut A) -> Option<JobEnd>
        ensures grows { Grows (A.seen handler.new) (A.seen handler.old) }
        ensures number { self.new.number ≡ self.old.number }
    {
        let is_over = self.shutdown.is_ending() || self.shutdown.has_left(self.plan.beside);
        let now = millis_of(self.clock);
        self.watch(rt, now);
        self.accept(now);
        self.hear(rt, handler, now);
        self.write_replies(now);
        if is_over {
            return Some(JobEnd::Done(self.served));
        }
        thread::sleep(self.clock, Duration::from_millis(LOOK));
        None
    }

    /// Writes what the clients take of their replies. Those with which nothing is left to do are dropped.
    fn write_replies(&mut self, now: u64)
        ensures number { self.new.number ≡ self.old.number }
    {
        for client in &mut self.clients {
            client.write(now);
        }
        self.clients.retain(|client| !client.is_gone());
    }

    /// Takes the clients that have come. Those for which there is no room are closed.
    fn accept(&mut self, now: u64)
        ensures number { self.new.number ≡ self.old.number }
    {
        for _ in 0..ACCEPTED {
            let Some(client) = accept_client(self.alloc, &self.plan.listener, now) else {
                break;
            };
            if self.clients.len() < CLIENTS {
                let _ = self.clients.push(client);
            }
        }
    }

    /// Looks, each second, whether the threads go round, and takes rates where they are due.
    fn watch<R: Wait>(&mut self, rt: &R, now: u64)
        ensures number { self.new.number ≡ self.old.number }
    {
        if now.saturating_sub(self.looked_at) < ROUND {
            return;
        }
        self.looked_at = now;
        let Some((_, sum)) = self.sum(rt, now) else {
            return;
        };
        let passed = now.saturating_sub(self.rated_at);
        if is_due(passed) {
            self.rated_at = now;
            // A rate for which there is no memory is missing.
            let _ = self.queries.take(requests_in(&sum), passed);
            let _ = self
                .updates
                .take(sum.get(Counter::Opcode(Opcode::Update)), passed);
        }
    }

    /// The counters, and the numbers of all threads together; None where nothing is counted. It is noted which threads have gone round.
    fn sum<R: Wait>(&mut self, rt: &R, now: u64) -> Option<(&'a ServerCounters, Counters)>
        ensures number { self.new.number ≡ self.old.number }
    {
        let counters = self.counters?;
        let mut rounds = Vec::new(self.alloc);
        let sum = counters.sum(rt, &mut rounds);
        let _ = self.threads.note(rounds.as_slice(), now);
        Some((counters, sum))
    }

    /// Reads what the clients have sent, and answers their requests.
    fn hear<R: Wait, A: LocalUpdates>(&mut self, rt: &R, handler: &mut A, now: u64)
        ensures grows { Grows (A.seen handler.new) (A.seen handler.old) }
        ensures number { self.new.number ≡ self.old.number }
    {
        for at in 0..self.clients.len() {
            self.hear_at(rt, handler, at, now);
        }
    }

    /// Reads what the client at a place has sent, and answers its request once its head is whole. Where there is no memory for the reply it gets none.
    fn hear_at<R: Wait, A: LocalUpdates>(&mut self, rt: &R, handler: &mut A, at: usize, now: u64)
        ensures grows { Grows (A.seen handler.new) (A.seen handler.old) }
        ensures number { self.new.number ≡ self.old.number }
    {
        let asked = match self.clients.get_mut(at) {
            Some(client) => client.hear(now),
            None => PageRequest::More,
        };
        if asked == PageRequest::More {
            return;
        }
        self.served = self.served.saturating_add(1);
        let text = match self.reply_to(rt, handler, asked, now) {
            Ok(text) => text,
            Err(_) => Vec::new(self.alloc),
        };
        if let Some(client) = self.clients.get_mut(at) {
            client.reply(text);
        }
    }

    /// The reply to what is asked for.
    fn reply_to<R: Wait, A: LocalUpdates>(
        &mut self,
        rt: &R,
        handler: &mut A,
        asked: PageRequest,
        now: u64,
    ) -> Result<Vec<u8>, AllocError>
        ensures grows { Grows (A.seen handler.new) (A.seen handler.old) }
        ensures number { self.new.number ≡ self.old.number }
    {
        match asked {
            PageRequest::Metrics | PageRequest::Page => self.reply_of_version(
                rt, handler, asked, now,
            ),
            PageRequest::Health => self.health(rt, now),
            PageRequest::Unknown => empty(self.alloc, Status::NotFound),
            PageRequest::OtherMethod => empty(self.alloc, Status::MethodNotAllowed),
            PageRequest::Bad | PageRequest::More => empty(self.alloc, Status::BadRequest),
        }
    }

    /// The reply with what is counted, and with the version that was published last.
    fn reply_of_version<R: Wait, A: LocalUpdates>(
        &mut self,
        rt: &R,
        handler: &mut A,
        asked: PageRequest,
        now: u64,
    ) -> Result<Vec<u8>, AllocError>
        ensures grows { Grows (A.seen handler.new) (A.seen handler.old) }
        ensures number { self.new.number ≡ self.old.number }
    {
        let Ok(version) = handler.last_version(rt) else {
            return empty(self.alloc, Status::Unavailable);
        };
        if asked == PageRequest::Metrics {
            self.metrics(rt, version.get(), now)
        } else {
            self.page(rt, version.get(), now)
        }
    }

    /// The metrics.
    fn metrics<R: Wait>(
        &mut self,
        rt: &R,
        version: &Version,
        now: u64,
    ) -> Result<Vec<u8>, AllocError>
        ensures number { self.new.number ≡ self.old.number }
    {
        let records = self.records.of(version);
        let summed = self.sum(rt, now);
        let counted = match &summed {
            Some((server, sum)) => Some((*server, sum)),
            None => None,
        };
        let (alloc, started) = (self.alloc, self.plan.started);
        let store = store_facts(rt, alloc, &self.plan.store)?;
        let mut body = metrics_of(alloc, started, version, records, counted, store)?;
        put_system(
            alloc,
            &mut body,
            &mut self.plan.drops,
            &mut self.plan.process,
        )?;
        replied(self.alloc, Status::Ok, Content::Metrics, &body)
    }

    /// Whether the server is healthy.
    fn health<R: Wait>(&self, rt: &R, now: u64) -> Result<Vec<u8>, AllocError> {
        let health = self.health_at(rt, now)?;
        let mut body = Vec::new(self.alloc);
        health.write(&mut body)?;
        replied(self.alloc, health.status(), Content::Text, &body)
    }

    /// Whether the server is healthy. Its threads are those that answer requests, each of which shows its numbers at least once a second until it ends; then the update thread, which
    /// may not have a batch under way for too long, from before its judging until after its replies; then the log's thread, which may not write for too long at a time; then the
    /// thread that notifies secondaries and the one that takes the operator's commands, whose rounds may not take too long.
    fn health_at<R: Wait>(&self, rt: &R, now: u64) -> Result<Health, AllocError> {
        let is_failing = match store_facts(rt, self.alloc, &self.plan.store)? {
            Some(facts) => facts.is_failing,
            None => false,
        };
        let mut since = self.threads.since(self.alloc, self.shutdown.ended())?;
        since.push(self.plan.updating.since())?;
        since.push(self.plan.logging.since())?;
        since.push(self.plan.notifying.since())?;
        since.push(self.plan.controlling.since())?;
        Ok(health_of(self.shutdown.is_ending(), is_failing, since.as_slice(), now))
    }

    /// The page for a person.
    fn page<R: Wait>(&mut self, rt: &R, version: &Version, now: u64) -> Result<Vec<u8>, AllocError>
        ensures number { self.new.number ≡ self.old.number }
    {
        let records = self.records.of(version);
        let lines = lines_of(self.alloc, self.plan.lines.copy(rt)?)?;
        let store = store_word(store_facts(rt, self.alloc, &self.plan.store)?);
        let overview = self.overview(version, records, store, lines, now)?;
        let mut body = Vec::new(self.alloc);
        write_page(&mut body, &overview)?;
        replied(self.alloc, Status::Ok, Content::Page, &body)
    }

    /// The secondaries, and what is known of them.
    fn secondaries(&self) -> Result<Vec<Secondary>, AllocError> {
        let mut shown = Vec::new(self.alloc);
        let Some(counters) = self.counters else {
            return Ok(shown);
        };
        for counted in counters.secondaries() {
            shown.push(shown_of(self.alloc, counted)?)?;
        }
        Ok(shown)
    }

    /// What the page shows.
    fn overview(
        &self,
        version: &Version,
        records: u64,
        store: &str,
        lines: Vec<Line>,
        now: u64,
    ) -> Result<Overview, AllocError> {
        let alloc = self.alloc;
        let zone = version.zone();
        let mut graphs = Vec::new(alloc);
        graphs.push(self.queries.graph(alloc, "Requests in each second")?)?;
        graphs.push(self.updates.graph(alloc, "Updates in each second")?)?;
        Ok(Overview {
            zone: String::from_str(alloc, zone.apex().to_text().as_str())?,
            serial: zone.serial().0,
            records,
            uptime: now.saturating_sub(self.begun) / 1000,
            store: String::from_str(alloc, store)?,
            graphs,
            secondaries: self.secondaries()?,
            lines,
        })
    }
}

/// What the page says of a store.
fn store_word(store: Option<StoreFacts>) -> &'static str {
    match store {
        None => "none",
        Some(
            StoreFacts {
                is_failing: true,
                ..
            },
        ) => "failing",
        Some(_) => "ok",
    }
}

/// Lines of the log for the page.
fn lines_of(alloc: Global, texts: Vec<String>) -> Result<Vec<Line>, AllocError> {
    let mut lines = Vec::new(alloc);
    for text in texts {
        lines.push(Line { text })?;
    }
    Ok(lines)
}

/// A secondary, and what is known of it.
fn shown_of(alloc: Global, counted: &SecondaryCounters) -> Result<Secondary, AllocError> {
    let address = counted.address;
    Ok(Secondary {
        address: format!(in alloc; "{address}")?,
        sent: counted.sent(),
        answered: counted.answered(),
        given_up: counted.given_up(),
        serial: counted.serial(),
    })
}

/// How many requests were counted.
fn requests_in(sum: &Counters) -> u64 {
    let mut requests = 0u64;
    for transport in Transport::ALL {
        requests = requests
            .saturating_add(sum.get(Counter::Request(transport, AddressFamily::V4)))
            .saturating_add(sum.get(Counter::Request(transport, AddressFamily::V6)));
    }
    requests
}

/// A reply without a body.
fn empty(alloc: Global, status: Status) -> Result<Vec<u8>, AllocError> {
    replied(alloc, status, Content::Text, &[])
}

/// A reply with a body.
fn replied(
    alloc: Global,
    status: Status,
    content: Content,
    body: &[u8],
) -> Result<Vec<u8>, AllocError> {
    let mut text = Vec::new(alloc);
    write_reply(&mut text, status, content, body)?;
    Ok(text)
}
