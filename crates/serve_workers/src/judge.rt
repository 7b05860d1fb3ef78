//! The update thread: it judges updates while other threads submit them (RFC 2136, 3).

use crate::reply_routes::ReplyRoutes;
use crate::signed_jobs::SharedKeys;
use crate::thread_spec::ThreadSpec;
use crate::updates::Updates;
use counters::ServerCounters;
use dns_engine::{FirstZone, VersionReader};
use server_control::Shutdown;
use std::alloc::Global;
use std::io;
use std::sync::Wait;
use std::time::Clock;
use update_batches::{Most, UpdatePublisher, UpdateStore, UpdateThread};
use worker_jobs::MainTask;
use zone_server::{PublishRight, Server, ServerName, ServerPublisher, ServiceLog};

/// How the update thread judges the updates that the other threads submit.
#[derive(Drop)]
pub struct UpdateConfig<S: UpdateStore> {
    /// How many updates may wait at most, and the octets of memory that they may count for together.
    pub most: Most,
    /// Where batches are stored before their updates get their replies.
    pub store: S,
}

/// What the update thread needs to judge updates.
#[derive(Drop)]
pub(crate) struct UpdateContext<'a, C, S: UpdateStore> {
    /// The updates that wait.
    pub(crate) updates: &'a Updates,
    /// Brings the replies to the threads.
    pub(crate) routes: ReplyRoutes<'a, C>,
    /// Where batches are stored before their updates get their replies.
    pub(crate) store: S,
}

impl<'a, C: Clock, S: UpdateStore> UpdateContext<'a, C, S> {
    /// What is needed to judge the updates that the threads of these specs submit, and to sign their replies by these keys with the time of a clock and to count them, if they are counted. An error where a socket can't be shared, or an allocation fails.
    pub(crate) fn new(
        alloc: Global,
        config: UpdateConfig<S>,
        specs: &[ThreadSpec<'_>],
        updates: &'a Updates,
        keys: Option<SharedKeys<'a>>,
        counters: Option<&'a ServerCounters>,
        clock: &'a C,
    ) -> io::Result<UpdateContext<'a, C, S>> {
        let UpdateConfig { store, .. } = config;
        Ok(UpdateContext {
            updates,
            routes: ReplyRoutes::new(alloc, specs, updates, keys, counters, clock)?,
            store,
        })
    }
}

/// Judges updates until no thread submits any more, and publishes the versions that they make.
#[derive(Drop)]
pub(crate) struct Judge<'a, 'b, P: UpdatePublisher, S: UpdateStore> {
    job: UpdateThread<'b, P, S>,
    shutdown: &'a Shutdown,
}

impl<'a, 'b, P: UpdatePublisher, S: UpdateStore> Judge<'a, 'b, P, S> {
    /// Gives its publisher back. It judges no more updates.
    fn into_publisher(self) -> P {
        let Judge { job, shutdown: _ } = self;
        let (publisher, _store) = job.into_parts();
        publisher
    }
}

impl<'a, 'b, P: UpdatePublisher, S: UpdateStore> MainTask for Judge<'a, 'b, P, S> {
    // Secondaries are notified of versions until this has ended too.
    fn run<R: Wait>(&mut self, rt: &R) {
        self.job.serve(rt);
        self.shutdown.judged();
    }
}

/// What publishes in a server, and replies by the routes to its threads.
pub(crate) type RoutedPublisher<'g, 's, Z, N, L, C> = ServerPublisher<
    'g,
    's,
    Z,
    N,
    L,
    ReplyRoutes<'g, C>,
>;

/// The update thread's task in a server, with a reader and the right to publish. The reader comes back if an allocation fails.
pub(crate) fn judge_for<
    'g,
    's,
    R: Wait,
    Z: FirstZone,
    N: ServerName,
    L: ServiceLog,
    C: Clock,
    S: UpdateStore,
>(
    rt: &R,
    alloc: Global,
    server: &'g Server<'s, Z, N>,
    shutdown: &'g Shutdown,
    context: UpdateContext<'g, C, S>,
    reader: VersionReader<N>,
    right: PublishRight<N>,
    log: &'g L,
) -> Result<Judge<'g, 'g, RoutedPublisher<'g, 's, Z, N, L, C>, S>, VersionReader<N>> {
    let UpdateContext {
        updates,
        routes,
        store,
    } = context;
    let publisher = match ServerPublisher::new(rt, alloc, server, reader, right, log, routes) {
        Ok(publisher) => publisher,
        Err(reader) => return Err(reader),
    };
    match UpdateThread::new(alloc, publisher, store, updates.queue()) {
        Ok(job) => Ok(Judge { job, shutdown }),
        Err(back) => {
            let (publisher, _store) = back;
            Err(publisher.into_parts().0)
        }
    }
}

/// Ends the update thread's task, and gives its reader back.
pub(crate) fn reader_of<Z: FirstZone, N: ServerName, L: ServiceLog, C: Clock, S: UpdateStore>(
    judge: Judge<'_, '_, RoutedPublisher<'_, '_, Z, N, L, C>, S>,
) -> VersionReader<N> {
    let (reader, _replying) = judge.into_publisher().into_parts();
    reader
}
