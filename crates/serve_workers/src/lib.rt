//! The running server: workers that serve sockets on threads.
//!
//! [`serve_zone`] serves a zone on sockets. A worker has one thread for each of its UDP sockets, and one for all of its TCP listeners (`worker_jobs`). Either all threads
//! begin or none does. A thread that fails ends the server. The calling thread judges the updates that the other threads submit to it, while they run ([`UpdateConfig`]).
#![tactic(auto)]

mod counted_jobs;
mod ending;
mod jobs;
mod judge;
mod reply_routes;
mod server_thread;
mod service;
mod signed_jobs;
mod thread_spec;
mod threads;
mod updates;

pub use judge::UpdateConfig;
pub use service::{Plan, serve_zone};
pub use signed_jobs::SharedKeys;
pub use tcp_loop::Plan as ConnectionPlan;
pub use thread_spec::{Sockets, ThreadSpec};
pub use update_batches::Most;
pub use worker_jobs::{NotifySocket, Secondaries, WorkLimit};
