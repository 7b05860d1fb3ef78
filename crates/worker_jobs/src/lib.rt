//! The jobs of a server's threads, and the threads that run them.
//!
//! A [`DatagramsJob`] answers the datagrams of a socket, a [`ConnectionsJob`] runs the event loop over the connections of a worker's listeners, and a [`NotifyJob`] notifies
//! secondaries of new versions. The threads of a server share a `Shutdown` of the crate `server_control`, and those of a worker a [`WorkLimit`]. With a [`WakeList`], other threads wake a worker when the
//! reply on one of its connections is ready. [`run_workers`] runs jobs of any kind, each on a thread of its own, and [`run_tasks`] tasks of any kind. What is
//! answered, and what is then written, is in the crates `requests`, `tcp_loop` and `zone_server`.
#![tactic(auto)]

mod connections_job;
mod datagrams_job;
mod held_replies;
mod interrupted;
mod notify_job;
mod notify_socket;
mod scratch;
mod udp_job;
mod wake_list;
mod waking_poll;
mod woken_keys;
mod work_limit;
mod worker_socket;
mod workers;

pub use connections_job::ConnectionsJob;
pub use datagrams_job::DatagramsJob;
pub use notify_job::{NotifyJob, Secondaries};
pub use notify_socket::NotifySocket;
pub use scratch::Scratch;
pub use udp_job::UdpJob;
pub use wake_list::WakeList;
pub use work_limit::{StopFlag, WorkLimit};
pub use worker_socket::{WorkerSocket, is_sent};
pub use workers::{Job, MainTask, NoMainTask, NotStarted, Task, nobody, run_tasks, run_workers};
