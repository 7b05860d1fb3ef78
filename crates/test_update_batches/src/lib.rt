//! Tests of queues of work for another thread: a queue that is full, one that is ended, and one that threads share. And of the update thread:
//! batches of queued updates over a publisher whose versions are a list, and over a server's publisher. They look at the result of each update,
//! at what is published, sent and logged, and at what a journal has, also if its disk fails (RFC 2136, 3 and 3.8).
#![tactic(auto)]

#[cfg(test)]
mod batches;
#[cfg(test)]
mod cases;
#[cfg(test)]
mod queues;
#[cfg(test)]
mod sent_replies;
#[cfg(test)]
mod server_batches;
#[cfg(test)]
mod servers;
#[cfg(test)]
mod store;
#[cfg(test)]
mod store_states;
#[cfg(test)]
mod updates;
#[cfg(test)]
mod version_list;
