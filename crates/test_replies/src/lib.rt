//! Tests of the running server: how many versions incremental transfers reach back after a start from a journal, updates that it publishes
//! (also when memory, grants or slots run out), streams that `tcp_connections` serves by `zone_replies`, and datagrams and logs of `requests`
//! and `zone_server`. On connections: a transfer of many messages, compared with the messages of the same transfer made all at once, and replies
//! that are made later, to updates that are submitted to the update thread. Zones, requests and replies are tables. Other tables of rows show the
//! content of replies and transfers; jobs and connections are tested in `test_threads`.
#![tactic(auto)]

#[cfg(test)]
mod big;
#[cfg(test)]
mod datagrams;
#[cfg(test)]
mod failing;
#[cfg(test)]
mod gone_versions;
#[cfg(test)]
mod orders;
#[cfg(test)]
mod refused_updates;
#[cfg(test)]
mod restarts;
#[cfg(test)]
mod served;
#[cfg(test)]
mod service_logs;
#[cfg(test)]
mod slots;
#[cfg(test)]
mod streams;
#[cfg(test)]
mod submitted;
