//! The store of a running server: how it starts, and where it writes updates (RFC 2136, 3.5; own).
//!
//! [`start_store`] locks the store's directory and gives the zone to serve. A directory without a journal gets a new store from the operator's zone file. Otherwise the zone is
//! that of the store with its journal's updates replayed, if the zone file is the one that the store was created from, or is not newer, or the operator chose the store. If the
//! operator chose a changed zone file, it is that of the store changed to the zone file, by an update that its journal then has. A torn end of the journal is copied to a file of its own
//! before it is cut off. Nothing is changed if nothing is served.
//!
//! [`resume_store`] gives the versions that a server begins with, and the store's writer, which has the same versions with the updates that made them. A [`ServerStore`] writes
//! the updates of batches to a store, or nowhere, if none is configured. It logs to a [`StoreLog`] when updates cannot be written and why, and when they can be again, and
//! [`LoggedCompactions`] the results of compactions: one line at each change, and none for each batch.
//!
//! Two functions that do nothing have the laws of updates from end to end as their contracts. The thread that judges updates (`update_batches`), the publisher that publishes and
//! replies for it (`zone_server`) and the store to which it appends updates (`store_compaction`) know nothing of each other. These laws say what follows for them together, as
//! `dnsd serve --store` runs them: [`served_updates_are_recovered`] and [`resumed_store_has_its_updates`].
#![tactic(auto)]

mod create;
mod event;
mod laws;
mod logged_compactions;
mod refusal;
mod resume;
mod served;
mod start;
mod start_versions;
mod take_zone;
mod updates;

pub use event::{StoreEvent, StoreLog};
pub use laws::{resumed_store_has_its_updates, served_updates_are_recovered};
pub use logged_compactions::LoggedCompactions;
pub use refusal::Refusal;
pub use resume::{OpenStore, resume_pair};
pub use served::{LoggedStore, NotStored, ServerStore};
pub use start::{Given, Served, Started, start_store};
pub use start_versions::resume_store;
pub use take_zone::TakenZone;
