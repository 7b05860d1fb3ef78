//! The engine that publishes updates of a zone (RFC 2136): it makes of the version published last the next one, and keeps the newest.
//!
//! The values of its cell are versions of a zone. Contracts say which may be published after which (`IsNext`): some update makes
//! the one of the other. So each published version is the first zone with updates replayed (`IsReplay`), as many as its number.
//! An [`Engine`] is seen as the versions published and the newest of them (`Held`), and what it tells of an update is `IsTold`. It may begin with
//! versions that were made before it ([`Engine::resume`]). It has the history of what was published, and a [`VersionChain`] is what that tells of
//! what changed (`TellsSince`). No call of it waits. Answering queries, transfers and the lock round the engine aren't here.
#![tactic(auto)]

mod chain;
mod copies;
mod engine;
mod fault;
mod judged;
mod laws;
mod learn;
mod owners;
mod resume;
mod shared;
mod versions;

pub use chain::VersionChain;
pub use engine::Engine;
pub use fault::{EngineFault, NoEngine};
pub use judged::{Judged, judge};
pub use laws::published_versions_are_replays;
pub use shared::SharedVersion;
pub use snapshot_cell::{Naming, Spent};
pub use transfer_core::KEPT;
pub use versions::{
    FirstZone, SharedChain, VersionCell, VersionOwner, VersionPublisher, VersionReader,
    ZoneVersions,
};
