//! What an update makes of a version that need not be published (RFC 2136, 3).
ghost use Rattle.dns_engine.specs.Outcomes.{IsJudged, IsJudgedAs};

use crate::shared::SharedVersion;
use dns_message::Update;
use dns_rdata::Rcode;
use std::alloc::Global;
use update_core::{Outcome, apply};

/// What an update makes of a version.
#[derive(Drop)]
pub enum Judged {
    /// None: this code is told (RFC 2136, 2.2), NOERROR where it changes nothing.
    Code(Rcode),
    /// This one.
    Made(SharedVersion),
    /// No rule gives it a code, and there is no memory for what it makes.
    Starved,
}

/// What an update makes of a version, published or not, sent by a peer that may update, or may not (RFC 2136, 3). SERVFAIL also tells that there
/// is no number left. It takes memory, and waits for nobody.
pub fn judge(alloc: Global, version: &SharedVersion, update: &Update, may: bool) -> Judged
    ensures { IsJudged version.now update.now may result }
{
    let known = version.get();
    if known.number() == u64::MAX {
        return Judged::Code(Rcode::ServFail);
    }
    judged_of(alloc, apply(alloc, known, update, may))
}

/// What is told of what becomes of an update: as it is, but of a version that there is no memory for it.
fn judged_of(alloc: Global, outcome: Outcome) -> Judged
    ensures { IsJudgedAs outcome result }
{
    match outcome {
        Outcome::Refused(code) => Judged::Code(code),
        Outcome::Unchanged => Judged::Code(Rcode::NoError),
        Outcome::NoMemory => Judged::Starved,
        Outcome::Next(next) => match SharedVersion::new(alloc, next) {
            Some(shared) => Judged::Made(shared),
            None => Judged::Starved,
        },
    }
}
