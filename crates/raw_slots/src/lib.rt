//! Places for values that many readers may claim at once, over the slots of an `atomic_table`.
//!
//! A slot of the table holds a `Place`. A place is whole, and then its holder writes it, or it is shared by `Place::share`.
//! While a shared place is at home in its slot, a seat whose view the rule ties to it may claim it: `claim` gives a `Held`,
//! which reads the value, and `unclaim` gives it back. A place that was taken out of its slot is whole again by `collect`,
//! where the rule has no view left that could have claimed it. No claim counts, waits or tries again.
#![tactic(auto)]

mod bare;
mod claims;
mod closed;
mod laid;
mod place;
mod row;

pub use bare::Bare;
pub use claims::{Tells, claim, collect, unclaim};
pub use closed::gather_closed;
pub use laid::{cut_all, gather, join_all, lay, lay_places, unlay};
pub use place::{Held, Keys, Place, Spot};
pub use row::Row;
