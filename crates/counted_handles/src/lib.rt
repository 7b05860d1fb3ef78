//! The rule of a cell's words that threads share, and the steps on them as calls.
//!
//! The words W, S and K and the places of 64 slots lie in an `atomic_table`. Its [`Rule`] says that they show a cell as those of
//! `cell_core` do, whose values are a history, and that each place is where the words say: at home and shared by its version, or
//! away with who prepares it or has buried what lay there. What a seat knows is its [`View`]: a reader has grants, an owner a
//! [`Mark`] of its share, and the publisher, which has the first seat, all that is published and the count of the readers. Each
//! step has a name in `plays` and a call in `calls`, whose contract says what it tells.
#![tactic(auto)]

mod calls;
mod ending;
mod found;
mod further;
mod grants;
mod guests;
mod lapsed;
mod made;
mod names;
mod owner;
mod plays;
mod probed;
mod publications;
mod released;
mod rule;
mod unmade;
mod view;
mod weak;

pub use calls::Words;
pub use ending::{InUse, end};
pub use found::{FreeCount, find_free};
pub use grants::{deal, deal_rest, give_back, take_in};
pub use lapsed::{Lapse, Lapsed};
pub use made::{Made, make};
pub use names::Names;
pub use owner::{Strong, load};
pub use probed::Probed;
pub use publications::{NoSlot, meet, publish};
pub use released::{Released, Steps};
pub use rule::{Room, Rule, Spots};
pub use unmade::unmake;
pub use view::{Hold, Mark, Publishing, Reading, Tie, View};
pub use weak::{Sunk, Weak, newest_with_weak};
