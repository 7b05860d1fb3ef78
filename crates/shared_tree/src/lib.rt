//! A sorted map whose versions share what they have in common: a balanced tree, after std's `Arc`, so that a change makes
//! one way down anew and shares all that stands beside it. Its leaves are runs of 1 to 16 pairs; a node above them has no pair of
//! its own, and keeps the first one on its right, which parts its sides. So the nodes of a large map are few, and a way down
//! ends in pairs that lie side by side.
//!
//! Contracts see a [`Tree`] as the list of its pairs, whose keys ascend by their own order, and beside them as its height
//! (`TreeView`); what is asked of it and made of it is a filter of that list (`Pairs`). Pairs are shared, and never cloned.
//! No call goes deeper than the height, which is at most twice the binary digits of the number of pairs, and neither does
//! dropping a tree. Removing many keys at once, joining two trees and walking backwards are not here.
#![tactic(auto)]

mod build;
mod fault;
mod front;
mod join;
mod laws;
mod look;
mod node;
mod path;
mod run;
mod seek;
mod tree;
mod walk;

pub use fault::NoMemory;
pub use front::Front;
pub use laws::{examples, one_key_changes};
pub use look::Around;
pub use seek::Seek;
pub use tree::Tree;
pub use walk::Walk;
