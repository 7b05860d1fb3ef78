//! Who may update a zone, and what of it, and who may transfer it (RFC 2136, 3.3; RFC 5936, 5).
//!
//! A [`Rule`] gives rights to the addresses of a prefix, or to who signs by a key: to transfer, and to update the records of some names and types. Contracts see whether an
//! update is permitted as one definition (`is_permitted`): a rule gives who asks a right to update, and each record of the update section is covered
//! by such a rule, by its owner and its type. [`is_permitted`] and [`may_transfer`] equal their definitions, and take no memory. [`parse_rule`] reads a
//! rule, and [`judge`] says what a request gets, and by which rules.
#![tactic(auto)]

mod address;
mod fault;
mod parse;
mod permission;
mod prefix;
mod print;
mod report;
mod requestor;
mod rule;
mod types;

pub use address::parse_prefix;
pub use fault::RuleFault;
pub use parse::parse_rule;
pub use permission::{
    are_permitted, covering, first_outside, first_uncovered, has_right, may_transfer, transferring,
};
pub use prefix::Prefix;
pub use report::{Decision, RequestFault, is_permitted, judge, judge_digits};
pub use requestor::Requestor;
pub use rule::{NameScope, Rule, UpdateRight};
pub use types::TypeWord;
