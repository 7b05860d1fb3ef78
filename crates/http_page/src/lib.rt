//! The pages of a server over HTTP (RFC 9110; RFC 9112): what is asked, the octets of a reply, whether the server is healthy, and a page
//! for a person.
//!
//! There is no socket here, and no clock: octets come and go as values. The head of a request is read by `httparse`. No page has a script
//! or names another resource.
#![tactic(auto)]

mod graph;
mod health;
mod html;
mod overview;
mod page;
mod page_request;
mod reply;

pub use graph::Graph;
pub use health::{Health, MAX_BUSY, health_of};
pub use overview::{Line, Overview, Secondary};
pub use page::write_page;
pub use page_request::{MAX_HEAD, PageRequest, asked_by};
pub use reply::{Content, Status, write_reply};
