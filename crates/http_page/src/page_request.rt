//! What a request asks for.
ghost use Rattle.std.specs.Prelude.{◌≡◌, ◌<◌, length};
ghost use Rattle.http_page.specs.PageRequest.{IsAsked, asked_of};

use httparse::Status;
use httparse::spans::{EMPTY_HEADER_SPAN, parse_request};

/// The most octets of a request's head.
pub const MAX_HEAD: usize = 4096;

/// The most fields of a request's head.
const MAX_FIELDS: usize = 64;

/// What a request asks for.
#[derive(Clone, Copy, Debug, PartialEq, Eq)]
pub enum PageRequest {
    /// Its head isn't whole yet.
    More,
    /// `GET /`: the page for a person.
    Page,
    /// `GET /metrics`: the metrics.
    Metrics,
    /// `GET /healthz`: whether the server is healthy.
    Health,
    /// Another path.
    Unknown,
    /// Another method.
    OtherMethod,
    /// No request, or one whose head has more than 64 fields or more than 4,096 octets.
    Bad,
}

/// What octets ask for, by the head of a request that they begin with (RFC 9112, 3).
pub fn asked_by(octets: &[u8]) -> PageRequest
    ensures { IsAsked octets.now result }
{
    let mut spans = [EMPTY_HEADER_SPAN; MAX_FIELDS];
    match parse_request(octets, &mut spans) {
        Ok(Status::Complete(head)) => asked_of(head.method.of(octets), head.path.of(octets)),
        Ok(Status::Partial) if octets.len() < MAX_HEAD => PageRequest::More,
        Ok(Status::Partial) | Err(_) => PageRequest::Bad,
    }
}

/// What a method and a path ask for.
fn asked_of(method: &[u8], path: &[u8]) -> PageRequest
    ensures { result ≡ asked_of method.now path.now }
{
    if method != b"GET".as_slice() {
        PageRequest::OtherMethod
    } else if path == b"/".as_slice() {
        PageRequest::Page
    } else if path == b"/metrics".as_slice() {
        PageRequest::Metrics
    } else if path == b"/healthz".as_slice() {
        PageRequest::Health
    } else {
        PageRequest::Unknown
    }
}
