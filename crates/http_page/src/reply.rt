//! The octets of a reply.
ghost use Rattle.std.specs.Prelude.{◌≡◌, ◌++◌, OnOk};
ghost use Rattle.http_page.specs.Reply.{status_line, content_type, reply_octets, status_text, fields_text, type_text, length_text, body_text, type_field, length_field, last_fields};

use metrics_text::{put_decimal, put_text};
use std::alloc::AllocError;

/// A status (RFC 9110, 15).
#[derive(Clone, Copy, Debug, PartialEq, Eq)]
pub enum Status {
    /// 200.
    Ok,
    /// 400.
    BadRequest,
    /// 404.
    NotFound,
    /// 405, with the methods that are allowed.
    MethodNotAllowed,
    /// 503.
    Unavailable,
}

/// What a body is.
#[derive(Clone, Copy, Debug, PartialEq, Eq)]
pub enum Content {
    /// Metrics in the exposition format, version 0.0.4.
    Metrics,
    /// Plain text.
    Text,
    /// A page.
    Page,
}

/// Puts a reply at the end of a text: the status line, the fields and the body (RFC 9112, 4 to 6). After it the connection is closed. The
/// fault is a growth that was refused; the text then ends anywhere.
pub fn write_reply(
    text: &mut Vec<u8>,
    status: Status,
    content: Content,
    body: &[u8],
) -> Result<(), AllocError>
    ensures { OnOk result (text.new.items ≡ text.old.items ++ reply_octets status content body.now) }
{
    put_status(text, status)?;
    put_body(text, content, body)
}

/// Puts a status line at the end of a text.
fn put_status(text: &mut Vec<u8>, status: Status) -> Result<(), AllocError>
    ensures { OnOk result (text.new.items ≡ text.old.items ++ status_text status) }
{
    put_text(text, "HTTP/1.1 ")?;
    put_text(text, line_of(status))?;
    put_text(text, "\r\n")
}

/// Puts the fields and the body at the end of a text.
fn put_body(text: &mut Vec<u8>, content: Content, body: &[u8]) -> Result<(), AllocError>
    ensures { OnOk result (text.new.items ≡ text.old.items ++ body_text content body.now) }
{
    put_fields(text, content, body.len() as u64)?;
    text.extend_from_slice(body)
}

/// Puts the fields of a body of so many octets at the end of a text.
fn put_fields(text: &mut Vec<u8>, content: Content, len: u64) -> Result<(), AllocError>
    ensures { OnOk result (text.new.items ≡ text.old.items ++ fields_text content len) }
{
    put_type(text, content)?;
    put_length(text, len)
}

/// Puts the field of a body's type at the end of a text.
fn put_type(text: &mut Vec<u8>, content: Content) -> Result<(), AllocError>
    ensures { OnOk result (text.new.items ≡ text.old.items ++ type_text content) }
{
    put_text(text, type_field())?;
    put_text(text, type_of(content))
}

/// Puts the field of a body's length, and those after it, at the end of a text.
fn put_length(text: &mut Vec<u8>, len: u64) -> Result<(), AllocError>
    ensures { OnOk result (text.new.items ≡ text.old.items ++ length_text len) }
{
    put_text(text, length_field())?;
    put_decimal(text, len)?;
    put_text(text, last_fields())
}

/// The code and the reason of a status, and the field that it has to have.
fn line_of(status: Status) -> &'static str
    ensures { result.now ≡ status_line status }
{
    match status {
        Status::Ok => "200 OK",
        Status::BadRequest => "400 Bad Request",
        Status::NotFound => "404 Not Found",
        Status::MethodNotAllowed => "405 Method Not Allowed\r\nAllow: GET",
        Status::Unavailable => "503 Service Unavailable",
    }
}

/// The type of a body.
fn type_of(content: Content) -> &'static str
    ensures { result.now ≡ content_type content }
{
    match content {
        Content::Metrics => "text/plain; version=0.0.4",
        Content::Text => "text/plain; charset=utf-8",
        Content::Page => "text/html; charset=utf-8",
    }
}

/// What stands before the type of a body.
#[tactic(auto, unfolding(crate::specs::Reply::type_field))]
fn type_field() -> &'static str
    ensures { result.now ≡ type_field }
{
    "Content-Type: "
}

/// What stands before the length of a body.
#[tactic(auto, unfolding(crate::specs::Reply::length_field))]
fn length_field() -> &'static str
    ensures { result.now ≡ length_field }
{
    "\r\nContent-Length: "
}

/// What stands after it: no cache keeps the reply, and the connection is closed after it.
#[tactic(auto, unfolding(crate::specs::Reply::last_fields))]
fn last_fields() -> &'static str
    ensures { result.now ≡ last_fields }
{
    "\r\nCache-Control: no-store\r\nConnection: close\r\n\r\n"
}
