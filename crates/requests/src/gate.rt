//! A gate that each request passes, so that a test can hold one request until another is answered.

/// A gate that each request passes. It is entered before the request is answered, and left once its reply, if any, is made; for a request
/// that came as a datagram, once that reply is sent or its send has failed.
pub trait Gate {
    /// A request is about to be answered.
    fn enter(&self);

    /// The reply, if any, is made; for a datagram, it is sent or its send has failed.
    fn leave(&self);
}
