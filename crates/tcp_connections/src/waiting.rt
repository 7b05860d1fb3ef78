//! What a connection waits for.

/// What a connection waits for: what its peer has to do, or what its peer waits for.
#[derive(Clone, Copy, PartialEq, Eq, Debug)]
pub enum Waiting {
    /// A request, of which nothing has come: it is idle.
    Request,
    /// The rest of a request.
    Rest,
    /// The reply to a whole request: its peer has nothing to do.
    Answer,
    /// That its peer takes what is to be written.
    Taking,
}
