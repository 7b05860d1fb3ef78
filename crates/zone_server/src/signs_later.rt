//! Handlers of datagrams some of whose replies are sent by another thread.
ghost use Rattle.std.specs.Prelude.{◌≡◌};
ghost use Rattle.requests.specs.Served.{Grows};

use requests::Handler;
use tsig::RequestTsig;

/// A handler of datagrams. The reply to a request may be sent by another thread, which has to sign it: so the handler gets the request's TSIG.
pub trait SignsLater: Handler {
    /// The next request came with this TSIG; with none if it isn't signed.
    fn set_tsig(&mut self, tsig: Option<RequestTsig>)
        ensures same { Self.peer self.new ≡ Self.peer self.old }
        ensures grows { Grows (Self.seen self.new) (Self.seen self.old) };
}
