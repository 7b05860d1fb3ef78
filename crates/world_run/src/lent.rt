//! Names and requests of a script's lines, as their octets.
ghost use Rattle.std.specs.Prelude.{◌≡◌};

use std::marker::Model;

/// The name of an owner, or of a call under way: octets that are compared. Contracts see the octets.
#[derive(Drop)]
pub struct Handle<'a> {
    octets: &'a [u8],
}

impl<'a> Model for Handle<'a> {
    ghost use Rattle.std.specs.Prelude.{List, ℕ};

    ghost Value = { List ℕ };

    ghost view = { λ a. a.octets.now };
}

impl<'a> Handle<'a> {
    /// A name of these octets.
    pub fn new(octets: &'a [u8]) -> Handle<'a>
        ensures { result ≡ octets.now }
    {
        Handle { octets }
    }

    /// The octets.
    pub fn as_slice(&self) -> &'a [u8]
        ensures { result.now ≡ self.now }
    {
        self.octets
    }

    /// The same name.
    pub fn copy(&self) -> Handle<'a>
        ensures { result ≡ self.now }
    {
        Handle::new(self.octets)
    }
}

/// A request, as on the wire. Contracts see its octets.
#[derive(Drop)]
pub struct Request<'a> {
    octets: &'a [u8],
}

impl<'a> Model for Request<'a> {
    ghost use Rattle.std.specs.Prelude.{List, ℕ};

    ghost Value = { List ℕ };

    ghost view = { λ a. a.octets.now };
}

impl<'a> Request<'a> {
    /// A request of these octets.
    pub fn new(octets: &'a [u8]) -> Request<'a>
        ensures { result ≡ octets.now }
    {
        Request { octets }
    }

    /// The octets.
    pub fn as_slice(&self) -> &'a [u8]
        ensures { result.now ≡ self.now }
    {
        self.octets
    }

    /// The same request.
    pub fn copy(&self) -> Request<'a>
        ensures { result ≡ self.now }
    {
        Request::new(self.octets)
    }
}
