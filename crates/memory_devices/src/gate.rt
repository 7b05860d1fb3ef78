//! A gate that holds no request.
use requests::Gate;

/// A gate that holds no request.
#[derive(Clone, Copy)]
pub struct OpenGate;

impl Gate for OpenGate {
    fn enter(&self) {}

    fn leave(&self) {}
}
