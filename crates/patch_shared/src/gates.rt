//! Where a test may hold a thread.
use crate::actors::Actor;

/// Called round each call of a book, outside its lock. The calls of an actor are counted from 1.
pub trait Gate {
    fn before(&self, actor: Actor, call: u64);

    fn after(&self, actor: Actor, call: u64);
}

/// A gate that holds nobody.
pub struct OpenGate;

impl Gate for OpenGate {
    fn before(&self, _actor: Actor, _call: u64) {}

    fn after(&self, _actor: Actor, _call: u64) {}
}
