//! A cache that is open.
use patch_engine::Engine;

/// The engine that a handle stands for.
#[derive(Drop)]
pub struct Opened {
    pub engine: Engine,
}
