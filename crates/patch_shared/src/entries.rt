//! Commands that were answered, and what stands in a book.
use crate::actors::{Actor, Counts};
use patch_history::{Command, Reply};
use patch_model::BlockBytes;
use std::alloc::{Allocator, Global};

/// A command with its reply, and how many steps the store had made before it and after it. Its own steps are those between.
#[derive(Debug, Drop)]
pub struct Entry<A: Allocator = Global> {
    pub actor: Actor,
    pub command: Command<A>,
    pub reply: Reply<A>,
    pub before: u64,
    pub after: u64,
}

/// What a book has beside its store, in whose trace its steps stand.
#[derive(Drop)]
pub struct Rest<A: Allocator = Global> {
    pub opening: Vec<BlockBytes<A>, A>,
    pub calls: Vec<Entry<A>, A>,
    pub counts: Counts,
}
